//! The reader of a mesh's tasks.
ghost use Rattle.std.specs.Prelude.{◌≡◌, ◌≤◌, ◌+◌, [], length, option_map, All, IfOk, OnOk, None, codes};
ghost use Rattle.serde_json.specs.View.{view, members_view};
ghost use Rattle.ps_json.specs.Answer.{GivesUnless};
ghost use Rattle.ps_json.specs.Fields.{without_member};
ghost use Rattle.ps_json.specs.Member.{optional};
ghost use Rattle.ps_time.specs.declared.moment.TheConstants.{MAX_MOMENT};
ghost use Rattle.psconfig_mesh.specs.Body.{fits};
ghost use Rattle.psconfig_mesh.specs.Mesh.{task_names, pairs_in, wanted_count, IsFit};
ghost use Rattle.mesh_parts.specs.Named.{Ascend, names_of};
ghost use Rattle.psconfig_mesh.specs.ReadTasks.{named_in, test_in, schedule_in, with_some, rest_of, task_in, are_fit, count_with, tasks_from, tasks_in};

use crate::body::fits;
use crate::mesh::MeshTask;
use mesh_parts::entries::read_counted;
use mesh_parts::fault::MeshFault;
use mesh_parts::fill::{SECOND_HOST, mentions};
use mesh_parts::group::{Group, Pair};
use mesh_parts::named::{Named, find};
use mesh_parts::tree::Tree;
use ps_json::fields::Fields;
use ps_json::kinds::read_text;
use ps_time::duplicate::Duplicate;
use ps_time::items::Items;
use ps_time::memory::Memory;
use ps_time::moment::Moment;
use ps_time::text::Text;
use serde_json::{Map, Value, put};
use std::alloc::Global;

/// The most tasks that a mesh wants.
pub const MAX_WANTED: usize = 4_096;

/// What the tasks of a mesh name.
#[derive(Drop)]
pub struct Outline {
    /// When the mesh is read.
    pub moment: Moment,
    /// The name of the mesh.
    pub name: Text,
    pub addresses: Items<Named<Text>>,
    pub groups: Items<Named<Group>>,
    pub tests: Items<Named<Tree>>,
    pub schedules: Items<Named<Tree>>,
}

/// A copy of the thing that a text names.
fn read_named<T: Duplicate>(
    alloc: Global,
    value: Value,
    member: &str,
    things: &[Named<T>],
) -> Result<T, MeshFault>
    ensures { GivesUnless MeshFault.Memory result (named_in things.now member.now (view value)) }
{
    let name = Text::from_string(read_text(alloc, value, member)?);
    match find(name.as_str(), things) {
        Some(thing) => Ok(thing.duplicate(alloc)?),
        None => Err(MeshFault::UnknownName(name)),
    }
}

/// A copy of the test that a text names, for a task of this group.
fn read_test(
    alloc: Global,
    value: Value,
    member: &str,
    tests: &[Named<Tree>],
    group: &Group,
) -> Result<Tree, MeshFault>
    ensures { GivesUnless MeshFault.Memory result (test_in tests.now group.now member.now (view value)) }
{
    let name = Text::from_string(read_text(alloc, value, member)?);
    let Some(test) = find(name.as_str(), tests) else {
        return Err(MeshFault::UnknownName(name));
    };
    if group.is_list() && mentions(test.as_value(), SECOND_HOST) {
        return Err(MeshFault::BadTemplate(name));
    }
    Ok(test.copy(alloc)?)
}

fn take_schedule(
    alloc: Global,
    fields: &mut Fields,
    schedules: &[Named<Tree>],
) -> Result<Option<Tree>, MeshFault>
    ensures value { GivesUnless MeshFault.Memory result
        (optional None (schedule_in schedules.now) (codes "schedule") fields.old) }
    ensures rest { fields.new ≡ without_member (codes "schedule") fields.old }
{
    match fields.take("schedule") {
        None => Ok(None),
        Some(value) => Ok(Some(read_named(alloc, value, "schedule", schedules)?)),
    }
}

fn put_some(
    members: &mut Map<String, Value>,
    alloc: Global,
    name: &str,
    value: Option<Value>,
) -> Result<(), Memory>
    ensures { OnOk result (members_view members.new.entries
        ≡ with_some name.now (option_map view value) (members_view members.old.entries)) }
{
    if let Some(value) = value {
        put(members, alloc, name, value)?;
    }
    Ok(())
}

fn put_schedule(
    members: &mut Map<String, Value>,
    alloc: Global,
    schedule: Option<Tree>,
) -> Result<(), Memory>
    ensures { OnOk result (members_view members.new.entries
        ≡ with_some (codes "schedule") schedule (members_view members.old.entries)) }
{
    if let Some(schedule) = schedule {
        put(members, alloc, "schedule", schedule.into_value())?;
    }
    Ok(())
}

/// The members behind the test, as an object.
fn read_rest(
    alloc: Global,
    mut fields: Fields,
    schedules: &[Named<Tree>],
) -> Result<Tree, MeshFault>
    ensures { GivesUnless MeshFault.Memory result (rest_of schedules.now fields) }
{
    let schedule = take_schedule(alloc, &mut fields, schedules)?;
    let mut members = Map::new(alloc);
    put_schedule(&mut members, alloc, schedule)?;
    put_some(&mut members, alloc, "tools", fields.take("tools"))?;
    put_some(&mut members, alloc, "archives", fields.take("archives"))?;
    put_some(&mut members, alloc, "priority", fields.take("priority"))?;
    fields.end(alloc)?;
    Ok(Tree::new(Value::Object(members)))
}

#[tactic(auto, unfolding(crate::specs::ReadTasks::task_in))]
fn read_task(
    alloc: Global,
    name: Text,
    tree: Tree,
    outline: &Outline,
) -> Result<MeshTask, MeshFault>
    ensures value { GivesUnless MeshFault.Memory result (task_in outline.now name tree) }
    ensures name { IfOk result (λ task. task.name ≡ name) }
{
    let mut fields = Fields::open(alloc, tree.into_value(), name.as_str())?;
    let group = fields.need(alloc, "group")?;
    let group = read_named(alloc, group, "group", outline.groups.as_slice())?;
    let test = fields.need(alloc, "test")?;
    let test = read_test(alloc, test, "test", outline.tests.as_slice(), &group)?;
    let rest = read_rest(alloc, fields, outline.schedules.as_slice())?;
    Ok(MeshTask {
        name,
        group,
        test,
        rest,
    })
}

/// Whether the task's bodies for all these pairs would be read as tasks.
fn are_fit(
    alloc: Global,
    outline: &Outline,
    task: &MeshTask,
    pairs: &[Pair],
) -> Result<bool, Memory>
    requires { outline.now.moment ≤ MAX_MOMENT }
    ensures { IfOk result (λ are. are ≡ are_fit outline.now.moment outline.now.name task.now pairs.now) }
{
    for pair in pairs {
        if !fits(alloc, outline.name.as_str(), task, pair, outline.moment)? {
            return Ok(false);
        }
    }
    Ok(true)
}

/// How many tasks are wanted with this one, where so many were before.
#[tactic(auto, unfolding(crate::specs::ReadTasks::count_with))]
fn count_with(
    alloc: Global,
    outline: &Outline,
    count: usize,
    task: &MeshTask,
) -> Result<usize, MeshFault>
    requires moment { outline.now.moment ≤ MAX_MOMENT }
    requires few { count ≤ 4_096 }
    ensures value { GivesUnless MeshFault.Memory result (count_with outline.now count task.now) }
    ensures few { IfOk result (λ more. more ≤ 4_096) }
    ensures more { IfOk result (λ more. more ≡ count + length (pairs_in outline.now.addresses task.now)) }
    ensures fit { IfOk result (λ _. IsFit outline.now.moment outline.now.name outline.now.addresses task.now) }
{
    let pairs = task.group.pairs(alloc, outline.addresses.as_slice())?;
    if !are_fit(alloc, outline, task, pairs.as_slice())? {
        return Err(MeshFault::bad_task(alloc, task.name.as_str()));
    }
    if pairs.len() > MAX_WANTED - count {
        return Err(MeshFault::too_many(alloc, "tasks"));
    }
    Ok(count + pairs.len())
}

fn read_all(
    alloc: Global,
    entries: Vec<Named<Tree>>,
    outline: &Outline,
) -> Result<Items<MeshTask>, MeshFault>
    requires { outline.now.moment ≤ MAX_MOMENT }
    ensures value { GivesUnless MeshFault.Memory result (tasks_from outline.now 0 [] entries.items) }
    ensures names { IfOk result (λ tasks. task_names tasks ≡ names_of entries.items) }
    ensures few { IfOk result (λ tasks. wanted_count outline.now.addresses tasks ≤ 4_096) }
    ensures fit { IfOk result (λ tasks. All (IsFit outline.now.moment outline.now.name outline.now.addresses) tasks) }
{
    let mut tasks = Items::new(alloc);
    let mut count = 0;
    for entry in entries {
        let Named { name, value } = entry;
        let task = read_task(alloc, name, value, outline)?;
        count = count_with(alloc, outline, count, &task)?;
        tasks.push(task)?;
    }
    Ok(tasks)
}

/// 1 to 64 tasks over what the outline names. They are read one after another: each one's members, then its
/// bodies, then how many tasks are wanted so far.
pub fn read_tasks(
    alloc: Global,
    value: &Value,
    name: &str,
    outline: &Outline,
) -> Result<Items<MeshTask>, MeshFault>
    requires { outline.now.moment ≤ MAX_MOMENT }
    ensures value { GivesUnless MeshFault.Memory result (tasks_in outline.now name.now (view value.now)) }
    ensures order { IfOk result (λ tasks. Ascend (task_names tasks)) }
    ensures few { IfOk result (λ tasks. wanted_count outline.now.addresses tasks ≤ 4_096) }
    ensures fit { IfOk result (λ tasks. All (IsFit outline.now.moment outline.now.name outline.now.addresses) tasks) }
{
    let entries = read_counted(alloc, value, name)?;
    read_all(alloc, entries.into_vec(), outline)
}
