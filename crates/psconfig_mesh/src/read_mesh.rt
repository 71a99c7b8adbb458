//! The reader of meshes.
ghost use Rattle.std.specs.Prelude.{◌≡◌, ◌≤◌, All, IfOk, OnOk, [], codes};
ghost use Rattle.serde_json.specs.View.{view};
ghost use Rattle.ps_json.specs.Answer.{GivesUnless};
ghost use Rattle.ps_json.specs.Fields.{without_member};
ghost use Rattle.ps_json.specs.Member.{required, optional};
ghost use Rattle.ps_time.specs.declared.moment.TheConstants.{MAX_MOMENT};
ghost use Rattle.mesh_parts.specs.Entries.{objects_in};
ghost use Rattle.mesh_parts.specs.Fault.{wrapped};
ghost use Rattle.psconfig_mesh.specs.Mesh.{IsMesh, IsFit, task_names, wanted_count};
ghost use Rattle.mesh_parts.specs.Named.{Ascend, names_of};
ghost use Rattle.mesh_parts.specs.ReadGroups.{host_name_in, addresses_in, groups_in};
ghost use Rattle.psconfig_mesh.specs.ReadMesh.{outline_of, after_outline, mesh_in, mesh_of};
ghost use Rattle.psconfig_mesh.specs.ReadTasks.{tasks_in};

use crate::mesh::{Mesh, MeshTask};
use crate::read_tasks::{Outline, read_tasks};
use mesh_parts::entries::read_objects;
use mesh_parts::fault::MeshFault;
use mesh_parts::fill::fill;
use mesh_parts::group::Group;
use mesh_parts::named::Named;
use mesh_parts::read_groups::{read_addresses, read_groups, read_host_name};
use mesh_parts::tree::Tree;
use ps_json::fields::Fields;
use ps_json::tree::read_tree;
use ps_time::items::Items;
use ps_time::moment::Moment;
use ps_time::text::Text;
use serde_json::Value;
use std::alloc::Global;

fn need_name(alloc: Global, fields: &mut Fields) -> Result<Text, MeshFault>
    ensures value { GivesUnless MeshFault.Memory result (required wrapped host_name_in (codes "mesh") fields.old) }
    ensures rest { fields.new ≡ without_member (codes "mesh") fields.old }
{
    let value = fields.need(alloc, "mesh")?;
    read_host_name(alloc, value, "mesh")
}

fn need_addresses(alloc: Global, fields: &mut Fields) -> Result<Items<Named<Text>>, MeshFault>
    ensures value { GivesUnless MeshFault.Memory result (required wrapped addresses_in (codes "addresses") fields.old) }
    ensures order { IfOk result (λ addresses. Ascend (names_of addresses)) }
    ensures rest { fields.new ≡ without_member (codes "addresses") fields.old }
{
    let value = fields.need(alloc, "addresses")?;
    read_addresses(alloc, &value, "addresses")
}

fn need_groups(
    alloc: Global,
    fields: &mut Fields,
    addresses: &[Named<Text>],
) -> Result<Items<Named<Group>>, MeshFault>
    ensures value { GivesUnless MeshFault.Memory result
        (required wrapped (groups_in addresses.now) (codes "groups") fields.old) }
    ensures rest { fields.new ≡ without_member (codes "groups") fields.old }
{
    let value = fields.need(alloc, "groups")?;
    read_groups(alloc, &value, "groups", addresses)
}

fn need_tests(alloc: Global, fields: &mut Fields) -> Result<Items<Named<Tree>>, MeshFault>
    ensures value { GivesUnless MeshFault.Memory result (required wrapped objects_in (codes "tests") fields.old) }
    ensures rest { fields.new ≡ without_member (codes "tests") fields.old }
{
    let value = fields.need(alloc, "tests")?;
    read_objects(alloc, &value, "tests")
}

fn take_schedules(alloc: Global, fields: &mut Fields) -> Result<Items<Named<Tree>>, MeshFault>
    ensures value { GivesUnless MeshFault.Memory result (optional [] objects_in (codes "schedules") fields.old) }
    ensures rest { fields.new ≡ without_member (codes "schedules") fields.old }
{
    match fields.take("schedules") {
        None => Ok(Items::new(alloc)),
        Some(value) => read_objects(alloc, &value, "schedules"),
    }
}

/// The members before the tasks.
fn take_outline(alloc: Global, fields: &mut Fields, now: Moment) -> Result<Outline, MeshFault>
    ensures value { GivesUnless MeshFault.Memory result (outline_of now fields.old) }
    ensures moment { IfOk result (λ outline. outline.moment ≡ now) }
    ensures order { IfOk result (λ outline. Ascend (names_of outline.addresses)) }
    ensures rest { OnOk result (fields.new ≡ after_outline fields.old) }
{
    let name = need_name(alloc, fields)?;
    let addresses = need_addresses(alloc, fields)?;
    let groups = need_groups(alloc, fields, addresses.as_slice())?;
    let tests = need_tests(alloc, fields)?;
    let schedules = take_schedules(alloc, fields)?;
    Ok(Outline {
        moment: now,
        name,
        addresses,
        groups,
        tests,
        schedules,
    })
}

fn need_tasks(
    alloc: Global,
    fields: &mut Fields,
    outline: &Outline,
) -> Result<Items<MeshTask>, MeshFault>
    requires { outline.now.moment ≤ MAX_MOMENT }
    ensures value { GivesUnless MeshFault.Memory result
        (required wrapped (tasks_in outline.now) (codes "tasks") fields.old) }
    ensures order { IfOk result (λ tasks. Ascend (task_names tasks)) }
    ensures few { IfOk result (λ tasks. wanted_count outline.now.addresses tasks ≤ 4_096) }
    ensures fit { IfOk result (λ tasks. All (IsFit outline.now.moment outline.now.name outline.now.addresses) tasks) }
    ensures rest { fields.new ≡ without_member (codes "tasks") fields.old }
{
    let value = fields.need(alloc, "tasks")?;
    read_tasks(alloc, &value, "tasks", outline)
}

/// The mesh that a tree without comments is.
#[tactic(auto, unfolding(crate::specs::ReadMesh::mesh_in))]
fn read_bare(alloc: Global, value: Value, now: Moment) -> Result<Mesh, MeshFault>
    requires { now ≤ MAX_MOMENT }
    ensures value { GivesUnless MeshFault.Memory result (mesh_in now (view value)) }
    ensures lawful { IfOk result IsMesh }
{
    let mut fields = Fields::open(alloc, value, "mesh")?;
    let outline = take_outline(alloc, &mut fields, now)?;
    let tasks = need_tasks(alloc, &mut fields, &outline)?;
    fields.end(alloc)?;
    Ok(Mesh {
        moment: outline.moment,
        name: outline.name,
        addresses: outline.addresses,
        tasks,
    })
}

/// The mesh that a text describes, where `now` is the moment at which its tasks are to be posted. The first
/// fault comes, in the order in which `docs/specification/meshes.md` names the members.
pub fn read_mesh(alloc: Global, bytes: &[u8], now: Moment) -> Result<Mesh, MeshFault>
    requires { now ≤ MAX_MOMENT }
    ensures value { GivesUnless MeshFault.Memory result (mesh_of now bytes.now) }
    ensures lawful { IfOk result IsMesh }
{
    let value = read_tree(alloc, bytes)?;
    let value = fill(alloc, &value, None)?;
    read_bare(alloc, value, now)
}
