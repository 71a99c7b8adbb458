//! The writer of tasks.
ghost use Rattle.std.specs.Prelude.{◌≡◌, ◌≤◌, ℕ, List, Ok, Some, length, map, All, IfOk, IfSome, OnOk, codes};
ghost use Rattle.serde_json.specs.Data.{array, object, depth, put as with_member};
ghost use Rattle.serde_json.specs.View.{view, members_view, items_of};
ghost use Rattle.serde_json.specs.Written.{compact_text};
ghost use Rattle.ps_json.specs.Tree.{IsWhole};
ghost use Rattle.ps_time.specs.declared.moment.TheConstants.{MAX_LENGTH, MAX_MOMENT};
ghost use Rattle.plugin_core.specs.Bounds.{IsTest};
ghost use Rattle.plugin_core.specs.WriteTest.{length_data};
ghost use Rattle.archive_retry.specs.Bounds.{IsEntry, IsPolicy};
ghost use Rattle.archive_retry.specs.Merge.{result_tree as kept_tree, IsTreeText};
ghost use Rattle.task_spec.specs.Bounds.{IsArchive, IsReference, IsRest, IsTask};
ghost use Rattle.task_spec.specs.ReadTask.{without_test, task_of};
ghost use Rattle.task_spec.specs.WriteTask.{with_some, moment_data, count_data, schedule_data, entry_data, with_policy, members_in, archive_data, with_tools, task_data, most_task_bytes};
ghost use Rattle.task_spec.specs.declared.task.Task.{Task};

use crate::task::{Archive, Task};
use archive_retry::merge::read_kept;
use archive_retry::policy::{Entry, Policy};
use plugin_core::write_test::{law_test, put_length, write_names, write_test};
use ps_time::length_text::{law_length_text, length_text};
use ps_time::memory::Memory;
use ps_time::moment::{Length, Moment};
use ps_time::moment_text::{law_moment_text, moment_text};
use ps_time::text::Text;
use schedule_rule::rule::Rule;
use serde_json::{Map, Value, json, put};
use std::alloc::Global;

fn put_moment(
    members: &mut Map<String, Value>,
    alloc: Global,
    name: &str,
    moment: Moment,
) -> Result<(), Memory>
    requires { moment ≤ MAX_MOMENT }
    ensures { OnOk result (members_view members.new.entries
        ≡ with_member name.now (moment_data moment) (members_view members.old.entries)) }
{
    let text = moment_text(alloc, moment)?;
    put(members, alloc, name, Value::String(text.into_string()))?;
    Ok(())
}

fn put_repeat(
    members: &mut Map<String, Value>,
    alloc: Global,
    repeat: Option<Length>,
) -> Result<(), Memory>
    requires { IfSome repeat (λ r. r ≤ MAX_LENGTH) }
    ensures { OnOk result (members_view members.new.entries
        ≡ with_some (codes "repeat") length_data repeat (members_view members.old.entries)) }
{
    match repeat {
        None => Ok(()),
        Some(repeat) => put_length(members, alloc, "repeat", repeat),
    }
}

fn put_until(
    members: &mut Map<String, Value>,
    alloc: Global,
    until: Option<Moment>,
) -> Result<(), Memory>
    requires { IfSome until (λ u. u ≤ MAX_MOMENT) }
    ensures { OnOk result (members_view members.new.entries
        ≡ with_some (codes "until") moment_data until (members_view members.old.entries)) }
{
    match until {
        None => Ok(()),
        Some(until) => put_moment(members, alloc, "until", until),
    }
}

fn put_runs(
    members: &mut Map<String, Value>,
    alloc: Global,
    runs: Option<u32>,
) -> Result<(), Memory>
    ensures { OnOk result (members_view members.new.entries
        ≡ with_some (codes "max-runs") count_data runs (members_view members.old.entries)) }
{
    match runs {
        None => Ok(()),
        Some(runs) => {
            put(members, alloc, "max-runs", Value::from(runs))?;
            Ok(())
        }
    }
}

fn write_schedule(alloc: Global, rule: &Rule) -> Result<Value, Memory>
    ensures { IfOk result (λ value. view value ≡ schedule_data rule.now) }
{
    let mut members = Map::new(alloc);
    put_moment(&mut members, alloc, "start", rule.anchor)?;
    put_length(&mut members, alloc, "slip", rule.slip)?;
    put_repeat(&mut members, alloc, rule.repeat)?;
    put_until(&mut members, alloc, rule.until)?;
    put_runs(&mut members, alloc, rule.max_runs)?;
    Ok(Value::Object(members))
}

fn write_entry(alloc: Global, entry: &Entry) -> Result<Value, Memory>
    requires { IsEntry entry.now }
    ensures { IfOk result (λ value. view value ≡ entry_data entry.now) }
{
    let wait = length_text(alloc, entry.wait)?;
    Ok(json!(in alloc; {"attempts": entry.attempts, "wait": wait.as_str()})?)
}

fn write_entries(alloc: Global, entries: &[Entry]) -> Result<Value, Memory>
    requires { All IsEntry entries.now }
    ensures { IfOk result (λ value. view value ≡ array (items_of (map entry_data entries.now))) }
{
    let mut values = Vec::new(alloc);
    for entry in entries {
        values.push(write_entry(alloc, entry)?)?;
    }
    Ok(Value::Array(values))
}

fn put_policy(
    members: &mut Map<String, Value>,
    alloc: Global,
    policy: &Policy,
) -> Result<(), Memory>
    requires { IsPolicy policy.now }
    ensures { OnOk result (members_view members.new.entries
        ≡ with_policy policy.now.entries (members_view members.old.entries)) }
{
    let entries = policy.entries.as_slice();
    if entries.is_empty() {
        return Ok(());
    }
    let entries = write_entries(alloc, entries)?;
    put(members, alloc, "retry-policy", entries)?;
    Ok(())
}

/// The members of the object that a text holds.
fn members_of(alloc: Global, text: &Text) -> Result<Map<String, Value>, Memory>
    requires { IsTreeText text.now }
    ensures { IfOk result (λ members. members_view members.entries ≡ members_in (kept_tree (Some text.now))) }
{
    match read_kept(alloc, text)? {
        Value::Object(members) => Ok(members),
        other => {
            drop(other);
            Ok(Map::new(alloc))
        }
    }
}

fn write_archive(alloc: Global, archive: &Archive) -> Result<Value, Memory>
    requires { IsArchive archive.now }
    ensures { IfOk result (λ value. view value ≡ archive_data archive.now) }
{
    let mut members = members_of(alloc, &archive.settings)?;
    put_policy(&mut members, alloc, &archive.policy)?;
    let members = Value::Object(members);
    Ok(json!(in alloc; {"archiver": archive.archiver.as_str(), "data": members})?)
}

fn write_archives(alloc: Global, archives: &[Archive]) -> Result<Value, Memory>
    requires { All IsArchive archives.now }
    ensures { IfOk result (λ value. view value ≡ array (items_of (map archive_data archives.now))) }
{
    let mut values = Vec::new(alloc);
    for archive in archives {
        values.push(write_archive(alloc, archive)?)?;
    }
    Ok(Value::Array(values))
}

fn write_reference(alloc: Global, reference: &Option<Text>) -> Result<Value, Memory>
    requires { IfSome reference.now IsReference }
    ensures { IfOk result (λ value. view value ≡ kept_tree reference.now) }
{
    match reference {
        None => Ok(Value::Null),
        Some(text) => read_kept(alloc, text),
    }
}

fn put_tools(members: &mut Map<String, Value>, alloc: Global, tools: &[Text]) -> Result<(), Memory>
    ensures { OnOk result (members_view members.new.entries
        ≡ with_tools tools.now (members_view members.old.entries)) }
{
    if tools.is_empty() {
        return Ok(());
    }
    let tools = write_names(alloc, tools)?;
    put(members, alloc, "tools", tools)?;
    Ok(())
}

fn task_members(alloc: Global, task: &Task) -> Result<Map<String, Value>, Memory>
    requires test { IsTest task.now.test }
    requires rest { IsRest (without_test task.now) }
    ensures { IfOk result (λ members. object (members_view members.entries) ≡ task_data task.now) }
{
    let mut members = Map::new(alloc);
    put(&mut members, alloc, "test", write_test(alloc, &task.test)?)?;
    put(&mut members, alloc, "schema", Value::from(1u64))?;
    put(
        &mut members,
        alloc,
        "schedule",
        write_schedule(alloc, &task.rule)?,
    )?;
    put(
        &mut members,
        alloc,
        "reference",
        write_reference(alloc, &task.reference)?,
    )?;
    put(&mut members, alloc, "priority", Value::from(task.priority))?;
    put(
        &mut members,
        alloc,
        "archives",
        write_archives(alloc, task.archives.as_slice())?,
    )?;
    put_tools(&mut members, alloc, task.tools.as_slice())?;
    Ok(members)
}

fn task_tree(alloc: Global, task: &Task) -> Result<Value, Memory>
    requires test { IsTest task.now.test }
    requires rest { IsRest (without_test task.now) }
    ensures { IfOk result (λ value. view value ≡ task_data task.now) }
{
    Ok(Value::Object(task_members(alloc, task)?))
}

impl Task {
    /// The tree of a task: an object with all members but the tools where none is wanted. The schedule's
    /// start is the moment that was resolved at posting.
    pub fn write(&self, alloc: Global) -> Result<Value, Memory>
        requires test { IsTest self.now.test }
        requires rest { IsRest (without_test self.now) }
        ensures tree { IfOk result (λ value. view value ≡ task_data self.now) }
        ensures whole { IfOk result (λ value. IsWhole (view value)) }
        ensures flat { IfOk result (λ value. depth (view value) ≤ 64) }
    {
        let value = task_tree(alloc, self)?;
        Ok(value)
    }
}

/// A law: the compact text of the tree of every task has at most 163,840 bytes.
pub fn law_task_text()
    ensures { (host : List ℕ) (task : Task) → IsTask host task
        → length (compact_text (task_data task)) ≤ most_task_bytes }
{}

/// A law: the tree of every task is read again as that task, by the host that leads it and whatever the
/// moment.
pub fn law_task()
    ensures { (now : ℕ) (host : List ℕ) (task : Task) → IsTask host task
        → task_of now host (task_data task) ≡ Ok task }
{
    law_length_text();
    law_moment_text();
    law_test();
}
