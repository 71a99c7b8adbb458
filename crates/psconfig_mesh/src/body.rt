//! What is posted for one pair of hosts, and the mark that tells it from the rest.
ghost use Rattle.std.specs.Prelude.{◌≡◌, ◌≤◌, IfOk};
ghost use Rattle.serde_json.specs.View.{view, members_view};
ghost use Rattle.ps_time.specs.declared.moment.TheConstants.{MAX_MOMENT};
ghost use Rattle.task_spec.specs.WriteTask.{members_in};
ghost use Rattle.psconfig_mesh.specs.Body.{hosts_data, mark_data, body_data, fits};

use crate::mesh::MeshTask;
use mesh_parts::fill::fill;
use mesh_parts::group::Pair;
use mesh_parts::tree::Tree;
use ps_json::shape::{is_deeper, is_whole};
use ps_json::tree::MAX_DEPTH;
use ps_time::memory::Memory;
use ps_time::moment::Moment;
use serde_json::{Map, Value, json, put};
use std::alloc::Global;
use task_spec::fault::TaskFault;
use task_spec::task::Task;

fn write_hosts(alloc: Global, pair: &Pair) -> Result<Value, Memory>
    ensures { IfOk result (λ value. view value ≡ hosts_data pair.now) }
{
    let first = pair.first.as_str();
    match &pair.second {
        None => Ok(json!(in alloc; [first])?),
        Some(second) => Ok(json!(in alloc; [first, second.as_str()])?),
    }
}

/// The mark of a task of a mesh for these hosts.
pub fn write_mark(alloc: Global, mesh: &str, task: &str, pair: &Pair) -> Result<Value, Memory>
    ensures { IfOk result (λ value. view value ≡ mark_data mesh.now task.now pair.now) }
{
    let hosts = write_hosts(alloc, pair)?;
    Ok(json!(in alloc; {"mesh": mesh, "pair": hosts, "task": task})?)
}

/// The members of an object.
fn copy_members(alloc: Global, tree: &Tree) -> Result<Map<String, Value>, Memory>
    ensures { IfOk result (λ members. members_view members.entries ≡ members_in tree.now) }
{
    match tree.as_value().clone()? {
        Value::Object(members) => Ok(members),
        other => {
            drop(other);
            Ok(Map::new(alloc))
        }
    }
}

/// What is posted for these hosts: the task's members, its test with hosts in place of the templates, and
/// the mark as its reference.
pub fn write_body(alloc: Global, mesh: &str, task: &MeshTask, pair: &Pair) -> Result<Value, Memory>
    ensures { IfOk result (λ value. view value ≡ body_data mesh.now task.now pair.now) }
{
    let mut members = copy_members(alloc, &task.rest)?;
    let test = fill(alloc, task.test.as_value(), Some(pair))?;
    put(&mut members, alloc, "test", test)?;
    let mark = write_mark(alloc, mesh, task.name.as_str(), pair)?;
    put(&mut members, alloc, "reference", mark)?;
    Ok(Value::Object(members))
}

/// Whether a host would read the body as a task that it leads: a text of a tree that isn't too deep, with
/// whole numbers alone.
#[tactic(auto, unfolding(crate::specs::Body::fits))]
fn is_body(alloc: Global, body: Value, now: Moment, lead: &str) -> Result<bool, Memory>
    requires { now ≤ MAX_MOMENT }
    ensures { IfOk result (λ is. is ≡ fits now lead.now (view body)) }
{
    if !is_whole(&body) || is_deeper(&body, MAX_DEPTH) {
        return Ok(false);
    }
    match Task::read(alloc, body, now, lead) {
        Ok(_) => Ok(true),
        Err(TaskFault::Memory) => Err(Memory),
        Err(_) => Ok(false),
    }
}

/// Whether the first of these hosts would read the task's body for them as a task that it leads.
pub fn fits(
    alloc: Global,
    mesh: &str,
    task: &MeshTask,
    pair: &Pair,
    now: Moment,
) -> Result<bool, Memory>
    requires { now ≤ MAX_MOMENT }
    ensures { IfOk result (λ is. is ≡ fits now pair.now.first (body_data mesh.now task.now pair.now)) }
{
    let body = write_body(alloc, mesh, task, pair)?;
    is_body(alloc, body, now, pair.first.as_str())
}
