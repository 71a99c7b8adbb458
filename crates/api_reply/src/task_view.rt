//! The view of a task.
ghost use Rattle.std.specs.Prelude.{◌≡◌, IfOk};
ghost use Rattle.serde_json.specs.View.{view};
ghost use Rattle.plugin_core.specs.Participants.{participants};
ghost use Rattle.plugin_core.specs.WriteTest.{names_data};
ghost use Rattle.task_spec.specs.WriteTask.{members_in, task_data};
ghost use Rattle.api_reply.specs.Bounds.{IsTaskShown};
ghost use Rattle.api_reply.specs.Views.{detail_data, task_state, task_view};

use crate::object::Object;
use host_model::task_row::TaskRow;
use plugin_core::participants::participants_of;
use plugin_core::write_test::write_names;
use ps_time::memory::Memory;
use ps_time::moment::Moment;
use serde_json::Value;
use std::alloc::Global;
use task_spec::task::Task;

fn task_state(closed: Option<Moment>) -> &'static str
    ensures { result.now ≡ task_state closed }
{
    match closed {
        None => "open",
        Some(_) => "canceled",
    }
}

fn write_participants(alloc: Global, row: &TaskRow) -> Result<Value, Memory>
    ensures { IfOk result (λ value. view value ≡ names_data (participants row.now.task.test row.now.asker.server)) }
{
    let names = participants_of(alloc, &row.task.test, row.asker.server.as_str())?;
    write_names(alloc, names.as_slice())
}

fn write_detail(alloc: Global, row: &TaskRow) -> Result<Value, Memory>
    ensures { IfOk result (λ value. view value ≡ detail_data row.now) }
{
    let participants = write_participants(alloc, row)?;
    Ok(
        Object::new(alloc)
            .with("participants", participants)?
            .text("requester", row.asker.requester.as_str())?
            .text("state", task_state(row.closed))?
            .into_value(),
    )
}

/// The members of a task as it was posted.
fn posted_members(alloc: Global, task: &Task) -> Result<Object, Memory>
    requires { IsTaskShown task.now }
    ensures { IfOk result (λ made. made ≡ members_in (task_data task.now)) }
{
    match task.write(alloc)? {
        Value::Object(members) => Ok(Object::of_members(alloc, members)),
        other => {
            drop(other);
            Ok(Object::new(alloc))
        }
    }
}

/// A task: what was posted, who takes part, who asked, and whether it is open.
pub fn write_task(alloc: Global, row: &TaskRow) -> Result<Value, Memory>
    requires { IsTaskShown row.now.task }
    ensures { IfOk result (λ value. view value ≡ task_view row.now) }
{
    let object = posted_members(alloc, &row.task)?;
    let object = object.with("detail", write_detail(alloc, row)?)?;
    let object = object.with("tools", write_names(alloc, row.task.tools.as_slice())?)?;
    Ok(object.into_value())
}
