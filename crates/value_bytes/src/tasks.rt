//! Tasks of texts.
ghost use Rattle.std.specs.Prelude.{◌≡◌, ◌≤◌, IfOk, Ok, length};
ghost use Rattle.serde_json.specs.View.{view};
ghost use Rattle.ps_json.specs.Tree.{tree_of};
ghost use Rattle.task_spec.specs.Bounds.{IsTask};
ghost use Rattle.task_spec.specs.ReadTask.{task_of};
ghost use Rattle.task_spec.specs.WriteTask.{most_task_bytes, task_data};
ghost use Rattle.value_bytes.specs.Gives.{Gives};
ghost use Rattle.value_bytes.specs.Tasks.{IsOwnTask, own_task, task_in, task_text};
ghost use Rattle.value_bytes.specs.Tests.{ok_of};

use crate::fault::CodeFault;
use crate::trees::tree_in;
use ps_json::tree::write_text;
use ps_time::memory::Memory;
use ps_time::text::Text;
use serde_json::Value;
use std::alloc::Global;
use task_spec::fault::TaskFault;
use task_spec::task::Task;
use task_spec::write_task::law_task_text;

fn task_of(alloc: Global, value: Value, host: &str) -> Result<Task, CodeFault>
    ensures value { Gives (λ task. task) result (ok_of (task_of 0 host.now (view value))) }
    ensures bounds { IfOk result (IsTask host.now) }
{
    match Task::read(alloc, value, 0, host) {
        Ok(task) => Ok(task),
        Err(TaskFault::Memory) => Err(CodeFault::Memory),
        Err(fault) => {
            drop(fault);
            Err(CodeFault::NoValue)
        }
    }
}

/// The text of a task that the host of this name leads.
pub fn task_text(alloc: Global, _host: &str, task: &Task) -> Result<Text, Memory>
    requires { IsTask _host.now task.now }
    ensures text { IfOk result (λ text. text ≡ task_text task.now) }
    ensures tree { IfOk result (λ text. tree_of text ≡ Ok (task_data task.now)) }
    ensures short { IfOk result (λ text. length text ≤ most_task_bytes) }
{
    law_task_text();
    let value = task.write(alloc)?;
    write_text(alloc, &value)
}

/// The task, where the text is its own.
fn own_task(alloc: Global, text: &Text, host: &str, task: Task) -> Result<Task, CodeFault>
    requires { IsTask host.now task }
    ensures value { Gives (λ task. task) result (own_task text.now task) }
    ensures own { IfOk result (IsOwnTask host.now text.now) }
{
    let own = match task_text(alloc, host, &task) {
        Ok(own) => own,
        Err(Memory) => {
            drop(task);
            return Err(CodeFault::Memory);
        }
    };
    if own.as_str() == text.as_str() {
        Ok(task)
    } else {
        drop(task);
        Err(CodeFault::NoValue)
    }
}

/// The task whose text this is, which the host of this name leads.
pub fn task_in(alloc: Global, text: &Text, host: &str) -> Result<Task, CodeFault>
    ensures value { Gives (λ task. task) result (task_in host.now text.now) }
    ensures own { IfOk result (IsOwnTask host.now text.now) }
{
    let value = tree_in(alloc, text)?;
    let task = task_of(alloc, value, host)?;
    own_task(alloc, text, host, task)
}
