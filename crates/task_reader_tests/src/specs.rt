//! Tests and tasks, and how they are written again.
ghost use Rattle.std.specs.Prelude.{codes, IfOk};
ghost use Rattle.plugin_core.specs.Bounds.{IsTest};
ghost use Rattle.task_spec.specs.Bounds.{IsTask};

use plugin_core::read_test::read_test;
use plugin_core::test_spec::TestSpec;
use plugin_core::write_test::write_test;
use ps_json::tree::{read_tree, write_text};
use ps_time::memory::Memory;
use ps_time::text::Text;
use std::alloc::Global;
use task_spec::fault::TaskFault;
use task_spec::task::Task;

pub(crate) fn test_in(alloc: Global, text: &str) -> Result<TestSpec, TaskFault>
    ensures { IfOk result IsTest }
{
    let value = read_tree(alloc, text.as_bytes())?;
    Ok(read_test(alloc, value)?)
}

fn written_test(alloc: Global, test: &TestSpec) -> Result<Text, Memory>
    requires { IsTest test.now }
{
    let value = write_test(alloc, test)?;
    write_text(alloc, &value)
}

/// A test, as it is written.
pub(crate) fn test_again(alloc: Global, text: &str) -> Result<Text, TaskFault> {
    let test = test_in(alloc, text)?;
    Ok(written_test(alloc, &test)?)
}

fn push_often(text: &mut String, part: &str, count: u32) -> Result<(), Memory> {
    for _time in 0..count {
        text.push_str(part)?;
    }
    Ok(())
}

/// A text in which `*COUNT*WORD*` stands for so many times the word.
pub(crate) fn expanded(alloc: Global, text: &str) -> Result<String, Memory> {
    let mut longer = String::new(alloc);
    let mut count = 1u32;
    for (place, part) in text.split('*').enumerate() {
        if place % 3 == 1 {
            count = part.parse().unwrap_or(0);
        } else {
            push_often(&mut longer, part, count)?;
            count = 1;
        }
    }
    Ok(longer)
}

/// Whether a text with repeated words is a test.
pub(crate) fn bound_test(alloc: Global, text: &str) -> Result<&'static str, TaskFault> {
    let text = expanded(alloc, text)?;
    drop(test_in(alloc, text.as_str())?);
    Ok("a test")
}

// The task that is read at 1,000 s at the lead `a`.
fn task_in(alloc: Global, text: &str) -> Result<Task, TaskFault>
    ensures { IfOk result (IsTask (codes "a")) }
{
    let value = read_tree(alloc, text.as_bytes())?;
    Task::read(alloc, value, 1_000, "a")
}

fn written_task(alloc: Global, task: &Task) -> Result<Text, Memory>
    requires { IsTask (codes "a") task.now }
{
    let value = task.write(alloc)?;
    write_text(alloc, &value)
}

fn written_copy(alloc: Global, task: &Task) -> Result<Text, Memory>
    requires { IsTask (codes "a") task.now }
{
    let copy = task.copy(alloc)?;
    written_task(alloc, &copy)
}

/// The copy of the task that is read at 1,000 s at the lead `a`, as it is written.
pub(crate) fn task_again(alloc: Global, text: &str) -> Result<Text, TaskFault> {
    let task = task_in(alloc, text)?;
    Ok(written_copy(alloc, &task)?)
}

fn body(alloc: Global, members: &str) -> Result<String, Memory> {
    let mut text = String::from_str(
        alloc,
        r#"{"test":{"type":"idle","spec":{"duration":"PT10S"}},"#,
    )?;
    text.push_str(members)?;
    text.push_str("}")?;
    Ok(text)
}

fn task_with(alloc: Global, members: &str) -> Result<Text, TaskFault> {
    let text = body(alloc, members)?;
    task_again(alloc, text.as_str())
}

/// Whether a task with these members, in which words are repeated, is written with exactly these.
pub(crate) fn held(alloc: Global, members: &str) -> Result<&'static str, TaskFault> {
    let members = expanded(alloc, members)?;
    let text = task_with(alloc, members.as_str())?;
    if text.as_str().contains(members.as_str()) {
        Ok("held")
    } else {
        Ok("not held")
    }
}
