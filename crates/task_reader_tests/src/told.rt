//! Answers, and why there are none.

use std::fmt::Display;
use std::{io, println};
use task_spec::fault::TaskFault;

// The fault as a task would tell it.
fn tell_reason(rt: &HostRuntime, fault: &TaskFault) -> io::Result<()> {
    match fault {
        TaskFault::Json(inner) => println!(rt; "{inner}"),
        TaskFault::BadTime(member, inner) => println!(rt; "bad time {member} {inner:?}"),
        TaskFault::UnknownTest(name) => println!(rt; "unknown test {name}"),
        TaskFault::BadPriority => println!(rt; "bad priority"),
        TaskFault::UnknownTool(name) => println!(rt; "unknown tool {name}"),
        TaskFault::UnknownArchiver(name) => println!(rt; "unknown archiver {name}"),
        TaskFault::BadSpec(member) => println!(rt; "bad spec {member}"),
        TaskFault::Memory => println!(rt; "out of memory"),
    }
}

/// Why nothing was read. The fault is let go by a call, as its drop is a case for each variant.
pub(crate) fn tell_fault(rt: &HostRuntime, fault: TaskFault) -> io::Result<()> {
    let told = tell_reason(rt, &fault);
    drop(fault);
    told
}

fn tell_value<T: Display + Drop>(rt: &HostRuntime, value: T) -> io::Result<()> {
    println!(rt; "{value}")
}

/// What was read, or why it is refused.
pub(crate) fn tell<T: Display + Drop>(
    rt: &HostRuntime,
    answer: Result<T, TaskFault>,
) -> io::Result<()> {
    match answer {
        Ok(value) => tell_value(rt, value),
        Err(fault) => tell_fault(rt, fault),
    }
}
