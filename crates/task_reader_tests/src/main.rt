//! What the crates of tasks read: tests, tools, policies of archives, results and tasks. Standard input has a line for each
//! case: a word that says as what the rest of the line is read, a blank, and the text. For each the program writes a line:
//! what was read, as it is written again, or why it is refused. A line that begins with `#` is written as it is. The status is
//! 1 where standard input or output fails.
#![tactic(auto)]

mod policies;
mod reader;
mod specs;
mod told;
mod tools;

use crate::reader::{Reader, cut, reader_of};
use crate::told::tell;
use plugin_core::kind::kinds;
use plugin_tool::choice::tools as all_tools;
use std::{io, println};
use task_spec::archive::archivers;

fn tell_spec_of(rt: &HostRuntime, reader: Reader, text: &str) -> io::Result<()> {
    match reader {
        Reader::Test => tell(rt, specs::test_again(rt.alloc(), text)),
        Reader::Bound => tell(rt, specs::bound_test(rt.alloc(), text)),
        Reader::Measure => tools::tell_measure(rt, text),
        Reader::Same => tools::tell_same(rt, text),
        Reader::Kinds => tools::tell_kinds(rt, kinds()),
        Reader::Task => tell(rt, specs::task_again(rt.alloc(), text)),
        Reader::Held => tell(rt, specs::held(rt.alloc(), text)),
        _ => tell_policy_of(rt, reader, text),
    }
}

fn tell_policy_of(rt: &HostRuntime, reader: Reader, text: &str) -> io::Result<()> {
    match reader {
        Reader::Merge => tell(rt, policies::merged(rt.alloc(), text)),
        Reader::Policy => policies::tell_policy(rt, text),
        Reader::Attempts => tell(rt, policies::attempts(rt.alloc(), text)),
        Reader::Walk => policies::tell_walk(rt, text),
        Reader::Result => tell(rt, policies::may_be_result(rt.alloc(), text)),
        Reader::Fails => tell(rt, policies::fails(rt.alloc(), text)),
        Reader::Archivers => policies::tell_archivers(rt, archivers()),
        _ => tell_tool_of(rt, reader, text),
    }
}

fn tell_tool_of(rt: &HostRuntime, reader: Reader, text: &str) -> io::Result<()> {
    match reader {
        Reader::Parts => tools::tell_parts(rt, text),
        Reader::Tool => tell(rt, tools::tool_result(rt.alloc(), text)),
        Reader::Outcome => tell(rt, tools::outcome(rt.alloc(), text)),
        Reader::Choice => tools::tell_choice(rt, text),
        Reader::ToolBytes => tell(rt, tools::result_bytes(rt.alloc(), text)),
        Reader::ToolNames => tools::tell_names_of(rt, &tools::TOOLS),
        Reader::Tools => tools::tell_names_of(rt, all_tools()),
        _ => println!(rt; "no such word"),
    }
}

fn tell_line(rt: &HostRuntime, line: &str) -> io::Result<()> {
    let (word, text) = cut(line);
    match reader_of(word) {
        Reader::Heading => println!(rt; "{line}"),
        reader => tell_spec_of(rt, reader, text),
    }
}

fn main(rt: HostRuntime) -> io::Result<()> {
    for line in rt.lines(rt.alloc()) {
        let line = line?;
        tell_line(&rt, line.as_str())?;
    }
    Ok(())
}
