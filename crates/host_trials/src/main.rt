//! Tries a kept host. Without a word it opens one on new disks in memory and has it make steps, of which calls of the disks fail.
//! Standard input has a line for each step: a name, a clock in seconds since 1970 UTC, and what the host is asked then, in the words
//! of `host_input_trials`. These lines are written:
//!
//! - `new` and `again`: the book's moment, and how many rows and epochs it has, of a host on new disks at 1000, and of what its disks
//!   give at 1010;
//! - `cut`: a message for each number of calls from 0 to 11. After so many calls of that first opening a crash tears the second disk.
//!   `o` says that the disks open again, with one epoch;
//! - for each step its name, how many calls that change it it makes of the first disk and of the second, and a message for each call from
//!   the first to one more than these. That call of each disk fails, and then a run is booked. `b` says that the book is then that
//!   without the step, and the one that is opened again too, `a` that both are those with it, `=` that all are the same, `?` that it
//!   is otherwise, and `.` that no fault was met;
//! - for a last line that asks `open`, the disks are opened again at its clock: its name, the same of the calls of that opening, and
//!   behind each call that fails the book that they give at an opening 2 seconds later. Then three times, as a crash leaves the writes
//!   that no sync made sure of dropped, kept, or torn, a message for each number of calls of the second disk behind which it comes, from
//!   none to all.
//!
//! With a folder as its word it opens the host whose pair of disks lies there, and prints how many rows it has and the generation of
//! the disk that counts, to be timed.
//!
//! The status is 2 for a line that says nothing, and 1 without memory or streams, or where disks stand for no host.
#![tactic(auto)]

mod fault;
mod faults;
mod host;
mod kept;
mod openings;
mod reopenings;
mod table;

use crate::fault::TableFault;
use crate::faults::Step;
use crate::kept::tell_kept;
use crate::table::{tell_openings, tell_step};
use std::process::ExitCode;
use std::{env, io};

fn lines_of(rt: &HostRuntime) -> Result<Vec<String>, TableFault> {
    let mut lines = Vec::new(rt.alloc());
    for line in rt.lines(rt.alloc()) {
        lines.push(line?)?;
    }
    Ok(lines)
}

fn tell_steps(rt: &HostRuntime, lines: &[String]) -> Result<(), TableFault> {
    for place in 0..lines.len() {
        let step = Step {
            before: &lines[..place],
            line: lines[place].as_str(),
        };
        tell_step(rt, &step)?;
    }
    Ok(())
}

fn tell_all(rt: &HostRuntime) -> Result<(), TableFault> {
    tell_openings(rt)?;
    let lines = lines_of(rt)?;
    tell_steps(rt, &lines)
}

fn folder_of(rt: &HostRuntime) -> io::Result<Option<String>> {
    let mut words = env::args(rt)?.skip(1);
    Ok(words.next())
}

fn told(rt: &HostRuntime) -> Result<(), TableFault> {
    match folder_of(rt)? {
        Some(folder) => tell_kept(rt, folder.as_str()),
        None => tell_all(rt),
    }
}

fn main(rt: HostRuntime) -> ExitCode {
    match told(&rt) {
        Ok(()) => ExitCode::SUCCESS,
        Err(TableFault::Line) => ExitCode::from(2),
        Err(_) => ExitCode::from(1),
    }
}
