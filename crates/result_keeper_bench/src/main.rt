//! Works on stores of results as the lines of standard input ask. A line that names a store begins with it, and lets the one
//! before go:
//!
//! - `memory` is a new store in memory, and `file PATH` the store in a file, which is made where it isn't there;
//! - `put NUMBER MOMENT BODY` keeps a result of the run of this number, and `fill COUNT` so many made results of ten tasks;
//! - `get NUMBER` prints since when the run has a record, its latest moment, and whether it is good or bad;
//! - `report` prints the report on all that is kept, and `list PAGE` a page of it;
//! - `show PATH` prints a file.
//!
//! Of a file that is refused it prints why, and passes over what is asked of it. The status is 2 for a line that says nothing, and
//! 1 where another call fails.
#![tactic(auto)]

mod asked;
mod fault;
mod given;

use crate::asked::{Lines, run_lines};
use crate::fault::LineFault;
use crate::given::cut;
use result_keeper::opening::OpenFault;
use result_keeper::sqlite_keeper::SqliteKeeper;
use result_keeper::work::work_on_files;
use sqlite::Alter;
use std::process::ExitCode;
use std::{fs, print, println};

fn print_refusal(rt: &HostRuntime, fault: OpenFault) -> Result<(), LineFault> {
    let word = match fault {
        OpenFault::OtherTables => "other tables",
        OpenFault::NoRecord => "no record",
        OpenFault::Failed | OpenFault::Memory => "failed",
    };
    println!(rt; "refused: {word}")?;
    Ok(())
}

// What needs a store's methods is asked for over any store, so that the prover shows once that it has them.
fn run_store<S: Alter + Drop>(
    rt: &HostRuntime,
    keeper: SqliteKeeper<S>,
    behind: &[String],
) -> Result<(), LineFault> {
    run_lines(rt, keeper, behind)
}

fn run_memory(rt: &HostRuntime, behind: &[String]) -> Result<(), LineFault> {
    match SqliteKeeper::in_memory(rt.alloc()) {
        Ok(keeper) => run_store(rt, keeper, behind),
        Err(fault) => print_refusal(rt, fault),
    }
}

// What was opened does what is asked of it, or it is said why there is no store.
fn run_files(rt: &HostRuntime, path: &str, behind: &[String]) -> Result<(), LineFault> {
    match SqliteKeeper::open(rt, path) {
        Ok(keeper) => work_on_files(keeper, Lines { rt, behind }),
        Err(fault) => print_refusal(rt, fault),
    }
}

fn show(rt: &HostRuntime, path: &str) -> Result<(), LineFault> {
    let text = fs::read_to_string(rt, path)?;
    print!(rt; "{text}")?;
    Ok(())
}

// Lines that a store is asked are run with the line that names it.
fn run_from(rt: &HostRuntime, lines: &[String]) -> Result<(), LineFault> {
    let [line, behind @ ..] = lines else {
        return Ok(());
    };
    let (word, rest) = cut(line.as_str());
    match word {
        "memory" => run_memory(rt, behind),
        "file" => run_files(rt, rest, behind),
        "show" => show(rt, rest),
        _ => Ok(()),
    }
}

fn lines_of(rt: &HostRuntime) -> Result<Vec<String>, LineFault> {
    let mut lines = Vec::new(rt.alloc());
    for line in rt.lines(rt.alloc()) {
        lines.push(line?)?;
    }
    Ok(lines)
}

fn run_all(rt: &HostRuntime) -> Result<(), LineFault> {
    let lines = lines_of(rt)?;
    for place in 0..lines.len() {
        run_from(rt, &lines[place..])?;
    }
    Ok(())
}

fn main(rt: HostRuntime) -> ExitCode {
    match run_all(&rt) {
        Ok(()) => ExitCode::SUCCESS,
        Err(LineFault::Line) => ExitCode::from(2),
        Err(LineFault::Failed) => ExitCode::from(1),
    }
}
