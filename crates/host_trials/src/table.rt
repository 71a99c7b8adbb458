//! The lines that are written.

use crate::fault::TableFault;
use crate::faults::{Step, calls_in, fault_letters, next_books};
use crate::host::KeptHost;
use crate::openings::cut_letters;
use crate::reopenings::{calls_of, opening_letters};
use host_input_trials::given::{asked_of, name_of};
use std::println;

fn print_host(rt: &HostRuntime, word: &str, host: &KeptHost) -> Result<(), TableFault> {
    let (moment, rows, epochs) = host.stands();
    println!(rt; "{word} {moment} {rows} {epochs}")?;
    Ok(())
}

fn print_letters(rt: &HostRuntime, word: &str, letters: &str) -> Result<(), TableFault> {
    println!(rt; "{word} {letters}")?;
    Ok(())
}

/// The lines of openings: of new disks, of what they are then, and of what a crash leaves in the first one.
pub(crate) fn tell_openings(rt: &HostRuntime) -> Result<(), TableFault> {
    let host = KeptHost::fresh(rt.alloc(), 1_000)?;
    print_host(rt, "new", &host)?;
    let again = KeptHost::on(rt.alloc(), 1_010, host.into_disks())?;
    print_host(rt, "again", &again)?;
    let letters = cut_letters(rt.alloc())?;
    print_letters(rt, "cut", letters.as_str())
}

fn print_step(
    rt: &HostRuntime,
    name: &str,
    calls: (u64, u64),
    letters: &str,
) -> Result<(), TableFault> {
    let (first, second) = calls;
    println!(rt; "{name} {first} {second} {letters}")?;
    Ok(())
}

// The line of an opening that ends runs.
fn tell_opening(rt: &HostRuntime, step: &Step) -> Result<(), TableFault> {
    let calls = calls_of(rt.alloc(), step)?;
    let letters = opening_letters(rt.alloc(), step, calls)?;
    print_step(rt, name_of(step.line), calls, letters.as_str())
}

/// The line of a step, or of an opening.
pub(crate) fn tell_step(rt: &HostRuntime, step: &Step) -> Result<(), TableFault> {
    if asked_of(step.line) == "open" {
        return tell_opening(rt, step);
    }
    let calls = calls_in(rt.alloc(), step)?;
    let books = next_books(rt.alloc(), step)?;
    let letters = fault_letters(rt.alloc(), step, calls.0.max(calls.1), &books)?;
    print_step(rt, name_of(step.line), calls, letters.as_str())
}
