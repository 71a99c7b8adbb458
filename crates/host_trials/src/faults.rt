//! What faults leave of a step.
ghost use Rattle.std.specs.Prelude.{◌≤◌};
ghost use Rattle.ps_time.specs.declared.moment.TheConstants.{MAX_MOMENT};

use crate::fault::TableFault;
use crate::host::{Disks, KeptHost, Outcome};
use host_input_trials::booking::{a_booking, later};
use host_input_trials::given::{asked_of, clock_of};
use host_input_trials::inputs::an_input;
use ps_time::moment::Moment;
use std::alloc::Global;

/// A step of a script, and the steps before it.
#[derive(Clone, Copy)]
pub(crate) struct Step<'a> {
    pub(crate) before: &'a [String],
    pub(crate) line: &'a str,
}

/// What is left without a step, and with it.
#[derive(Drop)]
pub(crate) struct Books {
    pub(crate) without: Vec<u8>,
    pub(crate) with: Vec<u8>,
}

impl Books {
    /// The message of what was found.
    pub(crate) fn letter(&self, found: &[u8]) -> char {
        let without = found == self.without.as_slice();
        let with = found == self.with.as_slice();
        match (without, with) {
            (true, true) => '=',
            (true, false) => 'b',
            (false, true) => 'a',
            (false, false) => '?',
        }
    }
}

// The run that is booked behind a step starts so many seconds later.
const NEXT_START: u64 = 100_000;

fn make(alloc: Global, host: &mut KeptHost, line: &str) -> Result<Outcome, TableFault> {
    let clock = clock_of(line)?;
    let input = an_input(alloc, host.config(), clock, asked_of(line))?;
    Ok(host.act(alloc, clock, input)?)
}

/// The host after the steps before. All is deterministic, so these lead to the same disks each time.
pub(crate) fn host_before(alloc: Global, step: &Step) -> Result<KeptHost, TableFault> {
    let mut host = KeptHost::fresh(alloc, 0)?;
    for line in step.before {
        make(alloc, &mut host, line.as_str())?;
    }
    Ok(host)
}

fn host_after(alloc: Global, step: &Step) -> Result<KeptHost, TableFault> {
    let mut host = host_before(alloc, step)?;
    make(alloc, &mut host, step.line)?;
    Ok(host)
}

/// How many calls that change it the step makes of each disk.
pub(crate) fn calls_in(alloc: Global, step: &Step) -> Result<(u64, u64), TableFault> {
    let mut host = host_before(alloc, step)?;
    let before = host.calls();
    make(alloc, &mut host, step.line)?;
    let after = host.calls();
    let first = after.0.saturating_sub(before.0);
    let second = after.1.saturating_sub(before.1);
    Ok((first, second))
}

/// The book that an opening of the disks gives at a clock, in seconds since 1970 UTC.
pub(crate) fn book_of(alloc: Global, clock: Moment, disks: Disks) -> Result<Vec<u8>, TableFault>
    requires { clock ≤ MAX_MOMENT }
{
    let host = KeptHost::on(alloc, clock, disks)?;
    Ok(host.book_bytes(alloc)?)
}

// The book after one booking more, and then the one that an opening gives.
fn book_after_next(alloc: Global, clock: Moment, host: KeptHost) -> Result<Vec<u8>, TableFault>
    requires { clock ≤ MAX_MOMENT }
{
    let mut host = host;
    host.act(alloc, clock, a_booking(later(clock, NEXT_START)))?;
    let mut bytes = host.book_bytes(alloc)?;
    let again = book_of(alloc, clock, host.into_disks())?;
    bytes.extend_from_slice(again.as_slice())?;
    Ok(bytes)
}

/// What one booking more leaves without the step, and with it.
pub(crate) fn next_books(alloc: Global, step: &Step) -> Result<Books, TableFault> {
    let clock = clock_of(step.line)?;
    let without = book_after_next(alloc, clock, host_before(alloc, step)?)?;
    let with = book_after_next(alloc, clock, host_after(alloc, step)?)?;
    Ok(Books { without, with })
}

fn fault_letter(alloc: Global, step: &Step, call: u64, books: &Books) -> Result<char, TableFault> {
    let clock = clock_of(step.line)?;
    let mut host = host_before(alloc, step)?;
    host.fail_at(Some(call));
    let outcome = make(alloc, &mut host, step.line)?;
    host.fail_at(None);
    match outcome {
        Outcome::Answered => Ok('.'),
        Outcome::DiskFault => Ok(books.letter(&book_after_next(alloc, clock, host)?)),
    }
}

/// A message for each call that fails, and one for the call behind the last.
pub(crate) fn fault_letters(
    alloc: Global,
    step: &Step,
    calls: u64,
    books: &Books,
) -> Result<String, TableFault> {
    let mut letters = String::new(alloc);
    for call in 0..=calls {
        letters.push(fault_letter(alloc, step, call.saturating_add(1), books)?)?;
    }
    Ok(letters)
}
