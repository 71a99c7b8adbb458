//! What faults and crashes leave of an opening that ends runs.

use crate::fault::TableFault;
use crate::faults::{Books, Step, book_of, host_before};
use crate::host::{Disks, KeptHost};
use host_input_trials::booking::later;
use host_input_trials::given::clock_of;
use ps_disks::image::Image;
use std::alloc::Global;

// The disks are opened once more so many seconds later.
const AGAIN: u64 = 2;

fn disks_before(alloc: Global, step: &Step) -> Result<Disks, TableFault> {
    Ok(host_before(alloc, step)?.into_disks())
}

fn disks_after(alloc: Global, step: &Step) -> Result<Disks, TableFault> {
    let clock = clock_of(step.line)?;
    let host = KeptHost::on(alloc, clock, disks_before(alloc, step)?)?;
    Ok(host.into_disks())
}

// The book that the disks give once more.
fn book_again(alloc: Global, step: &Step, disks: Disks) -> Result<Vec<u8>, TableFault> {
    book_of(alloc, later(clock_of(step.line)?, AGAIN), disks)
}

fn books(alloc: Global, step: &Step) -> Result<Books, TableFault> {
    let without = book_again(alloc, step, disks_before(alloc, step)?)?;
    let with = book_again(alloc, step, disks_after(alloc, step)?)?;
    Ok(Books { without, with })
}

/// How many calls that change it the opening makes of each disk.
pub(crate) fn calls_of(alloc: Global, step: &Step) -> Result<(u64, u64), TableFault> {
    let before = disks_before(alloc, step)?;
    let after = disks_after(alloc, step)?;
    let first = after.0.calls().saturating_sub(before.0.calls());
    let second = after.1.calls().saturating_sub(before.1.calls());
    Ok((first, second))
}

fn fault_letter(alloc: Global, step: &Step, call: u64, books: &Books) -> Result<char, TableFault> {
    let clock = clock_of(step.line)?;
    let (mut first, mut second) = disks_before(alloc, step)?;
    first.fail_at(Some(call));
    second.fail_at(Some(call));
    match KeptHost::unless_fault(alloc, clock, (first, second))? {
        Ok(host) => {
            drop(host);
            Ok('.')
        }
        Err((mut first, mut second)) => {
            first.fail_at(None);
            second.fail_at(None);
            Ok(books.letter(&book_again(alloc, step, (first, second))?))
        }
    }
}

// The first disk is synced and no more, so a crash leaves it as it is.
fn crash_letter(
    alloc: Global,
    step: &Step,
    calls: u64,
    image: Image,
    books: &Books,
) -> Result<char, TableFault> {
    let clock = clock_of(step.line)?;
    let before = disks_before(alloc, step)?;
    let (first, second) = KeptHost::disks_behind(alloc, clock, before, calls)?;
    let disks = (first, second.crashed(image)?);
    Ok(books.letter(&book_again(alloc, step, disks)?))
}

fn put_fault_letters(
    alloc: Global,
    step: &Step,
    calls: u64,
    books: &Books,
    letters: &mut String,
) -> Result<(), TableFault> {
    for call in 0..=calls {
        letters.push(fault_letter(alloc, step, call.saturating_add(1), books)?)?;
    }
    Ok(())
}

fn put_crash_letters(
    alloc: Global,
    step: &Step,
    calls: u64,
    image: Image,
    books: &Books,
    letters: &mut String,
) -> Result<(), TableFault> {
    letters.push(' ')?;
    for made in 0..=calls {
        letters.push(crash_letter(alloc, step, made, image, books)?)?;
    }
    Ok(())
}

/// A message for each call that fails, and one for the call behind the last; then, for each image, one for each number of calls of the
/// second disk behind which a crash comes, from none to all.
pub(crate) fn opening_letters(
    alloc: Global,
    step: &Step,
    calls: (u64, u64),
) -> Result<String, TableFault> {
    let books = books(alloc, step)?;
    let mut letters = String::new(alloc);
    put_fault_letters(alloc, step, calls.0.max(calls.1), &books, &mut letters)?;
    put_crash_letters(alloc, step, calls.1, Image::Old, &books, &mut letters)?;
    put_crash_letters(alloc, step, calls.1, Image::New, &books, &mut letters)?;
    put_crash_letters(alloc, step, calls.1, Image::Torn, &books, &mut letters)?;
    Ok(letters)
}
