//! When the tasks of a book wake, in the order of the tasks.
ghost use Rattle.std.specs.Prelude.{◌≡◌, ◌+◌, ◌<◌, ◌≤◌, IfOk, Some, map, vec_capacity, vec_len};
ghost use Rattle.host_book.specs.Waking.{extended, own_task, renewed, touched};
ghost use Rattle.live_law.specs.Waking.{wake_in};

use crate::indexed::IndexedBook;
use host_model::change::Change;
use host_model::task_row::TaskRow;
use live_law::waking::wake_of;
use ps_time::key::RunKey;
use ps_time::memory::Memory;
use ps_time::moment::Moment;
use std::alloc::Global;

/// When each task of the book wakes.
pub(crate) fn all_wakes(alloc: Global, book: &IndexedBook) -> Result<Vec<Option<Moment>>, Memory>
    ensures { IfOk result (λ wakes. wakes.items ≡ map (wake_in book.now.number book.now.book.rows) book.now.book.tasks) }
{
    let tasks = book.tasks();
    let mut wakes = Vec::new(alloc);
    for task in tasks {
        wakes.push(wake_in(book, task))?;
    }
    Ok(wakes)
}

/// Looks anew when the task of the serial wakes, if there is one.
pub(crate) fn renew(wakes: &mut [Option<Moment>], book: &IndexedBook, serial: Option<u32>)
    ensures { wakes.new ≡ renewed (wake_in book.now.number book.now.book.rows) serial book.now.book.tasks wakes.old }
{
    let _known = book.rows();
    let Some(serial) = serial else {
        return;
    };
    match serial.checked_sub(1) {
        Some(place) => renew_at(wakes, book, place as usize),
        None => {}
    }
}

// Looks anew when the task at this place wakes, counted from 0.
fn renew_at(wakes: &mut [Option<Moment>], book: &IndexedBook, place: usize)
    ensures { wakes.new ≡ renewed (wake_in book.now.number book.now.book.rows) (Some (place + 1)) book.now.book.tasks wakes.old }
{
    let _known = book.rows();
    let Some(task) = book.tasks().get(place) else {
        return;
    };
    if place < wakes.len() {
        wakes[place] = wake_in(book, task);
    }
}

/// Adds when the first task wakes for which that isn't there, if there is one. Takes no memory.
pub(crate) fn extend(wakes: &mut Vec<Option<Moment>>, book: &IndexedBook)
    requires { vec_len wakes.old < vec_capacity wakes.old }
    ensures list { wakes.new.items ≡ extended (wake_in book.now.number book.now.book.rows) book.now.book.tasks wakes.old.items }
    ensures few { vec_len wakes.new ≤ vec_len wakes.old + 1 }
    ensures capacity { vec_capacity wakes.old ≤ vec_capacity wakes.new }
{
    match book.tasks().get(wakes.as_slice().len()) {
        Some(task) => wakes.push(wake_in(book, task)).unwrap(),
        None => {}
    }
}

/// The serial of the task that a change is about, but for one that is posted.
pub(crate) fn touched(change: &Change, number: u16) -> Option<u32>
    ensures { result ≡ touched number change.now }
{
    match change {
        Change::Posted(_) | Change::LimitsSet(_) => None,
        Change::TaskClosed(serial) => Some(*serial),
        Change::Accepted { proposal, .. } => own_task(proposal.value().key, number),
        Change::Asked { question, .. } => own_task(question.value().key, number),
        Change::Planned { key, .. }
        | Change::Closed { key, .. }
        | Change::Ended { key, .. }
        | Change::FreeHeard { key, .. }
        | Change::AcceptHeard { key, .. }
        | Change::Told { key, .. }
        | Change::ResultHeard { key, .. }
        | Change::Merged { key, .. }
        | Change::Tried { key, .. } => own_task(*key, number),
        Change::Confirmed(key)
        | Change::Started(key)
        | Change::MaterialHeard(key)
        | Change::Purged(key) => own_task(*key, number),
    }
}

// The serial of the task of this host of which the run is.
fn own_task(key: RunKey, number: u16) -> Option<u32>
    ensures { result ≡ own_task number (Some key) }
{
    if key.lead == number {
        Some(key.task)
    } else {
        None
    }
}

// When a task of the book wakes.
fn wake_in(book: &IndexedBook, task: &TaskRow) -> Option<Moment>
    ensures { result ≡ wake_in book.now.number book.now.book.rows task.now }
{
    wake_of(task, book.rows().newest_of_task(book.number(), task.serial))
}
