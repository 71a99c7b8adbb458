//! Canceling a task and its runs.
ghost use Rattle.std.specs.Prelude.{◌≡◌, ◌++◌, IfOk, OnOk};
ghost use Rattle.run_states.specs.Rows.{IsAscendingRows};
ghost use Rattle.host_model.specs.Post.{cancel, cancel_changes};
ghost use Rattle.host_inputs.specs.Kept.{book_of};
ghost use Rattle.host_inputs.specs.Runs.{canceled_runs, runs_of_task};

use crate::hosting::Hosting;
use crate::outcome::{answered, listed};
use host_model::change::Change;
use host_model::config::Config;
use host_model::reply::{Outcome, Reply};
use host_model::task_row::TaskRow;
use lead_core::cancel::{cancel_run, close_task};
use ps_time::items::Items;
use ps_time::memory::Memory;
use std::alloc::Global;

/// What canceling the task of a serial at its lead comes to: only who posted it may cancel it. It is closed, and those of
/// its runs that are neither started nor closed.
pub fn cancel<R: Hosting>(
    alloc: Global,
    book: &R,
    config: &Config,
    serial: u32,
    requester: &str,
) -> Result<Outcome, Memory>
    ensures { IfOk result (λ o. o ≡ cancel config.now (book_of (R.at book.now) (R.seen book.now) (R.kept book.now)) (R.at book.now) serial requester.now) }
{
    match book.task(serial) {
        Some(task) if task.asker.requester.is(requester) => {
            let list = cancel_changes(alloc, book, config.number, task)?;
            Ok(Outcome {
                reply: Reply::Canceled,
                list,
            })
        }
        Some(_) => Ok(answered(alloc, Reply::NotPoster)),
        None => Ok(answered(alloc, Reply::NotFound)),
    }
}

fn cancel_changes<R: Hosting>(
    alloc: Global,
    book: &R,
    lead: u16,
    task: &TaskRow,
) -> Result<Items<Change>, Memory>
    ensures { IfOk result (λ list. list ≡ cancel_changes lead (book_of (R.at book.now) (R.seen book.now) (R.kept book.now)) (R.at book.now) task.now) }
{
    let mut list = listed(alloc, close_task(task))?;
    cancel_runs(book, lead, task.serial, &mut list)?;
    Ok(list)
}

// Adds what changes in the runs of the task: a walk from one to the next, which looks at no other row.
fn cancel_runs<R: Hosting>(
    book: &R,
    lead: u16,
    serial: u32,
    list: &mut Items<Change>,
) -> Result<(), Memory>
    ensures list { OnOk result (list.new ≡ list.old ++ canceled_runs lead serial (R.seen book.now) (runs_of_task lead serial (R.seen book.now))) }
    ensures ascending { IsAscendingRows (R.seen book.now) }
{
    let mut last = None;
    while let Some(key) = book.next_of_task(lead, serial, last) {
        if let Some(change) = cancel_run(book, lead, serial, key) {
            list.push(change)?;
        }
        last = Some(key);
    }
    Ok(())
}
