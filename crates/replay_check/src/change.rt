//! Whether one change may follow a book.
ghost use Rattle.std.specs.Prelude.{◌≡◌, ◌↔◌, IfOk, IsTrue};
ghost use Rattle.replay_check.specs.Follows.{Follows};
ghost use Rattle.replay_check.specs.ReadChange.{IsReadChange};
ghost use Rattle.replay_check.specs.Suits.{FitsBook};
ghost use Rattle.host_model.specs.declared.change.Change.TheVariants.{LimitsSet as LimitsSetChange};

use crate::comes::{fits_accepted, fits_asked, fits_planned, fits_task};
use crate::goes_on::{
    fits_acceptance, fits_closed, fits_confirmed, fits_ended, fits_free_heard, fits_material,
    fits_merged, fits_purged, fits_result, fits_started, fits_task_closed, fits_tried,
};
use host_book::book::HostBook;
use host_model::change::Change;
use limit_apply::kept::law_one_kept;
use limit_apply::limits::Limits;
use ps_time::memory::Memory;
use std::alloc::Global;

// Limits that are there are in bounds.
fn fits_limits(number: u16, book: &HostBook, limits: &Limits) -> bool
    ensures { IsTrue result ↔ FitsBook number book.now.book (LimitsSetChange limits.now) }
{
    let _known = book.moment();
    law_one_kept(limits);
    true
}

fn fits(alloc: Global, number: u16, book: &HostBook, change: &Change) -> Result<bool, Memory>
    requires { IsReadChange change.now }
    ensures { IfOk result (λ fits. IsTrue fits ↔ FitsBook number book.now.book change.now) }
{
    match change {
        Change::Posted(task) => Ok(fits_task(number, book, task.value())),
        Change::TaskClosed(serial) => Ok(fits_task_closed(number, book, *serial)),
        Change::Accepted {
            proposal,
            participants,
            epoch,
        } => Ok(fits_accepted(
            number,
            book,
            proposal.value(),
            participants.as_slice(),
            *epoch,
        )),
        Change::Asked {
            question,
            participants,
            asker,
        } => Ok(fits_asked(
            number,
            book,
            question.value(),
            participants.as_slice(),
            asker,
        )),
        Change::Planned {
            key,
            start,
            tool,
            epoch,
        } => Ok(fits_planned(number, book, *key, *start, tool, *epoch)),
        Change::Confirmed(key) => Ok(fits_confirmed(number, book, *key)),
        Change::Closed { key, why } => Ok(fits_closed(number, book, *key, why)),
        Change::Started(key) => Ok(fits_started(number, book, *key)),
        Change::Ended { key, good, body } => fits_ended(alloc, number, book, *key, *good, body),
        Change::FreeHeard { key, place, answer } => Ok(fits_free_heard(
            number, book, *key, *place, answer,
        )),
        Change::AcceptHeard { key, place } => Ok(fits_acceptance(number, book, *key, *place)),
        Change::Told { key, place, .. } => Ok(fits_acceptance(number, book, *key, *place)),
        Change::MaterialHeard(key) => Ok(fits_material(number, book, *key)),
        Change::ResultHeard {
            key,
            place,
            result: told,
        } => fits_result(alloc, number, book, *key, *place, told),
        Change::Merged { key, body } => fits_merged(alloc, number, book, *key, body),
        Change::Tried { key, index, state } => Ok(fits_tried(number, book, *key, *index, state)),
        Change::LimitsSet(limits) => Ok(fits_limits(number, book, limits.value())),
        Change::Purged(key) => Ok(fits_purged(number, book, *key)),
    }
}

/// Whether the change, which was read, may follow the book of the host with this number, at the book's moment. Looks at the
/// row and the task that it names, and at the rows that would give way.
pub fn may_follow_next(
    alloc: Global,
    number: u16,
    book: &HostBook,
    change: &Change,
) -> Result<bool, Memory>
    requires number { book.now.number ≡ number }
    requires read { IsReadChange change.now }
    ensures { IfOk result (λ may. IsTrue may ↔ Follows number book.now.book change.now) }
{
    let _known = book.rows();
    let fits = fits(alloc, number, book, change)?;
    Ok(fits)
}
