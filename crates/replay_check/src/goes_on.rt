//! What happens to a run whose row is there.
ghost use Rattle.std.specs.Prelude.{◌↔◌, IfOk, IsTrue};
ghost use Rattle.host_model.specs.declared.change.Change.TheVariants.{AcceptHeard as AcceptHeardChange, Closed as ClosedChange, Confirmed as ConfirmedChange, Ended as EndedChange, FreeHeard as FreeHeardChange, MaterialHeard as MaterialHeardChange, Merged as MergedChange, Purged as PurgedChange, ResultHeard as ResultHeardChange, Started as StartedChange, TaskClosed as TaskClosedChange, Told as ToldChange, Tried as TriedChange};
ghost use Rattle.run_states.specs.declared.answer.Told.{Told as What};
ghost use Rattle.row_check.specs.HasTests.{WhyTests};
ghost use Rattle.replay_check.specs.Suits.{FitsBook};

use crate::heard::{has_place, hears_free, hears_result, merges, tries};
use crate::steps::{closes, ends};
use archive_retry::state::ArchiveState;
use book_check::host_row::{archives_of, find_task};
use host_book::book::HostBook;
use ps_time::key::RunKey;
use ps_time::memory::Memory;
use ps_time::text::Text;
use run_states::answer::FreeAnswer;
use run_states::life::LifeStep;
use run_states::why::Why;
use std::alloc::Global;

/// Whether there is a task of the serial, to be canceled.
pub(crate) fn fits_task_closed(number: u16, book: &HostBook, serial: u32) -> bool
    ensures { IsTrue result ↔ FitsBook number book.now.book (TaskClosedChange serial) }
{
    find_task(book.tasks(), serial).is_some()
}

/// Whether the run may be confirmed.
pub(crate) fn fits_confirmed(number: u16, book: &HostBook, key: RunKey) -> bool
    ensures { IsTrue result ↔ FitsBook number book.now.book (ConfirmedChange key) }
{
    match book.rows().find(key) {
        None => false,
        Some(row) => row.is_booked(),
    }
}

/// Whether the run may be closed for this reason.
pub(crate) fn fits_closed(number: u16, book: &HostBook, key: RunKey, why: &Why) -> bool
    requires { WhyTests why.now }
    ensures { IsTrue result ↔ FitsBook number book.now.book (ClosedChange key why.now) }
{
    match book.rows().find(key) {
        None => false,
        Some(row) => closes(row, why),
    }
}

/// Whether the run may start.
pub(crate) fn fits_started(number: u16, book: &HostBook, key: RunKey) -> bool
    ensures { IsTrue result ↔ FitsBook number book.now.book (StartedChange key) }
{
    match book.rows().find(key) {
        None => false,
        Some(row) => row.may_take(&LifeStep::Start),
    }
}

/// Whether the run may end with this result.
pub(crate) fn fits_ended(
    alloc: Global,
    number: u16,
    book: &HostBook,
    key: RunKey,
    good: bool,
    body: &Text,
) -> Result<bool, Memory>
    ensures { IfOk result (λ fits. IsTrue fits ↔ FitsBook number book.now.book (EndedChange key good body.now)) }
{
    match book.rows().find(key) {
        None => Ok(false),
        Some(row) => Ok(ends(alloc, row, body)?),
    }
}

/// Whether the participant's answer, when it is free, may be kept.
pub(crate) fn fits_free_heard(
    number: u16,
    book: &HostBook,
    key: RunKey,
    place: u8,
    answer: &FreeAnswer,
) -> bool
    ensures { IsTrue result ↔ FitsBook number book.now.book (FreeHeardChange key place answer.now) }
{
    match book.rows().find(key) {
        None => false,
        Some(row) => has_place(row, place) && hears_free(row, place, answer),
    }
}

/// Whether the run has such another participant.
pub(crate) fn fits_acceptance(number: u16, book: &HostBook, key: RunKey, place: u8) -> bool
    ensures accepted { IsTrue result ↔ FitsBook number book.now.book (AcceptHeardChange key place) }
    ensures told { (told : What) → IsTrue result ↔ FitsBook number book.now.book (ToldChange key place told) }
{
    match book.rows().find(key) {
        None => false,
        Some(row) => has_place(row, place),
    }
}

/// Whether material may come to the run.
pub(crate) fn fits_material(number: u16, book: &HostBook, key: RunKey) -> bool
    ensures { IsTrue result ↔ FitsBook number book.now.book (MaterialHeardChange key) }
{
    match book.rows().find(key) {
        None => false,
        Some(row) => row.started.is_some(),
    }
}

/// Whether the participant's result may be kept.
pub(crate) fn fits_result(
    alloc: Global,
    number: u16,
    book: &HostBook,
    key: RunKey,
    place: u8,
    told: &Option<Text>,
) -> Result<bool, Memory>
    ensures { IfOk result (λ fits. IsTrue fits ↔ FitsBook number book.now.book (ResultHeardChange key place told.now)) }
{
    match book.rows().find(key) {
        None => Ok(false),
        Some(row) => {
            let hears = hears_result(alloc, row, place, told)?;
            Ok(has_place(row, place) && hears)
        }
    }
}

/// Whether the results of the run may be merged into this text.
pub(crate) fn fits_merged(
    alloc: Global,
    number: u16,
    book: &HostBook,
    key: RunKey,
    body: &Text,
) -> Result<bool, Memory>
    ensures { IfOk result (λ fits. IsTrue fits ↔ FitsBook number book.now.book (MergedChange key body.now)) }
{
    match book.rows().find(key) {
        None => Ok(false),
        Some(row) => Ok(merges(alloc, number, row, key, body)?),
    }
}

/// Whether the run's archive in this place may come to this state.
pub(crate) fn fits_tried(
    number: u16,
    book: &HostBook,
    key: RunKey,
    index: u8,
    state: &ArchiveState,
) -> bool
    ensures { IsTrue result ↔ FitsBook number book.now.book (TriedChange key index state.now) }
{
    match book.rows().find(key) {
        None => false,
        Some(row) => tries(archives_of(book.tasks(), key), row, index, state),
    }
}

/// Whether the run has a row, to be purged.
pub(crate) fn fits_purged(number: u16, book: &HostBook, key: RunKey) -> bool
    ensures { IsTrue result ↔ FitsBook number book.now.book (PurgedChange key) }
{
    book.rows().find(key).is_some()
}
