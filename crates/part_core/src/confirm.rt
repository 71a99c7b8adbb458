//! A confirmation, and a cancellation, at a participant.
ghost use Rattle.std.specs.Prelude.{◌≡◌, IfOk};
ghost use Rattle.std.specs.Option.{option_to_list};
ghost use Rattle.run_states.specs.Rows.{find_row};
ghost use Rattle.host_model.specs.Confirm.{confirm_changes, confirm_reply, confirm_standing, drop_changes};
ghost use Rattle.host_model.specs.declared.part.PartReply.TheVariants.{Dropped};

use crate::reading::Reading;
use host_model::change::Change;
use host_model::part::PartReply;
use ps_time::key::RunKey;
use ps_time::memory::Memory;
use ps_time::moment::Moment;
use run_states::row::RunRow;
use run_states::why::Why;
use std::alloc::Global;

/// What a confirmation is answered: why the run is closed, or the moment of its first confirmation, which
/// is now where it wasn't confirmed.
pub fn confirm<R: Reading>(alloc: Global, book: &R, key: RunKey) -> Result<PartReply, Memory>
    ensures { IfOk result (λ reply. reply ≡ confirm_reply (R.at book.now) (find_row (R.seen book.now) key)) }
{
    let moment = book.moment();
    match book.find(key) {
        Some(row) => confirm_standing(alloc, row, moment),
        None => Ok(PartReply::Unknown),
    }
}

fn confirm_standing(alloc: Global, row: &RunRow, moment: Moment) -> Result<PartReply, Memory>
    ensures { IfOk result (λ reply. reply ≡ confirm_standing moment row.now row.now.closed) }
{
    match &row.closed {
        Some(closing) => Ok(PartReply::Closed(closing.why.copy(alloc)?)),
        None => Ok(PartReply::Confirmed(row.confirmed.unwrap_or(moment))),
    }
}

/// What a confirmation changes: a run that is neither closed nor confirmed is confirmed. Takes no memory.
pub fn confirm_change<R: Reading>(book: &R, key: RunKey) -> Option<Change>
    ensures { option_to_list result ≡ confirm_changes (find_row (R.seen book.now) key) }
{
    match book.find(key) {
        Some(row) if row.closed.is_none() && row.confirmed.is_none() => {
            Some(Change::Confirmed(row.key))
        }
        _ => None,
    }
}

/// What a cancellation is answered, whether there is such a run or not. Takes no memory.
pub fn cancel<R: Reading>(_book: &R, _key: RunKey) -> PartReply
    ensures { result ≡ Dropped }
{
    PartReply::Dropped
}

/// What a cancellation changes: a booked run that isn't started is closed. Takes no memory.
pub fn cancel_change<R: Reading>(book: &R, key: RunKey) -> Option<Change>
    ensures { option_to_list result ≡ drop_changes (find_row (R.seen book.now) key) }
{
    match book.find(key) {
        Some(row) if row.is_booked() && row.started.is_none() => Some(Change::Closed {
            key: row.key,
            why: Why::Canceled,
        }),
        _ => None,
    }
}
