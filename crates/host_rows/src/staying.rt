//! Before which moment rows that are still may not go.
ghost use Rattle.std.specs.Prelude.{◌≡◌, ℕ, ◌+◌, ◌<◌, ◌≤◌, All, IfSome, Some, length};
ghost use Rattle.run_states.specs.Rows.{find_row, IsPlaceOf};
ghost use Rattle.host_rows.specs.Ledger.{StaysUntil};

use crate::still::is_still;
use ps_time::key::RunKey;
use ps_time::moment::Moment;
use run_states::rest::KEEPING;
use run_states::row::RunRow;
use run_states::rows::Rows;

/// A moment before which none of the rows that are still may go.
pub(crate) fn next_purge(rows: &Rows, number: u16) -> Moment
    ensures { All (StaysUntil number rows.now.list result) rows.now.list }
{
    let _known = rows.in_order();
    let mut next = Moment::MAX;
    for place in 0..rows.len() {
        next = sooner(next, rows, place, number);
    }
    next
}

/// The moment, or an earlier one, before which the row at the place may not go, if it is still.
pub(crate) fn sooner(next: Moment, rows: &Rows, place: usize, number: u16) -> Moment
    requires { place < length rows.now.list }
    ensures earlier { result ≤ next }
    ensures stays { (k : RunKey) → IsPlaceOf rows.now.list k place → IfSome (find_row rows.now.list k) (StaysUntil number rows.now.list result) }
{
    let row = rows.at(place);
    next.min(stays_until(rows, row, place, number))
}

// A moment before which this row, which stands at the place, may not go, if it is still: the first at which it may, where there is
// one.
fn stays_until(rows: &Rows, row: &RunRow, place: usize, number: u16) -> Moment
    requires place { IsPlaceOf rows.now.list row.now.key place }
    requires found { find_row rows.now.list row.now.key ≡ Some row.now }
    ensures { StaysUntil number rows.now.list result row.now }
{
    if is_still(row, number) && rows.is_purgeable_at(place, number, Moment::MAX) {
        row.rest().saturating_add(KEEPING)
    } else {
        Moment::MAX
    }
}

/// The moment, or an earlier one, before which the row before this place may not go, if there is one, and it is still. It is the one
/// that a new row at the place lets go.
pub(crate) fn sooner_before(next: Moment, rows: &Rows, place: usize, number: u16) -> Moment
    requires { place < length rows.now.list }
    ensures earlier { result ≤ next }
    ensures stays { (i : ℕ) (k : RunKey) → i + 1 ≡ place → IsPlaceOf rows.now.list k i → IfSome (find_row rows.now.list k) (StaysUntil number rows.now.list result) }
{
    match place.checked_sub(1) {
        Some(before) => sooner(next, rows, before, number),
        None => next,
    }
}
