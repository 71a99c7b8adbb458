//! The least key above another among rows that lie over those of a book.
ghost use Rattle.std.specs.Prelude.{◌≡◌, ◌&&◌, find, not, option_map};
ghost use Rattle.run_states.specs.Rows.{IsAscendingRows};
ghost use Rattle.host_timeline.specs.Booking.{is_after};
ghost use Rattle.draft_parts.specs.Overlay.{hides};

use crate::overlay::is_hidden;
use ps_time::key::RunKey;
use run_states::lent::LentRows;
use run_states::rows::Rows;

/// The least key of these rows above another.
pub fn first_after(rows: LentRows<'_>, after: Option<RunKey>) -> Option<RunKey>
    requires { IsAscendingRows rows }
    ensures { result ≡ option_map (λ r. r.key) (find (λ r. is_after after r.key) rows.entry) }
{
    match rows.above(after).least() {
        Some(row) => Some(row.key),
        None => None,
    }
}

/// The least key above another among those of these rows that are as they were.
pub fn first_bare_after(
    rows: LentRows<'_>,
    touched: &Rows,
    gone: &[RunKey],
    after: Option<RunKey>,
) -> Option<RunKey>
    requires { IsAscendingRows rows }
    ensures { result ≡ option_map (λ r. r.key) (find (λ r. is_after after r.key && not (hides touched.now.list gone.now r.key)) rows.entry) }
{
    first_bare(rows.above(after), touched, gone)
}

fn first_bare(rows: LentRows<'_>, touched: &Rows, gone: &[RunKey]) -> Option<RunKey>
    ensures { result ≡ option_map (λ r. r.key) (find (λ r. not (hides touched.now.list gone.now r.key)) rows.entry) }
{
    for row in rows {
        if !is_hidden(touched, gone, row.key) {
            return Some(row.key);
        }
    }
    None
}
