//! The order of rows.
ghost use Rattle.std.specs.Prelude.{◌↔◌, IsTrue};
ghost use Rattle.run_states.specs.Rows.{IsAscendingRows};
ghost use Rattle.book_check.specs.Order.{IsAbove};

use ps_time::key::RunKey;
use run_states::row::RunRow;

fn is_above(before: Option<RunKey>, key: RunKey) -> bool
    ensures { IsTrue result ↔ IsAbove before key }
{
    match before {
        None => true,
        Some(before) => before.order(&key).is_lt(),
    }
}

/// Whether each row has a key below those after it.
pub fn are_ascending(rows: &[RunRow]) -> bool
    ensures { IsTrue result ↔ IsAscendingRows rows.now }
{
    let mut before = None;
    for row in rows {
        if !is_above(before, row.key) {
            return false;
        }
        before = Some(row.key);
    }
    true
}
