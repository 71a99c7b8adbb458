//! The pairs of keys and epochs of a book.
ghost use Rattle.std.specs.Prelude.{◌≡◌, ◌≤◌, ◌↔◌, All, IsTrue, filter, is_some, map};
ghost use Rattle.host_model.specs.Book.{keys_of_rows};

use ps_time::key::RunKey;
use run_states::row::RunRow;

/// Whether there is one for each accepted row, in the order of the rows, and no other.
pub fn are_of_rows(pairs: &[(RunKey, u32)], rows: &[RunRow]) -> bool
    ensures { IsTrue result ↔ (map (λ p. p.0) pairs.now ≡ keys_of_rows (filter (λ r. is_some r.accepted) rows.now)) }
{
    let mut left = pairs;
    for row in rows {
        if row.accepted.is_some() {
            match left {
                [pair, rest @ ..] => {
                    if pair.0 != row.key {
                        return false;
                    }
                    left = rest;
                }
                [] => return false,
            }
        }
    }
    left.is_empty()
}

/// Whether none names an epoch above their count.
pub fn are_known(count: u32, pairs: &[(RunKey, u32)]) -> bool
    ensures { IsTrue result ↔ All (λ p. p.1 ≤ count) pairs.now }
{
    for pair in pairs {
        if pair.1 > count {
            return false;
        }
    }
    true
}
