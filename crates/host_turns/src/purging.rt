//! Which rows are long past, and go.
ghost use Rattle.std.specs.Prelude.{◌≡◌};
ghost use Rattle.std.specs.List.{list_any};
ghost use Rattle.run_states.specs.Purging.{is_later, is_led_out, is_purgeable};
ghost use Rattle.run_states.specs.Rows.{IsAscendingRows};
ghost use Rattle.host_model.specs.Purging.{purge_run};
ghost use Rattle.lead_core.specs.Books.{book_of_rows};

use host_model::change::Change;
use host_model::config::Config;
use lead_core::leading::Leading;
use ps_time::key::RunKey;
use run_states::row::RunRow;

/// The going of a row that is long past: one of this host's lead only where it is archived, and isn't the newest of its task.
pub fn purge_run<R: Leading>(book: &R, config: &Config, row: &RunRow) -> Option<Change>
    requires { IsAscendingRows (R.seen book.now) }
    ensures { result ≡ purge_run config.now (R.at book.now) (book_of_rows (R.seen book.now)) row.now }
{
    if is_purgeable(book, config.number, row) {
        Some(Change::Purged(row.key))
    } else {
        None
    }
}

fn is_purgeable<R: Leading>(book: &R, number: u16, row: &RunRow) -> bool
    requires { IsAscendingRows (R.seen book.now) }
    ensures { result ≡ is_purgeable number (R.at book.now) (R.seen book.now) row.now }
{
    row.is_long_past(book.moment()) && (row.key.lead != number || is_led_out(book, row))
}

// Whether its lead has nothing more to do with it.
fn is_led_out<R: Leading>(book: &R, row: &RunRow) -> bool
    requires { IsAscendingRows (R.seen book.now) }
    ensures { result ≡ is_led_out (R.seen book.now) row.now }
{
    row.is_archived() && has_later(book, row.key)
}

// Whether a later row is of the same task: then the newest one is later.
fn has_later<R: Leading>(book: &R, key: RunKey) -> bool
    requires { IsAscendingRows (R.seen book.now) }
    ensures { result ≡ list_any (λ s. is_later key s.key) (R.seen book.now) }
{
    match book.newest(key.lead, key.task) {
        Some(newest) => key.order(&newest.key).is_lt(),
        None => false,
    }
}
