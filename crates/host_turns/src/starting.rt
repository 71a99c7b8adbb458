//! How a host starts its runs.
ghost use Rattle.std.specs.Prelude.{◌≡◌};
ghost use Rattle.std.specs.List.{list_any};
ghost use Rattle.std.specs.Option.{option_copied};
ghost use Rattle.run_states.specs.Rows.{find_row, IsAscendingRows};
ghost use Rattle.host_model.specs.Starting.{is_hindered, may_start, start_run};
ghost use Rattle.lead_core.specs.Books.{book_of_rows};
ghost use Rattle.plugin_core.specs.TestSpec.{test_class};
ghost use Rattle.host_turns.specs.Wishes.{HoldHindering, hinders, is_hindering, is_ready};

use host_model::change::Change;
use part_core::reading::Reading;
use plugin_core::test_spec::class_of;
use ps_time::class::{Class, classes_conflict};
use ps_time::interval::Interval;
use ps_time::key::RunKey;
use ps_time::moment::Moment;
use run_states::life::GRACE;
use run_states::row::RunRow;

/// The start of a booked, confirmed run whose time has come, unless an active run hinders it. Of other runs it looks at
/// those of these keys alone, which are enough where every run that hinders it is among them.
pub fn start_run<R: Reading>(book: &R, keys: &[RunKey], row: &RunRow) -> Option<Change>
    requires hindering { HoldHindering (test_class row.now.test) keys.now (R.seen book.now) }
    requires ascending { IsAscendingRows (R.seen book.now) }
    ensures { result ≡ start_run (R.at book.now) (book_of_rows (R.seen book.now)) row.now }
{
    let moment = book.moment();
    if is_ready(row, moment) && !is_hindered(book, keys, class_of(&row.test)) {
        Some(Change::Started(row.key))
    } else {
        None
    }
}

// Whether it is booked and confirmed, hasn't started, and its time has come.
fn is_ready(row: &RunRow, moment: Moment) -> bool
    ensures { result ≡ is_ready moment row.now }
{
    row.is_booked()
        && row.confirmed.is_some()
        && row.started.is_none()
        && may_start(&row.interval, moment)
}

// Whether the start has come, and is at most 15 s ago.
fn may_start(interval: &Option<Interval>, moment: Moment) -> bool
    ensures { result ≡ may_start moment interval.now }
{
    match interval {
        Some(interval) => interval.start <= moment && moment - interval.start <= GRACE,
        None => false,
    }
}

fn is_hindered<R: Reading>(book: &R, keys: &[RunKey], class: Class) -> bool
    requires hindering { HoldHindering class keys.now (R.seen book.now) }
    requires ascending { IsAscendingRows (R.seen book.now) }
    ensures { result ≡ is_hindered (R.seen book.now) class }
{
    any_hinders(book, keys, class)
}

// Whether an active run among these hinders one of this class.
fn any_hinders<R: Reading>(book: &R, keys: &[RunKey], class: Class) -> bool
    ensures { result ≡ list_any (λ k. is_hindering class (find_row (R.seen book.now) k)) keys.now }
{
    for key in keys {
        if is_hindering(book.find(*key), class) {
            return true;
        }
    }
    false
}

fn is_hindering(row: Option<&RunRow>, class: Class) -> bool
    ensures { result ≡ is_hindering class (option_copied row.entry) }
{
    match row {
        Some(row) => hinders(row, class),
        None => false,
    }
}

fn hinders(row: &RunRow, class: Class) -> bool
    ensures { result ≡ hinders class row.now }
{
    row.is_active() && classes_conflict(class_of(&row.test), class)
}
