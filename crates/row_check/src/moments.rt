//! The moments of a row, and their order.
ghost use Rattle.std.specs.Prelude.{◌≤◌, ◌↔◌, IfSome, IsNone, IsSome, IsTrue};
ghost use Rattle.run_states.specs.LawfulRow.{HasLife, HasMomentsUpTo, IsUpTo, Needs};

use ps_time::moment::Moment;
use run_states::row::{Ending, RunRow};
use run_states::why::Closing;

fn is_up_to(moment: Moment, other: Option<Moment>) -> bool
    ensures { IsTrue result ↔ IsUpTo moment other }
{
    match other {
        None => true,
        Some(other) => other <= moment,
    }
}

fn ended_by(moment: Moment, ended: &Option<Ending>) -> bool
    ensures { IsTrue result ↔ IfSome ended.now (λ e. e.moment ≤ moment) }
{
    match ended {
        None => true,
        Some(ending) => ending.moment <= moment,
    }
}

fn closed_by(moment: Moment, closed: &Option<Closing>) -> bool
    ensures { IsTrue result ↔ IfSome closed.now (λ c. c.moment ≤ moment) }
{
    match closed {
        None => true,
        Some(closing) => closing.moment <= moment,
    }
}

fn steps_by(moment: Moment, row: &RunRow) -> bool
    ensures { IsTrue result ↔ (IsUpTo moment row.now.asked × IsUpTo moment row.now.accepted × IsUpTo moment row.now.confirmed × IsUpTo moment row.now.started) }
{
    is_up_to(moment, row.asked)
        && is_up_to(moment, row.accepted)
        && is_up_to(moment, row.confirmed)
        && is_up_to(moment, row.started)
}

/// Whether none of the row's moments is after this one.
pub fn has_moments(moment: Moment, row: &RunRow) -> bool
    ensures { IsTrue result ↔ HasMomentsUpTo moment row.now }
{
    steps_by(moment, row)
        && is_up_to(moment, row.material)
        && ended_by(moment, &row.ended)
        && closed_by(moment, &row.closed)
}

fn is_started(row: &RunRow) -> bool
    ensures { IsTrue result ↔ IfSome row.now.started (λ m. IsSome row.now.confirmed × IsNone row.now.closed) }
{
    match row.started {
        None => true,
        Some(_) => row.confirmed.is_some() && row.closed.is_none(),
    }
}

fn confirmed_after(row: &RunRow) -> bool
    ensures { IsTrue result ↔ Needs row.now.confirmed row.now.accepted }
{
    match row.confirmed {
        None => true,
        Some(_) => row.accepted.is_some(),
    }
}

fn ended_after(row: &RunRow) -> bool
    ensures { IsTrue result ↔ Needs row.now.ended row.now.started }
{
    match row.ended {
        None => true,
        Some(_) => row.started.is_some(),
    }
}

fn material_after(row: &RunRow) -> bool
    ensures { IsTrue result ↔ Needs row.now.material row.now.started }
{
    match row.material {
        None => true,
        Some(_) => row.started.is_some(),
    }
}

/// Whether the steps of the row's life came in order.
pub fn has_life(row: &RunRow) -> bool
    ensures { IsTrue result ↔ HasLife row.now }
{
    confirmed_after(row) && is_started(row) && ended_after(row) && material_after(row)
}
