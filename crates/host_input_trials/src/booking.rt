//! Runs that conflict with no other.
ghost use Rattle.std.specs.Prelude.{◌≤◌};
ghost use Rattle.ps_time.specs.declared.moment.TheConstants.{MAX_MOMENT};
ghost use Rattle.host_model.specs.Conditions.{IsInput};
ghost use Rattle.host_model.specs.declared.config.Config.{Config as Known};

use host_model::input::Input;
use ps_time::class::Class;
use ps_time::moment::{MAX_MOMENT, Moment};

/// A moment so much later, as far as there is one.
pub fn later(moment: Moment, seconds: u64) -> Moment
    ensures { result ≤ MAX_MOMENT }
{
    moment.saturating_add(seconds).min(MAX_MOMENT)
}

/// A run of ten seconds that conflicts with no other.
pub fn a_booking(start: Moment) -> Input
    requires { start ≤ MAX_MOMENT }
    ensures bounds { (c : Known) → IsInput c result }
{
    Input::Book {
        class: Class::Background,
        priority: 0,
        start,
        length: 10,
    }
}
