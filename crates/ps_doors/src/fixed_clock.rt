//! A clock that stands still.
ghost use Rattle.std.specs.Prelude.{◌≡◌, ◌≤◌};
ghost use Rattle.ps_time.specs.Numbers.{greatest_moment};

use crate::clock::Clock;
use ps_time::moment::Moment;
use std::marker::Model;

/// A clock that always gives the same moment, and whose pause is none.
#[derive(Drop)]
pub struct FixedClock {
    moment: Moment,
}

impl Model for FixedClock {
    ghost use Rattle.std.specs.Prelude.{◌≤◌, ℕ};
    ghost use Rattle.ps_time.specs.Numbers.{greatest_moment};

    ghost Value = { ℕ };

    ghost view = { λ c. c.moment };

    ghost invariant = { λ c. c.moment ≤ greatest_moment };
}

impl FixedClock {
    /// A clock that always gives this moment, in seconds since 1970 UTC.
    pub fn new(moment: Moment) -> FixedClock
        requires { moment ≤ greatest_moment }
        ensures { result ≡ moment }
    {
        FixedClock { moment }
    }
}

impl Clock for FixedClock {
    ghost use Rattle.std.specs.Prelude.{◌≡◌};

    ghost may_give = { λ c m. m ≡ c };

    fn now(&self) -> Moment {
        self.moment
    }

    fn pause(&self) {}
}
