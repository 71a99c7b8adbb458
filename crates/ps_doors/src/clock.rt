//! Clocks.
ghost use Rattle.std.specs.Prelude.{◌≤◌, ℕ};
ghost use Rattle.ps_time.specs.Numbers.{greatest_moment};

use ps_time::moment::Moment;

/// What tells the time. It has no faults.
pub trait Clock {
    // The moments that this clock may give. Of the system's time nothing is known.
    ghost may_give: { Self → ℕ → Type 0 };

    /// The moment that it is.
    fn now(&self) -> Moment
        ensures gives { may_give self.now result }
        ensures bound { result ≤ greatest_moment };

    /// Lets a little time pass, where time passes at all.
    fn pause(&self);
}
