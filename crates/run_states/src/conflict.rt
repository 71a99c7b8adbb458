//! When a row is in conflict with a run.
ghost use Rattle.std.specs.Prelude.{◌≡◌};
ghost use Rattle.run_states.specs.Conflict.{blocks, clashes, in_conflict};
ghost use Rattle.plugin_core.specs.TestSpec.{test_class};

use crate::row::RunRow;
use plugin_core::test_spec::class_of;
use ps_time::class::{Class, classes_conflict};
use ps_time::interval::Interval;
use ps_time::key::RunKey;

impl RunRow {
    /// Whether it is the row of another run, booked, and in conflict with the run of this key, class and
    /// interval. No run is in conflict with itself.
    pub fn is_in_conflict(&self, key: RunKey, class: Class, interval: &Interval) -> bool
        ensures { result ≡ in_conflict key class interval.now self.now }
    {
        !self.key.order(&key).is_eq() && self.blocks(class, interval)
    }

    // Whether it is booked, and what it reserves clashes with a run of this class and interval.
    fn blocks(&self, class: Class, interval: &Interval) -> bool
        ensures { result ≡ blocks class interval.now self.now }
    {
        self.is_booked() && self.clashes(class, interval)
    }

    fn clashes(&self, class: Class, interval: &Interval) -> bool
        ensures { result ≡ clashes class interval.now (test_class self.now.test) self.now.interval }
    {
        match self.interval {
            Some(own) => classes_conflict(class, class_of(&self.test)) && interval.overlaps(&own),
            None => false,
        }
    }
}
