//! Half-open intervals of time, and windows of starts.
ghost use Rattle.std.specs.Prelude.{◌≡◌};

use crate::duplicate::Duplicate;
use crate::memory::Memory;
use crate::same::Same;
use std::alloc::Global;
use std::marker::Model;

/// The seconds that a run reserves: from `start` on, up to and without `end`.
#[derive(Clone, Copy, Debug, PartialEq, Eq)]
pub struct Interval {
    /// In seconds since 1970 UTC.
    pub start: u64,
    /// In seconds since 1970 UTC, above `start`.
    pub end: u64,
}

impl Model for Interval {
    ghost use Rattle.std.specs.Prelude.{◌<◌};
    ghost use Rattle.ps_time.specs.Span.{Span};

    ghost Value = { Span };

    ghost view = { λ i. record { start = i.start; end = i.end } };

    ghost invariant = { λ i. i.start < i.end };

    ghost inverse = { λ s. record { start = s.start; end = s.end } };
}

impl Interval {
    ghost use Rattle.ps_time.specs.Span.{overlap};

    /// Whether some second lies in both. Intervals that touch don't overlap.
    pub fn overlaps(&self, other: &Interval) -> bool
        ensures { result ≡ overlap self.now other.now }
    {
        self.start < other.end && other.start < self.end
    }
}

impl Duplicate for Interval {
    fn duplicate(&self, _alloc: Global) -> Result<Interval, Memory> {
        Ok(*self)
    }
}

impl Same for Interval {
    fn same(&self, other: &Interval) -> bool {
        self == other
    }
}

/// Moments at which a run may start: from `first` to `last`, both among them.
#[derive(Clone, Copy, Debug, PartialEq, Eq)]
pub struct Window {
    /// In seconds since 1970 UTC.
    pub first: u64,
    /// In seconds since 1970 UTC, at least `first`.
    pub last: u64,
}

impl Model for Window {
    ghost use Rattle.std.specs.Prelude.{◌≤◌};
    ghost use Rattle.ps_time.specs.Span.{Range};

    ghost Value = { Range };

    ghost view = { λ w. record { first = w.first; last = w.last } };

    ghost invariant = { λ w. w.first ≤ w.last };

    ghost inverse = { λ r. record { first = r.first; last = r.last } };
}

impl Duplicate for Window {
    fn duplicate(&self, _alloc: Global) -> Result<Window, Memory> {
        Ok(*self)
    }
}

impl Same for Window {
    fn same(&self, other: &Window) -> bool {
        self == other
    }
}
