//! Ranges of numbers.
ghost use Rattle.std.specs.Prelude.{◌≡◌};
ghost use Rattle.limit_rule.specs.Bounds.{lies};

use ps_time::duplicate::Duplicate;
use ps_time::memory::Memory;
use std::alloc::Global;

/// From `lower` to `upper`, both among them.
#[derive(Clone, Copy)]
pub struct Bounds {
    pub lower: u64,
    pub upper: u64,
}

impl Duplicate for Bounds {
    fn duplicate(&self, _alloc: Global) -> Result<Bounds, Memory> {
        Ok(*self)
    }
}

impl Bounds {
    /// Whether the number lies within the bounds, both of which are taken in.
    pub fn contains(self, number: u64) -> bool
        ensures { result ≡ lies self number }
    {
        self.lower <= number && number <= self.upper
    }
}
