//! The key of a run: its lead, its task there, its number, its attempt.
ghost use Rattle.std.specs.Prelude.{◌≡◌};

use crate::duplicate::Duplicate;
use crate::memory::Memory;
use crate::same::Same;
use std::alloc::Global;
use std::cmp::Ordering;

/// The key of a run, the same on every host. Keys are ordered by their fields.
#[derive(Clone, Copy, Debug, PartialEq, Eq, PartialOrd, Ord)]
pub struct RunKey {
    /// The number of the lead host, 1 to 65535.
    pub lead: u16,
    /// The serial of the task on its lead, from 1 on; 0 for a booking.
    pub task: u32,
    /// The number of the run in its task's schedule; of a booking, from 1 on.
    pub number: u32,
    /// Which attempt at this number it is, from 0 on.
    pub attempt: u16,
}

impl RunKey {
    ghost use Rattle.ps_time.specs.Key.{key_cmp};

    /// The order of keys, as contracts of other crates cite it.
    pub fn order(&self, other: &RunKey) -> Ordering
        ensures { result ≡ key_cmp self.now other.now }
    {
        self.cmp(other)
    }
}

impl Duplicate for RunKey {
    fn duplicate(&self, _alloc: Global) -> Result<RunKey, Memory> {
        Ok(*self)
    }
}

impl Same for RunKey {
    fn same(&self, other: &RunKey) -> bool {
        self == other
    }
}
