//! Where a run could start, in two tiers.
ghost use Rattle.std.specs.Prelude.{◌≡◌, IfOk};

use crate::duplicate::Duplicate;
use crate::interval::Window;
use crate::items::Items;
use crate::memory::Memory;
use crate::same::Same;
use std::alloc::Global;

/// The starts that are free, and those that become free by preemption.
#[derive(Debug, Drop)]
pub struct Tiers {
    /// Starts without a conflict, ascending and maximal.
    pub first: Items<Window>,
    /// Starts whose conflicts can all be preempted, ascending and maximal.
    pub second: Items<Window>,
}

impl Tiers {
    /// Equal tiers, with lists of their own.
    pub fn copy(&self, alloc: Global) -> Result<Tiers, Memory>
        ensures { IfOk result (λ made. made ≡ self.now) }
    {
        Ok(Tiers {
            first: self.first.copy(alloc)?,
            second: self.second.copy(alloc)?,
        })
    }
}

impl Duplicate for Tiers {
    fn duplicate(&self, alloc: Global) -> Result<Tiers, Memory> {
        self.copy(alloc)
    }
}

impl Same for Tiers {
    fn same(&self, other: &Tiers) -> bool {
        self.first.same(&other.first) && self.second.same(&other.second)
    }
}
