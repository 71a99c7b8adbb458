//! Who asks, and what the limits answer.
ghost use Rattle.std.specs.Prelude.{◌≡◌, IfOk};

use crate::duplicate::Duplicate;
use crate::memory::Memory;
use crate::same::Same;
use crate::text::Text;
use std::alloc::Global;

/// Who asks for a run.
#[derive(Debug, Drop)]
pub struct Asker {
    /// The address from which the task was posted.
    pub requester: Text,
    /// The name of the lead.
    pub server: Text,
}

impl Asker {
    /// An equal asker, with texts of its own.
    pub fn copy(&self, alloc: Global) -> Result<Asker, Memory>
        ensures { IfOk result (λ made. made ≡ self.now) }
    {
        Ok(Asker {
            requester: self.requester.copy(alloc)?,
            server: self.server.copy(alloc)?,
        })
    }
}

impl Duplicate for Asker {
    fn duplicate(&self, alloc: Global) -> Result<Asker, Memory> {
        self.copy(alloc)
    }
}

impl Same for Asker {
    fn same(&self, other: &Asker) -> bool {
        self.requester.same(&other.requester) && self.server.same(&other.server)
    }
}

/// What a host's limits say of a run.
#[derive(Clone, Copy, Debug, PartialEq, Eq)]
pub enum Verdict {
    /// The application at this place, from 0 on, permits it.
    Permitted(u32),
    /// The application at this place, from 0 on, failed and stops the walk.
    Stopped(u32),
    /// No application decided.
    Exhausted,
    /// Permitted, but the priority is above this ceiling of the asker.
    AboveCeiling(i16),
}

impl Duplicate for Verdict {
    fn duplicate(&self, _alloc: Global) -> Result<Verdict, Memory> {
        Ok(*self)
    }
}

impl Same for Verdict {
    fn same(&self, other: &Verdict) -> bool {
        self == other
    }
}
