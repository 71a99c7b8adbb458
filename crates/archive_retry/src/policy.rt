//! How often an archiver is tried again, and how long after a failure.
ghost use Rattle.std.specs.Prelude.{◌≡◌, ◌≤◌, IfOk, All, length, sum_by};
ghost use Rattle.archive_retry.specs.Bounds.{IsEntry, IsPolicy};
ghost use Rattle.archive_retry.specs.Retry.{attempts_of, written_out};

use ps_time::duplicate::Duplicate;
use ps_time::items::Items;
use ps_time::memory::Memory;
use ps_time::moment::Length;
use ps_time::same::Same;
use std::alloc::Global;

/// Some retries with one wait.
#[derive(Clone, Copy, PartialEq)]
pub struct Entry {
    /// How many retries: 1 to 1,000.
    pub attempts: u32,
    /// From a failure to the next attempt, in seconds.
    pub wait: Length,
}

impl Duplicate for Entry {
    fn duplicate(&self, _alloc: Global) -> Result<Entry, Memory> {
        Ok(*self)
    }
}

impl Same for Entry {
    fn same(&self, other: &Entry) -> bool {
        self == other
    }
}

/// The entries are used up one after another; once they are spent, no attempt follows a failure.
#[derive(Drop)]
pub struct Policy {
    /// At most 16.
    pub entries: Items<Entry>,
}

impl Policy {
    /// The attempts of all entries: how many failures are followed by another attempt, 16,000 at most.
    pub fn attempts(&self) -> u32
        requires { IsPolicy self.now }
        ensures sum { result ≡ attempts_of self.now }
        ensures written { result ≡ length (written_out self.now.entries) }
        ensures bound { result ≤ 16000 }
    {
        total_attempts(self.entries.as_slice())
    }

    /// The same policy once more.
    pub fn copy(&self, alloc: Global) -> Result<Policy, Memory>
        ensures { IfOk result (λ made. made ≡ self.now) }
    {
        Ok(Policy {
            entries: self.entries.copy(alloc)?,
        })
    }
}

fn total_attempts(entries: &[Entry]) -> u32
    requires few { length entries.now ≤ 16 }
    requires entries { All IsEntry entries.now }
    ensures sum { result ≡ sum_by (λ e. e.attempts) entries.now }
    ensures bound { result ≤ 16000 }
{
    let mut total = 0;
    for entry in entries {
        total += entry.attempts;
    }
    total
}

impl Duplicate for Policy {
    fn duplicate(&self, alloc: Global) -> Result<Policy, Memory> {
        self.copy(alloc)
    }
}

impl Same for Policy {
    fn same(&self, other: &Policy) -> bool {
        self.entries.same(&other.entries)
    }
}
