//! How far one archiver has come with one result.
ghost use Rattle.std.specs.Prelude.{◌≡◌, ◌≤◌, ℕ, nat_le};
ghost use Rattle.ps_time.specs.declared.moment.TheConstants.{MAX_MOMENT};
ghost use Rattle.archive_retry.specs.Bounds.{IsStateOf};
ghost use Rattle.archive_retry.specs.Retry.{due_from, is_due};
ghost use Rattle.archive_retry.specs.declared.policy.Policy.{Policy};

use ps_time::duplicate::Duplicate;
use ps_time::memory::Memory;
use ps_time::moment::Moment;
use ps_time::same::Same;
use std::alloc::Global;

/// It was given up where `next` is `None` and `done` is false.
#[derive(Clone, Copy, PartialEq)]
pub struct ArchiveState {
    /// How many attempts were made.
    pub tried: u32,
    /// When the next one is due, in seconds since 1970 UTC.
    pub next: Option<Moment>,
    /// Whether an attempt succeeded.
    pub done: bool,
}

impl ArchiveState {
    /// The first state of an archive, where the run is merged at this moment: due from then on.
    pub fn due_from(moment: Moment) -> ArchiveState
        requires { moment ≤ MAX_MOMENT }
        ensures state { result ≡ due_from moment }
        ensures due { (m : ℕ) → is_due result m ≡ nat_le moment m }
        ensures lawful { (policy : Policy) → IsStateOf policy result }
    {
        ArchiveState {
            tried: 0,
            next: Some(moment),
            done: false,
        }
    }
}

impl Duplicate for ArchiveState {
    fn duplicate(&self, _alloc: Global) -> Result<ArchiveState, Memory> {
        Ok(*self)
    }
}

impl Same for ArchiveState {
    fn same(&self, other: &ArchiveState) -> bool {
        self == other
    }
}
