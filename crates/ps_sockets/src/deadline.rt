//! Ends of waits.
ghost use Rattle.std.specs.Prelude.{◌≡◌, ◌+◌, ◌<◌, ◌↔◌, min, IsSome, IfSome};
ghost use Rattle.std.specs.Duration.{as_nanos, max_nanos};

use std::time::Duration;

/// When a wait ends, by the system's steady time: how long it is since an arbitrary start.
#[derive(Clone, Copy, Debug, PartialEq, Eq)]
pub struct Deadline {
    at: Duration,
}

impl Deadline {
    /// So long after that moment.
    pub fn after(moment: Duration, wait: Duration) -> Deadline
        ensures { as_nanos result.at ≡ min (as_nanos moment + as_nanos wait) max_nanos }
    {
        Deadline {
            at: moment.saturating_add(wait),
        }
    }

    /// What is left of the wait, which is never nothing; none where it has ended.
    pub fn left(&self, now: Duration) -> Option<Duration>
        ensures ended { IsSome result ↔ (as_nanos now < as_nanos self.now.at) }
        ensures left { IfSome result (λ left. as_nanos left + as_nanos now ≡ as_nanos self.now.at) }
    {
        let left = self.at.checked_sub(now)?;
        if left.is_zero() {
            return None;
        }
        Some(left)
    }
}
