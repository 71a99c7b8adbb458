//! When an archiver is tried again.
ghost use Rattle.std.specs.Prelude.{◌≡◌, ◌≤◌, ◌+◌, ◌↔◌, ◌⊎◌, ℕ, true, false, length, IfSome, IsNone, All};
ghost use Rattle.std.specs.List.{slice_get};
ghost use Rattle.std.specs.Option.{ForSome};
ghost use Rattle.ps_time.specs.declared.moment.TheConstants.{MAX_LENGTH, MAX_MOMENT};
ghost use Rattle.archive_retry.specs.Bounds.{IsEntry, IsPolicy, IsStateOf};
ghost use Rattle.archive_retry.specs.Retry.{written_out, wait_after, next_after, state_after, is_due};

use crate::policy::{Entry, Policy};
use crate::state::ArchiveState;
use ps_time::moment::{Length, Moment};

/// Whether an attempt is due by the moment.
pub fn due(state: &ArchiveState, moment: Moment) -> bool
    ensures { result ≡ is_due state.now moment }
{
    !state.done && state.next.is_some_and(|next| next <= moment)
}

/// The state after an attempt at the moment, which succeeded or failed. `retry` is how long after a
/// failure the archiver wants to be tried again; `None` is never.
pub fn tried(
    policy: &Policy,
    state: ArchiveState,
    moment: Moment,
    retry: Option<Length>,
    good: bool,
) -> ArchiveState
    requires policy { IsPolicy policy.now }
    requires moment { moment ≤ MAX_MOMENT }
    requires retry { ForSome retry (λ r. r ≤ MAX_LENGTH) }
    ensures state { result ≡ state_after policy.now state moment retry good }
    ensures bound { IfSome result.next (λ next. next ≤ MAX_MOMENT + MAX_LENGTH) }
    ensures given_up { good ≡ false
        → IsNone result.next ↔ (IsNone retry ⊎ (length (written_out policy.now.entries) ≤ state.tried)) }
    ensures lawful { IsStateOf policy.now result }
    ensures over { good ≡ true → (m : ℕ) → is_due result m ≡ false }
{
    let count = state.tried.saturating_add(1);
    if good {
        return ArchiveState {
            tried: count,
            next: None,
            done: true,
        };
    }
    ArchiveState {
        tried: count,
        next: next_attempt(policy, state.tried, moment, retry),
        done: false,
    }
}

fn next_attempt(
    policy: &Policy,
    tried: u32,
    moment: Moment,
    retry: Option<Length>,
) -> Option<Moment>
    requires policy { IsPolicy policy.now }
    requires moment { moment ≤ MAX_MOMENT }
    requires retry { ForSome retry (λ r. r ≤ MAX_LENGTH) }
    ensures value { result ≡ next_after moment retry (wait_after policy.now tried) }
    ensures bound { IfSome result (λ next. next ≤ MAX_MOMENT + MAX_LENGTH) }
{
    let retry = retry?;
    let wait = wait_of(policy.entries.as_slice(), tried)?;
    Some(moment + retry.max(wait))
}

/// The wait after the next failure, where so many attempts were made before; `None` where the policy is
/// spent.
fn wait_of(entries: &[Entry], tried: u32) -> Option<Length>
    requires { All IsEntry entries.now }
    ensures value { result ≡ slice_get (written_out entries.now) tried }
    ensures bound { IfSome result (λ wait. wait ≤ MAX_LENGTH) }
{
    let mut left = tried;
    for entry in entries {
        if left < entry.attempts {
            return Some(entry.wait);
        }
        left -= entry.attempts;
    }
    None
}
