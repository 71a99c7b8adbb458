//! The reader of texts of starts.
ghost use Rattle.std.specs.Prelude.{◌≡◌, ◌≤◌, ◌+◌, ◌*◌, ◌/◌, ◌%◌, ◌<◌, ℕ, IfOk};
ghost use Rattle.ps_time.specs.Start.{next_multiple, start_of};

use crate::moment::{Length, MAX_LENGTH, MAX_MOMENT, Moment, Round, TimeFault};
use crate::read_length::{length_of_bytes, read_length};
use crate::read_moment::{moment_within, read_moment};

/// The least multiple of the step from `now` on.
fn next_multiple_of(step: Length, now: Moment) -> u64
    requires step { 0 < step }
    requires short { step ≤ MAX_LENGTH }
    requires now { now ≤ MAX_MOMENT }
    ensures value { result ≡ next_multiple step now }
    ensures bound { result ≤ now + step }
{
    if now % step == 0 {
        now
    } else {
        (now / step + 1) * step
    }
}

/// The moment that a text shows as a start: `@` and a length for the least multiple of it from `now` on, a
/// length for that much after `now`, else a moment; all rounded up to whole seconds. Faults come in the order
/// of `TimeFault`: `Syntax` and `CalendarUnit` as in the readers of lengths and moments, and `Range` also for
/// multiples of a length of 0 and for a value above `MAX_MOMENT`.
#[tactic(auto, unfolding(crate::specs::Start::start_of))]
pub fn read_start(text: &str, now: Moment) -> Result<Moment, TimeFault>
    requires { now ≤ MAX_MOMENT }
    ensures value { result ≡ start_of now text.now }
    ensures bound { IfOk result (λ moment. moment ≤ MAX_MOMENT) }
{
    let bytes = text.as_bytes();
    if bytes.is_empty() {
        return read_moment(text, Round::Up);
    }
    match bytes[0] {
        b'@' => {
            let step = length_of_bytes(&bytes[1..])?;
            if step == 0 {
                return Err(TimeFault::Range);
            }
            moment_within(next_multiple_of(step, now) as i64)
        }
        b'P' => moment_within((now + read_length(text)?) as i64),
        _ => read_moment(text, Round::Up),
    }
}

/// A law: the multiple that `@` names is one, isn't before `now`, and is the least such.
pub fn law_next_multiple()
    ensures multiple { (step now : ℕ) → 0 < step → next_multiple step now % step ≡ 0 }
    ensures from { (step now : ℕ) → 0 < step → now ≤ next_multiple step now }
    ensures least { (step now other : ℕ) → 0 < step → other % step ≡ 0 → now ≤ other → next_multiple step now ≤ other }
{}
