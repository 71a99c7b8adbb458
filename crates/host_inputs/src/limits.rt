//! New limits.
ghost use Rattle.std.specs.Prelude.{◌≡◌, IfOk, length};
ghost use Rattle.host_model.specs.Epochs.{is_latest, set_limits};
ghost use Rattle.host_inputs.specs.Epochs.{wrong_of};
ghost use Rattle.host_inputs.specs.Kept.{book_of};

use crate::hosting::Hosting;
use crate::outcome::{answered, one};
use host_model::change::Change;
use host_model::reply::{LimitsWrong, Outcome, Reply};
use limit_apply::limits::Limits;
use ps_time::boxed::Boxed;
use ps_time::memory::Memory;
use std::alloc::Global;

/// The most bytes that a text of limits takes.
pub const MOST_LIMITS_BYTES: usize = 1_048_576;

/// The most epochs that a book has.
pub const MOST_EPOCHS: u32 = 256;

/// What new limits come to: those of the latest epoch change nothing; others are refused for their length or for want of
/// a place, or are a new epoch.
pub fn set_limits<R: Hosting>(alloc: Global, book: &R, limits: Limits) -> Result<Outcome, Memory>
    requires { length (R.kept book.now).epochs ≡ R.latest book.now }
    ensures { IfOk result (λ o. o ≡ set_limits (book_of (R.at book.now) (R.seen book.now) (R.kept book.now)) limits) }
{
    let epoch = book.epoch();
    if is_latest(book, &limits) {
        drop(limits);
        return Ok(answered(alloc, Reply::LimitsSet(epoch)));
    }
    if let Some(wrong) = wrong_of(&limits, epoch) {
        drop(limits);
        return Ok(answered(alloc, Reply::LimitsWrong(wrong)));
    }
    let list = one(alloc, Change::LimitsSet(Boxed::new(alloc, limits)?))?;
    Ok(Outcome {
        reply: Reply::LimitsSet(epoch + 1),
        list,
    })
}

// Whether the limits are those of the latest epoch already.
fn is_latest<R: Hosting>(book: &R, limits: &Limits) -> bool
    ensures { result ≡ is_latest (book_of (R.at book.now) (R.seen book.now) (R.kept book.now)) limits.now }
{
    match book.latest_limits() {
        Some(latest) => latest.text() == limits.text(),
        None => false,
    }
}

// Why limits that aren't the latest can't be kept, beside so many epochs.
fn wrong_of(limits: &Limits, epochs: u32) -> Option<LimitsWrong>
    ensures { result ≡ wrong_of limits.now epochs }
{
    let bytes = limits.text().len();
    if MOST_LIMITS_BYTES < bytes {
        return Some(LimitsWrong::Bytes(bytes as u64));
    }
    if MOST_EPOCHS <= epochs {
        return Some(LimitsWrong::Epochs(epochs));
    }
    None
}
