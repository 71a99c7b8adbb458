//! The reader of texts of lengths.
ghost use Rattle.std.specs.Prelude.{◌≡◌, ◌<◌, ◌≤◌, ◌*◌, IfOk, IfSome, Some};
ghost use Rattle.ps_time.specs.Length.{count_at, seconds_at, days_at, clock_at, amount_of, length_at, length_shown, length_of};

use crate::moment::{Length, MAX_LENGTH, TimeFault};
use crate::picture::{split_fraction, split_number, starts_as};

const WEEK: u64 = 604_800;

const DAY: u64 = 86_400;

const HOUR: u64 = 3_600;

const MINUTE: u64 = 60;

/// What a text of a length shows.
#[derive(Clone, Copy)]
pub struct Amount {
    /// Whether years or months are counted.
    pub calendar: bool,
    /// The seconds of all other counts.
    pub seconds: u64,
    /// The digits of the fraction of a second, as a number.
    pub fraction: u64,
}

/// The count of this designator that the text begins with, if it does, and what follows it.
#[tactic(auto, unfolding(crate::specs::Length::count_at))]
fn split_count(text: &[u8], designator: u8) -> (Option<u64>, &[u8])
    ensures value { (result.0, result.1.now) ≡ count_at designator text.now }
    ensures bound { IfSome result.0 (λ count. count < 1_000_000_000) }
{
    let Some((count, rest)) = split_number(text) else {
        return (None, text);
    };
    if !starts_as(&[designator], rest) {
        return (None, text);
    }
    (Some(count), &rest[1..])
}

/// The seconds that a text begins with, the digits of their fraction as a number, and what follows; all of it where no `S` does.
#[tactic(auto, unfolding(crate::specs::Length::seconds_at))]
fn split_seconds(text: &[u8]) -> (u64, u64, &[u8])
    ensures value { (result.0, result.1, result.2.now) ≡ seconds_at text.now }
    ensures bound { result.0 < 1_000_000_000 }
{
    let Some((count, rest)) = split_number(text) else {
        return (0, 0, text);
    };
    let (fraction, rest) = split_fraction(rest);
    if !starts_as(b"S", rest) {
        return (0, 0, text);
    }
    (count, fraction, &rest[1..])
}

/// The counts of the text after `P`: whether years or months are among them, the seconds of the weeks
/// and days, and what follows.
#[tactic(auto, unfolding(crate::specs::Length::days_at))]
fn split_days(text: &[u8]) -> (bool, u64, &[u8])
    ensures value { (result.0, result.1, result.2.now) ≡ days_at text.now }
    ensures bound { result.1 < 1_000_000_000 * 700_000 }
{
    let (years, rest) = split_count(text, b'Y');
    let (months, rest) = split_count(rest, b'M');
    let (weeks, rest) = split_count(rest, b'W');
    let (days, rest) = split_count(rest, b'D');
    (
        years.is_some() || months.is_some(),
        weeks.unwrap_or(0) * WEEK + days.unwrap_or(0) * DAY,
        rest,
    )
}

/// The counts of the text after `T`: their seconds, the digits of the fraction, and what follows.
#[tactic(auto, unfolding(crate::specs::Length::clock_at))]
fn split_clock(text: &[u8]) -> (u64, u64, &[u8])
    ensures value { (result.0, result.1, result.2.now) ≡ clock_at text.now }
    ensures bound { result.0 < 1_000_000_000 * 4_000 }
{
    let (hours, rest) = split_count(text, b'H');
    let (minutes, rest) = split_count(rest, b'M');
    let (seconds, fraction, rest) = split_seconds(rest);
    (
        hours.unwrap_or(0) * HOUR + minutes.unwrap_or(0) * MINUTE + seconds,
        fraction,
        rest,
    )
}

#[tactic(auto, unfolding(crate::specs::Length::amount_of))]
fn read_amount(text: &[u8]) -> Option<Amount>
    ensures value { result ≡ amount_of text.now }
    ensures bound { IfSome result (λ a. a.seconds < 1_000_000_000 * 704_000) }
{
    let (calendar, days, rest) = split_days(text);
    if rest.is_empty() {
        if text.is_empty() {
            return None;
        }
        return Some(Amount {
            calendar,
            seconds: days,
            fraction: 0,
        });
    }
    if rest[0] != b'T' || rest.len() == 1 {
        return None;
    }
    let (clock, fraction, rest) = split_clock(&rest[1..]);
    if !rest.is_empty() {
        return None;
    }
    Some(Amount {
        calendar,
        seconds: days + clock,
        fraction,
    })
}

fn length_within(seconds: u64) -> Result<Length, TimeFault>
    ensures value { result ≡ length_at seconds }
    ensures bound { IfOk result (λ length. length ≤ MAX_LENGTH) }
{
    if seconds > MAX_LENGTH {
        return Err(TimeFault::Range);
    }
    Ok(seconds)
}

fn length_of_amount(amount: &Amount) -> Result<Length, TimeFault>
    requires { amount.now.seconds < 1_000_000_000 * 704_000 }
    ensures value { result ≡ length_shown (Some amount.now) }
    ensures bound { IfOk result (λ length. length ≤ MAX_LENGTH) }
{
    if amount.calendar {
        return Err(TimeFault::CalendarUnit);
    }
    let part = if amount.fraction == 0 { 0 } else { 1 };
    length_within(amount.seconds + part)
}

#[tactic(auto, unfolding(crate::specs::Length::length_of))]
pub(crate) fn length_of_bytes(text: &[u8]) -> Result<Length, TimeFault>
    ensures value { result ≡ length_of text.now }
    ensures bound { IfOk result (λ length. length ≤ MAX_LENGTH) }
{
    if text.is_empty() || text[0] != b'P' {
        return Err(TimeFault::Syntax);
    }
    let amount = read_amount(&text[1..]).ok_or(TimeFault::Syntax)?;
    length_of_amount(&amount)
}

/// The length that a text shows, rounded up to whole seconds. `Syntax` exactly for a text outside the form
/// of `docs/specification/times.md`, `CalendarUnit` for a length with years or months, and `Range` for one
/// above `MAX_LENGTH`.
pub fn read_length(text: &str) -> Result<Length, TimeFault>
    ensures value { result ≡ length_of text.now }
    ensures bound { IfOk result (λ length. length ≤ MAX_LENGTH) }
{
    length_of_bytes(text.as_bytes())
}
