//! The reader of texts of moments.
ghost use Rattle.std.specs.Prelude.{◌≡◌, ◌≤◌, ◌<◌, pos, ◌+ℤ◌, ◌*ℤ◌, Some, true, IfOk};
ghost use Rattle.jiff_core.specs.Calendar.{IsWithin, IsEpochDay};
ghost use Rattle.ps_time.specs.Moment.{seconds_at, offset_of, stamp_of, on_clock, utc_of, carried, seconds_ahead, moment_at, moment_shown, moment_of};

use crate::calendar::day_number;
use crate::moment::{MAX_MOMENT, Moment, Round, TimeFault};
use crate::picture::{matches, number, split_fraction, starts_as};

/// The difference from UTC that a text shows.
#[derive(Clone, Copy)]
pub struct Offset {
    /// Whether the clock is behind UTC.
    pub behind: bool,
    /// As they are written, 0 to 99.
    pub hours: u64,
    /// As they are written, 0 to 99.
    pub minutes: u64,
}

/// The numbers that a text of a moment shows.
#[derive(Clone, Copy)]
pub struct Stamp {
    /// 0 to 9999.
    pub year: u64,
    /// As it is written, 0 to 99, like each number from here to `second`.
    pub month: u64,
    /// Of the month.
    pub day: u64,
    /// Of the day.
    pub hour: u64,
    /// Of the hour.
    pub minute: u64,
    /// Of the minute; 0 where the text shows none.
    pub second: u64,
    /// The digits of the second's fraction, as a number.
    pub fraction: u64,
    /// UTC where the text shows none.
    pub offset: Offset,
}

#[tactic(auto, unfolding(crate::specs::Moment::seconds_at))]
fn split_seconds(text: &[u8]) -> (u64, u64, &[u8])
    ensures { (result.0, result.1, result.2.now) ≡ seconds_at text.now }
{
    if !starts_as(b":00", text) {
        return (0, 0, text);
    }
    let (fraction, rest) = split_fraction(&text[3..]);
    (number(&text[1..3]), fraction, rest)
}

#[tactic(auto, unfolding(crate::specs::Moment::offset_of))]
fn read_offset(text: &[u8]) -> Option<Offset>
    ensures { result ≡ offset_of text.now }
{
    if matches(b"", text) || matches(b"Z", text) {
        return Some(Offset {
            behind: false,
            hours: 0,
            minutes: 0,
        });
    }
    let minutes = if matches(b"+00", text) {
        0
    } else if matches(b"+0000", text) {
        number(&text[3..5])
    } else if matches(b"+00:00", text) {
        number(&text[4..6])
    } else {
        return None;
    };
    Some(Offset {
        behind: text[0] == b'-',
        hours: number(&text[1..3]),
        minutes,
    })
}

#[tactic(auto, unfolding(crate::specs::Moment::stamp_of))]
fn read_stamp(text: &[u8]) -> Option<Stamp>
    ensures { result ≡ stamp_of text.now }
{
    if !starts_as(b"0000-00-00T00:00", text) {
        return None;
    }
    let (second, fraction, rest) = split_seconds(&text[16..]);
    let offset = read_offset(rest)?;
    Some(Stamp {
        year: number(&text[0..4]),
        month: number(&text[5..7]),
        day: number(&text[8..10]),
        hour: number(&text[11..13]),
        minute: number(&text[14..16]),
        second,
        fraction,
        offset,
    })
}

fn carry(round: Round, fraction: u64) -> i64
    ensures value { result ≡ pos (carried round fraction) }
    ensures bound { IsWithin 1 result }
{
    match round {
        Round::Up if fraction != 0 => 1,
        _ => 0,
    }
}

/// Whether the clock has the time that is shown, and the difference from UTC is below a day.
fn is_on_clock(stamp: &Stamp) -> bool
    ensures { result ≡ on_clock stamp.now }
{
    stamp.hour <= 23
        && stamp.minute <= 59
        && stamp.second <= 59
        && stamp.offset.hours <= 23
        && stamp.offset.minutes <= 59
}

fn seconds_off(offset: Offset) -> i64
    requires { (offset.hours ≤ 23) × (offset.minutes ≤ 59) }
    ensures value { result ≡ seconds_ahead offset }
    ensures bound { IsWithin 86_340 result }
{
    let seconds = (offset.hours * 3_600 + offset.minutes * 60) as i64;
    if offset.behind { -seconds } else { seconds }
}

fn civil_second(day: i64, second: u64) -> i64
    requires day { IsEpochDay day }
    requires second { second < 86_400 }
    ensures value { result ≡ day *ℤ pos 86_400 +ℤ pos second }
    ensures bound { IsWithin 400_000_000_000 result }
{
    day * 86_400 + second as i64
}

fn utc_second(day: i64, stamp: &Stamp, round: Round) -> i64
    requires day { IsEpochDay day }
    requires clock { on_clock stamp.now ≡ true }
    ensures { result ≡ utc_of day round stamp.now }
{
    let Stamp {
        hour,
        minute,
        second,
        offset,
        ..
    } = *stamp;
    let civil = civil_second(day, hour * 3_600 + minute * 60 + second);
    civil - seconds_off(offset) + carry(round, stamp.fraction)
}

pub(crate) fn moment_within(second: i64) -> Result<Moment, TimeFault>
    ensures value { result ≡ moment_at second }
    ensures bound { IfOk result (λ moment. moment ≤ MAX_MOMENT) }
{
    if second < 0 || second as u64 > MAX_MOMENT {
        return Err(TimeFault::Range);
    }
    Ok(second as u64)
}

fn moment_of_stamp(stamp: &Stamp, round: Round) -> Result<Moment, TimeFault>
    ensures value { result ≡ moment_shown round (Some stamp.now) }
    ensures bound { IfOk result (λ moment. moment ≤ MAX_MOMENT) }
{
    let day = day_number(stamp.year, stamp.month, stamp.day).ok_or(TimeFault::Range)?;
    if !is_on_clock(stamp) {
        return Err(TimeFault::Range);
    }
    moment_within(utc_second(day, stamp, round))
}

/// The moment that a text shows, with a fraction of a second rounded as asked. `Syntax` exactly for a
/// text outside the form of `docs/specification/times.md`, `Range` for a date, a time of day or a
/// difference from UTC that doesn't exist, and for a value outside 0 to `MAX_MOMENT`.
#[tactic(auto, unfolding(crate::specs::Moment::moment_of))]
pub fn read_moment(text: &str, round: Round) -> Result<Moment, TimeFault>
    ensures value { result ≡ moment_of round text.now }
    ensures bound { IfOk result (λ moment. moment ≤ MAX_MOMENT) }
{
    let stamp = read_stamp(text.as_bytes()).ok_or(TimeFault::Syntax)?;
    moment_of_stamp(&stamp, round)
}
