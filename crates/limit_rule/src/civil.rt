//! What the calendar and the clock show, in UTC.
ghost use Rattle.std.specs.Prelude.{◌≡◌, ◌%◌, pos};
ghost use Rattle.jiff_core.specs.Date.{epoch_day};
ghost use Rattle.limit_rule.specs.Civil.{month_day_of, weekday_of, civil_of};

use jiff_core::civil::Date;

/// What the calendar and the clock show at a second, in UTC.
#[derive(Clone, Copy)]
pub struct Civil {
    /// From 1 to 12.
    pub month: u64,
    /// From 1 to 31.
    pub monthday: u64,
    /// From 1, Monday, to 7.
    pub weekday: u64,
    /// From 0 to 23.
    pub hour: u64,
    /// From 0 to 59.
    pub minute: u64,
}

/// The day from 1970 to 2369 at which the calendar shows the same as at this one.
fn day_of_cycle(day: u64) -> Date
    ensures { epoch_day result ≡ pos (day % 146_097) }
{
    Date::from_days_since_min((day % 146_097) as u32 + 4_371_587)
}

/// The month of a day, and its place in the month.
fn month_day(day: u64) -> (u64, u64)
    ensures { result ≡ month_day_of day }
{
    let date = day_of_cycle(day);
    (u64::from(date.month), u64::from(date.day))
}

/// The day's place in the week.
fn weekday(day: u64) -> u64
    ensures { result ≡ weekday_of day }
{
    u64::from(day_of_cycle(day).weekday().index()) + 1
}

/// What the calendar and the clock show so many seconds after 1970-01-01T00:00Z.
pub fn civil_at(second: u64) -> Civil
    ensures { result ≡ civil_of second }
{
    let day = second / 86_400;
    let (month, monthday) = month_day(day);
    Civil {
        month,
        monthday,
        weekday: weekday(day),
        hour: second / 3_600 % 24,
        minute: second / 60 % 60,
    }
}
