//! Days of the calendar, over `jiff`.
ghost use Rattle.std.specs.Prelude.{◌≡◌, ◌≤◌, ◌↔◌, ℕ, pos, IsTrue, IfSome};
ghost use Rattle.jiff.specs.Words.{IsDate, IsEpochDay};
ghost use Rattle.ps_time.specs.Calendar.{is_date, day_of_date, date_of_day};

use jiff::civil::Date;
use jiff_core::civil::Date as CivilDate;

/// The number of a day, 0 for 1970-01-01; `None` exactly for a date that the calendar doesn't have.
pub(crate) fn day_number(year: u64, month: u64, day: u64) -> Option<i64>
    ensures value { result ≡ day_of_date year month day }
    ensures bound { IfSome result IsEpochDay }
{
    if year > 9999 || month > 12 || day > 31 {
        return None;
    }
    match Date::new(year as i16, month as i8, day as i8) {
        Ok(date) => Some(i64::from(date.to_plain().to_unix_epoch_day())),
        Err(_) => None,
    }
}

/// A law: the dates that a text of a moment may show are those of `jiff` in the years 0 to 9999.
pub fn law_dates()
    ensures { (year month day : ℕ) → year ≤ 9999 → IsTrue (is_date year month day) ↔ IsDate (pos year) (pos month) (pos day) }
{}

/// The year, month and day of a day from 1970 to 2100.
pub(crate) fn date_of(day: u64) -> (u64, u64, u64)
    requires { day ≤ 47_482 }
    ensures { result ≡ date_of_day day }
{
    let date = CivilDate::from_days_since_min(day as u32 + 4_371_587);
    let year = date.year.unsigned_abs();
    (u64::from(year), u64::from(date.month), u64::from(date.day))
}
