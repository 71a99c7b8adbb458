//! The text of a moment.
ghost use Rattle.std.specs.Prelude.{◌≡◌, ◌≤◌, ◌<◌, ℕ, Ok, IfOk, length, take};
ghost use Rattle.ps_time.specs.declared.moment.Round.{Round};
ghost use Rattle.ps_time.specs.Moment.{moment_of, moment_text_of, day_text_of};

use crate::calendar::date_of;
use crate::memory::Memory;
use crate::moment::{MAX_MOMENT, Moment};
use crate::text::Text;
use std::alloc::Global;
use std::fmt;

/// A date as it is written: `YYYY-MM-DD`.
#[derive(Drop)]
struct ShownDate {
    year: u64,
    month: u64,
    day: u64,
    ghost in_bounds: { (1_000 ≤ year) × (year < 10_000) × (month < 100) × (day < 100) },
}

impl fmt::Display for ShownDate {
    ghost use Rattle.std.specs.Prelude.{Some};
    ghost use Rattle.ps_time.specs.Moment.{date_text};

    ghost output = { λ d. Some (date_text (d.year, d.month, d.day)) };

    fn fmt<W: fmt::Write>(&self, f: &mut fmt::Formatter<W>) -> fmt::Result {
        let year = self.year;
        let month = self.month;
        let day = self.day;
        write!(f, "{year:04}-{month:02}-{day:02}")
    }
}

/// A second of a day as it is written: `hh:mm:ss`.
#[derive(Drop)]
struct ShownClock {
    second: u64,
    ghost in_bounds: { second < 86_400 },
}

impl fmt::Display for ShownClock {
    ghost use Rattle.std.specs.Prelude.{Some};
    ghost use Rattle.ps_time.specs.Moment.{clock_text};

    ghost output = { λ c. Some (clock_text c.second) };

    fn fmt<W: fmt::Write>(&self, f: &mut fmt::Formatter<W>) -> fmt::Result {
        let hour = self.second / 3_600;
        let minute = self.second % 3_600 / 60;
        let second = self.second % 60;
        write!(f, "{hour:02}:{minute:02}:{second:02}")
    }
}

/// The text of a moment: `YYYY-MM-DDThh:mm:ssZ`.
#[tactic(auto, unfolding(crate::specs::Moment::moment_text_of))]
pub fn moment_text(alloc: Global, moment: Moment) -> Result<Text, Memory>
    requires { moment ≤ MAX_MOMENT }
    ensures { IfOk result (λ text. text ≡ moment_text_of moment) }
{
    let (year, month, day) = date_of(moment / 86_400);
    let date = ShownDate { year, month, day };
    let clock = ShownClock {
        second: moment % 86_400,
    };
    Ok(Text::from_string(format!(in alloc; "{date}T{clock}Z")?))
}

/// The day of a moment in UTC: `YYYY-MM-DD`.
#[tactic(auto, unfolding(crate::specs::Moment::day_text_of))]
pub fn day_text(alloc: Global, moment: Moment) -> Result<Text, Memory>
    requires { moment ≤ MAX_MOMENT }
    ensures { IfOk result (λ text. text ≡ day_text_of moment) }
{
    let (year, month, day) = date_of(moment / 86_400);
    let date = ShownDate { year, month, day };
    Ok(Text::from_string(format!(in alloc; "{date}")?))
}

/// A law: the text of every moment is read again with its value, whichever way fractions are rounded.
pub fn law_moment_text()
    ensures { (round : Round) (moment : ℕ) → moment ≤ MAX_MOMENT → moment_of round (moment_text_of moment) ≡ Ok moment }
{}

/// A law: the text of a moment begins with the text of its day, which has ten bytes.
pub fn law_day_text()
    ensures length { (moment : ℕ) → length (day_text_of moment) ≡ 10 }
    ensures front { (moment : ℕ) → take 10 (moment_text_of moment) ≡ day_text_of moment }
{}
