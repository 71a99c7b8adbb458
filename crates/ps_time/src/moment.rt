//! Bounds of moments and lengths, and what a reader of times refuses.
ghost use Rattle.ps_time.specs.NumbersInCode.{HasNumbers};

/// The last moment that is kept: 2100-01-01T00:00:00Z, in seconds since 1970 UTC.
pub const MAX_MOMENT: u64 = 4_102_444_800;

/// The greatest length, in seconds: ten years of 365 days.
pub const MAX_LENGTH: u64 = 315_360_000;

/// How long before its start a run is on deck, and can't be preempted any more, in seconds.
pub const ON_DECK: u64 = 10;

/// A law: these constants are the numbers of `specs/Numbers.antt`, which the definitions cite.
pub fn law_numbers()
    ensures { HasNumbers }
{}

/// Whole seconds since 1970 UTC, from 0 to `MAX_MOMENT`.
pub type Moment = u64;

/// Whole seconds, from 0 to `MAX_LENGTH`.
pub type Length = u64;

/// What becomes of a fraction of a second.
#[derive(Clone, Copy, Debug, PartialEq, Eq)]
pub enum Round {
    /// To the next whole second, unless the fraction is 0.
    Up,
    /// It is dropped.
    Down,
}

/// Why a text is no time.
#[derive(Clone, Copy, Debug, PartialEq, Eq)]
pub enum TimeFault {
    /// It isn't in the form.
    Syntax,
    /// A length in years or months, which have no length in seconds.
    CalendarUnit,
    /// A date, time of day or value out of its bounds.
    Range,
}
