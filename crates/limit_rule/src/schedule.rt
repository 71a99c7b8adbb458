//! Schedules: at which times of the calendar and the clock a run may be.
ghost use Rattle.std.specs.Prelude.{◌≡◌};
ghost use Rattle.limit_rule.specs.Schedule.{in_one, takes, shows, in_schedule};

use crate::bounds::Bounds;
use crate::civil::civil_at;
use ps_time::duplicate::Duplicate;
use ps_time::interval::Interval;
use ps_time::items::Items;
use ps_time::memory::Memory;
use std::alloc::Global;

/// Ranges of what the calendar and the clock show in UTC. Where a list is empty, any number will do.
pub struct Schedule {
    /// From 1 to 12.
    pub month: Items<Bounds>,
    /// From 1 to 31.
    pub monthday: Items<Bounds>,
    /// From 1, Monday, to 7.
    pub weekday: Items<Bounds>,
    /// From 0 to 23.
    pub hour: Items<Bounds>,
    /// From 0 to 59.
    pub minute: Items<Bounds>,
    /// Whether one end of the run is enough.
    pub overlap: bool,
}

// Written out, so that a drop elsewhere is one call.
impl Drop for Schedule {
    fn drop(self) {
        let Schedule {
            month: _,
            monthday: _,
            weekday: _,
            hour: _,
            minute: _,
            overlap: _,
        } = self;
    }
}

impl Duplicate for Schedule {
    fn duplicate(&self, alloc: Global) -> Result<Schedule, Memory> {
        Ok(Schedule {
            month: self.month.copy(alloc)?,
            monthday: self.monthday.copy(alloc)?,
            weekday: self.weekday.copy(alloc)?,
            hour: self.hour.copy(alloc)?,
            minute: self.minute.copy(alloc)?,
            overlap: self.overlap,
        })
    }
}

fn takes(ranges: &[Bounds], number: u64) -> bool
    ensures { result ≡ takes ranges.now number }
{
    if ranges.is_empty() {
        return true;
    }
    is_in_one(ranges, number)
}

fn is_in_one(ranges: &[Bounds], number: u64) -> bool
    ensures { result ≡ in_one ranges.now number }
{
    for range in ranges {
        if range.contains(number) {
            return true;
        }
    }
    false
}

impl Schedule {
    /// Whether the second, since 1970 UTC, is one of the schedule's.
    fn shows(&self, second: u64) -> bool
        ensures { result ≡ shows self.now second }
    {
        let civil = civil_at(second);
        takes(self.month.as_slice(), civil.month)
            && takes(self.monthday.as_slice(), civil.monthday)
            && takes(self.weekday.as_slice(), civil.weekday)
            && takes(self.hour.as_slice(), civil.hour)
            && takes(self.minute.as_slice(), civil.minute)
    }

    /// Whether the first and the last second of the run are the schedule's, or one of them where `overlap`
    /// is set.
    pub fn has(&self, run: &Interval) -> bool
        ensures { result ≡ in_schedule self.now run.now }
    {
        let first = self.shows(run.start);
        let last = self.shows(run.end - 1);
        if self.overlap {
            first || last
        } else {
            first && last
        }
    }
}
