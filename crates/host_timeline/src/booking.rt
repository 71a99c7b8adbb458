//! Bookings: when they conflict with a run, and when they can be preempted.
ghost use Rattle.std.specs.Prelude.{◌≡◌, ℕ, ◌+◌, ◌&&◌, not, nat_lt};
ghost use Rattle.host_timeline.specs.Booking.{conflicts_with, can_preempt, is_after, is_firm, firm_from_of};
ghost use Rattle.host_timeline.specs.Timeline.{started_booking};

use ps_time::class::{Class, classes_conflict};
use ps_time::interval::Interval;
use ps_time::key::RunKey;
use ps_time::moment::{Moment, ON_DECK};

/// What a run reserves on a host.
#[derive(Clone, Copy)]
pub struct Booking {
    pub key: RunKey,
    pub class: Class,
    pub interval: Interval,
    /// Runs of a greater priority may preempt this one.
    pub priority: i16,
    /// The moment from which no run may preempt this one; `firm_from` gives it.
    pub firm_from: Moment,
}

/// The moment from which a run with this start can't be preempted: ten seconds before, or 0 once it was started.
pub fn firm_from(start: Moment, started: bool) -> Moment
    ensures value { result ≡ firm_from_of start started }
    ensures before { (moment : ℕ) → nat_lt moment result ≡ (not started && nat_lt (moment + 10) start) }
{
    if started {
        0
    } else {
        start.saturating_sub(ON_DECK)
    }
}

/// The booking once its run was started.
pub(crate) fn started(booking: &Booking) -> Booking
    ensures { result ≡ started_booking booking.now }
{
    let mut started = *booking;
    started.firm_from = 0;
    started
}

impl Booking {
    /// Whether a run of this class and interval may not stand beside it.
    pub fn conflicts_with(&self, class: Class, interval: &Interval) -> bool
        ensures { result ≡ conflicts_with class interval.now self.now }
    {
        classes_conflict(class, self.class) && interval.overlaps(&self.interval)
    }

    /// Whether a run of this priority may preempt it at the moment; at equal priority never.
    pub fn can_be_preempted(&self, priority: i16, moment: Moment) -> bool
        ensures { result ≡ can_preempt priority moment self.now }
    {
        self.priority < priority && moment < self.firm_from
    }

    /// Whether it stands in the way of a run: they conflict, and the run may not preempt it.
    pub fn is_firm(&self, class: Class, interval: &Interval, priority: i16, moment: Moment) -> bool
        ensures { result ≡ is_firm class interval.now priority moment self.now }
    {
        self.conflicts_with(class, interval) && !self.can_be_preempted(priority, moment)
    }

    /// Whether its key is above another, if that is there.
    pub fn is_after(&self, low: Option<RunKey>) -> bool
        ensures { result ≡ is_after low self.now.key }
    {
        match low {
            Some(low) => low.order(&self.key).is_lt(),
            None => true,
        }
    }
}
