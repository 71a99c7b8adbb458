//! Timelines that are made of lines.
ghost use Rattle.std.specs.Prelude.{◌<◌};

use host_timeline::booking::{Booking, firm_from};
use host_timeline::timeline::Timeline;
use ps_time::class::Class;
use ps_time::interval::Interval;
use ps_time::key::RunKey;
use ps_time::memory::Memory;
use std::alloc::Global;

/// A timeline. Its drop is written out, so that each function that lets one go calls it.
pub(crate) struct Held {
    pub(crate) timeline: Timeline,
}

impl Drop for Held {
    fn drop(self) {
        let Held { timeline: _ } = self;
    }
}

impl Held {
    pub(crate) fn new(alloc: Global) -> Held {
        Held {
            timeline: Timeline::new(alloc),
        }
    }
}

pub(crate) fn key(number: u32) -> RunKey {
    RunKey {
        lead: 1,
        task: 0,
        number,
        attempt: 0,
    }
}

/// The number of a booking, its class, its priority, its start and its end.
pub(crate) type Line = (u32, Class, i16, u64, u64);

/// The booking of a line, which isn't started; none where it ends before it starts.
pub(crate) fn booking_of(line: &Line) -> Option<Booking> {
    let (number, class, priority, start, end) = *line;
    if start >= end {
        return None;
    }
    Some(Booking {
        key: key(number),
        class,
        interval: Interval { start, end },
        priority,
        firm_from: firm_from(start, false),
    })
}

/// Books a run, after what is in its way was taken out.
pub(crate) fn put(timeline: &mut Timeline, booking: Booking) -> Result<(), Memory> {
    timeline.release(booking.key);
    timeline.release_conflicts(booking.class, &booking.interval);
    timeline.reserve(1)?;
    timeline.book(booking);
    Ok(())
}

fn fill(timeline: &mut Timeline, lines: &[Line]) -> Result<(), Memory> {
    for line in lines {
        if let Some(booking) = booking_of(line) {
            put(timeline, booking)?;
        }
    }
    Ok(())
}

/// The bookings of these lines.
pub(crate) fn booked(alloc: Global, lines: &[Line]) -> Result<Held, Memory> {
    let mut held = Held::new(alloc);
    fill(&mut held.timeline, lines)?;
    Ok(held)
}
