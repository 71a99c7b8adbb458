//! What the rows of a draft reserve as they are now, in a timeline of its own.
ghost use Rattle.std.specs.Prelude.{◌≡◌, ◌++◌, [], IfOk, IfSome, OnOk, Some};
ghost use Rattle.run_states.specs.Rows.{IsAscendingRows};
ghost use Rattle.part_core.specs.Reservations.{booking_of, bookings_of};
ghost use Rattle.draft_parts.specs.Overlay.{Takes, bare_bookings, booked, near_bookings, near_gathered, reach_of};

use crate::overlay::is_hidden;
use host_timeline::booking::{Booking, firm_from};
use host_timeline::lent::LentBookings;
use host_timeline::timeline::Timeline;
use plugin_core::test_spec::class_of;
use ps_time::class::Class;
use ps_time::interval::{Interval, Window};
use ps_time::key::RunKey;
use ps_time::memory::Memory;
use ps_time::moment::Length;
use run_states::lent::LentRows;
use run_states::row::RunRow;
use run_states::rows::Rows;
use std::alloc::Global;

/// The seconds that runs of this length take which start in the window; `None` where their end can't be counted.
pub fn reach(length: Length, window: &Window) -> Option<Interval>
    ensures { IfSome result (λ i. i ≡ reach_of length window.now) }
{
    let end = window.last.checked_add(length)?.checked_add(1)?;
    Some(Interval {
        start: window.first,
        end,
    })
}

/// What rows reserve that lie over those of a book, beside what others reserve that may be in the way of a run of this
/// class within the interval, if there is one. With an interval only what is beside it is looked at.
pub fn bookings_over(
    alloc: Global,
    timeline: &Timeline,
    touched: &Rows,
    gone: &[RunKey],
    class: Class,
    reach: &Option<Interval>,
) -> Result<Vec<Booking>, Memory>
    ensures made { IfOk result (λ made. made.items ≡ near_gathered class reach.now touched.now.list gone.now timeline.now.list) }
    ensures ascending { IsAscendingRows touched.now.list }
{
    let rows = touched.in_order();
    let mut made = near_bookings(alloc, timeline, touched, gone, class, reach)?;
    add_bookings(&mut made, rows)?;
    Ok(made)
}

fn near_bookings(
    alloc: Global,
    timeline: &Timeline,
    touched: &Rows,
    gone: &[RunKey],
    class: Class,
    reach: &Option<Interval>,
) -> Result<Vec<Booking>, Memory>
    ensures { IfOk result (λ made. made.items ≡ near_bookings class reach.now touched.now.list gone.now timeline.now.list) }
{
    match reach {
        Some(interval) => bare_beside(alloc, timeline, touched, gone, class, interval),
        None => bare_bookings(alloc, timeline.bookings(), touched, gone),
    }
}

// What conflicts with a run of this class in the interval, where the book's row is as it was.
fn bare_beside(
    alloc: Global,
    timeline: &Timeline,
    touched: &Rows,
    gone: &[RunKey],
    class: Class,
    interval: &Interval,
) -> Result<Vec<Booking>, Memory>
    ensures { IfOk result (λ made. made.items ≡ near_bookings class (Some interval.now) touched.now.list gone.now timeline.now.list) }
{
    let mut made = timeline.conflicting(alloc, class, interval)?;
    made.retain(|booking| !is_hidden(touched, gone, booking.key));
    Ok(made)
}

// All bookings whose row in the book is as it was.
fn bare_bookings(
    alloc: Global,
    bookings: LentBookings<'_>,
    touched: &Rows,
    gone: &[RunKey],
) -> Result<Vec<Booking>, Memory>
    ensures { IfOk result (λ made. made.items ≡ bare_bookings touched.now.list gone.now bookings.entry) }
{
    let mut made = Vec::new(alloc);
    for booking in bookings {
        if !is_hidden(touched, gone, booking.key) {
            made.push(*booking)?;
        }
    }
    Ok(made)
}

fn add_bookings(made: &mut Vec<Booking>, rows: LentRows<'_>) -> Result<(), Memory>
    ensures { OnOk result (made.new.items ≡ made.old.items ++ bookings_of rows.entry) }
{
    for row in rows {
        if let Some(booking) = booking_of(row) {
            made.push(booking)?;
        }
    }
    Ok(())
}

fn booking_of(row: &RunRow) -> Option<Booking>
    ensures { result ≡ booking_of row.now }
{
    if !row.is_booked() {
        return None;
    }
    let interval = row.interval?;
    Some(Booking {
        key: row.key,
        class: class_of(&row.test),
        interval,
        priority: row.priority,
        firm_from: firm_from(interval.start, row.started.is_some()),
    })
}

/// A timeline of these bookings.
pub fn timeline_of(alloc: Global, bookings: &[Booking]) -> Result<Timeline, Memory>
    requires { Takes bookings.now [] }
    ensures { IfOk result (λ made. made.list ≡ booked bookings.now []) }
{
    let mut made = Timeline::new(alloc);
    made.reserve(bookings.len())?;
    for booking in bookings {
        made.book(*booking);
    }
    Ok(made)
}
