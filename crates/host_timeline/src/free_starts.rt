//! Where a run could start among bookings.
ghost use Rattle.std.specs.Prelude.{◌≡◌, ◌≤◌, ◌+◌, ◌-◌, ◌++◌, ℕ, IfOk, OnOk, filter, length, nat_le, not, true};
ghost use Rattle.std.specs.List.Sorted.{IsPermutation};
ghost use Rattle.ps_time.specs.Numbers.{most_intervals};
ghost use Rattle.ps_time.specs.Starts.{tier_of};
ghost use Rattle.host_timeline.specs.Booking.{can_preempt};
ghost use Rattle.host_timeline.specs.Lane.{starts_by};
ghost use Rattle.host_timeline.specs.Sweep.{barred_from, is_near, is_clear, IsSwept, window_before, window_to, with_window};

use crate::booking::Booking;
use crate::lent::LentBookings;
use ps_time::class::{Class, classes_conflict};
use ps_time::interval::Window;
use ps_time::items::Items;
use ps_time::memory::Memory;
use ps_time::moment::{Length, Moment};
use std::alloc::Global;

/// The most windows in a tier.
pub const MAX_WINDOWS: usize = 128;

/// The bookings of two lists that bar a run of this class and length from some start of the window, ascending by start.
pub(crate) fn near_bookings(
    alloc: Global,
    some: LentBookings<'_>,
    others: LentBookings<'_>,
    class: Class,
    length: Length,
    window: &Window,
) -> Result<Vec<Booking>, Memory>
    ensures all { IfOk result (λ near. IsPermutation (filter (is_near class length window.now) some.entry ++ filter (is_near class length window.now) others.entry) near.items) }
    ensures swept { IfOk result (λ near. IsSwept length near.items) }
{
    let mut near = Vec::new(alloc);
    add_near(&mut near, some, class, length, window)?;
    add_near(&mut near, others, class, length, window)?;
    near.sort_by_key(|booking| booking.interval.start)?;
    Ok(near)
}

// Adds those that bar the run from some start of the window.
fn add_near(
    near: &mut Vec<Booking>,
    bookings: LentBookings<'_>,
    class: Class,
    length: Length,
    window: &Window,
) -> Result<(), Memory>
    ensures { OnOk result (near.new.items ≡ near.old.items ++ filter (is_near class length window.now) bookings.entry) }
{
    for booking in bookings {
        if is_near(booking, class, length, window) {
            near.push(*booking)?;
        }
    }
    Ok(())
}

/// The end before which a booking starts that bars a run of this length from a start of the window; `None` where no
/// moment is behind it.
pub(crate) fn reach(window: &Window, length: Length) -> Option<Moment>
    ensures { (start : ℕ) → nat_le (start + 1 - length) window.now.last ≡ true → starts_by result start ≡ true }
{
    window.last.checked_add(length)
}

/// Leaves those that a run of this priority may not preempt at the moment.
pub(crate) fn keep_firm(near: &mut Vec<Booking>, priority: i16, moment: Moment)
    ensures { near.new.items ≡ filter (λ b. not (can_preempt priority moment b)) near.old.items }
{
    near.retain(|booking| !booking.can_be_preempted(priority, moment));
}

/// The first windows of the starts at which a run of this length overlaps none of the bookings.
pub(crate) fn windows_beside(
    alloc: Global,
    bookings: &[Booking],
    length: Length,
    window: &Window,
) -> Result<Items<Window>, Memory>
    requires { IsSwept length bookings.now }
    ensures { IfOk result (λ windows. windows ≡ tier_of (is_clear length bookings.now) window.now) }
{
    let mut windows = Items::new(alloc);
    let mut from = window.first;
    for booking in bookings {
        let until = barred_from(booking, length);
        add_window(&mut windows, window_before(from, until, window.last))?;
        from = from.max(booking.interval.end);
    }
    add_window(&mut windows, window_to(from, window.last))?;
    Ok(windows)
}

// The first start at which a run of this length overlaps the booking.
fn barred_from(booking: &Booking, length: Length) -> Moment
    ensures { result ≡ barred_from length booking.now }
{
    let interval = booking.interval;
    // Read for its bound: the start is below it.
    let _end = interval.end;
    (interval.start + 1).saturating_sub(length)
}

// Whether the booking bars a run of this class and length from a start of the window.
fn is_near(booking: &Booking, class: Class, length: Length, window: &Window) -> bool
    ensures { result ≡ is_near class length window.now booking.now }
{
    let from = barred_from(booking, length);
    let end = booking.interval.end;
    classes_conflict(class, booking.class)
        && from < end
        && from <= window.last
        && window.first < end
}

// The starts from this one on, before another, and up to the last one.
fn window_before(from: Moment, until: Moment, last: Moment) -> Option<Window>
    ensures { result ≡ window_before from until last }
{
    if from < until && from <= last {
        Some(Window {
            first: from,
            last: last.min(until - 1),
        })
    } else {
        None
    }
}

// The starts from this one on, up to the last one.
fn window_to(from: Moment, last: Moment) -> Option<Window>
    ensures { result ≡ window_to from last }
{
    if from <= last {
        Some(Window { first: from, last })
    } else {
        None
    }
}

// Adds the window, if there is one and there is place for it.
fn add_window(windows: &mut Items<Window>, more: Option<Window>) -> Result<(), Memory>
    requires { length windows.old ≤ most_intervals }
    ensures list { OnOk result (windows.new ≡ with_window windows.old more) }
    ensures bound { OnOk result (length windows.new ≤ most_intervals) }
{
    match more {
        Some(window) if windows.len() < MAX_WINDOWS => windows.push(window),
        _ => Ok(()),
    }
}
