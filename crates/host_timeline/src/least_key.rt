//! The keys of bookings that pass a test: the least, the first, and all.
ghost use Rattle.std.specs.Prelude.{◌≡◌, ◌&&◌, ◌++◌, OnOk, Some, None, IfNone, IfSome, false, not, true, if◌then◌else◌};
ghost use Rattle.std.specs.List.{list_all};
ghost use Rattle.host_timeline.specs.Booking.{conflicting, conflicting_after, conflicts_with, firm, is_after, is_other, keys_of, least_key, lesser_of};

use crate::booking::Booking;
use crate::lent::LentBookings;
use ps_time::class::Class;
use ps_time::interval::Interval;
use ps_time::key::RunKey;
use ps_time::memory::Memory;
use ps_time::moment::Moment;

/// The least key of those that stand in the way of a run.
pub(crate) fn least_firm(
    bookings: LentBookings<'_>,
    class: Class,
    interval: &Interval,
    priority: i16,
    moment: Moment,
) -> Option<RunKey>
    ensures { result ≡ least_key (keys_of (firm class interval.now priority moment bookings.entry)) }
{
    let mut least = None;
    for booking in bookings {
        let firm = booking.is_firm(class, interval, priority, moment);
        least = lesser_of(least, key_if(firm, booking.key));
    }
    least
}

/// The least key above another of those that conflict with a run.
pub(crate) fn least_conflict(
    bookings: LentBookings<'_>,
    class: Class,
    interval: &Interval,
    after: Option<RunKey>,
) -> Option<RunKey>
    ensures { result ≡ least_key (keys_of (conflicting_after class interval.now after bookings.entry)) }
{
    let mut least = None;
    for booking in bookings {
        let later = conflicts_after(booking, class, interval, after);
        least = lesser_of(least, key_if(later, booking.key));
    }
    least
}

/// The key of the first of those that conflict with a run.
pub(crate) fn first_conflict(
    bookings: LentBookings<'_>,
    class: Class,
    interval: &Interval,
) -> Option<RunKey>
    ensures there { IfSome result (λ key. list_all (is_other class interval.now key) bookings.entry ≡ false) }
    ensures none { IfNone result (list_all (λ b. not (conflicts_with class interval.now b)) bookings.entry ≡ true) }
{
    for booking in bookings {
        if booking.conflicts_with(class, interval) {
            return Some(booking.key);
        }
    }
    None
}

/// Adds the keys of those that conflict with a run.
pub(crate) fn add_conflicts(
    keys: &mut Vec<RunKey>,
    bookings: LentBookings<'_>,
    class: Class,
    interval: &Interval,
) -> Result<(), Memory>
    ensures { OnOk result (keys.new.items ≡ keys.old.items ++ keys_of (conflicting class interval.now bookings.entry)) }
{
    for booking in bookings {
        if booking.conflicts_with(class, interval) {
            keys.push(booking.key)?;
        }
    }
    Ok(())
}

fn conflicts_after(
    booking: &Booking,
    class: Class,
    interval: &Interval,
    after: Option<RunKey>,
) -> bool
    ensures { result ≡ (is_after after booking.now.key && conflicts_with class interval.now booking.now) }
{
    booking.is_after(after) && booking.conflicts_with(class, interval)
}

fn key_if(there: bool, key: RunKey) -> Option<RunKey>
    ensures { result ≡ (if there then Some key else None) }
{
    if there { Some(key) } else { None }
}

/// The lesser of two keys that may be there.
pub(crate) fn lesser_of(a: Option<RunKey>, b: Option<RunKey>) -> Option<RunKey>
    ensures { result ≡ lesser_of a b }
{
    match (a, b) {
        (Some(a), Some(b)) if b.order(&a).is_lt() => Some(b),
        (Some(a), _) => Some(a),
        (None, b) => b,
    }
}
