//! Whether what the rows of a book reserve is apart.
ghost use Rattle.std.specs.Prelude.{◌≡◌, ◌+◌, ◌<◌, ◌≤◌, ◌↔◌, [], IfOk, IsFalse, IsTrue, length};
ghost use Rattle.run_states.specs.Rows.{IsAscendingRows};
ghost use Rattle.host_timeline.specs.Booking.{conflicting};
ghost use Rattle.host_model.specs.Lawful.{NoClash};
ghost use Rattle.host_book.specs.Restore.{with_found, IsFree};
ghost use Rattle.replay_check.specs.NewKey.{HasNewKey};

use host_timeline::booking::Booking;
use host_timeline::timeline::Timeline;
use part_core::reservations::booking_of;
use ps_time::memory::Memory;
use run_states::row::RunRow;
use std::alloc::Global;

/// Whether of no two booked rows the classes conflict and the intervals overlap. Each row is compared with those beside it
/// in time alone.
pub fn are_apart(alloc: Global, rows: &[RunRow]) -> Result<bool, Memory>
    requires { IsAscendingRows rows.now }
    ensures { IfOk result (λ are. IsTrue are ↔ NoClash rows.now) }
{
    let mut timeline = Timeline::new(alloc);
    timeline.reserve(rows.len())?;
    Ok(book_each(&mut timeline, rows))
}

// Books what the rows reserve, up to the first that is in conflict with one before it.
fn book_each(timeline: &mut Timeline, rows: &[RunRow]) -> bool
    requires none { timeline.old.list ≡ [] }
    requires ascending { IsAscendingRows rows.now }
    requires room { length rows.now ≤ timeline.old.room }
    ensures { IsTrue result ↔ NoClash rows.now }
{
    for row in rows {
        if !book(timeline, booking_of(row)) {
            return false;
        }
    }
    let _known = timeline.bookings();
    true
}

// Takes a booking in, if there is one, unless it is in conflict with another.
fn book(timeline: &mut Timeline, found: Option<Booking>) -> bool
    requires room { 0 < timeline.old.room }
    requires new_key { HasNewKey found timeline.old.list }
    ensures free { IsTrue result ↔ IsFree found timeline.old.list }
    ensures list { IsTrue result → timeline.new.list ≡ with_found found timeline.old.list }
    ensures room { timeline.old.room ≤ timeline.new.room + 1 }
{
    let Some(booking) = found else {
        return true;
    };
    if has_conflict(timeline, &booking) {
        return false;
    }
    timeline.book(booking);
    true
}

fn has_conflict(timeline: &Timeline, booking: &Booking) -> bool
    ensures { IsFalse result ↔ (conflicting booking.now.class booking.now.interval timeline.now.list ≡ []) }
{
    timeline
        .next_conflict(booking.class, &booking.interval, None)
        .is_some()
}
