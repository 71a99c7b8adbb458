//! What a book looks up, made for rows that are there already.
ghost use Rattle.std.specs.Prelude.{◌≡◌, ◌+◌, ◌<◌, ◌≤◌, [], IfOk, length};
ghost use Rattle.run_states.specs.Rows.{IsAscendingRows};
ghost use Rattle.part_core.specs.Reservations.{bookings_of};
ghost use Rattle.host_model.specs.Lawful.{NoClash};
ghost use Rattle.host_book.specs.Restore.{with_found, IsFree};

use host_timeline::booking::Booking;
use host_timeline::timeline::Timeline;
use part_core::reservations::booking_of;
use ps_time::memory::Memory;
use run_states::row::RunRow;
use std::alloc::Global;

/// What the booked of these rows reserve.
pub(crate) fn restored_timeline(alloc: Global, rows: &[RunRow]) -> Result<Timeline, Memory>
    requires ascending { IsAscendingRows rows.now }
    requires apart { NoClash rows.now }
    ensures { IfOk result (λ timeline. timeline.list ≡ bookings_of rows.now) }
{
    let mut timeline = Timeline::new(alloc);
    timeline.reserve(rows.len())?;
    book_each(&mut timeline, rows);
    Ok(timeline)
}

fn book_each(timeline: &mut Timeline, rows: &[RunRow])
    requires none { timeline.old.list ≡ [] }
    requires ascending { IsAscendingRows rows.now }
    requires apart { NoClash rows.now }
    requires room { length rows.now ≤ timeline.old.room }
    ensures { timeline.new.list ≡ bookings_of rows.now }
{
    for row in rows {
        book(timeline, booking_of(row));
    }
}

// Takes a booking in, if there is one.
fn book(timeline: &mut Timeline, found: Option<Booking>)
    requires room { 0 < timeline.old.room }
    requires free { IsFree found timeline.old.list }
    ensures list { timeline.new.list ≡ with_found found timeline.old.list }
    ensures room { timeline.old.room ≤ timeline.new.room + 1 }
{
    if let Some(booking) = found {
        timeline.book(booking);
    }
}
