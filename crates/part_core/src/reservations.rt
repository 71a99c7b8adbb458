//! What rows reserve.
ghost use Rattle.std.specs.Prelude.{◌≡◌};
ghost use Rattle.part_core.specs.Reservations.{booking_of};

use host_timeline::booking::{Booking, firm_from};
use plugin_core::test_spec::class_of;
use run_states::row::RunRow;

/// What the row reserves; nothing where it isn't booked.
pub fn booking_of(row: &RunRow) -> Option<Booking>
    ensures { result ≡ booking_of row.now }
{
    if !row.is_booked() {
        return None;
    }
    match row.interval {
        Some(interval) => Some(Booking {
            key: row.key,
            class: class_of(&row.test),
            interval,
            priority: row.priority,
            firm_from: firm_from(interval.start, row.started.is_some()),
        }),
        None => None,
    }
}
