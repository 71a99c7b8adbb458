//! Whether what gives way to a run isn't started.
ghost use Rattle.std.specs.Prelude.{◌≡◌, ◌↔◌, IsTrue};
ghost use Rattle.part_core.specs.Reservations.{bookings_of};
ghost use Rattle.replay_check.specs.Way.{IsFreeWay, IsWaiting};

use host_timeline::timeline::Timeline;
use ps_time::class::Class;
use ps_time::interval::Interval;
use ps_time::key::RunKey;
use run_states::rows::Rows;

fn is_waiting(rows: &Rows, key: RunKey) -> bool
    ensures { IsTrue result ↔ IsWaiting rows.now.list key }
{
    match rows.find(key) {
        None => true,
        Some(row) => row.started.is_none(),
    }
}

/// Whether none of the booked rows in conflict with a run was started: looks at these rows alone.
pub(crate) fn is_way_free(
    rows: &Rows,
    timeline: &Timeline,
    class: Class,
    interval: &Interval,
) -> bool
    requires { timeline.now.list ≡ bookings_of rows.now.list }
    ensures { IsTrue result ↔ IsFreeWay class interval.now rows.now.list }
{
    let _known = rows.in_order();
    let mut last = None;
    while let Some(key) = timeline.next_conflict(class, interval, last) {
        if !is_waiting(rows, key) {
            return false;
        }
        last = Some(key);
    }
    true
}
