//! Cases of the rules for reservations: what stands beside a run, gives way to it, or keeps it out.
use crate::held::{Held, Line, booked, booking_of, put};
use crate::standing_tests::Fate::{Beside, GivesWay, KeepsOut};
use host_timeline::booking::Booking;
use host_timeline::lent::LentBookings;
use host_timeline::timeline::Timeline;
use ps_time::class::Class::{Background, BackgroundMulti, Exclusive, Normal};
use ps_time::interval::Interval;
use ps_time::key::RunKey;
use ps_time::memory::Memory;
use std::alloc::Global;
use std::process::Abort;
use std::test::Fail;

const FIRST: RunKey = RunKey {
    lead: 1,
    task: 0,
    number: 1,
    attempt: 0,
};

const SECOND: RunKey = RunKey {
    lead: 1,
    task: 0,
    number: 2,
    attempt: 0,
};

const THIRD: RunKey = RunKey {
    lead: 1,
    task: 0,
    number: 3,
    attempt: 0,
};

/// What becomes of a booking where a run asks for its interval.
#[derive(Clone, Copy, Debug, PartialEq, Eq)]
enum Fate {
    Beside,
    GivesWay,
    KeepsOut,
}

/// What stands, what asks, at which moment, and what becomes of what stands.
type Case = (&'static str, Line, Line, u64, Fate);

static CASES: [Case; 16] = [
    (
        "next after",
        (1, Exclusive, 0, 100, 150),
        (2, Exclusive, 0, 150, 200),
        50,
        Beside,
    ),
    (
        "next before",
        (1, Exclusive, 0, 100, 150),
        (2, Exclusive, 0, 50, 100),
        50,
        Beside,
    ),
    (
        "last second",
        (1, Exclusive, 0, 100, 150),
        (2, Exclusive, 0, 149, 200),
        50,
        KeepsOut,
    ),
    (
        "first second",
        (1, Exclusive, 0, 100, 150),
        (2, Exclusive, 0, 50, 101),
        50,
        KeepsOut,
    ),
    (
        "equal",
        (1, Exclusive, 3, 100, 110),
        (2, Exclusive, 3, 105, 115),
        0,
        KeepsOut,
    ),
    (
        "greater",
        (1, Exclusive, 3, 100, 110),
        (2, Exclusive, 4, 105, 115),
        0,
        GivesWay,
    ),
    (
        "lower",
        (1, Exclusive, -4, 100, 110),
        (2, Exclusive, -5, 105, 115),
        0,
        KeepsOut,
    ),
    (
        "on deck",
        (1, Exclusive, 0, 100, 110),
        (2, Exclusive, 5, 105, 115),
        90,
        KeepsOut,
    ),
    (
        "pending",
        (1, Exclusive, 0, 100, 110),
        (2, Exclusive, 5, 105, 115),
        89,
        GivesWay,
    ),
    (
        "start 10",
        (1, Exclusive, 0, 10, 20),
        (2, Exclusive, 5, 10, 20),
        0,
        KeepsOut,
    ),
    (
        "start 11",
        (1, Exclusive, 0, 11, 20),
        (2, Exclusive, 5, 10, 20),
        0,
        GivesWay,
    ),
    (
        "both normal",
        (1, Normal, 0, 100, 110),
        (2, Normal, 0, 100, 110),
        0,
        Beside,
    ),
    (
        "one normal",
        (1, Exclusive, 0, 100, 110),
        (2, Normal, 0, 100, 110),
        0,
        KeepsOut,
    ),
    (
        "the other",
        (1, Normal, 0, 100, 110),
        (2, Exclusive, 0, 100, 110),
        0,
        KeepsOut,
    ),
    (
        "background",
        (1, Exclusive, 0, 100, 110),
        (2, Background, 0, 100, 110),
        0,
        Beside,
    ),
    (
        "multi",
        (1, BackgroundMulti, 0, 100, 110),
        (2, Exclusive, 0, 100, 110),
        0,
        Beside,
    ),
];

fn fate_of(
    alloc: Global,
    timeline: &Timeline,
    asking: &Booking,
    moment: u64,
) -> Result<Option<Fate>, Memory> {
    let count = timeline
        .conflicts(alloc, asking.class, &asking.interval)?
        .len();
    let firm = timeline.firm_conflict(asking.class, &asking.interval, asking.priority, moment);
    Ok(match (count, firm) {
        (0, None) => Some(Fate::Beside),
        (1, None) => Some(Fate::GivesWay),
        (1, Some(key)) if key == FIRST => Some(Fate::KeepsOut),
        _ => None,
    })
}

fn becomes(
    alloc: Global,
    standing: Booking,
    asking: &Booking,
    moment: u64,
) -> Result<Option<Fate>, Memory> {
    let mut held = Held::new(alloc);
    put(&mut held.timeline, standing)?;
    fate_of(alloc, &held.timeline, asking, moment)
}

fn check_cases(rt: &impl Abort, alloc: Global, cases: &[Case]) -> Result<(), Fail> {
    for (name, standing, asking, moment, wanted) in cases {
        let standing = booking_of(standing).ok_or("an empty interval")?;
        let asking = booking_of(asking).ok_or("an empty interval")?;
        let fate = becomes(alloc, standing, &asking, *moment)?;
        assert_eq!(rt; fate, Some(*wanted), "{name}");
    }
    Ok(())
}

#[test]
fn what_keeps_a_run_out(rt: HostRuntime) -> Result<(), Fail> {
    check_cases(&rt, rt.alloc(), &CASES)
}

// Two normal runs, the one with the greater key first.
static TWO_NORMAL: [Line; 2] = [(2, Normal, 1, 120, 170), (1, Normal, 0, 100, 150)];

const ASKING: Interval = Interval {
    start: 110,
    end: 130,
};

/// The priority and the moment of an exclusive run, and the first booking that it may not preempt.
static PREEMPTED: [(i16, u64, Option<RunKey>); 4] = [
    (5, 10, None),
    (1, 10, Some(SECOND)),
    (0, 10, Some(FIRST)),
    (5, 95, Some(FIRST)),
];

fn check_preempted(rt: &impl Abort, timeline: &Timeline, cases: &[(i16, u64, Option<RunKey>)]) {
    for (priority, moment, firm) in cases {
        let found = timeline.firm_conflict(Exclusive, &ASKING, *priority, *moment);
        assert_eq!(rt; found, *firm, "{priority} {moment}");
    }
}

fn has_conflicts(alloc: Global, timeline: &Timeline, keys: &[RunKey]) -> Result<bool, Memory> {
    let conflicts = timeline.conflicts(alloc, Exclusive, &ASKING)?;
    Ok(conflicts.as_slice() == keys)
}

fn are_conflicting(alloc: Global, timeline: &Timeline, keys: &[RunKey]) -> Result<bool, Memory> {
    let found = timeline.conflicting(alloc, Exclusive, &ASKING)?;
    Ok(
        found.len() == keys.len()
            && found
                .iter()
                .zip(keys.iter())
                .all(|(booking, key)| booking.key == *key),
    )
}

#[test]
fn two_runs_give_way(rt: HostRuntime) -> Result<(), Fail> {
    let held = booked(rt.alloc(), &TWO_NORMAL)?;
    check_preempted(&rt, &held.timeline, &PREEMPTED);
    assert!(rt; has_conflicts(rt.alloc(), &held.timeline, &[FIRST, SECOND])?);
    assert!(rt; are_conflicting(rt.alloc(), &held.timeline, &[FIRST, SECOND])?);
    Ok(())
}

fn is_kept_out_by(timeline: &Timeline, priority: i16, key: Option<RunKey>) -> bool {
    timeline.firm_conflict(Exclusive, &ASKING, priority, 10) == key
}

fn does_not_give_way(timeline: &mut Timeline) -> bool {
    timeline.mark_started(FIRST);
    is_kept_out_by(timeline, 5, Some(FIRST))
        && timeline.release(FIRST)
        && is_kept_out_by(timeline, 0, Some(SECOND))
        && timeline.bookings().len() == 1
}

#[test]
fn a_started_run_does_not_give_way(rt: HostRuntime) -> Result<(), Fail> {
    let mut held = booked(rt.alloc(), &TWO_NORMAL)?;
    assert!(rt; does_not_give_way(&mut held.timeline));
    Ok(())
}

fn stays_without(timeline: &mut Timeline, key: RunKey) -> bool {
    let released = timeline.release(key);
    timeline.mark_started(key);
    !released && is_kept_out_by(timeline, 5, None) && timeline.bookings().len() == 2
}

#[test]
fn an_unknown_key_changes_nothing(rt: HostRuntime) -> Result<(), Fail> {
    let mut held = booked(rt.alloc(), &TWO_NORMAL)?;
    assert!(rt; stays_without(&mut held.timeline, THIRD));
    Ok(())
}

// Two background runs, of which the one with the greater key starts first.
static TWO_BACKGROUND: [Line; 2] = [(1, Background, 0, 120, 170), (2, Background, 0, 100, 150)];

fn has_keys(bookings: LentBookings<'_>, keys: &[RunKey]) -> bool {
    bookings.len() == keys.len()
        && bookings
            .zip(keys.iter())
            .all(|(booking, key)| booking.key == *key)
}

#[test]
fn a_class_is_lent_by_start(rt: HostRuntime) -> Result<(), Fail> {
    let held = booked(rt.alloc(), &TWO_BACKGROUND)?;
    assert!(rt; has_keys(held.timeline.by_start(Background), &[SECOND, FIRST]));
    assert!(rt; has_keys(held.timeline.by_start(Exclusive), &[]));
    assert!(rt; has_keys(held.timeline.bookings(), &[FIRST, SECOND]));
    Ok(())
}
