//! Free starts: a case by hand, and made timelines against a plain program that tries each start.
use crate::held::{Held, Line, booked, booking_of, key, put};
use host_timeline::booking::{Booking, firm_from};
use host_timeline::timeline::Timeline;
use ps_lists::tiered_lent::Lent;
use ps_time::class::Class::{self, Background, BackgroundMulti, Exclusive, Normal};
use ps_time::interval::{Interval, Window};
use ps_time::items::Items;
use ps_time::key::RunKey;
use ps_time::memory::Memory;
use std::alloc::Global;
use std::test::Fail;

// One exclusive run from 1010 on, before 1020.
static ONE_RUN: [Line; 1] = [(1, Exclusive, 0, 1010, 1020)];

const ASKED: Window = Window {
    first: 1000,
    last: 1030,
};

static BESIDE: [(u64, u64); 2] = [(1000, 1000), (1020, 1030)];

static ALL: [(u64, u64); 1] = [(1000, 1030)];

fn are_windows(windows: &[Window], wanted: &[(u64, u64)]) -> bool {
    windows.len() == wanted.len()
        && windows.iter().zip(wanted.iter()).all(|(window, (first, last))| window.first == *first
            && window.last == *last)
}

// Whether the tiers for a run of ten seconds are these.
fn has_tiers(
    alloc: Global,
    timeline: &Timeline,
    wish: (Class, i16, u64),
    first: &[(u64, u64)],
    second: &[(u64, u64)],
) -> Result<bool, Memory> {
    let (class, priority, moment) = wish;
    let tiers = timeline.free(alloc, class, 10, priority, ASKED, moment)?;
    Ok(are_windows(tiers.first.as_slice(), first) && are_windows(tiers.second.as_slice(), second))
}

#[test]
fn a_run_bars_the_starts_that_reach_into_it(rt: HostRuntime) -> Result<(), Fail> {
    let alloc = rt.alloc();
    let held = booked(alloc, &ONE_RUN)?;
    assert!(rt;
        has_tiers(alloc, &held.timeline, (Exclusive, 1, 990), &BESIDE, &ALL)?,
        "greater priority"
    );
    assert!(rt;
        has_tiers(alloc, &held.timeline, (Exclusive, 0, 990), &BESIDE, &BESIDE)?,
        "equal priority"
    );
    assert!(rt;
        has_tiers(alloc, &held.timeline, (Normal, 1, 1000), &BESIDE, &BESIDE)?,
        "on deck"
    );
    assert!(rt;
        has_tiers(alloc, &held.timeline, (Background, 0, 990), &ALL, &ALL)?,
        "background"
    );
    Ok(())
}

// The next number of a sequence that looks random.
fn draw(seed: &mut u64) -> u64 {
    *seed = seed
        .wrapping_mul(6_364_136_223_846_793_005)
        .wrapping_add(1_442_695_040_888_963_407);
    *seed >> 33
}

fn made_class(seed: &mut u64) -> Class {
    match draw(seed) % 6 {
        0 => Background,
        1 => BackgroundMulti,
        2 => Exclusive,
        _ => Normal,
    }
}

fn made_booking(seed: &mut u64, number: u32) -> Booking {
    let start = draw(seed) % 100;
    let end = start + 1 + draw(seed) % 12;
    Booking {
        key: key(number),
        class: made_class(seed),
        interval: Interval { start, end },
        priority: if draw(seed) % 2 == 0 { 0 } else { 2 },
        firm_from: firm_from(start, draw(seed) % 4 == 0),
    }
}

fn put_made(timeline: &mut Timeline, seed: &mut u64) -> Result<(), Memory> {
    for number in 1..16 {
        put(timeline, made_booking(seed, number))?;
    }
    Ok(())
}

fn made(alloc: Global, seed: &mut u64) -> Result<Held, Memory> {
    let mut held = Held::new(alloc);
    put_made(&mut held.timeline, seed)?;
    Ok(held)
}

/// What a run asks for.
#[derive(Clone, Copy)]
struct Wish {
    class: Class,
    length: u64,
    priority: i16,
    moment: u64,
}

fn made_wish(seed: &mut u64) -> Wish {
    Wish {
        class: made_class(seed),
        length: 1 + draw(seed) % 9,
        priority: 1,
        moment: draw(seed) % 60,
    }
}

fn clashes(wished: Class, standing: Class) -> bool {
    match wished {
        Exclusive => matches!(standing, Exclusive | Normal),
        Normal => matches!(standing, Exclusive),
        _ => false,
    }
}

fn overlaps(booking: &Booking, wish: &Wish, start: u64) -> bool {
    start < booking.interval.end && booking.interval.start < start.saturating_add(wish.length)
}

fn gives_way(booking: &Booking, wish: &Wish) -> bool {
    booking.priority < wish.priority && wish.moment < booking.firm_from
}

// Whether the run could start then, where it may preempt or not.
fn can_start(timeline: &Timeline, wish: &Wish, start: u64, preempts: bool) -> bool {
    for booking in timeline.bookings() {
        if overlaps(booking, wish, start)
            && clashes(wish.class, booking.class)
            && !(preempts && gives_way(booking, wish))
        {
            return false;
        }
    }
    true
}

// The windows of starts up to 130 at which the run could start: each start is tried.
fn plain_windows(
    alloc: Global,
    timeline: &Timeline,
    wish: &Wish,
    preempts: bool,
) -> Result<Items<Window>, Memory> {
    let mut windows = Items::new(alloc);
    let mut first = None;
    for start in 0..132 {
        let can = start < 131 && can_start(timeline, wish, start, preempts);
        match first {
            None if can => first = Some(start),
            Some(first_start) if !can && first_start < start => {
                windows.push(Window {
                    first: first_start,
                    last: start - 1,
                })?;
                first = None;
            }
            _ => {}
        }
    }
    Ok(windows)
}

fn is_plain(
    alloc: Global,
    timeline: &Timeline,
    wish: &Wish,
    tier: &Items<Window>,
    preempts: bool,
) -> Result<bool, Memory> {
    let plain = plain_windows(alloc, timeline, wish, preempts)?;
    Ok(plain == *tier)
}

fn agrees(alloc: Global, timeline: &Timeline, wish: &Wish) -> Result<bool, Memory> {
    let asked = Window {
        first: 0,
        last: 130,
    };
    let tiers = timeline.free(
        alloc,
        wish.class,
        wish.length,
        wish.priority,
        asked,
        wish.moment,
    )?;
    Ok(
        is_plain(alloc, timeline, wish, &tiers.first, false)?
            && is_plain(alloc, timeline, wish, &tiers.second, true)?,
    )
}

fn next_agrees(alloc: Global, seed: &mut u64) -> Result<bool, Memory> {
    let held = made(alloc, seed)?;
    agrees(alloc, &held.timeline, &made_wish(seed))
}

#[test]
fn made_timelines_are_free_as_the_plain_program_says(rt: HostRuntime) -> Result<(), Fail> {
    let mut seed = 26;
    for round in 0..200 {
        assert!(rt; next_agrees(rt.alloc(), &mut seed)?, "{round}");
    }
    Ok(())
}

// Whether these are the keys of the conflicts with the whole, one after another.
fn are_walked(timeline: &Timeline, whole: &Interval, keys: &[RunKey]) -> bool {
    let mut after = None;
    for key in keys {
        let next = timeline.next_conflict(Exclusive, whole, after);
        if next != Some(*key) {
            return false;
        }
        after = next;
    }
    timeline.next_conflict(Exclusive, whole, after).is_none()
}

fn are_conflicts_walked(alloc: Global, timeline: &Timeline) -> Result<bool, Memory> {
    let whole = Interval { start: 0, end: 200 };
    let listed = timeline.conflicts(alloc, Exclusive, &whole)?;
    Ok(are_walked(timeline, &whole, listed.as_slice()))
}

#[test]
fn the_conflicts_are_walked_in_order(rt: HostRuntime) -> Result<(), Fail> {
    let mut seed = 7;
    let held = made(rt.alloc(), &mut seed)?;
    assert!(rt; are_conflicts_walked(rt.alloc(), &held.timeline)?);
    Ok(())
}

static APART: [Line; 3] = [
    (1, Exclusive, 0, 100, 150),
    (2, Exclusive, 0, 150, 200),
    (3, Normal, 0, 300, 310),
];

static OVERLAPPING: [Line; 2] = [(2, Normal, 0, 100, 200), (3, Normal, 0, 120, 130)];

fn has_ranges(ranges: Lent<'_, Interval>, wanted: &[(u64, u64)]) -> bool {
    ranges.len() == wanted.len()
        && ranges.zip(wanted.iter()).all(|(range, (start, end))| range.start == *start
            && range.end == *end)
}

static TWO_RANGES: [(u64, u64); 2] = [(100, 200), (300, 310)];

static ONE_RANGE: [(u64, u64); 1] = [(100, 200)];

static FIRST_HALF: [(u64, u64); 1] = [(100, 150)];

static INNER: [(u64, u64); 1] = [(120, 130)];

// Whether these ranges are busy for the class, once a booking is released.
fn is_left(
    alloc: Global,
    lines: &[Line],
    released: u32,
    class: Class,
    ranges: &[(u64, u64)],
) -> Result<bool, Memory> {
    let mut held = booked(alloc, lines)?;
    held.timeline.release(key(released));
    Ok(has_ranges(held.timeline.busy(class), ranges))
}

#[test]
fn what_is_taken_is_lent_as_ranges(rt: HostRuntime) -> Result<(), Fail> {
    let alloc = rt.alloc();
    assert!(rt; is_left(alloc, &APART, 9, Exclusive, &TWO_RANGES)?);
    assert!(rt; is_left(alloc, &APART, 9, Normal, &ONE_RANGE)?);
    assert!(rt; is_left(alloc, &APART, 9, Background, &[])?);
    assert!(rt; is_left(alloc, &APART, 2, Normal, &FIRST_HALF)?);
    assert!(rt; is_left(alloc, &OVERLAPPING, 2, Exclusive, &INNER)?);
    Ok(())
}

// How many runs lie apart: more than a block of a list has.
const MANY: u32 = 3_000;

// Books normal runs of five seconds, ten seconds after one another, though in another order.
fn fill_apart(timeline: &mut Timeline) -> Result<(), Memory> {
    for step in 0..MANY {
        let number = step.wrapping_mul(1_999) % MANY;
        let start = u64::from(number).saturating_mul(10);
        if let Some(booking) = booking_of(&(number, Normal, 0, start, start.saturating_add(5))) {
            put(timeline, booking)?;
        }
    }
    Ok(())
}

// Whether these are the seconds of runs that lie apart.
fn are_apart(ranges: Lent<'_, Interval>) -> bool {
    let count = ranges.len();
    let mut start = 0_u64;
    for range in ranges {
        if range.start != start || range.end != start.saturating_add(5) {
            return false;
        }
        start = start.saturating_add(10);
    }
    count == MANY as usize
}

// Whether a run over all of them joins their ranges, and leaves them as they were once it is released.
fn are_joined_for_a_while(alloc: Global) -> Result<bool, Memory> {
    let mut held = Held::new(alloc);
    fill_apart(&mut held.timeline)?;
    let were_apart = are_apart(held.timeline.busy(Exclusive));
    if let Some(booking) = booking_of(&(MANY, Normal, 0, 0, 30_000)) {
        put(&mut held.timeline, booking)?;
    }
    let is_one = has_ranges(held.timeline.busy(Exclusive), &[(0, 30_000)]);
    held.timeline.release(key(MANY));
    Ok(were_apart && is_one && are_apart(held.timeline.busy(Exclusive)))
}

#[test]
fn ranges_of_many_blocks_are_joined_and_parted(rt: HostRuntime) -> Result<(), Fail> {
    assert!(rt; are_joined_for_a_while(rt.alloc())?);
    Ok(())
}
