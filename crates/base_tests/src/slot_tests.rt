//! Common starts of two participants, of their first tiers and of their second.
use ps_time::interval::Window;
use ps_time::items::Items;
use ps_time::memory::Memory;
use ps_time::tiers::Tiers;
use slot_search::search::{Choice, earliest};
use std::alloc::Global;
use std::process::Abort;
use std::test::Fail;

const ALL: Window = Window {
    first: 0,
    last: 100,
};

static WHOLE: [(u64, u64); 1] = [(0, 100)];

static AT_FIVE: [(u64, u64); 1] = [(5, 5)];

static NEVER: [(u64, u64); 0] = [];

static OURS: [(u64, u64); 2] = [(0, 10), (40, 50)];

static TURNED: [(u64, u64); 2] = [(40, 50), (0, 10)];

static THEIRS: [(u64, u64); 2] = [(20, 30), (45, 60)];

fn windows(alloc: Global, bounds: &[(u64, u64)]) -> Result<Items<Window>, Memory> {
    let mut windows = Items::new(alloc);
    for (first, last) in bounds {
        if first <= last {
            windows.push(Window {
                first: *first,
                last: *last,
            })?;
        }
    }
    Ok(windows)
}

fn tiers(alloc: Global, first: &[(u64, u64)], second: &[(u64, u64)]) -> Result<Tiers, Memory> {
    Ok(Tiers {
        first: windows(alloc, first)?,
        second: windows(alloc, second)?,
    })
}

// The common start of two participants in the window.
fn common(window: Window, ours: Tiers, theirs: Tiers) -> Option<Choice> {
    let lists = [ours, theirs];
    earliest(window, &lists)
}

fn check(rt: &impl Abort, found: Option<Choice>, start: u64, second: bool) {
    assert_eq!(rt; found, Some(Choice { start, second }));
}

#[test]
fn the_least_start_of_both_is_chosen(rt: HostRuntime) -> Result<(), Fail> {
    let alloc = rt.alloc();
    let ours = tiers(alloc, &OURS, &OURS)?;
    let theirs = tiers(alloc, &THEIRS, &THEIRS)?;
    check(&rt, common(ALL, ours, theirs), 45, false);
    Ok(())
}

#[test]
fn windows_may_stand_in_any_order(rt: HostRuntime) -> Result<(), Fail> {
    let alloc = rt.alloc();
    let ours = tiers(alloc, &TURNED, &TURNED)?;
    let theirs = tiers(alloc, &THEIRS, &THEIRS)?;
    check(&rt, common(ALL, ours, theirs), 45, false);
    Ok(())
}

#[test]
fn a_free_start_comes_before_a_preempted_one(rt: HostRuntime) -> Result<(), Fail> {
    let alloc = rt.alloc();
    let ours = tiers(alloc, &OURS, &WHOLE)?;
    let theirs = tiers(alloc, &THEIRS, &WHOLE)?;
    check(&rt, common(ALL, ours, theirs), 45, false);
    Ok(())
}

#[test]
fn without_a_free_start_one_is_preempted(rt: HostRuntime) -> Result<(), Fail> {
    let alloc = rt.alloc();
    let ours = tiers(alloc, &OURS, &WHOLE)?;
    let theirs = tiers(alloc, &NEVER, &AT_FIVE)?;
    check(&rt, common(ALL, ours, theirs), 5, true);
    Ok(())
}

#[test]
fn where_nobody_can_start_there_is_none(rt: HostRuntime) -> Result<(), Fail> {
    let alloc = rt.alloc();
    let ours = tiers(alloc, &OURS, &OURS)?;
    let theirs = tiers(alloc, &NEVER, &NEVER)?;
    assert_eq!(rt; common(ALL, ours, theirs), None);
    Ok(())
}

#[test]
fn who_takes_part_alone_starts_at_once(rt: HostRuntime) -> Result<(), Fail> {
    check(&rt, earliest(ALL, &[]), 0, false);
    Ok(())
}
