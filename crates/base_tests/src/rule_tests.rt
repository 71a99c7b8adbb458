//! Windows and next numbers, at bounds and against values worked out by hand.
ghost use Rattle.std.specs.Prelude.{◌≤◌, IfSome};

use ps_time::moment::MAX_MOMENT;
use schedule_rule::rule::{Rule, allowed, next_number, window};
use std::test::Fail;

// Whether the window of the number is this one, or whether there is none.
fn check_windows(rule: &Rule, cases: &[(u32, Option<(u64, u64)>)]) -> Result<(), Fail> {
    for (number, want) in cases {
        if window(rule, *number).map(|window| (window.first, window.last)) != *want {
            return Err(Fail::new(format_args!("window of {number}")));
        }
    }
    Ok(())
}

fn check_allowed(rule: &Rule, cases: &[(u32, u64, bool)]) -> Result<(), Fail> {
    for (number, start, want) in cases {
        if allowed(rule, *number, *start) != *want {
            return Err(Fail::new(format_args!("{number} at {start}")));
        }
    }
    Ok(())
}

fn check_next(rule: &Rule, cases: &[(u32, u64, Option<u32>)]) -> Result<(), Fail> {
    for (from, reach, want) in cases {
        if next_number(rule, *from, *reach) != *want {
            return Err(Fail::new(format_args!("{rule:?}: {reach} from {from}")));
        }
    }
    Ok(())
}

// Every hour from ten to noon, ten minutes each.
fn hourly(until: Option<u64>) -> Rule
    requires { IfSome until (λ u. u ≤ MAX_MOMENT) }
{
    Rule {
        anchor: 36_000,
        slip: 600,
        repeat: Some(3_600),
        until,
        max_runs: Some(5),
    }
}

static HOURLY_WINDOWS: [(u32, Option<(u64, u64)>); 4] = [
    (0, Some((36_000, 36_600))),
    (1, Some((39_600, 40_200))),
    (2, Some((43_200, 43_200))),
    (3, None),
];

static HOURLY_NEXT: [(u32, u64, Option<u32>); 5] = [
    (0, 40_200, Some(1)),
    (0, 40_201, Some(2)),
    (2, 0, Some(2)),
    (0, 43_201, None),
    (0, u64::MAX, None),
];

static HOURLY_ALLOWED: [(u32, u64, bool); 7] = [
    (0, 35_999, false),
    (0, 36_000, true),
    (0, 36_600, true),
    (0, 36_601, false),
    (2, 43_200, true),
    (2, 43_201, false),
    (3, 46_800, false),
];

#[test]
fn every_hour_until_noon(_rt: HostRuntime) -> Result<(), Fail> {
    let rule = hourly(Some(43_200));
    check_windows(&rule, &HOURLY_WINDOWS)?;
    check_next(&rule, &HOURLY_NEXT)?;
    check_allowed(&rule, &HOURLY_ALLOWED)
}

static FIVE: [(u32, u64, Option<u32>); 2] = [(0, 51_000, Some(4)), (0, 51_001, None)];

static ONCE: [(u32, u64, Option<u32>); 3] = [(0, 1_300, Some(0)), (0, 1_301, None), (1, 0, None)];

#[test]
fn numbers_end(_rt: HostRuntime) -> Result<(), Fail> {
    check_next(&hourly(None), &FIVE)?;
    let once = Rule {
        anchor: 1_000,
        slip: 300,
        repeat: None,
        until: None,
        max_runs: None,
    };
    check_next(&once, &ONCE)
}

static OVERLAPPING: [(u32, u64, Option<u32>); 3] = [
    (0, 1_205, Some(11)),
    (11, 1_205, Some(11)),
    (12, 1_205, Some(12)),
];

static ENDED: [(u32, u64, Option<u32>); 1] = [(0, 0, None)];

static LAST: [(u32, u64, Option<u32>); 2] = [(0, MAX_MOMENT, Some(0)), (0, MAX_MOMENT + 1, None)];

// Every ten seconds, with a slip of a hundred.
fn overlapping(anchor: u64, until: Option<u64>) -> Rule
    requires anchor { anchor ≤ MAX_MOMENT }
    requires until { IfSome until (λ u. u ≤ MAX_MOMENT) }
{
    Rule {
        anchor,
        slip: 100,
        repeat: Some(10),
        until,
        max_runs: None,
    }
}

#[test]
fn overlapping_windows(_rt: HostRuntime) -> Result<(), Fail> {
    check_next(&overlapping(1_000, None), &OVERLAPPING)?;
    check_next(&overlapping(1_000, Some(999)), &ENDED)?;
    check_next(&overlapping(MAX_MOMENT, None), &LAST)
}

static EACH_SECOND: [(u32, u64, Option<u32>); 3] = [
    (0, MAX_MOMENT, Some(4_102_444_800)),
    (4_102_444_801, 0, None),
    (u32::MAX, u64::MAX, None),
];

#[test]
fn every_second_to_the_last_moment(_rt: HostRuntime) -> Result<(), Fail> {
    let rule = Rule {
        anchor: 0,
        slip: 0,
        repeat: Some(1),
        until: None,
        max_runs: Some(u32::MAX),
    };
    check_next(&rule, &EACH_SECOND)
}
