//! Schedules of runs.
use crate::tests::{holds, idle, letter, read};
use limit_ident::named::Named;
use limit_rule::civil::civil_at;
use limit_rule::limit::Limit;
use ps_time::interval::Interval;
use ps_time::moment::Round;
use ps_time::read_moment::read_moment;
use std::alloc::Global;
use std::test::Fail;

// Seconds since 1970; month, day of the month, weekday, hour and minute.
static SECONDS: [(u64, &str); 20] = [
    (0, "1 1 4 0 0"),
    (59, "1 1 4 0 0"),
    (60, "1 1 4 0 1"),
    (3_599, "1 1 4 0 59"),
    (3_600, "1 1 4 1 0"),
    (86_399, "1 1 4 23 59"),
    (86_400, "1 2 5 0 0"),
    (951_782_399, "2 28 1 23 59"),
    (951_868_799, "2 29 2 23 59"),
    (951_868_800, "3 1 3 0 0"),
    (1_704_067_199, "12 31 7 23 59"),
    (1_704_067_200, "1 1 1 0 0"),
    (4_102_444_800, "1 1 5 0 0"),
    (4_107_542_399, "2 28 7 23 59"),
    (4_107_542_400, "3 1 1 0 0"),
    (12_622_780_799, "12 31 3 23 59"),
    (12_622_780_800, "1 1 4 0 0"),
    (253_402_300_799, "12 31 5 23 59"),
    (253_402_300_800, "1 1 6 0 0"),
    (18_446_744_073_709_551_615, "11 9 4 7 0"),
];

fn check_seconds(alloc: Global, seconds: &[(u64, &str)]) -> Result<(), Fail> {
    for (second, want) in seconds {
        let civil = civil_at(*second);
        let told = format!(in alloc; "{} {} {}", civil.month, civil.monthday, civil.weekday)?;
        let told = format!(in alloc; "{told} {} {}", civil.hour, civil.minute)?;
        if told.as_str() != *want {
            return Err(Fail::new(format_args!("{second} is told {told}")));
        }
    }
    Ok(())
}

#[test]
fn what_is_shown(rt: HostRuntime) -> Result<(), Fail> {
    check_seconds(rt.alloc(), &SECONDS)
}

static BEFORE: &str = r#"[{"name":"l","type":"run-schedule","data":"#;

static BEHIND: &str = "}]";

/// The run that starts at this text's moment, for so many seconds.
fn run(start: &str, length: &str) -> Option<Interval> {
    let start = read_moment(start, Round::Up).ok()?;
    let length = length.parse::<u32>().ok()?;
    let end = start.checked_add(u64::from(length))?;
    if start < end {
        Some(Interval { start, end })
    } else {
        None
    }
}

fn held(limits: &[Named<Limit>], run: Interval) -> &'static str {
    letter(holds(limits, idle(10), run))
}

fn told(alloc: Global, data: &str, run: Interval) -> Result<&'static str, Fail> {
    let text = format!(in alloc; "{BEFORE}{data}{BEHIND}")?;
    let limits = read(alloc, text.as_str())?;
    Ok(held(limits.as_slice(), run))
}

fn check(alloc: Global, cases: &str) -> Result<(), Fail> {
    for case in cases.split('\n') {
        let (want, rest) = case.split_once(' ').ok_or("no case")?;
        let (start, rest) = rest.split_once(' ').ok_or("no start")?;
        let (length, data) = rest.split_once(' ').ok_or("no length")?;
        let run = run(start, length).ok_or("no run")?;
        if told(alloc, data, run)? != want {
            return Err(Fail::new(format_args!("{case}")));
        }
    }
    Ok(())
}

static MONTHS: &str = r#"y 2024-02-29T23:59:00Z 60 {"month":[2]}
n 2024-02-29T23:59:00Z 61 {"month":[2]}
y 2024-02-29T23:59:00Z 61 {"month":[2],"overlap":true}
y 2024-02-29T23:59:00Z 61 {"month":[3],"overlap":true}
n 2024-02-29T23:59:00Z 61 {"month":[3]}
n 2024-02-29T23:59:00Z 61 {"month":[4],"overlap":true}
y 2024-02-29T23:59:00Z 61 {"month":[2,3]}
y 2024-02-29T23:59:00Z 61 {"month":[{"lower":2,"upper":3}]}
y 2024-02-29T23:59:00Z 61 {"monthday":[29,1]}
y 2023-02-28T23:59:59Z 2 {"monthday":[28,1]}
n 2023-02-28T23:59:59Z 2 {"monthday":[28,29]}
n 2024-12-31T23:00:00Z 7200 {"month":[12]}
y 2024-12-31T23:00:00Z 7200 {"month":[12,1]}
n 2024-12-31T23:00:00Z 7200 {"month":[{"lower":2,"upper":12}]}
y 2024-12-31T23:00:00Z 7200 {"month":[{"lower":2,"upper":12}],"overlap":true}
y 2024-12-31T23:00:00Z 7200 {"monthday":[31,1]}
n 2024-12-31T23:00:00Z 7200 {"monthday":[{"lower":2,"upper":31}]}
y 1999-12-31T23:59:59Z 1 {"month":[{"lower":12,"upper":12}]}
y 1970-01-01T00:00:00Z 1 {}"#;

#[test]
fn turns_of_months_and_years(rt: HostRuntime) -> Result<(), Fail> {
    check(rt.alloc(), MONTHS)
}

// 2023-01-01 was a Sunday, 2026-11-27 is a Friday, 2024-02-29 was a Thursday.
static WEEKDAYS: &str = r#"y 2023-01-01T12:00:00Z 10 {"weekday":[7]}
y 2023-01-01T23:59:59Z 2 {"weekday":[7,1]}
n 2023-01-01T23:59:59Z 2 {"weekday":[7]}
n 2023-01-01T23:59:59Z 2 {"weekday":[1]}
n 2023-01-01T12:00:00Z 10 {"weekday":[{"lower":1,"upper":6}]}
y 2026-11-27T00:00:00Z 86400 {"weekday":[5]}
n 2026-11-27T00:00:00Z 86401 {"weekday":[5]}
n 2026-11-26T23:59:59Z 10 {"weekday":[5]}
y 2026-11-26T23:59:59Z 10 {"weekday":[5],"overlap":true}
n 2026-11-26T00:00:00Z 259200 {"weekday":[5],"overlap":true}
y 2026-11-26T00:00:00Z 604800 {"weekday":[3,4]}
n 2026-11-26T23:59:59Z 2 {"weekday":[5],"hour":[23],"overlap":true}"#;

static CLOCKS: &str = r#"y 2026-11-26T23:30:00Z 3600 {"hour":[23,0]}
n 2026-11-26T23:30:00Z 3600 {"hour":[{"lower":22,"upper":23}]}
y 2026-11-26T23:30:00Z 3600 {"hour":[{"lower":22,"upper":23},{"lower":0,"upper":5}]}
y 2026-11-26T23:30:00Z 3600 {"hour":[{"lower":22,"upper":23}],"overlap":true}
y 2026-11-26T23:00:00Z 3600 {"hour":[23]}
n 2026-11-26T23:00:00Z 3601 {"hour":[23]}
n 2026-11-26T23:30:00+01:00 3600 {"hour":[23]}
y 2026-11-26T23:30:00+01:00 1800 {"hour":[22]}
y 2026-11-26T10:15:00Z 60 {"minute":[15]}
n 2026-11-26T10:15:00Z 61 {"minute":[15]}
y 2026-11-26T10:15:59Z 1 {"minute":[15]}
y 2026-11-26T10:15:00Z 3600 {"minute":[14,15]}
y 2026-11-26T10:15:00Z 3600 {"minute":[{"lower":0,"upper":59}]}
y 2024-02-29T06:30:00Z 60 {"month":[2],"monthday":[29],"weekday":[4],"hour":[6],"minute":[30]}
n 2024-02-29T06:30:00Z 60 {"month":[2],"monthday":[29],"weekday":[5],"hour":[6],"minute":[30]}
n 2024-02-29T06:30:00Z 61 {"month":[2],"monthday":[29],"weekday":[4],"hour":[6],"minute":[30]}"#;

#[test]
fn weekdays_and_hours(rt: HostRuntime) -> Result<(), Fail> {
    check(rt.alloc(), WEEKDAYS)?;
    check(rt.alloc(), CLOCKS)
}
