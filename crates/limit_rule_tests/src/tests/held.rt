//! Of which tests and runs a limit is true.
use crate::tests::{holds, idle, letter, read};
use limit_ident::named::Named;
use limit_rule::limit::Limit;
use plugin_core::test_spec::{Sleep, TestSpec};
use ps_time::interval::Interval;
use ps_time::items::Items;
use ps_time::memory::Memory;
use ps_time::text::Text;
use std::alloc::Global;
use std::test::Fail;

static BEFORE: &str = r#"[{"name":"l","#;

static BEHIND: &str = "}]";

/// The five tests, of 10 s, with an interval of 2 s, a dawdle of 3 s and a timeout of 4 s.
fn test(alloc: Global, number: usize) -> Result<TestSpec, Memory> {
    match number {
        0 => Ok(idle(10)),
        1 => Ok(TestSpec::Idleex(Sleep::of(10))),
        2 => Ok(TestSpec::Idlebgm {
            sleep: Sleep::of(10),
            interval: 2,
        }),
        3 => Ok(TestSpec::Idlemany {
            sleep: Sleep::of(10),
            hosts: Items::new(alloc),
        }),
        _ => Ok(TestSpec::Simplestream {
            dest: Text::new(alloc, "b")?,
            test_material: Text::new(alloc, "x")?,
            dawdle: 3,
            timeout: 4,
        }),
    }
}

fn test_held(
    alloc: Global,
    limits: &[Named<Limit>],
    number: usize,
) -> Result<&'static str, Memory> {
    let run = Interval { start: 0, end: 10 };
    Ok(letter(holds(limits, test(alloc, number)?, run)))
}

fn tests_held(alloc: Global, limits: &[Named<Limit>]) -> Result<String, Fail> {
    let mut told = String::new(alloc);
    for number in 0..5_usize {
        told.push_str(test_held(alloc, limits, number)?)?;
    }
    Ok(told)
}

fn tests_told(alloc: Global, text: &str) -> Result<String, Fail> {
    let limits = read(alloc, text)?;
    tests_held(alloc, limits.as_slice())
}

// Of idle, idleex, idlebgm, idlemany, simplestream.
static TESTS: &str = r#"nnnnn <- "type":"pass-fail"
yyyyy <- "type":"pass-fail","data":{"pass":true}
nnnnn <- "type":"pass-fail","data":{"pass":false}
yyyyy <- "type":"pass-fail","invert":true
ynnnn <- "type":"test-type","data":{"types":["idle"]}
nnyny <- "type":"test-type","data":{"types":["simplestream","idlebgm","idlebgm"]}
yynyn <- "type":"test-type","data":{"types":["simplestream","idlebgm"]},"invert":true
nynyn <- "type":"test-type","data":{"types":["idlemany","idleex"]}
ynnnn <- "type":"test","data":{"test":"idle","limit":{}}
nynnn <- "type":"test","data":{"test":"idleex","limit":{"duration":{"range":{"lower":"PT10S","upper":"PT20S"}}}}
nnnyn <- "type":"test","data":{"test":"idlemany","limit":{"duration":{"range":{"lower":"PT1S","upper":"PT10S"}}}}
nnnnn <- "type":"test","data":{"test":"idle","limit":{"duration":{"range":{"lower":"PT11S","upper":"PT20S"}}}}
nnnnn <- "type":"test","data":{"test":"idle","limit":{"duration":{"range":{"lower":"PT1S","upper":"PT9S"}}}}
ynnnn <- "type":"test","data":{"test":"idle","limit":{"duration":{"range":{"lower":"PT9.5S","upper":"PT10S"}}}}
nnnnn <- "type":"test","data":{"test":"idle","limit":{"interval":{"range":{"lower":"PT0S","upper":"PT20S"}}}}
nnynn <- "type":"test","data":{"test":"idlebgm","limit":{"duration":{"range":{"lower":"PT10S","upper":"PT10S"}},"interval":{"range":{"lower":"PT2S","upper":"PT2S"}}}}
nnnnn <- "type":"test","data":{"test":"idlebgm","limit":{"duration":{"range":{"lower":"PT10S","upper":"PT10S"}},"interval":{"range":{"lower":"PT3S","upper":"PT4S"}}}}
nnnny <- "type":"test","data":{"test":"simplestream","limit":{"dawdle":{"range":{"lower":"PT3S","upper":"PT3S"}},"timeout":{"range":{"lower":"PT4S","upper":"PT4S"}}}}
nnnnn <- "type":"test","data":{"test":"simplestream","limit":{"dawdle":{"range":{"lower":"PT4S","upper":"PT5S"}}}}
nnnnn <- "type":"test","data":{"test":"simplestream","limit":{"timeout":{"range":{"lower":"PT1S","upper":"PT3S"}}}}
yyyyn <- "type":"test","data":{"test":"simplestream","limit":{}},"invert":true"#;

#[test]
fn tests(rt: HostRuntime) -> Result<(), Fail> {
    let alloc = rt.alloc();
    for case in TESTS.split('\n') {
        let (want, limit) = case.split_once(" <- ").ok_or("no case")?;
        let text = format!(in alloc; "{BEFORE}{limit}{BEHIND}")?;
        let told = tests_told(alloc, text.as_str())?;
        if told.as_str() != want {
            return Err(Fail::new(format_args!("{limit} is told {told}")));
        }
    }
    Ok(())
}

// Starts and ends of runs.
static RUNS: [(u64, u64); 9] = [
    (100, 200),
    (99, 150),
    (150, 201),
    (100, 101),
    (199, 200),
    (200, 210),
    (90, 100),
    (90, 101),
    (50, 300),
];

fn interval(start: u64, end: u64) -> Option<Interval> {
    if start < end {
        Some(Interval { start, end })
    } else {
        None
    }
}

fn run_held(limits: &[Named<Limit>], start: u64, end: u64) -> Result<&'static str, Fail> {
    let run = interval(start, end).ok_or("no run")?;
    Ok(letter(holds(limits, idle(10), run)))
}

fn runs_held(alloc: Global, limits: &[Named<Limit>], runs: &[(u64, u64)]) -> Result<String, Fail> {
    let mut told = String::new(alloc);
    for (start, end) in runs {
        told.push_str(run_held(limits, *start, *end)?)?;
    }
    Ok(told)
}

fn runs_told(alloc: Global, text: &str) -> Result<String, Fail> {
    let limits = read(alloc, text)?;
    runs_held(alloc, limits.as_slice(), &RUNS)
}

static DATED: &str = r#""type":"run-daterange","data":"#;

// 1970-01-01T00:01:40 is 100, T00:03:20 is 200.
static DATES: &str = r#"ynnyynnnn <- {"start":"1970-01-01T00:01:40","end":"1970-01-01T00:03:20"}
yyyyynnyy <- {"start":"1970-01-01T00:01:40","end":"1970-01-01T00:03:20","overlap":true}
ynnyynnnn <- {"start":"1970-01-01T00:01:39.5","end":"1970-01-01T00:03:20.9"}
yyyyynnyy <- {"start":"1970-01-01T00:01:39.5","end":"1970-01-01T00:03:20.9","overlap":true}
nnnnnnnnn <- {"start":"1970-01-01T00:01:40","end":"1970-01-01T00:01:40"}
nnnnnnnnn <- {"start":"1970-01-01T00:01:40","end":"1970-01-01T00:01:40","overlap":true}
yyyyyyyyy <- {"start":"1970-01-01T00:00","end":"2100-01-01T00:00"}"#;

#[test]
fn dates(rt: HostRuntime) -> Result<(), Fail> {
    let alloc = rt.alloc();
    for case in DATES.split('\n') {
        let (want, data) = case.split_once(" <- ").ok_or("no case")?;
        let text = format!(in alloc; "{BEFORE}{DATED}{data}{BEHIND}")?;
        let told = runs_told(alloc, text.as_str())?;
        if told.as_str() != want {
            return Err(Fail::new(format_args!("{data} is told {told}")));
        }
    }
    Ok(())
}
