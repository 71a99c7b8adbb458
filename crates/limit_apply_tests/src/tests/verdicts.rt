//! What configurations answer to those who ask.
use crate::tests::{admits, asker, idle, permits, read, told};
use limit_apply::limits::{Counts, Limits};
use limit_ident::fault::LimitFault;
use ps_time::interval::Interval;
use ps_time::memory::Memory;
use std::alloc::Global;
use std::test::Fail;

// examples/limits/usual-limits.json
static USUAL: &str =
    r#"{"identifiers":[{"name":"everybody","type":"always","data":{}},{"name":"local","type":"ip-cidr-list","data":{"cidrs":["127.0.0.0/8","::1/128"]}},{"name":"friends","type":"ip-cidr-list","data":{"cidrs":["10.1.0.0/16","192.0.2.0/24"]}},{"name":"hostile","type":"ip-cidr-list","data":{"cidrs":["198.51.100.0/24"]}}],"classifiers":[{"name":"hostiles","identifiers":["hostile"]},{"name":"locals","identifiers":["local"]},{"name":"friends","identifiers":["friends"]},{"name":"default","identifiers":["everybody"]}],"limits":[{"name":"always","type":"pass-fail","data":{"pass":true}},{"name":"never","type":"pass-fail","data":{"pass":false}},{"name":"innocuous","type":"test-type","data":{"types":["idle","idlebgm"]}},{"name":"idle-short","type":"test","data":{"test":"idle","limit":{"duration":{"range":{"lower":"PT1S","upper":"PT10M"}}}}}],"applications":[{"classifier":"hostiles","apply":[{"require":"all","limits":["never"]}],"stop-on-failure":true},{"classifier":"locals","apply":[{"require":"all","limits":["always"]}]},{"classifier":"friends","apply":[{"require":"any","limits":["innocuous"]}]},{"classifier":"default","apply":[{"require":"any","limits":["idle-short"]}]}],"priorities":{"default":0,"classifiers":[{"classifier":"locals","ceiling":100}]}}"#;

fn permitted(
    alloc: Global,
    limits: &Limits,
    requester: &str,
    duration: u64,
    priority: i16,
) -> Result<String, Fail> {
    let run = Interval { start: 0, end: 10 };
    let asker = asker(alloc, requester)?;
    let verdict = permits(limits, asker, idle(duration), run, priority);
    Ok(told(alloc, verdict)?)
}

fn admitted(
    alloc: Global,
    limits: &Limits,
    requester: &str,
    duration: u64,
) -> Result<String, Fail> {
    let asker = asker(alloc, requester)?;
    let verdict = admits(limits, asker, idle(duration));
    Ok(told(alloc, verdict)?)
}

// Who asks, for how many seconds of `idle`, at which priority; and what is permitted, and admitted.
static USUAL_ROWS: [(&str, u64, i16, &str, &str); 12] = [
    ("198.51.100.7", 10, 0, "stopped 0", "stopped 0"),
    ("127.0.0.1", 10, 0, "permitted 1", "permitted 1"),
    ("::1", 10, 0, "permitted 1", "permitted 1"),
    ("10.1.2.3", 10, 0, "permitted 2", "permitted 2"),
    ("203.0.113.5", 10, 0, "permitted 3", "permitted 3"),
    ("203.0.113.5", 1_200, 0, "exhausted", "exhausted"),
    ("203.0.113.5", 600, 0, "permitted 3", "permitted 3"),
    ("10.1.2.3", 1_200, 0, "permitted 2", "permitted 2"),
    ("127.0.0.1", 10, 100, "permitted 1", "permitted 1"),
    ("127.0.0.1", 10, 101, "above 100", "permitted 1"),
    ("203.0.113.5", 10, 1, "above 0", "permitted 3"),
    ("198.51.100.7", 10, 1_000, "stopped 0", "stopped 0"),
];

fn check_rows(
    alloc: Global,
    limits: &Limits,
    rows: &[(&str, u64, i16, &str, &str)],
) -> Result<(), Fail> {
    for (requester, duration, priority, run, before) in rows {
        let told = permitted(alloc, limits, requester, *duration, *priority)?;
        if told.as_str() != *run {
            return Err(Fail::new(format_args!("{requester} is told {told}")));
        }
        let told = admitted(alloc, limits, requester, *duration)?;
        if told.as_str() != *before {
            return Err(Fail::new(format_args!("{requester} is told {told} before")));
        }
    }
    Ok(())
}

fn check_read(
    alloc: Global,
    text: &str,
    rows: &[(&str, u64, i16, &str, &str)],
) -> Result<(), Fail> {
    let limits = read(alloc, text)?;
    check_rows(alloc, &limits, rows)
}

fn count(alloc: Global, text: &str) -> Result<Counts, LimitFault> {
    Ok(read(alloc, text)?.counts())
}

#[test]
fn the_usual_configuration(rt: HostRuntime) -> Result<(), Fail> {
    let counts = count(rt.alloc(), USUAL)?;
    assert!(rt; counts.identifiers == 4 && counts.classifiers == 4);
    assert!(rt; counts.limits == 4 && counts.applications == 4);
    check_read(rt.alloc(), USUAL, &USUAL_ROWS)
}

// Nine identifiers, classifiers, limits, applications and ceilings: the kth is for `10.0.0.k`, of whom `idle`
// tests of k seconds are permitted, up to priority k.
static NINE: &str =
    r#"{"identifiers":[{"name":"i1","type":"ip-cidr-list","data":{"cidrs":["10.0.0.1"]}},{"name":"i2","type":"ip-cidr-list","data":{"cidrs":["10.0.0.2"]}},{"name":"i3","type":"ip-cidr-list","data":{"cidrs":["10.0.0.3"]}},{"name":"i4","type":"ip-cidr-list","data":{"cidrs":["10.0.0.4"]}},{"name":"i5","type":"ip-cidr-list","data":{"cidrs":["10.0.0.5"]}},{"name":"i6","type":"ip-cidr-list","data":{"cidrs":["10.0.0.6"]}},{"name":"i7","type":"ip-cidr-list","data":{"cidrs":["10.0.0.7"]}},{"name":"i8","type":"ip-cidr-list","data":{"cidrs":["10.0.0.8"]}},{"name":"i9","type":"ip-cidr-list","data":{"cidrs":["10.0.0.9"]}}],"classifiers":[{"name":"c1","identifiers":["i1"]},{"name":"c2","identifiers":["i2"]},{"name":"c3","identifiers":["i3"]},{"name":"c4","identifiers":["i4"]},{"name":"c5","identifiers":["i5"]},{"name":"c6","identifiers":["i6"]},{"name":"c7","identifiers":["i7"]},{"name":"c8","identifiers":["i8"]},{"name":"c9","identifiers":["i9"]}],"limits":[{"name":"l1","type":"test","data":{"test":"idle","limit":{"duration":{"range":{"lower":"PT1S","upper":"PT1S"}}}}},{"name":"l2","type":"test","data":{"test":"idle","limit":{"duration":{"range":{"lower":"PT2S","upper":"PT2S"}}}}},{"name":"l3","type":"test","data":{"test":"idle","limit":{"duration":{"range":{"lower":"PT3S","upper":"PT3S"}}}}},{"name":"l4","type":"test","data":{"test":"idle","limit":{"duration":{"range":{"lower":"PT4S","upper":"PT4S"}}}}},{"name":"l5","type":"test","data":{"test":"idle","limit":{"duration":{"range":{"lower":"PT5S","upper":"PT5S"}}}}},{"name":"l6","type":"test","data":{"test":"idle","limit":{"duration":{"range":{"lower":"PT6S","upper":"PT6S"}}}}},{"name":"l7","type":"test","data":{"test":"idle","limit":{"duration":{"range":{"lower":"PT7S","upper":"PT7S"}}}}},{"name":"l8","type":"test","data":{"test":"idle","limit":{"duration":{"range":{"lower":"PT8S","upper":"PT8S"}}}}},{"name":"l9","type":"test","data":{"test":"idle","limit":{"duration":{"range":{"lower":"PT9S","upper":"PT9S"}}}}}],"applications":[{"classifier":"c1","apply":[{"require":"any","limits":["l1"]}]},{"classifier":"c2","apply":[{"require":"any","limits":["l2"]}]},{"classifier":"c3","apply":[{"require":"any","limits":["l3"]}]},{"classifier":"c4","apply":[{"require":"any","limits":["l4"]}]},{"classifier":"c5","apply":[{"require":"any","limits":["l5"]}]},{"classifier":"c6","apply":[{"require":"any","limits":["l6"]}]},{"classifier":"c7","apply":[{"require":"any","limits":["l7"]}]},{"classifier":"c8","apply":[{"require":"any","limits":["l8"]}]},{"classifier":"c9","apply":[{"require":"any","limits":["l9"]}]}],"priorities":{"default":-9,"classifiers":[{"classifier":"c1","ceiling":1},{"classifier":"c2","ceiling":2},{"classifier":"c3","ceiling":3},{"classifier":"c4","ceiling":4},{"classifier":"c5","ceiling":5},{"classifier":"c6","ceiling":6},{"classifier":"c7","ceiling":7},{"classifier":"c8","ceiling":8},{"classifier":"c9","ceiling":9}]}}"#;

static NINE_ROWS: [(&str, u64, i16, &str, &str); 8] = [
    ("10.0.0.1", 1, 1, "permitted 0", "permitted 0"),
    ("10.0.0.1", 2, 1, "exhausted", "exhausted"),
    ("10.0.0.5", 5, 5, "permitted 4", "permitted 4"),
    ("10.0.0.5", 5, 6, "above 5", "permitted 4"),
    ("10.0.0.9", 9, 9, "permitted 8", "permitted 8"),
    ("10.0.0.9", 8, 9, "exhausted", "exhausted"),
    ("10.0.0.9", 9, 10, "above 9", "permitted 8"),
    ("10.0.0.10", 9, -10, "exhausted", "exhausted"),
];

#[test]
fn nine_of_everything(rt: HostRuntime) -> Result<(), Fail> {
    let counts = count(rt.alloc(), NINE)?;
    assert!(rt; counts.identifiers == 9 && counts.classifiers == 9);
    assert!(rt; counts.limits == 9 && counts.applications == 9);
    check_read(rt.alloc(), NINE, &NINE_ROWS)
}

fn copied(alloc: Global, limits: Limits) -> Result<Limits, Memory> {
    limits.copy(alloc)
}

fn check_copy(alloc: Global, rows: &[(&str, u64, i16, &str, &str)]) -> Result<(), Fail> {
    let limits = copied(alloc, read(alloc, USUAL)?)?;
    check_rows(alloc, &limits, rows)
}

#[test]
fn a_copy(rt: HostRuntime) -> Result<(), Fail> {
    check_copy(rt.alloc(), &USUAL_ROWS)
}

static OPEN_ROWS: [(&str, u64, i16, &str, &str); 3] = [
    ("198.51.100.7", 10, 1_000, "permitted 0", "permitted 0"),
    ("nobody", 1_200, -1_000, "permitted 0", "permitted 0"),
    ("", 10, 1_001, "above 1000", "permitted 0"),
];

fn open(alloc: Global) -> Result<Limits, Memory> {
    Limits::open(alloc)
}

fn check_open(alloc: Global, rows: &[(&str, u64, i16, &str, &str)]) -> Result<(), Fail> {
    let limits = open(alloc)?;
    check_rows(alloc, &limits, rows)
}

#[test]
fn the_open_configuration(rt: HostRuntime) -> Result<(), Fail> {
    check_open(rt.alloc(), &OPEN_ROWS)
}

// Before the applications: `c` is everybody, `n` nobody; `yes` and `too` are true, `no` isn't; `dates` are
// from 0 to 10 s, `late` from 5 s on, `not-late` is its inverse.
static BEFORE: &str =
    r#"{"identifiers":[{"name":"i","type":"always"}],"classifiers":[{"name":"c","identifiers":["i"]},{"name":"n","identifiers":["i"],"require":"none"}],"limits":[{"name":"yes","type":"pass-fail","data":{"pass":true}},{"name":"no","type":"pass-fail"},{"name":"too","type":"test-type","data":{"types":["idle"]}},{"name":"dates","type":"run-daterange","data":{"start":"1970-01-01T00:00","end":"1970-01-01T00:00:10"}},{"name":"late","type":"run-daterange","data":{"start":"1970-01-01T00:00:05","end":"1970-01-01T00:01"}},{"name":"not-late","type":"run-daterange","data":{"start":"1970-01-01T00:00:05","end":"1970-01-01T00:01"},"invert":true}],"applications":["#;

fn both(alloc: Global, limits: &Limits) -> Result<String, Fail> {
    let run = permitted(alloc, limits, "::1", 10, 0)?;
    let before = admitted(alloc, limits, "::1", 10)?;
    Ok(format!(in alloc; "{run}, {before}")?)
}

fn both_told(alloc: Global, text: &str) -> Result<String, Fail> {
    let limits = read(alloc, text)?;
    both(alloc, &limits)
}

fn check(alloc: Global, cases: &str) -> Result<(), Fail> {
    for case in cases.split('\n') {
        let (want, applications) = case.split_once(" <- ").ok_or("no case")?;
        let text = format!(in alloc; "{BEFORE}{applications}]}}")?;
        let told = both_told(alloc, text.as_str())?;
        if told.as_str() != want {
            return Err(Fail::new(format_args!("{applications} is told {told}")));
        }
    }
    Ok(())
}

// What is said of a run from 0 to 10 s, and before there is one.
static GROUPS: &str =
    r#"permitted 0, permitted 0 <- {"classifier":"c","apply":[{"require":"all","limits":["yes","too"]}]}
exhausted, exhausted <- {"classifier":"c","apply":[{"require":"all","limits":["yes","no"]}]}
permitted 0, permitted 0 <- {"classifier":"c","apply":[{"require":"any","limits":["no","too"]}]}
exhausted, exhausted <- {"classifier":"c","apply":[{"require":"any","limits":["no","no"]}]}
exhausted, exhausted <- {"classifier":"c","apply":[{"require":"one","limits":["yes","too"]}]}
permitted 0, permitted 0 <- {"classifier":"c","apply":[{"require":"one","limits":["yes","too"]}],"invert":true}
permitted 0, permitted 0 <- {"classifier":"c","apply":[{"require":"one","limits":["no","too","no"]}]}
exhausted, exhausted <- {"classifier":"c","apply":[{"require":"one","limits":["too","too"]}]}
permitted 0, permitted 0 <- {"classifier":"c","apply":[{"require":"none","limits":["no","no"]}]}
exhausted, exhausted <- {"classifier":"c","apply":[{"require":"none","limits":["no","yes"]}]}
permitted 0, permitted 0 <- {"classifier":"c","apply":[{"require":"all","limits":["yes"]},{"require":"none","limits":["no"]}]}
exhausted, exhausted <- {"classifier":"c","apply":[{"require":"all","limits":["yes"]},{"require":"all","limits":["no"]}]}
permitted 0, permitted 0 <- {"classifier":"c","apply":[{"require":"all","limits":["yes"]},{"require":"all","limits":["no"]}],"invert":true}
exhausted, exhausted <- {"classifier":"c","apply":[{"require":"all","limits":["yes"]},{"require":"all","limits":["too"]}],"invert":true}"#;

#[test]
fn groups(rt: HostRuntime) -> Result<(), Fail> {
    check(rt.alloc(), GROUPS)
}

static STOPS: &str =
    r#"stopped 0, stopped 0 <- {"classifier":"c","apply":[{"require":"all","limits":["no"]}],"stop-on-failure":true}
stopped 0, stopped 0 <- {"classifier":"c","apply":[{"require":"all","limits":["no"]}],"stop-on-failure":true},{"classifier":"c","apply":[{"require":"all","limits":["yes"]}]}
permitted 1, permitted 1 <- {"classifier":"c","apply":[{"require":"all","limits":["no"]}]},{"classifier":"c","apply":[{"require":"all","limits":["yes"]}]}
permitted 0, permitted 0 <- {"classifier":"c","apply":[{"require":"all","limits":["yes"]}],"stop-on-failure":true},{"classifier":"c","apply":[{"require":"all","limits":["no"]}],"stop-on-failure":true}
permitted 2, permitted 2 <- {"classifier":"n","apply":[{"require":"all","limits":["no"]}],"stop-on-failure":true},{"classifier":"n","apply":[{"require":"all","limits":["yes"]}]},{"classifier":"c","apply":[{"require":"all","limits":["yes"]}]}
stopped 2, stopped 2 <- {"classifier":"n","apply":[{"require":"all","limits":["yes"]}]},{"classifier":"c","apply":[{"require":"all","limits":["no"]}]},{"classifier":"c","apply":[{"require":"all","limits":["yes"]}],"invert":true,"stop-on-failure":true}
exhausted, exhausted <- {"classifier":"n","apply":[{"require":"all","limits":["yes"]}],"stop-on-failure":true}
exhausted, exhausted <- {"classifier":"c","apply":[{"require":"all","limits":["no"]}]},{"classifier":"c","apply":[{"require":"all","limits":["no"]}]}"#;

#[test]
fn stops(rt: HostRuntime) -> Result<(), Fail> {
    check(rt.alloc(), STOPS)
}

static RUN_LIMITS: &str =
    r#"permitted 0, permitted 0 <- {"classifier":"c","apply":[{"require":"all","limits":["dates"]}]}
exhausted, permitted 0 <- {"classifier":"c","apply":[{"require":"all","limits":["late"]}]}
permitted 0, permitted 0 <- {"classifier":"c","apply":[{"require":"all","limits":["not-late"]}]}
stopped 0, permitted 0 <- {"classifier":"c","apply":[{"require":"all","limits":["late"]}],"stop-on-failure":true}
exhausted, permitted 0 <- {"classifier":"c","apply":[{"require":"all","limits":["dates"]}],"invert":true}
exhausted, permitted 0 <- {"classifier":"c","apply":[{"require":"all","limits":["no"]},{"require":"any","limits":["no","dates"]}]}
permitted 1, permitted 0 <- {"classifier":"c","apply":[{"require":"all","limits":["late"]}]},{"classifier":"c","apply":[{"require":"all","limits":["yes"]}]}
stopped 0, stopped 0 <- {"classifier":"c","apply":[{"require":"all","limits":["no"]}],"stop-on-failure":true},{"classifier":"c","apply":[{"require":"all","limits":["dates"]}]}
permitted 1, permitted 1 <- {"classifier":"n","apply":[{"require":"all","limits":["late"]}]},{"classifier":"c","apply":[{"require":"all","limits":["dates"]}]}"#;

#[test]
fn run_limits(rt: HostRuntime) -> Result<(), Fail> {
    check(rt.alloc(), RUN_LIMITS)
}

// Before the priorities: `c` and `d` are everybody, `n` is nobody, `h` the host itself.
static WHO: &str =
    r#"{"identifiers":[{"name":"i","type":"always"},{"name":"j","type":"ip-cidr-list","data":{"cidrs":["::1"]}}],"classifiers":[{"name":"c","identifiers":["i"]},{"name":"d","identifiers":["i"]},{"name":"n","identifiers":["i"],"require":"none"},{"name":"h","identifiers":["j"]}],"limits":[{"name":"l","type":"pass-fail"}],"applications":[{"classifier":"c","apply":[{"require":"all","limits":["l"]}]}]"#;

// The ceilings of `::1` and of `::2`.
static CEILINGS: &str = r#"0 0 <- }
0 0 <- ,"priorities":{}}
7 7 <- ,"priorities":{"default":7}}
-7 -7 <- ,"priorities":{"default":-7,"classifiers":[]}}
30 30 <- ,"priorities":{"classifiers":[{"classifier":"c","ceiling":10},{"classifier":"d","ceiling":30},{"classifier":"n","ceiling":50}]}}
30 30 <- ,"priorities":{"classifiers":[{"classifier":"n","ceiling":50},{"classifier":"d","ceiling":30},{"classifier":"c","ceiling":10}]}}
0 0 <- ,"priorities":{"classifiers":[{"classifier":"c","ceiling":-10},{"classifier":"d","ceiling":-30}]}}
-10 -20 <- ,"priorities":{"default":-20,"classifiers":[{"classifier":"c","ceiling":-30},{"classifier":"h","ceiling":-10}]}}
1000 5 <- ,"priorities":{"default":5,"classifiers":[{"classifier":"h","ceiling":1000},{"classifier":"n","ceiling":900}]}}
3 -1000 <- ,"priorities":{"default":-1000,"classifiers":[{"classifier":"h","ceiling":2},{"classifier":"h","ceiling":3}]}}"#;

fn ceiling(alloc: Global, limits: &Limits, requester: &str) -> Result<i16, Memory> {
    Ok(limits.ceiling(&asker(alloc, requester)?))
}

fn two_ceilings(alloc: Global, limits: &Limits) -> Result<String, Fail> {
    let first = ceiling(alloc, limits, "::1")?;
    let second = ceiling(alloc, limits, "::2")?;
    Ok(format!(in alloc; "{first} {second}")?)
}

fn ceilings_told(alloc: Global, text: &str) -> Result<String, Fail> {
    let limits = read(alloc, text)?;
    two_ceilings(alloc, &limits)
}

#[test]
fn ceilings(rt: HostRuntime) -> Result<(), Fail> {
    let alloc = rt.alloc();
    for case in CEILINGS.split('\n') {
        let (want, priorities) = case.split_once(" <- ").ok_or("no case")?;
        let text = format!(in alloc; "{WHO}{priorities}")?;
        let told = ceilings_told(alloc, text.as_str())?;
        if told.as_str() != want {
            return Err(Fail::new(format_args!("{priorities} is told {told}")));
        }
    }
    Ok(())
}
