//! What no clause says: that calls succeed with ample memory, and whole texts, worked out by hand in
//! docs/specification/results.md.
ghost use Rattle.std.specs.Prelude.{◌≤◌};

use ps_doors::archiver::{Archiver, Tried};
use ps_doors::fixed_clock::FixedClock;
use ps_time::key::RunKey;
use result_table::keeper::{Keeper, KeeperFault};
use result_table::keeper_archiver::KeeperArchiver;
use result_table::listing::listing;
use result_table::map_keeper::MapKeeper;
use result_table::report::report;
use std::alloc::{AllocError, Global};
use std::test::Fail;

static GOOD: &str = "{\"succeeded\":true}";

fn key(number: u32) -> RunKey {
    RunKey {
        lead: 1,
        task: 1,
        number,
        attempt: 0,
    }
}

fn keeper(alloc: Global) -> MapKeeper {
    MapKeeper::new(alloc, Vec::new(alloc))
}

fn failing(alloc: Global, call: u64) -> Result<MapKeeper, AllocError> {
    let mut calls = Vec::with_capacity(alloc, 1)?;
    if calls.push(call).is_err() {
        return Err(AllocError);
    }
    Ok(MapKeeper::new(alloc, calls))
}

fn puts<Q: Keeper>(keeper: &mut Q, alloc: Global, number: u32, moment: u64, body: &str) -> bool
    requires { moment ≤ 4_102_444_800 }
{
    keeper.put(alloc, key(number), moment, body).is_ok()
}

// Whether the key's record has these moments, and is good or not.
fn is_kept<Q: Keeper>(
    keeper: &mut Q,
    alloc: Global,
    number: u32,
    since: u64,
    latest: u64,
    good: bool,
) -> bool {
    match keeper.get(alloc, key(number)) {
        Ok(Some(kept)) => kept.since == since && kept.latest == latest && kept.good == good,
        _ => false,
    }
}

#[test]
fn a_key_keeps_the_moment_of_its_first_result(rt: HostRuntime) -> Result<(), Fail> {
    let alloc = rt.alloc();
    let mut keeper = keeper(alloc);
    assert!(rt;
        puts(&mut keeper, alloc, 0, 1_000, GOOD) && puts(&mut keeper, alloc, 0, 1_060, GOOD)
    );
    assert!(rt; is_kept(&mut keeper, alloc, 0, 1_000, 1_060, true));
    assert!(rt; puts(&mut keeper, alloc, 0, 1_120, "{}"));
    assert!(rt; is_kept(&mut keeper, alloc, 0, 1_000, 1_120, false));
    Ok(())
}

fn tries<A: Archiver>(archiver: &mut A, alloc: Global) -> Tried {
    archiver.attempt(alloc, key(0), 0, "{}", GOOD)
}

fn is_store_fault(tried: &Tried) -> bool {
    match tried {
        Tried::Failed { error, retry } => error.is("store") && *retry == Some(60),
        _ => false,
    }
}

#[test]
fn a_store_that_fails_asks_for_a_wait(rt: HostRuntime) -> Result<(), Fail> {
    let alloc = rt.alloc();
    let mut archiver = KeeperArchiver::new(failing(alloc, 1)?, FixedClock::new(1_100));
    let first = is_store_fault(&tries(&mut archiver, alloc));
    let second = matches!(&tries(&mut archiver, alloc), Tried::Succeeded);
    assert!(rt; first && second);
    assert!(rt; archiver.name() == "keeper");
    assert!(rt; is_kept(&mut archiver.keeper, alloc, 0, 1_100, 1_100, true));
    Ok(())
}

static REPORT: &str =
    "task 00010000-0001-8000-8000-000000000000        2        1        1\nday 1970-01-01        1        1        0\nday 1970-01-02        1        0        1\ntotal        2        1        1\n";

static FIRST_DAY: &str =
    "task 00010000-0001-8000-8000-000000000000        1        1        0\nday 1970-01-01        1        1        0\ntotal        1        1        0\n";

static NOTHING: &str = "total        0        0        0\n";

fn reports<Q: Keeper>(keeper: &mut Q, alloc: Global, from: u64, to: u64, text: &str) -> bool {
    match report(alloc, keeper, from, to) {
        Ok(told) => told.is(text),
        Err(_) => false,
    }
}

#[test]
fn reports_count_by_task_and_day(rt: HostRuntime) -> Result<(), Fail> {
    let alloc = rt.alloc();
    let mut keeper = keeper(alloc);
    assert!(rt; reports(&mut keeper, alloc, 0, 4_102_444_800, NOTHING));
    assert!(rt;
        puts(&mut keeper, alloc, 1, 90_000, "[]") && puts(&mut keeper, alloc, 0, 1_000, GOOD)
    );
    assert!(rt; reports(&mut keeper, alloc, 0, 4_102_444_800, REPORT));
    assert!(rt; reports(&mut keeper, alloc, 1_000, 90_000, FIRST_DAY));
    assert!(rt; reports(&mut keeper, alloc, 1_001, 90_000, NOTHING));
    Ok(())
}

static FIRST_LINE: &str =
    "00010000-0001-8001-8000-000000000000 1970-01-01T00:16:40Z 1970-01-01T00:16:40Z good 18\n";

static LAST_LINE: &str =
    "00010000-0001-8001-8000-000000320000 1970-01-01T00:16:40Z 1970-01-01T00:16:40Z good 18\n";

// Puts so many records; whether all were kept.
fn fills<Q: Keeper>(keeper: &mut Q, alloc: Global, count: u32) -> bool {
    for number in 0..count {
        if !puts(keeper, alloc, number, 1_000, GOOD) {
            return false;
        }
    }
    true
}

fn lists<Q: Keeper>(keeper: &mut Q, alloc: Global, page: u32, text: &str) -> bool
    requires first { 1 ≤ page }
    requires last { page ≤ 1_000_000 }
{
    match listing(alloc, keeper, page) {
        Ok(told) => told.is(text),
        Err(_) => false,
    }
}

#[test]
fn pages_have_fifty_lines(rt: HostRuntime) -> Result<(), Fail> {
    let alloc = rt.alloc();
    let mut keeper = keeper(alloc);
    assert!(rt; fills(&mut keeper, alloc, 1) && lists(&mut keeper, alloc, 1, FIRST_LINE));
    assert!(rt; fills(&mut keeper, alloc, 51) && lists(&mut keeper, alloc, 2, LAST_LINE));
    assert!(rt; lists(&mut keeper, alloc, 3, ""));
    Ok(())
}

static LARGE: &str =
    "task 00010000-0001-8000-8000-000000000000      129      129        0\nday 1970-01-01      129      129        0\ntotal      129      129        0\n";

// The first call behind 129 puts reads the first piece, and the second one fails.
#[test]
fn a_walk_goes_over_all_pieces_or_fails(rt: HostRuntime) -> Result<(), Fail> {
    let alloc = rt.alloc();
    let mut keeper = failing(alloc, 131)?;
    assert!(rt; fills(&mut keeper, alloc, 129));
    assert!(rt;
        matches!(
            report(alloc, &mut keeper, 0, 2_000),
            Err(KeeperFault::Failed)
        )
    );
    assert!(rt; reports(&mut keeper, alloc, 0, 2_000, LARGE));
    Ok(())
}
