//! When the disks of the hosts of a rehearsal are written: as each step is made, and not at the end.
ghost use Rattle.rehearsal_script.specs.Lawful.{IsLawful};

use crate::scripts::script;
use archivers::plain::PlainArchivers;
use ps_time::memory::Memory;
use psched_rehearse::rehearse::{Disks, Rehearsed, run_script};
use rehearsal_script::script::Script;
use std::alloc::Global;
use std::process::Abort;
use std::test::Fail;

// What a line says is how many writes, cuts and syncs the two disks of the only host of a script have got in the end. An opening
// syncs both, makes a snapshot on the second, and keeps the limits there; a step that changes the book makes four calls on that
// disk, and another one makes none. A host that was opened again on what a crash left has new disks, of which both were synced.
static CALLS: &str = "\
1 12 <- host a 1
1 16 <- host a 1|0 a book exclusive 0 100 10
1 16 <- host a 1|0 a book exclusive 0 100 10|0 a book exclusive 0 105 10
1 16 <- host a 1|0 a book exclusive 0 100 10|0 a get /pscheduler/clock|0 a get no-path|0 a turn
1 20 <- host a 1|0 a book exclusive 0 100 10|100 a turn
1 24 <- host a 1|0 a book exclusive 0 100 10|100 a turn|110 a turn
1 1 <- host a 1|0 a book exclusive 0 100 10|0 a crash 0 old|0 a turn
1 5 <- host a 1|0 a crash 2 torn|0 a book exclusive 0 100 10|0 a book exclusive 0 100 10
1 1 <- host a 1|0 a crash 4 new|0 a book exclusive 0 100 10|0 a book exclusive 0 100 10";

fn calls(disks: &[Disks]) -> (u64, u64) {
    match disks {
        [(first, second)] => (first.calls(), second.calls()),
        _ => (0, 0),
    }
}

fn ran(alloc: Global, script: &Script) -> Result<(u64, u64), Memory>
    requires { IsLawful script.now }
{
    let mut archivers = PlainArchivers::new();
    let Rehearsed { report, disks } = run_script(alloc, script, &mut archivers)?;
    let counted = calls(disks.as_slice());
    drop((report, disks));
    Ok(counted)
}

fn is_told(alloc: Global, text: &str, wanted: &str) -> Result<bool, Fail> {
    let script = script(alloc, text)?;
    let (first, second) = ran(alloc, &script)?;
    let told = format!(in alloc; "{first} {second}")?;
    Ok(told.as_str() == wanted)
}

fn check_calls(rt: &impl Abort, alloc: Global, cases: &str) -> Result<(), Fail> {
    for case in cases.split('\n') {
        let (wanted, text) = case.split_once(" <- ").ok_or("no script")?;
        assert!(rt; is_told(alloc, text, wanted)?, "{wanted} at {text}");
    }
    Ok(())
}

#[test]
fn disks_are_written_by_each_step(rt: HostRuntime) -> Result<(), Fail> {
    check_calls(&rt, rt.alloc(), CALLS)
}
