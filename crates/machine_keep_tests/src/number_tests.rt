//! A keeper of one number over a journal: its clauses follow from the journal's alone.
ghost use Rattle.std.specs.Prelude.{◌≡◌, ◌+◌, ◌≤◌, IsTrue, IfOk, OnOk, length};
ghost use Rattle.host_journal.specs.State.{is_ready, stored, which, EachImage};

use crate::disks::Pair;
use crate::journals::{list_of, new_journal};
use host_journal::fault::DiskFault;
use host_journal::journal::Journal;
use ps_disks::disk::Disk;
use ps_disks::memory_disk::MemoryDisk;
use ps_time::memory::Memory;
use std::alloc::Global;
use std::process::Abort;
use std::test::Fail;

/// Keeps a number. After a fault it takes the journal up, and answers whether the number is kept.
fn keep<D: Disk>(journal: &mut Journal<D>, number: &[u8]) -> Result<bool, DiskFault>
    requires ready { IsTrue (is_ready journal.old.pending) }
    requires room { length number.now + 13 ≤ journal.old.room }
    requires bound { length number.now ≤ 8388608 }
    ensures kept { D.premise → IfOk result (λ stood. EachImage D.may_leave journal.new (λ pair. pair ≡ which number.now stood (stored D.seen journal.old))) }
    ensures ready { OnOk result (IsTrue (is_ready journal.new.pending)) }
    ensures room { OnOk result (length number.now + 13 ≤ journal.new.room) }
{
    if journal.append(number).is_ok() {
        return Ok(true);
    }
    journal.reload()
}

// Keeps a number while this call of the disk that counts fails, and answers whether it is kept then.
fn kept(
    journal: &mut Journal<MemoryDisk>,
    number: u64,
    call: Option<u64>,
) -> Result<Option<bool>, Memory> {
    journal.reserve(8)?;
    journal.fail_at(call);
    if !journal.is_ready() {
        return Ok(None);
    }
    Ok(keep(journal, &number.to_be_bytes()).ok())
}

// A number, the call that fails, and whether the number is kept.
static KEPT: [(u64, Option<u64>, bool); 4] = [
    (7, None, true),
    (8, Some(2), false),
    (9, Some(4), true),
    (10, Some(3), false),
];

fn keeps_each(
    journal: &mut Journal<MemoryDisk>,
    rows: &[(u64, Option<u64>, bool)],
) -> Result<bool, Memory> {
    for (number, call, wanted) in rows {
        if kept(journal, *number, *call)? != Some(*wanted) {
            return Ok(false);
        }
    }
    Ok(true)
}

// The pair has two numbers behind its snapshot, and this is the last one.
fn is_last(alloc: Global, pair: Pair, number: u64) -> bool {
    match list_of(alloc, pair) {
        Some(list) => list.len() == 3 && list[2].as_slice() == number.to_be_bytes().as_slice(),
        None => false,
    }
}

fn all_kept(alloc: Global) -> Result<bool, Memory> {
    let Some(mut journal) = new_journal(alloc)? else {
        return Ok(false);
    };
    if !keeps_each(&mut journal, &KEPT)? {
        return Ok(false);
    }
    Ok(is_last(alloc, journal.into_disks(), 9))
}

#[test]
fn a_keeper_of_one_number(rt: HostRuntime) -> Result<(), Fail> {
    assert!(rt; all_kept(rt.alloc())?);
    Ok(())
}
