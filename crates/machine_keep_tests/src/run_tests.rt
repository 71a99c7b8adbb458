//! Keepers of one number that make several calls of a journal in a row. What a crash may leave at any
//! moment of such a run follows from the journal's clauses alone.
ghost use Rattle.std.specs.Prelude.{◌≡◌, ◌⊎◌, ◌+◌, ◌-◌, ◌≤◌, ◌<◌, ◌^◌, List, ℕ, IsTrue, IfOk, OnOk, length};
ghost use Rattle.ps_disks.specs.Disk.{Only};
ghost use Rattle.host_journal.specs.Moments.{Adds, LeftIn, LiesBeside, Shows};
ghost use Rattle.host_journal.specs.Pair.{pair_of};
ghost use Rattle.host_journal.specs.State.{is_ready, stored, EachSince, snapshot_of, first_disk, second_disk};
ghost use Rattle.machine_keep_tests.specs.Kept.{IsMade};

use crate::disks::{Pair, pair_on};
use crate::journals::{list_of, new_journal};
use host_journal::fault::{DiskFault, OpenFault};
use host_journal::journal::Journal;
use ps_disks::disk::Disk;
use ps_disks::rack::FRESH_FIRST;
use ps_time::memory::Memory;
use std::alloc::Global;
use std::test::Fail;

// Makes a snapshot of a number, written into the journal's buffer.
fn snap_number<D: Disk>(journal: &mut Journal<D>, number: &[u8]) -> Result<(), DiskFault>
    requires ready { IsTrue (is_ready journal.old.pending) }
    requires room { length number.now + 13 ≤ journal.old.room }
    requires bound { length number.now ≤ 8388608 }
    requires generation { journal.old.generation < 2 ^ 64 - 1 }
    ensures adds { D.premise → Adds D.moment D.left_since journal.old journal.new (λ second c. LiesBeside (stored D.seen journal.old) second c ⊎ Shows (snapshot_of number.now journal.old) second c) }
    ensures counts { D.premise → OnOk result (stored D.seen journal.new ≡ snapshot_of number.now journal.old) }
    ensures ready { OnOk result (IsTrue (is_ready journal.new.pending)) }
    ensures room { length number.now + 13 ≤ journal.new.room }
{
    let mut image = journal.begin_image();
    let _written = image.write(number);
    journal.snapshot(image)
}

/// Adds a number, and then makes a snapshot of it alone. At every moment of both calls, each disk at one
/// of its own, the disks stand for the list before, or for one with this number at its end.
fn turn<D: Disk>(journal: &mut Journal<D>, number: &[u8]) -> Result<(), DiskFault>
    requires ready { IsTrue (is_ready journal.old.pending) }
    requires room { length number.now + 13 ≤ journal.old.room }
    requires bound { length number.now ≤ 8388608 }
    requires generation { journal.old.generation < 2 ^ 64 - 1 }
    ensures any_moment { D.premise → EachSince D.moment D.left_since journal.old journal.new (λ pair. (pair ≡ stored D.seen journal.old) ⊎ IsMade number.now (stored D.seen journal.old) pair) }
{
    journal.known();
    journal.append(number)?;
    snap_number(journal, number)
}

/// Cuts the tail, makes a snapshot of a number, and adds it once more.
fn settle<D: Disk>(journal: &mut Journal<D>, number: &[u8]) -> Result<(), DiskFault>
    requires ready { IsTrue (is_ready journal.old.pending) }
    requires room { length number.now + 13 ≤ journal.old.room }
    requires bound { length number.now ≤ 8388608 }
    requires generation { journal.old.generation < 2 ^ 64 - 1 }
    ensures adds { D.premise → Adds D.moment D.left_since journal.old journal.new (LeftIn (stored D.seen journal.old) (IsMade number.now (stored D.seen journal.old))) }
{
    journal.known();
    journal.cut_tail()?;
    snap_number(journal, number)?;
    journal.append(number)
}

// The same where there is room and a generation for it. Answers whether it is done.
fn settle_if<D: Disk>(journal: &mut Journal<D>, number: &[u8]) -> bool
    requires ready { IsTrue (is_ready journal.old.pending) }
    ensures adds { D.premise → Adds D.moment D.left_since journal.old journal.new (LeftIn (stored D.seen journal.old) (IsMade number.now (stored D.seen journal.old))) }
{
    if number.len() > 8_388_608 || journal.generation() == u64::MAX {
        return false;
    }
    if journal.reserve(number.len()).is_err() {
        return false;
    }
    settle(journal, number).is_ok()
}

/// Opens a keeper: the tail is cut, a snapshot of the number is made, and it is added. Answers whether
/// all of that is done.
fn open_keeper<D: Disk>(
    alloc: Global,
    first: D,
    second: D,
    number: &[u8],
) -> Result<(Journal<D>, bool), OpenFault<D>>
    // At every moment since the opening began, each disk at one of its own: an image is one that a crash
    // could have left of its disk as the opening began, or both are of the calls after the syncs.
    ensures any_moment { D.premise → IfOk result (λ r. (c d : List ℕ) → D.left_since (first_disk r.0) (D.moment first) c → D.left_since (second_disk r.0) (D.moment second) d
        → (D.may_leave first c ⊎ D.may_leave second d) ⊎ ((pair_of c d ≡ pair_of (D.seen first) (D.seen second)) ⊎ IsMade number.now (pair_of (D.seen first) (D.seen second)) (pair_of c d))) }
    // Where a crash could leave nothing but what the disks read as the opening began.
    ensures fixed { D.premise → Only (D.seen first) (D.may_leave first) → Only (D.seen second) (D.may_leave second)
        → IfOk result (λ r. (c d : List ℕ) → D.left_since (first_disk r.0) (D.moment first) c → D.left_since (second_disk r.0) (D.moment second) d
        → (pair_of c d ≡ pair_of (D.seen first) (D.seen second)) ⊎ IsMade number.now (pair_of (D.seen first) (D.seen second)) (pair_of c d)) }
{
    match Journal::open(alloc, first, second) {
        Ok((journal, _list)) => {
            let mut journal = journal;
            let done = settle_if(&mut journal, number);
            Ok((journal, done))
        }
        Err(fault) => Err(fault),
    }
}

// A new pair in which a number is turned.
fn turned(alloc: Global, number: &[u8]) -> Result<Option<Pair>, Memory> {
    let Some(mut journal) = new_journal(alloc)? else {
        return Ok(None);
    };
    journal.reserve(number.len())?;
    if !journal.is_ready() || journal.generation() == u64::MAX || number.len() > 8 {
        return Ok(None);
    }
    if turn(&mut journal, number).is_err() {
        return Ok(None);
    }
    Ok(Some(journal.into_disks()))
}

fn turns(alloc: Global) -> Result<bool, Memory> {
    match turned(alloc, &[7, 7])? {
        Some(pair) => Ok(is_once(alloc, pair, &[7, 7])),
        None => Ok(false),
    }
}

// The number is the snapshot, and there is no record.
fn is_once(alloc: Global, pair: Pair, number: &[u8]) -> bool {
    match list_of(alloc, pair) {
        Some(list) => list.len() == 1 && list[0].as_slice() == number,
        None => false,
    }
}

#[test]
fn a_number_is_added_and_then_the_snapshot(rt: HostRuntime) -> Result<(), Fail> {
    assert!(rt; turns(rt.alloc())?);
    Ok(())
}

fn opens(alloc: Global) -> Result<bool, Memory> {
    let (first, second) = pair_on(alloc, &FRESH_FIRST)?;
    match open_keeper(alloc, first, second, &[9]) {
        Ok((journal, done)) => Ok(done && is_twice(alloc, journal.into_disks(), &[9])),
        Err(_fault) => Ok(false),
    }
}

// The number is the snapshot, and the one record too.
fn is_twice(alloc: Global, pair: Pair, number: &[u8]) -> bool {
    match list_of(alloc, pair) {
        Some(list) => {
            list.len() == 2 && list[0].as_slice() == number && list[1].as_slice() == number
        }
        None => false,
    }
}

#[test]
fn a_keeper_opens_with_three_calls(rt: HostRuntime) -> Result<(), Fail> {
    assert!(rt; opens(rt.alloc())?);
    Ok(())
}
