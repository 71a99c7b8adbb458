//! A fault at each disk call of a snapshot, of an append and of a cut, `reload` after it, and one more
//! append.
use crate::calls::{OLDER, ONE_RECORD, add, disk_of, goes_on, journal_of, journal_on, snap};
use host_journal::journal::Journal;
use ps_disks::memory_disk::MemoryDisk;
use ps_disks::rack::{FRESH_FIRST, FRESH_SECOND};
use ps_time::memory::Memory;
use std::alloc::Global;
use std::test::Fail;

// A `reload` whose first sync fails, which makes no other call, and then one that answers this.
fn reloads(journal: &mut Journal<MemoryDisk>, stood: bool) -> bool {
    if journal.is_ready() {
        return false;
    }
    let before = journal.calls();
    journal.fail_at(Some(1));
    let failed = journal.reload().is_err();
    journal.fail_at(None);
    if !failed || journal.is_ready() || journal.calls().1 != before.1 {
        return false;
    }
    match journal.reload() {
        Ok(found) => found == stood && journal.is_ready(),
        Err(_fault) => false,
    }
}

// A journal on these disks, of which this call from now on fails.
fn armed(alloc: Global, first: &[u8], call: u64) -> Result<Option<Journal<MemoryDisk>>, Memory> {
    let Some(mut journal) = journal_on(alloc, first, &OLDER)? else {
        return Ok(None);
    };
    journal.fail_at(Some(call));
    Ok(Some(journal))
}

// Which of the seven calls of a snapshot fails, and whether it stands then as the disks read.
static SNAPSHOT_FAULTS: [(u64, bool); 7] = [
    (1, false),
    (2, false),
    (3, false),
    (4, false),
    (5, false),
    (6, false),
    (7, true),
];

fn snapshot_fails(journal: &mut Journal<MemoryDisk>) -> Result<bool, Memory> {
    Ok(!snap(journal, &[0xab])? && reloads(journal, false))
}

fn snapshot_reloads(alloc: Global, call: u64, stands: bool) -> Result<bool, Memory> {
    let Some(mut journal) = armed(alloc, &ONE_RECORD, call)? else {
        return Ok(false);
    };
    if !snapshot_fails(&mut journal)? {
        return Ok(false);
    }
    if stands {
        Ok(journal.generation() == 2 && goes_on(alloc, journal, &[&[0xab], &[3]])?)
    } else {
        Ok(journal.generation() == 1 && goes_on(alloc, journal, &[&[], &[1, 2], &[3]])?)
    }
}

fn check_snapshots(alloc: Global, rows: &[(u64, bool)]) -> Result<(), Fail> {
    for (call, stands) in rows {
        if !snapshot_reloads(alloc, *call, *stands)? {
            return Err(Fail::new(format_args!("{call}")));
        }
    }
    Ok(())
}

#[test]
fn a_snapshot_that_fails_and_a_reload(rt: HostRuntime) -> Result<(), Fail> {
    check_snapshots(rt.alloc(), &SNAPSHOT_FAULTS)
}

// Which of the four calls of an append of 01 02 fails, and whether its record stands then.
static APPEND_FAULTS: [(u64, bool); 4] = [(1, false), (2, false), (3, false), (4, true)];

fn append_fails(journal: &mut Journal<MemoryDisk>, stands: bool) -> Result<bool, Memory> {
    Ok(!add(journal, &[1, 2])? && reloads(journal, stands))
}

fn append_reloads(alloc: Global, call: u64, stands: bool) -> Result<bool, Memory> {
    let Some(mut journal) = armed(alloc, &FRESH_FIRST, call)? else {
        return Ok(false);
    };
    if !append_fails(&mut journal, stands)? {
        return Ok(false);
    }
    if stands {
        Ok(journal.record_bytes() == 7 && goes_on(alloc, journal, &[&[], &[1, 2], &[3]])?)
    } else {
        Ok(journal.record_bytes() == 0 && goes_on(alloc, journal, &[&[], &[3]])?)
    }
}

fn check_appends(alloc: Global, rows: &[(u64, bool)]) -> Result<(), Fail> {
    for (call, stands) in rows {
        if !append_reloads(alloc, *call, *stands)? {
            return Err(Fail::new(format_args!("{call}")));
        }
    }
    Ok(())
}

#[test]
fn an_append_that_fails_and_a_reload(rt: HostRuntime) -> Result<(), Fail> {
    check_appends(rt.alloc(), &APPEND_FAULTS)
}

// The record 01 02, and two bytes behind its last gate byte that are nobody's.
const WITH_TAIL: [u8; 31] =
    *b"PSCHJRN1\x01\0\0\0\0\0\0\0\x01\0\0\0\0\x01\0\0\0\x02\x01\x02\0\x08\x09";

fn cut_fails(journal: &mut Journal<MemoryDisk>) -> bool {
    journal.is_ready() && journal.cut_tail().is_err() && reloads(journal, false)
}

// One of the two calls of a cut fails.
fn cut_reloads(alloc: Global, call: u64) -> Result<bool, Memory> {
    let Some(mut journal) = armed(alloc, &WITH_TAIL, call)? else {
        return Ok(false);
    };
    if !cut_fails(&mut journal) || journal.record_bytes() != 7 {
        return Ok(false);
    }
    goes_on(alloc, journal, &[&[], &[1, 2], &[3]])
}

#[test]
fn a_cut_that_fails_and_a_reload(rt: HostRuntime) -> Result<(), Fail> {
    for call in 1..3u64 {
        if !cut_reloads(rt.alloc(), call)? {
            return Err(Fail::new(format_args!("{call}")));
        }
    }
    Ok(())
}

// A journal on a new pair of which the calls with these numbers fail, reads counted too. The opening makes
// three calls on each disk: a sync, a read of the head, and a read of the first gate byte or, on the second
// disk, at the end. Then it finds the length of the first disk, which counts, by 17 reads of a byte, and
// reads it with a read and a read at the end: 22 calls there.
fn failing(
    alloc: Global,
    first: &[u64],
    second: &[u64],
) -> Result<Option<Journal<MemoryDisk>>, Memory> {
    let first = disk_of(alloc, &FRESH_FIRST, first)?;
    let second = disk_of(alloc, &FRESH_SECOND, second)?;
    Ok(journal_of(alloc, (first, second)))
}

// `reload` answers so, and the next call of the disk that counts fails: it was the last one.
fn reloads_with(journal: &mut Journal<MemoryDisk>, stood: bool) -> Result<bool, Memory> {
    if journal.is_ready() || !matches!(journal.reload(), Ok(found) if found == stood) {
        return Ok(false);
    }
    Ok(!add(journal, &[3])?)
}

// After an append a sync and the read of one gate byte: calls 27 and 28.
fn append_reads(alloc: Global) -> Result<bool, Memory> {
    match failing(alloc, &[26, 29], &[])? {
        Some(mut journal) => Ok(!add(&mut journal, &[1, 2])? && reloads_with(&mut journal, true)?),
        None => Ok(false),
    }
}

// After a snapshot the same on the other disk: calls 11 and 12.
fn snapshot_reads(alloc: Global) -> Result<bool, Memory> {
    match failing(alloc, &[], &[10, 13])? {
        Some(mut journal) => Ok(
            !snap(&mut journal, &[0xab])? && reloads_with(&mut journal, false)?,
        ),
        None => Ok(false),
    }
}

// After a cut a sync alone: call 24.
fn cut_reads(alloc: Global) -> Result<bool, Memory> {
    match failing(alloc, &[23, 25], &[])? {
        Some(mut journal) => Ok(
            journal.is_ready() && journal.cut_tail().is_err() && reloads_with(&mut journal, false)?,
        ),
        None => Ok(false),
    }
}

#[test]
fn a_reload_reads_one_gate_or_none(rt: HostRuntime) -> Result<(), Fail> {
    assert!(rt; append_reads(rt.alloc())?);
    assert!(rt; snapshot_reads(rt.alloc())?);
    assert!(rt; cut_reads(rt.alloc())?);
    Ok(())
}
