//! Snapshots: bytes worked out by hand, and stops at each disk call.
use crate::calls::{OLDER, ONE_RECORD, Pair, SNAPSHOT, gives_back, journal_on, snap, stands_for};
use host_journal::journal::Journal;
use ps_disks::image::Image;
use ps_disks::memory_disk::MemoryDisk;
use ps_disks::rack::{FRESH_FIRST, FRESH_SECOND};
use ps_time::memory::Memory;
use std::alloc::Global;
use std::test::Fail;

// A snapshot of ab, of generation 3.
const THIRD_IMAGE: [u8; 23] = *b"PSCHJRN1\x01\0\0\0\0\0\0\0\x03\0\0\0\x01\xab\0";

// The first disk and the second; what they read after a snapshot of ab; their calls with the sync of
// the opening.
type Row = (
    &'static [u8],
    &'static [u8],
    &'static [u8],
    &'static [u8],
    (u64, u64),
);

static SNAPSHOTS: [Row; 3] = [
    (&FRESH_FIRST, &FRESH_SECOND, &FRESH_FIRST, &SNAPSHOT, (1, 8)),
    (&ONE_RECORD, &OLDER, &ONE_RECORD, &SNAPSHOT, (1, 8)),
    (&ONE_RECORD, &SNAPSHOT, &THIRD_IMAGE, &SNAPSHOT, (8, 1)),
];

// A journal on these disks, after a snapshot of ab.
fn snapped(
    alloc: Global,
    first: &[u8],
    second: &[u8],
) -> Result<Option<Journal<MemoryDisk>>, Memory> {
    match journal_on(alloc, first, second)? {
        Some(journal) => with_snapshot(journal),
        None => Ok(None),
    }
}

fn with_snapshot(journal: Journal<MemoryDisk>) -> Result<Option<Journal<MemoryDisk>>, Memory> {
    let mut journal = journal;
    if snap(&mut journal, &[0xab])? {
        Ok(Some(journal))
    } else {
        Ok(None)
    }
}

fn has_bytes(journal: Journal<MemoryDisk>, row: &Row) -> bool {
    let (_first, _second, wanted, wanted_too, calls) = row;
    if journal.record_bytes() != 0 || journal.calls() != *calls {
        return false;
    }
    gives_back(journal, wanted, wanted_too)
}

fn check_snapshots(alloc: Global, rows: &[Row]) -> Result<(), Fail> {
    for row in rows {
        let (first, second) = (row.0, row.1);
        let right = match snapped(alloc, first, second)? {
            Some(journal) => has_bytes(journal, row),
            None => false,
        };
        if !right {
            return Err(Fail::new(format_args!("{first:?} and {second:?}")));
        }
    }
    Ok(())
}

#[test]
fn the_bytes_of_a_snapshot(rt: HostRuntime) -> Result<(), Fail> {
    check_snapshots(rt.alloc(), &SNAPSHOTS)
}

fn has_image(alloc: Global, pair: Pair, stands: bool) -> Result<bool, Memory> {
    if stands {
        stands_for(alloc, pair, &[&[0xab]], &[&[0xab], &[3]])
    } else {
        stands_for(alloc, pair, &[&[], &[1, 2]], &[&[], &[1, 2], &[3]])
    }
}

// After so many of the seven calls that a snapshot makes on the second disk: whether it stands in the old image, in the new
// one and in the torn one.
static STOPS: [(u64, bool, bool, bool); 8] = [
    (0, false, false, false),
    (1, false, false, false),
    (2, false, false, false),
    (3, false, false, false),
    (4, false, false, false),
    (5, false, false, false),
    (6, false, true, false),
    (7, true, true, true),
];

// The call after so many fails, so that they are all that were made.
fn left(alloc: Global, calls: u64, image: Image) -> Result<Option<Pair>, Memory> {
    let Some(mut journal) = journal_on(alloc, &ONE_RECORD, &OLDER)? else {
        return Ok(None);
    };
    journal.fail_at(Some(calls.saturating_add(1)));
    if snap(&mut journal, &[0xab])? != (calls == 7) {
        return Ok(None);
    }
    journal.fail_at(None);
    let (first, second) = journal.into_disks();
    // With the sync of the opening, and the call that failed.
    if second.calls() != calls.saturating_add(2).min(8) {
        return Ok(None);
    }
    Ok(Some((first, second.crashed(image)?)))
}

fn is_left(alloc: Global, calls: u64, image: Image, stands: bool) -> Result<bool, Memory> {
    match left(alloc, calls, image)? {
        Some(pair) => has_image(alloc, pair, stands),
        None => Ok(false),
    }
}

fn check_stops(alloc: Global, rows: &[(u64, bool, bool, bool)]) -> Result<(), Fail> {
    for (calls, old, new, torn) in rows {
        if !is_left(alloc, *calls, Image::Old, *old)? {
            return Err(Fail::new(format_args!("old, {calls}")));
        }
        if !is_left(alloc, *calls, Image::New, *new)? {
            return Err(Fail::new(format_args!("new, {calls}")));
        }
        if !is_left(alloc, *calls, Image::Torn, *torn)? {
            return Err(Fail::new(format_args!("torn, {calls}")));
        }
    }
    Ok(())
}

#[test]
fn a_snapshot_that_is_stopped(rt: HostRuntime) -> Result<(), Fail> {
    check_stops(rt.alloc(), &STOPS)
}
