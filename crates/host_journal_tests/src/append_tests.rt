//! Records: bytes worked out by hand, stops and faults at each disk call, and one more append after
//! each of them.
use crate::calls::{ONE_RECORD, Pair, add, found, gives_back, journal_on, stands_for};
use host_journal::journal::Journal;
use ps_disks::image::Image;
use ps_disks::memory_disk::MemoryDisk;
use ps_disks::rack::{FRESH_FIRST, FRESH_SECOND};
use ps_time::memory::Memory;
use std::alloc::Global;
use std::process::Abort;
use std::test::Fail;

fn has_record(alloc: Global, pair: Pair, stands: bool) -> Result<bool, Memory> {
    if stands {
        stands_for(alloc, pair, &[&[], &[1, 2]], &[&[], &[1, 2], &[3]])
    } else {
        stands_for(alloc, pair, &[&[]], &[&[], &[3]])
    }
}

// A first gate byte that is torn to 7, and bytes behind it that are nobody's: two, and ten.
const TORN_GATE: [u8; 24] = *b"PSCHJRN1\x01\0\0\0\0\0\0\0\x01\0\0\0\0\x07\x08\x09";

const LONG_TAIL: [u8; 32] =
    *b"PSCHJRN1\x01\0\0\0\0\0\0\0\x01\0\0\0\0\x07\x01\x02\x03\x04\x05\x06\x07\x08\x09\x0a";

// The first disk, and what it reads after a call.
type Bytes = (&'static [u8], &'static [u8]);

// After an append of 01 02.
static APPENDS: [Bytes; 3] = [
    (&FRESH_FIRST, &ONE_RECORD),
    (&TORN_GATE, &ONE_RECORD),
    (
        &LONG_TAIL,
        b"PSCHJRN1\x01\0\0\0\0\0\0\0\x01\0\0\0\0\x01\0\0\0\x02\x01\x02\0\x08\x09\x0a",
    ),
];

// A journal on this first disk and a new second one, after an append of 01 02.
fn appended(alloc: Global, first: &[u8]) -> Result<Option<Journal<MemoryDisk>>, Memory> {
    match journal_on(alloc, first, &FRESH_SECOND)? {
        Some(journal) => with_record(journal),
        None => Ok(None),
    }
}

fn with_record(journal: Journal<MemoryDisk>) -> Result<Option<Journal<MemoryDisk>>, Memory> {
    let mut journal = journal;
    if add(&mut journal, &[1, 2])? {
        Ok(Some(journal))
    } else {
        Ok(None)
    }
}

fn has_bytes(journal: Journal<MemoryDisk>, wanted: &[u8]) -> bool {
    if journal.record_bytes() != 7 || journal.calls() != (5, 1) {
        return false;
    }
    gives_back(journal, wanted, &FRESH_SECOND)
}

fn check_appends(alloc: Global, rows: &[Bytes]) -> Result<(), Fail> {
    for (first, wanted) in rows {
        let right = match appended(alloc, first)? {
            Some(journal) => has_bytes(journal, wanted),
            None => false,
        };
        if !right {
            return Err(Fail::new(format_args!("{first:?}")));
        }
    }
    Ok(())
}

#[test]
fn the_bytes_of_an_append(rt: HostRuntime) -> Result<(), Fail> {
    check_appends(rt.alloc(), &APPENDS)
}

// After so many of the four calls that an append makes on the first disk: whether the record stands in the old image, in the
// new one and in the torn one.
static STOPS: [(u64, bool, bool, bool); 5] = [
    (0, false, false, false),
    (1, false, false, false),
    (2, false, false, false),
    (3, false, true, false),
    (4, true, true, true),
];

// The call after so many fails, so that they are all that were made.
fn left(alloc: Global, calls: u64, image: Image) -> Result<Option<Pair>, Memory> {
    let Some(mut journal) = journal_on(alloc, &FRESH_FIRST, &FRESH_SECOND)? else {
        return Ok(None);
    };
    journal.fail_at(Some(calls.saturating_add(1)));
    if add(&mut journal, &[1, 2])? != (calls == 4) {
        return Ok(None);
    }
    journal.fail_at(None);
    let (first, second) = journal.into_disks();
    // With the sync of the opening, and the call that failed.
    if first.calls() != calls.saturating_add(2).min(5) {
        return Ok(None);
    }
    Ok(Some((first.crashed(image)?, second)))
}

fn is_left(alloc: Global, calls: u64, image: Image, stands: bool) -> Result<bool, Memory> {
    match left(alloc, calls, image)? {
        Some(pair) => has_record(alloc, pair, stands),
        None => Ok(false),
    }
}

fn check_stops(alloc: Global, rows: &[(u64, bool, bool, bool)]) -> Result<(), Fail> {
    for (calls, old, new, torn) in rows {
        if !is_left(alloc, *calls, Image::Old, *old)? {
            return Err(Fail::new(format_args!("old, {calls}")));
        }
        if !is_left(alloc, *calls, Image::New, *new)? {
            return Err(Fail::new(format_args!("new, {calls}")));
        }
        if !is_left(alloc, *calls, Image::Torn, *torn)? {
            return Err(Fail::new(format_args!("torn, {calls}")));
        }
    }
    Ok(())
}

#[test]
fn an_append_that_is_stopped(rt: HostRuntime) -> Result<(), Fail> {
    check_stops(rt.alloc(), &STOPS)
}

// Which of the four calls fails, and whether the record stands then as the disks read.
static FAULTS: [(u64, bool); 4] = [(1, false), (2, false), (3, false), (4, true)];

fn failed(alloc: Global, call: u64) -> Result<Option<Pair>, Memory> {
    let Some(mut journal) = journal_on(alloc, &FRESH_FIRST, &FRESH_SECOND)? else {
        return Ok(None);
    };
    journal.fail_at(Some(call));
    if add(&mut journal, &[1, 2])? || journal.is_ready() || journal.record_bytes() != 0 {
        return Ok(None);
    }
    Ok(Some(journal.into_disks()))
}

fn has_fault(pair: &Pair, call: u64) -> bool {
    pair.0.calls().checked_sub(1) == Some(call) && pair.0.faults() == 1 && pair.1.faults() == 0
}

fn unarmed(pair: Pair) -> Pair {
    let (first, mut second) = pair;
    second.fail_at(None);
    (first, second)
}

fn fails_at(alloc: Global, call: u64, stands: bool) -> Result<bool, Memory> {
    match failed(alloc, call)? {
        Some(pair) => Ok(has_fault(&pair, call) && has_record(alloc, unarmed(pair), stands)?),
        None => Ok(false),
    }
}

fn check_faults(alloc: Global, rows: &[(u64, bool)]) -> Result<(), Fail> {
    for (call, stands) in rows {
        if !fails_at(alloc, *call, *stands)? {
            return Err(Fail::new(format_args!("{call}")));
        }
    }
    Ok(())
}

#[test]
fn an_append_that_fails(rt: HostRuntime) -> Result<(), Fail> {
    check_faults(rt.alloc(), &FAULTS)
}

// After a cut of its tail.
static CUTS: [Bytes; 4] = [
    (&FRESH_FIRST, &FRESH_FIRST),
    (&TORN_GATE, b"PSCHJRN1\x01\0\0\0\0\0\0\0\x01\0\0\0\0\x07"),
    (&LONG_TAIL, b"PSCHJRN1\x01\0\0\0\0\0\0\0\x01\0\0\0\0\x07"),
    (
        b"PSCHJRN1\x01\0\0\0\0\0\0\0\x01\0\0\0\0\x01\0\0\0\x02\x01\x02\0\x01\x01",
        &ONE_RECORD,
    ),
];

fn is_cut(journal: Journal<MemoryDisk>, wanted: &[u8]) -> bool {
    let mut journal = journal;
    if !journal.is_ready() || journal.cut_tail().is_err() || journal.calls() != (3, 1) {
        return false;
    }
    gives_back(journal, wanted, &FRESH_SECOND)
}

fn check_cuts(alloc: Global, rows: &[Bytes]) -> Result<(), Fail> {
    for (first, wanted) in rows {
        let right = match journal_on(alloc, first, &FRESH_SECOND)? {
            Some(journal) => is_cut(journal, wanted),
            None => false,
        };
        if !right {
            return Err(Fail::new(format_args!("{first:?}")));
        }
    }
    Ok(())
}

#[test]
fn tails_are_cut(rt: HostRuntime) -> Result<(), Fail> {
    check_cuts(rt.alloc(), &CUTS)
}

fn add_many(journal: &mut Journal<MemoryDisk>, count: u64) -> Result<bool, Memory> {
    for _ in 0..count {
        if !add(journal, b"record")? {
            return Ok(false);
        }
    }
    Ok(true)
}

fn listed(alloc: Global, pair: Pair) -> Option<usize> {
    match found(alloc, pair) {
        Some((_journal, list)) => Some(list.len()),
        None => None,
    }
}

fn has_many(alloc: Global, journal: Journal<MemoryDisk>) -> Result<bool, Memory> {
    let mut journal = journal;
    if !add_many(&mut journal, 10_000)? || journal.record_bytes() != 110_000 {
        return Ok(false);
    }
    Ok(listed(alloc, journal.into_disks()) == Some(10_001))
}

#[test]
fn many_appends_and_one_opening(rt: HostRuntime) -> Result<(), Fail> {
    let alloc = rt.alloc();
    let has_all = match journal_on(alloc, &FRESH_FIRST, &FRESH_SECOND)? {
        Some(journal) => has_many(alloc, journal)?,
        None => false,
    };
    assert!(rt; has_all);
    Ok(())
}
