//! What the bytes of two disks stand for: pairs worked out by hand from the format.
ghost use Rattle.std.specs.Prelude.{◌+◌, ◌<◌, ◌^◌, ℕ, length, take};
ghost use Rattle.host_journal.specs.Format.{record_bytes};

use crate::calls::{ONE_RECORD, Pair, SNAPSHOT, add, gives_back, opened, pair_of};
use host_journal::fault::OpenReason;
use host_journal::journal::Journal;
use host_journal::reading::{DiskPlace, item_place};
use ps_disks::memory_disk::MemoryDisk;
use ps_disks::rack::{FRESH_FIRST, FRESH_SECOND};
use ps_time::items::Items;
use ps_time::memory::Memory;
use std::alloc::Global;
use std::process::Abort;
use std::test::Fail;

// The bytes 01 02, appended to a new pair, its gate byte torn to 7, which is closed.
const TORN_GATE: [u8; 29] = *b"PSCHJRN1\x01\0\0\0\0\0\0\0\x01\0\0\0\0\x07\0\0\0\x02\x01\x02\0";

// The same with an open gate byte, but without the gate byte behind the record.
const NO_GATE: [u8; 28] = *b"PSCHJRN1\x01\0\0\0\0\0\0\0\x01\0\0\0\0\x01\0\0\0\x02\x01\x02";

// A snapshot of ab with generation 1, and two records: none, and 09.
const TWO_RECORDS: [u8; 34] =
    *b"PSCHJRN1\x01\0\0\0\0\0\0\0\x01\0\0\0\x01\xab\x01\0\0\0\0\x01\0\0\0\x01\x09\0";

// Whether the second disk counts, its generation, the places of its first and of its last gate byte.
type At = (bool, u64, u64, u64);

// First disk, second disk, where the journal is, the list.
type Row = (&'static [u8], &'static [u8], At, &'static [&'static [u8]]);

static JOURNALS: [Row; 7] = [
    (&FRESH_FIRST, &FRESH_SECOND, (false, 1, 21, 21), &[b""]),
    (
        &ONE_RECORD,
        &FRESH_SECOND,
        (false, 1, 21, 28),
        &[b"", &[1, 2]],
    ),
    (&TORN_GATE, &FRESH_SECOND, (false, 1, 21, 21), &[b""]),
    (&ONE_RECORD, &SNAPSHOT, (true, 2, 22, 22), &[&[0xab]]),
    (&SNAPSHOT, &ONE_RECORD, (false, 2, 22, 22), &[&[0xab]]),
    (
        &ONE_RECORD,
        &TWO_RECORDS,
        (false, 1, 21, 28),
        &[b"", &[1, 2]],
    ),
    (
        &FRESH_SECOND,
        &TWO_RECORDS,
        (true, 1, 22, 33),
        &[&[0xab], b"", &[9]],
    ),
];

fn has_places_of(journal: &Journal<MemoryDisk>, at: At) -> bool {
    let (is_second, generation, start, end) = at;
    journal.generation() == generation
        && journal.counting_disk() == if is_second { 2 } else { 1 }
        && Some(journal.snapshot_bytes()) == start.checked_sub(21)
        && Some(journal.record_bytes()) == end.checked_sub(start)
}

// One more append of 03 stands on the disk that counts, at the place of its last gate byte.
fn is_at(journal: Journal<MemoryDisk>, at: At) -> Result<bool, Memory> {
    let mut journal = journal;
    if !has_places_of(&journal, at) || !add(&mut journal, &[3])? {
        return Ok(false);
    }
    Ok(has_record(journal, at))
}

// With the sync of the opening the disk that counts has five calls.
fn has_record(journal: Journal<MemoryDisk>, at: At) -> bool {
    let (is_second, _generation, _start, end) = at;
    let calls = journal.calls();
    let (first, second) = journal.into_disks();
    if is_second {
        calls == (1, 5) && has_record_at(second.bytes(), end)
    } else {
        calls == (5, 1) && has_record_at(first.bytes(), end)
    }
}

static RECORD: [u8; 7] = *b"\x01\0\0\0\x01\x03\0";

fn has_record_at(bytes: &[u8], gate_byte: u64) -> bool {
    match bytes.get(gate_byte as usize..) {
        Some(bytes) => bytes.starts_with(&RECORD),
        None => false,
    }
}

fn check_journals(alloc: Global, rows: &[Row]) -> Result<(), Fail> {
    for (first, second, at, list) in rows {
        let found = match opened(alloc, pair_of(alloc, first, second)?, list) {
            Some(journal) => is_at(journal, *at)?,
            None => false,
        };
        if !found {
            return Err(Fail::new(format_args!("{first:?} and {second:?}")));
        }
    }
    Ok(())
}

#[test]
fn pairs_stand_for_their_lists(rt: HostRuntime) -> Result<(), Fail> {
    check_journals(rt.alloc(), &JOURNALS)
}

// First disk, second disk, the disk at fault, the place.
static NO_JOURNALS: [(&[u8], &[u8], u8, u64); 9] = [
    (b"PSCHK", b"", 1, 4),
    (b"PSCHJRN1\0", b"PSCHJRN1\0", 1, 8),
    (&FRESH_FIRST, b"", 2, 0),
    (&FRESH_FIRST, b"PSCHJRN1", 2, 8),
    (&FRESH_FIRST, b"PSCHJRN2\0", 2, 7),
    (
        b"PSCHJRN1\x01\0\0\0\0\0\0\0\x01\0\0\0\0",
        &FRESH_SECOND,
        1,
        9,
    ),
    (&FRESH_FIRST, b"PSCHJRN1\x01\0", 2, 9),
    (&NO_GATE, &FRESH_SECOND, 1, 21),
    (b"PSCHJRN0", &FRESH_FIRST, 1, 7),
];

fn is_refused(alloc: Global, pair: Pair, wanted: OpenReason) -> bool {
    match Journal::open(alloc, pair.0, pair.1) {
        Ok(_found) => false,
        Err(fault) => fault.reason == wanted,
    }
}

fn check_refusals(alloc: Global, rows: &[(&[u8], &[u8], u8, u64)]) -> Result<(), Fail> {
    for (first, second, disk, place) in rows {
        let wanted = OpenReason::NotAJournal(DiskPlace {
            disk: *disk,
            place: *place,
        });
        if !is_refused(alloc, pair_of(alloc, first, second)?, wanted) {
            return Err(Fail::new(format_args!("disk {disk}, place {place}")));
        }
    }
    Ok(())
}

#[test]
fn pairs_that_are_no_journal(rt: HostRuntime) -> Result<(), Fail> {
    check_refusals(rt.alloc(), &NO_JOURNALS)
}

// What an opening does to its disks: one sync each, and no byte.
fn is_as_opened(journal: Journal<MemoryDisk>) -> bool {
    if !journal.is_ready() || journal.generation() != 2 || journal.record_bytes() != 0 {
        return false;
    }
    journal.calls() == (1, 1) && gives_back(journal, &ONE_RECORD, &SNAPSHOT)
}

fn opens_and_gives_back(alloc: Global) -> Result<bool, Memory> {
    match opened(alloc, pair_of(alloc, &ONE_RECORD, &SNAPSHOT)?, &[&[0xab]]) {
        Some(journal) => Ok(is_as_opened(journal)),
        None => Ok(false),
    }
}

#[test]
fn a_pair_is_opened_and_given_back(rt: HostRuntime) -> Result<(), Fail> {
    assert!(rt; opens_and_gives_back(rt.alloc())?);
    Ok(())
}

#[test]
fn an_opening_meets_a_fault(rt: HostRuntime) -> Result<(), Fail> {
    let alloc = rt.alloc();
    let (first, second) = pair_of(alloc, &ONE_RECORD, &FRESH_SECOND)?;
    let mut second = second;
    second.fail_at(Some(1));
    assert!(rt; is_refused(alloc, (first, second), OpenReason::DiskFault));
    Ok(())
}

// The places of the snapshot and of both payloads of that pair.
static PLACES: [u64; 3] = [21, 27, 32];

fn has_places(alloc: Global, places: &[u64]) -> Result<bool, Memory> {
    let (first, second) = pair_of(alloc, &TWO_RECORDS, &FRESH_SECOND)?;
    match Journal::open(alloc, first, second) {
        Ok((_journal, list)) => Ok(are_at(list.as_slice(), places)),
        Err(_fault) => Ok(false),
    }
}

fn are_at(list: &[Items<u8>], places: &[u64]) -> bool
    requires { (n : ℕ) → n < length list.now → 21 + record_bytes (take n list.now) < 2 ^ 64 }
{
    for (index, place) in places.iter().enumerate() {
        if index >= list.len() || item_place(list, index) != *place {
            return false;
        }
    }
    list.len() == places.len()
}

#[test]
fn the_places_of_items(rt: HostRuntime) -> Result<(), Fail> {
    assert!(rt; has_places(rt.alloc(), &PLACES)?);
    Ok(())
}
