//! Snapshots of a gatherer: of one whose list is in the earlier form, and where the records are many.

use crate::disks::{GathererKeep, Pair, asked, has_bytes, opened, pair_on};
use host_journal::fault::{OpenFault, OpenReason};
use ps_disks::image::Image;
use ps_disks::memory_disk::MemoryDisk;
use ps_disks::rack::{FRESH_FIRST, FRESH_SECOND};
use ps_time::items::Items;
use ps_time::memory::Memory;
use std::alloc::Global;
use std::test::Fail;

// The byte 7 in an earlier snapshot, and 8 in a record.
static EARLIER: [u8; 30] = *b"PSCHJRN1\x01\0\0\0\0\0\0\0\x01\0\0\0\x02\x01\x07\x01\0\0\0\x01\x08\0";

// The two together.
static BYTES: [u8; 2] = [7, 8];

// The second disk, once both are in a snapshot that is written now.
static WRITTEN: [u8; 25] = *b"PSCHJRN1\x01\0\0\0\0\0\0\0\x02\0\0\0\x03\x02\x07\x08\0";

// The earlier ones, and a new disk, in the last generation.
static LAST_EARLIER: [u8; 30] =
    *b"PSCHJRN1\x01\xff\xff\xff\xff\xff\xff\xff\xff\0\0\0\x02\x01\x07\x01\0\0\0\x01\x08\0";

static LAST_FRESH: [u8; 22] = *b"PSCHJRN1\x01\xff\xff\xff\xff\xff\xff\xff\xff\0\0\0\0\0";

// A snapshot of neither form.
static STRANGE: [u8; 23] = *b"PSCHJRN1\x01\0\0\0\0\0\0\0\x01\0\0\0\x01\x03\0";

fn reads_so(pair: &Pair, first: &[u8], second: &[u8]) -> bool {
    pair.0.bytes() == first && pair.1.bytes() == second
}

// The disks of the gatherer that the earlier ones stand for.
fn migrated(alloc: Global) -> Result<Option<Pair>, Memory> {
    let pair = pair_on(alloc, &EARLIER)?;
    let Some(keep) = opened(alloc, 1_000, pair) else {
        return Ok(None);
    };
    if keep.machine().bytes.as_slice() != BYTES.as_slice() {
        return Ok(None);
    }
    Ok(Some(keep.into_disks()))
}

// They are opened again, each by one sync.
fn stays_so(alloc: Global) -> Result<bool, Memory> {
    let Some(pair) = migrated(alloc)? else {
        return Ok(false);
    };
    if !reads_so(&pair, &EARLIER, &WRITTEN) {
        return Ok(false);
    }
    let before = (pair.0.calls(), pair.1.calls());
    let Some(keep) = opened(alloc, 1_000, pair) else {
        return Ok(false);
    };
    let now = keep.calls();
    Ok(
        now.0.saturating_sub(before.0) == 1
            && now.1.saturating_sub(before.1) == 1
            && keep.machine().bytes.as_slice() == BYTES.as_slice(),
    )
}

#[test]
fn an_earlier_list_is_written_anew_at_its_first_opening(rt: HostRuntime) -> Result<(), Fail> {
    assert!(rt; stays_so(rt.alloc())?);
    Ok(())
}

// What an opening leaves that makes so many calls of the second disk, since the next one fails.
fn cut_after(alloc: Global, calls: u64) -> Result<Pair, Memory> {
    let (first, mut second) = pair_on(alloc, &EARLIER)?;
    second.fail_at(Some(calls.saturating_add(1)));
    match GathererKeep::open(alloc, 1_000, first, second) {
        Ok(keep) => Ok(keep.into_disks()),
        Err(fault) => Ok((fault.first, fault.second)),
    }
}

fn crashed_after(alloc: Global, calls: u64, image: Image) -> Result<bool, Memory> {
    let (first, second) = cut_after(alloc, calls)?;
    Ok(
        second.calls() == calls.saturating_add(1).min(8)
            && has_bytes(alloc, (first, second.crashed(image)?), &BYTES),
    )
}

// A sync, and the seven calls of a snapshot.
fn each_crash(alloc: Global) -> Result<bool, Memory> {
    for calls in 0..9 {
        if !crashed_after(alloc, calls, Image::Old)? || !crashed_after(alloc, calls, Image::Torn)? {
            return Ok(false);
        }
    }
    Ok(true)
}

#[test]
fn what_a_crash_leaves_of_it_stands_for_the_same_bytes(rt: HostRuntime) -> Result<(), Fail> {
    assert!(rt; each_crash(rt.alloc())?);
    Ok(())
}

// Why it isn't opened, and the disks.
fn refused(alloc: Global, pair: Pair) -> Option<OpenFault<MemoryDisk>> {
    GathererKeep::open(alloc, 1_000, pair.0, pair.1).err()
}

fn failed_at(alloc: Global, call: u64) -> Result<bool, Memory> {
    let (first, mut second) = pair_on(alloc, &EARLIER)?;
    second.fail_at(Some(call));
    let Some(fault) = refused(alloc, (first, second)) else {
        return Ok(false);
    };
    if fault.reason != OpenReason::DiskFault {
        return Ok(false);
    }
    let OpenFault {
        first,
        second,
        reason: _,
    } = fault;
    let mut second = second;
    second.fail_at(None);
    Ok(has_bytes(alloc, (first, second), &BYTES))
}

fn each_failed(alloc: Global) -> Result<bool, Memory> {
    for call in 1..9 {
        if !failed_at(alloc, call)? {
            return Ok(false);
        }
    }
    Ok(true)
}

#[test]
fn an_opening_that_met_a_fault_can_be_made_again(rt: HostRuntime) -> Result<(), Fail> {
    assert!(rt; each_failed(rt.alloc())?);
    Ok(())
}

// These disks are refused for this reason, and come back as they were.
fn is_refused(alloc: Global, first: &[u8], memory: bool) -> Result<bool, Memory> {
    let Some(fault) = refused(alloc, pair_on(alloc, first)?) else {
        return Ok(false);
    };
    let is_so = match fault.reason {
        OpenReason::NotAJournal(at) => !memory && at.disk == 1 && at.place == 21,
        OpenReason::DiskFault => false,
        OpenReason::Memory => memory,
    };
    Ok(is_so && fault.first.bytes() == first && fault.second.bytes() == FRESH_SECOND.as_slice())
}

#[test]
fn an_earlier_list_of_the_last_generation_stays(rt: HostRuntime) -> Result<(), Fail> {
    assert!(rt; is_refused(rt.alloc(), &LAST_EARLIER, true)?);
    assert!(rt; is_refused(rt.alloc(), &STRANGE, false)?);
    Ok(())
}

pub const PIECE: usize = 65_536;

pub fn piece(alloc: Global) -> Result<Option<Items<u8>>, Memory> {
    Ok(Some(Items::from_vec([7].as_slice().repeat(alloc, PIECE)?)))
}

// So many pieces more.
pub fn gathers(alloc: Global, keep: &mut GathererKeep, pieces: usize) -> Result<bool, Memory> {
    for _ in 0..pieces {
        let piece = piece(alloc)?;
        if keep.apply(alloc, piece).is_err() {
            return Ok(false);
        }
    }
    Ok(true)
}

// Sixteen records of a piece are more than 1 MiB. How many snapshots are put off after so many pieces, and how many calls of the
// second disk there were.
fn after_pieces(alloc: Global, first: &[u8], pieces: usize) -> Result<Option<(u64, u64)>, Memory> {
    let Some(mut keep) = opened(alloc, 2_000_000, pair_on(alloc, first)?) else {
        return Ok(None);
    };
    if !gathers(alloc, &mut keep, pieces)? {
        return Ok(None);
    }
    let (put_off, calls) = (keep.put_off(), keep.calls().1);
    match opened(alloc, 2_000_000, keep.into_disks()) {
        Some(again) if again.machine().bytes.len() == pieces.saturating_mul(PIECE) => {
            Ok(Some((put_off, calls)))
        }
        _ => Ok(None),
    }
}

#[test]
fn many_records_give_way_to_a_snapshot(rt: HostRuntime) -> Result<(), Fail> {
    assert!(rt; after_pieces(rt.alloc(), &FRESH_FIRST, 15)? == Some((0, 1)));
    assert!(rt; after_pieces(rt.alloc(), &FRESH_FIRST, 16)? == Some((0, 8)));
    Ok(())
}

#[test]
fn a_snapshot_that_is_put_off_leaves_the_records(rt: HostRuntime) -> Result<(), Fail> {
    assert!(rt; after_pieces(rt.alloc(), &LAST_FRESH, 15)? == Some((0, 1)));
    assert!(rt; after_pieces(rt.alloc(), &LAST_FRESH, 17)? == Some((2, 1)));
    Ok(())
}
