//! A gatherer one of whose disks fails a call: what its step answers, and what is there then, by the call that fails.

use crate::disks::{GathererKeep, Pair, asked, has_bytes, new_keep, opened, pair_on};
use crate::snapshot_tests::{PIECE, gathers, piece};
use machine_keep::fault::StepFault;
use ps_disks::image::Image;
use ps_disks::rack::FRESH_FIRST;
use ps_time::memory::Memory;
use std::alloc::Global;
use std::test::Fail;

// The call at which the gathering of a byte fails, of four; whether the disks have the byte as they read, and whether what a
// crash leaves of them has it, in the images old, new and torn.
static FAULTS: [(u64, bool, bool, bool, bool); 5] = [
    (1, false, false, false, false),
    (2, false, false, false, false),
    (3, false, false, false, false),
    (4, true, false, true, false),
    (5, true, true, true, true),
];

// A gatherer that gathered a byte while this call failed.
fn faulted(alloc: Global, call: u64) -> Result<Option<GathererKeep>, Memory> {
    let Some(mut keep) = new_keep(alloc, 1_000)? else {
        return Ok(None);
    };
    keep.fail_at(Some(call));
    let five = asked(alloc, Some(5))?;
    let met = keep.apply(alloc, five) == Err(StepFault::Disk);
    if met != (call < 5) || keep.is_ready() == met {
        return Ok(None);
    }
    keep.fail_at(None);
    Ok(Some(keep))
}

fn kept_bytes(kept: bool) -> &'static [u8] {
    if kept { &[5] } else { &[] }
}

fn is_read(alloc: Global, call: u64, kept: bool) -> Result<bool, Memory> {
    match faulted(alloc, call)? {
        Some(keep) => Ok(has_bytes(alloc, keep.into_disks(), kept_bytes(kept))),
        None => Ok(false),
    }
}

fn crashed(pair: Pair, image: Image) -> Result<Pair, Memory> {
    let (first, second) = pair;
    Ok((first.crashed(image)?, second.crashed(image)?))
}

fn is_left(alloc: Global, call: u64, image: Image, kept: bool) -> Result<bool, Memory> {
    match faulted(alloc, call)? {
        Some(keep) => { Ok(has_bytes(alloc, crashed(keep.into_disks(), image)?, kept_bytes(kept))) }
        None => Ok(false),
    }
}

fn each_fault(alloc: Global, faults: &[(u64, bool, bool, bool, bool)]) -> Result<bool, Memory> {
    for (call, read, old, new, torn) in faults {
        if !is_read(alloc, *call, *read)?
            || !is_left(alloc, *call, Image::Old, *old)?
            || !is_left(alloc, *call, Image::New, *new)?
            || !is_left(alloc, *call, Image::Torn, *torn)?
        {
            return Ok(false);
        }
    }
    Ok(true)
}

#[test]
fn a_fault_keeps_a_step_from_the_sync_of_its_open_gate_on(rt: HostRuntime) -> Result<(), Fail> {
    assert!(rt; each_fault(rt.alloc(), &FAULTS)?);
    Ok(())
}

// The call at which the gathering of 7 stops, where the fourth of that of 5 failed, two syncs being the first two; and the bytes
// then, in the images old, new and torn.
static STOPS: [(u64, &[u8], &[u8], &[u8]); 9] = [
    (0, &[], &[5], &[]),
    (1, &[], &[5], &[]),
    (2, &[5], &[5], &[5]),
    (3, &[5], &[5], &[5]),
    (4, &[5], &[5], &[5]),
    (5, &[5], &[5, 7], &[5]),
    (6, &[5], &[5, 7], &[5]),
    (7, &[5, 7], &[5, 7], &[5, 7]),
    (8, &[5, 7], &[5, 7], &[5, 7]),
];

fn stops_so(alloc: Global, stop: u64, image: Image, bytes: &[u8]) -> Result<bool, Memory> {
    let Some(keep) = faulted(alloc, 4)? else {
        return Ok(false);
    };
    if keep.is_ready() {
        return Ok(false);
    }
    let seven = asked(alloc, Some(7))?;
    let pair = keep.crash_in_again(alloc, seven, stop, image)?;
    Ok(has_bytes(alloc, pair, bytes))
}

fn each_stop(alloc: Global, stops: &[(u64, &[u8], &[u8], &[u8])]) -> Result<bool, Memory> {
    for (stop, old, new, torn) in stops {
        if !stops_so(alloc, *stop, Image::Old, old)?
            || !stops_so(alloc, *stop, Image::New, new)?
            || !stops_so(alloc, *stop, Image::Torn, torn)?
        {
            return Ok(false);
        }
    }
    Ok(true)
}

#[test]
fn a_step_behind_a_fault_stops_from_its_syncs_on(rt: HostRuntime) -> Result<(), Fail> {
    assert!(rt; each_stop(rt.alloc(), &STOPS)?);
    Ok(())
}

// How many bytes there may be.
const MOST: usize = 2_000_000;

// The same of a step that makes a snapshot, which is its calls from the fifth to the eleventh: whether it is taken in, whether
// the disks have it as they read, and the generation that they are in.
static SNAPSHOT_FAULTS: [(u64, bool, bool, u64); 10] = [
    (3, false, false, 1),
    (4, false, true, 1),
    (5, true, true, 1),
    (6, true, true, 1),
    (7, true, true, 1),
    (8, true, true, 1),
    (9, true, true, 1),
    (10, true, true, 1),
    (11, true, true, 2),
    (12, true, true, 2),
];

// New disks. An opening and fifteen pieces make 61 calls of the first one, and one of the second.
fn armed_pair(alloc: Global, call: u64) -> Result<Pair, Memory> {
    let (mut first, mut second) = pair_on(alloc, &FRESH_FIRST)?;
    if call > 4 {
        second.fail_at(Some(call.saturating_sub(3)));
    } else {
        first.fail_at(Some(call.saturating_add(61)));
    }
    Ok((first, second))
}

// With fifteen pieces, and then one more while this call fails.
fn with_pieces(alloc: Global, call: u64) -> Result<Option<GathererKeep>, Memory> {
    let Some(mut keep) = opened(alloc, MOST, armed_pair(alloc, call)?) else {
        return Ok(None);
    };
    if !gathers(alloc, &mut keep, 15)? {
        return Ok(None);
    }
    let piece = piece(alloc)?;
    let met = keep.apply(alloc, piece) == Err(StepFault::Disk);
    if met != (call < 12) || keep.is_ready() == met {
        return Ok(None);
    }
    keep.fail_at(None);
    Ok(Some(keep))
}

fn bytes_with(one_more: bool) -> usize {
    PIECE.saturating_mul(if one_more { 16 } else { 15 })
}

fn has_pieces(alloc: Global, pair: Pair, one_more: bool, generation: u64) -> bool {
    match opened(alloc, MOST, pair) {
        Some(keep) => {
            keep.machine().bytes.len() == bytes_with(one_more) && keep.generation() == generation
        }
        None => false,
    }
}

fn each_snapshot_fault(alloc: Global, faults: &[(u64, bool, bool, u64)]) -> Result<bool, Memory> {
    for (call, taken, read, generation) in faults {
        let Some(keep) = with_pieces(alloc, *call)? else {
            return Ok(false);
        };
        if keep.machine().bytes.len() != bytes_with(*taken)
            || !has_pieces(alloc, keep.into_disks(), *read, *generation)
        {
            return Ok(false);
        }
    }
    Ok(true)
}

#[test]
fn one_in_a_snapshot_turns_the_disks_from_the_sync_of_its_open_head_on(
    rt: HostRuntime,
) -> Result<(), Fail> {
    assert!(rt; each_snapshot_fault(rt.alloc(), &SNAPSHOT_FAULTS)?);
    Ok(())
}

// The head gate byte of the snapshot is left in the image new alone.
fn turns_so(alloc: Global, image: Image, generation: u64) -> Result<bool, Memory> {
    match with_pieces(alloc, 11)? {
        Some(keep) => Ok(has_pieces(alloc, crashed(keep.into_disks(), image)?, true, generation)),
        None => Ok(false),
    }
}

#[test]
fn a_crash_behind_it_keeps_the_step(rt: HostRuntime) -> Result<(), Fail> {
    assert!(rt; turns_so(rt.alloc(), Image::Old, 1)?);
    assert!(rt; turns_so(rt.alloc(), Image::New, 2)?);
    assert!(rt; turns_so(rt.alloc(), Image::Torn, 1)?);
    Ok(())
}

// A call that stops behind it, with no step of its own: at the first sync, at the second, or behind both.
fn stops_in_syncs(alloc: Global, stop: u64, image: Image, generation: u64) -> Result<bool, Memory> {
    let Some(keep) = with_pieces(alloc, 11)? else {
        return Ok(false);
    };
    if keep.is_ready() {
        return Ok(false);
    }
    let none = asked(alloc, None)?;
    let pair = keep.crash_in_again(alloc, none, stop, image)?;
    Ok(has_pieces(alloc, pair, true, generation))
}

// It is the second disk whose last sync failed.
#[test]
fn a_sync_of_the_first_disk_makes_sure_of_that_alone(rt: HostRuntime) -> Result<(), Fail> {
    assert!(rt; stops_in_syncs(rt.alloc(), 1, Image::Old, 1)?);
    assert!(rt; stops_in_syncs(rt.alloc(), 2, Image::Old, 1)?);
    assert!(rt; stops_in_syncs(rt.alloc(), 2, Image::New, 2)?);
    assert!(rt; stops_in_syncs(rt.alloc(), 3, Image::Old, 2)?);
    Ok(())
}
