//! A gatherer whose steps a crash stops: which bytes are there then, by the call at which it stops and the image.

use crate::disks::{GathererKeep, Pair, asked, has_bytes, new_keep, opened, pair_on};
use crate::journals::place_of;
use crate::snapshot_tests::{PIECE, gathers, piece};
use ps_disks::image::Image;
use ps_disks::rack::FRESH_FIRST;
use ps_time::memory::Memory;
use std::alloc::Global;
use std::test::Fail;

// The call at which the gathering of a byte stops, and whether the byte is kept in the images old, new and torn.
static STOPS: [(u64, bool, bool, bool); 7] = [
    (0, false, false, false),
    (1, false, false, false),
    (2, false, false, false),
    (3, false, true, false),
    (4, false, true, false),
    (5, true, true, true),
    (6, true, true, true),
];

// This byte is gathered, or none, and the bytes are these then.
fn stops_so(
    alloc: Global,
    byte: Option<u8>,
    stop: u64,
    image: Image,
    bytes: &[u8],
) -> Result<bool, Memory> {
    let Some(keep) = new_keep(alloc, 1_000)? else {
        return Ok(false);
    };
    if !keep.is_ready() {
        return Ok(false);
    }
    let call = asked(alloc, byte)?;
    let pair = keep.crash_in(alloc, call, stop, image)?;
    Ok(has_bytes(alloc, pair, bytes))
}

fn is_kept(alloc: Global, stop: u64, image: Image, kept: bool) -> Result<bool, Memory> {
    stops_so(alloc, Some(5), stop, image, if kept { &[5] } else { &[] })
}

fn each_stop(alloc: Global, stops: &[(u64, bool, bool, bool)]) -> Result<bool, Memory> {
    for (stop, old, new, torn) in stops {
        if !is_kept(alloc, *stop, Image::Old, *old)?
            || !is_kept(alloc, *stop, Image::New, *new)?
            || !is_kept(alloc, *stop, Image::Torn, *torn)?
        {
            return Ok(false);
        }
    }
    Ok(true)
}

#[test]
fn a_step_that_stops_is_kept_from_its_open_gate_on(rt: HostRuntime) -> Result<(), Fail> {
    assert!(rt; each_stop(rt.alloc(), &STOPS)?);
    Ok(())
}

#[test]
fn one_without_changes_leaves_the_bytes(rt: HostRuntime) -> Result<(), Fail> {
    assert!(rt; stops_so(rt.alloc(), None, 0, Image::Torn, &[])?);
    assert!(rt; stops_so(rt.alloc(), None, 5, Image::New, &[])?);
    Ok(())
}

// With fifteen pieces. One more, and the records are many.
fn with_pieces(alloc: Global) -> Result<Option<GathererKeep>, Memory> {
    let Some(mut keep) = opened(alloc, 2_000_000, pair_on(alloc, &FRESH_FIRST)?) else {
        return Ok(None);
    };
    if gathers(alloc, &mut keep, 15)? {
        Ok(Some(keep))
    } else {
        Ok(None)
    }
}

// The disks, where the gathering of one more stops.
fn with_one_more(alloc: Global, stop: u64, image: Image) -> Result<Option<Pair>, Memory> {
    let Some(keep) = with_pieces(alloc)? else {
        return Ok(None);
    };
    if !keep.is_ready() {
        return Ok(None);
    }
    let piece = piece(alloc)?;
    Ok(Some(keep.crash_in(alloc, piece, stop, image)?))
}

// There are so many then.
fn has_pieces(alloc: Global, stop: u64, image: Image, pieces: usize) -> Result<bool, Memory> {
    let Some(pair) = with_one_more(alloc, stop, image)? else {
        return Ok(false);
    };
    match opened(alloc, 2_000_000, pair) {
        Some(again) => Ok(again.machine().bytes.len() == pieces.saturating_mul(PIECE)),
        None => Ok(false),
    }
}

// Which disk counts, its generation, and the bytes of its snapshot and of its records: with fifteen records, with sixteen, and with
// the bytes of sixteen in a snapshot behind its mark.
type Place = (u8, u64, u64, u64);

const BEFORE: Place = (1, 1, 0, 983_115);

const RECORD: Place = (1, 1, 0, 1_048_656);

const SNAPSHOT: Place = (2, 2, 1_048_577, 0);

// The call at which the gathering of the sixteenth stops, the fifth to the eleventh being those of the snapshot; and the place in
// the images old, new and torn.
static EARLY_STOPS: [(u64, Place, Place, Place); 6] = [
    (2, BEFORE, BEFORE, BEFORE),
    (3, BEFORE, RECORD, BEFORE),
    (4, BEFORE, RECORD, BEFORE),
    (5, RECORD, RECORD, RECORD),
    (6, RECORD, RECORD, RECORD),
    (7, RECORD, RECORD, RECORD),
];

static LATE_STOPS: [(u64, Place, Place, Place); 5] = [
    (8, RECORD, RECORD, RECORD),
    (9, RECORD, RECORD, RECORD),
    (10, RECORD, SNAPSHOT, RECORD),
    (11, RECORD, SNAPSHOT, RECORD),
    (12, SNAPSHOT, SNAPSHOT, SNAPSHOT),
];

fn is_left_at(alloc: Global, stop: u64, image: Image, place: Place) -> Result<bool, Memory> {
    match with_one_more(alloc, stop, image)? {
        Some(pair) => Ok(place_of(alloc, pair) == Some(place)),
        None => Ok(false),
    }
}

fn each_snapshot_stop(alloc: Global, stops: &[(u64, Place, Place, Place)]) -> Result<bool, Memory> {
    for (stop, old, new, torn) in stops {
        if !is_left_at(alloc, *stop, Image::Old, *old)?
            || !is_left_at(alloc, *stop, Image::New, *new)?
            || !is_left_at(alloc, *stop, Image::Torn, *torn)?
        {
            return Ok(false);
        }
    }
    Ok(true)
}

#[test]
fn a_stop_before_a_snapshot_is_filled_leaves_the_records(rt: HostRuntime) -> Result<(), Fail> {
    assert!(rt; each_snapshot_stop(rt.alloc(), &EARLY_STOPS)?);
    Ok(())
}

#[test]
fn a_stop_in_a_snapshot_turns_the_disks_from_its_open_head_on(rt: HostRuntime) -> Result<(), Fail> {
    assert!(rt; each_snapshot_stop(rt.alloc(), &LATE_STOPS)?);
    Ok(())
}

#[test]
fn an_opening_behind_it_finds_the_step(rt: HostRuntime) -> Result<(), Fail> {
    assert!(rt; has_pieces(rt.alloc(), 4, Image::Old, 15)?);
    assert!(rt; has_pieces(rt.alloc(), 7, Image::Torn, 16)?);
    assert!(rt; has_pieces(rt.alloc(), 11, Image::New, 16)?);
    assert!(rt; has_pieces(rt.alloc(), 13, Image::Old, 16)?);
    Ok(())
}
