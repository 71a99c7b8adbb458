//! Pairs of disks in memory, gatherers that are kept on them, and what is asked of these.
ghost use Rattle.std.specs.Prelude.{◌≡◌, IfOk, IfSome};

use crate::gatherer::Gatherer;
use machine_keep::keep::Keep;
use ps_disks::memory_disk::MemoryDisk;
use ps_disks::rack::{FRESH_FIRST, FRESH_SECOND};
use ps_time::items::Items;
use ps_time::memory::Memory;
use std::alloc::{AllocError, Global};

pub type Pair = (MemoryDisk, MemoryDisk);

pub type GathererKeep = Keep<Gatherer, MemoryDisk>;

fn disk_of(alloc: Global, bytes: &[u8]) -> Result<MemoryDisk, AllocError> {
    Ok(MemoryDisk::new(alloc, bytes.to_vec(alloc)?, Vec::new(alloc)))
}

pub fn pair_on(alloc: Global, first: &[u8]) -> Result<Pair, AllocError> {
    let first = disk_of(alloc, first)?;
    let second = disk_of(alloc, &FRESH_SECOND)?;
    Ok((first, second))
}

// The gatherer of at most so many bytes for which the disks stand.
pub fn opened(alloc: Global, most: usize, pair: Pair) -> Option<GathererKeep>
    ensures { IfSome result (λ keep. keep.machine.most ≡ most) }
{
    Keep::open(alloc, most, pair.0, pair.1).ok()
}

pub fn new_keep(alloc: Global, most: usize) -> Result<Option<GathererKeep>, AllocError>
    ensures { IfOk result (λ o. IfSome o (λ keep. keep.machine.most ≡ most)) }
{
    Ok(opened(alloc, most, pair_on(alloc, &FRESH_FIRST)?))
}

pub fn has_bytes(alloc: Global, pair: Pair, bytes: &[u8]) -> bool {
    match opened(alloc, 1_000, pair) {
        Some(keep) => keep.machine().bytes.as_slice() == bytes,
        None => false,
    }
}

// This byte is asked for, or none.
pub fn asked(alloc: Global, byte: Option<u8>) -> Result<Option<Items<u8>>, Memory> {
    let Some(byte) = byte else {
        return Ok(None);
    };
    let mut bytes = Vec::new(alloc);
    bytes.push(byte)?;
    Ok(Some(Items::from_vec(bytes)))
}
