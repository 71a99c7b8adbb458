//! Journals on new pairs of disks, and the lists for which pairs stand.
use crate::disks::{Pair, pair_on};
use host_journal::journal::Journal;
use ps_disks::memory_disk::MemoryDisk;
use ps_disks::rack::FRESH_FIRST;
use ps_time::items::Items;
use std::alloc::{AllocError, Global};

// A journal, and the list that its opening gave.
type Found = (Journal<MemoryDisk>, Items<Items<u8>>);

fn found(alloc: Global, pair: Pair) -> Option<Found> {
    Journal::open(alloc, pair.0, pair.1).ok()
}

pub fn new_journal(alloc: Global) -> Result<Option<Journal<MemoryDisk>>, AllocError> {
    match found(alloc, pair_on(alloc, &FRESH_FIRST)?) {
        Some((journal, _list)) => Ok(Some(journal)),
        None => Ok(None),
    }
}

// The list that a pair stands for.
pub fn list_of(alloc: Global, pair: Pair) -> Option<Items<Items<u8>>> {
    let (_journal, list) = found(alloc, pair)?;
    Some(list)
}

// Which disk of a pair counts, its generation, and the bytes of its snapshot and of its records.
pub fn place_of(alloc: Global, pair: Pair) -> Option<(u8, u64, u64, u64)> {
    let (journal, _list) = found(alloc, pair)?;
    Some((
        journal.counting_disk(),
        journal.generation(),
        journal.snapshot_bytes(),
        journal.record_bytes(),
    ))
}
