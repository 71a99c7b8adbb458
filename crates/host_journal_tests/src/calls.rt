//! Pairs of disks in memory, and calls on the journals over them.
use host_journal::journal::Journal;
use ps_disks::memory_disk::MemoryDisk;
use ps_time::items::Items;
use ps_time::memory::Memory;
use std::alloc::{AllocError, Global};

pub type Pair = (MemoryDisk, MemoryDisk);

// The bytes 01 02, appended to a new pair.
pub const ONE_RECORD: [u8; 29] = *b"PSCHJRN1\x01\0\0\0\0\0\0\0\x01\0\0\0\0\x01\0\0\0\x02\x01\x02\0";

// Of generation 1 too, so that it counts for nothing beside a first disk.
pub const OLDER: [u8; 30] =
    *b"PSCHJRN1\x01\0\0\0\0\0\0\0\x01\0\0\0\x08\x01\x02\x03\x04\x05\x06\x07\x08\0";

// A snapshot of ab, made on the second disk of a new pair.
pub const SNAPSHOT: [u8; 23] = *b"PSCHJRN1\x01\0\0\0\0\0\0\0\x02\0\0\0\x01\xab\0";

// A disk of which the calls with these numbers fail.
pub fn disk_of(alloc: Global, bytes: &[u8], failing: &[u64]) -> Result<MemoryDisk, AllocError> {
    let bytes = bytes.to_vec(alloc)?;
    let failing = failing.to_vec(alloc)?;
    Ok(MemoryDisk::new(alloc, bytes, failing))
}

pub fn pair_of(alloc: Global, first: &[u8], second: &[u8]) -> Result<Pair, AllocError> {
    let first = disk_of(alloc, first, &[])?;
    let second = disk_of(alloc, second, &[])?;
    Ok((first, second))
}

fn is_list(list: &Items<Items<u8>>, wanted: &[&[u8]]) -> bool {
    if list.len() != wanted.len() {
        return false;
    }
    for (item, bytes) in list.as_slice().iter().zip(wanted) {
        if item.as_slice() != *bytes {
            return false;
        }
    }
    true
}

// A journal, and the list that its opening gave.
pub type Found = (Journal<MemoryDisk>, Items<Items<u8>>);

pub fn found(alloc: Global, pair: Pair) -> Option<Found> {
    match Journal::open(alloc, pair.0, pair.1) {
        Ok(found) => Some(found),
        Err(_fault) => None,
    }
}

// The journal on a pair that stands for this list.
pub fn opened(alloc: Global, pair: Pair, wanted: &[&[u8]]) -> Option<Journal<MemoryDisk>> {
    let (journal, list) = found(alloc, pair)?;
    if is_list(&list, wanted) {
        Some(journal)
    } else {
        None
    }
}

pub fn journal_of(alloc: Global, pair: Pair) -> Option<Journal<MemoryDisk>> {
    let (journal, _list) = found(alloc, pair)?;
    Some(journal)
}

// The journal on disks with these bytes.
pub fn journal_on(
    alloc: Global,
    first: &[u8],
    second: &[u8],
) -> Result<Option<Journal<MemoryDisk>>, AllocError> {
    Ok(journal_of(alloc, pair_of(alloc, first, second)?))
}

// Whether the disks read so.
pub fn gives_back(journal: Journal<MemoryDisk>, first: &[u8], second: &[u8]) -> bool {
    let (left, left_too) = journal.into_disks();
    left.bytes() == first && left_too.bytes() == second
}

// Whether it was `Ok`.
pub fn add(journal: &mut Journal<MemoryDisk>, payload: &[u8]) -> Result<bool, Memory> {
    journal.reserve(payload.len())?;
    if !journal.is_ready() || payload.len() > 8_388_608 {
        return Ok(false);
    }
    Ok(journal.append(payload).is_ok())
}

// Whether it was `Ok`.
pub fn snap(journal: &mut Journal<MemoryDisk>, bytes: &[u8]) -> Result<bool, Memory> {
    journal.reserve(bytes.len())?;
    if !journal.is_ready() || bytes.len() > 4_294_967_295 || journal.generation() == u64::MAX {
        return Ok(false);
    }
    let mut image = journal.begin_image();
    image.write(bytes)?;
    Ok(journal.snapshot(image).is_ok())
}

// The pair stands for this list, and after one more append of 03 for that record too.
pub fn stands_for(
    alloc: Global,
    pair: Pair,
    wanted: &[&[u8]],
    more: &[&[u8]],
) -> Result<bool, Memory> {
    match opened(alloc, pair, wanted) {
        Some(journal) => goes_on(alloc, journal, more),
        None => Ok(false),
    }
}

// One more append of 03, and an opening, which gives this list.
pub fn goes_on(
    alloc: Global,
    journal: Journal<MemoryDisk>,
    wanted: &[&[u8]],
) -> Result<bool, Memory> {
    let mut journal = journal;
    if !add(&mut journal, &[3])? {
        return Ok(false);
    }
    Ok(opened(alloc, journal.into_disks(), wanted).is_some())
}
