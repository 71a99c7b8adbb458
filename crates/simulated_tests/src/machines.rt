//! Machines of gatherers.

use machine_keep_tests::gatherer::Gatherer;
use ps_disks::memory_disk::MemoryDisk;
use ps_disks::rack::{FRESH_FIRST, FRESH_SECOND};
use ps_time::items::Items;
use ps_time::memory::Memory;
use simulated_machine::simulated::{SimulatedMachine, Stepped};
use std::alloc::Global;

pub type GathererMachine = SimulatedMachine<Gatherer>;

// A gatherer of at most a thousand bytes, on new disks.
pub fn new_held_host(alloc: Global) -> Result<Option<GathererMachine>, Memory> {
    let first = MemoryDisk::new(alloc, FRESH_FIRST.to_vec(alloc)?, Vec::new(alloc));
    let second = MemoryDisk::new(alloc, FRESH_SECOND.to_vec(alloc)?, Vec::new(alloc));
    Ok(SimulatedMachine::open(alloc, 1_000, first, second).ok())
}

// The gatherer for which the disks stand.
pub fn opened(alloc: Global, first: MemoryDisk, second: MemoryDisk) -> Option<usize> {
    let keep = machine_keep::keep::Keep::<Gatherer, MemoryDisk>::open(
        alloc, 1_000, first, second,
    ).ok()?;
    Some(keep.machine().bytes.len())
}

// This byte is gathered, or none.
pub fn asked(alloc: Global, byte: Option<u8>) -> Result<Option<Items<u8>>, Memory> {
    let Some(byte) = byte else {
        return Ok(None);
    };
    let mut bytes = Vec::new(alloc);
    bytes.push(byte)?;
    Ok(Some(Items::from_vec(bytes)))
}

// How many bytes there were, where no call of a disk failed.
pub fn steps(
    alloc: Global,
    held_host: &mut GathererMachine,
    byte: Option<u8>,
) -> Result<Option<usize>, Memory> {
    let call = asked(alloc, byte)?;
    match held_host.step(alloc, call)? {
        Stepped::Answered(bytes) => Ok(Some(bytes)),
        Stepped::Faulted => Ok(None),
    }
}
