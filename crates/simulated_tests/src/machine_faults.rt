//! A call of each disk is to fail: which step meets that, what the next one finds, and what a crash leaves before it.

use crate::machines::{GathererMachine, new_held_host, opened, steps};
use ps_disks::image::Image;
use ps_time::memory::Memory;
use std::alloc::Global;
use std::test::Fail;

// The call that is to fail of a disk that makes four a byte, how many bytes are gathered before the fault, and behind it.
static FAULTS: [(u64, usize, usize); 6] = [
    (1, 0, 0),
    (3, 0, 0),
    (4, 0, 1),
    (5, 1, 1),
    (7, 1, 1),
    (8, 1, 2),
];

// Bytes are gathered until a call fails: how many were answered.
fn gathered(alloc: Global, held_host: &mut GathererMachine) -> Result<usize, Memory> {
    for bytes in 0..3_usize {
        if steps(alloc, held_host, Some(5))?.is_none() {
            return Ok(bytes);
        }
    }
    Ok(3)
}

// The next step finds what stands, and no call fails any more.
fn is_found(alloc: Global, call: u64, before: usize, behind: usize) -> Result<bool, Memory> {
    let Some(mut held_host) = new_held_host(alloc)? else {
        return Ok(false);
    };
    held_host.fail_at(call);
    if gathered(alloc, &mut held_host)? != before || held_host.is_ready() {
        return Ok(false);
    }
    if steps(alloc, &mut held_host, Some(6))? != Some(behind) {
        return Ok(false);
    }
    Ok(held_host.is_ready() && gathered(alloc, &mut held_host)? == 3)
}

fn each_found(alloc: Global, faults: &[(u64, usize, usize)]) -> Result<bool, Memory> {
    for (call, before, behind) in faults {
        if !is_found(alloc, *call, *before, *behind)? {
            return Ok(false);
        }
    }
    Ok(true)
}

#[test]
fn the_step_behind_a_fault_finds_what_stands(rt: HostRuntime) -> Result<(), Fail> {
    assert!(rt; each_found(rt.alloc(), &FAULTS)?);
    Ok(())
}

// The call that failed, at which call of the next step the crash comes, and how many bytes are left in the images old and new.
static CRASHES: [(u64, u64, usize, usize); 6] = [
    (3, 0, 0, 0),
    (4, 0, 0, 1),
    (4, 1, 0, 1),
    (4, 2, 1, 1),
    (4, 4, 1, 1),
    (4, 7, 2, 2),
];

fn is_left(
    alloc: Global,
    call: u64,
    stop: u64,
    image: Image,
    bytes: usize,
) -> Result<bool, Memory> {
    let Some(mut held_host) = new_held_host(alloc)? else {
        return Ok(false);
    };
    held_host.fail_at(call);
    if gathered(alloc, &mut held_host)? != 0 {
        return Ok(false);
    }
    let six = crate::machines::asked(alloc, Some(6))?;
    let (first, second) = held_host.crash(alloc, six, stop, image)?;
    Ok(opened(alloc, first, second) == Some(bytes))
}

fn each_left(alloc: Global, crashes: &[(u64, u64, usize, usize)]) -> Result<bool, Memory> {
    for (call, stop, old, new) in crashes {
        if !is_left(alloc, *call, *stop, Image::Old, *old)?
            || !is_left(alloc, *call, *stop, Image::New, *new)?
        {
            return Ok(false);
        }
    }
    Ok(true)
}

#[test]
fn a_crash_behind_a_fault_keeps_what_a_sync_made_sure_of(rt: HostRuntime) -> Result<(), Fail> {
    assert!(rt; each_left(rt.alloc(), &CRASHES)?);
    Ok(())
}

// The fourth call is to fail of a step, and a crash comes behind it, between two steps.
fn is_left_between(alloc: Global, image: Image, bytes: usize) -> Result<bool, Memory> {
    let Some(mut held_host) = new_held_host(alloc)? else {
        return Ok(false);
    };
    held_host.fail_at(4);
    if held_host.fault_at()? != Some(4) || gathered(alloc, &mut held_host)? != 0 {
        return Ok(false);
    }
    if held_host.fault_at()?.is_some() {
        return Ok(false);
    }
    let (first, second) = held_host.crash_now(image)?;
    Ok(opened(alloc, first, second) == Some(bytes))
}

#[test]
fn a_crash_between_two_steps_keeps_what_its_image_keeps(rt: HostRuntime) -> Result<(), Fail> {
    assert!(rt; is_left_between(rt.alloc(), Image::Old, 0)?);
    assert!(rt; is_left_between(rt.alloc(), Image::New, 1)?);
    Ok(())
}
