//! Bookings of which a call of a disk fails, and crashes behind that.

use crate::hosts::{Told, book, new_held_host, stop_booking, stop_look};
use ps_disks::image::Image;
use ps_time::memory::Memory;
use std::alloc::Global;
use std::test::Fail;

// Which call is to fail, and what two bookings of the same time are told.
static BOOKINGS: [(u64, Told, Told); 6] = [
    (0, Told::Accepted, Told::Denied),
    (1, Told::Nothing, Told::Accepted),
    (3, Told::Nothing, Told::Accepted),
    (4, Told::Nothing, Told::Denied),
    (5, Told::Accepted, Told::Denied),
    (8, Told::Accepted, Told::Denied),
];

fn is_told(alloc: Global, call: u64, first: Told, second: Told) -> Result<bool, Memory> {
    let mut held_host = new_held_host(alloc)?;
    held_host.fail_at(call);
    let is_first = book(alloc, &mut held_host)? == first;
    let is_second = book(alloc, &mut held_host)? == second;
    Ok(is_first && is_second)
}

fn each_told(alloc: Global, bookings: &[(u64, Told, Told)]) -> Result<bool, Memory> {
    for (call, first, second) in bookings {
        if !is_told(alloc, *call, *first, *second)? {
            return Ok(false);
        }
    }
    Ok(true)
}

#[test]
fn a_booking_behind_a_fault_finds_what_stands(rt: HostRuntime) -> Result<(), Fail> {
    assert!(rt; each_told(rt.alloc(), &BOOKINGS)?);
    Ok(())
}

// Which call fails, at which call of the next step the host crashes, and what a booking is told then, behind the images old and new.
static CRASHES: [(u64, u64, Told, Told); 4] = [
    (3, 0, Told::Accepted, Told::Accepted),
    (4, 0, Told::Accepted, Told::Denied),
    (4, 1, Told::Accepted, Told::Denied),
    (4, 3, Told::Denied, Told::Denied),
];

fn is_left(alloc: Global, call: u64, stop: u64, image: Image, told: Told) -> Result<bool, Memory> {
    let mut held_host = new_held_host(alloc)?;
    held_host.fail_at(call);
    let is_faulted = book(alloc, &mut held_host)? == Told::Nothing;
    let mut ended = stop_look(alloc, held_host, stop, image)?;
    let is_left = book(alloc, &mut ended.0)? == told;
    Ok(is_faulted && ended.1 && is_left)
}

fn each_left(alloc: Global, crashes: &[(u64, u64, Told, Told)]) -> Result<bool, Memory> {
    for (call, stop, old, new) in crashes {
        if !is_left(alloc, *call, *stop, Image::Old, *old)? {
            return Ok(false);
        }
        if !is_left(alloc, *call, *stop, Image::New, *new)? {
            return Ok(false);
        }
    }
    Ok(true)
}

#[test]
fn a_crash_behind_a_fault_leaves_what_its_image_keeps(rt: HostRuntime) -> Result<(), Fail> {
    assert!(rt; each_left(rt.alloc(), &CRASHES)?);
    Ok(())
}

// Which call of the booking is to fail, at which it is to stop, whether it stops, and what the next one is told, behind the images
// old and new.
static STOPS: [(u64, u64, bool, Told, Told); 6] = [
    (0, 3, true, Told::Accepted, Told::Denied),
    (2, 12, false, Told::Accepted, Told::Accepted),
    (4, 12, false, Told::Denied, Told::Denied),
    (4, 4, true, Told::Accepted, Told::Denied),
    (5, 4, true, Told::Accepted, Told::Denied),
    (6, 12, true, Told::Denied, Told::Denied),
];

fn is_ended(
    alloc: Global,
    call: u64,
    stop: u64,
    stopped: bool,
    image: Image,
    told: Told,
) -> Result<bool, Memory> {
    let mut held_host = new_held_host(alloc)?;
    held_host.fail_at(call);
    let mut ended = stop_booking(alloc, held_host, stop, image)?;
    let is_told = book(alloc, &mut ended.0)? == told;
    Ok(ended.1 == stopped && is_told)
}

fn each_ended(alloc: Global, stops: &[(u64, u64, bool, Told, Told)]) -> Result<bool, Memory> {
    for (call, stop, stopped, old, new) in stops {
        if !is_ended(alloc, *call, *stop, *stopped, Image::Old, *old)? {
            return Ok(false);
        }
        if !is_ended(alloc, *call, *stop, *stopped, Image::New, *new)? {
            return Ok(false);
        }
    }
    Ok(true)
}

#[test]
fn a_step_stops_unless_a_call_fails_before(rt: HostRuntime) -> Result<(), Fail> {
    assert!(rt; each_ended(rt.alloc(), &STOPS)?);
    Ok(())
}
