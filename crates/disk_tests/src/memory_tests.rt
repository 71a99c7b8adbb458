//! Tests of disks in memory: images worked out by hand, calls that are to fail, and a rack.
use ps_disks::disk::Disk;
use ps_disks::image::Image;
use ps_disks::memory_disk::MemoryDisk;
use ps_disks::memory_rack::MemoryRack;
use ps_disks::rack::{FRESH_FIRST, FRESH_SECOND, Rack, RackFault};
use ps_ports::fault::Failed;
use std::alloc::{AllocError, Global};
use std::process::Abort;
use std::test::Fail;

fn may_move_to_a_thread<T: Send>(value: T) -> T {
    value
}

fn disk_of(alloc: Global, bytes: &[u8], failing: &[u64]) -> Result<MemoryDisk, AllocError> {
    let bytes = bytes.to_vec(alloc)?;
    let failing = failing.to_vec(alloc)?;
    Ok(MemoryDisk::new(alloc, bytes, failing))
}

// Ten calls: a write, a cut, a write across the end, a sync, a write behind a gap, an empty one, a cut
// with a write after it before the next sync, and half of one byte.
fn make_ten_calls(disk: &mut MemoryDisk) -> Result<(), Failed> {
    disk.write_at(2, b"XYZ")?;
    disk.cut(6)?;
    disk.write_at(5, b"1234")?;
    disk.sync()?;
    disk.write_at(11, b"pq")?;
    disk.write_at(40, b"")?;
    disk.cut(3)?;
    disk.write_at(3, b"mnop")?;
    disk.sync()?;
    disk.write_at(6, b"Q")
}

// After so many of the ten calls: the old image, the new one and the torn one.
static IMAGES: [(u64, &[u8], &[u8], &[u8]); 11] = [
    (0, b"abcdefgh", b"abcdefgh", b"abcdefgh"),
    (1, b"abcdefgh", b"abXYZfgh", b"abXdefgh"),
    (2, b"abcdefgh", b"abXYZf", b"abXdef"),
    (3, b"abcdefgh", b"abXYZ1234", b"abXde12"),
    (4, b"abXYZ1234", b"abXYZ1234", b"abXYZ1234"),
    (5, b"abXYZ1234", b"abXYZ1234\0\0pq", b"abXYZ1234\0\0p"),
    (6, b"abXYZ1234", b"abXYZ1234\0\0pq", b"abXYZ1234\0\0p"),
    (7, b"abXYZ1234", b"abX", b"abX"),
    (8, b"abXYZ1234", b"abXmnop", b"abXmn"),
    (9, b"abXmnop", b"abXmnop", b"abXmnop"),
    (10, b"abXmnop", b"abXmnoQ", b"abXmnop"),
];

// The call after so many fails, so that they are all that were made.
fn leaves(alloc: Global, calls: u64, image: Image, wanted: &[u8]) -> Result<bool, AllocError> {
    let mut disk = disk_of(alloc, b"abcdefgh", &[])?;
    disk.fail_at(Some(calls.saturating_add(1)));
    let all_made = make_ten_calls(&mut disk).is_ok();
    if all_made != (calls == 10) || disk.calls() != calls.saturating_add(1).min(10) {
        return Ok(false);
    }
    match disk.crashed(image) {
        Ok(left) => Ok(left.bytes() == wanted && left.calls() == 0),
        Err(_) => Ok(false),
    }
}

fn check_images(
    rt: &impl Abort,
    alloc: Global,
    rows: &[(u64, &[u8], &[u8], &[u8])],
) -> Result<(), Fail> {
    for (calls, old, new, torn) in rows {
        assert!(rt; leaves(alloc, *calls, Image::Old, old)?, "old, {calls}");
        assert!(rt; leaves(alloc, *calls, Image::New, new)?, "new, {calls}");
        assert!(rt; leaves(alloc, *calls, Image::Torn, torn)?, "torn, {calls}");
    }
    Ok(())
}

#[test]
fn each_image_after_each_call(rt: HostRuntime) -> Result<(), Fail> {
    check_images(&rt, rt.alloc(), &IMAGES)
}

fn reads(disk: &mut impl Disk, at: u64, wanted: &[u8]) -> bool {
    let mut buf = [0; 32];
    match disk.read(at, &mut buf) {
        Ok(count) => count <= 32 && &buf[..count] == wanted,
        Err(_) => false,
    }
}

// `failing` numbers reads too, `fail_at` doesn't.
fn run_failing_calls(disk: &mut MemoryDisk) -> [bool; 9] {
    let first_read = reads(disk, 1, b"bc");
    let failing_sync = disk.sync().is_err();
    let read_past_end = reads(disk, 3, b"");
    disk.fail_at(Some(2));
    let write = disk.write_at(0, b"X").is_ok();
    let failing_read = !reads(disk, 0, b"Xbc");
    let armed_sync = disk.sync().is_err();
    let too_far = disk.write_at(u64::MAX, b"Y").is_err();
    disk.fail_at(None);
    let sync = disk.sync().is_ok();
    let last_read = reads(disk, 0, b"Xbc");
    [
        first_read,
        failing_sync,
        read_past_end,
        write,
        failing_read,
        armed_sync,
        too_far,
        sync,
        last_read,
    ]
}

#[test]
fn the_named_calls_fail(rt: HostRuntime) -> Result<(), Fail> {
    let mut disk = may_move_to_a_thread(disk_of(rt.alloc(), b"abc", &[2, 5])?);
    assert_eq!(rt; run_failing_calls(&mut disk), [true; 9]);
    assert_eq!(rt; disk.faults(), 4);
    assert_eq!(rt; disk.calls(), 5);
    assert!(rt; !disk.starved());
    Ok(())
}

fn is_fresh_again(rack: &mut MemoryRack, alloc: Global) -> bool {
    match rack.open_pair(alloc, "host") {
        Ok((first, second)) => first.faults() == 0 && second.bytes() == FRESH_SECOND.as_slice(),
        Err(_) => false,
    }
}

// The second opening is to fail, and so does the third, since the pair is open.
fn open_thrice(rack: &mut MemoryRack, alloc: Global) -> Result<[bool; 3], RackFault> {
    let (first, second) = rack.open_pair(alloc, "host")?;
    let fresh = first.bytes() == FRESH_FIRST.as_slice()
        && second.bytes() == FRESH_SECOND.as_slice();
    let named = rack.open_pair(alloc, "other").is_err();
    let open = rack.open_pair(alloc, "host").is_err();
    Ok([fresh, named, open])
}

#[test]
fn openings_of_a_rack_in_memory(rt: HostRuntime) -> Result<(), Fail> {
    let alloc = rt.alloc();
    let failing = [2].to_vec(alloc)?;
    let mut rack = MemoryRack::new(alloc, Vec::new(alloc), failing);
    assert_eq!(rt; open_thrice(&mut rack, alloc)?, [true; 3]);
    assert_eq!(rt; rack.faults(), 2);
    Ok(())
}

fn fail_and_close(rack: &mut MemoryRack, alloc: Global) -> Result<bool, RackFault> {
    let (mut first, second) = rack.open_pair(alloc, "host")?;
    let failed = first.write_at(u64::MAX, b"x").is_err();
    rack.close_pair("host", first, second);
    Ok(failed)
}

#[test]
fn a_rack_in_memory(rt: HostRuntime) -> Result<(), Fail> {
    let alloc = rt.alloc();
    let mut rack = MemoryRack::new(alloc, Vec::new(alloc), Vec::new(alloc));
    assert!(rt; fail_and_close(&mut rack, alloc)?);
    assert!(rt; is_fresh_again(&mut rack, alloc));
    assert_eq!(rt; rack.faults(), 1);
    Ok(())
}
