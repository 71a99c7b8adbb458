//! Tests of disks over files and folders, those of the system and those in memory.
use ps_disks::disk::Disk;
use ps_disks::rack::{FRESH_FIRST, FRESH_SECOND, Rack, RackFault};
use ps_files::file_calls::{FileCall, MadeCall};
use ps_files::file_disk::FileDisk;
use ps_files::folder_calls::Step;
use ps_files::folder_rack::FolderRack;
use ps_files::memory_file::MemoryFile;
use ps_files::memory_folders::MemoryFolders;
use std::alloc::{AllocError, Global};
use std::fs;
use std::fs::File;
use std::test::Fail;

fn reads(disk: &mut impl Disk, at: u64, wanted: &[u8]) -> bool {
    let mut buf = [0; 32];
    match disk.read(at, &mut buf) {
        Ok(count) => count <= 32 && &buf[..count] == wanted,
        Err(_) => false,
    }
}

fn may_move_to_a_thread<T: Send>(value: T) -> T {
    value
}

fn is_refused<R: Rack<Disk = FileDisk<File>>>(rack: &mut R, alloc: Global, folder: &str) -> bool {
    rack.open_pair(alloc, folder).is_err()
}

fn is_written_first(first: &mut FileDisk<File>) -> bool {
    let fresh = reads(first, 0, &FRESH_FIRST);
    let written = first.write_at(7, b"23").is_ok() && first.cut(9).is_ok() && first.cut(40).is_ok();
    fresh && written && first.sync().is_ok() && reads(first, 6, b"N23")
}

fn is_too_far_for_second(second: &mut FileDisk<File>) -> bool {
    let fresh = reads(second, 0, &FRESH_SECOND);
    fresh && second.write_at(u64::MAX, b"x").is_err() && second.faults() == 1
}

// While the pair is open, another rack is refused.
fn make_and_write<R: Rack<Disk = FileDisk<File>>, O: Rack<Disk = FileDisk<File>>>(
    rack: &mut R,
    other: &mut O,
    alloc: Global,
) -> Result<[bool; 3], RackFault> {
    let (mut first, second) = rack.open_pair(alloc, "host")?;
    let mut second = may_move_to_a_thread(second);
    let refused = is_refused(other, alloc, "host");
    let written = is_written_first(&mut first);
    let too_far = is_too_far_for_second(&mut second);
    rack.close_pair("host", first, second);
    Ok([refused, written, too_far])
}

fn is_as_written<R: Rack<Disk = FileDisk<File>>>(rack: &mut R, alloc: Global) -> bool {
    match rack.open_pair(alloc, "host") {
        Ok((mut first, _)) => reads(&mut first, 0, b"PSCHJRN23"),
        Err(_) => false,
    }
}

#[test]
fn a_real_pair(rt: HostRuntime) -> Result<(), Fail> {
    let alloc = rt.alloc();
    fs::create_dir(&rt, "host")?;
    let mut rack = FolderRack::new(&rt);
    let mut other = FolderRack::new(&rt);
    assert!(rt; is_refused(&mut other, alloc, "none"));
    assert_eq!(rt; make_and_write(&mut rack, &mut other, alloc)?, [true; 3]);
    fs::create_dir(&rt, "host/pair.new")?;
    assert!(rt; is_as_written(&mut other, alloc));
    assert!(rt; !fs::exists(&rt, "host/pair.new")?);
    fs::remove_dir_all(&rt, "host")?;
    assert_eq!(rt; (rack.faults(), other.faults()), (1, 2));
    Ok(())
}

fn is_write(made: &MadeCall, at: u64, piece: &[u8]) -> bool {
    match &made.call {
        FileCall::WriteAt(place, bytes) => *place == at && bytes.as_slice() == piece,
        _ => false,
    }
}

// The first disk of a pair. Its file has 9 bytes, and a write takes at most 3.
fn file_disk(alloc: Global, failing: &[u64]) -> Result<FileDisk<MemoryFile>, Fail> {
    let failing = failing.to_vec(alloc)?;
    let mut rack = FolderRack::over(MemoryFolders::of_files(alloc, 9, 3, failing));
    let (first, _second) = rack.open_pair(alloc, "host")?;
    Ok(first)
}

#[test]
fn a_write_to_a_file_is_written_whole(rt: HostRuntime) -> Result<(), Fail> {
    let mut disk = file_disk(rt.alloc(), &[])?;
    assert!(rt; disk.write_at(5, b"abcdefg").is_ok());
    let made = disk.file().made();
    assert_eq!(rt; made.len(), 3);
    assert!(rt; made.len() == 3 && is_write(&made[0], 5, b"abc"));
    assert!(rt; made.len() == 3 && is_write(&made[1], 8, b"def"));
    assert!(rt; made.len() == 3 && is_write(&made[2], 11, b"g"));
    Ok(())
}

fn is_sync_data(made: &MadeCall) -> bool {
    matches!(&made.call, FileCall::SyncData)
}

fn is_sync_all(made: &MadeCall) -> bool {
    matches!(&made.call, FileCall::SyncAll)
}

// The file has 9 bytes, so a cut to 9 makes no length, and one to 4 does.
#[test]
fn a_file_is_cut_and_synced(rt: HostRuntime) -> Result<(), Fail> {
    let mut disk = file_disk(rt.alloc(), &[])?;
    assert!(rt; disk.sync().is_ok() && disk.cut(9).is_ok() && disk.cut(4).is_ok());
    assert!(rt; disk.sync().is_ok() && disk.sync().is_ok());
    let made = disk.file().made();
    assert_eq!(rt; made.len(), 6);
    assert!(rt; made.len() == 6 && is_sync_data(&made[0]) && is_sync_data(&made[5]));
    assert!(rt; made.len() == 6 && matches!(&made[1].call, FileCall::Length(9)));
    assert!(rt; made.len() == 6 && matches!(&made[3].call, FileCall::SetLength(4)));
    assert!(rt; made.len() == 6 && is_sync_all(&made[4]));
    Ok(())
}

// The second of the three pieces fails, and so does the sync behind it.
#[test]
fn a_file_that_fails(rt: HostRuntime) -> Result<(), Fail> {
    let mut disk = file_disk(rt.alloc(), &[2, 3])?;
    assert!(rt; disk.write_at(0, b"abcdefg").is_err() && disk.faults() == 1);
    assert!(rt; disk.sync().is_err() && disk.faults() == 2);
    assert!(rt; disk.sync().is_ok() && disk.faults() == 2);
    assert_eq!(rt; disk.file().made().len(), 4);
    Ok(())
}

// A write of these bytes to an empty file, and a sync of all.
fn are_fill(calls: &[MadeCall], bytes: &[u8]) -> bool {
    calls.len() == 2
        && is_write(&calls[0], 0, bytes)
        && is_sync_all(&calls[1])
        && calls[0].done
        && calls[1].done
}

// A closing has the bytes of the file in place of a path.
fn is_step(step: &Step, kind: &str, path: &str) -> bool {
    match step {
        Step::Lock => kind == "lock" && path.is_empty(),
        Step::CreateFolder(name) => kind == "folder" && name.is(path),
        Step::CreateFile(name) => kind == "file" && name.is(path),
        Step::CloseFile(calls) => kind == "close" && are_fill(calls.as_slice(), path.as_bytes()),
        Step::RemoveFolder(name) => kind == "remove" && name.is(path),
        Step::Rename(from, to) => kind == "rename" && from.is("host/pair.new") && to.is(path),
        Step::SyncFolder(name) => kind == "sync" && name.is(path),
    }
}

fn are_steps(steps: &[Step], wanted: &[(&str, &str)]) -> bool {
    let same = steps
        .iter()
        .zip(wanted.iter())
        .all(|(step, (kind, path))| is_step(step, kind, path));
    same && steps.len() == wanted.len()
}

static MAKES: [(&str, &str); 9] = [
    ("lock", ""),
    ("folder", "host/pair.new"),
    ("file", "host/pair.new/first"),
    ("close", "PSCHJRN1\x01\0\0\0\0\0\0\0\x01\0\0\0\0\0"),
    ("file", "host/pair.new/second"),
    ("close", "PSCHJRN1\0"),
    ("sync", "host/pair.new"),
    ("rename", "host/pair"),
    ("sync", "host"),
];

static SWEEPS: [(&str, &str); 3] = [("lock", ""), ("remove", "host/pair.new"), ("sync", "host")];

fn folder_rack(
    alloc: Global,
    left: bool,
    there: bool,
    failing: &[u64],
) -> Result<FolderRack<MemoryFolders>, AllocError> {
    let failing = failing.to_vec(alloc)?;
    Ok(FolderRack::over(MemoryFolders::new(alloc, left, there, failing)))
}

#[test]
fn the_steps_of_an_opening(rt: HostRuntime) -> Result<(), Fail> {
    let alloc = rt.alloc();
    let mut makes = folder_rack(alloc, false, false, &[])?;
    assert!(rt; makes.open_pair(alloc, "host").is_ok() && makes.faults() == 0);
    assert!(rt; are_steps(makes.calls().steps(), &MAKES));
    let mut sweeps = folder_rack(alloc, true, true, &[])?;
    assert!(rt; sweeps.open_pair(alloc, "host").is_ok());
    assert!(rt; are_steps(sweeps.calls().steps(), &SWEEPS));
    Ok(())
}

// The calls are: open the lock, lock, ask for the left pair, ask for the pair, make the folder, the first
// file, the second, sync the folder, rename it. A closing can't fail.
#[test]
fn a_folder_that_is_not_synced_gets_no_name(rt: HostRuntime) -> Result<(), Fail> {
    let alloc = rt.alloc();
    let mut rack = folder_rack(alloc, false, false, &[8])?;
    assert!(rt; rack.open_pair(alloc, "host").is_err() && rack.faults() == 1);
    assert!(rt; are_steps(rack.calls().steps(), &MAKES[..6]));
    Ok(())
}
