//! Runs of calls on one disk, or on both.
ghost use Rattle.std.specs.Prelude.{◌≡◌, ◌+◌, ◌≤◌, ◌<◌, ◌^◌, ◌∷◌, [], ◌⊎◌, ◌==◌, slice_index_or, nat_le, length, take, drop, IfOk, OnOk, OnErr, IsErrOf};
ghost use Rattle.ps_disks.specs.Disk.{ReadsAt, written, Torn, Shortened, Follows, Only, LeavesOnly};
ghost use Rattle.ps_ports.specs.Causes.{Rose};
ghost use Rattle.ps_disks.specs.declared.disk.DiskCall.TheVariants.{Write, Cut, Sync};
ghost use Rattle.host_journal.specs.Told.{TellsAll, TellsFirst, TellsSyncs};
ghost use Rattle.host_journal.specs.Calls.{PartAfter, KeepsHead, IsRead};

use crate::fault::{DiskFault, OpenReason};
use ps_disks::disk::Disk;
use std::alloc::Global;

/// Writes a piece, and makes sure of it.
pub fn write_and_sync<D: Disk>(disk: &mut D, at: u64, piece: &[u8]) -> Result<(), DiskFault>
    ensures written { D.premise → OnOk result (D.seen disk.new ≡ written at piece.now (D.seen disk.old)) }
    ensures fixed { D.premise → OnOk result (Only (D.seen disk.new) (D.may_leave disk.new)) }
    ensures part { D.premise → Torn at (length piece.now) (D.seen disk.old) (D.seen disk.new) }
    ensures images { D.premise → Follows (Torn at (length piece.now)) (D.may_leave disk.old) (D.may_leave disk.new) }
    ensures moments { D.premise → LeavesOnly D.moment D.left_since disk.old disk.new (PartAfter (Torn at (length piece.now)) (D.may_leave disk.old)) }
    ensures reach { OnOk result (at + length piece.now < 2 ^ 64) }
    ensures told { OnOk result (TellsAll (D.told disk.old) (D.told disk.new) (Write at piece.now ∷ Sync ∷ [])) }
    ensures told_first { OnErr result (TellsFirst D.told D.disk_faults D.calls_advance disk.old disk.new (Write at piece.now ∷ Sync ∷ [])) }
    ensures later { D.disk_faults disk.old ≤ D.disk_faults disk.new }
    ensures no_fault { OnOk result (D.disk_faults disk.new ≡ D.disk_faults disk.old) }
    ensures cause { OnErr result (Rose (D.disk_faults disk.old) (D.disk_faults disk.new)) }
    ensures calls_advance { D.calls_advance disk.old disk.new }
{
    disk.write_at(at, piece)?;
    disk.sync()?;
    Ok(())
}

/// Cuts a disk, and makes sure of that.
pub fn cut_and_sync<D: Disk>(disk: &mut D, len: u64) -> Result<(), DiskFault>
    ensures cut { D.premise → OnOk result (D.seen disk.new ≡ take len (D.seen disk.old)) }
    ensures fixed { D.premise → OnOk result (Only (D.seen disk.new) (D.may_leave disk.new)) }
    ensures part { D.premise → Shortened len (D.seen disk.old) (D.seen disk.new) }
    ensures images { D.premise → Follows (Shortened len) (D.may_leave disk.old) (D.may_leave disk.new) }
    ensures moments { D.premise → LeavesOnly D.moment D.left_since disk.old disk.new (PartAfter (Shortened len) (D.may_leave disk.old)) }
    ensures told { OnOk result (TellsAll (D.told disk.old) (D.told disk.new) (Cut len ∷ Sync ∷ [])) }
    ensures told_first { OnErr result (TellsFirst D.told D.disk_faults D.calls_advance disk.old disk.new (Cut len ∷ Sync ∷ [])) }
    ensures later { D.disk_faults disk.old ≤ D.disk_faults disk.new }
    ensures no_fault { OnOk result (D.disk_faults disk.new ≡ D.disk_faults disk.old) }
    ensures cause { OnErr result (Rose (D.disk_faults disk.old) (D.disk_faults disk.new)) }
    ensures calls_advance { D.calls_advance disk.old disk.new }
{
    disk.cut(len)?;
    disk.sync()?;
    Ok(())
}

/// Cuts a disk to its head, writes a piece behind that, and makes sure of it.
pub fn replace_rest<D: Disk>(disk: &mut D, piece: &[u8]) -> Result<(), DiskFault>
    ensures written { D.premise → OnOk result (D.seen disk.new ≡ written 9 piece.now (take 9 (D.seen disk.old))) }
    ensures fixed { D.premise → OnOk result (Only (D.seen disk.new) (D.may_leave disk.new)) }
    ensures images { D.premise → Follows KeepsHead (D.may_leave disk.old) (D.may_leave disk.new) }
    ensures moments { D.premise → LeavesOnly D.moment D.left_since disk.old disk.new (PartAfter KeepsHead (D.may_leave disk.old)) }
    ensures reach { OnOk result (9 + length piece.now < 2 ^ 64) }
    ensures told { OnOk result (TellsAll (D.told disk.old) (D.told disk.new) (Cut 9 ∷ Write 9 piece.now ∷ Sync ∷ [])) }
    ensures told_first { OnErr result (TellsFirst D.told D.disk_faults D.calls_advance disk.old disk.new (Cut 9 ∷ Write 9 piece.now ∷ Sync ∷ [])) }
    ensures later { D.disk_faults disk.old ≤ D.disk_faults disk.new }
    ensures no_fault { OnOk result (D.disk_faults disk.new ≡ D.disk_faults disk.old) }
    ensures cause { OnErr result (Rose (D.disk_faults disk.old) (D.disk_faults disk.new)) }
    ensures calls_advance { D.calls_advance disk.old disk.new }
{
    disk.cut(9)?;
    disk.write_at(9, piece)?;
    disk.sync()?;
    Ok(())
}

/// Reads the first bytes of a disk, as many as the buffer has or all where there are fewer, and answers
/// how many.
pub fn read_head<D: Disk>(disk: &mut D, head: &mut [u8]) -> Result<usize, DiskFault>
    ensures head { D.premise → IfOk result (λ n. take n head.new ≡ take (length head.old) (D.seen disk.old)) }
    ensures bound { IfOk result (λ n. n ≤ length head.new) }
    ensures read { D.premise → IsRead D.seen D.may_leave D.moment D.left_since disk.old disk.new }
    ensures told { D.told disk.new ≡ D.told disk.old }
    ensures later { D.disk_faults disk.old ≤ D.disk_faults disk.new }
    ensures no_fault { OnOk result (D.disk_faults disk.new ≡ D.disk_faults disk.old) }
    ensures cause { OnErr result (Rose (D.disk_faults disk.old) (D.disk_faults disk.new)) }
    ensures calls_advance { D.calls_advance disk.old disk.new }
{
    let mut count = 0;
    while count < head.len() {
        let more = read_part(disk, head, count)?;
        if more == 0 {
            return Ok(count);
        }
        count += more;
    }
    Ok(count)
}

// One read from a place on, to the same place of the buffer.
fn read_part<D: Disk>(disk: &mut D, bytes: &mut [u8], at: usize) -> Result<usize, DiskFault>
    requires { at ≤ length bytes.old }
    ensures bytes { D.premise → IfOk result (λ n. ReadsAt (D.seen disk.old) at (drop at bytes.new) n) }
    ensures bound { IfOk result (λ n. at + n ≤ length bytes.new) }
    ensures front { take at bytes.new ≡ take at bytes.old }
    ensures len { length bytes.new ≡ length bytes.old }
    ensures read { D.premise → IsRead D.seen D.may_leave D.moment D.left_since disk.old disk.new }
    ensures told { D.told disk.new ≡ D.told disk.old }
    ensures later { D.disk_faults disk.old ≤ D.disk_faults disk.new }
    ensures no_fault { OnOk result (D.disk_faults disk.new ≡ D.disk_faults disk.old) }
    ensures cause { OnErr result (Rose (D.disk_faults disk.old) (D.disk_faults disk.new)) }
    ensures calls_advance { D.calls_advance disk.old disk.new }
{
    Ok(disk.read(at as u64, &mut bytes[at..])?)
}

/// Whether there is a byte at a place.
pub fn has_byte_at<D: Disk>(disk: &mut D, at: u64) -> Result<bool, DiskFault>
    ensures has { D.premise → IfOk result (λ has. has ≡ nat_le (at + 1) (length (D.seen disk.old))) }
    ensures read { D.premise → IsRead D.seen D.may_leave D.moment D.left_since disk.old disk.new }
    ensures told { D.told disk.new ≡ D.told disk.old }
    ensures later { D.disk_faults disk.old ≤ D.disk_faults disk.new }
    ensures no_fault { OnOk result (D.disk_faults disk.new ≡ D.disk_faults disk.old) }
    ensures cause { OnErr result (Rose (D.disk_faults disk.old) (D.disk_faults disk.new)) }
    ensures calls_advance { D.calls_advance disk.old disk.new }
{
    let mut byte = [0; 1];
    let count = disk.read(at, &mut byte)?;
    Ok(count == 1)
}

// A length, of which there are no more bytes: 65,536, or twice that, and so on.
fn bound_of<D: Disk>(disk: &mut D) -> Result<u64, DiskFault>
    ensures read { D.premise → IsRead D.seen D.may_leave D.moment D.left_since disk.old disk.new }
    ensures told { D.told disk.new ≡ D.told disk.old }
    ensures later { D.disk_faults disk.old ≤ D.disk_faults disk.new }
    ensures no_fault { OnOk result (D.disk_faults disk.new ≡ D.disk_faults disk.old) }
    ensures cause { OnErr result (Rose (D.disk_faults disk.old) (D.disk_faults disk.new)) }
    ensures calls_advance { D.calls_advance disk.old disk.new }
{
    let mut bound = 65_536u64;
    while has_byte_at(disk, bound)? {
        let Some(twice) = bound.checked_mul(2) else {
            return Ok(bound);
        };
        bound = twice;
    }
    Ok(bound)
}

// How many bytes there are to read, found by halves. Nothing stands on it but how much memory is asked
// for.
fn measure<D: Disk>(disk: &mut D) -> Result<usize, DiskFault>
    ensures read { D.premise → IsRead D.seen D.may_leave D.moment D.left_since disk.old disk.new }
    ensures told { D.told disk.new ≡ D.told disk.old }
    ensures later { D.disk_faults disk.old ≤ D.disk_faults disk.new }
    ensures no_fault { OnOk result (D.disk_faults disk.new ≡ D.disk_faults disk.old) }
    ensures cause { OnErr result (Rose (D.disk_faults disk.old) (D.disk_faults disk.new)) }
    ensures calls_advance { D.calls_advance disk.old disk.new }
{
    let mut low = 0;
    let mut high = bound_of(disk)?;
    while low < high {
        let middle = low + (high - low) / 2;
        if has_byte_at(disk, middle)? {
            low = middle + 1;
        } else {
            high = middle;
        }
    }
    Ok(low as usize)
}

/// All the bytes, in a buffer of their length.
pub fn read_rest<D: Disk>(alloc: Global, disk: &mut D) -> Result<Vec<u8>, OpenReason>
    ensures bytes { D.premise → IfOk result (λ bytes. bytes.items ≡ D.seen disk.old) }
    ensures read { D.premise → IsRead D.seen D.may_leave D.moment D.left_since disk.old disk.new }
    ensures told { D.told disk.new ≡ D.told disk.old }
    ensures later { D.disk_faults disk.old ≤ D.disk_faults disk.new }
    ensures no_fault { (IsErrOf result OpenReason.DiskFault → ⊥) → D.disk_faults disk.new ≡ D.disk_faults disk.old }
    ensures cause { IsErrOf result OpenReason.DiskFault → Rose (D.disk_faults disk.old) (D.disk_faults disk.new) }
    ensures journal { (place : _) → IsErrOf result (OpenReason.NotAJournal place) → ⊥ }
    ensures calls_advance { D.calls_advance disk.old disk.new }
{
    let len = measure(disk)?;
    let Ok(mut all) = Vec::with_capacity(alloc, len) else {
        return Err(OpenReason::Memory);
    };
    let mut buf = [0; 65536];
    loop {
        let Ok(count) = disk.read(all.len() as u64, &mut buf) else {
            return Err(OpenReason::DiskFault);
        };
        if count == 0 {
            return Ok(all);
        }
        if all.extend_from_slice(&buf[..count]).is_err() {
            return Err(OpenReason::Memory);
        }
    }
}

/// Makes sure of two disks, one after the other.
pub fn sync_both<D: Disk>(one: &mut D, other: &mut D) -> Result<(), DiskFault>
    ensures fixed { D.premise → OnOk result (Only (D.seen one.new) (D.may_leave one.new) × Only (D.seen other.new) (D.may_leave other.new)) }
    ensures read_one { D.premise → IsRead D.seen D.may_leave D.moment D.left_since one.old one.new }
    ensures read_other { D.premise → IsRead D.seen D.may_leave D.moment D.left_since other.old other.new }
    ensures told_one { OnOk result (TellsAll (D.told one.old) (D.told one.new) (Sync ∷ [])) }
    ensures told_other { OnOk result (TellsAll (D.told other.old) (D.told other.new) (Sync ∷ [])) }
    ensures told_err { OnErr result (TellsSyncs D.told D.disk_faults D.calls_advance one.old other.old one.new other.new) }
    ensures later_one { D.disk_faults one.old ≤ D.disk_faults one.new }
    ensures later_other { D.disk_faults other.old ≤ D.disk_faults other.new }
    ensures no_fault { OnOk result ((D.disk_faults one.new ≡ D.disk_faults one.old) × (D.disk_faults other.new ≡ D.disk_faults other.old)) }
    ensures cause { OnErr result (Rose (D.disk_faults one.old) (D.disk_faults one.new) ⊎ Rose (D.disk_faults other.old) (D.disk_faults other.new)) }
    ensures calls_advance_one { D.calls_advance one.old one.new }
    ensures calls_advance_other { D.calls_advance other.old other.new }
{
    one.sync()?;
    other.sync()?;
    Ok(())
}

/// Whether the byte at a place is an open gate byte.
pub fn is_open_at<D: Disk>(disk: &mut D, at: u64) -> Result<bool, DiskFault>
    ensures gate_byte { D.premise → IfOk result (λ opens. opens ≡ (slice_index_or (D.seen disk.old) at 0 == 1)) }
    ensures read { D.premise → IsRead D.seen D.may_leave D.moment D.left_since disk.old disk.new }
    ensures told { D.told disk.new ≡ D.told disk.old }
    ensures later { D.disk_faults disk.old ≤ D.disk_faults disk.new }
    ensures no_fault { OnOk result (D.disk_faults disk.new ≡ D.disk_faults disk.old) }
    ensures cause { OnErr result (Rose (D.disk_faults disk.old) (D.disk_faults disk.new)) }
    ensures calls_advance { D.calls_advance disk.old disk.new }
{
    let mut gate_byte = [0; 1];
    let count = disk.read(at, &mut gate_byte)?;
    Ok(count == 1 && gate_byte[0] == 1)
}
