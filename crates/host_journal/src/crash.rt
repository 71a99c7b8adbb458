//! Disks in memory as a crash leaves them: at once, or as it stops an append or a snapshot.
ghost use Rattle.std.specs.Prelude.{◌≡◌, ◌+◌, ◌-◌, ◌≤◌, ◌<◌, ◌^◌, ◌∷◌, [], true, false, if◌then◌else◌, length, take, IfOk, IsTrue, OnOk};
ghost use Rattle.ps_disks.specs.Disk.{Torn, written};
ghost use Rattle.ps_disks.specs.History.{IsImage, bytes_now, image_bytes, standing};
ghost use Rattle.ps_disks.specs.declared.disk.DiskCall.TheVariants.{Write};
ghost use Rattle.host_journal.specs.Calls.{KeepsHead, PartAfter};
ghost use Rattle.host_journal.specs.Crash.{IsCrashed, is_new, opens_gate, opens_head};
ghost use Rattle.host_journal.specs.Pair.{pair_of};
ghost use Rattle.host_journal.specs.State.{closing, is_ready, snapshot_of, stored, which};

use crate::append::put_record;
use crate::disk_calls::write_and_sync;
use crate::fault::DiskFault;
use crate::image::SnapshotImage;
use crate::journal::{Journal, in_order};
use crate::snapshot::{HEAD_GATE, close_head};
use ps_disks::disk::Disk;
use ps_disks::image::Image;
use ps_disks::memory_disk::MemoryDisk;
use ps_ports::fault::Failed;
use ps_time::memory::Memory;

impl Journal<MemoryDisk> {
    /// Begins to add a record, stops at one of the four calls that `append` makes, counted from 1, or before them all for 0, and
    /// hands back the disks as a crash there leaves them. A write at which it stops counts among those that no sync made sure of;
    /// a sync at which it stops is not made. `Memory` also stands for a call that failed.
    pub fn crash_in_append(
        self,
        payload: &[u8],
        stop: u64,
        image: Image,
    ) -> Result<(MemoryDisk, MemoryDisk), Memory>
        requires ready { IsTrue (is_ready self.pending) }
        requires room { length payload.now + 13 ≤ self.room }
        requires bound { length payload.now ≤ 8388608 }
        requires stop { stop ≤ 4 }
        // With the record exactly where its gate byte was written and the image keeps what is not synced.
        ensures kept { IfOk result (λ disks. pair_of (⟦<MemoryDisk as Disk>⟧.seen disks.0) (⟦<MemoryDisk as Disk>⟧.seen disks.1) ≡ which payload.now (opens_gate stop image) (stored ⟦<MemoryDisk as Disk>⟧.seen self)) }
        ensures first { IfOk result (λ disks. IsCrashed disks.0) }
        ensures second { IfOk result (λ disks. IsCrashed disks.1) }
    {
        let (end, second) = (self.end, self.second);
        let (counting, other, mut buffer) = self.into_parts();
        put_record(&mut buffer, payload);
        let counting = crash_in_record(counting, end, &buffer, stop, image)?;
        let other = crash_now(other, image)?;
        Ok(in_order(second, counting, other))
    }

    /// Begins to put a snapshot on the disk that doesn't count, stops at one of the seven calls that `snapshot` makes, counted
    /// from 1, behind the last where there is none of that number, or before them all for 0, and hands back the disks as a crash
    /// there leaves them, as `crash_in_append` does.
    pub fn crash_in_snapshot(
        self,
        snapshot: SnapshotImage,
        stop: u64,
        image: Image,
    ) -> Result<(MemoryDisk, MemoryDisk), Memory>
        requires ready { IsTrue (is_ready self.pending) }
        requires room { length snapshot.bytes + 13 ≤ snapshot.room }
        requires bound { length snapshot.bytes ≤ 4294967295 }
        requires generation { self.generation < 2 ^ 64 - 1 }
        // The snapshot counts exactly where its head gate byte was made sure of, or was written and the image keeps what is not synced.
        ensures left { IfOk result (λ disks. pair_of (⟦<MemoryDisk as Disk>⟧.seen disks.0) (⟦<MemoryDisk as Disk>⟧.seen disks.1)
            ≡ (if opens_head stop image then snapshot_of snapshot.bytes self else stored ⟦<MemoryDisk as Disk>⟧.seen self)) }
        ensures first { IfOk result (λ disks. IsCrashed disks.0) }
        ensures second { IfOk result (λ disks. IsCrashed disks.1) }
    {
        let (second, generation, shut) = (self.second, self.generation, self.shut);
        let (counting, other, _buffer) = self.into_parts();
        let piece = snapshot.into_piece(generation + 1);
        let other = crash_in_turn(other, shut, &piece, stop, image)?;
        let counting = crash_now(counting, image)?;
        Ok(in_order(second, counting, other))
    }
}

/// What a crash at this moment leaves of a disk.
pub fn crash_now(disk: MemoryDisk, image: Image) -> Result<MemoryDisk, Memory>
    ensures bytes { IfOk result (λ left. bytes_now left.history ≡ image_bytes image disk.history) }
    ensures image { IfOk result (λ left. IsImage disk.history (bytes_now left.history)) }
    ensures crashed { IfOk result (λ left. IsCrashed left) }
{
    disk.crashed(image)
}

// The calls of an append before the one at which it stops, that one too where it is a write, and a crash.
fn crash_in_record(
    disk: MemoryDisk,
    end: u64,
    piece: &[u8],
    stop: u64,
    image: Image,
) -> Result<MemoryDisk, Memory>
    requires { end + 1 < 2 ^ 64 }
    ensures closed { opens_gate stop image ≡ false → IfOk result (λ left. PartAfter (Torn (end + 1) (length piece.now)) (IsImage disk.history) (bytes_now left.history)) }
    ensures opened { opens_gate stop image ≡ true → IfOk result (λ left. bytes_now left.history ≡ written end (1 ∷ []) (written (end + 1) piece.now (bytes_now disk.history))) }
    ensures crashed { IfOk result (λ left. IsCrashed left) }
{
    if stop > 2 {
        return crash_at_gate(disk, end, piece, image);
    }
    if stop > 0 {
        return crash_in_write(disk, end + 1, piece, image);
    }
    crash_now(disk, image)
}

// A write, and a crash.
fn crash_in_write(
    disk: MemoryDisk,
    at: u64,
    piece: &[u8],
    image: Image,
) -> Result<MemoryDisk, Memory>
    ensures part { IfOk result (λ left. PartAfter (Torn at (length piece.now)) (IsImage disk.history) (bytes_now left.history)) }
    ensures crashed { IfOk result (λ left. IsCrashed left) }
{
    let mut disk = disk;
    let Ok(()) = disk.write_at(at, piece) else {
        return Err(Memory);
    };
    crash_now(disk, image)
}

// A piece that is made sure of, the write of the gate byte before it, and a crash. Half of a gate byte is none.
fn crash_at_gate(
    disk: MemoryDisk,
    end: u64,
    piece: &[u8],
    image: Image,
) -> Result<MemoryDisk, Memory>
    requires { end + 1 < 2 ^ 64 }
    ensures closed { is_new image ≡ false → IfOk result (λ left. bytes_now left.history ≡ written (end + 1) piece.now (bytes_now disk.history)) }
    ensures opened { is_new image ≡ true → IfOk result (λ left. bytes_now left.history ≡ written end (1 ∷ []) (written (end + 1) piece.now (bytes_now disk.history))) }
    ensures crashed { IfOk result (λ left. IsCrashed left) }
{
    let mut disk = disk;
    let Ok(()) = write_to_gate(&mut disk, end, piece) else {
        return Err(Memory);
    };
    crash_now(disk, image)
}

// The first three calls of an append.
fn write_to_gate(disk: &mut MemoryDisk, end: u64, piece: &[u8]) -> Result<(), Failed>
    requires { end + 1 < 2 ^ 64 }
    ensures { OnOk result (standing disk.new.history ≡ record { fixed = written (end + 1) piece.now (bytes_now disk.old.history); since = record { call = Write end (1 ∷ []); done = true } ∷ [] }) }
{
    disk.write_at(end + 1, piece)?;
    disk.sync()?;
    disk.write_at(end, &[1])
}

// The calls of a snapshot before the one at which it stops, that one too where it is a write or a cut, and a crash.
fn crash_in_turn(
    disk: MemoryDisk,
    shut: bool,
    piece: &[u8],
    stop: u64,
    image: Image,
) -> Result<MemoryDisk, Memory>
    ensures before { stop ≤ 2 → IfOk result (λ left. PartAfter (Torn 8 (length (closing shut))) (IsImage disk.history) (bytes_now left.history)) }
    ensures closed { 2 < stop → opens_head stop image ≡ false → IfOk result (λ left. KeepsHead (written 8 (closing shut) (bytes_now disk.history)) (bytes_now left.history)) }
    ensures opened { opens_head stop image ≡ true → IfOk result (λ left. bytes_now left.history ≡ written 8 (1 ∷ []) (written 9 piece.now (take 9 (written 8 (closing shut) (bytes_now disk.history))))) }
    ensures crashed { IfOk result (λ left. IsCrashed left) }
{
    if stop > 2 {
        return crash_in_fill(disk, shut, piece, stop, image);
    }
    if stop > 0 {
        return crash_in_close(disk, shut, image);
    }
    crash_now(disk, image)
}

// The write that closes a head gate byte, and a crash.
fn crash_in_close(disk: MemoryDisk, shut: bool, image: Image) -> Result<MemoryDisk, Memory>
    ensures part { IfOk result (λ left. PartAfter (Torn 8 (length (closing shut))) (IsImage disk.history) (bytes_now left.history)) }
    ensures crashed { IfOk result (λ left. IsCrashed left) }
{
    if shut {
        crash_in_write(disk, HEAD_GATE, &[], image)
    } else {
        crash_in_write(disk, HEAD_GATE, &[0], image)
    }
}

// A write that begins behind the sync of a closed head gate byte, and a crash.
fn crash_in_fill(
    disk: MemoryDisk,
    shut: bool,
    piece: &[u8],
    stop: u64,
    image: Image,
) -> Result<MemoryDisk, Memory>
    requires behind { 2 < stop }
    ensures closed { opens_head stop image ≡ false → IfOk result (λ left. KeepsHead (written 8 (closing shut) (bytes_now disk.history)) (bytes_now left.history)) }
    ensures opened { opens_head stop image ≡ true → IfOk result (λ left. bytes_now left.history ≡ written 8 (1 ∷ []) (written 9 piece.now (take 9 (written 8 (closing shut) (bytes_now disk.history))))) }
    ensures crashed { IfOk result (λ left. IsCrashed left) }
{
    let mut disk = disk;
    let Ok(()) = close_and_cut(&mut disk, shut) else {
        return Err(Memory);
    };
    if stop > 7 {
        return crash_behind_gate(disk, piece, image);
    }
    if stop > 5 {
        return crash_at_gate(disk, HEAD_GATE, piece, image);
    }
    if stop > 3 {
        return crash_in_write(disk, HEAD_GATE + 1, piece, image);
    }
    crash_now(disk, image)
}

// The first three calls of a snapshot.
fn close_and_cut(disk: &mut MemoryDisk, shut: bool) -> Result<(), DiskFault>
    ensures cut { OnOk result (bytes_now disk.new.history ≡ take 9 (written 8 (closing shut) (bytes_now disk.old.history))) }
    ensures images { OnOk result ((c : _) → IsImage disk.new.history c → KeepsHead (written 8 (closing shut) (bytes_now disk.old.history)) c) }
{
    close_head(disk, shut)?;
    disk.cut(9)?;
    Ok(())
}

// The other four, and a crash.
fn crash_behind_gate(disk: MemoryDisk, piece: &[u8], image: Image) -> Result<MemoryDisk, Memory>
    ensures opened { IfOk result (λ left. bytes_now left.history ≡ written 8 (1 ∷ []) (written 9 piece.now (bytes_now disk.history))) }
    ensures crashed { IfOk result (λ left. IsCrashed left) }
{
    let mut disk = disk;
    let Ok(()) = write_and_sync(&mut disk, HEAD_GATE + 1, piece) else {
        return Err(Memory);
    };
    let Ok(()) = write_and_sync(&mut disk, HEAD_GATE, &[1]) else {
        return Err(Memory);
    };
    crash_now(disk, image)
}
