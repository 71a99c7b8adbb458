//! A step that a crash stops, over disks in memory.
ghost use Rattle.std.specs.Prelude.{◌≡◌, ◌+◌, ◌-◌, ◌≤◌, ◌<◌, IfOk, IsTrue, Some, false, true, if◌then◌else◌, length};
ghost use Rattle.ps_disks.specs.Disk.{AreBounded, Only};
ghost use Rattle.ps_disks.specs.History.{bytes_now, image_bytes};
ghost use Rattle.ps_disks.specs.Run.{IsArmed};
ghost use Rattle.host_journal.specs.Crash.{IsCrashed, is_new};
ghost use Rattle.host_journal.specs.State.{first_disk, is_ready, second_disk, stored};
ghost use Rattle.machine_keep.specs.Kept.{StandsFor};
ghost use Rattle.machine_keep.specs.Faulted.{seen_on};
ghost use Rattle.machine_keep.specs.InMemory.{LeavesBehind, LeavesExactly, LeavesStep, StopsBehindStep, StopsInStep, found_in_memory, left_first, seen_pair, state_left};

use crate::keep::Keep;
use crate::machine::{Decided, Machine};
use crate::snapshot::{MOST_IMAGE_BYTES, image_in};
use host_journal::crash::crash_now;
use ps_disks::disk::Disk;
use ps_disks::image::Image;
use ps_disks::memory_disk::MemoryDisk;
use ps_time::memory::Memory;
use std::alloc::Global;

impl<M: Machine + Drop> Keep<M, MemoryDisk> {
    /// Begins to make a step, stops at one of its calls of the disks, counted from 1 over both, after the last where it makes
    /// fewer, and before them all for 0, and hands back the disks as a crash there leaves them. A write or cut at which it stops
    /// counts among those that no sync made sure of; a sync at which it stops is not made. `Keep::open` then finds the state for
    /// which the disks stand. `Memory` also stands for a call of a disk that failed, and for a snapshot that would have been put off
    /// out of memory.
    pub fn crash_in(
        self,
        alloc: Global,
        call: M::Call,
        stop: u64,
        image: Image,
    ) -> Result<(MemoryDisk, MemoryDisk), Memory>
        requires may { M.may_ask (M.fixed (M.state self.machine)) call }
        requires ready { IsTrue (is_ready self.journal.pending) }
        // The step that the call would have made is kept exactly so.
        ensures kept { IfOk result (λ disks. LeavesStep M.Machine (M.state self.machine) call stop image (seen_pair disks.0 disks.1)) }
        // And of that step, which list it is that the disks stand for, and on which of them.
        ensures left { IfOk result (λ disks. LeavesExactly M.Machine self call stop image (seen_pair disks.0 disks.1)) }
        ensures no_fault { IfOk result (λ disks. IsArmed disks.0 0 × IsArmed disks.1 0) }
        // A later crash leaves what they read.
        ensures first { IfOk result (λ disks. Only (⟦<MemoryDisk as Disk>⟧.seen disks.0) (⟦<MemoryDisk as Disk>⟧.may_leave disks.0)) }
        ensures second { IfOk result (λ disks. Only (⟦<MemoryDisk as Disk>⟧.seen disks.1) (⟦<MemoryDisk as Disk>⟧.may_leave disks.1)) }
        ensures size { IfOk result (λ disks. AreBounded (⟦<MemoryDisk as Disk>⟧.may_leave disks.0) × AreBounded (⟦<MemoryDisk as Disk>⟧.may_leave disks.1)) }
    {
        let mut keep = self;
        keep.known();
        let Decided { reply: _, step } = keep.machine.decide(alloc, call)?;
        match step {
            Some(step) => keep.crash_in_step(alloc, step, stop, image),
            None => keep.crash_at_rest(image),
        }
    }

    /// A crash in the step of a machine whose last call met a fault. Its step begins with a sync of the first disk and one of the second,
    /// which count too: from the third call on it is as `crash_in` with two calls less, in the state that is found to stand.
    pub fn crash_in_again(
        self,
        alloc: Global,
        call: M::Call,
        stop: u64,
        image: Image,
    ) -> Result<(MemoryDisk, MemoryDisk), Memory>
        requires may { M.may_ask (M.fixed (M.state self.machine)) call }
        requires failed { is_ready self.journal.pending ≡ false }
        // Before its sync a disk is left in the image, and behind it as it reads.
        ensures one { stop ≤ 2 → IfOk result (λ disks. bytes_now disks.0.history ≡ left_first stop image (first_disk self.journal)) }
        ensures two { stop ≤ 2 → IfOk result (λ disks. bytes_now disks.1.history ≡ image_bytes image (second_disk self.journal).history) }
        // The image that keeps what no sync made sure of is what they read.
        ensures reads { stop ≤ 2 → is_new image ≡ true → IfOk result (λ disks. seen_pair disks.0 disks.1 ≡ stored seen_on self.journal) }
        // Behind both the step is kept exactly so.
        ensures kept { 2 < stop → IfOk result (λ disks.
            LeavesStep M.Machine (found_in_memory M.Machine self) call (stop - 2) image (seen_pair disks.0 disks.1)) }
        ensures left { 2 < stop → IfOk result (λ disks. LeavesBehind M.Machine self call (stop - 2) image (seen_pair disks.0 disks.1)) }
        ensures no_fault { IfOk result (λ disks. IsArmed disks.0 0 × IsArmed disks.1 0) }
        ensures first { IfOk result (λ disks. Only (⟦<MemoryDisk as Disk>⟧.seen disks.0) (⟦<MemoryDisk as Disk>⟧.may_leave disks.0)) }
        ensures second { IfOk result (λ disks. Only (⟦<MemoryDisk as Disk>⟧.seen disks.1) (⟦<MemoryDisk as Disk>⟧.may_leave disks.1)) }
        ensures size { IfOk result (λ disks. AreBounded (⟦<MemoryDisk as Disk>⟧.may_leave disks.0) × AreBounded (⟦<MemoryDisk as Disk>⟧.may_leave disks.1)) }
    {
        if stop > 2 {
            let mut keep = self;
            let Ok(()) = keep.catch_up() else {
                return Err(Memory);
            };
            return keep.crash_in(alloc, call, stop - 2, image);
        }
        drop(call);
        self.crash_in_syncs(stop, image)
    }

    // Before the syncs, or behind the first one.
    fn crash_in_syncs(self, stop: u64, image: Image) -> Result<(MemoryDisk, MemoryDisk), Memory>
        ensures one { IfOk result (λ disks. bytes_now disks.0.history ≡ left_first stop image (first_disk self.journal)) }
        ensures two { IfOk result (λ disks. bytes_now disks.1.history ≡ image_bytes image (second_disk self.journal).history) }
        ensures reads { is_new image ≡ true → IfOk result (λ disks. seen_pair disks.0 disks.1 ≡ stored seen_on self.journal) }
        ensures first { IfOk result (λ disks. IsCrashed disks.0) }
        ensures second { IfOk result (λ disks. IsCrashed disks.1) }
    {
        let (first, second) = self.into_disks();
        let first = crash_synced(first, stop > 1, image)?;
        let second = crash_now(second, image)?;
        Ok((first, second))
    }

    // A step without changes makes no call.
    fn crash_at_rest(self, image: Image) -> Result<(MemoryDisk, MemoryDisk), Memory>
        requires ready { IsTrue (is_ready self.journal.pending) }
        ensures stands { IfOk result (λ disks. StandsFor M.stands_for (M.state self.machine) (seen_pair disks.0 disks.1)) }
        ensures left { IfOk result (λ disks. seen_pair disks.0 disks.1 ≡ stored seen_on self.journal) }
        ensures first { IfOk result (λ disks. IsCrashed disks.0) }
        ensures second { IfOk result (λ disks. IsCrashed disks.1) }
    {
        self.known();
        let (first, second) = self.into_disks();
        let first = crash_now(first, image)?;
        let second = crash_now(second, image)?;
        Ok((first, second))
    }

    // The first four calls are those of the record.
    fn crash_in_step(
        self,
        alloc: Global,
        step: M::Step,
        stop: u64,
        image: Image,
    ) -> Result<(MemoryDisk, MemoryDisk), Memory>
        requires ready { IsTrue (is_ready self.journal.pending) }
        requires follows { M.follows (M.state self.machine) step }
        requires has_room { M.has_room self.machine step }
        requires short { length (M.record_of step) ≤ 8388608 }
        ensures kept { IfOk result (λ disks. StandsFor M.stands_for (state_left M.Machine (M.state self.machine) step stop image) (seen_pair disks.0 disks.1)) }
        ensures left { IfOk result (λ disks. StopsInStep M.Machine self step stop image (seen_pair disks.0 disks.1)) }
        ensures first { IfOk result (λ disks. IsCrashed disks.0) }
        ensures second { IfOk result (λ disks. IsCrashed disks.1) }
    {
        let mut keep = self;
        keep.known();
        let bytes = keep.machine.write_record(alloc, &step)?;
        keep.journal.reserve(bytes.len())?;
        if stop > 4 {
            let Ok(()) = keep.put(step, &bytes) else {
                return Err(Memory);
            };
            return keep.crash_in_shorten(alloc, stop - 4, image);
        }
        drop(step);
        keep.into_journal().crash_in_append(&bytes, stop, image)
    }

    // A snapshot, where one is due, and the state stays.
    fn crash_in_shorten(
        self,
        alloc: Global,
        stop: u64,
        image: Image,
    ) -> Result<(MemoryDisk, MemoryDisk), Memory>
        requires ready { IsTrue (is_ready self.journal.pending) }
        ensures stands { IfOk result (λ disks. StandsFor M.stands_for (M.state self.machine) (seen_pair disks.0 disks.1)) }
        ensures left { IfOk result (λ disks. StopsBehindStep M.Machine self stop image (seen_pair disks.0 disks.1)) }
        ensures first { IfOk result (λ disks. IsCrashed disks.0) }
        ensures second { IfOk result (λ disks. IsCrashed disks.1) }
    {
        self.known();
        if !self.has_many_records() || self.generation() == u64::MAX {
            return self.crash_at_rest(image);
        }
        let mut keep = self;
        let snapshot = image_in(alloc, &keep.machine, &mut keep.journal)?;
        if snapshot.len() > MOST_IMAGE_BYTES {
            drop(snapshot);
            return keep.crash_at_rest(image);
        }
        keep.into_journal().crash_in_snapshot(snapshot, stop, image)
    }
}

// A sync, or none, and a crash.
fn crash_synced(disk: MemoryDisk, synced: bool, image: Image) -> Result<MemoryDisk, Memory>
    ensures bytes { IfOk result (λ left. bytes_now left.history ≡ (if synced then bytes_now disk.history else image_bytes image disk.history)) }
    ensures crashed { IfOk result (λ left. IsCrashed left) }
{
    if !synced {
        return crash_now(disk, image);
    }
    let mut disk = disk;
    let Ok(()) = disk.sync() else {
        return Err(Memory);
    };
    crash_now(disk, image)
}
