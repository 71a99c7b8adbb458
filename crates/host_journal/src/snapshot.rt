//! Putting a snapshot on the disk that doesn't count.
ghost use Rattle.std.specs.Prelude.{◌≡◌, ◌⊎◌, ◌+◌, ◌-◌, ◌≤◌, ◌<◌, ◌^◌, ◌∷◌, [], true, false, not, IsTrue, length, OnOk, OnErr, vec_capacity};
ghost use Rattle.ps_ports.specs.Causes.{Rose};
ghost use Rattle.ps_disks.specs.Disk.{written, Torn, Follows, Only, LeavesOnly};
ghost use Rattle.ps_disks.specs.declared.disk.DiskCall.TheVariants.{Write, Sync};
ghost use Rattle.host_journal.specs.Calls.{PartAfter};
ghost use Rattle.host_journal.specs.Moments.{Adds, Shows, LiesBeside};
ghost use Rattle.host_journal.specs.State.{is_ready, stored, has_record, snapshot_of, close_calls, fill_calls, snapshot_calls, image_bytes, closing, EachImage, EachSince, SameButRoom, WentOn};
ghost use Rattle.host_journal.specs.Told.{TellsAll, TellsFirst, TellsBoth};

use crate::disk_calls::{replace_rest, write_and_sync};
use crate::fault::DiskFault;
use crate::image::SnapshotImage;
use crate::journal::Journal;
use crate::pending::Pending;
use ps_disks::disk::Disk;
use std::mem;

/// The place of a disk's head gate byte.
pub const HEAD_GATE: u64 = 8;

impl<D: Disk> Journal<D> {
    /// An empty image in the journal's own buffer. `snapshot` gives the buffer back; where the image is
    /// let go instead, the journal has no room. Takes no memory.
    pub fn begin_image(&mut self) -> SnapshotImage
        requires room { 13 ≤ self.old.room }
        ensures bytes { result.bytes ≡ [] }
        ensures room { self.old.room ≤ result.room }
        ensures same { SameButRoom self.old self.new }
    {
        let alloc = *self.buffer.allocator();
        SnapshotImage::begin(mem::replace(&mut self.buffer, Vec::new(alloc)))
    }

    /// Puts a snapshot on the disk that doesn't count, in place of all that the journal stands for. From
    /// then on that disk counts. Takes no memory.
    pub fn snapshot(&mut self, image: SnapshotImage) -> Result<(), DiskFault>
        requires ready { IsTrue (is_ready self.old.pending) }
        requires room { length image.bytes + 13 ≤ image.room }
        requires bound { length image.bytes ≤ 4294967295 }
        requires generation { self.old.generation < 2 ^ 64 - 1 }
        ensures counts { D.premise → OnOk result (stored D.seen self.new ≡ snapshot_of image.bytes self.old) }
        ensures durable { D.premise → OnOk result (EachImage D.may_leave self.new (λ pair. pair ≡ snapshot_of image.bytes self.old)) }
        ensures any_moment { D.premise → EachSince D.moment D.left_since self.old self.new (λ pair. (pair ≡ stored D.seen self.old) ⊎ (pair ≡ snapshot_of image.bytes self.old)) }
        // What an outer run joins with the calls before it.
        ensures adds { D.premise → Adds D.moment D.left_since self.old self.new (λ second c. LiesBeside (stored D.seen self.old) second c ⊎ Shows (snapshot_of image.bytes self.old) second c) }
        ensures left { D.premise → OnErr result (EachImage D.may_leave self.new (λ pair. (pair ≡ stored D.seen self.old) ⊎ (pair ≡ snapshot_of image.bytes self.old))) }
        ensures one_or_other { D.premise → (stored D.seen self.new ≡ stored D.seen self.old) ⊎ (stored D.seen self.new ≡ snapshot_of image.bytes self.old) }
        ensures place { OnOk result ((self.new.generation ≡ self.old.generation + 1) × (self.new.start ≡ 21 + length image.bytes) × (self.new.end ≡ self.new.start) × IsTrue (is_ready self.new.pending)) }
        ensures turned { OnOk result ((self.new.other ≡ self.old.counting) × (self.new.second ≡ not self.old.second)) }
        ensures failed { OnErr result (is_ready self.new.pending ≡ false) }
        ensures room { image.room ≤ self.new.room }
        ensures kept { OnErr result ((self.new.counting ≡ self.old.counting) × (self.new.second ≡ self.old.second)) }
        ensures place_err { OnErr result ((self.new.generation ≡ self.old.generation) × (self.new.start ≡ self.old.start) × (self.new.end ≡ self.old.end)) }
        // So `reload` never answers that a record stands.
        ensures no_record { OnErr result ((pair : _) → has_record self.new.pending pair ≡ false) }
        // What is then known of the head gate byte of the disk that doesn't count.
        ensures shut { OnOk result (self.new.shut ≡ false) }
        ensures shut_err { OnErr result (((self.new.shut ≡ self.old.shut) × TellsFirst D.told D.disk_faults D.calls_advance self.old.other self.new.other (close_calls self.old.shut))
            ⊎ ((self.new.shut ≡ true) × TellsBoth D.told D.disk_faults D.calls_advance self.old.other self.new.other (close_calls self.old.shut) (fill_calls (self.old.generation + 1) image.bytes))) }
        ensures told { OnOk result (TellsAll (D.told self.old.other) (D.told self.new.counting) (snapshot_calls self.old.shut (self.old.generation + 1) image.bytes)) }
        ensures told_first { OnErr result (TellsFirst D.told D.disk_faults D.calls_advance self.old.other self.new.other (snapshot_calls self.old.shut (self.old.generation + 1) image.bytes)) }
        ensures no_fault { OnOk result (D.disk_faults self.new.counting ≡ D.disk_faults self.old.other) }
        ensures cause { OnErr result (Rose (D.disk_faults self.old.other) (D.disk_faults self.new.other)) }
        ensures calls_advance { WentOn D.calls_advance self.old self.new }
    {
        put_image(&mut self.buffer, self.generation + 1, image);
        self.pending = Pending::Unopened;
        close_head(&mut self.other, self.shut)?;
        self.shut = true;
        replace_rest(&mut self.other, &self.buffer)?;
        let start = HEAD_GATE + self.buffer.len() as u64;
        self.pending = Pending::Snapshot(start);
        write_and_sync(&mut self.other, HEAD_GATE, &[1])?;
        mem::swap(&mut self.counting, &mut self.other);
        self.second = !self.second;
        self.generation += 1;
        self.start = start;
        self.end = start;
        self.shut = false;
        self.pending = Pending::Nothing;
        Ok(())
    }
}

// Closes a head gate byte, if it isn't known to be closed.
pub(crate) fn close_head<D: Disk>(disk: &mut D, shut: bool) -> Result<(), DiskFault>
    ensures written { D.premise → OnOk result (D.seen disk.new ≡ written 8 (closing shut) (D.seen disk.old)) }
    ensures fixed { D.premise → OnOk result (Only (D.seen disk.new) (D.may_leave disk.new)) }
    ensures images { D.premise → Follows (Torn 8 (length (closing shut))) (D.may_leave disk.old) (D.may_leave disk.new) }
    ensures moments { D.premise → LeavesOnly D.moment D.left_since disk.old disk.new (PartAfter (Torn 8 (length (closing shut))) (D.may_leave disk.old)) }
    ensures told { OnOk result (TellsAll (D.told disk.old) (D.told disk.new) (Write 8 (closing shut) ∷ Sync ∷ [])) }
    ensures told_first { OnErr result (TellsFirst D.told D.disk_faults D.calls_advance disk.old disk.new (Write 8 (closing shut) ∷ Sync ∷ [])) }
    ensures later { D.disk_faults disk.old ≤ D.disk_faults disk.new }
    ensures no_fault { OnOk result (D.disk_faults disk.new ≡ D.disk_faults disk.old) }
    ensures cause { OnErr result (Rose (D.disk_faults disk.old) (D.disk_faults disk.new)) }
    ensures calls_advance { D.calls_advance disk.old disk.new }
{
    if shut {
        write_and_sync(disk, HEAD_GATE, &[])
    } else {
        write_and_sync(disk, HEAD_GATE, &[0])
    }
}

// The image takes the place of the buffer. Takes no memory.
fn put_image(buffer: &mut Vec<u8>, generation: u64, image: SnapshotImage)
    requires room { length image.bytes + 13 ≤ image.room }
    requires bound { length image.bytes < 2 ^ 32 }
    ensures items { buffer.new.items ≡ image_bytes generation image.bytes }
    ensures capacity { image.room ≤ vec_capacity buffer.new }
{
    drop(mem::replace(buffer, image.into_piece(generation)));
}
