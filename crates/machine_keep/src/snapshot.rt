//! A snapshot of a machine, put in place of a journal's records.
ghost use Rattle.std.specs.Prelude.{◌≡◌, ◌+◌, ◌≤◌, Err, IfOk, IsTrue, OnOk, [], ◌∷◌, false, length};
ghost use Rattle.host_journal.specs.State.{is_ready, stored, SameButRoom, WentOn};
ghost use Rattle.machine_keep.specs.Kept.{StandsFor};
ghost use Rattle.machine_keep.specs.declared.fault.StepFault.TheVariants.{Disk as disk_fault, Memory as no_memory};
ghost use Rattle.machine_keep.specs.BothDisks.{FaultRose, FaultsAdvance, NoFault};
ghost use Rattle.machine_keep.specs.Ends.{AddsSnapshot, PutsSnapshot, StillStands, StopsInSnapshot};

use crate::fault::StepFault;
use crate::machine::Machine;
use host_journal::image::SnapshotImage;
use host_journal::journal::Journal;
use ps_disks::disk::Disk;
use ps_time::memory::Memory;
use std::alloc::Global;

/// No snapshot has more bytes.
pub(crate) const MOST_IMAGE_BYTES: usize = 4_294_967_295;

/// Puts a snapshot of the machine in place of all records. `StepFault::Memory` puts it off, and leaves all but the room: there was
/// no memory for it, it has too many bytes, or the journal is in its last generation.
pub fn put_snapshot<M: Machine, D: Disk>(
    alloc: Global,
    machine: &M,
    journal: &mut Journal<D>,
) -> Result<(), StepFault>
    requires ready { IsTrue (is_ready journal.old.pending) }
    ensures written { D.premise → OnOk result (StandsFor M.stands_for (M.state machine.now) (stored D.seen journal.new)) }
    ensures stands { D.premise → StillStands M.Machine D.Disk (M.state machine.now) journal.old journal.new }
    ensures adds { D.premise → AddsSnapshot M.Machine D.Disk (M.state machine.now) journal.old journal.new }
    ensures empty { OnOk result (journal.new.end ≡ journal.new.start) }
    ensures ready { OnOk result (IsTrue (is_ready journal.new.pending)) }
    ensures unready { result ≡ Err disk_fault → is_ready journal.new.pending ≡ false }
    ensures put_off { result ≡ Err no_memory → SameButRoom journal.old journal.new }
    ensures turned { OnOk result (PutsSnapshot M.Machine D.Disk (M.state machine.now) journal.old journal.new) }
    ensures told_first { result ≡ Err disk_fault → StopsInSnapshot M.Machine D.Disk (M.state machine.now) journal.old journal.new }
    ensures later { FaultsAdvance D.Disk journal.old journal.new }
    ensures no_fault { (result ≡ Err disk_fault → ⊥) → NoFault D.Disk journal.old journal.new }
    ensures cause { result ≡ Err disk_fault → FaultRose D.Disk journal.old journal.new }
    ensures calls_advance { WentOn D.calls_advance journal.old journal.new }
{
    if journal.generation() == u64::MAX {
        return Err(StepFault::Memory);
    }
    let image = image_in(alloc, machine, journal)?;
    if image.len() > MOST_IMAGE_BYTES {
        return Err(StepFault::Memory);
    }
    journal.snapshot(image)?;
    Ok(())
}

/// The machine's snapshot in the journal's own buffer, with room for what is written behind it.
pub(crate) fn image_in<M: Machine, D: Disk>(
    alloc: Global,
    machine: &M,
    journal: &mut Journal<D>,
) -> Result<SnapshotImage, Memory>
    ensures stands { IfOk result (λ image. M.stands_for (image.bytes ∷ []) (M.state machine.now)) }
    ensures room { IfOk result (λ image. length image.bytes + 13 ≤ image.room) }
    ensures same { SameButRoom journal.old journal.new }
{
    journal.reserve(machine.image_guess())?;
    let mut image = machine.write_image(alloc, journal.begin_image())?;
    image.reserve_end()?;
    Ok(image)
}
