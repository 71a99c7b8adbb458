//! A step over disks in memory, and what its answer says of their calls.
ghost use Rattle.std.specs.Prelude.{◌≡◌, ◌⊎◌, Err};
ghost use Rattle.ps_disks.specs.Run.{IsArmed, IsSpared, MeetsFault};
ghost use Rattle.host_journal.specs.State.{first_disk, second_disk};
ghost use Rattle.machine_keep.specs.Armed.{Lacks};
ghost use Rattle.machine_keep.specs.declared.fault.StepFault.TheVariants.{Disk as disk_fault};

use crate::gatherer::Gatherer;
use machine_keep::fault::StepFault;
use machine_keep::keep::Keep;
use machine_keep::law::{law_armed, law_no_fault};
use ps_disks::memory_disk::MemoryDisk;
use ps_time::items::Items;
use std::alloc::Global;

/// A step over disks of each of which a call may be to fail, and no read.
pub fn armed_step(
    alloc: Global,
    keep: &mut Keep<Gatherer, MemoryDisk>,
    call: Option<Items<u8>>,
) -> Result<usize, StepFault>
    requires first { IsArmed (first_disk keep.old.journal) (first_disk keep.old.journal).until_fault }
    requires second { IsArmed (second_disk keep.old.journal) (second_disk keep.old.journal).until_fault }
    ensures fault { result ≡ Err disk_fault → MeetsFault (first_disk keep.old.journal) (first_disk keep.new.journal) ⊎ MeetsFault (second_disk keep.old.journal) (second_disk keep.new.journal) }
    ensures spared { (result ≡ Err disk_fault → ⊥) → IsSpared (first_disk keep.old.journal) (first_disk keep.new.journal) × IsSpared (second_disk keep.old.journal) (second_disk keep.new.journal) }
    ensures no_fault { IsArmed (first_disk keep.old.journal) 0 → IsArmed (second_disk keep.old.journal) 0 → result ≡ Err disk_fault
        → Lacks (first_disk keep.old.journal) (first_disk keep.new.journal) ⊎ Lacks (second_disk keep.old.journal) (second_disk keep.new.journal) }
{
    law_no_fault::<Gatherer>();
    law_armed::<Gatherer>();
    keep.apply(alloc, call)
}
