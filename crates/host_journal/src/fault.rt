//! Why a call on a journal failed.

use crate::reading::DiskPlace;
use ps_disks::disk::Disk;
use ps_ports::fault::Failed;
use ps_time::memory::Memory;

/// A call of a disk failed.
#[derive(Clone, Copy)]
pub struct DiskFault;

impl From<Failed> for DiskFault {
    fn from(_fault: Failed) -> DiskFault {
        DiskFault
    }
}

/// Why no journal was opened.
#[derive(Clone, Copy, PartialEq, Eq)]
pub enum OpenReason {
    /// The disks are no journal at that place.
    NotAJournal(DiskPlace),
    /// A call of a disk failed.
    DiskFault,
    Memory,
}

impl From<Failed> for OpenReason {
    ghost use Rattle.host_journal.specs.declared.fault.OpenReason.TheVariants.{DiskFault as disk_fault};
    ghost use Rattle.std.specs.Prelude.{◌≡◌};

    ghost from_gives = { λ _ fault. fault ≡ disk_fault };

    fn from(_fault: Failed) -> OpenReason {
        OpenReason::DiskFault
    }
}

impl From<DiskFault> for OpenReason {
    ghost use Rattle.host_journal.specs.declared.fault.OpenReason.TheVariants.{DiskFault as disk_fault};
    ghost use Rattle.std.specs.Prelude.{◌≡◌};

    ghost from_gives = { λ _ fault. fault ≡ disk_fault };

    fn from(_fault: DiskFault) -> OpenReason {
        OpenReason::DiskFault
    }
}

impl From<Memory> for OpenReason {
    ghost use Rattle.host_journal.specs.declared.fault.OpenReason.TheVariants.{Memory as no_memory};
    ghost use Rattle.std.specs.Prelude.{◌≡◌};

    ghost from_gives = { λ _ fault. fault ≡ no_memory };

    fn from(_fault: Memory) -> OpenReason {
        OpenReason::Memory
    }
}

/// Why no journal was opened, and both disks.
#[derive(Drop)]
pub struct OpenFault<D: Disk> {
    pub first: D,
    pub second: D,
    pub reason: OpenReason,
}
