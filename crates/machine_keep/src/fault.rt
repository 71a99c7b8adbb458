//! Why a step was not made, or not wholly.
ghost use Rattle.std.specs.Prelude.{◌≡◌};

use host_journal::fault::DiskFault;
use ps_time::memory::Memory;

/// Why a step has no answer.
#[derive(Clone, Copy, Debug, PartialEq, Eq)]
pub enum StepFault {
    /// A disk failed. What the step changes is kept whole or not at all; the next call finds out which.
    Disk,
    /// There was no memory, and nothing changed.
    Memory,
}

impl From<DiskFault> for StepFault {
    ghost use Rattle.std.specs.Prelude.{◌≡◌};
    ghost use Rattle.machine_keep.specs.declared.fault.StepFault.TheVariants.{Disk as disk_fault};

    ghost from_gives = { λ _ fault. fault ≡ disk_fault };

    fn from(_fault: DiskFault) -> StepFault {
        StepFault::Disk
    }
}

impl From<Memory> for StepFault {
    ghost use Rattle.std.specs.Prelude.{◌≡◌};
    ghost use Rattle.machine_keep.specs.declared.fault.StepFault.TheVariants.{Memory as no_memory};

    ghost from_gives = { λ _ fault. fault ≡ no_memory };

    fn from(_memory: Memory) -> StepFault {
        StepFault::Memory
    }
}
