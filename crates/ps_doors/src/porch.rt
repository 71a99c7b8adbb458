//! Porches.
ghost use Rattle.std.specs.Prelude.{◌≡◌, ◌≤◌, ◌<◌, ◌^◌, ℕ, List, Option, ◌∷◌, [], ◌++◌, length, map, All, IfOk, OnOk};
ghost use Rattle.std.specs.Option.{option_map};
ghost use Rattle.ps_doors.specs.Porch.{IsUnused, HasShare, porch_faults_after, porch_faults_shut};

use crate::door::Door;
use ps_time::memory::Memory;
use std::alloc::{AllocError, Global};
use std::io;
use std::io::ErrorKind;

/// Why no doors were opened.
#[derive(Clone, Copy, Debug, PartialEq, Eq)]
pub enum PorchFault {
    /// The porch failed, and has counted that.
    Failed,
    Memory,
}

impl From<io::Error> for PorchFault {
    ghost use Rattle.std.specs.Prelude.{◌≡◌};
    ghost use Rattle.std.specs.IoError.{error_kind};
    ghost use Rattle.ps_doors.specs.Porch.{porch_fault_of};

    ghost from_gives = { λ error fault. fault ≡ porch_fault_of (error_kind error) };

    fn from(error: io::Error) -> PorchFault {
        match error.kind() {
            ErrorKind::OutOfMemory => PorchFault::Memory,
            _ => PorchFault::Failed,
        }
    }
}

impl From<Memory> for PorchFault {
    ghost use Rattle.std.specs.Prelude.{◌≡◌};
    ghost use Rattle.ps_doors.specs.declared.porch.PorchFault.TheVariants.{Memory as porch_memory};

    ghost from_gives = { λ _ fault. fault ≡ porch_memory };

    fn from(_fault: Memory) -> PorchFault {
        PorchFault::Memory
    }
}

impl From<AllocError> for PorchFault {
    ghost use Rattle.std.specs.Prelude.{◌≡◌};
    ghost use Rattle.ps_doors.specs.declared.porch.PorchFault.TheVariants.{Memory as porch_memory};

    ghost from_gives = { λ _ fault. fault ≡ porch_memory };

    fn from(_fault: AllocError) -> PorchFault {
        PorchFault::Memory
    }
}

/// A porch, which listens at an address with doors.
pub trait Porch {
    type Door: Door + Send + Drop;

    // How many openings failed, and how often doors of which one had failed came back: a `u64` that never falls.
    ghost porch_faults: { Self → ℕ };

    // The doors that came back, those of one shutting together; where they are told.
    ghost shut_doors: { Self → Option (List (List Self.Door)) };

    // Doors were opened and aren't back.
    ghost is_open: { Self → Type 0 };

    /// Listens at an address with `number` doors, which together give at most `most` connections.
    fn open(
        &mut self,
        alloc: Global,
        address: &str,
        number: u8,
        most: Option<u64>,
    ) -> Result<Vec<Self::Door>, PorchFault>
        ensures number { IfOk result (λ doors. length doors.items ≡ number) }
        ensures no_fault { IfOk result (λ doors. All (λ d. Self.Door.door_faults d ≡ 0) doors.items) }
        ensures unused { IfOk result (λ doors. All (λ d. IsUnused (Self.Door.given d) (Self.Door.returned d)) doors.items) }
        ensures shares { IfOk result (λ doors. All (λ d. HasShare most (Self.Door.share d)) doors.items) }
        ensures open { OnOk result (is_open self.new) }
        ensures still_open { is_open self.old → is_open self.new }
        ensures shut { shut_doors self.new ≡ shut_doors self.old }
        ensures count { porch_faults self.new ≡ porch_faults_after (porch_faults self.old) result }
        ensures later { porch_faults self.old ≤ porch_faults self.new };

    /// Gives doors back that this porch opened together. Takes no memory.
    fn shut(&mut self, doors: Vec<Self::Door>)
        requires { is_open self.old }
        ensures shut { shut_doors self.new ≡ option_map (λ l. l ++ doors.items ∷ []) (shut_doors self.old) }
        ensures count { porch_faults self.new ≡ porch_faults_shut (porch_faults self.old) (map (λ d. Self.Door.door_faults d) doors.items) }
        ensures later { porch_faults self.old ≤ porch_faults self.new };

    // The count is a `u64`, at each moment.
    ghost porch_faults_fit: { (porch : Self) → porch_faults porch < 2 ^ 64 };
}
