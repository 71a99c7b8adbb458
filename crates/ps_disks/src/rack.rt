//! Racks: pairs of disks, each under a folder.
ghost use Rattle.std.specs.Prelude.{◌≡◌, ℕ, ◌+◌, ◌≤◌, ◌<◌, ◌^◌, List, IfOk, OnOk, OnErr, IsErrOf};
ghost use Rattle.ps_ports.specs.Causes.{raised};
ghost use Rattle.ps_disks.specs.Disk.{AreBounded, Only};
ghost use Rattle.ps_disks.specs.Rack.{fresh_first, fresh_second, IsKept, LeavesOthers, LeavesAll, LeavesOpen};
ghost use Rattle.ps_disks.specs.declared.rack.RackFault.TheVariants.{Failed as rack_failed};

use crate::disk::Disk;
use ps_time::memory::Memory;
use std::alloc::{AllocError, Global};
use std::io;
use std::io::ErrorKind;

/// The first disk of a new pair: the magic, an open gate byte, the generation 1, an empty snapshot,
/// a closed gate byte.
pub const FRESH_FIRST: [u8; 22] = *b"PSCHJRN1\x01\0\0\0\0\0\0\0\x01\0\0\0\0\0";

/// The second: the magic and a closed gate byte.
pub const FRESH_SECOND: [u8; 9] = *b"PSCHJRN1\0";

/// Why no pair was opened.
#[derive(Clone, Copy, Debug, PartialEq, Eq)]
pub enum RackFault {
    /// The rack failed, and has counted that.
    Failed,
    Memory,
}

impl From<io::Error> for RackFault {
    ghost use Rattle.std.specs.Prelude.{◌≡◌};
    ghost use Rattle.std.specs.IoError.{error_kind};
    ghost use Rattle.ps_disks.specs.Rack.{fault_of};

    ghost from_gives = { λ error fault. fault ≡ fault_of (error_kind error) };

    fn from(error: io::Error) -> RackFault {
        match error.kind() {
            ErrorKind::OutOfMemory => RackFault::Memory,
            _ => RackFault::Failed,
        }
    }
}

impl From<AllocError> for RackFault {
    ghost use Rattle.std.specs.Prelude.{◌≡◌};
    ghost use Rattle.ps_disks.specs.declared.rack.RackFault.TheVariants.{Memory as rack_memory};

    ghost from_gives = { λ _ fault. fault ≡ rack_memory };

    fn from(_fault: AllocError) -> RackFault {
        RackFault::Memory
    }
}

impl From<Memory> for RackFault {
    ghost use Rattle.std.specs.Prelude.{◌≡◌};
    ghost use Rattle.ps_disks.specs.declared.rack.RackFault.TheVariants.{Memory as rack_memory};

    ghost from_gives = { λ _ fault. fault ≡ rack_memory };

    fn from(_fault: Memory) -> RackFault {
        RackFault::Memory
    }
}

/// What keeps pairs of disks.
pub trait Rack {
    type Disk: Disk;

    // How many calls failed, or got back a disk that had failed: a `u64` that never falls.
    ghost rack_faults: { Self → ℕ };

    // The rack tells its pairs. A rack over real folders doesn't.
    ghost tells_pairs: { Type 0 };

    // The pair that is kept under a folder, where the rack tells its pairs; otherwise any.
    ghost keeps_pair: { Self → List ℕ → Self.Disk → Self.Disk → Type 0 };

    // The folder's pair was opened and isn't given back.
    ghost is_open: { Self → List ℕ → Type 0 };

    /// Opens the pair of a folder. Where there is none it makes a new one.
    fn open_pair(
        &mut self,
        alloc: Global,
        folder: &str,
    ) -> Result<(Self::Disk, Self::Disk), RackFault>
        ensures counts { IfOk result (λ pair. (Self.Disk.disk_faults pair.0 ≡ 0) × (Self.Disk.disk_faults pair.1 ≡ 0)) }
        ensures again { Self.Disk.premise → IfOk result (λ pair. (first second : Self.Disk) → keeps_pair self.old folder.now first second
            → IsKept Self.Disk.seen Self.Disk.may_leave first pair.0 × IsKept Self.Disk.seen Self.Disk.may_leave second pair.1) }
        ensures fresh { Self.Disk.premise → IfOk result (λ pair. ((first second : Self.Disk) → keeps_pair self.old folder.now first second → ⊥)
            → (Self.Disk.seen pair.0 ≡ fresh_first) × (Self.Disk.seen pair.1 ≡ fresh_second)
            × Only fresh_first (Self.Disk.may_leave pair.0) × Only fresh_second (Self.Disk.may_leave pair.1)) }
        ensures size { Self.Disk.premise → IfOk result (λ pair. AreBounded (Self.Disk.may_leave pair.0) × AreBounded (Self.Disk.may_leave pair.1)) }
        ensures others { tells_pairs → LeavesOthers folder.now (keeps_pair self.old) (keeps_pair self.new) }
        ensures nothing { tells_pairs → OnErr result (LeavesAll (keeps_pair self.old) (keeps_pair self.new)) }
        ensures open { OnOk result (is_open self.new folder.now) }
        ensures open_others { LeavesOpen folder.now (is_open self.old) (is_open self.new) }
        ensures later { rack_faults self.old ≤ rack_faults self.new }
        ensures failed { IsErrOf result rack_failed → rack_faults self.new ≡ raised (rack_faults self.old) }
        ensures no_fault { (IsErrOf result rack_failed → ⊥) → rack_faults self.new ≡ rack_faults self.old };

    /// Gives an opened pair back. Takes no memory.
    fn close_pair(&mut self, folder: &str, first: Self::Disk, second: Self::Disk)
        requires { is_open self.old folder.now }
        ensures kept { keeps_pair self.new folder.now first second }
        ensures others { tells_pairs → LeavesOthers folder.now (keeps_pair self.old) (keeps_pair self.new) }
        ensures open_others { LeavesOpen folder.now (is_open self.old) (is_open self.new) }
        ensures rose { 0 < Self.Disk.disk_faults first + Self.Disk.disk_faults second → rack_faults self.new ≡ raised (rack_faults self.old) }
        ensures no_fault { Self.Disk.disk_faults first + Self.Disk.disk_faults second ≡ 0 → rack_faults self.new ≡ rack_faults self.old };

    // A folder has one pair.
    ghost one_pair: { (rack : Self) (folder : List ℕ) (a b c d : Self.Disk) → tells_pairs → keeps_pair rack folder a b → keeps_pair rack folder c d → (c ≡ a) × (d ≡ b) };

    // The count is a `u64`, at each moment.
    ghost rack_faults_fit: { (rack : Self) → rack_faults rack < 2 ^ 64 };
}
