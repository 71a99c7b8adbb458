//! Keepers of results.
ghost use Rattle.std.specs.Prelude.{◌≡◌, ◌≤◌, ◌<◌, ◌^◌, ℕ, List, Option, IfOk, OnOk, OnErr, IfSome, length, All, Err};
ghost use Rattle.ps_ports.specs.Causes.{Rose};
ghost use Rattle.ps_time.specs.Numbers.{greatest_moment};
ghost use Rattle.result_table.specs.Record.{put_record, find_record, first_above, IsTable, HasMoments, IsAbove};
ghost use Rattle.result_table.specs.declared.record.Record.{Record as Kept};

use crate::record::Record;
use ps_time::key::RunKey;
use ps_time::memory::Memory;
use ps_time::moment::Moment;
use std::alloc::{AllocError, AllocFailed, Global};

/// Why a keeper gave no answer.
#[derive(Clone, Copy, Debug, PartialEq, Eq)]
pub enum KeeperFault {
    /// The store failed, or holds what is no record, and the keeper has counted that.
    Failed,
    Memory,
}

impl From<Memory> for KeeperFault {
    ghost use Rattle.std.specs.Prelude.{◌≡◌};
    ghost use Rattle.result_table.specs.declared.keeper.KeeperFault.TheVariants.{Memory as out_of_memory};

    ghost from_gives = { λ _ fault. fault ≡ out_of_memory };

    fn from(_fault: Memory) -> KeeperFault {
        KeeperFault::Memory
    }
}

impl From<AllocError> for KeeperFault {
    ghost use Rattle.std.specs.Prelude.{◌≡◌};
    ghost use Rattle.result_table.specs.declared.keeper.KeeperFault.TheVariants.{Memory as out_of_memory};

    ghost from_gives = { λ _ fault. fault ≡ out_of_memory };

    fn from(_fault: AllocError) -> KeeperFault {
        KeeperFault::Memory
    }
}

impl<T: Drop> From<AllocFailed<T>> for KeeperFault {
    ghost use Rattle.std.specs.Prelude.{◌≡◌};
    ghost use Rattle.result_table.specs.declared.keeper.KeeperFault.TheVariants.{Memory as out_of_memory};

    ghost from_gives = { λ _ fault. fault ≡ out_of_memory };

    fn from(_fault: AllocFailed<T>) -> KeeperFault {
        KeeperFault::Memory
    }
}

/// What keeps the results of runs, one record for each key.
///
/// A keeper may have a table, a list of records by key, and is sound as long as it tells it: what a call that leaves it
/// sound says of the table before and after is so. A keeper that isn't sound any more never is again.
pub trait Keeper {
    // How many calls failed: a `u64` that never falls.
    ghost keeper_faults: { Self → ℕ };

    // This list is the table.
    ghost has_table: { Self → List Kept → Type 0 };

    // The table is told.
    ghost is_sound: { Self → Type 0 };

    /// Keeps a result. A new key gets a record with `since` and `latest` at the moment. A key that is there keeps its
    /// `since`, and gets the new `latest`, `good` and body.
    fn put(
        &mut self,
        alloc: Global,
        key: RunKey,
        moment: Moment,
        body: &str,
    ) -> Result<(), KeeperFault>
        requires { moment ≤ greatest_moment }
        ensures later { keeper_faults self.old ≤ keeper_faults self.new }
        ensures failed { result ≡ Err KeeperFault.Failed → Rose (keeper_faults self.old) (keeper_faults self.new) }
        ensures sound { is_sound self.new → is_sound self.old }
        ensures ok { (table : List Kept) → has_table self.old table → is_sound self.new
            → OnOk result (has_table self.new (put_record table key moment body.now)) }
        ensures err { (table : List Kept) → has_table self.old table → is_sound self.new → OnErr result (has_table self.new table) };

    /// The record of the key.
    fn get(&mut self, alloc: Global, key: RunKey) -> Result<Option<Record>, KeeperFault>
        ensures later { keeper_faults self.old ≤ keeper_faults self.new }
        ensures failed { result ≡ Err KeeperFault.Failed → Rose (keeper_faults self.old) (keeper_faults self.new) }
        ensures sound { is_sound self.new → is_sound self.old }
        ensures found { (table : List Kept) → has_table self.old table → is_sound self.new
            → IfOk result (λ found. found ≡ find_record table key) }
        ensures stays { (table : List Kept) → has_table self.old table → is_sound self.new → has_table self.new table }
        ensures bound { IfOk result (λ found. IfSome found (λ r. (r.key ≡ key) × HasMoments r)) };

    /// The first records above the key, or of all, by key: at most `count`.
    fn list(
        &mut self,
        alloc: Global,
        after: Option<RunKey>,
        count: u32,
    ) -> Result<Vec<Record>, KeeperFault>
        ensures later { keeper_faults self.old ≤ keeper_faults self.new }
        ensures failed { result ≡ Err KeeperFault.Failed → Rose (keeper_faults self.old) (keeper_faults self.new) }
        ensures sound { is_sound self.new → is_sound self.old }
        ensures records { (table : List Kept) → has_table self.old table → is_sound self.new
            → IfOk result (λ records. records.items ≡ first_above table after count) }
        ensures stays { (table : List Kept) → has_table self.old table → is_sound self.new → has_table self.new table }
        ensures count { IfOk result (λ records. length records.items ≤ count) }
        ensures ascending { IfOk result (λ records. IsTable records.items) }
        ensures above { IfOk result (λ records. All (IsAbove after) records.items) }
        ensures moments { IfOk result (λ records. All HasMoments records.items) };

    // The records of a table ascend by key.
    ghost is_table: { (keeper : Self) → (table : List Kept) → has_table keeper table → IsTable table };

    // The count is a `u64`, at each moment.
    ghost keeper_faults_fit: { (keeper : Self) → keeper_faults keeper < 2 ^ 64 };
}
