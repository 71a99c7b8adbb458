//! A keeper of results as an archiver.
ghost use Rattle.std.specs.Prelude.{◌≡◌, ◌≤◌, ℕ, List, Option, Some, None, IfOk, codes};
ghost use Rattle.ps_doors.specs.Archiver.{HasLength};
ghost use Rattle.ps_doors.specs.Told.{TellsMore};
ghost use Rattle.ps_doors.specs.declared.archiver.Attempt.{Attempt as Made};
ghost use Rattle.ps_doors.specs.declared.archiver.Tried.TheVariants.{Failed};
ghost use Rattle.ps_ports.specs.Causes.{Rose};
ghost use Rattle.ps_time.specs.Numbers.{greatest_moment};
ghost use Rattle.result_table.specs.Stored.{after_delivery, IsStoreOutcome};
ghost use Rattle.result_table.specs.declared.record.Record.{Record as Kept};

use crate::keeper::{Keeper, KeeperFault};
use ps_doors::archiver::{Archiver, Tried};
use ps_doors::clock::Clock;
use ps_time::key::RunKey;
use ps_time::memory::Memory;
use ps_time::moment::Length;
use ps_time::text::Text;
use std::alloc::Global;

/// How long an archiver waits for a store that failed, in seconds.
const STORE_WAIT: Length = 60;

/// The archiver `keeper`: each attempt puts the result into the keeper, at the moment of the clock. It tells its keeper's
/// table, and no attempts.
#[derive(Drop)]
pub struct KeeperArchiver<K, C> {
    pub keeper: K,
    pub clock: C,
}

impl<K: Keeper + Drop, C: Clock + Drop> KeeperArchiver<K, C> {
    /// The archiver over a keeper and a clock.
    pub fn new(keeper: K, clock: C) -> KeeperArchiver<K, C>
        ensures { result ≡ record { keeper = keeper; clock = clock } }
    {
        KeeperArchiver { keeper, clock }
    }
}

/// What an attempt answers where the store failed.
fn store_failed(alloc: Global) -> Result<Tried, Memory>
    ensures { IfOk result (λ tried. tried ≡ Failed (codes "store") (Some 60)) }
{
    Ok(Tried::Failed {
        error: Text::new(alloc, "store")?,
        retry: Some(STORE_WAIT),
    })
}

impl<K: Keeper + Drop, C: Clock + Drop> Archiver for KeeperArchiver<K, C> {
    ghost use Rattle.std.specs.Prelude.{codes, None};

    ghost label = { λ _. codes "keeper" };

    ghost attempts = { λ _. None };

    fn name(&self) -> &str {
        "keeper"
    }

    /// Succeeds where the keeper kept the result, and fails with the error `store` and a wait of 60 seconds only where the
    /// keeper's count of faults rose. So the keeper's table takes up the attempt, as `law_stored` says of a list of them.
    fn attempt(
        &mut self,
        alloc: Global,
        key: RunKey,
        _tried: u32,
        _settings: &str,
        merged: &str,
    ) -> Tried
        ensures told { TellsMore {X = Made} None None (record { key = key; tried = _tried; settings = _settings.now; merged = merged.now; outcome = result }) }
        ensures name { codes "keeper" ≡ codes "keeper" }
        ensures retry { HasLength result }
        ensures outcome { IsStoreOutcome result }
        ensures later { K.keeper_faults self.old.keeper ≤ K.keeper_faults self.new.keeper }
        ensures cause { (error : List ℕ) → (retry : Option ℕ) → result ≡ Failed error retry → Rose (K.keeper_faults self.old.keeper) (K.keeper_faults self.new.keeper) }
        ensures sound { K.is_sound self.new.keeper → K.is_sound self.old.keeper }
        ensures clock { self.new.clock ≡ self.old.clock }
        ensures stored { (table : List Kept) → K.has_table self.old.keeper table → K.is_sound self.new.keeper
            → (moment : ℕ) × C.may_give self.old.clock moment × (moment ≤ greatest_moment)
            × K.has_table self.new.keeper (after_delivery table (record { key = key; moment = moment; body = merged.now; outcome = result })) }
    {
        let moment = self.clock.now();
        match self.keeper.put(alloc, key, moment, merged) {
            Ok(()) => Tried::Succeeded,
            Err(KeeperFault::Failed) => match store_failed(alloc) {
                Ok(tried) => tried,
                Err(Memory) => Tried::Memory,
            },
            Err(KeeperFault::Memory) => Tried::Memory,
        }
    }
}
