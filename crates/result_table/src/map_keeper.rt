//! A keeper in memory.
ghost use Rattle.std.specs.Prelude.{◌≡◌, ◌≤◌, ◌↔◌, List, [], take, Option, IfOk, OnOk, OnErr, IfErr, IfSome, IsTrue, length, All, Err, false};
ghost use Rattle.ps_ports.specs.Causes.{Rose, counted};
ghost use Rattle.ps_ports.specs.Memory.{no_calls, called, fails_next};
ghost use Rattle.std.specs.BTreeMap.{get};
ghost use Rattle.ps_time.specs.Key.{key_cmp};
ghost use Rattle.ps_time.specs.Numbers.{greatest_moment};
ghost use Rattle.result_table.specs.MapKeeper.{record_of, records_of, since_in, faults_after, after_put, after_reading, HasTable};
ghost use Rattle.result_table.specs.Record.{put_record, find_record, first_above, IsTable, HasMoments, IsAbove};
ghost use Rattle.result_table.specs.declared.record.Record.{Record as Kept};

use crate::keeper::{Keeper, KeeperFault};
use crate::record::{Record, is_good};
use ps_ports::failing_calls::FailingCalls;
use ps_ports::faults::Faults;
use ps_time::key::RunKey;
use ps_time::memory::Memory;
use ps_time::moment::Moment;
use ps_time::text::Text;
use std::alloc::Global;
use std::collections::BTreeMap;
use std::collections::btree_map::Range;
use std::marker::Model;
use std::ops::Bound;

/// A record without its key.
#[derive(Drop)]
struct Stored {
    since: Moment,
    latest: Moment,
    good: bool,
    body: Text,
}

impl Stored {
    /// The record of this key.
    fn record(&self, alloc: Global, key: RunKey) -> Result<Record, Memory>
        ensures { IfOk result (λ made. made ≡ record_of (key, self.now)) }
    {
        Ok(Record {
            key,
            since: self.since,
            latest: self.latest,
            good: self.good,
            body: self.body.copy(alloc)?,
        })
    }
}

/// A keeper whose table is always told, and whose calls of the given numbers fail.
#[derive(Drop)]
pub struct MapKeeper {
    records: BTreeMap<RunKey, Stored>,
    calls: FailingCalls,
    faults: Faults,
}

impl Model for MapKeeper {
    ghost use Rattle.std.specs.Prelude.{◌≡◌, All};
    ghost use Rattle.result_table.specs.MapKeeper.{KeeperState, records_of};
    ghost use Rattle.result_table.specs.Record.{IsTable, HasMoments};

    ghost Value = { KeeperState };

    ghost view = { λ k. record { table = records_of k.records.entries; calls = k.calls; faults = k.faults } };

    ghost invariant = { λ k. IsTable (records_of k.records.entries) × All HasMoments (records_of k.records.entries) };
}

/// When the first result of the key came.
fn since_of(records: &BTreeMap<RunKey, Stored>, key: RunKey, moment: Moment) -> Moment
    ensures { result ≡ since_in (get key_cmp records.now key) moment }
{
    match records.get(&key) {
        Some(stored) => stored.since,
        None => moment,
    }
}

/// Keeps a result in the map.
fn put_in(
    records: &mut BTreeMap<RunKey, Stored>,
    alloc: Global,
    key: RunKey,
    moment: Moment,
    body: &str,
) -> Result<(), Memory>
    ensures ok { OnOk result (records_of records.new.entries ≡ put_record (records_of records.old.entries) key moment body.now) }
    ensures err { OnErr result (records_of records.new.entries ≡ records_of records.old.entries) }
{
    let good = is_good(alloc, body)?;
    let body = Text::new(alloc, body)?;
    let since = since_of(records, key, moment);
    let stored = Stored {
        since,
        latest: moment,
        good,
        body,
    };
    records.insert(key, stored)?;
    Ok(())
}

/// The record of the key.
fn get_in(
    records: &BTreeMap<RunKey, Stored>,
    alloc: Global,
    key: RunKey,
) -> Result<Option<Record>, Memory>
    ensures { IfOk result (λ found. found ≡ find_record (records_of records.now.entries) key) }
{
    match records.get(&key) {
        Some(stored) => Ok(Some(stored.record(alloc, key)?)),
        None => Ok(None),
    }
}

/// The first of these records.
#[tactic(auto, using(crate::proofs::MapKeeperLemmas::take_step))]
fn take_records(
    entries: Range<'_, RunKey, Stored>,
    alloc: Global,
    count: u32,
) -> Result<Vec<Record>, Memory>
    ensures { IfOk result (λ found. found.items ≡ take count (records_of entries.entry)) }
{
    let mut found = Vec::new(alloc);
    for (key, stored) in entries {
        if found.len() >= count as usize {
            return Ok(found);
        }
        found.push(stored.record(alloc, *key)?)?;
    }
    Ok(found)
}

/// The first records above the key.
fn list_in(
    records: &BTreeMap<RunKey, Stored>,
    alloc: Global,
    after: Option<RunKey>,
    count: u32,
) -> Result<Vec<Record>, Memory>
    ensures { IfOk result (λ found. found.items ≡ first_above (records_of records.now.entries) after count) }
{
    match after {
        Some(key) => take_records(
            records.range((Bound::Excluded(key), Bound::Unbounded)),
            alloc,
            count,
        ),
        None => take_records(records.range(..), alloc, count),
    }
}

impl MapKeeper {
    /// `failing` has the numbers of the calls that are to fail, the first call being number 1.
    pub fn new(alloc: Global, failing: Vec<u64>) -> MapKeeper
        ensures { result ≡ record { table = []; calls = no_calls failing.items; faults = 0 } }
    {
        MapKeeper {
            records: BTreeMap::new(alloc),
            calls: FailingCalls::new(failing),
            faults: Faults::none(),
        }
    }
}

impl MapKeeper {
    /// Counts one more call, which fails where it is to fail.
    fn begin(&mut self) -> Result<(), KeeperFault>
        ensures failed { IfErr result (λ fault. fault ≡ KeeperFault.Failed) }
        ensures fails { OnErr result (IsTrue (fails_next self.old.calls)) }
        ensures goes { OnOk result (fails_next self.old.calls ≡ false) }
        ensures after { self.new ≡ record { table = self.old.table; calls = called self.old.calls; faults = faults_after self.old.faults result } }
    {
        if self.calls.next_fails() {
            self.faults.raise();
            return Err(KeeperFault::Failed);
        }
        Ok(())
    }
}

impl Keeper for MapKeeper {
    ghost use Rattle.ps_ports.specs.Causes.{counted, counted_fits};
    ghost use Rattle.result_table.specs.MapKeeper.{HasTable};

    ghost keeper_faults = { λ k. counted k.faults };

    ghost has_table = { λ k table. HasTable k table };

    ghost is_sound = { λ _. Unit {0} };

    #[tactic(auto, using(crate::proofs::RecordLemmas::table_put))]
    fn put(
        &mut self,
        alloc: Global,
        key: RunKey,
        moment: Moment,
        body: &str,
    ) -> Result<(), KeeperFault>
        requires { moment ≤ greatest_moment }
        ensures later { counted self.old.faults ≤ counted self.new.faults }
        ensures failed { result ≡ Err KeeperFault.Failed → Rose (counted self.old.faults) (counted self.new.faults) }
        ensures sound { Unit {0} → Unit {0} }
        ensures ok { (table : List Kept) → HasTable self.old table → Unit {0}
            → OnOk result (HasTable self.new (put_record table key moment body.now)) }
        ensures err { (table : List Kept) → HasTable self.old table → Unit {0} → OnErr result (HasTable self.new table) }
        ensures fails { result ≡ Err KeeperFault.Failed ↔ IsTrue (fails_next self.old.calls) }
        ensures after { self.new ≡ after_put self.old key moment body.now result }
    {
        self.begin()?;
        put_in(&mut self.records, alloc, key, moment, body)?;
        Ok(())
    }

    fn get(&mut self, alloc: Global, key: RunKey) -> Result<Option<Record>, KeeperFault>
        ensures later { counted self.old.faults ≤ counted self.new.faults }
        ensures failed { result ≡ Err KeeperFault.Failed → Rose (counted self.old.faults) (counted self.new.faults) }
        ensures sound { Unit {0} → Unit {0} }
        ensures found { (table : List Kept) → HasTable self.old table → Unit {0}
            → IfOk result (λ found. found ≡ find_record table key) }
        ensures stays { (table : List Kept) → HasTable self.old table → Unit {0} → HasTable self.new table }
        ensures bound { IfOk result (λ found. IfSome found (λ r. (r.key ≡ key) × HasMoments r)) }
        ensures fails { result ≡ Err KeeperFault.Failed ↔ IsTrue (fails_next self.old.calls) }
        ensures after { self.new ≡ after_reading self.old result }
    {
        self.begin()?;
        Ok(get_in(&self.records, alloc, key)?)
    }

    #[tactic(auto, using(crate::proofs::RecordLemmas::table_above, crate::proofs::RecordLemmas::all_above, crate::proofs::RecordLemmas::moments_above, crate::proofs::RecordLemmas::few_above))]
    fn list(
        &mut self,
        alloc: Global,
        after: Option<RunKey>,
        count: u32,
    ) -> Result<Vec<Record>, KeeperFault>
        ensures later { counted self.old.faults ≤ counted self.new.faults }
        ensures failed { result ≡ Err KeeperFault.Failed → Rose (counted self.old.faults) (counted self.new.faults) }
        ensures sound { Unit {0} → Unit {0} }
        ensures records { (table : List Kept) → HasTable self.old table → Unit {0}
            → IfOk result (λ records. records.items ≡ first_above table after count) }
        ensures stays { (table : List Kept) → HasTable self.old table → Unit {0} → HasTable self.new table }
        ensures count { IfOk result (λ records. length records.items ≤ count) }
        ensures ascending { IfOk result (λ records. IsTable records.items) }
        ensures above { IfOk result (λ records. All (IsAbove after) records.items) }
        ensures moments { IfOk result (λ records. All HasMoments records.items) }
        ensures fails { result ≡ Err KeeperFault.Failed ↔ IsTrue (fails_next self.old.calls) }
        ensures after { self.new ≡ after_reading self.old result }
    {
        self.begin()?;
        Ok(list_in(&self.records, alloc, after, count)?)
    }

    ghost is_table = { λ keeper table has. has.ascends };

    ghost keeper_faults_fit = { λ k. counted_fits k.faults };
}
