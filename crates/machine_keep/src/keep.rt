//! A machine that is kept.
ghost use Rattle.std.specs.Prelude.{◌||◌, ◌≡◌, ◌⊎◌, ◌+◌, ◌-◌, ◌≤◌, Option, Some, None, Err, IsSome, IsTrue, IfOk, IfSome, OnOk, OnErr, false, length};
ghost use Rattle.ps_disks.specs.MemoryDisk.{armed, armed_number};
ghost use Rattle.host_journal.specs.State.{append_calls, is_ready, stored, which, with_record, IsAt, IsSound, KeepsPlace, WentOn, first_disk, second_disk};
ghost use Rattle.machine_keep.specs.Calls.{TellsIn, all_on, record_calls, sync_calls};
ghost use Rattle.machine_keep.specs.Kept.{StandsExcept, StandsFor, after_step, caught};
ghost use Rattle.machine_keep.specs.declared.fault.StepFault.TheVariants.{Disk as disk_fault, Memory as no_memory};
ghost use Rattle.machine_keep.specs.BothDisks.{AddsRecord, FaultRose, FaultsAdvance, LeavesOnlyStored, NoFault, OnlyRead, ReadAsBefore, StandsWhere, StopsIn};
ghost use Rattle.machine_keep.specs.Ends.{AddsAsked, AddsDecided, AddsSnapshot, AddsStep, AnswersFrom, BreaksStep, EndsAnswered, EndsBroken, EndsOutOfMemory, EndsUnfound, EndsUnkept, EndsUnsettled, FindsOut, IsBoundedOrPutOff, IsDurable, IsInFound, KeepsAll, KeepsFound, KeepsStep, Recovers, ShortensLog, DisksStand, StandsButUnsure, StandsThroughCall, StandsThroughDecided, StandsThroughStep, StopsShortening, Unmoved, UnsureStandsWhere, found_state, has_many};

use crate::fault::StepFault;
use crate::machine::{Decided, Machine};
use crate::snapshot::put_snapshot;
use host_journal::fault::DiskFault;
use host_journal::journal::Journal;
use ps_disks::disk::Disk;
use ps_disks::memory_disk::MemoryDisk;
use std::alloc::Global;
use std::marker::Model;

/// The records may take so many bytes before a snapshot takes their place, however small the last one was.
const FEW_RECORD_BYTES: u128 = 1_048_576;

/// A machine whose steps are kept on two disks.
pub struct Keep<M: Machine, D: Disk> {
    pub(crate) machine: M,
    pub(crate) journal: Journal<D>,
    // of an append that failed
    unsure: Option<M::Step>,
    put_off: u64,
}

impl<M: Machine, D: Disk> Model for Keep<M, D> {
    ghost use Rattle.std.specs.Prelude.{◌≡◌, IsTrue, IfSome, None};
    ghost use Rattle.host_journal.specs.State.{is_ready, stored};
    ghost use Rattle.machine_keep.specs.Kept.{Kept, StandsExcept};

    ghost Value = { Kept M D M.Step };

    ghost view = { λ k. record { machine = k.machine; journal = k.journal; unsure = k.unsure; put_off = k.put_off } };

    ghost invariant = { λ k. (IsTrue (is_ready k.journal.pending) → k.unsure ≡ None)
        × (IfSome k.unsure (λ step. M.follows (M.state k.machine) step × M.has_room k.machine step)
        × (D.premise → StandsExcept M.stands_for M.record_of (M.state k.machine) k.journal.pending (stored D.seen k.journal) k.unsure)) };
}

// Written out, so that a drop elsewhere is one call.
impl<M: Machine + Drop, D: Disk + Drop> Drop for Keep<M, D> {
    fn drop(self) {
        let Keep {
            machine: _,
            journal: _,
            unsure: _,
            put_off: _,
        } = self;
    }
}

impl<M: Machine, D: Disk> Keep<M, D> {
    /// A machine over a journal that stands for it.
    pub fn over(machine: M, journal: Journal<D>) -> Keep<M, D>
        requires ready { IsTrue (is_ready journal.pending) }
        requires stands { D.premise → StandsFor M.stands_for (M.state machine) (stored D.seen journal) }
        ensures machine { result.machine ≡ machine }
        ensures journal { result.journal ≡ journal }
        ensures put_off { result.put_off ≡ 0 }
    {
        Keep {
            machine,
            journal,
            unsure: None,
            put_off: 0,
        }
    }

    /// The machine. After a fault it may lack a step that is kept; the next call finds that out.
    pub fn machine(&self) -> &M
        ensures { result.now ≡ self.now.machine }
    {
        &self.machine
    }

    /// How many snapshots were put off since it was opened: those that were due, and for which memory ran out, that had
    /// more than 4,294,967,295 bytes, or that were due in the last generation of a journal. Nothing is lost by one; the
    /// records grow, and the next step tries again. It stands still at its greatest value.
    pub fn put_off(&self) -> u64
        ensures { result ≡ self.now.put_off }
    {
        self.put_off
    }

    /// Whether the last call met no fault.
    pub fn is_ready(&self) -> bool
        ensures { result ≡ is_ready self.now.journal.pending }
    {
        self.journal.is_ready()
    }

    /// The generation of the disk that counts: it rises by one with each snapshot.
    pub fn generation(&self) -> u64
        ensures { result ≡ self.now.journal.generation }
    {
        self.journal.generation()
    }

    /// Whether the second disk counts.
    pub fn is_second(&self) -> bool
        ensures { result ≡ self.now.journal.second }
    {
        self.journal.is_second()
    }

    /// The bytes of the records behind the snapshot: for each a length of four, the record and a gate byte.
    pub fn record_bytes(&self) -> u64
        ensures { result ≡ self.now.journal.end - self.now.journal.start }
    {
        self.journal.record_bytes()
    }

    /// The bytes of the snapshot.
    pub fn snapshot_bytes(&self) -> u64
        ensures { result ≡ self.now.journal.start - 21 }
    {
        self.journal.snapshot_bytes()
    }

    /// Sets an origin again, as a configuration. What is kept, and what is not yet known after a fault, stays. Takes no
    /// memory.
    pub fn set_config(&mut self, origin: M::Origin)
        requires { M.may_set (M.fixed (M.state self.old.machine)) (M.fixed_of origin) }
        ensures state { M.state self.new.machine ≡ M.with_fixed (M.fixed_of origin) (M.state self.old.machine) }
        ensures journal { self.new.journal ≡ self.old.journal }
        ensures unsure { self.new.unsure ≡ self.old.unsure }
        ensures put_off { self.new.put_off ≡ self.old.put_off }
    {
        self.machine.set_config(origin);
    }

    /// What is known of a kept machine, and what more of one whose last call met no fault. Does nothing.
    pub fn known(&self)
        // The disks stand for its state; after a fault, but for a step that is unsure.
        ensures except_unsure { D.premise → StandsButUnsure M.Machine D.Disk self.now }
        ensures order { self.now.journal.start ≤ self.now.journal.end }
        ensures sure { IsTrue (is_ready self.now.journal.pending) → self.now.unsure ≡ None }
        ensures stands { D.premise → IsTrue (is_ready self.now.journal.pending) → DisksStand M.Machine D.Disk self.now }
        ensures durable { D.premise → IsTrue (is_ready self.now.journal.pending) → IsDurable M.Machine D.Disk self.now }
        ensures place { D.premise → IsTrue (is_ready self.now.journal.pending) → IsAt self.now.journal (stored D.seen self.now.journal) }
        ensures each { D.premise → IsTrue (is_ready self.now.journal.pending) → LeavesOnlyStored D.Disk self.now.journal }
        ensures sound { D.premise → IsSound D.seen D.may_leave self.now.journal }
    {
        self.journal.known();
    }

    /// Makes one step, and keeps what it changes before it is answered. After a fault it first finds out what stands.
    pub fn apply(&mut self, alloc: Global, call: M::Call) -> Result<M::Reply, StepFault>
        requires { M.may_ask (M.fixed (M.state self.old.machine)) call }
        // The answer and the step are those of the state that stands as the call begins.
        ensures done { D.premise → IfOk result (λ reply. AnswersFrom M.Machine (found_state M.Machine D.Disk self.old) call reply (M.state self.new.machine)) }
        // Whatever a crash leaves then stands for the state that was answered from.
        ensures durable { D.premise → OnOk result (IsDurable M.Machine D.Disk self.new) }
        ensures memory { D.premise → result ≡ Err no_memory → KeepsFound M.Machine D.Disk self.old self.new }
        // At every moment of a call that began with no fault.
        ensures any_moment { D.premise → IsTrue (is_ready self.old.journal.pending) → StandsThroughCall M.Machine D.Disk self.old self.new call }
        // What such a call adds to the images of each disk, so that it can be joined with the calls before it.
        ensures adds { D.premise → IsTrue (is_ready self.old.journal.pending) → AddsAsked M.Machine D.Disk self.old self.new call }
        // Of a call that began after a fault: until it has synced both disks, an image is one that a crash could have left
        // of its disk as the call began.
        ensures recovers { D.premise → is_ready self.old.journal.pending ≡ false → Recovers M.Machine D.Disk self.old self.new call }
        // A step leaves few records, or a snapshot that was put off is counted.
        ensures log_bounded { D.premise → OnOk result (IsInFound M.Machine D.Disk self.old self.new ⊎ IsBoundedOrPutOff self.old self.new) }
        // What it does, and the calls that the disks tell of it: all at an answer, those before a step where memory ran out, and
        // at a fault those up to the one that failed. On no premise.
        ensures answered { IfOk result (λ reply. EndsAnswered M.Machine D.Disk self.old self.new call reply) }
        ensures out_of_memory { result ≡ Err no_memory → EndsOutOfMemory M.Machine D.Disk self.old self.new }
        ensures failed { result ≡ Err disk_fault → EndsUnfound M.Machine D.Disk self.old self.new ⊎ EndsUnkept M.Machine D.Disk self.old self.new call }
        // More of a fault: what was known before it, and where the record of an unsure step stands.
        ensures broken { result ≡ Err disk_fault → EndsUnsettled M.Machine D.Disk self.old self.new ⊎ EndsBroken M.Machine D.Disk self.old self.new call }
        ensures ready { (result ≡ Err disk_fault → ⊥) → IsTrue (is_ready self.new.journal.pending) }
        ensures unready { result ≡ Err disk_fault → is_ready self.new.journal.pending ≡ false }
        // Whatever it comes to.
        ensures fixed { M.fixed (M.state self.new.machine) ≡ M.fixed (M.state self.old.machine) }
        ensures later { FaultsAdvance D.Disk self.old.journal self.new.journal }
        ensures no_fault { (result ≡ Err disk_fault → ⊥) → NoFault D.Disk self.old.journal self.new.journal }
        ensures cause { result ≡ Err disk_fault → FaultRose D.Disk self.old.journal self.new.journal }
        ensures calls_advance { WentOn D.calls_advance self.old.journal self.new.journal }
    {
        self.known();
        self.catch_up()?;
        self.known();
        let decided = self.machine.decide(alloc, call)?;
        let reply = self.keep_decided(alloc, decided)?;
        self.known();
        Ok(reply)
    }

    // Finds out what stands, where the last call failed.
    pub(crate) fn catch_up(&mut self) -> Result<(), DiskFault>
        ensures ready { OnOk result (IsTrue (is_ready self.new.journal.pending)) }
        ensures state { D.premise → OnOk result (IsInFound M.Machine D.Disk self.old self.new) }
        ensures stored { D.premise → stored D.seen self.new.journal ≡ stored D.seen self.old.journal }
        ensures still { IsTrue (is_ready self.old.journal.pending) → self.new ≡ self.old }
        ensures fixed { M.fixed (M.state self.new.machine) ≡ M.fixed (M.state self.old.machine) }
        ensures put_off { self.new.put_off ≡ self.old.put_off }
        ensures found { OnOk result (FindsOut M.Machine D.Disk self.old self.new) }
        ensures told { OnOk result (TellsIn D.told self.old.journal self.new.journal (sync_calls (is_ready self.old.journal.pending))) }
        ensures unfound { OnErr result (EndsUnfound M.Machine D.Disk self.old self.new) }
        ensures pending { OnErr result (self.new.journal.pending ≡ self.old.journal.pending) }
        ensures unready { OnErr result (is_ready self.new.journal.pending ≡ false) }
        ensures read { D.premise → ReadAsBefore D.Disk self.old.journal self.new.journal }
        ensures first { D.premise → is_ready self.old.journal.pending ≡ false → OnlyRead D.Disk (first_disk self.old.journal) (first_disk self.new.journal) }
        ensures second { D.premise → is_ready self.old.journal.pending ≡ false → OnlyRead D.Disk (second_disk self.old.journal) (second_disk self.new.journal) }
        ensures later { FaultsAdvance D.Disk self.old.journal self.new.journal }
        ensures no_fault { OnOk result (NoFault D.Disk self.old.journal self.new.journal) }
        ensures cause { OnErr result (FaultRose D.Disk self.old.journal self.new.journal) }
        ensures calls_advance { WentOn D.calls_advance self.old.journal self.new.journal }
    {
        self.known();
        if self.journal.is_ready() {
            return Ok(());
        }
        let stood = self.journal.reload()?;
        if let Some(step) = self.unsure.take() {
            settle(&mut self.machine, step, stood);
        }
        Ok(())
    }

    // Keeps the step, if there is one, and answers.
    fn keep_decided(
        &mut self,
        alloc: Global,
        decided: Decided<M::Reply, M::Step>,
    ) -> Result<M::Reply, StepFault>
        requires ready { IsTrue (is_ready self.old.journal.pending) }
        requires follows { IfSome decided.step (λ step. M.follows (M.state self.old.machine) step) }
        requires room { IfSome decided.step (λ step. M.has_room self.old.machine step) }
        requires short { IfSome decided.step (λ step. length (M.record_of step) ≤ 8388608) }
        ensures reply { IfOk result (λ reply. reply ≡ decided.reply) }
        ensures state { OnOk result (M.state self.new.machine ≡ after_step M.after (M.state self.old.machine) decided.step) }
        ensures ready { OnOk result (IsTrue (is_ready self.new.journal.pending)) }
        ensures unready { result ≡ Err disk_fault → is_ready self.new.journal.pending ≡ false }
        ensures memory { result ≡ Err no_memory → KeepsAll M.Machine D.Disk self.old self.new }
        ensures any_moment { D.premise → StandsThroughDecided M.Machine D.Disk self.old self.new decided.step }
        ensures adds { D.premise → AddsDecided M.Machine D.Disk self.old self.new decided.step }
        ensures log_bounded { OnOk result (IsSome decided.step → IsBoundedOrPutOff self.old self.new) }
        ensures keeps { OnOk result (KeepsStep M.Machine D.Disk self.old self.new decided.step) }
        ensures breaks { result ≡ Err disk_fault → BreaksStep M.Machine D.Disk self.old self.new decided.step }
        // Where the step is unsure, its record stands where a reload is to answer so.
        ensures which { D.premise → result ≡ Err disk_fault → UnsureStandsWhere M.Machine D.Disk self.old self.new }
        ensures unmoved { result ≡ Err no_memory → Unmoved M.Machine self.old self.new }
        ensures fixed { M.fixed (M.state self.new.machine) ≡ M.fixed (M.state self.old.machine) }
        ensures later { FaultsAdvance D.Disk self.old.journal self.new.journal }
        ensures no_fault { (result ≡ Err disk_fault → ⊥) → NoFault D.Disk self.old.journal self.new.journal }
        ensures cause { result ≡ Err disk_fault → FaultRose D.Disk self.old.journal self.new.journal }
        ensures calls_advance { WentOn D.calls_advance self.old.journal self.new.journal }
    {
        let Decided { reply, step } = decided;
        match step {
            Some(step) => {
                self.keep(alloc, step)?;
                Ok(reply)
            }
            None => {
                self.known();
                Ok(reply)
            }
        }
    }

    // Takes all memory that the step needs, writes its record, takes it in, and makes a snapshot where the records are many.
    fn keep(&mut self, alloc: Global, step: M::Step) -> Result<(), StepFault>
        requires ready { IsTrue (is_ready self.old.journal.pending) }
        requires follows { M.follows (M.state self.old.machine) step }
        requires room { M.has_room self.old.machine step }
        requires short { length (M.record_of step) ≤ 8388608 }
        ensures state { OnOk result (M.state self.new.machine ≡ M.after (M.state self.old.machine) step) }
        ensures ready { OnOk result (IsTrue (is_ready self.new.journal.pending)) }
        ensures unready { result ≡ Err disk_fault → is_ready self.new.journal.pending ≡ false }
        ensures memory { result ≡ Err no_memory → KeepsAll M.Machine D.Disk self.old self.new }
        ensures any_moment { D.premise → StandsThroughStep M.Machine D.Disk self.old self.new step }
        ensures adds { D.premise → AddsStep M.Machine D.Disk self.old self.new step }
        ensures log_bounded { OnOk result (IsBoundedOrPutOff self.old self.new) }
        ensures keeps { OnOk result (KeepsStep M.Machine D.Disk self.old self.new (Some step)) }
        ensures breaks { result ≡ Err disk_fault → BreaksStep M.Machine D.Disk self.old self.new (Some step) }
        // Where the step is unsure, its record stands where a reload is to answer so.
        ensures which { D.premise → result ≡ Err disk_fault → UnsureStandsWhere M.Machine D.Disk self.old self.new }
        ensures unmoved { result ≡ Err no_memory → Unmoved M.Machine self.old self.new }
        ensures fixed { M.fixed (M.state self.new.machine) ≡ M.fixed (M.state self.old.machine) }
        ensures later { FaultsAdvance D.Disk self.old.journal self.new.journal }
        ensures no_fault { (result ≡ Err disk_fault → ⊥) → NoFault D.Disk self.old.journal self.new.journal }
        ensures cause { result ≡ Err disk_fault → FaultRose D.Disk self.old.journal self.new.journal }
        ensures calls_advance { WentOn D.calls_advance self.old.journal self.new.journal }
    {
        self.known();
        let bytes = self.machine.write_record(alloc, &step)?;
        self.journal.reserve(bytes.len())?;
        self.put(step, &bytes)?;
        self.shorten(alloc)?;
        Ok(())
    }

    // Writes the record of a step, and takes the step in.
    pub(crate) fn put(&mut self, step: M::Step, bytes: &[u8]) -> Result<(), DiskFault>
        requires ready { IsTrue (is_ready self.old.journal.pending) }
        requires follows { M.follows (M.state self.old.machine) step }
        requires has_room { M.has_room self.old.machine step }
        requires bytes { bytes.now ≡ M.record_of step }
        requires short { length bytes.now ≤ 8388608 }
        requires room { length bytes.now + 13 ≤ self.old.journal.room }
        ensures state { OnOk result (M.state self.new.machine ≡ M.after (M.state self.old.machine) step) }
        ensures appended { D.premise → OnOk result (stored D.seen self.new.journal ≡ with_record (M.record_of step) (stored D.seen self.old.journal)) }
        ensures adds { D.premise → AddsRecord D.Disk (M.record_of step) self.old.journal self.new.journal }
        ensures kept { KeepsPlace self.old.journal self.new.journal }
        ensures end { OnOk result (self.new.journal.end ≡ self.old.journal.end + 5 + length (M.record_of step)) }
        ensures told { OnOk result (TellsIn D.told self.old.journal self.new.journal (record_calls self.old.journal (Some (M.record_of step)))) }
        ensures told_first { OnErr result (StopsIn D.Disk self.old.journal self.new.journal (record_calls self.old.journal (Some (M.record_of step)))) }
        ensures unsure { OnErr result ((M.state self.new.machine ≡ M.state self.old.machine) × (self.new.unsure ≡ Some step)) }
        ensures which { D.premise → OnErr result (StandsWhere D.Disk (M.record_of step) self.old.journal self.new.journal) }
        ensures sure { OnOk result (self.new.unsure ≡ None) }
        ensures fixed { M.fixed (M.state self.new.machine) ≡ M.fixed (M.state self.old.machine) }
        ensures put_off { self.new.put_off ≡ self.old.put_off }
        ensures later { FaultsAdvance D.Disk self.old.journal self.new.journal }
        ensures no_fault { OnOk result (NoFault D.Disk self.old.journal self.new.journal) }
        ensures ready { OnOk result (IsTrue (is_ready self.new.journal.pending)) }
        ensures unready { OnErr result (is_ready self.new.journal.pending ≡ false) }
        ensures cause { OnErr result (FaultRose D.Disk self.old.journal self.new.journal) }
        ensures calls_advance { WentOn D.calls_advance self.old.journal self.new.journal }
    {
        self.known();
        let step = append(&mut self.journal, &mut self.unsure, step, bytes)?;
        self.machine.take(step);
        Ok(())
    }

    // Puts a snapshot in place of the records where these are many, or puts it off.
    pub(crate) fn shorten(&mut self, alloc: Global) -> Result<(), DiskFault>
        requires ready { IsTrue (is_ready self.old.journal.pending) }
        ensures machine { self.new.machine ≡ self.old.machine }
        ensures unsure { self.new.unsure ≡ self.old.unsure }
        ensures shortened { OnOk result (ShortensLog M.Machine D.Disk self.old self.new) }
        ensures told_first { OnErr result (StopsShortening M.Machine D.Disk self.old self.new) }
        ensures log_bounded { OnOk result (IsBoundedOrPutOff self.old self.new) }
        ensures ready { OnOk result (IsTrue (is_ready self.new.journal.pending)) }
        ensures unready { OnErr result (is_ready self.new.journal.pending ≡ false) }
        ensures adds { D.premise → AddsSnapshot M.Machine D.Disk (M.state self.old.machine) self.old.journal self.new.journal }
        ensures later { FaultsAdvance D.Disk self.old.journal self.new.journal }
        ensures no_fault { OnOk result (NoFault D.Disk self.old.journal self.new.journal) }
        ensures cause { OnErr result (FaultRose D.Disk self.old.journal self.new.journal) }
        ensures calls_advance { WentOn D.calls_advance self.old.journal self.new.journal }
    {
        self.known();
        if !self.has_many_records() {
            return Ok(());
        }
        match put_snapshot(alloc, &self.machine, &mut self.journal) {
            Ok(()) => Ok(()),
            Err(StepFault::Disk) => Err(DiskFault),
            Err(StepFault::Memory) => {
                self.put_off = self.put_off.saturating_add(1);
                Ok(())
            }
        }
    }

    // Whether the records take more than 1 MiB and than twice the snapshot.
    pub(crate) fn has_many_records(&self) -> bool
        ensures { result ≡ has_many self.now.journal }
    {
        let records = u128::from(self.journal.record_bytes());
        let most = 2 * u128::from(self.journal.snapshot_bytes());
        records > most.max(FEW_RECORD_BYTES)
    }
}

impl<M: Machine + Drop, D: Disk> Keep<M, D> {
    /// Both disks, in their order.
    pub fn into_disks(self) -> (D, D)
        ensures first { result.0 ≡ first_disk self.journal }
        ensures second { result.1 ≡ second_disk self.journal }
    {
        self.into_journal().into_disks()
    }

    pub(crate) fn into_journal(self) -> Journal<D>
        ensures { result ≡ self.journal }
    {
        let Keep {
            machine: _,
            journal,
            unsure: _,
            put_off: _,
        } = self;
        journal
    }
}

impl<M: Machine> Keep<M, MemoryDisk> {
    /// Lets one of the writes, cuts and syncs of each disk fail, numbered from 1 from now on, or none.
    pub fn fail_at(&mut self, call: Option<u64>)
        ensures machine { self.new.machine ≡ self.old.machine }
        ensures unsure { self.new.unsure ≡ self.old.unsure }
        ensures put_off { self.new.put_off ≡ self.old.put_off }
        ensures counting { self.new.journal.counting ≡ armed self.old.journal.counting (armed_number call) }
        ensures other { self.new.journal.other ≡ armed self.old.journal.other (armed_number call) }
        ensures on_first { first_disk self.new.journal ≡ armed (first_disk self.old.journal) (armed_number call) }
        ensures on_second { second_disk self.new.journal ≡ armed (second_disk self.old.journal) (armed_number call) }
        ensures second { self.new.journal.second ≡ self.old.journal.second }
        ensures generation { self.new.journal.generation ≡ self.old.journal.generation }
        ensures start { self.new.journal.start ≡ self.old.journal.start }
        ensures end { self.new.journal.end ≡ self.old.journal.end }
        ensures shut { self.new.journal.shut ≡ self.old.journal.shut }
        ensures pending { self.new.journal.pending ≡ self.old.journal.pending }
        ensures room { self.new.journal.room ≡ self.old.journal.room }
    {
        self.journal.fail_at(call);
    }

    /// Whether a call of one of the disks ever found no memory.
    pub fn is_starved(&self) -> bool
        ensures { result ≡ (first_disk self.now.journal).starved || (second_disk self.now.journal).starved }
    {
        self.journal.is_starved()
    }

    /// How many writes, cuts and syncs of each disk come up to the one that is to fail, that one too, the first disk first;
    /// 0 where none is.
    pub fn until_faults(&self) -> (u64, u64)
        ensures first { result.0 ≡ (first_disk self.now.journal).until_fault }
        ensures second { result.1 ≡ (second_disk self.now.journal).until_fault }
    {
        self.journal.until_faults()
    }

    /// How many writes, cuts and syncs were made on each disk, the first one first.
    pub fn calls(&self) -> (u64, u64)
        ensures first { result.0 ≡ length (first_disk self.now.journal).history.log }
        ensures second { result.1 ≡ length (second_disk self.now.journal).history.log }
    {
        self.journal.calls()
    }
}

// Adds the record of a step, and hands the step back, or leaves it as unsure.
fn append<S: Drop, D: Disk>(
    journal: &mut Journal<D>,
    unsure: &mut Option<S>,
    step: S,
    bytes: &[u8],
) -> Result<S, DiskFault>
    requires sure { unsure.old ≡ None }
    requires ready { IsTrue (is_ready journal.old.pending) }
    requires short { length bytes.now ≤ 8388608 }
    requires room { length bytes.now + 13 ≤ journal.old.room }
    ensures step { IfOk result (λ kept. kept ≡ step) }
    ensures sure { OnOk result (unsure.new ≡ None) }
    ensures unsure { OnErr result (unsure.new ≡ Some step) }
    ensures appended { D.premise → OnOk result (stored D.seen journal.new ≡ with_record bytes.now (stored D.seen journal.old)) }
    ensures which { D.premise → OnErr result (StandsWhere D.Disk bytes.now journal.old journal.new) }
    ensures adds { D.premise → AddsRecord D.Disk bytes.now journal.old journal.new }
    ensures kept { KeepsPlace journal.old journal.new }
    ensures end { OnOk result (journal.new.end ≡ journal.old.end + 5 + length bytes.now) }
    ensures told { OnOk result (TellsIn D.told journal.old journal.new (all_on journal.old.second (append_calls journal.old.end bytes.now))) }
    ensures told_first { OnErr result (StopsIn D.Disk journal.old journal.new (all_on journal.old.second (append_calls journal.old.end bytes.now))) }
    ensures ready { OnOk result (IsTrue (is_ready journal.new.pending)) }
    ensures failed { OnErr result (is_ready journal.new.pending ≡ false) }
    ensures later { FaultsAdvance D.Disk journal.old journal.new }
    ensures no_fault { OnOk result (NoFault D.Disk journal.old journal.new) }
    ensures cause { OnErr result (FaultRose D.Disk journal.old journal.new) }
    ensures calls_advance { WentOn D.calls_advance journal.old journal.new }
{
    match journal.append(bytes) {
        Ok(()) => Ok(step),
        Err(fault) => {
            *unsure = Some(step);
            Err(fault)
        }
    }
}

// A step that is found to be kept is taken in.
fn settle<M: Machine>(machine: &mut M, step: M::Step, stood: bool)
    requires follows { M.follows (M.state machine.old) step }
    requires room { M.has_room machine.old step }
    ensures state { M.state machine.new ≡ caught M.after (M.state machine.old) (Some step) stood }
    ensures fixed { M.fixed (M.state machine.new) ≡ M.fixed (M.state machine.old) }
{
    if stood {
        machine.take(step);
    } else {
        drop(step);
    }
}
