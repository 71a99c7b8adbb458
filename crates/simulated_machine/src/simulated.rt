//! A machine that is kept on two disks in memory, of each of which one call may be made to fail.
ghost use Rattle.std.specs.Prelude.{◌≡◌, ◌⊎◌, ◌+◌, ◌-◌, ◌^◌, ◌<◌, ◌≤◌, ℕ, IfErr, IfOk, IfSome, IsTrue, None, Ok, OnErr, OnOk, Option, [], ◌++◌, false, not, true};
ghost use Rattle.ps_disks.specs.Disk.{Only};
ghost use Rattle.ps_disks.specs.Run.{IsArmed};
ghost use Rattle.host_journal.specs.State.{first_disk, is_ready, second_disk, stored};
ghost use Rattle.machine_keep.specs.Faulted.{seen_on};
ghost use Rattle.simulated_machine.specs.Crashed.{StandsAt};
ghost use Rattle.simulated_machine.specs.Held.{armed_at, configured, failing, fault_at, four, place_of, seven, syncs};
ghost use Rattle.simulated_machine.specs.IsHeld.{HasFaults, Holds};
ghost use Rattle.simulated_machine.specs.AfterStep.{SyncFailed, unsynced_disk_broken, unsynced_disk_still};
ghost use Rattle.simulated_machine.specs.declared.simulated.Stepped.TheVariants.{Answered, Faulted};
ghost use Rattle.machine_keep.specs.Began.{IfNotAJournal, IsRefusedOf, StandsForNone, StandsInEither};
ghost use Rattle.machine_keep.specs.BothDisks.{FaultRoseOn};
ghost use Rattle.machine_keep.specs.InMemory.{seen_pair};
ghost use Rattle.simulated_machine.specs.Said.{HoldsDone, HoldsFaulted, LiesByForm, StandsUnsynced, StepBroken, StepDone, StopsBehindSyncs, held_by};

use crate::law::{law_broken, law_done, law_sync_failed};
use host_journal::crash::crash_now;
use host_journal::fault::{OpenFault, OpenReason};
use machine_keep::fault::StepFault;
use machine_keep::keep::Keep;
use machine_keep::machine::Machine;
use ps_disks::disk::Disk;
use ps_disks::image::Image;
use ps_disks::memory_disk::MemoryDisk;
use ps_time::memory::Memory;
use std::alloc::Global;
use std::marker::Model;

/// What a step comes to.
#[derive(Drop)]
pub enum Stepped<R> {
    Answered(R),
    /// A call of a disk failed.
    Faulted,
}

/// Makes a step. `Memory` also stands for a snapshot that was put off, and for a call of a disk that found no memory; nothing is
/// known of the machine then. Behind a fault no call is to fail any more.
fn step_of<M: Machine>(
    keep: &mut Keep<M, MemoryDisk>,
    alloc: Global,
    call: M::Call,
) -> Result<Stepped<M::Reply>, Memory>
    requires may { M.may_ask (M.fixed (M.state keep.old.machine)) call }
    ensures done { (reply : M.Reply) → result ≡ Ok (Answered reply) → keep.old.put_off ≡ 0 → HoldsDone M.Machine keep.old keep.new call reply }
    ensures no_fault { (reply : M.Reply) → result ≡ Ok (Answered reply) → (n : ℕ) → n + 2 < 2 ^ 64 → HasFaults keep.old.journal n
        → HasFaults keep.new.journal n }
    ensures fixed { M.fixed (M.state keep.new.machine) ≡ M.fixed (M.state keep.old.machine) }
    ensures made { IfOk result (λ stepped. keep.old.put_off ≡ 0 → keep.new.put_off ≡ 0) }
    ensures faulted { result ≡ Ok Faulted → HoldsFaulted M.Machine keep.old keep.new call }
{
    law_done::<M>();
    law_sync_failed::<M>();
    law_broken::<M>();
    match keep.apply(alloc, call) {
        Ok(reply) => {
            keep.known();
            if keep.is_starved() || keep.put_off() != 0 {
                drop(reply);
                return Err(Memory);
            }
            Ok(Stepped::Answered(reply))
        }
        Err(StepFault::Memory) => Err(Memory),
        Err(StepFault::Disk) => {
            keep.known();
            if keep.is_starved() || keep.put_off() != 0 {
                return Err(Memory);
            }
            keep.fail_at(None);
            Ok(Stepped::Faulted)
        }
    }
}

/// So many faults of disks are met at most, and so many bytes are kept.
const MOST: u64 = 1 << 61;

/// So many bytes come at most with a step that meets a fault: a record of 8 MiB, or a snapshot below 4 GiB.
const MORE_BYTES: u64 = 1 << 33;

/// A machine that is kept on two disks in memory. Where memory ran out once, it always is.
pub struct SimulatedMachine<M: Machine> {
    keep: Keep<M, MemoryDisk>,
    // the disk of which something is unsynced: whether that is the second
    unsynced: Option<bool>,
    // whether the second disk counts
    second: bool,
    // no disk met more
    faults: u64,
    // its snapshot and records have at most so many
    most_bytes: u64,
    // memory never ran out
    is_fed: bool,
}

impl<M: Machine> Model for SimulatedMachine<M> {
    ghost use Rattle.std.specs.Prelude.{IsTrue};
    ghost use Rattle.simulated_machine.specs.IsHeld.{Holds, IsCounting, SimulatedState};

    ghost Value = { SimulatedState M M.Step };

    ghost view = { λ s. record { keep = s.keep; unsynced = s.unsynced } };

    ghost invariant = { λ s. IsTrue s.is_fed → Holds M.fixed M.state M.stands_for M.after s.keep s.unsynced s.faults s.most_bytes × IsCounting s.keep.journal s.unsynced s.second };
}

// Written out, so that a drop elsewhere is one call.
impl<M: Machine + Drop> Drop for SimulatedMachine<M> {
    fn drop(self) {
        let SimulatedMachine {
            keep: _,
            unsynced: _,
            second: _,
            faults: _,
            most_bytes: _,
            is_fed: _,
        } = self;
    }
}

impl<M: Machine + Drop> SimulatedMachine<M> {
    /// The machine of an origin for which two disks stand (`Keep::open`), of which no call is to fail. `OpenReason::Memory` also
    /// stands for a snapshot that was put off, and for a call of a disk that found no memory.
    pub fn open(
        alloc: Global,
        origin: M::Origin,
        first: MemoryDisk,
        second: MemoryDisk,
    ) -> Result<SimulatedMachine<M>, OpenFault<MemoryDisk>>
        requires armed { IsArmed first 0 × IsArmed second 0 }
        requires faults { (first.faults ≡ 0) × (second.faults ≡ 0) }
        ensures stands { IfOk result (λ simulated. StandsInEither M.Machine (held_by M.Machine simulated).state (seen_pair first second)) }
        ensures fixed { IfOk result (λ simulated. M.fixed (held_by M.Machine simulated).state ≡ M.fixed_of origin) }
        // No journal of that origin, in the words of `Keep::open`, and a fault only where a count of the disks rose.
        ensures nothing { IfErr result (λ f. IfNotAJournal f.reason (λ _. StandsForNone M.Machine (M.fixed_of origin) (seen_pair first second))) }
        ensures refused { IfErr result (λ f. IfNotAJournal f.reason (IsRefusedOf M.Machine (M.fixed_of origin) (seen_pair first second))) }
        ensures fault { IfErr result (λ f. f.reason ≡ OpenReason.DiskFault → FaultRoseOn ⟦<MemoryDisk as Disk>⟧ first second f.first f.second) }
        // Where they lie: as they did, or, where their list was in the earlier form, with a snapshot alone on the other disk.
        ensures place { IfOk result (λ simulated. LiesByForm M.Machine simulated first second) }
        ensures ready { IfOk result (λ simulated. ((held_by M.Machine simulated).ready ≡ true) × ((held_by M.Machine simulated).unsynced ≡ None)
            × ((held_by M.Machine simulated).first ≡ 0) × ((held_by M.Machine simulated).second ≡ 0)) }
    {
        let keep = match Keep::open(alloc, origin, first, second) {
            Ok(keep) => keep,
            Err(fault) => return Err(fault),
        };
        keep.known();
        if keep.is_starved() || keep.put_off() != 0 {
            let (first, second) = keep.into_disks();
            return Err(OpenFault {
                reason: OpenReason::Memory,
                first,
                second,
            });
        }
        Ok(SimulatedMachine::over(keep))
    }

    // A kept machine whose last call met no fault, over disks that met none, of which no call is to fail from then on.
    fn over(keep: Keep<M, MemoryDisk>) -> SimulatedMachine<M>
        requires ready { IsTrue (is_ready keep.journal.pending) }
        requires made { keep.put_off ≡ 0 }
        requires faults { HasFaults keep.journal 0 }
        requires fed { ((first_disk keep.journal).starved ≡ false) × ((second_disk keep.journal).starved ≡ false) }
        requires reads { ((first_disk keep.journal).calls.failing ≡ []) × ((second_disk keep.journal).calls.failing ≡ []) }
        ensures { held_by M.Machine result
            ≡ record { state = M.state keep.machine; place = place_of (stored seen_on keep.journal); ready = true; unsynced = None; first = 0; second = 0 } }
    {
        keep.known();
        let mut keep = keep;
        keep.fail_at(None);
        let second = keep.is_second();
        let most_bytes = keep.snapshot_bytes().saturating_add(keep.record_bytes());
        SimulatedMachine {
            keep,
            unsynced: None,
            second,
            faults: 0,
            most_bytes,
            is_fed: true,
        }
    }

    /// Begins to make a step, stops at one of its calls of the disks, counted from 1 over both, and hands back the disks as a crash
    /// there leaves them (`Keep::crash_in`). `Memory` also stands for a call of a disk that failed.
    pub fn crash(
        self,
        alloc: Global,
        call: M::Call,
        stop: u64,
        image: Image,
    ) -> Result<(MemoryDisk, MemoryDisk), Memory>
        requires { M.may_ask (M.fixed (held_by M.Machine self).state) call }
        // At a sync of a step that follows a fault.
        ensures sync_failed { (held_by M.Machine self).ready ≡ false → stop ≤ 2 → IfOk result (λ disks.
            StandsUnsynced M.Machine self stop image (seen_pair disks.0 disks.1)) }
        ensures stops { ((held_by M.Machine self).ready ≡ false → 2 < stop) → IfOk result (λ disks.
            StopsBehindSyncs M.Machine self call stop image (seen_pair disks.0 disks.1)) }
        // No call of them is to fail, and a later crash leaves what they read.
        ensures no_fault { IfOk result (λ disks. IsArmed disks.0 0 × IsArmed disks.1 0) }
        ensures first { IfOk result (λ disks. Only (⟦<MemoryDisk as Disk>⟧.seen disks.0) (⟦<MemoryDisk as Disk>⟧.may_leave disks.0)) }
        ensures second { IfOk result (λ disks. Only (⟦<MemoryDisk as Disk>⟧.seen disks.1) (⟦<MemoryDisk as Disk>⟧.may_leave disks.1)) }
    {
        if !self.is_fed {
            drop((self, call));
            return Err(Memory);
        }
        self.keep.known();
        let is_ready = self.keep.is_ready();
        let keep = self.into_keep();
        if is_ready {
            return keep.crash_in(alloc, call, stop, image);
        }
        keep.crash_in_again(alloc, call, stop, image)
    }

    /// Hands the disks back as a crash between two steps leaves them. `Memory` also stands for a disk for whose bytes there was none.
    pub fn crash_now(self, image: Image) -> Result<(MemoryDisk, MemoryDisk), Memory>
        ensures left { IfOk result (λ disks. StandsUnsynced M.Machine self 0 image (seen_pair disks.0 disks.1)) }
        // No call of them is to fail, and a later crash leaves what they read.
        ensures no_fault { IfOk result (λ disks. IsArmed disks.0 0 × IsArmed disks.1 0) }
        ensures first { IfOk result (λ disks. Only (⟦<MemoryDisk as Disk>⟧.seen disks.0) (⟦<MemoryDisk as Disk>⟧.may_leave disks.0)) }
        ensures second { IfOk result (λ disks. Only (⟦<MemoryDisk as Disk>⟧.seen disks.1) (⟦<MemoryDisk as Disk>⟧.may_leave disks.1)) }
    {
        if !self.is_fed {
            drop(self);
            return Err(Memory);
        }
        let (first, second) = self.into_keep().into_disks();
        let first = crash_now(first, image)?;
        let second = crash_now(second, image)?;
        Ok((first, second))
    }

    /// Hands the disks back, which stand as they read for the state that is held. `Memory`, where memory ever ran out.
    pub fn into_disks(self) -> Result<(MemoryDisk, MemoryDisk), Memory>
        ensures stands { IfOk result (λ disks. StandsAt M.stands_for (held_by M.Machine self).state (held_by M.Machine self).place
            (seen_pair disks.0 disks.1)) }
        ensures first { IfOk result (λ disks. disks.0 ≡ first_disk self.keep.journal) }
        ensures second { IfOk result (λ disks. disks.1 ≡ second_disk self.keep.journal) }
    {
        if !self.is_fed {
            drop(self);
            return Err(Memory);
        }
        Ok(self.into_keep().into_disks())
    }

    // The kept machine.
    fn into_keep(self) -> Keep<M, MemoryDisk>
        ensures { result ≡ self.keep }
    {
        let SimulatedMachine {
            keep,
            unsynced: _,
            second: _,
            faults: _,
            most_bytes: _,
            is_fed: _,
        } = self;
        keep
    }
}

impl<M: Machine> SimulatedMachine<M> {
    /// The machine. After a fault it may lack a step that is kept; the next step finds that out.
    pub fn machine(&self) -> &M
        ensures machine { result.now ≡ self.now.keep.machine }
        ensures state { (held_by M.Machine self.now).ready ≡ true → M.state result.now ≡ (held_by M.Machine self.now).state }
    {
        self.keep.known();
        self.keep.machine()
    }

    /// Whether the last step met no fault.
    pub fn is_ready(&self) -> bool
        ensures { result ≡ (held_by M.Machine self.now).ready }
    {
        self.keep.is_ready()
    }

    /// Which of the calls that the next step makes is to fail, counted from 1 over both disks, where it makes as many; none, where
    /// none of the most that it makes. `Memory`, where memory ever ran out.
    pub fn fault_at(&self) -> Result<Option<u64>, Memory>
        ensures { IfOk result (λ number. number ≡ fault_at (held_by M.Machine self.now)) }
    {
        if !self.is_fed {
            return Err(Memory);
        }
        let (first, second) = self.keep.until_faults();
        Ok(failing_at(self.keep.is_ready(), self.second, first, second))
    }

    /// Lets one of the writes, cuts and syncs of each disk fail, numbered from 1 from now on, or none for 0. The first fault
    /// disarms both.
    pub fn fail_at(&mut self, call: u64)
        ensures { held_by M.Machine self.new ≡ armed_at (held_by M.Machine self.old) call }
    {
        self.keep.fail_at(Some(call));
    }

    /// Sets an origin again, as a configuration (`Keep::set_config`). What is kept stays, and what is unsynced. `Memory`, where memory
    /// was ever missing.
    pub fn set_config(&mut self, origin: M::Origin) -> Result<(), Memory>
        requires { M.may_set (M.fixed (held_by M.Machine self.old).state) (M.fixed_of origin) }
        ensures set { OnOk result (held_by M.Machine self.new ≡ configured M.with_fixed (M.fixed_of origin) (held_by M.Machine self.old)) }
        ensures still { OnErr result (self.new ≡ self.old) }
    {
        if !self.is_fed {
            drop(origin);
            return Err(Memory);
        }
        self.keep.set_config(origin);
        Ok(())
    }

    /// Makes a step, and keeps what it changes before it is answered. After a fault it first finds out what stands. `Memory` also
    /// stands for a snapshot that was put off, for a call of a disk that found no memory, and for more than 2^61 faults or bytes.
    pub fn step(&mut self, alloc: Global, call: M::Call) -> Result<Stepped<M::Reply>, Memory>
        requires { M.may_ask (M.fixed (held_by M.Machine self.old).state) call }
        ensures done { (reply : M.Reply) → result ≡ Ok (Answered reply)
            → StepDone M.Machine (held_by M.Machine self.old) (held_by M.Machine self.new) call reply }
        ensures faulted { result ≡ Ok Faulted → SyncFailed (held_by M.Machine self.old) (held_by M.Machine self.new)
            ⊎ StepBroken M.Machine (held_by M.Machine self.old) (held_by M.Machine self.new) call }
    {
        if !self.is_fed || self.faults > MOST || self.most_bytes > MOST {
            drop(call);
            return Err(Memory);
        }
        self.is_fed = false;
        let was_ready = self.keep.is_ready();
        let before = self.keep.calls();
        match step_of(&mut self.keep, alloc, call)? {
            Stepped::Answered(reply) => {
                self.keep.known();
                self.unsynced = None;
                self.second = self.keep.is_second();
                self.most_bytes = self
                    .keep
                    .snapshot_bytes()
                    .saturating_add(self.keep.record_bytes());
                self.is_fed = true;
                Ok(Stepped::Answered(reply))
            }
            Stepped::Faulted => {
                let after = self.keep.calls();
                let first = after.0.saturating_sub(before.0);
                let second = after.1.saturating_sub(before.1);
                self.unsynced = unsynced_after(was_ready, self.unsynced, first, second);
                self.second = self.unsynced.unwrap_or(self.second);
                self.faults += 1;
                self.most_bytes += MORE_BYTES;
                self.is_fed = true;
                Ok(Stepped::Faulted)
            }
        }
    }
}

// Of which disk something is unsynced behind a fault, by how many calls each disk made up to it.
fn unsynced_after(was_ready: bool, unsynced: Option<bool>, first: u64, second: u64) -> Option<bool>
    ensures sync_failed { was_ready ≡ false → first + second ≤ 2 → result ≡ unsynced_disk_still (first + second) unsynced }
    ensures ready { was_ready ≡ true → first + second < 2 ^ 64 → result ≡ unsynced_disk_broken (first + second) second }
    ensures again { was_ready ≡ false → 2 < first + second → first + second < 2 ^ 64 → result ≡ unsynced_disk_broken (first + second - 2) (second - 1) }
{
    let calls = first.saturating_add(second);
    if was_ready {
        return unsynced_at(calls, second);
    }
    if calls > 2 {
        return unsynced_at(calls - 2, second.saturating_sub(1));
    }
    match unsynced {
        Some(false) if calls == 2 => None,
        unsynced => unsynced,
    }
}

// Of which disk something is unsynced behind a fault in the call of this number of a record and a snapshot.
fn unsynced_at(number: u64, second: u64) -> Option<bool>
    ensures { result ≡ unsynced_disk_broken number second }
{
    match number {
        4 => Some(second == 4),
        11 => Some(second == 7),
        _ => None,
    }
}

// Which call is to fail of the most that a step makes, by which call of each disk is to, or 0.
fn failing_at(is_ready: bool, is_second: bool, first: u64, second: u64) -> Option<u64>
    ensures { result ≡ failing first second (syncs is_ready ++ (four is_second ++ seven (not is_second))) }
{
    if is_ready {
        return failing_kept(is_second, first, second);
    }
    if first == 1 {
        return Some(1);
    }
    if second == 1 {
        return Some(2);
    }
    match failing_kept(is_second, first.saturating_sub(1), second.saturating_sub(1)) {
        Some(number) => Some(number + 2),
        None => None,
    }
}

// Which call is to fail of those of a record and a snapshot.
fn failing_kept(is_second: bool, first: u64, second: u64) -> Option<u64>
    ensures kept { result ≡ failing first second (four is_second ++ seven (not is_second)) }
    ensures few { IfSome result (λ number. number ≤ 11) }
{
    if is_second {
        return failing_in(second, first);
    }
    failing_in(first, second)
}

// Four calls of the disk that counts, and seven of the other.
fn failing_in(counting: u64, other: u64) -> Option<u64>
    ensures is { result ≡ failing counting other (four false ++ seven true) }
    ensures few { IfSome result (λ number. number ≤ 11) }
{
    if counting != 0 && counting <= 4 {
        return Some(counting);
    }
    if other != 0 && other <= 7 {
        return Some(4 + other);
    }
    None
}
