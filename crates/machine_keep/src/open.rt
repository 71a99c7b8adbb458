//! Opening a machine that is kept.
ghost use Rattle.std.specs.Prelude.{◌≡◌, ◌⊎◌, ◌+◌, ◌<◌, ◌^◌, ℕ, IsFalse, IsTrue, IfOk, IfErr, Ok, false, length, take};
ghost use Rattle.host_journal.specs.Format.{record_bytes};
ghost use Rattle.host_journal.specs.State.{is_ready, stored, opened_as, WentOn, first_disk, second_disk};
ghost use Rattle.machine_keep.specs.declared.fault.StepFault.TheVariants.{Disk as disk_fault, Memory as no_memory};
ghost use Rattle.machine_keep.specs.Calls.{TellsPair, sync_calls};
ghost use Rattle.machine_keep.specs.Kept.{StandsFor};
ghost use Rattle.machine_keep.specs.Began.{AddsMachine, AreDisksOf, BeginsAs, CountsByForm, IfNotAJournal, IsOpened, IsRefusedOf, KeepsForm, LeavesAsBefore, Migrates, Rewrites, StandsForNone, StandsInEither, StandsThroughOpening, StandsUnlessUndone, StoodUnlessUndone, StopsOpening, StopsRewriting};
ghost use Rattle.machine_keep.specs.BothDisks.{FaultRoseOn, NoFault, NoFaultOn, OnlyRead, read_pair};
ghost use Rattle.machine_keep.specs.Ends.{IsDurable};

use crate::fault::StepFault;
use crate::keep::Keep;
use crate::machine::{Machine, RestoreFault, Restored};
use crate::snapshot::put_snapshot;
use host_journal::fault::{OpenFault, OpenReason};
use host_journal::journal::Journal;
use host_journal::reading::{DiskPlace, item_place};
use ps_disks::disk::Disk;
use ps_time::items::Items;
use std::alloc::Global;

impl<M: Machine + Drop, D: Disk> Keep<M, D> {
    /// The machine for which two disks stand. Makes sure of each disk before it reads it. Where their list is in the earlier
    /// form, a snapshot in the form that is written takes its place; else nothing is written. Where there is no memory for that
    /// snapshot, it has too many bytes, or the journal is in its last generation, the answer is `OpenReason::Memory`.
    pub fn open(
        alloc: Global,
        origin: M::Origin,
        first: D,
        second: D,
    ) -> Result<Keep<M, D>, OpenFault<D>>
        ensures stands { D.premise → IfOk result (λ keep. StandsInEither M.Machine (M.state keep.machine) (read_pair D.Disk first second)) }
        ensures fixed { IfOk result (λ keep. M.fixed (M.state keep.machine) ≡ M.fixed_of origin) }
        ensures ready { IfOk result (λ keep. IsTrue (is_ready keep.journal.pending)) }
        ensures durable { D.premise → IfOk result (λ keep. IsDurable M.Machine D.Disk keep) }
        // At every moment since the disks were handed in.
        ensures any_moment_err { D.premise → IfErr result (λ f. StandsThroughOpening M.Machine D.Disk first second f.first f.second) }
        // Images that the first syncs undo are left aside, and no others.
        ensures unless_undone { D.premise → IfOk result (λ keep. StandsUnlessUndone M.Machine D.Disk first second keep) }
        ensures unless_undone_err { D.premise → IfErr result (λ f. StoodUnlessUndone M.Machine D.Disk first second f.first f.second) }
        // What a caller joins with the call behind it.
        ensures begun { D.premise → IfOk result (λ keep. BeginsAs M.Machine D.Disk first second keep) }
        // And what a crash leaves then: of both what it could have left before, or what stands for a state for which they stood.
        ensures left { D.premise → IfErr result (λ f. LeavesAsBefore M.Machine D.Disk first second f.first f.second) }
        // Where no fault is told, a refusal wrote nothing.
        ensures refused_first { D.premise → IfErr result (λ f. (f.reason ≡ OpenReason.DiskFault → ⊥) → OnlyRead D.Disk first f.first) }
        ensures refused_second { D.premise → IfErr result (λ f. (f.reason ≡ OpenReason.DiskFault → ⊥) → OnlyRead D.Disk second f.second) }
        // Only where the disks stand for no state of that origin.
        ensures nothing { D.premise → IfErr result (λ f. IfNotAJournal f.reason
            (λ _. StandsForNone M.Machine (M.fixed_of origin) (read_pair D.Disk first second))) }
        // At the place where they are no journal, or else of the first item that is refused.
        ensures place { D.premise → IfErr result (λ f. IfNotAJournal f.reason (IsRefusedOf M.Machine (M.fixed_of origin) (read_pair D.Disk first second))) }
        ensures fault { IfErr result (λ f. f.reason ≡ OpenReason.DiskFault → FaultRoseOn D.Disk first second f.first f.second) }
        ensures no_fault { IfOk result (λ keep. NoFaultOn D.Disk first second (first_disk keep.journal) (second_disk keep.journal)) }
        ensures no_fault_err { IfErr result (λ f. (f.reason ≡ OpenReason.DiskFault → ⊥) → NoFaultOn D.Disk first second f.first f.second) }
        // The form of the list decides which disk counts then.
        ensures form { D.premise → IfOk result (λ keep. CountsByForm M.Machine D.Disk first second keep) }
        // The calls that the disks tell: the syncs, and a snapshot where the list was in the earlier form. On no premise.
        ensures opened { IfOk result (λ keep. IsOpened M.Machine D.Disk first second keep) }
        ensures told_err { IfErr result (λ f. f.reason ≡ OpenReason.DiskFault → StopsOpening M.Machine D.Disk first second f.first f.second) }
        ensures told_refused { IfErr result (λ f. (f.reason ≡ OpenReason.DiskFault → ⊥) → TellsPair D.told first second f.first f.second (sync_calls false)) }
        ensures calls_advance { IfOk result (λ keep. D.calls_advance first (first_disk keep.journal) × D.calls_advance second (second_disk keep.journal)) }
        ensures calls_advance_err { IfErr result (λ f. D.calls_advance first f.first × D.calls_advance second f.second) }
    {
        match Journal::open(alloc, first, second) {
            Ok((journal, list)) => Keep::of_list(alloc, origin, journal, list),
            Err(fault) => {
                drop(origin);
                Err(fault)
            }
        }
    }

    // The machine of the list that an opening gave.
    fn of_list(
        alloc: Global,
        origin: M::Origin,
        journal: Journal<D>,
        list: Items<Items<u8>>,
    ) -> Result<Keep<M, D>, OpenFault<D>>
        requires ready { IsTrue (is_ready journal.pending) }
        requires list { D.premise → stored D.seen journal ≡ opened_as journal list }
        requires places { (n : ℕ) → n < length list → 21 + record_bytes (take n list) < 2 ^ 64 }
        ensures fixed { IfOk result (λ keep. M.fixed (M.state keep.machine) ≡ M.fixed_of origin) }
        ensures stands { D.premise → IfOk result (λ keep. StandsInEither M.Machine (M.state keep.machine) (stored D.seen journal)) }
        ensures ready { IfOk result (λ keep. IsTrue (is_ready keep.journal.pending)) }
        ensures durable { D.premise → IfOk result (λ keep. IsDurable M.Machine D.Disk keep) }
        ensures adds { D.premise → IfOk result (λ keep. AddsMachine M.Machine D.Disk journal keep) }
        ensures refused { IfErr result (λ f. (f.reason ≡ OpenReason.DiskFault → ⊥) → AreDisksOf journal f.first f.second) }
        ensures left { D.premise → IfErr result (λ f. AreDisksOf journal f.first f.second ⊎ Migrates M.Machine D.Disk journal f.first f.second) }
        ensures nothing { D.premise → IfErr result (λ f. IfNotAJournal f.reason
            (λ _. StandsForNone M.Machine (M.fixed_of origin) (stored D.seen journal))) }
        ensures place { D.premise → IfErr result (λ f. IfNotAJournal f.reason (IsRefusedOf M.Machine (M.fixed_of origin) (stored D.seen journal))) }
        ensures fault { IfErr result (λ f. f.reason ≡ OpenReason.DiskFault → FaultRoseOn D.Disk (first_disk journal) (second_disk journal) f.first f.second) }
        ensures no_fault { IfOk result (λ keep. NoFault D.Disk journal keep.journal) }
        ensures form { D.premise → IfOk result (λ keep. KeepsForm M.Machine D.Disk journal keep) }
        ensures told { IfOk result (λ keep. Rewrites M.Machine D.Disk journal keep) }
        ensures told_first { IfErr result (λ f. f.reason ≡ OpenReason.DiskFault → StopsRewriting M.Machine D.Disk journal f.first f.second) }
        ensures calls_advance { IfOk result (λ keep. WentOn D.calls_advance journal keep.journal) }
        ensures calls_advance_err { IfErr result (λ f. D.calls_advance (first_disk journal) f.first × D.calls_advance (second_disk journal) f.second) }
    {
        match M::restore(alloc, origin, list.as_slice()) {
            Ok(restored) => Keep::of_restored(alloc, journal, restored),
            Err(RestoreFault::NotARecord(index)) => {
                let at = DiskPlace {
                    disk: journal.counting_disk(),
                    place: item_place(list.as_slice(), index),
                };
                Err(refused(journal, OpenReason::NotAJournal(at)))
            }
            Err(RestoreFault::Memory) => Err(refused(journal, OpenReason::Memory)),
        }
    }

    // A machine over its journal, which gets a snapshot of it where its list is in the earlier form.
    fn of_restored(
        alloc: Global,
        journal: Journal<D>,
        restored: Restored<M>,
    ) -> Result<Keep<M, D>, OpenFault<D>>
        requires ready { IsTrue (is_ready journal.pending) }
        requires now { D.premise → IsFalse restored.is_earlier → StandsFor M.stands_for (M.state restored.machine) (stored D.seen journal) }
        requires earlier { D.premise → IsTrue restored.is_earlier → StandsFor M.stood_for (M.state restored.machine) (stored D.seen journal) }
        ensures machine { IfOk result (λ keep. keep.machine ≡ restored.machine) }
        ensures ready { IfOk result (λ keep. IsTrue (is_ready keep.journal.pending)) }
        ensures durable { D.premise → IfOk result (λ keep. IsDurable M.Machine D.Disk keep) }
        ensures adds { D.premise → IfOk result (λ keep. AddsMachine M.Machine D.Disk journal keep) }
        ensures refused { IfErr result (λ f. (f.reason ≡ OpenReason.DiskFault → ⊥) → AreDisksOf journal f.first f.second) }
        ensures left { D.premise → IfErr result (λ f. Migrates M.Machine D.Disk journal f.first f.second) }
        ensures no_place { IfErr result (λ f. (place : _) → f.reason ≡ OpenReason.NotAJournal place → ⊥) }
        ensures fault { IfErr result (λ f. f.reason ≡ OpenReason.DiskFault → FaultRoseOn D.Disk (first_disk journal) (second_disk journal) f.first f.second) }
        ensures no_fault { IfOk result (λ keep. NoFault D.Disk journal keep.journal) }
        ensures form { D.premise → IfOk result (λ keep. KeepsForm M.Machine D.Disk journal keep) }
        ensures told { IfOk result (λ keep. Rewrites M.Machine D.Disk journal keep) }
        ensures told_first { IfErr result (λ f. f.reason ≡ OpenReason.DiskFault → StopsRewriting M.Machine D.Disk journal f.first f.second) }
        ensures calls_advance { IfOk result (λ keep. WentOn D.calls_advance journal keep.journal) }
        ensures calls_advance_err { IfErr result (λ f. D.calls_advance (first_disk journal) f.first × D.calls_advance (second_disk journal) f.second) }
    {
        let Restored {
            machine,
            is_earlier,
        } = restored;
        let mut journal = journal;
        journal.known();
        if is_earlier {
            if let Err(fault) = put_snapshot(alloc, &machine, &mut journal) {
                drop(machine);
                return Err(refused(journal, reason_of(fault)));
            }
        }
        let keep = Keep::over(machine, journal);
        keep.known();
        Ok(keep)
    }
}

fn reason_of(fault: StepFault) -> OpenReason
    ensures disk { result ≡ OpenReason.DiskFault → fault ≡ disk_fault }
    ensures memory { (result ≡ OpenReason.DiskFault → ⊥) → fault ≡ no_memory }
    ensures no_place { (place : _) → result ≡ OpenReason.NotAJournal place → ⊥ }
{
    match fault {
        StepFault::Disk => OpenReason::DiskFault,
        StepFault::Memory => OpenReason::Memory,
    }
}

fn refused<D: Disk>(journal: Journal<D>, reason: OpenReason) -> OpenFault<D>
    ensures first { result.first ≡ first_disk journal }
    ensures second { result.second ≡ second_disk journal }
    ensures reason { result.reason ≡ reason }
{
    let (first, second) = journal.into_disks();
    OpenFault {
        first,
        second,
        reason,
    }
}
