//! What the count of faults of disks in memory says of a step.
ghost use Rattle.std.specs.Prelude.{◌≡◌, ◌⊎◌, ℕ, List, Result, Err, false};
ghost use Rattle.ps_disks.specs.MemoryDisk.{DiskState, told_calls};
ghost use Rattle.ps_disks.specs.Run.{IsArmed, IsSpared, MeetsFault, Went, made_since};
ghost use Rattle.ps_ports.specs.Causes.{counted};
ghost use Rattle.ps_disks.specs.declared.disk.DiskCall.{DiskCall};
ghost use Rattle.host_journal.specs.State.{State, first_disk, second_disk};
ghost use Rattle.host_journal.specs.Told.{TellsAll};
ghost use Rattle.machine_keep.specs.Armed.{IsStep, Lacks};
ghost use Rattle.machine_keep.specs.Calls.{PairCalls, TellsIn};
ghost use Rattle.machine_keep.specs.Course.{Unfound};
ghost use Rattle.machine_keep.specs.FaultLeft.{IsWithinReach, LeftStill};
ghost use Rattle.machine_keep.specs.Kept.{Kept};
ghost use Rattle.machine_keep.specs.Stopped.{IsStopped, RunsThrough, StopsAt, are_too_far};
ghost use Rattle.machine_keep.specs.declared.fault.StepFault.{StepFault};
ghost use Rattle.machine_keep.specs.declared.fault.StepFault.TheVariants.{Disk as disk_fault};
ghost use Rattle.machine_keep.specs.InMemory.{BreaksInMemory, IfArmed, IfFed, IsFaulted, IsLeftAgain, StandsInMemory, calls_wanted};

use crate::machine::Machine;

/// A law: over disks in memory of which no call is to fail a step meets no fault of a disk, unless there was no memory for a
/// call of theirs, or a write would have ended past 2^64 - 1.
pub fn law_no_fault<M: Machine>()
    ensures { (old new : State DiskState) (result : Result M.Reply StepFault) → IsStep old new result → IsArmed (first_disk old) 0 → IsArmed (second_disk old) 0
        → result ≡ Err disk_fault → Lacks (first_disk old) (first_disk new) ⊎ Lacks (second_disk old) (second_disk new) }
{}

/// A law: over disks in memory of each of which one call is to fail, counted from 1 among its writes, cuts and syncs, a step
/// meets a fault of a disk exactly where one of them makes so many calls in it, or out of memory, or by a write that
/// would end past 2^64 - 1. Else the calls that are to fail come nearer by those that were made.
pub fn law_armed<M: Machine>()
    ensures fault { (old new : State DiskState) (result : Result M.Reply StepFault) (first second : ℕ) → IsStep old new result
        → IfArmed old first second (result ≡ Err disk_fault → MeetsFault (first_disk old) (first_disk new) ⊎ MeetsFault (second_disk old) (second_disk new)) }
    ensures no_fault { (old new : State DiskState) (result : Result M.Reply StepFault) (first second : ℕ) → IsStep old new result
        → IfArmed old first second ((result ≡ Err disk_fault → ⊥) → IsSpared (first_disk old) (first_disk new) × IsSpared (second_disk old) (second_disk new)) }
{}

/// A law: a step of a kept machine that met a fault of a disk, over disks in memory of each of which one call is to fail, made
/// exactly the first of its calls up to the first one that is to fail, unless there was no memory for a call of theirs, or a
/// write of it would end past 2^64 - 1. What the disks noted of it is those calls, the last as failed and the others as done.
pub fn law_stopped()
    ensures { (old new : State DiskState) (calls : PairCalls) (first second : ℕ) → IsStopped old new calls
        → IfArmed old first second (IfFed new (are_too_far calls ≡ false → (n : ℕ) × StopsAt first second old new calls n)) }
{}

/// A law: one that met none made all of its calls, of which none is to fail, and the disks noted them as done.
pub fn law_through<M: Machine>()
    ensures { (old new : State DiskState) (result : Result M.Reply StepFault) (calls : PairCalls) (first second : ℕ) → IsStep old new result
        → (result ≡ Err disk_fault → ⊥) → TellsIn told_calls old new calls → IfArmed old first second (RunsThrough first second old new calls) }
{}

/// A law: where there was memory, the calls that a disk in memory noted are those that it tells.
pub fn law_made()
    ensures { (old new : DiskState) (calls : List DiskCall) → new.starved ≡ false
        → TellsAll (told_calls old) (told_calls new) calls → made_since old new ≡ calls }
{}

/// A law: of a step of a kept machine that met a fault of a disk as it was kept, over disks in memory of each of which one call
/// is to fail, what the disks stand for then, whether the step was taken in, and whether its record stands, by the number of the
/// call that failed; unless there was no memory for a call of theirs, or a write of the step would end past 2^64 - 1.
pub fn law_faulted<M: Machine>()
    ensures { (old new : Kept M DiskState M.Step) (call : M.Call) (broken : BreaksInMemory M.Machine old new call) (first second : ℕ)
        → IfArmed old.journal first second (IfFed new.journal (are_too_far (calls_wanted M.Machine old new call broken) ≡ false
        → StandsInMemory M.Machine new → IsFaulted M.Machine old new call broken first second)) }
{}

/// A law: of the same machine, what the disks stand for as a crash leaves them then, before the next call syncs them, or behind its
/// sync of the first one.
pub fn law_left_again<M: Machine>()
    ensures { (old new : Kept M DiskState M.Step) (call : M.Call) (broken : BreaksInMemory M.Machine old new call) (first second : ℕ)
        (faulted : IsFaulted M.Machine old new call broken first second)
        → IfArmed old.journal first second (IfFed new.journal (are_too_far (calls_wanted M.Machine old new call broken) ≡ false
        → IsWithinReach faulted.number broken.unkept.place.generation broken.unkept.image
        → IsLeftAgain M.Machine old new call broken first second faulted)) }
{}

/// A law: of such a machine whose next call met a fault before it was known what stands, which image of each disk a crash leaves.
pub fn law_left_still<M: Machine>()
    ensures { (old new : Kept M DiskState M.Step) (first second : ℕ) → Unfound told_calls (λ (d : DiskState). counted d.faults) Went M.state old new
        → IfArmed old.journal first second (IfFed new.journal (LeftStill first second old.journal new.journal)) }
{}
