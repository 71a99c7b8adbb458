//! What a step makes of a machine that is kept on two disks in memory, one call of each of which may be to fail.
ghost use Rattle.std.specs.Prelude.{◌≡◌, ◌+◌, ◌^◌, ◌<◌, ◌≤◌, ℕ, IsTrue, None, Ok, Result, false, length, take};
ghost use Rattle.ps_disks.specs.MemoryDisk.{DiskState, told_calls};
ghost use Rattle.ps_disks.specs.Run.{Went};
ghost use Rattle.ps_ports.specs.Causes.{counted};
ghost use Rattle.host_journal.specs.State.{EachImage, IsAt, first_disk, is_ready, second_disk, stored};
ghost use Rattle.machine_keep.specs.Armed.{IsStep};
ghost use Rattle.machine_keep.specs.Course.{Answered};
ghost use Rattle.machine_keep.specs.Faulted.{BrokenInMemory, Unsettled, left_now, seen_on};
ghost use Rattle.machine_keep.specs.Kept.{Kept, StandsExcept, StandsFor};
ghost use Rattle.machine_keep.specs.declared.fault.StepFault.{StepFault};
ghost use Rattle.simulated_machine.specs.Held.{Held, armed_at, schedule, syncs};
ghost use Rattle.simulated_machine.specs.IsHeld.{HasFaults, HasMade, IsHeld};
ghost use Rattle.simulated_machine.specs.AfterStep.{Broken, Done, SyncFailed};

use machine_keep::law::{
    law_armed, law_faulted, law_left_again, law_left_still, law_made, law_stopped, law_through,
};
use machine_keep::machine::Machine;

/// A law: what is held of a machine, behind a step of it that was answered (`Keep::apply`), where memory never ran out and no
/// snapshot was put off.
pub fn law_done<M: Machine>()
    ensures { (old new : Kept M DiskState M.Step) (call : M.Call) (reply : M.Reply) (result : Result M.Reply StepFault) (h : Held M.State)
        → IsHeld M.state M.stands_for M.after old h
        → result ≡ Ok reply
        → IsStep old.journal new.journal result
        → Answered (Unit {0}) seen_on told_calls M.state M.stands_for M.record_of M.answers M.follows M.after old new call reply
        → IsTrue (is_ready new.journal.pending)
        → new.unsure ≡ None
        → EachImage left_now new.journal (StandsFor M.stands_for (M.state new.machine))
        → IsAt new.journal (stored seen_on new.journal)
        → EachImage left_now new.journal (λ pair. pair ≡ stored seen_on new.journal)
        → (first_disk new.journal).starved ≡ false → (second_disk new.journal).starved ≡ false
        → new.put_off ≡ old.put_off → old.put_off ≡ 0
        → (held : Held M.State) × IsHeld M.state M.stands_for M.after new held × Done M.stands_for M.record_of M.answers M.follows M.after h held call reply }
{
    law_armed::<M>();
    law_through::<M>();
    law_made();
}

/// A law: the same behind one that met a fault of a disk before it was known what stands, once nothing is armed any more.
pub fn law_sync_failed<M: Machine>()
    ensures { (old new : Kept M DiskState M.Step) (h : Held M.State) (n : ℕ)
        → IsHeld M.state M.stands_for M.after old h
        → HasFaults old.journal n → n + 2 < 2 ^ 64
        → Unsettled (Unit {0}) seen_on told_calls (λ (d : DiskState). counted d.faults) Went M.state old new
        → (first_disk new.journal).starved ≡ false → (second_disk new.journal).starved ≡ false
        → (held : Held M.State) × IsHeld M.state M.stands_for M.after new held × HasFaults new.journal (n + 1)
        × (sync_failed : SyncFailed h (armed_at held 0)) × HasMade old.journal new.journal (take sync_failed.number (schedule h)) }
{
    law_stopped();
    law_left_still::<M>();
}

/// A law: the same behind one that met a fault as it was kept.
pub fn law_broken<M: Machine>()
    ensures { (old new : Kept M DiskState M.Step) (call : M.Call) (h : Held M.State) (n : ℕ)
        → IsHeld M.state M.stands_for M.after old h
        → HasFaults old.journal n → n + 2 < 2 ^ 64
        → h.place.snapshot + h.place.records ≤ 2 ^ 62
        → BrokenInMemory M.state M.stands_for M.record_of M.answers M.follows M.after old new call
        → is_ready new.journal.pending ≡ false
        → StandsExcept M.stands_for M.record_of (M.state new.machine) new.journal.pending (stored seen_on new.journal) new.unsure
        → (first_disk new.journal).starved ≡ false → (second_disk new.journal).starved ≡ false
        → (held : Held M.State) × IsHeld M.state M.stands_for M.after new held × HasFaults new.journal (n + 1)
        × (broken : Broken M.stands_for M.record_of M.answers M.follows M.after h (armed_at held 0) call)
        × HasMade old.journal new.journal (take (length (syncs h.ready) + broken.number) (schedule h)) }
{
    law_stopped();
    law_faulted::<M>();
    law_left_again::<M>();
}
