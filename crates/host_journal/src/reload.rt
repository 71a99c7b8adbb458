//! Taking a journal up after a call that failed.
ghost use Rattle.std.specs.Prelude.{◌≡◌, ◌⊎◌, ◌∷◌, [], ◌≤◌, false, not, if◌then◌else◌, IsTrue, IfOk, OnOk, OnErr};
ghost use Rattle.ps_ports.specs.Causes.{Rose};
ghost use Rattle.ps_disks.specs.Disk.{Only};
ghost use Rattle.ps_disks.specs.declared.disk.DiskCall.TheVariants.{Sync};
ghost use Rattle.host_journal.specs.Calls.{IsRead};
ghost use Rattle.host_journal.specs.Reload.{stood_of, IsOf};
ghost use Rattle.host_journal.specs.State.{is_ready, stored, has_record, EachImage, IsAt, KeepsPlace, WentOn, first_disk, second_disk};
ghost use Rattle.host_journal.specs.Told.{TellsAll, TellsSyncs};

use crate::disk_calls::{is_open_at, sync_both};
use crate::fault::DiskFault;
use crate::journal::Journal;
use crate::pending::Pending;
use crate::snapshot::HEAD_GATE;
use ps_disks::disk::Disk;
use std::mem;

// Which gate byte stands open.
#[derive(Clone, Copy)]
enum Stood {
    Nothing,
    // The last gate byte of the disk that counts, and the place of the next one.
    Record(u64),
    // The head gate byte of the other disk, and the place of its first gate byte.
    Snapshot(u64),
}

impl<D: Disk> Journal<D> {
    /// Takes the journal up after a call that failed: makes sure of both disks, the first one first, and
    /// then looks at the gate byte that the call was to open, where it had come so far. Answers whether that
    /// call was an `append` and its record stands. Takes no memory.
    pub fn reload(&mut self) -> Result<bool, DiskFault>
        requires failed { is_ready self.old.pending ≡ false }
        ensures same { D.premise → stored D.seen self.new ≡ stored D.seen self.old }
        ensures place { D.premise → OnOk result (IsAt self.new (stored D.seen self.new)) }
        ensures durable { D.premise → OnOk result (EachImage D.may_leave self.new (λ pair. pair ≡ stored D.seen self.new)) }
        ensures answer { D.premise → IfOk result (λ stood. stood ≡ has_record self.old.pending (stored D.seen self.old)) }
        ensures ready { OnOk result (IsTrue (is_ready self.new.pending)) }
        ensures first { D.premise → IsRead D.seen D.may_leave D.moment D.left_since (first_disk self.old) (first_disk self.new) }
        ensures second { D.premise → IsRead D.seen D.may_leave D.moment D.left_since (second_disk self.old) (second_disk self.new) }
        // A snapshot that stands has turned the disks over, and left its head gate byte open.
        ensures shut { OnOk result ((self.new.second ≡ self.old.second → self.new.shut ≡ self.old.shut) × (self.new.second ≡ not self.old.second → self.new.shut ≡ false)) }
        ensures kept { OnErr result (KeepsPlace self.old self.new × (self.new.end ≡ self.old.end)) }
        ensures pending { OnErr result (self.new.pending ≡ self.old.pending) }
        ensures room { self.new.room ≡ self.old.room }
        ensures told_first { OnOk result (TellsAll (D.told (first_disk self.old)) (D.told (first_disk self.new)) (Sync ∷ [])) }
        ensures told_second { OnOk result (TellsAll (D.told (second_disk self.old)) (D.told (second_disk self.new)) (Sync ∷ [])) }
        ensures told_err { OnErr result (TellsSyncs D.told D.disk_faults D.calls_advance (first_disk self.old) (second_disk self.old) (first_disk self.new) (second_disk self.new)) }
        ensures later { (D.disk_faults (first_disk self.old) ≤ D.disk_faults (first_disk self.new)) × (D.disk_faults (second_disk self.old) ≤ D.disk_faults (second_disk self.new)) }
        ensures no_fault { OnOk result ((D.disk_faults (first_disk self.new) ≡ D.disk_faults (first_disk self.old)) × (D.disk_faults (second_disk self.new) ≡ D.disk_faults (second_disk self.old))) }
        ensures cause { OnErr result (Rose (D.disk_faults (first_disk self.old)) (D.disk_faults (first_disk self.new)) ⊎ Rose (D.disk_faults (second_disk self.old)) (D.disk_faults (second_disk self.new))) }
        ensures calls_advance { WentOn D.calls_advance self.old self.new }
    {
        let stood = find_stood(
            self.second,
            &mut self.counting,
            &mut self.other,
            self.pending,
            self.end,
        )?;
        match stood {
            Stood::Nothing => {
                self.pending = Pending::Nothing;
                Ok(false)
            }
            Stood::Record(next) => {
                self.end = next;
                self.pending = Pending::Nothing;
                Ok(true)
            }
            Stood::Snapshot(start) => {
                mem::swap(&mut self.counting, &mut self.other);
                self.second = !self.second;
                self.generation += 1;
                self.start = start;
                self.end = start;
                self.shut = false;
                self.pending = Pending::Nothing;
                Ok(false)
            }
        }
    }
}

// Makes sure of both disks, and then finds the gate byte that stands open.
fn find_stood<D: Disk>(
    second: bool,
    counting: &mut D,
    other: &mut D,
    pending: Pending,
    end: u64,
) -> Result<Stood, DiskFault>
    ensures stood { D.premise → IfOk result (λ stood. stood ≡ stood_of pending end (D.seen counting.old) (D.seen other.old)) }
    ensures of { IfOk result (λ stood. IsOf pending stood) }
    ensures fixed { D.premise → OnOk result (Only (D.seen counting.new) (D.may_leave counting.new) × Only (D.seen other.new) (D.may_leave other.new)) }
    ensures read { D.premise → IsRead D.seen D.may_leave D.moment D.left_since counting.old counting.new }
    ensures read_other { D.premise → IsRead D.seen D.may_leave D.moment D.left_since other.old other.new }
    ensures told { OnOk result (TellsAll (D.told counting.old) (D.told counting.new) (Sync ∷ [])) }
    ensures told_other { OnOk result (TellsAll (D.told other.old) (D.told other.new) (Sync ∷ [])) }
    ensures told_err { OnErr result (TellsSyncs D.told D.disk_faults D.calls_advance (if second then other.old else counting.old) (if second then counting.old else other.old) (if second then other.new else counting.new) (if second then counting.new else other.new)) }
    ensures later { D.disk_faults counting.old ≤ D.disk_faults counting.new }
    ensures later_other { D.disk_faults other.old ≤ D.disk_faults other.new }
    ensures no_fault { OnOk result ((D.disk_faults counting.new ≡ D.disk_faults counting.old) × (D.disk_faults other.new ≡ D.disk_faults other.old)) }
    ensures cause { OnErr result (Rose (D.disk_faults counting.old) (D.disk_faults counting.new) ⊎ Rose (D.disk_faults other.old) (D.disk_faults other.new)) }
    ensures calls_advance { D.calls_advance counting.old counting.new }
    ensures calls_advance_other { D.calls_advance other.old other.new }
{
    sync_in_order(second, counting, other)?;
    look_at_gate(counting, other, pending, end)
}

// The first disk first.
fn sync_in_order<D: Disk>(second: bool, counting: &mut D, other: &mut D) -> Result<(), DiskFault>
    ensures fixed { D.premise → OnOk result (Only (D.seen counting.new) (D.may_leave counting.new) × Only (D.seen other.new) (D.may_leave other.new)) }
    ensures read { D.premise → IsRead D.seen D.may_leave D.moment D.left_since counting.old counting.new }
    ensures read_other { D.premise → IsRead D.seen D.may_leave D.moment D.left_since other.old other.new }
    ensures told { OnOk result (TellsAll (D.told counting.old) (D.told counting.new) (Sync ∷ [])) }
    ensures told_other { OnOk result (TellsAll (D.told other.old) (D.told other.new) (Sync ∷ [])) }
    ensures told_err { OnErr result (TellsSyncs D.told D.disk_faults D.calls_advance (if second then other.old else counting.old) (if second then counting.old else other.old) (if second then other.new else counting.new) (if second then counting.new else other.new)) }
    ensures later { D.disk_faults counting.old ≤ D.disk_faults counting.new }
    ensures later_other { D.disk_faults other.old ≤ D.disk_faults other.new }
    ensures no_fault { OnOk result ((D.disk_faults counting.new ≡ D.disk_faults counting.old) × (D.disk_faults other.new ≡ D.disk_faults other.old)) }
    ensures cause { OnErr result (Rose (D.disk_faults counting.old) (D.disk_faults counting.new) ⊎ Rose (D.disk_faults other.old) (D.disk_faults other.new)) }
    ensures calls_advance { D.calls_advance counting.old counting.new }
    ensures calls_advance_other { D.calls_advance other.old other.new }
{
    if second {
        sync_both(other, counting)
    } else {
        sync_both(counting, other)
    }
}

fn look_at_gate<D: Disk>(
    counting: &mut D,
    other: &mut D,
    pending: Pending,
    end: u64,
) -> Result<Stood, DiskFault>
    ensures stood { D.premise → IfOk result (λ stood. stood ≡ stood_of pending end (D.seen counting.old) (D.seen other.old)) }
    ensures of { IfOk result (λ stood. IsOf pending stood) }
    ensures read { D.premise → IsRead D.seen D.may_leave D.moment D.left_since counting.old counting.new }
    ensures read_other { D.premise → IsRead D.seen D.may_leave D.moment D.left_since other.old other.new }
    ensures told { D.told counting.new ≡ D.told counting.old }
    ensures told_other { D.told other.new ≡ D.told other.old }
    ensures later { D.disk_faults counting.old ≤ D.disk_faults counting.new }
    ensures later_other { D.disk_faults other.old ≤ D.disk_faults other.new }
    ensures no_fault { OnOk result ((D.disk_faults counting.new ≡ D.disk_faults counting.old) × (D.disk_faults other.new ≡ D.disk_faults other.old)) }
    ensures cause { OnErr result (Rose (D.disk_faults counting.old) (D.disk_faults counting.new) ⊎ Rose (D.disk_faults other.old) (D.disk_faults other.new)) }
    ensures calls_advance { D.calls_advance counting.old counting.new }
    ensures calls_advance_other { D.calls_advance other.old other.new }
{
    match pending {
        Pending::Record(next) => {
            if is_open_at(counting, end)? {
                Ok(Stood::Record(next))
            } else {
                Ok(Stood::Nothing)
            }
        }
        Pending::Snapshot(start) => {
            if is_open_at(other, HEAD_GATE)? {
                Ok(Stood::Snapshot(start))
            } else {
                Ok(Stood::Nothing)
            }
        }
        Pending::Nothing => Ok(Stood::Nothing),
        Pending::Unopened => Ok(Stood::Nothing),
    }
}
