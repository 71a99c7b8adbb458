//! Records: adding one, and cutting off what lies behind the last.
ghost use Rattle.std.specs.Prelude.{◌≡◌, ◌⊎◌, ◌+◌, ◌≤◌, ◌<◌, ◌^◌, ◌∷◌, ◌++◌, [], false, IsTrue, length, OnOk, OnErr, vec_capacity};
ghost use Rattle.std.specs.Int.{w32, to_be_bytes};
ghost use Rattle.ps_ports.specs.Causes.{Rose};
ghost use Rattle.ps_disks.specs.declared.disk.DiskCall.TheVariants.{Cut, Sync};
ghost use Rattle.host_journal.specs.Moments.{Adds, Shows};
ghost use Rattle.host_journal.specs.State.{is_ready, stored, with_record, EachImage, EachSince, KeepsPlace, append_calls, which, has_record, WentOn};
ghost use Rattle.host_journal.specs.Told.{TellsAll, TellsFirst};

use crate::disk_calls::{cut_and_sync, write_and_sync};
use crate::fault::DiskFault;
use crate::journal::Journal;
use crate::pending::Pending;
use ps_disks::disk::Disk;

impl<D: Disk> Journal<D> {
    /// Adds a record. Takes no memory.
    pub fn append(&mut self, payload: &[u8]) -> Result<(), DiskFault>
        requires ready { IsTrue (is_ready self.old.pending) }
        requires room { length payload.now + 13 ≤ self.old.room }
        requires bound { length payload.now ≤ 8388608 }
        ensures appended { D.premise → OnOk result (stored D.seen self.new ≡ with_record payload.now (stored D.seen self.old)) }
        ensures durable { D.premise → OnOk result (EachImage D.may_leave self.new (λ pair. pair ≡ stored D.seen self.new)) }
        ensures any_moment { D.premise → EachSince D.moment D.left_since self.old self.new (λ pair. (pair ≡ stored D.seen self.old) ⊎ (pair ≡ with_record payload.now (stored D.seen self.old))) }
        // What an outer run joins with the calls before it.
        ensures adds { D.premise → Adds D.moment D.left_since self.old self.new (λ second c. Shows (stored D.seen self.old) second c ⊎ Shows (with_record payload.now (stored D.seen self.old)) second c) }
        ensures left { D.premise → OnErr result (EachImage D.may_leave self.new (λ pair. (pair ≡ stored D.seen self.old) ⊎ (pair ≡ with_record payload.now (stored D.seen self.old)))) }
        ensures whole_or_not { D.premise → (stored D.seen self.new ≡ stored D.seen self.old) ⊎ (stored D.seen self.new ≡ with_record payload.now (stored D.seen self.old)) }
        // After a fault the record stands exactly where `reload` is to answer so.
        ensures which { D.premise → OnErr result (stored D.seen self.new ≡ which payload.now (has_record self.new.pending (stored D.seen self.new)) (stored D.seen self.old)) }
        ensures other { self.new.other ≡ self.old.other }
        ensures kept { KeepsPlace self.old self.new }
        ensures end { OnOk result ((self.new.end ≡ self.old.end + 5 + length payload.now) × IsTrue (is_ready self.new.pending)) }
        ensures end_err { OnErr result (self.new.end ≡ self.old.end) }
        ensures failed { OnErr result (is_ready self.new.pending ≡ false) }
        ensures told { OnOk result (TellsAll (D.told self.old.counting) (D.told self.new.counting) (append_calls self.old.end payload.now)) }
        ensures told_first { OnErr result (TellsFirst D.told D.disk_faults D.calls_advance self.old.counting self.new.counting (append_calls self.old.end payload.now)) }
        ensures later { D.disk_faults self.old.counting ≤ D.disk_faults self.new.counting }
        ensures no_fault { OnOk result (D.disk_faults self.new.counting ≡ D.disk_faults self.old.counting) }
        ensures cause { OnErr result (Rose (D.disk_faults self.old.counting) (D.disk_faults self.new.counting)) }
        ensures calls_advance { WentOn D.calls_advance self.old self.new }
    {
        put_record(&mut self.buffer, payload);
        self.pending = Pending::Unopened;
        write_and_sync(&mut self.counting, self.end + 1, &self.buffer)?;
        let end = self.end + self.buffer.len() as u64;
        self.pending = Pending::Record(end);
        write_and_sync(&mut self.counting, self.end, &[1])?;
        self.pending = Pending::Nothing;
        self.end = end;
        Ok(())
    }

    /// Cuts off what lies behind the first gate byte that isn't open. Takes no memory.
    pub fn cut_tail(&mut self) -> Result<(), DiskFault>
        requires ready { IsTrue (is_ready self.old.pending) }
        ensures same { D.premise → stored D.seen self.new ≡ stored D.seen self.old }
        ensures durable { D.premise → OnOk result (EachImage D.may_leave self.new (λ pair. pair ≡ stored D.seen self.old)) }
        ensures any_moment { D.premise → EachSince D.moment D.left_since self.old self.new (λ pair. pair ≡ stored D.seen self.old) }
        ensures adds { D.premise → Adds D.moment D.left_since self.old self.new (Shows (stored D.seen self.old)) }
        ensures left { D.premise → OnErr result (EachImage D.may_leave self.new (λ pair. pair ≡ stored D.seen self.old)) }
        ensures cut { D.premise → OnOk result (length (D.seen self.new.counting) ≡ self.new.end + 1) }
        ensures other { self.new.other ≡ self.old.other }
        ensures kept { KeepsPlace self.old self.new }
        ensures end { self.new.end ≡ self.old.end }
        ensures ready { OnOk result (IsTrue (is_ready self.new.pending)) }
        ensures failed { OnErr result (is_ready self.new.pending ≡ false) }
        // So `reload` never answers that a record stands.
        ensures no_record { OnErr result ((pair : _) → has_record self.new.pending pair ≡ false) }
        ensures told { OnOk result (TellsAll (D.told self.old.counting) (D.told self.new.counting) (Cut (self.old.end + 1) ∷ Sync ∷ [])) }
        ensures told_first { OnErr result (TellsFirst D.told D.disk_faults D.calls_advance self.old.counting self.new.counting (Cut (self.old.end + 1) ∷ Sync ∷ [])) }
        ensures later { D.disk_faults self.old.counting ≤ D.disk_faults self.new.counting }
        ensures no_fault { OnOk result (D.disk_faults self.new.counting ≡ D.disk_faults self.old.counting) }
        ensures cause { OnErr result (Rose (D.disk_faults self.old.counting) (D.disk_faults self.new.counting)) }
        ensures calls_advance { WentOn D.calls_advance self.old self.new }
    {
        self.pending = Pending::Unopened;
        cut_and_sync(&mut self.counting, self.end + 1)?;
        self.pending = Pending::Nothing;
        Ok(())
    }
}

// Takes no memory.
pub(crate) fn put_record(buffer: &mut Vec<u8>, payload: &[u8])
    requires room { length payload.now + 13 ≤ vec_capacity buffer.old }
    requires bound { length payload.now < 2 ^ 32 }
    ensures items { buffer.new.items ≡ to_be_bytes w32 (length payload.now) ++ (payload.now ++ 0 ∷ []) }
    ensures capacity { vec_capacity buffer.old ≤ vec_capacity buffer.new }
{
    let size = payload.len() as u32;
    buffer.clear();
    let _size = buffer.extend_from_slice(&size.to_be_bytes());
    let _payload = buffer.extend_from_slice(payload);
    let _gate = buffer.extend_from_slice(&[0]);
}
