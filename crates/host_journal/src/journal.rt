//! A journal on two disks.
ghost use Rattle.std.specs.Prelude.{◌||◌, ◌≡◌, ◌⊎◌, ◌+◌, ◌-◌, ◌≤◌, ◌<◌, ◌^◌, ℕ, not, if◌then◌else◌, IsTrue, Ok, Err, length, take, IfOk, IfErr, OnOk, OnErr, IsErrOf, ◌∷◌, [], vec_capacity};
ghost use Rattle.ps_ports.specs.Causes.{Rose};
ghost use Rattle.ps_disks.specs.Disk.{Only};
ghost use Rattle.ps_disks.specs.MemoryDisk.{armed, armed_number};
ghost use Rattle.ps_disks.specs.declared.disk.DiskCall.TheVariants.{Sync};
ghost use Rattle.host_journal.specs.Calls.{IsRead};
ghost use Rattle.host_journal.specs.Format.{record_bytes, stands};
ghost use Rattle.host_journal.specs.Front.{IsFrontOf};
ghost use Rattle.host_journal.specs.Pair.{AreGatesOf, number_of, pair_of};
ghost use Rattle.host_journal.specs.State.{is_ready, stored, opened_as, EachImage, IsAt, IsOurs, IsSound, SameButRoom, first_disk, second_disk};
ghost use Rattle.host_journal.specs.Told.{TellsAll, TellsSyncs};

use crate::disk_calls::{has_byte_at, read_head, read_rest};
use crate::fault::{DiskFault, OpenFault, OpenReason};
use crate::pending::Pending;
use crate::reading::{
    Counted, Front, SNAPSHOT_AT, choose, disk_number, front_of, numbers_in, read_one,
};
use ps_disks::disk::Disk;
use ps_disks::memory_disk::MemoryDisk;
use ps_time::items::Items;
use ps_time::memory::Memory;
use std::alloc::Global;
use std::marker::Model;

/// Two disks, of which one counts: the one that stands, and of two that stand the one of the greater
/// generation.
pub struct Journal<D: Disk> {
    pub(crate) counting: D,
    pub(crate) other: D,
    pub(crate) second: bool,
    pub(crate) generation: u64,
    pub(crate) start: u64,
    pub(crate) end: u64,
    pub(crate) shut: bool,
    pub(crate) pending: Pending,
    pub(crate) buffer: Vec<u8>,
}

impl<D: Disk> Model for Journal<D> {
    ghost use Rattle.std.specs.Prelude.{◌+◌, ◌≤◌, ◌<◌, ◌^◌, vec_capacity};
    ghost use Rattle.host_journal.specs.State.{State, IsSound, AreWithin};

    ghost Value = { State D };

    ghost view = { λ j. record { counting = j.counting; other = j.other; second = j.second; generation = j.generation; start = j.start; end = j.end; shut = j.shut; pending = j.pending; room = vec_capacity j.buffer } };

    ghost invariant = { λ j. (j.end + 1 < 2 ^ 64) × (j.start ≤ j.end)
        × (D.premise → IsSound D.seen D.may_leave (record { counting = j.counting; other = j.other; second = j.second; generation = j.generation; start = j.start; end = j.end; shut = j.shut; pending = j.pending; room = vec_capacity j.buffer }))
        × AreWithin j.start j.generation j.pending };
}

impl<D: Disk + Drop> Drop for Journal<D> {
    fn drop(self) {
        let Journal {
            counting: _,
            other: _,
            second: _,
            generation: _,
            start: _,
            end: _,
            shut: _,
            pending: _,
            buffer: _,
        } = self;
    }
}

impl<D: Disk> Journal<D> {
    /// Opens a journal, and gives its snapshot and then its records. Makes sure of each disk before it
    /// reads it, and writes nothing. It leaves no room.
    pub fn open(
        alloc: Global,
        first: D,
        second: D,
    ) -> Result<(Journal<D>, Items<Items<u8>>), OpenFault<D>>
        ensures list { D.premise → IfOk result (λ r. pair_of (D.seen first) (D.seen second) ≡ opened_as r.0 r.1) }
        ensures stored { D.premise → IfOk result (λ r. stored D.seen r.0 ≡ pair_of (D.seen first) (D.seen second)) }
        ensures durable { D.premise → IfOk result (λ r. EachImage D.may_leave r.0 (λ pair. pair ≡ pair_of (D.seen first) (D.seen second))) }
        ensures ready { IfOk result (λ r. IsTrue (is_ready r.0.pending)) }
        ensures gate_bytes { IfOk result (λ r. AreGatesOf r.1 r.0.start r.0.end) }
        // Where `item_place` may be asked.
        ensures places { IfOk result (λ r. (n : ℕ) → n < length r.1 → 21 + record_bytes (take n r.1) < 2 ^ 64) }
        ensures shut { D.premise → IfOk result (λ r. r.0.shut ≡ not (stands (if r.0.second then D.seen first else D.seen second))) }
        ensures room { IfOk result (λ r. r.0.room ≡ 0) }

        // Until it is done, and where it isn't, each image is one that a crash could have left before.
        ensures read_first { D.premise → IfOk result (λ r. IsRead D.seen D.may_leave D.moment D.left_since first (first_disk r.0)) }
        ensures read_second { D.premise → IfOk result (λ r. IsRead D.seen D.may_leave D.moment D.left_since second (second_disk r.0)) }
        ensures refused_first { D.premise → IfErr result (λ f. IsRead D.seen D.may_leave D.moment D.left_since first f.first) }
        ensures refused_second { D.premise → IfErr result (λ f. IsRead D.seen D.may_leave D.moment D.left_since second f.second) }

        // It makes two calls that are told, the two syncs; where a fault was met, up to that.
        ensures told_first { IfOk result (λ r. TellsAll (D.told first) (D.told (first_disk r.0)) (Sync ∷ [])) }
        ensures told_second { IfOk result (λ r. TellsAll (D.told second) (D.told (second_disk r.0)) (Sync ∷ [])) }
        ensures told_err { IfErr result (λ f. f.reason ≡ OpenReason.DiskFault → TellsSyncs D.told D.disk_faults D.calls_advance first second f.first f.second) }
        ensures told_refused { IfErr result (λ f. (f.reason ≡ OpenReason.DiskFault → ⊥) → TellsAll (D.told first) (D.told f.first) (Sync ∷ []) × TellsAll (D.told second) (D.told f.second) (Sync ∷ [])) }

        // Exactly where the disks stand for nothing.
        ensures place { D.premise → IfErr result (λ f. (place : _) → f.reason ≡ OpenReason.NotAJournal place → pair_of (D.seen first) (D.seen second) ≡ Err place) }
        ensures fault { IfErr result (λ f. f.reason ≡ OpenReason.DiskFault → Rose (D.disk_faults first) (D.disk_faults f.first) ⊎ Rose (D.disk_faults second) (D.disk_faults f.second)) }
        ensures later { IfErr result (λ f. (D.disk_faults first ≤ D.disk_faults f.first) × (D.disk_faults second ≤ D.disk_faults f.second)) }
        ensures no_fault_err { IfErr result (λ f. (f.reason ≡ OpenReason.DiskFault → ⊥) → (D.disk_faults f.first ≡ D.disk_faults first) × (D.disk_faults f.second ≡ D.disk_faults second)) }
        ensures no_fault { IfOk result (λ r. (D.disk_faults (first_disk r.0) ≡ D.disk_faults first) × (D.disk_faults (second_disk r.0) ≡ D.disk_faults second)) }
        ensures calls_advance { IfOk result (λ r. D.calls_advance first (first_disk r.0) × D.calls_advance second (second_disk r.0)) }
        ensures calls_advance_err { IfErr result (λ f. D.calls_advance first f.first × D.calls_advance second f.second) }
    {
        let mut first = first;
        let mut second = second;
        match read_disks(alloc, &mut first, &mut second) {
            Ok((counted, shut)) => {
                let Counted {
                    second: is_second,
                    generation,
                    start,
                    end,
                    list,
                } = counted;
                let (counting, other) = in_order(is_second, first, second);
                let journal = Journal {
                    counting,
                    other,
                    second: is_second,
                    generation,
                    start,
                    end,
                    shut,
                    pending: Pending::Nothing,
                    buffer: Vec::new(alloc),
                };
                Ok((journal, list))
            }
            Err(reason) => Err(OpenFault {
                first,
                second,
                reason,
            }),
        }
    }

    /// Both disks, in their order.
    pub fn into_disks(self) -> (D, D)
        ensures first { result.0 ≡ first_disk self }
        ensures second { result.1 ≡ second_disk self }
    {
        let Journal {
            counting,
            other,
            second,
            generation: _,
            start: _,
            end: _,
            shut: _,
            pending: _,
            buffer: _,
        } = self;
        in_order(second, counting, other)
    }

    // The disk that counts, the other one, and the buffer.
    pub(crate) fn into_parts(self) -> (D, D, Vec<u8>)
        ensures counting { result.0 ≡ self.counting }
        ensures other { result.1 ≡ self.other }
        ensures room { vec_capacity result.2 ≡ self.room }
    {
        let Journal {
            counting,
            other,
            second: _,
            generation: _,
            start: _,
            end: _,
            shut: _,
            pending: _,
            buffer,
        } = self;
        (counting, other, buffer)
    }

    /// What is known of a journal, and what more of one whose last call was `Ok`. Does nothing.
    pub fn known(&self)
        // Whatever a crash leaves isn't refused as no journal.
        ensures ours { D.premise → EachImage D.may_leave self.now IsOurs }
        ensures place { D.premise → IsTrue (is_ready self.now.pending) → IsAt self.now (stored D.seen self.now) }
        ensures durable { D.premise → IsTrue (is_ready self.now.pending) → EachImage D.may_leave self.now (λ pair. pair ≡ stored D.seen self.now) }
        ensures order { self.now.start ≤ self.now.end }
        ensures sound { D.premise → IsSound D.seen D.may_leave self.now }
    {
        let _end = self.end;
    }

    /// The bytes of records behind the snapshot: for each a length of four, the payload and a gate byte.
    pub fn record_bytes(&self) -> u64
        ensures { result ≡ self.now.end - self.now.start }
    {
        self.end - self.start
    }

    /// The bytes of the snapshot.
    pub fn snapshot_bytes(&self) -> u64
        ensures { result ≡ self.now.start - 21 }
    {
        self.start.saturating_sub(SNAPSHOT_AT)
    }

    /// Which disk counts: 1 or 2.
    pub fn counting_disk(&self) -> u8
        ensures { result ≡ number_of self.now.second }
    {
        disk_number(self.second)
    }

    /// The generation of the disk that counts.
    pub fn generation(&self) -> u64
        ensures { result ≡ self.now.generation }
    {
        self.generation
    }

    /// Whether the second disk counts.
    pub fn is_second(&self) -> bool
        ensures { result ≡ self.now.second }
    {
        self.second
    }

    /// Whether no call failed, or a `reload` was `Ok` since.
    pub fn is_ready(&self) -> bool
        ensures { result ≡ is_ready self.now.pending }
    {
        matches!(self.pending, Pending::Nothing)
    }

    /// Makes room for a payload or an image of so many bytes.
    pub fn reserve(&mut self, bytes: usize) -> Result<(), Memory>
        ensures room { OnOk result (bytes + 13 ≤ self.new.room) }
        ensures no_less { self.old.room ≤ self.new.room }
        ensures same { SameButRoom self.old self.new }
    {
        self.buffer.clear();
        let Some(wanted) = bytes.checked_add(13) else {
            return Err(Memory);
        };
        self.buffer.reserve(wanted)?;
        Ok(())
    }
}

pub(crate) fn in_order<D>(second: bool, first: D, other: D) -> (D, D)
    ensures one { result.0 ≡ (if second then other else first) }
    ensures two { result.1 ≡ (if second then first else other) }
{
    if second {
        (other, first)
    } else {
        (first, other)
    }
}

// What two disks stand for, and whether the head gate byte of the one that doesn't count is closed.
fn read_disks<D: Disk>(
    alloc: Global,
    first: &mut D,
    second: &mut D,
) -> Result<(Counted, bool), OpenReason>
    ensures pair { D.premise → IfOk result (λ r. pair_of (D.seen first.old) (D.seen second.old) ≡ Ok r.0) }
    ensures shut { D.premise → IfOk result (λ r. r.1 ≡ not (stands (if r.0.second then D.seen first.old else D.seen second.old))) }
    ensures bound { IfOk result (λ r. (r.0.end + 1 < 2 ^ 64) × (r.0.start ≤ r.0.end)) }
    ensures gate_bytes { IfOk result (λ r. AreGatesOf r.0.list r.0.start r.0.end) }
    ensures fixed { D.premise → OnOk result (Only (D.seen first.new) (D.may_leave first.new) × Only (D.seen second.new) (D.may_leave second.new)) }
    ensures read_first { D.premise → IsRead D.seen D.may_leave D.moment D.left_since first.old first.new }
    ensures read_second { D.premise → IsRead D.seen D.may_leave D.moment D.left_since second.old second.new }
    ensures told_first { (IsErrOf result OpenReason.DiskFault → ⊥) → TellsAll (D.told first.old) (D.told first.new) (Sync ∷ []) }
    ensures told_second { (IsErrOf result OpenReason.DiskFault → ⊥) → TellsAll (D.told second.old) (D.told second.new) (Sync ∷ []) }
    ensures told_err { IsErrOf result OpenReason.DiskFault → TellsSyncs D.told D.disk_faults D.calls_advance first.old second.old first.new second.new }
    ensures place { D.premise → (place : _) → IsErrOf result (OpenReason.NotAJournal place) → pair_of (D.seen first.old) (D.seen second.old) ≡ Err place }
    ensures fault { IsErrOf result OpenReason.DiskFault → Rose (D.disk_faults first.old) (D.disk_faults first.new) ⊎ Rose (D.disk_faults second.old) (D.disk_faults second.new) }
    ensures later_first { D.disk_faults first.old ≤ D.disk_faults first.new }
    ensures later_second { D.disk_faults second.old ≤ D.disk_faults second.new }
    ensures no_fault { (IsErrOf result OpenReason.DiskFault → ⊥) → (D.disk_faults first.new ≡ D.disk_faults first.old) × (D.disk_faults second.new ≡ D.disk_faults second.old) }
    ensures calls_advance_first { D.calls_advance first.old first.new }
    ensures calls_advance_second { D.calls_advance second.old second.new }
{
    let one = read_front(false, first)?;
    let two = read_front(true, second)?;
    let is_second = match choose(one, two) {
        Ok(is_second) => is_second,
        Err(at) => return Err(OpenReason::NotAJournal(at)),
    };
    let bytes = read_either(alloc, is_second, first, second)?;
    let counted = match read_one(alloc, is_second, &bytes)? {
        Ok(counted) => counted,
        Err(place) => return Err(OpenReason::NotAJournal(place)),
    };
    let stands = if counted.second {
        one.is_open()
    } else {
        two.is_open()
    };
    Ok((counted, !stands))
}

// Makes sure of a disk, and looks at its head, and at whether it has its first gate byte.
fn read_front<D: Disk>(second: bool, disk: &mut D) -> Result<Front, DiskFault>
    ensures front { D.premise → IfOk result (λ front. IsFrontOf second (D.seen disk.old) front) }
    ensures fixed { D.premise → OnOk result (Only (D.seen disk.old) (D.may_leave disk.new)) }
    ensures read { D.premise → IsRead D.seen D.may_leave D.moment D.left_since disk.old disk.new }
    ensures told { TellsAll (D.told disk.old) (D.told disk.new) (Sync ∷ []) }
    ensures later { D.disk_faults disk.old ≤ D.disk_faults disk.new }
    ensures no_fault { OnOk result (D.disk_faults disk.new ≡ D.disk_faults disk.old) }
    ensures cause { OnErr result (Rose (D.disk_faults disk.old) (D.disk_faults disk.new)) }
    ensures calls_advance { D.calls_advance disk.old disk.new }
{
    disk.sync()?;
    look_at(second, disk)
}

// The front of a disk. Of a disk that stands it looks at the place of its first gate byte.
fn look_at<D: Disk>(second: bool, disk: &mut D) -> Result<Front, DiskFault>
    ensures front { D.premise → IfOk result (λ front. IsFrontOf second (D.seen disk.old) front) }
    ensures read { D.premise → IsRead D.seen D.may_leave D.moment D.left_since disk.old disk.new }
    ensures told { D.told disk.new ≡ D.told disk.old }
    ensures later { D.disk_faults disk.old ≤ D.disk_faults disk.new }
    ensures no_fault { OnOk result (D.disk_faults disk.new ≡ D.disk_faults disk.old) }
    ensures cause { OnErr result (Rose (D.disk_faults disk.old) (D.disk_faults disk.new)) }
    ensures calls_advance { D.calls_advance disk.old disk.new }
{
    let mut head = [0; 21];
    let count = read_head(disk, &mut head)?;
    let head = &head[..count];
    let Some(numbers) = numbers_in(head) else {
        return Ok(front_of(second, head));
    };
    if has_byte_at(disk, numbers.start)? {
        Ok(Front::Open(Some(numbers.generation)))
    } else {
        Ok(Front::Open(None))
    }
}

// All the bytes of one of two disks.
fn read_either<D: Disk>(
    alloc: Global,
    is_second: bool,
    first: &mut D,
    second: &mut D,
) -> Result<Vec<u8>, OpenReason>
    ensures bytes { D.premise → IfOk result (λ bytes. bytes.items ≡ (if is_second then D.seen second.old else D.seen first.old)) }
    ensures read_first { D.premise → IsRead D.seen D.may_leave D.moment D.left_since first.old first.new }
    ensures read_second { D.premise → IsRead D.seen D.may_leave D.moment D.left_since second.old second.new }
    ensures told_first { D.told first.new ≡ D.told first.old }
    ensures told_second { D.told second.new ≡ D.told second.old }
    ensures later_first { D.disk_faults first.old ≤ D.disk_faults first.new }
    ensures later_second { D.disk_faults second.old ≤ D.disk_faults second.new }
    ensures no_fault { (IsErrOf result OpenReason.DiskFault → ⊥) → (D.disk_faults first.new ≡ D.disk_faults first.old) × (D.disk_faults second.new ≡ D.disk_faults second.old) }
    ensures fault { IsErrOf result OpenReason.DiskFault → Rose (D.disk_faults first.old) (D.disk_faults first.new) ⊎ Rose (D.disk_faults second.old) (D.disk_faults second.new) }
    ensures journal { (place : _) → IsErrOf result (OpenReason.NotAJournal place) → ⊥ }
    ensures calls_advance_first { D.calls_advance first.old first.new }
    ensures calls_advance_second { D.calls_advance second.old second.new }
{
    if is_second {
        read_rest(alloc, second)
    } else {
        read_rest(alloc, first)
    }
}

impl Journal<MemoryDisk> {
    /// Lets one of the writes, cuts and syncs of each disk fail, numbered from 1 from now on, or none.
    pub fn fail_at(&mut self, call: Option<u64>)
        ensures counting { self.new.counting ≡ armed self.old.counting (armed_number call) }
        ensures other { self.new.other ≡ armed self.old.other (armed_number call) }
        ensures second { self.new.second ≡ self.old.second }
        ensures generation { self.new.generation ≡ self.old.generation }
        ensures start { self.new.start ≡ self.old.start }
        ensures shut { self.new.shut ≡ self.old.shut }
        ensures end { self.new.end ≡ self.old.end }
        ensures pending { self.new.pending ≡ self.old.pending }
        ensures room { self.new.room ≡ self.old.room }
    {
        self.counting.fail_at(call);
        self.other.fail_at(call);
    }

    /// Whether a call of one of the disks ever found no memory.
    pub fn is_starved(&self) -> bool
        ensures { result ≡ (first_disk self.now).starved || (second_disk self.now).starved }
    {
        let counting = self.counting.starved();
        let other = self.other.starved();
        if self.second {
            other || counting
        } else {
            counting || other
        }
    }

    /// How many writes, cuts and syncs of each disk come up to the one that is to fail, that one too, the first disk first;
    /// 0 where none is.
    pub fn until_faults(&self) -> (u64, u64)
        ensures first { result.0 ≡ (first_disk self.now).until_fault }
        ensures second { result.1 ≡ (second_disk self.now).until_fault }
    {
        let counting = self.counting.until_fault();
        let other = self.other.until_fault();
        if self.second {
            (other, counting)
        } else {
            (counting, other)
        }
    }

    /// How many writes, cuts and syncs were made on each disk, the first one first.
    pub fn calls(&self) -> (u64, u64)
        ensures first { result.0 ≡ length (first_disk self.now).history.log }
        ensures second { result.1 ≡ length (second_disk self.now).history.log }
    {
        let counting = self.counting.calls();
        let other = self.other.calls();
        if self.second {
            (other, counting)
        } else {
            (counting, other)
        }
    }
}
