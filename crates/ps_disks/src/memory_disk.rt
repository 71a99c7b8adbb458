//! A disk in memory.
ghost use Rattle.std.specs.Prelude.{◌≡◌, ℕ, ◌+◌, ◌-◌, ◌≤◌, ◌^◌, [], length, take, drop, min, IfOk, IsErr, OnOk, is_err, false};
ghost use Rattle.std.specs.Io.{ReadsAtMost};
ghost use Rattle.ps_disks.specs.Disk.{ReadsAt, written, Torn, Shortened, Follows, NoMore, Only, AreBounded, Elapses, CountsFault, Tells};
ghost use Rattle.ps_ports.specs.Causes.{counted, raised};
ghost use Rattle.ps_ports.specs.Memory.{called, fails_next};
ghost use Rattle.ps_disks.specs.History.{IsImage, LeftSince, bytes_now, image_bytes};
ghost use Rattle.ps_disks.specs.MemoryDisk.{new_disk, armed, armed_number, after_read, after_starved, ends_too_far, is_to_fail, Makes, reopened, told_calls};
ghost use Rattle.ps_disks.specs.Run.{IsArmed, Went};
ghost use Rattle.ps_disks.specs.declared.disk.DiskCall.TheVariants.{Write, Cut, Sync};

use crate::disk::{Disk, DiskCall};
use crate::history::History;
use crate::image::Image;
use ps_ports::failing_calls::FailingCalls;
use ps_ports::fault::Failed;
use ps_ports::faults::Faults;
use ps_time::items::Items;
use ps_time::memory::Memory;
use std::alloc::Global;
use std::marker::Model;

/// A file in memory, which keeps its writes and cuts since the last sync, and gives what a crash leaves of them. A call that
/// finds no memory fails.
pub struct MemoryDisk {
    history: History,
    calls: FailingCalls,
    // How many writes, cuts and syncs come up to the one that is to fail, that one too; 0 for none.
    until_fault: u64,
    faults: Faults,
    starved: bool,
}

impl Model for MemoryDisk {
    ghost use Rattle.ps_disks.specs.MemoryDisk.{DiskState};

    ghost Value = { DiskState };

    ghost view = { λ d. record { history = d.history; calls = d.calls; until_fault = d.until_fault; faults = d.faults; starved = d.starved } };
}

impl Drop for MemoryDisk {
    fn drop(self) {
        let MemoryDisk {
            history: _,
            calls: _,
            until_fault: _,
            faults: _,
            starved: _,
        } = self;
    }
}

impl MemoryDisk {
    /// A disk with these bytes, all of them fixed. `failing` has the numbers of the calls that are to
    /// fail, the first call being number 1, reads too.
    pub fn new(alloc: Global, bytes: Vec<u8>, failing: Vec<u64>) -> MemoryDisk
        ensures disk { result ≡ new_disk bytes.items failing.items }
        ensures size { AreBounded (IsImage result.history) }
        ensures no_fault { failing.items ≡ [] → IsArmed result 0 }
    {
        let history = History::new(alloc, bytes);
        history.known();
        MemoryDisk {
            history,
            calls: FailingCalls::new(failing),
            until_fault: 0,
            faults: Faults::none(),
            starved: false,
        }
    }

    /// What a read gives.
    pub fn bytes(&self) -> &[u8]
        ensures { result.now ≡ bytes_now self.now.history }
    {
        self.history.bytes()
    }

    /// How many writes, cuts and syncs were made, failed ones too.
    pub fn calls(&self) -> u64
        ensures { result ≡ length self.now.history.log }
    {
        self.history.calls()
    }

    /// How many calls failed, reads too.
    pub fn faults(&self) -> u64
        ensures { result ≡ self.now.faults }
    {
        self.faults.count()
    }

    /// How many writes, cuts and syncs come up to the one that is to fail, that one too; 0 where none is.
    pub fn until_fault(&self) -> u64
        ensures { result ≡ self.now.until_fault }
    {
        self.until_fault
    }

    /// Whether a call ever found no memory. From then on the disk doesn't tell its calls.
    pub fn starved(&self) -> bool
        ensures { result ≡ self.now.starved }
    {
        self.starved
    }

    /// Lets one of the writes, cuts and syncs fail, numbered from 1 from now on, or none.
    pub fn fail_at(&mut self, call: Option<u64>)
        ensures armed { self.new ≡ armed self.old (armed_number call) }
        ensures ready { (before : ℕ) → IsArmed self.old before → IsArmed self.new (armed_number call) }
    {
        self.until_fault = call.unwrap_or(0);
    }

    /// What a crash leaves, as a disk of which no call is to fail.
    pub fn crashed(self, image: Image) -> Result<MemoryDisk, Memory>
        ensures disk { IfOk result (λ disk. disk ≡ new_disk (image_bytes image self.history) []) }
        ensures image { IfOk result (λ disk. IsImage self.history (bytes_now disk.history)) }
        ensures size { IfOk result (λ disk. AreBounded (IsImage disk.history)) }
        ensures no_fault { IfOk result (λ disk. IsArmed disk 0) }

        // In the words of the trait: a crash may leave these bytes, and then only these.
        ensures left { IfOk result (λ disk. ⟦<MemoryDisk as Disk>⟧.may_leave self (⟦<MemoryDisk as Disk>⟧.seen disk)) }
        ensures only { IfOk result (λ disk. Only (⟦<MemoryDisk as Disk>⟧.seen disk) (⟦<MemoryDisk as Disk>⟧.may_leave disk)) }
    {
        let alloc = self.history.alloc();
        let MemoryDisk {
            history,
            calls: _,
            until_fault: _,
            faults: _,
            starved: _,
        } = self;
        let bytes = history.crashed(image)?;
        Ok(MemoryDisk::new(alloc, bytes, Vec::new(alloc)))
    }

    /// The disk with its count of faults set back to 0.
    pub(crate) fn reopened(self) -> MemoryDisk
        ensures disk { result ≡ reopened self }
        ensures size { AreBounded (IsImage result.history) }
    {
        self.history.known();
        let MemoryDisk {
            history,
            calls,
            until_fault,
            faults: _,
            starved,
        } = self;
        MemoryDisk {
            history,
            calls,
            until_fault,
            faults: Faults::none(),
            starved,
        }
    }

    // Whether the next write, cut or sync is to fail, whatever it is. Counts it.
    fn next_fails(&mut self) -> bool
        ensures answer { result ≡ is_to_fail self.old }
        ensures history { self.new.history ≡ self.old.history }
        ensures calls { self.new.calls ≡ called self.old.calls }
        ensures until { self.new.until_fault ≡ self.old.until_fault - 1 }
        ensures faults { self.new.faults ≡ self.old.faults }
        ensures starved { self.new.starved ≡ self.old.starved }
    {
        let armed = self.until_fault == 1;
        self.until_fault = self.until_fault.saturating_sub(1);
        self.calls.next_fails() || armed
    }

    // A write, cut or sync for which there was no memory.
    fn starve(&mut self) -> Failed
        ensures after { self.new ≡ after_starved self.old }
        ensures size { AreBounded (IsImage self.new.history) }
        ensures rose { (counted self.old.faults ≤ counted self.new.faults) × (counted self.new.faults ≡ raised (counted self.old.faults)) }
    {
        self.history.known();
        self.next_fails();
        self.faults.raise();
        self.starved = true;
        Failed
    }

    fn make(&mut self, call: DiskCall) -> Result<(), Failed>
        ensures makes { Makes call self.old self.new result }
        ensures size { AreBounded (IsImage self.new.history) }
        ensures cause { CountsFault (counted self.old.faults) (counted self.new.faults) result }
    {
        let fails = self.next_fails() || is_too_far(&call);
        let added = self.history.add(call, !fails);
        self.history.known();
        if added.is_err() {
            self.starved = true;
        }
        if fails || added.is_err() {
            self.faults.raise();
            return Err(Failed);
        }
        Ok(())
    }
}

impl Disk for MemoryDisk {
    ghost use Rattle.std.specs.Prelude.{◌≡◌, ℕ, length};
    ghost use Rattle.ps_ports.specs.Causes.{counted, counted_fits};
    ghost use Rattle.ps_disks.specs.History.{IsImage, LeftSince, bytes_now};
    ghost use Rattle.ps_disks.specs.Images.{bytes_are_image, image_counts, only_image};
    ghost use Rattle.ps_disks.specs.MemoryDisk.{told_calls};
    ghost use Rattle.ps_disks.specs.Run.{Went, calls_advance_further, calls_advance_nowhere};

    ghost premise = { Unit {0} };

    ghost seen = { λ d. bytes_now d.history };

    ghost may_leave = { λ d c. IsImage d.history c };

    ghost moment = { λ d. length d.history.log };

    ghost left_since = { λ d t c. LeftSince d.history t c };

    ghost told = { λ d. told_calls d };

    ghost disk_faults = { λ d. counted d.faults };

    ghost calls_advance = { Went };

    fn read(&mut self, at: u64, buf: &mut [u8]) -> Result<usize, Failed>
        ensures bound { ReadsAtMost result buf.new }
        ensures bytes { IfOk result (λ n. ReadsAt (bytes_now self.old.history) at buf.new n) }
        ensures seen { bytes_now self.new.history ≡ bytes_now self.old.history }
        ensures crash { NoMore (IsImage self.old.history) (IsImage self.new.history) }
        ensures size { AreBounded (IsImage self.new.history) }
        ensures time { Elapses (length self.old.history.log) (length self.new.history.log) (LeftSince self.old.history) (LeftSince self.new.history) (IsImage self.new.history) }
        ensures told { told_calls self.new ≡ told_calls self.old }
        ensures cause { CountsFault (counted self.old.faults) (counted self.new.faults) result }
        ensures calls_advance { Went self.old self.new }

        // A read that isn't to fail gives as many bytes as fit.
        ensures fails { is_err result ≡ fails_next self.old.calls }
        ensures count { IfOk result (λ n. n ≡ min (length buf.old) (length (bytes_now self.old.history) - at)) }
        ensures after { self.new ≡ after_read self.old result }
    {
        self.history.known();
        if self.calls.next_fails() {
            self.faults.raise();
            return Err(Failed);
        }
        Ok(read_at(self.history.bytes(), at, buf))
    }

    fn write_at(&mut self, at: u64, bytes: &[u8]) -> Result<(), Failed>
        ensures written { OnOk result (bytes_now self.new.history ≡ written at bytes.now (bytes_now self.old.history)) }
        ensures part { Torn at (length bytes.now) (bytes_now self.old.history) (bytes_now self.new.history) }
        ensures crash { Follows (Torn at (length bytes.now)) (IsImage self.old.history) (IsImage self.new.history) }
        ensures size { AreBounded (IsImage self.new.history) }
        ensures time { Elapses (length self.old.history.log) (length self.new.history.log) (LeftSince self.old.history) (LeftSince self.new.history) (IsImage self.new.history) }
        ensures too_far { 2 ^ 64 ≤ at + length bytes.now → IsErr result }
        ensures told { Tells (told_calls self.old) (told_calls self.new) (Write at bytes.now) }
        ensures cause { CountsFault (counted self.old.faults) (counted self.new.faults) result }
        ensures calls_advance { Went self.old self.new }
        ensures makes { Makes (Write at bytes.now) self.old self.new result }
    {
        match bytes.to_vec(self.history.alloc()) {
            Ok(piece) => self.make(DiskCall::Write(at, Items::from_vec(piece))),
            Err(_) => Err(self.starve()),
        }
    }

    fn cut(&mut self, len: u64) -> Result<(), Failed>
        ensures cut { OnOk result (bytes_now self.new.history ≡ take len (bytes_now self.old.history)) }
        ensures part { Shortened len (bytes_now self.old.history) (bytes_now self.new.history) }
        ensures crash { Follows (Shortened len) (IsImage self.old.history) (IsImage self.new.history) }
        ensures size { AreBounded (IsImage self.new.history) }
        ensures time { Elapses (length self.old.history.log) (length self.new.history.log) (LeftSince self.old.history) (LeftSince self.new.history) (IsImage self.new.history) }
        ensures told { Tells (told_calls self.old) (told_calls self.new) (Cut len) }
        ensures cause { CountsFault (counted self.old.faults) (counted self.new.faults) result }
        ensures calls_advance { Went self.old self.new }
        ensures makes { Makes (Cut len) self.old self.new result }
    {
        self.make(DiskCall::Cut(len))
    }

    fn sync(&mut self) -> Result<(), Failed>
        ensures durable { OnOk result (Only (bytes_now self.old.history) (IsImage self.new.history)) }
        ensures seen { bytes_now self.new.history ≡ bytes_now self.old.history }
        ensures crash { NoMore (IsImage self.old.history) (IsImage self.new.history) }
        ensures size { AreBounded (IsImage self.new.history) }
        ensures time { Elapses (length self.old.history.log) (length self.new.history.log) (LeftSince self.old.history) (LeftSince self.new.history) (IsImage self.new.history) }
        ensures told { Tells (told_calls self.old) (told_calls self.new) Sync }
        ensures cause { CountsFault (counted self.old.faults) (counted self.new.faults) result }
        ensures calls_advance { Went self.old self.new }
        ensures makes { Makes Sync self.old self.new result }
    {
        self.make(DiskCall::Sync)
    }

    ghost reads_now = { λ d _. bytes_are_image d.history };

    ghost counts_now = { λ d t c _ le image. image_counts d.history t c le image };

    ghost disk_faults_fit = { λ d. counted_fits d.faults };

    ghost calls_advance_refl = { calls_advance_nowhere };

    ghost calls_advance_trans = { calls_advance_further };

    ghost only_now = { λ d c _ left. only_image d.history c left };
}

fn read_at(bytes: &[u8], at: u64, buf: &mut [u8]) -> usize
    ensures count { result ≡ min (length buf.old) (length bytes.now - at) }
    ensures front { take result buf.new ≡ take result (drop at bytes.now) }
    ensures length { length buf.new ≡ length buf.old }
{
    let left = &bytes[bytes.len().min(at as usize)..];
    let count = buf.len().min(left.len());
    buf[..count].copy_from_slice(&left[..count]);
    count
}

// A write that would end past 2^64 - 1.
fn is_too_far(call: &DiskCall) -> bool
    ensures { result ≡ ends_too_far call.now }
{
    match call {
        DiskCall::Write(at, bytes) => at.checked_add(bytes.len() as u64).is_none(),
        DiskCall::Cut(_) => false,
        DiskCall::Sync => false,
    }
}
