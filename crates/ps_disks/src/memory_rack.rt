//! A rack in memory.
ghost use Rattle.std.specs.Prelude.{◌≡◌, ◌≤◌, ◌<◌, ◌+◌, [], IfOk, OnOk, OnErr, IsErrOf, IsTrue, Some};
ghost use Rattle.ps_ports.specs.Causes.{counted, raised};
ghost use Rattle.ps_ports.specs.Memory.{no_calls};
ghost use Rattle.ps_disks.specs.Disk.{AreBounded, Only};
ghost use Rattle.ps_disks.specs.History.{IsImage, bytes_now};
ghost use Rattle.ps_disks.specs.MemoryDisk.{DiskState};
ghost use Rattle.ps_disks.specs.Rack.{fresh_first, fresh_second, IsKept, KeepsPair, LeavesOthers, LeavesAll, LeavesOpen, find_pair, is_out, Opens, after_close};
ghost use Rattle.ps_disks.specs.declared.rack.RackFault.TheVariants.{Failed as rack_failed};

use crate::disk::Disk;
use crate::memory_disk::MemoryDisk;
use crate::rack::{Rack, RackFault};
use crate::shelf::Shelf;
use ps_ports::failing_calls::FailingCalls;
use ps_ports::faults::Faults;
use ps_time::text::Text;
use std::alloc::Global;
use std::marker::Model;

/// Pairs of disks in memory. An opening fails also where the folder's pair is open.
pub struct MemoryRack {
    shelf: Shelf,
    calls: FailingCalls,
    faults: Faults,
}

impl Model for MemoryRack {
    ghost use Rattle.ps_disks.specs.Rack.{RackState};

    ghost Value = { RackState };

    ghost view = { λ r. record { shelf = r.shelf; calls = r.calls; faults = r.faults } };
}

impl Drop for MemoryRack {
    fn drop(self) {
        let MemoryRack {
            shelf: _,
            calls: _,
            faults: _,
        } = self;
    }
}

impl MemoryRack {
    /// A rack with these pairs, each beside its folder. `failing` has the numbers of the openings that
    /// are to fail, the first opening being number 1.
    pub fn new(
        alloc: Global,
        pairs: Vec<(Text, MemoryDisk, MemoryDisk)>,
        failing: Vec<u64>,
    ) -> MemoryRack
        ensures { result ≡ record { shelf = record { pairs = pairs.items; out = [] }; calls = no_calls failing.items; faults = 0 } }
    {
        MemoryRack {
            shelf: Shelf::new(alloc, pairs),
            calls: FailingCalls::new(failing),
            faults: Faults::none(),
        }
    }

    /// The pairs in the rack, the last one that was given back first. Those that are open aren't there.
    pub fn pairs(&self) -> &[(Text, MemoryDisk, MemoryDisk)]
        ensures { result.now ≡ self.now.shelf.pairs }
    {
        self.shelf.pairs()
    }

    /// How many openings failed, and how often a disk that had failed was given back.
    pub fn faults(&self) -> u64
        ensures { result ≡ self.now.faults }
    {
        self.faults.count()
    }
}

impl Rack for MemoryRack {
    ghost use Rattle.std.specs.Prelude.{◌≡◌, IsTrue, Some};
    ghost use Rattle.ps_ports.specs.Causes.{counted, counted_fits};
    ghost use Rattle.ps_disks.specs.Rack.{KeepsPair, is_out, one_pair_kept};

    type Disk = MemoryDisk;

    ghost rack_faults = { λ r. counted r.faults };

    ghost tells_pairs = { Unit {0} };

    ghost keeps_pair = { KeepsPair };

    ghost is_open = { λ r folder. IsTrue (is_out folder r) };

    fn open_pair(
        &mut self,
        alloc: Global,
        folder: &str,
    ) -> Result<(MemoryDisk, MemoryDisk), RackFault>
        ensures counts { IfOk result (λ pair. (counted pair.0.faults ≡ 0) × (counted pair.1.faults ≡ 0)) }
        ensures again { IfOk result (λ pair. (first second : DiskState) → find_pair folder.now self.old.shelf.pairs ≡ Some (first, second)
            → IsKept {D = DiskState} (λ d. bytes_now d.history) (λ d. IsImage d.history) first pair.0
            × IsKept {D = DiskState} (λ d. bytes_now d.history) (λ d. IsImage d.history) second pair.1) }
        ensures fresh { IfOk result (λ pair. ((first second : DiskState) → find_pair folder.now self.old.shelf.pairs ≡ Some (first, second) → ⊥)
            → (bytes_now pair.0.history ≡ fresh_first) × (bytes_now pair.1.history ≡ fresh_second)
            × Only fresh_first (IsImage pair.0.history) × Only fresh_second (IsImage pair.1.history)) }
        ensures others { LeavesOthers folder.now (KeepsPair self.old) (KeepsPair self.new) }
        ensures nothing { OnErr result (LeavesAll (KeepsPair self.old) (KeepsPair self.new)) }
        ensures open { OnOk result (IsTrue (is_out folder.now self.new)) }
        ensures open_others { LeavesOpen folder.now (λ f. IsTrue (is_out f self.old)) (λ f. IsTrue (is_out f self.new)) }
        ensures size { IfOk result (λ pair. AreBounded (IsImage pair.0.history) × AreBounded (IsImage pair.1.history)) }
        ensures later { counted self.old.faults ≤ counted self.new.faults }
        ensures failed { IsErrOf result rack_failed → counted self.new.faults ≡ raised (counted self.old.faults) }
        ensures no_fault { (IsErrOf result rack_failed → ⊥) → counted self.new.faults ≡ counted self.old.faults }
        ensures opens { Opens folder.now self.old self.new result }
    {
        if self.calls.next_fails() || self.shelf.is_out(folder) {
            self.faults.raise();
            return Err(RackFault::Failed);
        }
        match self.shelf.take(alloc, folder) {
            Ok(pair) => Ok(pair),
            Err(_) => Err(RackFault::Memory),
        }
    }

    fn close_pair(&mut self, folder: &str, first: MemoryDisk, second: MemoryDisk)
        requires { IsTrue (is_out folder.now self.old) }
        ensures kept { find_pair folder.now self.new.shelf.pairs ≡ Some (first, second) }
        ensures others { LeavesOthers folder.now (KeepsPair self.old) (KeepsPair self.new) }
        ensures open_others { LeavesOpen folder.now (λ f. IsTrue (is_out f self.old)) (λ f. IsTrue (is_out f self.new)) }
        ensures rose { 0 < counted first.faults + counted second.faults → counted self.new.faults ≡ raised (counted self.old.faults) }
        ensures no_fault { counted first.faults + counted second.faults ≡ 0 → counted self.new.faults ≡ counted self.old.faults }
        ensures after { self.new ≡ after_close folder.now first second self.old }
    {
        if first.faults() != 0 || second.faults() != 0 {
            self.faults.raise();
        }
        self.shelf.give_back(folder, first, second);
    }

    ghost one_pair = { one_pair_kept };

    ghost rack_faults_fit = { λ r. counted_fits r.faults };
}
