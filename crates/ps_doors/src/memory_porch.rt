//! A porch in memory.
ghost use Rattle.std.specs.Prelude.{◌≡◌, ◌≤◌, ◌<◌, ◌==◌, not, ◌∷◌, [], ◌++◌, length, take, drop, map, All, IfOk, OnOk, replicate, Some};
ghost use Rattle.std.specs.List.{list_any};
ghost use Rattle.ps_ports.specs.Causes.{counted};
ghost use Rattle.ps_ports.specs.Memory.{no_calls, fails_next};
ghost use Rattle.ps_doors.specs.Door.{HasShortAddress, new_door};
ghost use Rattle.ps_doors.specs.Porch.{IsUnused, HasShare, porch_faults_after, porch_faults_shut, first_of, behind, dealt_count, next_place, AreDealt, Opens, seen_doors, is_failed, after_shut};

use crate::memory_door::MemoryDoor;
use crate::porch::{Porch, PorchFault};
use crate::returned::Returned;
use ps_ports::failing_calls::FailingCalls;
use ps_ports::faults::Faults;
use ps_ports::memory_stream::MemoryStream;
use ps_time::items::Items;
use ps_time::memory::Memory;
use ps_time::text::Text;
use std::alloc::Global;
use std::collections::VecDeque;
use std::marker::Model;

/// A porch that deals its streams to its doors in turn, whatever the address is. An opening that is to fail leaves
/// them; one that finds no memory may lose some.
pub struct MemoryPorch {
    guests: VecDeque<(MemoryStream, Text)>,
    shut: Returned<Items<MemoryDoor>>,
    calls: FailingCalls,
    faults: Faults,
}

impl Model for MemoryPorch {
    ghost use Rattle.std.specs.Prelude.{All};
    ghost use Rattle.ps_doors.specs.Door.{HasShortAddress};
    ghost use Rattle.ps_doors.specs.Porch.{PorchState};

    ghost Value = { PorchState };

    ghost view = { λ p. record { guests = p.guests.items; shut = p.shut; calls = p.calls; faults = p.faults } };

    ghost invariant = { λ p. All HasShortAddress p.guests.items };
}

impl Drop for MemoryPorch {
    fn drop(self) {
        let MemoryPorch {
            guests: _,
            shut: _,
            calls: _,
            faults: _,
        } = self;
    }
}

impl MemoryPorch {
    /// A porch with these streams, each with its address. `failing` has the numbers of the openings that are to fail,
    /// the first being number 1.
    pub fn new(alloc: Global, guests: Vec<(MemoryStream, Text)>, failing: Vec<u64>) -> MemoryPorch
        requires { All HasShortAddress guests.items }
        ensures { result ≡ record { guests = guests.items; shut = record { back = []; out = 0 }; calls = no_calls failing.items; faults = 0 } }
    {
        MemoryPorch {
            guests: VecDeque::from_vec(guests),
            shut: Returned::new(alloc),
            calls: FailingCalls::new(failing),
            faults: Faults::none(),
        }
    }

    /// The doors that came back, those of one shutting together.
    pub fn shut_doors(&self) -> &[Items<MemoryDoor>]
        ensures { result.now ≡ self.now.shut.back }
    {
        self.shut.back()
    }

    /// How many openings failed, and how often doors of which one had failed came back.
    pub fn faults(&self) -> u64
        ensures { result ≡ self.now.faults }
    {
        self.faults.count()
    }
}

// How many of the streams that wait are dealt to so many doors.
fn dealt_count(number: u8, waiting: usize, most: Option<u64>) -> usize
    ensures count { result ≡ dealt_count number most waiting }
    ensures within { result ≤ waiting }
    ensures somewhere { 0 < result → 0 < number }
{
    if number == 0 {
        return 0;
    }
    match most {
        Some(most) => most.min(waiting as u64) as usize,
        None => waiting,
    }
}

// Doors at which nobody waits.
fn empty_doors(alloc: Global, number: u8) -> Result<Vec<MemoryDoor>, Memory>
    ensures { IfOk result (λ doors. doors.items ≡ replicate number (new_door [] [])) }
{
    let mut doors = Vec::new(alloc);
    for _ in 0..number {
        doors.push(MemoryDoor::new(alloc, Vec::new(alloc), Vec::new(alloc)))?;
    }
    Ok(doors)
}

fn next_place(at: usize, places: usize) -> usize
    requires { at < places }
    ensures { result ≡ next_place places at }
{
    if at + 1 == places { 0 } else { at + 1 }
}

// Deals the first streams to the doors in turn.
fn deal(
    guests: &mut VecDeque<(MemoryStream, Text)>,
    count: usize,
    doors: &mut [MemoryDoor],
) -> Result<(), Memory>
    requires short { All HasShortAddress guests.old.items }
    requires nobody { doors.old ≡ replicate (length doors.old) (new_door [] []) }
    requires enough { count ≤ length guests.old.items }
    requires somewhere { 0 < count → 0 < length doors.old }
    ensures dealt { OnOk result (AreDealt (length doors.old) (take count guests.old.items) doors.new) }
    ensures rest { OnOk result (guests.new.items ≡ drop count guests.old.items) }
    ensures short { All HasShortAddress guests.new.items }
{
    let mut at = 0;
    for _ in 0..count {
        let Some(guest) = guests.pop_front() else {
            return Err(Memory);
        };
        doors[at].add(guest)?;
        at = next_place(at, doors.len());
    }
    Ok(())
}

// New doors, to which the streams are dealt.
fn deal_all(
    guests: &mut VecDeque<(MemoryStream, Text)>,
    alloc: Global,
    number: u8,
    most: Option<u64>,
) -> Result<Vec<MemoryDoor>, Memory>
    requires { All HasShortAddress guests.old.items }
    ensures dealt { IfOk result (λ doors. AreDealt number (first_of most guests.old.items) doors.items) }
    ensures rest { OnOk result (guests.new.items ≡ behind number most guests.old.items) }
    ensures short { All HasShortAddress guests.new.items }
{
    let count = dealt_count(number, guests.len(), most);
    let mut doors = empty_doors(alloc, number)?;
    deal(guests, count, &mut doors)?;
    Ok(doors)
}

fn have_failed(doors: &[MemoryDoor]) -> bool
    ensures { result ≡ list_any (λ n. not (n == 0)) (map (λ d. counted d.faults) doors.now) }
{
    for door in doors {
        if door.has_failed() {
            return true;
        }
    }
    false
}

impl Porch for MemoryPorch {
    ghost use Rattle.std.specs.Prelude.{◌<◌, Some};
    ghost use Rattle.ps_ports.specs.Causes.{counted, counted_fits};

    type Door = MemoryDoor;

    ghost porch_faults = { λ p. counted p.faults };

    ghost shut_doors = { λ p. Some p.shut.back };

    ghost is_open = { λ p. 0 < p.shut.out };

    fn open(
        &mut self,
        alloc: Global,
        _address: &str,
        number: u8,
        most: Option<u64>,
    ) -> Result<Vec<MemoryDoor>, PorchFault>
        ensures number { IfOk result (λ doors. length doors.items ≡ number) }
        ensures no_fault { IfOk result (λ doors. All (λ d. counted d.faults ≡ 0) doors.items) }
        ensures unused { IfOk result (λ doors. All (λ d. IsUnused (Some d.given) (Some d.returned.back)) doors.items) }
        ensures shares { IfOk result (λ doors. All (λ d. HasShare most (Some (length d.guests))) doors.items) }
        ensures open { OnOk result (0 < self.new.shut.out) }
        ensures still_open { 0 < self.old.shut.out → 0 < self.new.shut.out }
        ensures shut { Some self.new.shut.back ≡ Some self.old.shut.back }
        ensures count { counted self.new.faults ≡ porch_faults_after (counted self.old.faults) result }
        ensures later { counted self.old.faults ≤ counted self.new.faults }
        ensures opens { Opens number most self.old self.new (seen_doors (λ v. v.items) result) }
        ensures fails { fails_next self.old.calls ≡ is_failed result }
    {
        if self.calls.next_fails() {
            self.faults.raise();
            return Err(PorchFault::Failed);
        }
        let doors = deal_all(&mut self.guests, alloc, number, most)?;
        self.shut.let_go()?;
        Ok(doors)
    }

    fn shut(&mut self, doors: Vec<MemoryDoor>)
        requires { 0 < self.old.shut.out }
        ensures shut { Some self.new.shut.back ≡ Some (self.old.shut.back ++ doors.items ∷ []) }
        ensures count { counted self.new.faults ≡ porch_faults_shut (counted self.old.faults) (map (λ d. counted d.faults) doors.items) }
        ensures later { counted self.old.faults ≤ counted self.new.faults }
        ensures after { self.new ≡ after_shut self.old doors.items }
    {
        if have_failed(doors.as_slice()) {
            self.faults.raise();
        }
        self.shut.take_back(Items::from_vec(doors));
    }

    ghost porch_faults_fit = { λ p. counted_fits p.faults };
}
