//! A door in memory.
ghost use Rattle.std.specs.Prelude.{◌≡◌, ◌≤◌, ◌<◌, ◌==◌, not, ◌∷◌, [], ◌++◌, All, OnOk, Some, length};
ghost use Rattle.ps_ports.specs.Causes.{counted};
ghost use Rattle.ps_doors.specs.Door.{HasAddress, HasShortAddress, is_closed, is_used_up, GoesOn, door_faults_after, given_after, share_after, new_door, after_accept, accept_of, Accepts, after_giving, GivesFirst, with_guest, after_done};

use crate::door::{Accepted, Door};
use crate::returned::Returned;
use ps_ports::failing_calls::FailingCalls;
use ps_ports::faults::Faults;
use ps_ports::memory_stream::MemoryStream;
use ps_time::memory::Memory;
use ps_time::text::Text;
use std::alloc::Global;
use std::collections::VecDeque;
use std::marker::Model;
use std::snapshot::Snapshot;

/// A door that gives its streams in order, and then is closed. It is never without a connection that waits. An accept
/// that is to fail leaves the stream at the door.
pub struct MemoryDoor {
    guests: VecDeque<(MemoryStream, Text)>,
    given: Vec<Snapshot<(MemoryStream, Text)>>,
    returned: Returned<MemoryStream>,
    calls: FailingCalls,
    faults: Faults,
}

impl Model for MemoryDoor {
    ghost use Rattle.std.specs.Prelude.{All, map};
    ghost use Rattle.ps_doors.specs.Door.{DoorState, HasShortAddress};

    ghost Value = { DoorState };

    ghost view = { λ d. record {
      guests = d.guests.items;
      given = map (λ s. s.value) d.given.items;
      returned = d.returned;
      calls = d.calls;
      faults = d.faults;
    } };

    ghost invariant = { λ d. All HasShortAddress d.guests.items };
}

impl Drop for MemoryDoor {
    fn drop(self) {
        let MemoryDoor {
            guests: _,
            given: _,
            returned: _,
            calls: _,
            faults: _,
        } = self;
    }
}

impl MemoryDoor {
    /// A door at which these streams wait, each with its address. `failing` has the numbers of the accepts that are to
    /// fail, the first being number 1.
    pub fn new(alloc: Global, guests: Vec<(MemoryStream, Text)>, failing: Vec<u64>) -> MemoryDoor
        requires { All HasShortAddress guests.items }
        ensures { result ≡ new_door guests.items failing.items }
    {
        MemoryDoor::of_deque(alloc, VecDeque::from_vec(guests), failing)
    }

    pub(crate) fn of_deque(
        alloc: Global,
        guests: VecDeque<(MemoryStream, Text)>,
        failing: Vec<u64>,
    ) -> MemoryDoor
        requires { All HasShortAddress guests.items }
        ensures { result ≡ new_door guests.items failing.items }
    {
        MemoryDoor {
            guests,
            given: Vec::new(alloc),
            returned: Returned::new(alloc),
            calls: FailingCalls::new(failing),
            faults: Faults::none(),
        }
    }

    /// The streams that came back, in their order.
    pub fn returned(&self) -> &[MemoryStream]
        ensures { result.now ≡ self.now.returned.back }
    {
        self.returned.back()
    }

    /// How many accepts failed.
    pub fn faults(&self) -> u64
        ensures { result ≡ self.now.faults }
    {
        self.faults.count()
    }

    /// One more stream waits.
    pub(crate) fn add(&mut self, guest: (MemoryStream, Text)) -> Result<(), Memory>
        requires { HasShortAddress guest }
        ensures { OnOk result (self.new ≡ with_guest self.old guest) }
    {
        self.guests.push_back(guest)?;
        Ok(())
    }

    pub(crate) fn has_failed(&self) -> bool
        ensures { result ≡ not (counted self.now.faults == 0) }
    {
        self.faults.count() != 0
    }

    // Gives the first stream out.
    fn give(&mut self) -> Accepted<MemoryStream>
        requires { 0 < length self.old.guests }
        ensures first { GivesFirst self.old.guests result }
        ensures address { HasAddress result }
        ensures after { self.new ≡ after_giving self.old result }
    {
        if self.given.reserve(1).is_err() || self.returned.let_go().is_err() {
            return Accepted::Memory;
        }
        let guest = self.guests.pop_front().unwrap();
        let _full = self.given.push(Snapshot::of(&guest));
        let (stream, address) = guest;
        Accepted::Stream(stream, address)
    }
}

impl Door for MemoryDoor {
    ghost use Rattle.std.specs.Prelude.{◌<◌, Some, length};
    ghost use Rattle.ps_ports.specs.Causes.{counted, counted_fits};

    type Stream = MemoryStream;

    ghost door_faults = { λ d. counted d.faults };

    ghost share = { λ d. Some (length d.guests) };

    ghost given = { λ d. Some d.given };

    ghost returned = { λ d. Some d.returned.back };

    ghost is_out = { λ d. 0 < d.returned.out };

    fn accept(&mut self, _alloc: Global) -> Accepted<MemoryStream>
        ensures address { HasAddress result }
        ensures closed { is_closed result ≡ is_used_up (Some (length self.old.guests)) }
        ensures share { Some (length self.new.guests) ≡ share_after (Some (length self.old.guests)) result }
        ensures given { Some self.new.given ≡ given_after (Some self.old.given) result }
        ensures returned { Some self.new.returned.back ≡ Some self.old.returned.back }
        ensures out { GoesOn (0 < self.old.returned.out) (0 < self.new.returned.out) result }
        ensures count { counted self.new.faults ≡ door_faults_after (counted self.old.faults) result }
        ensures later { counted self.old.faults ≤ counted self.new.faults }
        ensures answer { Accepts result (accept_of self.old.calls self.old.guests) }
        ensures after { self.new ≡ after_accept self.old result }
    {
        let fails = self.calls.next_fails();
        if self.guests.is_empty() {
            return Accepted::Closed;
        }
        if fails {
            self.faults.raise();
            return Accepted::Failed;
        }
        self.give()
    }

    fn done(&mut self, stream: MemoryStream)
        requires { 0 < self.old.returned.out }
        ensures returned { Some self.new.returned.back ≡ Some (self.old.returned.back ++ stream ∷ []) }
        ensures given { Some self.new.given ≡ Some self.old.given }
        ensures share { Some (length self.new.guests) ≡ Some (length self.old.guests) }
        ensures count { counted self.new.faults ≡ counted self.old.faults }
        ensures after { self.new ≡ after_done self.old stream }
    {
        self.returned.take_back(stream);
    }

    ghost door_faults_fit = { λ d. counted_fits d.faults };
}
