//! Connections that were taken and haven't sent a whole head yet.
ghost use Rattle.std.specs.Prelude.{◌≡◌, ◌≤◌, ◌<◌, ◌+◌, length, vec_len};

use crate::deadline::Deadline;
use std::alloc::{AllocError, Global};
use std::io;
use std::io::ErrorKind;
use std::time::Duration;

/// How many connections wait in a room at most.
pub const MOST_GUESTS: usize = 64;

/// What is seen of a connection that waits.
#[derive(Clone, Copy, Debug, PartialEq, Eq)]
pub enum Look {
    /// A whole head is there, or as much as a head may have.
    Ready,
    /// It may still come.
    Coming,
    /// The connection is broken, or the client has ended it and sent nothing.
    Gone,
}

/// A connection that waits.
pub trait Guest: Drop {
    /// Looks without waiting; what came stays to be read.
    fn look(&self) -> Look;
}

/// What connections come through.
pub trait Entrance {
    type Guest: Guest;

    /// Takes a connection, without waiting. `WouldBlock` where there is none.
    fn admit(&mut self) -> io::Result<Self::Guest>;
}

#[derive(Drop)]
struct Seat<G> {
    guest: G,
    until: Deadline,
}

impl<G: Guest> Seat<G> {
    fn look(&self, now: Duration) -> Look {
        let look = self.guest.look();
        if look == Look::Coming && self.until.left(now).is_none() {
            return Look::Gone;
        }
        look
    }
}

/// The connections that wait, the oldest first: at most `MOST_GUESTS`, each for a bounded time.
#[derive(Drop)]
pub struct WaitingRoom<G> {
    seats: Vec<Seat<G>>,
    wait: Duration,
    ghost bounded: { length seats.items ≤ 64 },
}

impl<G: Guest> WaitingRoom<G> {
    /// An empty room, in which each connection may wait so long. All memory is taken here.
    pub fn new(alloc: Global, wait: Duration) -> Result<WaitingRoom<G>, AllocError> {
        Ok(WaitingRoom {
            seats: Vec::with_capacity(alloc, MOST_GUESTS)?,
            wait,
        })
    }

    /// How many connections wait.
    pub fn len(&self) -> usize
        ensures { result ≤ 64 }
    {
        self.seats.len()
    }

    /// Whether no connection waits.
    pub fn is_empty(&self) -> bool {
        self.seats.is_empty()
    }

    // Lets a connection wait. Where the room is full, the oldest one goes.
    fn seat(&mut self, guest: G, now: Duration) {
        if self.seats.len() == MOST_GUESTS {
            drop(self.seats.remove(0));
        }
        let until = Deadline::after(now, self.wait);
        let _ = self.seats.push(Seat { guest, until });
    }

    // The oldest that is ready. Those before it that are gone, or have waited too long, go.
    fn first_ready(&mut self, now: Duration) -> Option<G> {
        let mut place = 0;
        while place < self.seats.len() {
            match self.seats[place].look(now) {
                Look::Ready => return Some(self.leave(place)),
                Look::Coming => place += 1,
                Look::Gone => drop(self.leave(place)),
            }
        }
        None
    }

    fn leave(&mut self, place: usize) -> G
        requires { place < vec_len self.old.seats }
        ensures { vec_len self.new.seats + 1 ≡ vec_len self.old.seats }
    {
        let Seat { guest, until: _ } = self.seats.remove(place);
        guest
    }

    /// A connection that is ready: the oldest of those that wait, or else the first of those that come through the
    /// entrance; the others of these wait from now on. `WouldBlock` where there is none.
    pub fn take_ready<E: Entrance<Guest = G>>(
        &mut self,
        entrance: &mut E,
        now: Duration,
    ) -> io::Result<G> {
        if let Some(guest) = self.first_ready(now) {
            return Ok(guest);
        }
        for _ in 0..MOST_GUESTS {
            let guest = entrance.admit()?;
            match guest.look() {
                Look::Ready => return Ok(guest),
                Look::Coming => self.seat(guest, now),
                Look::Gone => {}
            }
        }
        Err(ErrorKind::WouldBlock.into())
    }
}
