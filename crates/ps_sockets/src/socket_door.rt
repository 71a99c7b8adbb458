//! A door over a listening socket.
ghost use Rattle.std.specs.Prelude.{◌≡◌, ◌≤◌, ◌-◌, ◌+◌, ◌==◌, not, min, IfOk, true, length};
ghost use Rattle.std.specs.Option.{option_map};
ghost use Rattle.ps_ports.specs.Causes.{counted, raised};
ghost use Rattle.ps_doors.specs.Door.{HasAddress, greatest_address, is_closed, is_used_up, door_faults_after, share_after};
ghost use Rattle.ps_sockets.specs.Door.{is_none, is_failed, is_gone, most_in_a_row};

use crate::listener::Listener;
use ps_doors::door::{Accepted, Door, MOST_ADDRESS};
use ps_ports::faults::Faults;
use ps_time::memory::Memory;
use ps_time::text::Text;
use std::alloc::Global;
use std::fmt::Write;
use std::io;
use std::io::ErrorKind;
use std::net::IpAddr;

// How often a connection is taken where a signal interrupts that.
const TRIES: u32 = 1_000;

// Room for the text of an address.
const ROOM: usize = 64;

/// How many unexpected errors in a row say that a listener is gone.
pub const MOST_IN_A_ROW: u32 = 1_000;

/// A door that gives at most its share of connections, or any number.
#[derive(Drop)]
pub struct SocketDoor<L> {
    listener: L,
    share: Option<u64>,
    faults: Faults,
    hitches: Faults,
    in_a_row: u32,
}

impl<L: Listener> SocketDoor<L> {
    pub(crate) fn new(listener: L, share: Option<u64>) -> SocketDoor<L>
        ensures share { result.share ≡ share }
        ensures faults { result.faults ≡ 0 }
        ensures hitches { result.hitches ≡ 0 }
        ensures in_a_row { result.in_a_row ≡ 0 }
    {
        SocketDoor {
            listener,
            share,
            faults: Faults::none(),
            hitches: Faults::none(),
            in_a_row: 0,
        }
    }

    /// How many calls failed.
    pub fn faults(&self) -> u64
        ensures { result ≡ self.now.faults }
    {
        self.faults.count()
    }

    /// How many unexpected errors the listener gave, also those at which the call answered that nobody waits.
    pub fn hitches(&self) -> u64
        ensures { result ≡ self.now.hitches }
    {
        self.hitches.count()
    }

    pub(crate) fn has_failed(&self) -> bool
        ensures { result ≡ not (counted self.now.faults == 0) }
    {
        self.faults.count() != 0
    }

    // An unexpected error, such as want of descriptors. Only after many in a row the listener counts as gone.
    fn stumble(&mut self) -> Accepted<L::Stream>
        ensures none { is_none result ≡ true }
        ensures same { self.new.share ≡ self.old.share }
        ensures count { counted self.new.faults ≡ door_faults_after (counted self.old.faults) result }
        ensures in_a_row { self.new.in_a_row ≡ min (self.old.in_a_row + 1) most_in_a_row }
        ensures failed { is_failed result ≡ is_gone self.new.in_a_row }
        ensures hitches { self.new.hitches ≡ raised self.old.hitches }
    {
        self.hitches.raise();
        self.in_a_row = self.in_a_row.saturating_add(1).min(MOST_IN_A_ROW);
        self.listener.pause();
        if self.in_a_row == MOST_IN_A_ROW {
            self.faults.raise();
            return Accepted::Failed;
        }
        Accepted::Nobody
    }

    // What an error of the socket is to the caller. A client that broke its connection before it was taken is no fault
    // of the door.
    fn without_stream(&mut self, kind: ErrorKind) -> Accepted<L::Stream>
        ensures none { is_none result ≡ true }
        ensures same { self.new.share ≡ self.old.share }
        ensures count { counted self.new.faults ≡ door_faults_after (counted self.old.faults) result }
        ensures failed { is_failed result ≡ true → is_gone self.new.in_a_row ≡ true }
    {
        match kind {
            ErrorKind::WouldBlock => {
                self.in_a_row = 0;
                self.listener.pause();
                Accepted::Nobody
            }
            ErrorKind::ConnectionAborted
            | ErrorKind::ConnectionReset
            | ErrorKind::HostUnreachable
            | ErrorKind::NetworkUnreachable
            | ErrorKind::NetworkDown => {
                self.in_a_row = 0;
                Accepted::Nobody
            }
            ErrorKind::OutOfMemory => Accepted::Memory,
            _ => self.stumble(),
        }
    }
}

fn take<L: Listener>(listener: &mut L) -> io::Result<(L::Stream, IpAddr)> {
    for _ in 0..TRIES {
        match listener.take() {
            Ok(taken) => return Ok(taken),
            Err(fault) => {
                if fault.kind() != ErrorKind::Interrupted {
                    return Err(fault);
                }
            }
        }
    }
    Err(ErrorKind::Interrupted.into())
}

// The address as a text. It is far shorter than 255 bytes.
fn write_address(mut room: String, from: IpAddr) -> Result<Text, Memory>
    ensures { IfOk result (λ text. length text ≤ greatest_address) }
{
    write!(room, "{from}")?;
    if room.len() > MOST_ADDRESS {
        return Err(Memory);
    }
    Ok(Text::from_string(room))
}

fn one_less(share: Option<u64>) -> Option<u64>
    ensures { result ≡ option_map (λ n. n - 1) share }
{
    match share {
        Some(count) => Some(count.saturating_sub(1)),
        None => None,
    }
}

impl<L: Listener> Door for SocketDoor<L>
where
    L::Stream: Send,
{
    ghost use Rattle.std.specs.Prelude.{None};
    ghost use Rattle.ps_ports.specs.Causes.{counted, counted_fits};

    type Stream = L::Stream;

    ghost door_faults = { λ d. counted d.faults };

    ghost share = { λ d. d.share };

    ghost given = { λ _. None };

    ghost returned = { λ _. None };

    ghost is_out = { λ _. Unit {0} };

    // Memory for the address is found first, so that no connection is lost where there is none.
    fn accept(&mut self, alloc: Global) -> Accepted<L::Stream>
        ensures address { HasAddress result }
        ensures closed { is_closed result ≡ is_used_up self.old.share }
        ensures share { self.new.share ≡ share_after self.old.share result }
        ensures count { counted self.new.faults ≡ door_faults_after (counted self.old.faults) result }
        ensures later { counted self.old.faults ≤ counted self.new.faults }

        // It fails only where so many calls in a row met an unexpected error.
        ensures failed { is_failed result ≡ true → is_gone self.new.in_a_row ≡ true }
    {
        if self.share == Some(0) {
            return Accepted::Closed;
        }
        let Ok(room) = String::with_capacity(alloc, ROOM) else {
            return Accepted::Memory;
        };
        match take(&mut self.listener) {
            Ok((stream, from)) => {
                let Ok(address) = write_address(room, from) else {
                    return Accepted::Memory;
                };
                self.share = one_less(self.share);
                self.in_a_row = 0;
                Accepted::Stream(stream, address)
            }
            Err(fault) => self.without_stream(fault.kind()),
        }
    }

    fn done(&mut self, stream: L::Stream) {
        self.listener.part(stream);
    }

    ghost door_faults_fit = { λ d. counted_fits d.faults };
}
