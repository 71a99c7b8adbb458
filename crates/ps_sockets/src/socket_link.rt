//! A link over connections.
ghost use Rattle.std.specs.Prelude.{◌≡◌, ◌≤◌, IfOk, None, length};
ghost use Rattle.ps_ports.specs.Causes.{counted};
ghost use Rattle.ps_doors.specs.Link.{greatest_reply, link_faults_after};

use crate::connector::Connector;
use crate::cooldown::Cooldown;
use crate::deadline::Deadline;
use crate::exchange::exchange;
use ps_doors::link::{Link, LinkFault};
use ps_ports::faults::Faults;
use std::alloc::Global;
use std::io;
use std::io::ErrorKind;
use std::rt::Clock as SystemTimes;
use std::time::Duration;

// How often a connection is tried where a signal interrupts that.
const TRIES: u32 = 1_000;

/// A link that makes a connection for each request, and drops it afterwards. A peer to which no connection could be made
/// rests for a while: what it is asked then fails at once.
#[derive(Drop)]
pub struct SocketLink<C, T> {
    connector: C,
    times: T,
    rest: Duration,
    cooldown: Cooldown,
    faults: Faults,
}

impl<C: Connector, T: SystemTimes> SocketLink<C, T> {
    /// A link without a fault so far. `rest` is how long a peer rests.
    pub fn new(alloc: Global, connector: C, times: T, rest: Duration) -> SocketLink<C, T>
        ensures { ⟦<SocketLink<C, T> as Link>⟧.link_faults result ≡ 0 }
    {
        SocketLink {
            connector,
            times,
            rest,
            cooldown: Cooldown::new(alloc),
            faults: Faults::none(),
        }
    }

    /// How many calls failed.
    pub fn faults(&self) -> u64
        ensures { result ≡ ⟦<SocketLink<C, T> as Link>⟧.link_faults self.now }
    {
        self.faults.count()
    }

    // Where the time can't be read, no peer rests.
    fn is_resting(&self, authority: &str) -> bool {
        match self.times.monotonic() {
            Ok(now) => self.cooldown.covers(authority, now),
            Err(_) => false,
        }
    }

    // Where the time can't be read, or there is no memory, the peer is asked again.
    fn let_rest(&mut self, alloc: Global, authority: &str)
        ensures { self.new.faults ≡ self.old.faults }
    {
        if let Ok(now) = self.times.monotonic() {
            let until = Deadline::after(now, self.rest);
            let _ = self.cooldown.begin(alloc, authority, now, until);
        }
    }

    fn ask_once(
        &mut self,
        alloc: Global,
        authority: &str,
        request: &[u8],
    ) -> Result<Vec<u8>, LinkFault>
        ensures bound { IfOk result (λ reply. length reply.items ≤ greatest_reply) }
        ensures count { self.new.faults ≡ self.old.faults }
    {
        if self.is_resting(authority) {
            return Err(LinkFault::Failed);
        }
        match connect(&mut self.connector, authority) {
            Ok(mut stream) => exchange(alloc, &mut stream, request),
            Err(fault) => {
                self.let_rest(alloc, authority);
                Err(LinkFault::from(fault))
            }
        }
    }
}

fn connect<C: Connector>(connector: &mut C, authority: &str) -> io::Result<C::Stream> {
    for _ in 0..TRIES {
        match connector.connect(authority) {
            Ok(stream) => return Ok(stream),
            Err(fault) => {
                if fault.kind() != ErrorKind::Interrupted {
                    return Err(fault);
                }
            }
        }
    }
    Err(ErrorKind::Interrupted.into())
}

impl<C: Connector, T: SystemTimes> Link for SocketLink<C, T> {
    ghost use Rattle.std.specs.Prelude.{None};
    ghost use Rattle.ps_ports.specs.Causes.{counted, counted_fits};

    ghost asked = { λ _. None };

    ghost link_faults = { λ l. counted l.faults };

    fn ask(&mut self, alloc: Global, authority: &str, request: &[u8]) -> Result<Vec<u8>, LinkFault>
        ensures bound { IfOk result (λ reply. length reply.items ≤ greatest_reply) }
        ensures count { counted self.new.faults ≡ link_faults_after (counted self.old.faults) result }
        ensures later { counted self.old.faults ≤ counted self.new.faults }
    {
        match self.ask_once(alloc, authority, request) {
            Ok(reply) => Ok(reply),
            Err(LinkFault::Failed) => {
                self.faults.raise();
                Err(LinkFault::Failed)
            }
            Err(LinkFault::Memory) => Err(LinkFault::Memory),
        }
    }

    ghost link_faults_fit = { λ l. counted_fits l.faults };
}
