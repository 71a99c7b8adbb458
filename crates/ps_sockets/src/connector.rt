//! How connections to other hosts are made.
ghost use Rattle.std.specs.Iterator.{IsFinite};

use crate::deadline::Deadline;
use crate::pace::QuestionPace;
use crate::timed_stream::TimedStream;
use crate::waits::LinkWaits;
use ps_ports::stream::Stream;
use std::io;
use std::io::ErrorKind;
use std::net::{Net, SocketAddr, TcpStream, ToSocketAddrs};
use std::rt::Clock as SystemTimes;
use std::time::Duration;

/// What makes connections.
pub trait Connector {
    type Stream: Stream + Drop;

    /// A new connection to a host, named by an address or a name, with `:` and a port or without.
    fn connect(&mut self, authority: &str) -> io::Result<Self::Stream>;
}

/// A TCP connection to a peer.
pub type TcpQuestion<'a, R> = TimedStream<TcpStream, &'a R, QuestionPace>;

// The port of an authority that names none.
const HTTP_PORT: u16 = 80;

// How many addresses of one name are tried.
const MOST_ADDRESSES: usize = 4;

/// Makes TCP connections, by the system's resolver and sockets.
#[derive(Drop)]
pub struct TcpConnector<'a, R> {
    system: &'a R,
    waits: LinkWaits,
}

impl<'a, R: Net<Stream = TcpStream> + SystemTimes> TcpConnector<'a, R> {
    /// Waits end by the system's steady time.
    pub fn new(system: &'a R, waits: LinkWaits) -> TcpConnector<'a, R> {
        TcpConnector { system, waits }
    }

    fn connect_to(&self, address: SocketAddr, wait: Duration) -> io::Result<TcpQuestion<'a, R>> {
        let socket = TcpStream::connect_timeout(self.system, &address, wait)?;
        socket.set_nodelay(true)?;
        let pace = QuestionPace::new(self.waits.question);
        Ok(TimedStream::new(socket, self.system, pace))
    }

    // The first of the addresses that answers, or the error of the last. One behind which others stand may take half of
    // the time that is left.
    fn connect_any(
        &self,
        addresses: &[Option<SocketAddr>; MOST_ADDRESSES],
        until: Deadline,
    ) -> io::Result<TcpQuestion<'a, R>> {
        let mut last = io::Error::from(ErrorKind::NotFound);
        for place in 0..MOST_ADDRESSES {
            let Some(address) = addresses[place] else {
                return Err(last);
            };
            let Some(left) = until.left(self.system.monotonic()?) else {
                return Err(ErrorKind::TimedOut.into());
            };
            let has_more = place + 1 < MOST_ADDRESSES && addresses[place + 1].is_some();
            let wait = if has_more { left / 2 } else { left };
            match self.connect_to(address, wait) {
                Ok(connection) => return Ok(connection),
                Err(fault) => last = fault,
            }
        }
        Err(last)
    }
}

// The first addresses of those that a name has.
fn first_addresses<I: Iterator<Item = SocketAddr> + Drop>(
    found: I,
) -> [Option<SocketAddr>; MOST_ADDRESSES]
    requires can { I.can_next found }
    requires ends { IsFinite (I.remaining found) }
{
    let mut addresses = [None; MOST_ADDRESSES];
    for (place, address) in addresses.iter_mut().zip(found) {
        *place = Some(address);
    }
    addresses
}

impl<'a, R: Net<Stream = TcpStream> + SystemTimes> Connector for TcpConnector<'a, R> {
    type Stream = TcpQuestion<'a, R>;

    // The time that the resolver takes counts, too.
    fn connect(&mut self, authority: &str) -> io::Result<TcpQuestion<'a, R>> {
        let until = Deadline::after(self.system.monotonic()?, self.waits.connect);
        let addresses = if has_port(authority) {
            first_addresses(authority.to_socket_addrs(self.system)?)
        } else {
            first_addresses((without_brackets(authority), HTTP_PORT).to_socket_addrs(self.system)?)
        };
        self.connect_any(&addresses, until)
    }
}

// Whether the authority ends in a port. An address of IPv6 may stand in brackets.
fn has_port(authority: &str) -> bool {
    match authority.rsplit_once(':') {
        Some((host, port)) => {
            !port.ends_with(']') && (host.starts_with('[') || !host.contains(':'))
        }
        None => false,
    }
}

fn without_brackets(host: &str) -> &str {
    match host.strip_prefix('[') {
        Some(rest) => rest.strip_suffix(']').unwrap_or(host),
        None => host,
    }
}
