//! What is listened on.
use crate::head::has_empty_line;
use crate::pace::MessagePace;
use crate::timed_stream::TimedStream;
use crate::waiting_room::{Entrance, Guest, Look, WaitingRoom};
use crate::waits::Waits;
use ps_doors::clock::Clock;
use ps_ports::stream::Stream;
use std::alloc::Global;
use std::io;
use std::io::ErrorKind;
use std::net::{IpAddr, Net, TcpListener, TcpStream};
use std::rt::Clock as SystemTimes;
use std::sync::{Arc, Mutex};

/// A socket that listens.
pub trait Listener {
    type Stream: Stream + Drop;

    /// Takes a connection that is ready, with the address of who made it. `WouldBlock` where there is none.
    fn take(&mut self) -> io::Result<(Self::Stream, IpAddr)>;

    /// Ends a connection, so that what was written reaches the client.
    fn part(&mut self, stream: Self::Stream);

    /// Lets a little time pass.
    fn pause(&self);
}

/// What binds sockets that listen.
pub trait Binder {
    type Listener: Listener + Drop;

    /// A socket that listens at the address.
    fn bind(&mut self, alloc: Global, address: &str) -> io::Result<Self::Listener>;

    /// Another handle of the same socket.
    fn another(&mut self, listener: &Self::Listener) -> io::Result<Self::Listener>;
}

/// A TCP connection of a client.
pub type TcpConnection<'a, R> = TimedStream<TcpStream, &'a R, MessagePace>;

// The longest head, in bytes: a connection that has sent so many is ready.
const MOST_HEAD: usize = 16_384;

/// A TCP connection that waits until its head is there.
#[derive(Drop)]
pub struct TcpGuest {
    socket: TcpStream,
    from: IpAddr,
}

impl Guest for TcpGuest {
    fn look(&self) -> Look {
        let mut head = [0; MOST_HEAD];
        match self.socket.peek(&mut head) {
            Ok(0) => Look::Gone,
            Ok(count) if count == MOST_HEAD || has_empty_line(&head[..count]) => Look::Ready,
            Ok(_) => Look::Coming,
            Err(fault) => match fault.kind() {
                ErrorKind::WouldBlock | ErrorKind::Interrupted => Look::Coming,
                _ => Look::Gone,
            },
        }
    }
}

// An address of IPv4 that came as one of IPv6 is kept as the former.
impl Entrance for TcpListener {
    type Guest = TcpGuest;

    fn admit(&mut self) -> io::Result<TcpGuest> {
        let (socket, from) = self.accept()?;
        socket.set_nodelay(true)?;
        socket.set_nonblocking(true)?;
        Ok(TcpGuest {
            socket,
            from: from.ip().to_canonical(),
        })
    }
}

/// A TCP socket that listens and never blocks. Its handles share one room, so a connection that waits is given by
/// whichever of them is asked first once its head is there.
#[derive(Drop)]
pub struct TcpDoorway<'a, R, C> {
    socket: TcpListener,
    room: Arc<Mutex<WaitingRoom<TcpGuest>>>,
    system: &'a R,
    clock: &'a C,
    waits: Waits,
}

impl<'a, R: SystemTimes + Sync, C: Clock + Sync> Listener for TcpDoorway<'a, R, C> {
    type Stream = TcpConnection<'a, R>;

    // Where another handle looks through the room just now, nothing is ready for this one.
    fn take(&mut self) -> io::Result<(TcpConnection<'a, R>, IpAddr)> {
        let now = self.system.monotonic()?;
        let TcpGuest { socket, from } = match self.room.try_lock() {
            Some(mut room) => room.take_ready(&mut self.socket, now)?,
            None => return Err(ErrorKind::WouldBlock.into()),
        };
        socket.set_nonblocking(false)?;
        let pace = MessagePace::new(self.waits);
        Ok((TimedStream::new(socket, self.system, pace), from))
    }

    fn part(&mut self, stream: TcpConnection<'a, R>) {
        stream.part(self.waits.parting);
    }

    fn pause(&self) {
        self.clock.pause();
    }
}

/// Binds TCP sockets, by the system's resolver.
#[derive(Drop)]
pub struct TcpBinder<'a, R, C> {
    system: &'a R,
    clock: &'a C,
    waits: Waits,
}

impl<
    'a,
    R: Net<Listener = TcpListener, Stream = TcpStream> + SystemTimes + Sync,
    C: Clock + Sync,
> TcpBinder<'a, R, C> {
    /// The doors pause by the clock; their waits end by the system's steady time.
    pub fn new(system: &'a R, clock: &'a C, waits: Waits) -> TcpBinder<'a, R, C> {
        TcpBinder {
            system,
            clock,
            waits,
        }
    }
}

impl<
    'a,
    R: Net<Listener = TcpListener, Stream = TcpStream> + SystemTimes + Sync,
    C: Clock + Sync,
> Binder for TcpBinder<'a, R, C> {
    type Listener = TcpDoorway<'a, R, C>;

    fn bind(&mut self, alloc: Global, address: &str) -> io::Result<TcpDoorway<'a, R, C>> {
        let room = WaitingRoom::new(alloc, self.waits.head)?;
        let room = Arc::new(alloc, Mutex::new(room))?;
        let socket = TcpListener::bind(self.system, address)?;
        socket.set_nonblocking(true)?;
        Ok(TcpDoorway {
            socket,
            room,
            system: self.system,
            clock: self.clock,
            waits: self.waits,
        })
    }

    fn another(&mut self, listener: &TcpDoorway<'a, R, C>) -> io::Result<TcpDoorway<'a, R, C>> {
        Ok(TcpDoorway {
            socket: listener.socket.try_clone()?,
            room: Arc::try_clone(&listener.room)?,
            system: self.system,
            clock: self.clock,
            waits: self.waits,
        })
    }
}
