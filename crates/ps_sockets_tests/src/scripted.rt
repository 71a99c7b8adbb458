//! Tests of the logic over sockets, with calls that answer what the test wants.
use ps_doors::clock::Clock;
use ps_doors::door::{Accepted, Door};
use ps_doors::link::{Link, LinkFault};
use ps_doors::porch::Porch;
use ps_ports::memory_stream::MemoryStream;
use ps_sockets::connector::Connector;
use ps_sockets::exchange::exchange;
use ps_sockets::listener::{Binder, Listener};
use ps_sockets::socket_door::MOST_IN_A_ROW;
use ps_sockets::socket_link::SocketLink;
use ps_sockets::socket_porch::SocketPorch;
use ps_sockets::system_clock::SystemClock;
use std::alloc::{AllocError, Global};
use std::cell::Cell;
use std::io;
use std::io::ErrorKind;
use std::net::{IpAddr, Ipv4Addr};
use std::rt::Clock as SystemTimes;
use std::test::Fail;
use std::time::Duration;

// A clock that can't be read, or reads so many seconds.
#[derive(Drop)]
struct Times(Option<u64>);

impl SystemTimes for Times {
    fn monotonic(&self) -> io::Result<Duration> {
        Err(ErrorKind::Other.into())
    }

    fn since_1970(&self) -> io::Result<Duration> {
        match self.0 {
            Some(seconds) => Ok(Duration::from_secs(seconds)),
            None => Err(ErrorKind::Other.into()),
        }
    }
}

fn reads(seconds: Option<u64>) -> u64 {
    SystemClock::new(Times(seconds), Duration::from_millis(1)).now()
}

#[test]
fn moments_of_clocks(rt: HostRuntime) -> Result<(), Fail> {
    assert_eq!(rt; (reads(Some(7)), reads(None)), (7, 0));
    assert_eq!(rt; reads(Some(4_102_444_801)), 4_102_444_800);
    let clock = SystemClock::new(&rt, Duration::from_millis(1));
    clock.pause();
    assert!(rt; clock.now() > 1_700_000_000);
    Ok(())
}

fn stream(alloc: Global, held: &[u8], failing: &[u64]) -> Result<MemoryStream, AllocError> {
    let held = held.to_vec(alloc)?;
    let failing = failing.to_vec(alloc)?;
    Ok(MemoryStream::new(alloc, held, failing))
}

#[test]
fn a_request_and_its_reply(rt: HostRuntime) -> Result<(), Fail> {
    let alloc = rt.alloc();
    let mut stream = stream(alloc, b"reply", &[])?;
    let reply = exchange(alloc, &mut stream, b"request");
    assert!(rt; matches!(&reply, Ok(bytes) if bytes.as_slice() == b"reply".as_slice()));
    assert!(rt; stream.written() == b"request".as_slice());
    Ok(())
}

fn fails(alloc: Global, call: u64) -> Result<bool, AllocError> {
    let mut stream = stream(alloc, b"reply", &[call])?;
    let answer = exchange(alloc, &mut stream, b"request");
    Ok(matches!(answer, Err(LinkFault::Failed)))
}

// A write, a read with the bytes, a read with the end.
#[test]
fn an_exchange_fails_at_each_call(rt: HostRuntime) -> Result<(), Fail> {
    let alloc = rt.alloc();
    for call in 1..4u64 {
        assert!(rt; fails(alloc, call)?, "{call}");
    }
    assert!(rt; !fails(alloc, 4)?);
    Ok(())
}

// Answers with these errors, one after another, and then with a stream.
struct Scripted {
    alloc: Global,
    kinds: &'static [ErrorKind],
}

impl Drop for Scripted {
    fn drop(self) {
        let Scripted { alloc: _, kinds: _ } = self;
    }
}

impl Scripted {
    fn new(alloc: Global, kinds: &'static [ErrorKind]) -> Scripted {
        Scripted { alloc, kinds }
    }

    fn next(&mut self) -> io::Result<MemoryStream> {
        match self.kinds {
            [] => Ok(stream(self.alloc, b"reply", &[])?),
            [kind, rest @ ..] => {
                let kind = *kind;
                self.kinds = rest;
                Err(kind.into())
            }
        }
    }
}

impl Connector for Scripted {
    type Stream = MemoryStream;

    fn connect(&mut self, _authority: &str) -> io::Result<MemoryStream> {
        self.next()
    }
}

impl Listener for Scripted {
    type Stream = MemoryStream;

    fn take(&mut self) -> io::Result<(MemoryStream, IpAddr)> {
        Ok((self.next()?, IpAddr::V4(Ipv4Addr::new(10, 0, 0, 9))))
    }

    fn part(&mut self, _stream: MemoryStream) {}

    fn pause(&self) {}
}

impl Binder for Scripted {
    type Listener = Scripted;

    fn bind(&mut self, _alloc: Global, _address: &str) -> io::Result<Scripted> {
        Ok(Scripted::new(self.alloc, self.kinds))
    }

    fn another(&mut self, listener: &Scripted) -> io::Result<Scripted> {
        Ok(Scripted::new(listener.alloc, listener.kinds))
    }
}

static INTERRUPTED: [ErrorKind; 2] = [ErrorKind::Interrupted; 2];

static REFUSED: [ErrorKind; 1] = [ErrorKind::ConnectionRefused];

// A steady time in seconds.
struct Hand<'a>(&'a Cell<u64>);

impl Drop for Hand<'_> {
    fn drop(self) {
        let Hand(_) = self;
    }
}

impl SystemTimes for Hand<'_> {
    fn monotonic(&self) -> io::Result<Duration> {
        Ok(Duration::from_secs(self.0.get()))
    }

    fn since_1970(&self) -> io::Result<Duration> {
        Err(ErrorKind::Other.into())
    }
}

// A link whose peers rest for five seconds.
fn link<'a>(
    alloc: Global,
    kinds: &'static [ErrorKind],
    hand: &'a Cell<u64>,
) -> SocketLink<Scripted, Hand<'a>> {
    let connector = Scripted::new(alloc, kinds);
    SocketLink::new(alloc, connector, Hand(hand), Duration::from_secs(5))
}

fn is_answered<L: Link>(link: &mut L, alloc: Global, authority: &str) -> bool {
    link.ask(alloc, authority, b"request").is_ok()
}

// Whether the first call is answered, and how many calls failed.
fn first_ask(alloc: Global, kinds: &'static [ErrorKind]) -> (bool, u64) {
    let hand = Cell::new(0);
    let mut link = link(alloc, kinds, &hand);
    let answered = is_answered(&mut link, alloc, "b");
    (answered, link.faults())
}

#[test]
fn a_link_is_interrupted(rt: HostRuntime) -> Result<(), Fail> {
    let alloc = rt.alloc();
    assert_eq!(rt; first_ask(alloc, &INTERRUPTED), (true, 0));
    assert_eq!(rt; first_ask(alloc, &REFUSED), (false, 1));
    Ok(())
}

// The connector would give a connection from its second call on, but isn't called for the peer that rests.
#[test]
fn a_peer_that_rests(rt: HostRuntime) -> Result<(), Fail> {
    let alloc = rt.alloc();
    let hand = Cell::new(10);
    let mut link = link(alloc, &REFUSED, &hand);
    assert!(rt; !is_answered(&mut link, alloc, "b") && link.faults() == 1);
    assert!(rt; !is_answered(&mut link, alloc, "b") && link.faults() == 2);
    assert!(rt; is_answered(&mut link, alloc, "c") && link.faults() == 2);
    hand.set(14);
    assert!(rt; !is_answered(&mut link, alloc, "b") && link.faults() == 3);
    hand.set(15);
    assert!(rt; is_answered(&mut link, alloc, "b") && link.faults() == 3);
    Ok(())
}

static ALL_REFUSED: [ErrorKind; 65] = [ErrorKind::ConnectionRefused; 65];

// Of 65 peers that fail the first one doesn't rest any more.
#[test]
fn peers_that_rest(rt: HostRuntime) -> Result<(), Fail> {
    let alloc = rt.alloc();
    let hand = Cell::new(0);
    let mut link = link(alloc, &ALL_REFUSED, &hand);
    for number in 0..65u64 {
        let authority = format!(in alloc; "peer{number}")?;
        assert!(rt;
            !is_answered(&mut link, alloc, authority.as_str()),
            "{number}"
        );
    }
    assert!(rt; is_answered(&mut link, alloc, "peer0"));
    assert!(rt; !is_answered(&mut link, alloc, "peer1"));
    assert_eq!(rt; link.faults(), 66);
    Ok(())
}

static HARMLESS: [ErrorKind; 3] = [
    ErrorKind::WouldBlock,
    ErrorKind::ConnectionAborted,
    ErrorKind::Interrupted,
];

static BROKEN: [ErrorKind; 1] = [ErrorKind::Other];

// As many errors in a row as say that a listener is gone, and one more.
static ENDLESS: [ErrorKind; 1_001] = [ErrorKind::Other; 1_001];

// One letter for each of the first answers of a door.
fn letter<D: Door>(door: &mut D, alloc: Global) -> u8 {
    match door.accept(alloc) {
        Accepted::Stream(stream, address) => {
            door.done(stream);
            if address.is("10.0.0.9") { b's' } else { b'?' }
        }
        Accepted::Nobody => b'n',
        Accepted::Closed => b'c',
        Accepted::Failed => b'f',
        Accepted::Memory => b'm',
    }
}

fn letters<P: Porch>(porch: &mut P, alloc: Global) -> [u8; 4] {
    let mut letters = [0; 4];
    if let Ok(mut doors) = porch.open(alloc, "any", 1, Some(1)) {
        for door in doors.iter_mut() {
            for place in letters.iter_mut() {
                *place = letter(door, alloc);
            }
        }
        porch.shut(doors);
    }
    letters
}

// How many streams the door gives before it is closed.
fn count_streams<D: Door>(door: &mut D, alloc: Global) -> u64 {
    let mut count = 0u64;
    for _ in 0..9 {
        if letter(door, alloc) == b's' {
            count = count.saturating_add(1);
        }
    }
    count
}

static READY: [ErrorKind; 0] = [];

// How many streams each of four doors gives, where together they give so many.
fn shares(alloc: Global, most: u64) -> [u64; 4] {
    let mut shares = [0; 4];
    let mut porch = SocketPorch::new(Scripted::new(alloc, &READY));
    if let Ok(mut doors) = porch.open(alloc, "any", 4, Some(most)) {
        for (share, door) in shares.iter_mut().zip(doors.iter_mut()) {
            *share = count_streams(door, alloc);
        }
        porch.shut(doors);
    }
    shares
}

#[test]
fn doors_share_connections(rt: HostRuntime) -> Result<(), Fail> {
    let alloc = rt.alloc();
    assert!(rt; shares(alloc, 6) == [2, 2, 1, 1]);
    assert!(rt; shares(alloc, 3) == [1, 1, 1, 0]);
    assert!(rt; shares(alloc, 8) == [2; 4]);
    Ok(())
}

// Nobody waits, a client breaks its connection, a signal interrupts, a connection comes.
#[test]
fn errors_at_a_door(rt: HostRuntime) -> Result<(), Fail> {
    let alloc = rt.alloc();
    let mut no_fault = SocketPorch::new(Scripted::new(alloc, &HARMLESS));
    assert!(rt; letters(&mut no_fault, alloc) == *b"nnsc" && no_fault.faults() == 0);
    let mut broken = SocketPorch::new(Scripted::new(alloc, &BROKEN));
    assert!(rt; letters(&mut broken, alloc) == *b"nscc" && broken.faults() == 0);
    Ok(())
}

// How many accepts of so many failed.
fn count_failures<D: Door>(door: &mut D, alloc: Global, accepts: u32) -> u64 {
    let mut count = 0u64;
    for _ in 0..accepts {
        if letter(door, alloc) == b'f' {
            count = count.saturating_add(1);
        }
    }
    count
}

// A door fails only where its listener seems to be gone, and counts each error before that, too.
#[test]
fn errors_in_a_row(rt: HostRuntime) -> Result<(), Fail> {
    let alloc = rt.alloc();
    let mut porch = SocketPorch::new(Scripted::new(alloc, &ENDLESS));
    let Ok(mut doors) = porch.open(alloc, "any", 1, None) else {
        return Err("open".into());
    };
    for door in doors.iter_mut() {
        assert_eq!(rt; count_failures(door, alloc, MOST_IN_A_ROW - 1), 0);
        assert_eq!(rt; (door.hitches(), door.faults()), (999, 0));
        assert_eq!(rt; count_failures(door, alloc, 3), 2);
        assert_eq!(rt; (door.hitches(), door.faults()), (1_001, 2));
    }
    porch.shut(doors);
    assert_eq!(rt; porch.faults(), 1);
    Ok(())
}
