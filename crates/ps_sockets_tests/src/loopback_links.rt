//! Tests of links over sockets of this machine. Waits are short here; the program's are longer.
use crate::loopback::free_address;
use ps_doors::link::{Link, LinkFault, MOST_REPLY};
use ps_sockets::connector::TcpConnector;
use ps_sockets::socket_link::SocketLink;
use ps_sockets::waits::LinkWaits;
use std::alloc::Global;
use std::io::{Read, Write};
use std::net::{TcpListener, TcpStream};
use std::test::Fail;
use std::thread::Threads;
use std::time::{Duration, Instant};
use std::{io, thread};

// A link with these waits for a connection and a question, of which each peer rests for a minute.
fn link<'a>(
    rt: &'a HostRuntime,
    connect: Duration,
    question: Duration,
) -> SocketLink<TcpConnector<'a, HostRuntime>, &'a HostRuntime> {
    let waits = LinkWaits {
        connect,
        question,
        rest: Duration::from_secs(60),
    };
    SocketLink::new(rt.alloc(), TcpConnector::new(rt, waits), rt, waits.rest)
}

// Whether the link fails.
fn fails<L: Link>(link: &mut L, alloc: Global, authority: &str) -> bool {
    matches!(
        link.ask(alloc, authority, b"request"),
        Err(LinkFault::Failed)
    )
}

// Nobody listens; a listener never answers; a name has no address.
#[test]
fn links_without_a_reply(rt: HostRuntime) -> Result<(), Fail> {
    let alloc = rt.alloc();
    let address = free_address(&rt)?;
    let wait = Duration::from_millis(300);
    let mut link = link(&rt, wait, wait);
    assert!(rt; fails(&mut link, alloc, address.as_str()) && link.faults() == 1);
    let silent = TcpListener::bind(&rt, "127.0.0.1:0")?;
    let port = silent.local_addr()?.port();
    let authority = format!(in alloc; "127.0.0.1:{port}")?;
    assert!(rt; fails(&mut link, alloc, authority.as_str()) && link.faults() == 2);
    assert!(rt; fails(&mut link, alloc, "no host:80") && link.faults() == 3);
    Ok(())
}

// Fills the queue of a listener that accepts nobody, until a connection isn't made in time.
fn fill(rt: &HostRuntime, listener: &TcpListener) -> io::Result<Vec<TcpStream>> {
    let mut clients = Vec::new(rt.alloc());
    for _ in 0..300u32 {
        match TcpStream::connect_timeout(rt, &listener.local_addr()?, Duration::from_millis(200)) {
            Ok(client) => clients.push(client)?,
            Err(_) => return Ok(clients),
        }
    }
    Ok(clients)
}

// A peer that answers no connection costs one wait, and then nothing.
#[test]
fn a_peer_that_drops_packets(rt: HostRuntime) -> Result<(), Fail> {
    let alloc = rt.alloc();
    let listener = TcpListener::bind(&rt, "127.0.0.1:0")?;
    let clients = fill(&rt, &listener)?;
    assert!(rt; clients.len() < 300);
    let port = listener.local_addr()?.port();
    let authority = format!(in alloc; "127.0.0.1:{port}")?;
    let waits = LinkWaits::of_program();
    let mut link = link(&rt, waits.connect, waits.question);
    let start = Instant::now(&rt)?;
    assert!(rt; fails(&mut link, alloc, authority.as_str()));
    let once = start.elapsed(&rt)?;
    assert!(rt; once > Duration::from_secs(2) && once < Duration::from_secs(5));
    assert!(rt; fails(&mut link, alloc, authority.as_str()));
    assert!(rt; start.elapsed(&rt)?.saturating_sub(once) < Duration::from_secs(1));
    assert_eq!(rt; link.faults(), 2);
    Ok(())
}

// Sends a byte every now and then, as long as the peer takes it.
fn trickle(rt: &HostRuntime, listener: &TcpListener) -> io::Result<()> {
    let (mut stream, _) = listener.accept()?;
    for _ in 0..50u32 {
        thread::sleep(rt, Duration::from_millis(100));
        if stream.write_all(b"x").is_err() {
            return Ok(());
        }
    }
    Ok(())
}

// Each byte of the reply comes in time, but all of them together would take five seconds.
#[test]
fn a_reply_that_trickles(rt: HostRuntime) -> Result<(), Fail> {
    let alloc = rt.alloc();
    let listener = TcpListener::bind(&rt, "127.0.0.1:0")?;
    let port = listener.local_addr()?.port();
    let authority = format!(in alloc; "127.0.0.1:{port}")?;
    let mut link = link(&rt, Duration::from_secs(3), Duration::from_millis(600));
    let start = Instant::now(&rt)?;
    let (sent, failed) = thread::join(
        &rt,
        || trickle(&rt, &listener),
        || fails(&mut link, alloc, authority.as_str()),
    );
    sent?;
    assert!(rt; failed);
    assert!(rt; start.elapsed(&rt)? < Duration::from_secs(3));
    Ok(())
}

// Answers one request by so many pieces.
fn answer(listener: &TcpListener, piece: &[u8], pieces: u32) -> io::Result<()> {
    let (mut stream, _) = listener.accept()?;
    let mut buf = [0; 16];
    let _ = stream.read(&mut buf)?;
    for _ in 0..pieces {
        if stream.write_all(piece).is_err() {
            return Ok(());
        }
    }
    Ok(())
}

fn reply_length<L: Link>(link: &mut L, alloc: Global, authority: &str) -> Option<usize> {
    match link.ask(alloc, authority, b"request") {
        Ok(reply) => Some(reply.len()),
        Err(_) => None,
    }
}

static PIECE: [u8; 65_536] = [7; 65_536];

// The length of the reply that so many pieces make.
fn asked_length<R: Threads, L: Link + Send>(
    rt: &R,
    alloc: Global,
    listener: &TcpListener,
    link: &mut L,
    pieces: u32,
) -> io::Result<Option<usize>> {
    let port = listener.local_addr()?.port();
    let authority = format!(in alloc; "localhost:{port}")?;
    let (answered, length) = thread::join(
        rt,
        || answer(listener, &PIECE, pieces),
        || reply_length(link, alloc, authority.as_str()),
    );
    answered?;
    Ok(length)
}

// 513 pieces are more than a reply may have.
#[test]
fn replies_are_read_to_their_end_or_bound(rt: HostRuntime) -> Result<(), Fail> {
    let alloc = rt.alloc();
    let wait = Duration::from_secs(20);
    let listener = TcpListener::bind(&rt, "127.0.0.1:0")?;
    let mut link = link(&rt, wait, wait);
    let short = asked_length(&rt, alloc, &listener, &mut link, 2)?;
    let long = asked_length(&rt, alloc, &listener, &mut link, 513)?;
    assert_eq!(rt; (short, long), (Some(131_072), Some(MOST_REPLY)));
    Ok(())
}
