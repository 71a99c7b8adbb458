//! Tests of doors over sockets of this machine. Most waits are short here; the program's are longer.
ghost use Rattle.std.specs.Prelude.{OnSome};

use ps_doors::clock::Clock;
use ps_doors::door::{Accepted, Door};
use ps_doors::porch::Porch;
use ps_ports::sink::Sink;
use ps_ports::source::Source;
use ps_sockets::listener::TcpBinder;
use ps_sockets::socket_porch::SocketPorch;
use ps_sockets::system_clock::SystemClock;
use ps_sockets::waits::Waits;
use std::alloc::Global;
use std::io::{ErrorKind, Read, Write};
use std::net::{Shutdown, TcpListener, TcpStream};
use std::test::Fail;
use std::thread::Threads;
use std::time::{Duration, Instant};
use std::{io, thread};

// How long a door pauses, in milliseconds.
const PAUSE: u64 = 2;

// How often a door is asked while nobody has come: twenty seconds in all.
const LOOKS: u32 = 10_000;

// What makes a head whole.
const HEAD: &[u8] = b"1\n\n";

// An address of this machine at which nobody listens.
pub fn free_address(rt: &HostRuntime) -> io::Result<String> {
    let listener = TcpListener::bind(rt, "127.0.0.1:0")?;
    let port = listener.local_addr()?.port();
    Ok(format!(in rt.alloc(); "127.0.0.1:{port}")?)
}

// The next stream at the door, where one comes.
fn wait_for<D: Door>(door: &mut D, alloc: Global) -> Option<D::Stream>
    ensures { OnSome result (D.is_out door.new) }
{
    for _ in 0..LOOKS {
        match door.accept(alloc) {
            Accepted::Stream(stream, address) => {
                return if address.is("127.0.0.1") {
                    Some(stream)
                } else {
                    None
                };
            }
            Accepted::Nobody => {}
            _ => return None,
        }
    }
    None
}

// Reads once, writes back what came, and gives the stream back; the bytes that came, or none after a fault.
fn echo<D: Door>(door: &mut D, alloc: Global) -> Option<usize> {
    let mut stream = wait_for(door, alloc)?;
    let mut buf = [0; 8];
    let answer = stream.read(&mut buf);
    let count = match answer {
        Ok(count) => {
            let _ = stream.write(&buf[..count]);
            Some(count)
        }
        Err(_) => None,
    };
    door.done(stream);
    count
}

fn connect_and_send(rt: &HostRuntime, address: &str, bytes: &[u8]) -> io::Result<TcpStream> {
    let mut client = TcpStream::connect(rt, address)?;
    client.set_read_timeout(Some(Duration::from_secs(20)))?;
    client.write_all(bytes)?;
    Ok(client)
}

// Whether the client gets this one byte back.
fn is_echoed(client: &mut TcpStream, wanted: u8) -> bool {
    let mut buf = [0; 1];
    client.read_exact(&mut buf).is_ok() && buf[0] == wanted
}

fn end_writing(clients: &[&TcpStream]) -> io::Result<()> {
    for client in clients {
        client.shutdown(Shutdown::Write)?;
    }
    Ok(())
}

fn may_move_to_a_thread<T: Send>(value: T) -> T {
    value
}

// Each door takes its one connection, and then is closed.
fn serve_each<P: Porch>(porch: &mut P, alloc: Global, doors: Vec<P::Door>) -> bool
    requires { P.is_open porch.old }
{
    let mut doors = may_move_to_a_thread(doors);
    let mut served = true;
    for door in doors.iter_mut() {
        served = serve_last(door, alloc) && served;
    }
    porch.shut(doors);
    served
}

fn serve_last<D: Door>(door: &mut D, alloc: Global) -> bool {
    echo(door, alloc) == Some(3) && matches!(door.accept(alloc), Accepted::Closed)
}

#[test]
fn four_doors_take_four_connections(rt: HostRuntime) -> Result<(), Fail> {
    let alloc = rt.alloc();
    let address = free_address(&rt)?;
    let clock = SystemClock::new(&rt, Duration::from_millis(PAUSE));
    let mut porch = SocketPorch::new(TcpBinder::new(&rt, &clock, Waits::of_program()));
    let doors = porch
        .open(alloc, address.as_str(), 4, Some(4))
        .map_err(|_| "listen")?;
    let mut one = connect_and_send(&rt, address.as_str(), b"1\n\n")?;
    let mut two = connect_and_send(&rt, address.as_str(), b"2\n\n")?;
    let mut three = connect_and_send(&rt, address.as_str(), b"3\n\n")?;
    let mut four = connect_and_send(&rt, address.as_str(), b"4\n\n")?;
    end_writing(&[&one, &two, &three, &four])?;
    assert!(rt; serve_each(&mut porch, alloc, doors));
    assert!(rt; is_echoed(&mut one, b'1') && is_echoed(&mut two, b'2'));
    assert!(rt; is_echoed(&mut three, b'3') && is_echoed(&mut four, b'4'));
    assert_eq!(rt; porch.faults(), 0);
    Ok(())
}

// The waits of the program, with another one for heads.
fn waits_for_heads(head: Duration) -> Waits {
    Waits {
        head,
        ..Waits::of_program()
    }
}

// What one connection gives at the first door: the count of the bytes that were read, or none.
fn echo_at_first<P: Porch>(porch: &mut P, alloc: Global, mut doors: Vec<P::Door>) -> Option<usize>
    requires { P.is_open porch.old }
{
    let count = match doors.first_mut() {
        Some(door) => echo(door, alloc),
        None => None,
    };
    porch.shut(doors);
    count
}

// A client that sends nothing, one that ends its side at once, and one that sends no whole head: none of them is given,
// and each connection is ended before the doors are shut.
#[test]
fn connections_without_a_head(rt: HostRuntime) -> Result<(), Fail> {
    let alloc = rt.alloc();
    let address = free_address(&rt)?;
    let clock = SystemClock::new(&rt, Duration::from_millis(PAUSE));
    let waits = waits_for_heads(Duration::from_millis(100));
    let mut porch = SocketPorch::new(TcpBinder::new(&rt, &clock, waits));
    let mut doors = porch
        .open(alloc, address.as_str(), 1, None)
        .map_err(|_| "listen")?;
    let mut silent = connect_and_send(&rt, address.as_str(), b"")?;
    let mut slow = connect_and_send(&rt, address.as_str(), b"GET /")?;
    drop(connect_and_send(&rt, address.as_str(), b"")?);
    for door in doors.iter_mut() {
        assert_eq!(rt; count_given(door, alloc, 200), 0);
    }
    assert!(rt; is_at_end(&mut silent) && is_at_end(&mut slow));
    porch.shut(doors);
    assert_eq!(rt; porch.faults(), 0);
    Ok(())
}

// How many connections so many accepts give.
fn count_given<D: Door>(door: &mut D, alloc: Global, accepts: u32) -> u64 {
    let mut count = 0u64;
    for _ in 0..accepts {
        if let Accepted::Stream(stream, _) = door.accept(alloc) {
            door.done(stream);
            count = count.saturating_add(1);
        }
    }
    count
}

// Whether the other end has let the connection go. Where bytes weren't read, that is a reset.
fn is_at_end(client: &mut TcpStream) -> bool {
    let mut buf = [0; 8];
    match client.read(&mut buf) {
        Ok(count) => count == 0,
        Err(fault) => fault.kind() == ErrorKind::ConnectionReset,
    }
}

// A hundred clients are silent, and another hundred have sent a part of their heads; one that comes then is served
// within a second, by a door that is only one of four.
#[test]
fn silent_clients_keep_nobody_waiting(rt: HostRuntime) -> Result<(), Fail> {
    let alloc = rt.alloc();
    let address = free_address(&rt)?;
    let clock = SystemClock::new(&rt, Duration::from_millis(PAUSE));
    let waits = Waits {
        parting: Duration::from_millis(10),
        ..Waits::of_program()
    };
    let mut porch = SocketPorch::new(TcpBinder::new(&rt, &clock, waits));
    let mut doors = porch
        .open(alloc, address.as_str(), 4, None)
        .map_err(|_| "listen")?;
    let mut others = Vec::new(alloc);
    for _ in 0..100u32 {
        others.push(connect_and_send(&rt, address.as_str(), b"")?)?;
        others.push(connect_and_send(&rt, address.as_str(), b"GET / HTTP/1.1\r\n")?)?;
        for door in doors.iter_mut() {
            assert_eq!(rt; count_given(door, alloc, 1), 0);
        }
    }
    let start = Instant::now(&rt)?;
    let mut client = connect_and_send(&rt, address.as_str(), HEAD)?;
    assert_eq!(rt; echo_at_first(&mut porch, alloc, doors), Some(3));
    assert!(rt; is_echoed(&mut client, b'1'));
    assert!(rt; start.elapsed(&rt)? < Duration::from_secs(1));
    drop(others);
    Ok(())
}

// Sends a head, and then five bytes, each a little later than the one before.
fn send_slowly(rt: &HostRuntime, address: &str) -> io::Result<()> {
    let mut client = connect_and_send(rt, address, HEAD)?;
    for byte in b"slow!" {
        thread::sleep(rt, Duration::from_millis(300));
        if client.write_all(&[*byte]).is_err() {
            return Ok(());
        }
    }
    Ok(())
}

// How many bytes come until the end of the input.
fn count_left<S: Source>(source: &mut S) -> Option<usize> {
    let mut buf = [0; 8];
    let mut total = 0usize;
    for _ in 0..9 {
        match source.read(&mut buf) {
            Ok(0) => return Some(total),
            Ok(count) => total = total.saturating_add(count),
            Err(_) => return None,
        }
    }
    None
}

fn count_bytes<D: Door>(door: &mut D, alloc: Global) -> Option<usize> {
    let mut stream = wait_for(door, alloc)?;
    let count = count_left(&mut stream);
    door.done(stream);
    count
}

fn count_at_first<P: Porch>(porch: &mut P, alloc: Global, mut doors: Vec<P::Door>) -> Option<usize>
    requires { P.is_open porch.old }
{
    let count = match doors.first_mut() {
        Some(door) => count_bytes(door, alloc),
        None => None,
    };
    porch.shut(doors);
    count
}

// How many bytes of a slow client are read where its message may take so long.
fn slow_count(
    threads: &impl Threads,
    rt: &HostRuntime,
    message: Duration,
) -> Result<Option<usize>, Fail> {
    let alloc = rt.alloc();
    let address = free_address(rt)?;
    let clock = SystemClock::new(rt, Duration::from_millis(PAUSE));
    let waits = Waits {
        message,
        ..Waits::of_program()
    };
    let mut porch = SocketPorch::new(TcpBinder::new(rt, &clock, waits));
    let doors = porch
        .open(alloc, address.as_str(), 1, None)
        .map_err(|_| "listen")?;
    let (sent, counted) = thread::join(
        threads,
        || send_slowly(rt, address.as_str()),
        || count_at_first(&mut porch, alloc, doors),
    );
    sent?;
    Ok(counted)
}

// Each byte comes long before a read would be given up, but all of them together may take too long.
#[test]
fn a_slow_client(rt: HostRuntime) -> Result<(), Fail> {
    assert_eq!(rt; slow_count(&rt, &rt, Duration::from_secs(20))?, Some(8));
    assert_eq!(rt; slow_count(&rt, &rt, Duration::from_millis(700))?, None);
    Ok(())
}

static PIECE: [u8; 1_000] = [7; 1_000];

// Sends a head, goes on sending for a while, and then reads what comes back. Where the other end has closed the
// connection, a write fails.
fn send_on(rt: &HostRuntime, address: &str) -> io::Result<bool> {
    let mut client = connect_and_send(rt, address, HEAD)?;
    for _ in 0..20u32 {
        thread::sleep(rt, Duration::from_millis(20));
        client.write_all(&PIECE)?;
    }
    Ok(is_echoed(&mut client, b'1'))
}

// The answer to a client that is still sending reaches it, though its body isn't read before the connection is given
// back.
#[test]
fn an_early_answer(rt: HostRuntime) -> Result<(), Fail> {
    let alloc = rt.alloc();
    let address = free_address(&rt)?;
    let clock = SystemClock::new(&rt, Duration::from_millis(PAUSE));
    let mut porch = SocketPorch::new(TcpBinder::new(&rt, &clock, Waits::of_program()));
    let doors = porch
        .open(alloc, address.as_str(), 1, None)
        .map_err(|_| "listen")?;
    let (sent, echoed) = thread::join(
        &rt,
        || send_on(&rt, address.as_str()),
        || echo_at_first(&mut porch, alloc, doors),
    );
    assert!(rt; sent?);
    assert!(rt; echoed.is_some());
    Ok(())
}
