//! Tests of what no clause says: that calls succeed with ample memory, and that generic code over the traits is served.
ghost use Rattle.std.specs.Prelude.{IfOk, All};
ghost use Rattle.ps_doors.specs.Archiver.{HasLength};
ghost use Rattle.ps_doors.specs.Door.{HasShortAddress};

use ps_doors::archiver::{Archiver, Attempt, Tried};
use ps_doors::clock::Clock;
use ps_doors::door::{Accepted, Door};
use ps_doors::fixed_clock::FixedClock;
use ps_doors::link::{Asked, Link, LinkFault};
use ps_doors::memory_archiver::MemoryArchiver;
use ps_doors::memory_door::MemoryDoor;
use ps_doors::memory_link::MemoryLink;
use ps_doors::memory_porch::MemoryPorch;
use ps_doors::porch::{Porch, PorchFault};
use ps_ports::memory_stream::MemoryStream;
use ps_ports::sink::Sink;
use ps_ports::source::Source;
use ps_time::items::Items;
use ps_time::key::RunKey;
use ps_time::memory::Memory;
use ps_time::text::Text;
use std::alloc::{AllocError, Global};
use std::test::Fail;

#[test]
fn a_fixed_clock_stands_still(rt: HostRuntime) -> Result<(), Fail> {
    let clock = FixedClock::new(1_000);
    clock.pause();
    assert_eq!(rt; (clock.now(), clock.now()), (1_000, 1_000));
    Ok(())
}

static KEY: RunKey = RunKey {
    lead: 1,
    task: 2,
    number: 3,
    attempt: 0,
};

fn failed(alloc: Global) -> Result<Tried, Memory>
    ensures { IfOk result HasLength }
{
    Ok(Tried::Failed {
        error: Text::new(alloc, "full")?,
        retry: Some(60),
    })
}

// One attempt fails and asks for a wait, and the next finds no memory.
fn archiver(alloc: Global) -> Result<MemoryArchiver, Memory> {
    let mut outcomes = Vec::with_capacity(alloc, 2)?;
    outcomes.push(failed(alloc)?)?;
    outcomes.push(Tried::Memory)?;
    Ok(MemoryArchiver::new(alloc, Text::new(alloc, "keeper")?, outcomes))
}

fn is_failed(tried: &Tried) -> bool {
    match tried {
        Tried::Failed { error, retry } => error.is("full") && *retry == Some(60),
        _ => false,
    }
}

fn is_attempt(made: &Attempt, tried: u32) -> bool {
    made.key == KEY && made.tried == tried && made.settings.is("{}") && made.merged.is("[1]")
}

// Whether these are the outcomes of the attempts, in this order.
fn are_outcomes(attempts: &[Attempt]) -> bool {
    attempts.len() == 3
        && is_failed(&attempts[0].outcome)
        && matches!(&attempts[1].outcome, Tried::Memory)
        && matches!(&attempts[2].outcome, Tried::Succeeded)
}

fn try_once<A: Archiver>(archiver: &mut A, alloc: Global, tried: u32) -> Tried {
    archiver.attempt(alloc, KEY, tried, "{}", "[1]")
}

#[test]
fn an_archiver_gives_its_outcomes(rt: HostRuntime) -> Result<(), Fail> {
    let alloc = rt.alloc();
    let mut archiver = archiver(alloc).map_err(|_| "memory")?;
    assert!(rt; archiver.name() == "keeper");
    assert!(rt; is_failed(&try_once(&mut archiver, alloc, 0)));
    assert!(rt; matches!(&try_once(&mut archiver, alloc, 1), Tried::Memory));
    assert!(rt; matches!(&try_once(&mut archiver, alloc, 2), Tried::Succeeded));
    let attempts = archiver.attempts();
    assert!(rt; are_outcomes(attempts) && !archiver.starved());
    assert!(rt; attempts.len() == 3 && is_attempt(&attempts[0], 0) && is_attempt(&attempts[2], 2));
    Ok(())
}

// Two replies, and the second call is to fail.
fn link(alloc: Global) -> Result<MemoryLink, AllocError> {
    let mut replies = Vec::with_capacity(alloc, 2)?;
    replies.push(b"one".to_vec(alloc)?)?;
    replies.push(b"two".to_vec(alloc)?)?;
    let failing = [2].to_vec(alloc)?;
    Ok(MemoryLink::new(alloc, replies, failing))
}

fn is_answered<L: Link>(link: &mut L, alloc: Global, wanted: &[u8]) -> bool {
    match link.ask(alloc, "b:80", b"ask") {
        Ok(reply) => reply.as_slice() == wanted,
        Err(_) => false,
    }
}

fn is_refused<L: Link>(link: &mut L, alloc: Global) -> bool {
    match link.ask(alloc, "b:80", b"ask") {
        Ok(_) => false,
        Err(fault) => fault == LinkFault::Failed,
    }
}

fn is_pair(asked: &Asked, wanted: &[u8]) -> bool {
    let answered = match &asked.answer {
        Ok(reply) => reply.as_slice() == wanted,
        Err(_) => wanted.is_empty(),
    };
    answered && asked.authority.is("b:80") && asked.request.as_slice() == b"ask".as_slice()
}

fn are_pairs(asked: &[Asked], wanted: &[&[u8]]) -> bool {
    asked.len() == wanted.len()
        && asked
            .iter()
            .zip(wanted.iter())
            .all(|(pair, answer)| is_pair(pair, answer))
}

static ANSWERS: [&[u8]; 4] = [b"one", b"", b"two", b""];

#[test]
fn a_link_gives_its_replies(rt: HostRuntime) -> Result<(), Fail> {
    let alloc = rt.alloc();
    let mut link = link(alloc)?;
    assert!(rt; is_answered(&mut link, alloc, b"one"));
    assert!(rt; is_refused(&mut link, alloc) && link.faults() == 1);
    assert!(rt; is_answered(&mut link, alloc, b"two"));
    assert!(rt; is_refused(&mut link, alloc) && link.faults() == 2);
    assert!(rt; are_pairs(link.asked(), &ANSWERS) && !link.starved());
    Ok(())
}

type Guests = Vec<(MemoryStream, Text)>;

// A stream for each of these bytes, which holds that one byte.
fn guests(alloc: Global, bytes: &[u8]) -> Result<Guests, Memory>
    ensures { IfOk result (λ guests. All HasShortAddress guests.items) }
{
    let mut guests = Vec::new(alloc);
    for byte in bytes {
        let guest = guest_with(alloc, *byte)?;
        guests.push(guest)?;
    }
    Ok(guests)
}

fn guest_with(alloc: Global, byte: u8) -> Result<(MemoryStream, Text), Memory>
    ensures { IfOk result HasShortAddress }
{
    let held = [byte].to_vec(alloc)?;
    let stream = MemoryStream::new(alloc, held, Vec::new(alloc));
    Ok((stream, Text::new(alloc, "10.0.0.9")?))
}

// Takes a stream, writes back the byte that it holds, gives it back, and answers the byte.
fn serve_one<D: Door>(door: &mut D, alloc: Global) -> Option<u8> {
    match door.accept(alloc) {
        Accepted::Stream(mut stream, address) => {
            let mut buf = [0];
            let served = stream.read(&mut buf).is_ok() && stream.write(&buf).is_ok();
            door.done(stream);
            if served && address.is("10.0.0.9") {
                Some(buf[0])
            } else {
                None
            }
        }
        _ => None,
    }
}

fn is_closed<D: Door>(door: &mut D, alloc: Global) -> bool {
    matches!(door.accept(alloc), Accepted::Closed)
}

fn is_written(streams: &[MemoryStream], wanted: &[u8]) -> bool {
    streams.len() == wanted.len()
        && streams
            .iter()
            .zip(wanted.iter())
            .all(|(stream, byte)| stream.written() == [*byte].as_slice())
}

fn may_move_to_a_thread<T: Send>(value: T) -> T {
    value
}

// The second accept fails and leaves its stream at the door.
#[test]
fn a_door_gives_its_streams(rt: HostRuntime) -> Result<(), Fail> {
    let alloc = rt.alloc();
    let failing = [2].to_vec(alloc)?;
    let waiting = guests(alloc, b"abc").map_err(|_| "memory")?;
    let mut door = may_move_to_a_thread(MemoryDoor::new(alloc, waiting, failing));
    assert_eq!(rt; serve_one(&mut door, alloc), Some(b'a'));
    assert_eq!(rt; (serve_one(&mut door, alloc), door.faults()), (None, 1));
    assert_eq!(rt; serve_one(&mut door, alloc), Some(b'b'));
    assert_eq!(rt; serve_one(&mut door, alloc), Some(b'c'));
    assert!(rt; is_closed(&mut door, alloc) && is_closed(&mut door, alloc));
    assert!(rt; is_written(door.returned(), b"abc") && door.faults() == 1);
    Ok(())
}

// The bytes that the doors served, door by door.
fn serve_all<P: Porch>(
    porch: &mut P,
    alloc: Global,
    most: Option<u64>,
    served: &mut Vec<u8>,
) -> Result<bool, PorchFault> {
    let mut doors = porch.open(alloc, "any", 2, most)?;
    for door in doors.iter_mut() {
        serve_door(door, alloc, served);
    }
    porch.shut(doors);
    Ok(true)
}

fn serve_door<D: Door>(door: &mut D, alloc: Global, served: &mut Vec<u8>) {
    for _ in 0..9 {
        if let Some(byte) = serve_one(door, alloc) {
            let _ = served.push(byte);
        }
    }
}

fn is_failure(answer: Result<bool, PorchFault>) -> bool {
    answer == Err(PorchFault::Failed)
}

// The first opening gets three streams, the second is to fail, the third gets what is left.
#[test]
fn a_porch_deals_its_streams(rt: HostRuntime) -> Result<(), Fail> {
    let alloc = rt.alloc();
    let waiting = guests(alloc, b"abcde").map_err(|_| "memory")?;
    let failing = [2].to_vec(alloc)?;
    let mut porch = MemoryPorch::new(alloc, waiting, failing);
    let mut served = Vec::new(alloc);
    assert!(rt; serve_all(&mut porch, alloc, Some(3), &mut served).is_ok());
    assert!(rt; served.as_slice() == b"acb".as_slice());
    assert!(rt; is_failure(serve_all(&mut porch, alloc, None, &mut served)) && porch.faults() == 1);
    assert!(rt; serve_all(&mut porch, alloc, None, &mut served).is_ok());
    assert!(rt; served.as_slice() == b"acbde".as_slice());
    let shut: Option<&Items<MemoryDoor>> = porch.shut_doors().first();
    assert!(rt; porch.shut_doors().len() == 2 && shut.is_some() && porch.faults() == 1);
    Ok(())
}
