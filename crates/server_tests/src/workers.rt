//! Tests of what no clause says: that doors are served at once, beside rounds, and that calls end.
ghost use Rattle.std.specs.Prelude.{All, IfOk};
ghost use Rattle.ps_doors.specs.Door.{HasShortAddress};

mod attend;
mod beats;
mod here;
mod token;

use crate::workers::attend::{Echo, Held, Meeting};
use crate::workers::beats::Beats;
use crate::workers::token::Count;
use door_workers::{Attendant, End, Ended, Part, run};
use ps_doors::fixed_clock::FixedClock;
use ps_doors::memory_door::MemoryDoor;
use ps_ports::memory_stream::MemoryStream;
use ps_time::memory::Memory;
use ps_time::text::Text;
use std::alloc::Global;
use std::sync::Wait;
use std::sync::atomic::{AtomicU64, Ordering};
use std::test::Fail;
use std::thread::Threads;

type Guests = Vec<(MemoryStream, Text)>;

type Parts = Vec<Part<MemoryDoor, Count>>;

type Back = Vec<Ended<MemoryDoor, Count>>;

fn guest(alloc: Global, byte: u8) -> Result<(MemoryStream, Text), Memory>
    ensures { IfOk result HasShortAddress }
{
    let held = [byte].to_vec(alloc)?;
    let stream = MemoryStream::new(alloc, held, Vec::new(alloc));
    Ok((stream, Text::new(alloc, "10.0.0.9")?))
}

// A stream for each of these bytes, which holds that one byte.
fn guests(alloc: Global, bytes: &[u8]) -> Result<Guests, Memory>
    ensures { IfOk result (λ guests. All HasShortAddress guests.items) }
{
    let mut guests = Vec::new(alloc);
    for byte in bytes {
        let guest = guest(alloc, *byte)?;
        guests.push(guest)?;
    }
    Ok(guests)
}

// A door with such streams. Its accepts with these numbers fail.
fn part(alloc: Global, bytes: &[u8], failing: &[u64]) -> Result<Part<MemoryDoor, Count>, Memory> {
    let door = MemoryDoor::new(alloc, guests(alloc, bytes)?, failing.to_vec(alloc)?);
    Ok(Part {
        door,
        token: Count::none(),
    })
}

static BYTES: [&[u8]; 4] = [&[1, 2, 3], &[4, 5, 6], &[7, 8, 9], &[10, 11, 12]];

// Four doors of three streams each. The accepts of the third with these numbers fail.
fn four(alloc: Global, failing: &[u64]) -> Result<Parts, Memory> {
    let mut parts = Vec::with_capacity(alloc, 4)?;
    parts.push(part(alloc, BYTES[0], &[])?)?;
    parts.push(part(alloc, BYTES[1], &[])?)?;
    parts.push(part(alloc, BYTES[2], failing)?)?;
    parts.push(part(alloc, BYTES[3], &[])?)?;
    Ok(parts)
}

// Runs the doors, with counted rounds. Answers the doors and the rounds that the caller's token counts.
fn served<R: Wait + Threads + Sync, A: Attendant<MemoryStream, Count> + Sync>(
    rt: &R,
    alloc: Global,
    attendant: &A,
    parts: Parts,
    made: &AtomicU64,
) -> Option<(Back, u64)>
    requires { All (λ p. A.fits attendant.now p.token) parts.items }
{
    let clock = FixedClock::new(0);
    match run(
        rt,
        alloc,
        attendant,
        parts,
        Beats { made },
        Count::none(),
        &clock,
    ) {
        Ok(finished) => Some((finished.doors, finished.own.count)),
        Err(refused) => {
            drop(refused);
            None
        }
    }
}

// Whether each of these streams wrote its byte once, and no more.
fn are_echoed(streams: &[MemoryStream], bytes: &[u8]) -> bool {
    streams.len() == bytes.len()
        && streams
            .iter()
            .zip(bytes.iter())
            .all(|(stream, byte)| stream.written() == [*byte].as_slice())
}

fn has_ended(back: &[Ended<MemoryDoor, Count>], place: usize, end: End, bytes: &[u8]) -> bool {
    match back.get(place) {
        Some(ended) => {
            ended.end == end
                && ended.token.count == bytes.len() as u64
                && are_echoed(ended.door.returned(), bytes)
        }
        None => false,
    }
}

#[test]
fn four_doors_are_served(rt: HostRuntime) -> Result<(), Fail> {
    let alloc = rt.alloc();
    let made = AtomicU64::new(0);
    let parts = four(alloc, &[]).map_err(|_| "memory")?;
    let (back, rounds) = served(&rt, alloc, &Echo {}, parts, &made).ok_or("memory")?;
    assert!(rt; back.len() == 4 && rounds == made.load(Ordering::SeqCst));
    for place in 0..4 {
        assert!(rt;
            has_ended(back.as_slice(), place, End::Closed, BYTES[place]),
            "{place}"
        );
    }
    Ok(())
}

#[test]
fn a_door_fails_and_the_others_go_on(rt: HostRuntime) -> Result<(), Fail> {
    let alloc = rt.alloc();
    let made = AtomicU64::new(0);
    let parts = four(alloc, &[2]).map_err(|_| "memory")?;
    let (back, _) = served(&rt, alloc, &Echo {}, parts, &made).ok_or("memory")?;
    assert!(rt; back.len() == 4);
    assert!(rt; has_ended(back.as_slice(), 0, End::Closed, BYTES[0]));
    assert!(rt; has_ended(back.as_slice(), 1, End::Closed, BYTES[1]));
    assert!(rt; has_ended(back.as_slice(), 2, End::Failed, &[7]));
    assert!(rt; has_ended(back.as_slice(), 3, End::Closed, BYTES[3]));
    Ok(())
}

// Two doors, each with one stream, which is held until the other's was read.
#[test]
fn two_held_streams_meet(rt: HostRuntime) -> Result<(), Fail> {
    let alloc = rt.alloc();
    let made = AtomicU64::new(0);
    let meeting = Meeting {
        first: AtomicU64::new(0),
        second: AtomicU64::new(0),
        missed: AtomicU64::new(0),
    };
    let mut parts = Vec::new(alloc);
    parts
        .push(part(alloc, &[0], &[]).map_err(|_| "memory")?)
        .map_err(|_| "memory")?;
    parts
        .push(part(alloc, &[1], &[]).map_err(|_| "memory")?)
        .map_err(|_| "memory")?;
    let (back, _) = served(&rt, alloc, &meeting, parts, &made).ok_or("memory")?;
    assert!(rt; back.len() == 2 && meeting.missed.load(Ordering::SeqCst) == 0);
    Ok(())
}

// One door, with a stream that is held until a round was made.
#[test]
fn rounds_are_made_beside_a_held_stream(rt: HostRuntime) -> Result<(), Fail> {
    let alloc = rt.alloc();
    let made = AtomicU64::new(0);
    let missed = AtomicU64::new(0);
    let held = Held {
        rounds: &made,
        missed: &missed,
    };
    let mut parts = Vec::new(alloc);
    parts
        .push(part(alloc, &[0], &[]).map_err(|_| "memory")?)
        .map_err(|_| "memory")?;
    let (back, _) = served(&rt, alloc, &held, parts, &made).ok_or("memory")?;
    assert!(rt; back.len() == 1 && missed.load(Ordering::SeqCst) == 0);
    Ok(())
}

#[test]
fn without_doors_there_is_no_round(rt: HostRuntime) -> Result<(), Fail> {
    let alloc = rt.alloc();
    let made = AtomicU64::new(0);
    let (back, rounds) = served(&rt, alloc, &Echo {}, Vec::new(alloc), &made).ok_or("memory")?;
    assert!(rt; back.is_empty() && rounds == 0);
    Ok(())
}
