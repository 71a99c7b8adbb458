//! Doors at the calling thread, as where no thread could be started for them.
use crate::workers::attend::Echo;
use crate::workers::beats::Beats;
use crate::workers::token::Count;
use crate::workers::{BYTES, Back, has_ended, part};
use door_workers::{Board, End, Part, Seat, Served, finish, make_rounds, work_in_thread};
use ps_doors::fixed_clock::FixedClock;
use ps_doors::memory_door::MemoryDoor;
use std::alloc::{AllocError, Global};
use std::sync::Wait;
use std::sync::atomic::AtomicU64;
use std::test::Fail;

type Seats = Vec<Seat<(), MemoryDoor, Count>>;

// Makes rounds over a door at a thread, which has ended already, and two here. Answers how many were made.
fn rounds<R: Wait>(rt: &R, alloc: Global, board: &Board, seats: &mut Seats) -> u64 {
    let made = AtomicU64::new(0);
    let mut beats = Beats { made: &made };
    let mut own = Count::none();
    let clock = FixedClock::new(0);
    make_rounds(
        rt,
        alloc,
        &Echo {},
        seats.as_mut_slice(),
        &mut beats,
        &mut own,
        &clock,
        board,
        3,
    );
    own.count
}

// The doors that are here, when they have ended.
fn ended<R: Wait>(rt: &R, alloc: Global, seats: Seats) -> Result<Back, AllocError> {
    let clock = FixedClock::new(0);
    let mut back = Vec::new(alloc);
    for seat in seats {
        if let Seat::Here(served) = seat {
            back.push(finish(rt, alloc, &Echo {}, served, &clock))?;
        }
    }
    Ok(back)
}

// A part that is kept is called for by the calling thread, and comes back as it was.
fn kept<R: Wait>(
    rt: &R,
    alloc: Global,
    board: &Board,
    part: Part<MemoryDoor, Count>,
    place: u64,
) -> Served<MemoryDoor, Count> {
    let clock = FixedClock::new(0);
    board.keep(place);
    work_in_thread(rt, alloc, &Echo {}, part, &clock, board, place)
}

#[test]
fn doors_here_give_one_stream_after_each_round(rt: HostRuntime) -> Result<(), Fail> {
    let alloc = rt.alloc();
    let board = Board::new();
    board.count_end();
    let first = kept(
        &rt,
        alloc,
        &board,
        part(alloc, BYTES[0], &[]).map_err(|_| "memory")?,
        1,
    );
    let second = kept(
        &rt,
        alloc,
        &board,
        part(alloc, BYTES[1], &[2]).map_err(|_| "memory")?,
        2,
    );
    assert!(rt; first.end.is_none() && first.door.returned().is_empty());
    assert!(rt; !board.have_ended(2));
    let mut seats = Vec::with_capacity(alloc, 3)?;
    seats.push(Seat::There(()))?;
    seats.push(Seat::Here(first))?;
    seats.push(Seat::Here(second))?;

    // Three streams of the first door, and its end.
    assert_eq!(rt; rounds(&rt, alloc, &board, &mut seats), 4);
    let back = ended(&rt, alloc, seats)?;
    assert!(rt; back.len() == 2);
    assert!(rt; has_ended(back.as_slice(), 0, End::Closed, BYTES[0]));
    assert!(rt; has_ended(back.as_slice(), 1, End::Failed, &[4]));
    Ok(())
}
