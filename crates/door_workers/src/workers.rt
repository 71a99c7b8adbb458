//! A worker for each door, and the rounds beside them.
ghost use Rattle.std.specs.Prelude.{◌≡◌, List, All, IfOk, IfErr, Some, vec_len};
ghost use Rattle.std.specs.List.{AllZip};
ghost use Rattle.std.specs.Thread.{IsSend, IsSync};
ghost use Rattle.door_workers.specs.Runs.{Attends, DoorRun, Visit};
ghost use Rattle.door_workers.specs.Seats.{HoldsHere, GoesOn, Ran};

use crate::board::Board;
use crate::part::{Ended, Part, Served};
use crate::round::{Rounds, make_rounds};
use crate::seat::Seat;
use crate::token::{Attendant, Token};
use crate::work::{finish, work_in_thread};
use ps_doors::clock::Clock;
use ps_doors::door::Door;
use std::alloc::Global;
use std::snapshot::Snapshot;
use std::sync::Wait;
use std::thread;
use std::thread::{Promise, PromisedHandle, Threads};

/// What a worker promises: that its door ran as it says, from this part on, with this attendant.
#[derive(Drop)]
pub struct Promised<A, D, T> {
    attendant: Snapshot<A>,
    part: Snapshot<Part<D, T>>,
}

impl<T: Token, D: Door, A: Attendant<D::Stream, T>> Promise<Served<D, T>> for Promised<A, D, T> {
    ghost kept_by = { λ p r. A.fits p.attendant.value r.token × DoorRun D.door_faults D.share D.given D.returned (A.attended p.attendant.value) p.part.value.door p.part.value.token r.end r.door r.token };
}

/// All doors have ended, and are back in their order.
#[derive(Drop)]
pub struct Finished<D, W, T> {
    pub doors: Vec<Ended<D, T>>,
    pub rounds: W,
    pub own: T,
}

/// There was no memory, and nothing was begun.
#[derive(Drop)]
pub struct Refused<D, W, T> {
    pub parts: Vec<Part<D, T>>,
    pub rounds: W,
    pub own: T,
}

type Held<A, D, T> = Seat<PromisedHandle<Served<D, T>, Promised<A, D, T>>, D, T>;

// A token that fits does so in the closure that takes it.
fn known<T: Token, S, A: Attendant<S, T>>(attendant: &A, token: &T)
    requires { A.fits attendant.now token.now }
    ensures { A.fits attendant.now token.now }
{
    let _ = attendant;
    let _ = token;
}

// Each visit leaves a later token, and so do all.
fn law_later<S, T: Token, A: Attendant<S, T>>(attendant: &A)
    ensures { (visits : List (Visit S)) (t u : T) → Attends (A.attended attendant.now) visits t u → T.later t u }
{
    let _ = attendant;
}

/// Runs a worker for each door, in a thread of its own, and makes rounds with `own` until all doors have ended. Where a
/// thread can't be started, the calling thread takes at most one stream from that door after each round. With no doors
/// there is no round. All memory is taken before the first thread is started.
pub fn run<
    R: Wait + Threads + Sync,
    T: Token + Send + Drop,
    D: Door + Send + Drop,
    A: Attendant<D::Stream, T> + Sync,
    W: Rounds<T> + Drop,
    C: Clock + Sync,
>(
    rt: &R,
    alloc: Global,
    attendant: &A,
    parts: Vec<Part<D, T>>,
    rounds: W,
    own: T,
    clock: &C,
) -> Result<Finished<D, W, T>, Refused<D, W, T>>
where
    D::Stream: Send + Drop,
    requires parts { All (λ p. A.fits attendant.now p.token) parts.items }
    requires own { W.fits rounds own }
    ensures doors { IfOk result (λ r. AllZip (Ran D.door_faults D.share D.given D.returned (A.attended attendant.now)) parts.items r.doors.items) }
    ensures fits { IfOk result (λ r. All (λ e. A.fits attendant.now e.token) r.doors.items) }
    ensures later { IfOk result (λ r. AllZip (λ p e. T.later p.token e.token) parts.items r.doors.items) }
    ensures rounded { IfOk result (λ r. W.rounded rounds own r.rounds r.own) }
    ensures own { IfOk result (λ r. W.fits r.rounds r.own) }
    ensures refused { IfErr result (λ r. r ≡ record { parts = parts; rounds = rounds; own = own }) }
{
    let count = parts.len();
    let board = Board::new();
    let board = &board;
    thread::scope(
        thread::scope_env(),
        rt,
        move |scope| -> Result<Finished<D, W, T>, Refused<D, W, T>>
            requires { All (λ p. A.fits attendant.now p.token) parts.items × W.fits rounds own × (count ≡ vec_len parts) × IsSend D.row × IsSend T.row × IsSync A.row × IsSync C.row × IsSync R.row × IsSend D.Stream.row }
            ensures doors { IfOk result (λ r. AllZip (Ran D.door_faults D.share D.given D.returned (A.attended attendant.entry.now)) parts.items r.doors.items) }
            ensures fits { IfOk result (λ r. All (λ e. A.fits attendant.entry.now e.token) r.doors.items) }
            ensures later { IfOk result (λ r. AllZip (λ p e. T.later p.token e.token) parts.items r.doors.items) }
            ensures rounded { IfOk result (λ r. W.rounded rounds own r.rounds r.own) }
            ensures own { IfOk result (λ r. W.fits r.rounds r.own) }
            ensures refused { IfErr result (λ r. r ≡ record { parts = parts; rounds = rounds; own = own }) }
        {
            law_later::<D::Stream, T, A>(attendant);
            let mut rounds = rounds;
            let mut own = own;
            let Ok(mut seats) = Vec::<Held<A, D, T>>::with_capacity(alloc, count) else {
                return Err(Refused { parts, rounds, own });
            };
            let Ok(mut doors) = Vec::with_capacity(alloc, count) else {
                return Err(Refused { parts, rounds, own });
            };
            let handed = Snapshot::of(&parts);
            let mut place = 0u64;
            for part in parts {
                known::<T, D::Stream, A>(attendant, &part.token);
                let promise = Promised {
                    attendant: Snapshot::of(attendant),
                    part: Snapshot::of(&part),
                };
                match scope.spawn_with(
                    promise,
                    move || -> Served<D, T>
                        requires { A.fits attendant.now part.token }
                        ensures fits { A.fits attendant.entry.now result.token }
                        ensures run { DoorRun D.door_faults D.share D.given D.returned (A.attended attendant.entry.now) part.door part.token result.end result.door result.token }
                    { work_in_thread(rt, alloc, attendant, part, clock, board, place) },
                ) {
                    Ok(handle) => seats.push_reserved(Seat::There(handle)),
                    Err(refused) => {
                        board.keep(place);
                        seats.push_reserved(Seat::Here((refused.value)()));
                    }
                }
                place = place.wrapping_add(1);
            }
            make_rounds(
                rt,
                alloc,
                attendant,
                seats.as_mut_slice(),
                &mut rounds,
                &mut own,
                clock,
                board,
                count as u64,
            );
            for seat in seats {
                let served = match seat {
                    Seat::There(handle) => handle.join(rt),
                    Seat::Here(served) => served,
                };
                doors.push_reserved(finish(rt, alloc, attendant, served, clock));
            }
            let _ = handed;
            Ok(Finished { doors, rounds, own })
        },
    )
}
