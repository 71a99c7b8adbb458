//! A worker's loop at one door.
ghost use Rattle.std.specs.Prelude.{◌≡◌, Some, None, IfSome};
ghost use Rattle.door_workers.specs.Runs.{DoorRun};

use crate::board::Board;
use crate::part::{End, Ended, Part, Served};
use crate::take::take_one;
use crate::token::{Attendant, Token};
use ps_doors::clock::Clock;
use ps_doors::door::Door;
use std::alloc::Global;
use std::sync::Wait;

/// Takes streams until the door has ended.
pub(crate) fn work<R: Wait, T: Token, D: Door, A: Attendant<D::Stream, T>, C: Clock>(
    rt: &R,
    alloc: Global,
    attendant: &A,
    door: &mut D,
    token: &mut T,
    clock: &C,
) -> End
    requires { A.fits attendant.now token.old }
    ensures fits { A.fits attendant.now token.new }
    ensures run { DoorRun D.door_faults D.share D.given D.returned (A.attended attendant.now) door.old token.old (Some result) door.new token.new }
{
    for _ in rt.forever() {
        if let Some(end) = take_one(alloc, attendant, door, token, clock) {
            return end;
        }
    }
    unreachable!()
}

/// A thread's work: takes streams until the door has ended, and counts that. A part that is kept comes back as it is,
/// since then it is the calling thread that calls.
pub fn work_in_thread<R: Wait, T: Token, D: Door, A: Attendant<D::Stream, T>, C: Clock>(
    rt: &R,
    alloc: Global,
    attendant: &A,
    part: Part<D, T>,
    clock: &C,
    board: &Board,
    place: u64,
) -> Served<D, T>
    requires { A.fits attendant.now part.token }
    ensures fits { A.fits attendant.now result.token }
    ensures run { DoorRun D.door_faults D.share D.given D.returned (A.attended attendant.now) part.door part.token result.end result.door result.token }
{
    let Part {
        mut door,
        mut token,
    } = part;
    if board.is_kept(place) {
        return Served {
            door,
            token,
            end: None,
        };
    }
    let end = work(rt, alloc, attendant, &mut door, &mut token, clock);
    board.count_end();
    Served {
        door,
        token,
        end: Some(end),
    }
}

/// Goes on until the door has ended, if it hasn't yet.
pub fn finish<R: Wait, T: Token, D: Door, A: Attendant<D::Stream, T>, C: Clock>(
    rt: &R,
    alloc: Global,
    attendant: &A,
    served: Served<D, T>,
    clock: &C,
) -> Ended<D, T>
    requires { A.fits attendant.now served.token }
    ensures from_start { served.end ≡ None → DoorRun D.door_faults D.share D.given D.returned (A.attended attendant.now) served.door served.token (Some result.end) result.door result.token }
    ensures same { IfSome served.end (λ e. result ≡ record { door = served.door; token = served.token; end = e }) }
    ensures fits { A.fits attendant.now result.token }
{
    let Served {
        mut door,
        mut token,
        end,
    } = served;
    let end = match end {
        Some(end) => end,
        None => work(rt, alloc, attendant, &mut door, &mut token, clock),
    };
    Ended { door, token, end }
}
