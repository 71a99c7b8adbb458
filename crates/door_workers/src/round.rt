//! What the calling thread does meanwhile.
ghost use Rattle.std.specs.Prelude.{All};
ghost use Rattle.std.specs.List.{AllZip};
ghost use Rattle.door_workers.specs.Runs.{DoorRun};
ghost use Rattle.door_workers.specs.Seats.{HoldsHere, GoesOn};

use crate::board::Board;
use crate::seat::{Seat, serve_seats};
use crate::token::{Attendant, Token};
use ps_doors::clock::Clock;
use ps_doors::door::Door;
use std::alloc::Global;
use std::sync::Wait;

/// What makes rounds, with a token of its own.
pub trait Rounds<T: Token> {
    ghost fits: { Self → T → Type 0 };

    // Rounds lead from the first of these, with its token, to the second.
    ghost rounded: { Self → T → Self → T → Type 0 };

    /// Makes one round.
    fn round(&mut self, token: &mut T)
        requires fits { fits self.old token.old }
        ensures fits { fits self.new token.new }
        ensures rounded { rounded self.old token.old self.new token.new };

    ghost rounded_refl: { (w : Self) (t : T) → rounded w t w t };

    ghost rounded_trans: { (w x y : Self) (t u v : T) → rounded w t x u → rounded x u y v → rounded w t y v };
}

/// Makes rounds until all doors have ended. After each, every door that is here gives at most one stream, and a little
/// time passes.
pub fn make_rounds<
    R: Wait,
    H,
    T: Token,
    D: Door,
    A: Attendant<D::Stream, T>,
    W: Rounds<T>,
    C: Clock,
>(
    rt: &R,
    alloc: Global,
    attendant: &A,
    seats: &mut [Seat<H, D, T>],
    rounds: &mut W,
    own: &mut T,
    clock: &C,
    board: &Board,
    doors: u64,
)
    requires seats { All (HoldsHere (A.fits attendant.now)) seats.old }
    requires own { W.fits rounds.old own.old }
    ensures seats { All (HoldsHere (A.fits attendant.now)) seats.new }
    ensures run { AllZip (GoesOn D.door_faults D.share D.given D.returned (A.attended attendant.now)) seats.old seats.new }
    ensures own { W.fits rounds.new own.new }
    ensures rounded { W.rounded rounds.old own.old rounds.new own.new }
{
    for _ in rt.forever() {
        if board.have_ended(doors) {
            break;
        }
        rounds.round(own);
        serve_seats(alloc, attendant, seats, clock, board);
        clock.pause();
    }
}
