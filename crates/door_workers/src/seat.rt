//! Where each door is.
ghost use Rattle.std.specs.Prelude.{◌≡◌, All};
ghost use Rattle.std.specs.List.{AllZip};
ghost use Rattle.door_workers.specs.Runs.{DoorRun};
ghost use Rattle.door_workers.specs.Seats.{HoldsHere, GoesOn};

use crate::board::Board;
use crate::part::Served;
use crate::take::take_one;
use crate::token::{Attendant, Token};
use ps_doors::clock::Clock;
use ps_doors::door::Door;
use std::alloc::Global;

/// A door is at a thread, or here, at the calling thread.
#[derive(Drop)]
pub enum Seat<H, D, T> {
    There(H),
    Here(Served<D, T>),
}

/// Takes at most one stream from a door that is here and hasn't ended. Says whether it ended by this.
pub(crate) fn serve_seat<H, T: Token, D: Door, A: Attendant<D::Stream, T>, C: Clock>(
    alloc: Global,
    attendant: &A,
    seat: &mut Seat<H, D, T>,
    clock: &C,
) -> bool
    requires { HoldsHere (A.fits attendant.now) seat.old }
    ensures fits { HoldsHere (A.fits attendant.now) seat.new }
    ensures run { GoesOn D.door_faults D.share D.given D.returned (A.attended attendant.now) seat.old seat.new }
{
    match seat {
        Seat::There(_) => false,
        Seat::Here(served) => {
            if served.end.is_some() {
                return false;
            }
            served.end = take_one(alloc, attendant, &mut served.door, &mut served.token, clock);
            served.end.is_some()
        }
    }
}

/// Takes at most one stream from each door that is here and hasn't ended.
pub(crate) fn serve_seats<H, T: Token, D: Door, A: Attendant<D::Stream, T>, C: Clock>(
    alloc: Global,
    attendant: &A,
    seats: &mut [Seat<H, D, T>],
    clock: &C,
    board: &Board,
)
    requires { All (HoldsHere (A.fits attendant.now)) seats.old }
    ensures fits { All (HoldsHere (A.fits attendant.now)) seats.new }
    ensures run { AllZip (GoesOn D.door_faults D.share D.given D.returned (A.attended attendant.now)) seats.old seats.new }
{
    for i in 0..seats.len() {
        if serve_seat(alloc, attendant, &mut seats[i], clock) {
            board.count_end();
        }
    }
}
