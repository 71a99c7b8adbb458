//! Threads that take connections from doors, beside rounds of the calling thread: `run`. What it does in a thread and at
//! the calling thread, `work_in_thread` and `make_rounds`, stands by itself too.
#![tactic(auto)]

mod board;
mod part;
mod round;
mod seat;
mod take;
mod token;
mod work;
mod workers;

pub use board::Board;
pub use part::{End, Ended, Part, Served};
pub use round::{Rounds, make_rounds};
pub use seat::Seat;
pub use token::{Attendant, Timed, Token};
pub use work::{finish, work_in_thread};
pub use workers::{Finished, Promised, Refused, run};
