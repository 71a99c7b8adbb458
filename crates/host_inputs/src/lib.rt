//! What a host answers to each single input, and what changes with it: bookings, what clients post and cancel, what leads
//! ask of it, what its own orders were answered, archives that were tried and new limits, over any reading access to its
//! whole book.
#![tactic(auto)]

pub mod archive;
pub mod booking;
pub mod cancel;
pub mod hosting;
pub mod input;
pub mod limits;
mod outcome;
pub mod participant;
