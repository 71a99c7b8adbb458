//! Limits: what may be true of a test and of a run of it, and how they are read.
#![tactic(auto)]

pub mod bounds;
pub mod civil;
pub mod limit;
pub mod read_limits;
pub mod read_schedule;
pub mod schedule;
