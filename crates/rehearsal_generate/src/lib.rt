//! Generated work: tasks that are drawn, and the hosts that run them while messages get lost and hosts crash.
#![tactic(auto)]

pub mod generate;
mod hosts;
mod job;
mod message;
mod moves;
mod post;
mod summary;
mod tally;

/// Rehearsals of scripts.
pub use psched_rehearse::rehearse;
