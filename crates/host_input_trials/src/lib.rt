//! The configuration of the host that trials of a kept host keep, and that of no other, and lines of a script as its inputs: a name,
//! a clock in seconds since 1970 UTC, and what the host is asked then, in the words of `inputs`.
#![tactic(auto)]

mod answers;
pub mod booking;
pub mod config;
pub mod fault;
pub mod given;
pub mod inputs;
