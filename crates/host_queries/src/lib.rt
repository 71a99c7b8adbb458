//! What a host has to say to other hosts and to archive, read off its book in memory.
#![tactic(auto)]

pub mod archives;
pub mod attempt;
pub mod orders;
