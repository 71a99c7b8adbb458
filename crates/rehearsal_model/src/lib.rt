//! What a rehearsal of a script is: its world, and its report.
#![tactic(auto)]

pub mod law;
pub mod outcome;
