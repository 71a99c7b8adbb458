//! A machine that is kept on two disks in memory, calls of which may be made to fail: what a step makes of it, exactly.
#![tactic(auto)]

pub mod law;
pub mod simulated;
