//! A host of a script on two disks in memory, of each of which one call may be made to fail.
#![tactic(auto)]

pub mod simulated;
