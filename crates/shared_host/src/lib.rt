//! A host that is kept on two disks, as a state behind a gate.
#![tactic(auto)]

pub mod call;
pub mod kept;
mod step;
