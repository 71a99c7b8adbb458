//! The common start of a run: the least one at which all its participants are free.
#![tactic(auto)]

pub mod search;
