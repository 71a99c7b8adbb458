//! The hosts of a script, as each of them knows the others.
#![tactic(auto)]

pub mod hosts;
