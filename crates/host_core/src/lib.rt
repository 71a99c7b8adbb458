//! A host as a pure machine: what a step comes to, over its book in memory, and the step made there.
#![tactic(auto)]

pub mod act;
pub mod decide;
pub mod opening;
