//! A host's book as a journal keeps it: a snapshot, and records behind it.
#![tactic(auto)]

pub mod law;
pub mod record;
pub mod restore;
pub mod snapshot;
