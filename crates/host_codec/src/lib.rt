//! Records and snapshots of a host as bytes.
#![tactic(auto)]

pub mod book;
pub mod first;
pub mod record;
