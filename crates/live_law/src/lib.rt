//! What the rows that aren't live mean for a host's turns, orders and archives.
#![tactic(auto)]

pub mod law;
pub mod waking;
