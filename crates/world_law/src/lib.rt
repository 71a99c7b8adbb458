//! The laws of a world of hosts, over the definitions of the whole host.
#![tactic(auto)]

pub mod laws;
