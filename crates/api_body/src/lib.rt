//! The bodies of messages between hosts, as what they say.
#![tactic(auto)]

pub mod bodies;
