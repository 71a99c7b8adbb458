//! A journal on two disks: a snapshot and the records behind it, right at every moment.
#![tactic(auto)]

pub mod append;
pub mod crash;
mod disk_calls;
pub mod fault;
pub mod image;
pub mod journal;
pub mod pending;
pub mod reading;
pub mod reload;
pub mod snapshot;
