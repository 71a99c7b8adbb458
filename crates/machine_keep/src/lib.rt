//! A machine whose steps are kept on two disks: each step is a record of a journal before it is taken in, and now and then
//! a snapshot takes the place of all records.
#![tactic(auto)]

pub mod crash;
pub mod fault;
pub mod keep;
pub mod law;
pub mod machine;
mod open;
mod snapshot;
