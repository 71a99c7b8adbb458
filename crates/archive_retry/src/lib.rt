//! When a result is handed to an archiver again.
#![tactic(auto)]

pub mod fault;
pub mod merge;
pub mod policy;
pub mod read_policy;
pub mod retry;
pub mod state;
