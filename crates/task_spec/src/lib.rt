//! Tasks: what is posted to a lead.
#![tactic(auto)]

pub mod archive;
pub mod fault;
pub mod read_task;
pub mod schedule;
pub mod task;
pub mod write_task;
