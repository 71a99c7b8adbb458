//! A host's book in memory: its rows, tasks, epochs and pairs, with what is looked up in them. It takes changes in without
//! memory, in places that were reserved.
#![tactic(auto)]

pub mod book;
mod indexed;
pub mod merging;
mod new_row;
mod pairs;
pub mod parts;
mod preparing;
pub mod ready;
mod restore;
mod waking;
