//! A keeper of results over SQL, in memory and in a file.
#![tactic(auto)]

pub mod again;
pub mod opening;
mod row;
pub mod sqlite_keeper;
pub mod work;
