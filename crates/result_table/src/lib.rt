//! The store of results: records of runs, keepers of a table of records, and what is told of one: reports and listings.
#![tactic(auto)]

pub mod keeper;
pub mod keeper_archiver;
pub mod law;
pub mod listing;
pub mod map_keeper;
pub mod record;
pub mod report;
mod tally;
mod visit;
