//! The statements over the table of results, and what they mean over the records that its rows are.
#![tactic(auto)]

pub mod run_id;
pub mod schema;
pub mod statement;
