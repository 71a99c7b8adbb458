//! The texts of a report: what it says after each line of a script, and the tables of runs at its end.
#![tactic(auto)]

pub mod line;
pub mod message;
pub mod report;
mod shown;
pub mod table;
