//! Tools of measurements: which one runs a test, when it is done, and what it finds.
#![tactic(auto)]

pub mod choice;
pub mod result;
pub mod run;
pub mod tool;
