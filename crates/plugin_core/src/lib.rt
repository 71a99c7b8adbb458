//! Tests of measurements: their kinds and parameters, and how they are read and written.
#![tactic(auto)]

pub mod fault;
pub mod kind;
pub mod participants;
pub mod read_test;
pub mod test_spec;
pub mod write_test;
