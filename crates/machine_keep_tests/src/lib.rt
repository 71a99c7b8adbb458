//! A machine that gathers bytes, and kept on disks in memory: its steps, faults of the disks, crashes, lists in an earlier form,
//! snapshots that are put off; and keepers of one number over a journal, which are proved from the journal's clauses alone.
#![tactic(auto)]

pub mod armed;
#[cfg(test)]
mod crash_tests;
#[cfg(test)]
mod disks;
#[cfg(test)]
mod fault_tests;
pub mod gatherer;
#[cfg(test)]
mod journals;
#[cfg(test)]
mod keep_tests;
#[cfg(test)]
mod number_tests;
#[cfg(test)]
mod run_tests;
#[cfg(test)]
mod snapshot_tests;
