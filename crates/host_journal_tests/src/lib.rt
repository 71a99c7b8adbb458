//! The tests of host_journal, over its public items.
#![tactic(auto)]

#[cfg(test)]
mod append_tests;
#[cfg(test)]
mod calls;
#[cfg(test)]
mod open_tests;
#[cfg(test)]
mod reload_tests;
#[cfg(test)]
mod snapshot_tests;
