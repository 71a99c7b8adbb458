//! The tests of ps_ports and ps_doors, over their public items.
#![tactic(auto)]

#[cfg(test)]
mod door_tests;
#[cfg(test)]
mod stream_tests;
