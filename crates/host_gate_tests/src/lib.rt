//! The tests of host_gate, over its public items.
#![tactic(auto)]

#[cfg(test)]
mod tests;
