//! The tests of psconfig_mesh, over its public items.
#![tactic(auto)]

#[cfg(test)]
mod tests;
