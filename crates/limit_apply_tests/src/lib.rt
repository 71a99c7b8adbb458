//! The tests of limit_apply, over its public items.
#![tactic(auto)]

#[cfg(test)]
mod tests;
