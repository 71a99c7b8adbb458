//! The tests of limit_rule, over its public items.
#![tactic(auto)]

#[cfg(test)]
mod tests;
