//! The tests of ps_http, over its public items.
#![tactic(auto)]

#[cfg(test)]
mod tests;
