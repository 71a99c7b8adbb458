//! The tests of the interface, over the public items of its crates. What requests ask and what peers answer are theorems: the
//! tables of docs/specification/interface.md, worked out by hand and computed.
#![tactic(auto)]

#[cfg(test)]
mod tests;
