//! Values as bytes, and back: a trait with its laws, for numbers, texts, options, lists and pairs, and for what a host
//! keeps of runs.
#![tactic(auto)]

pub mod changes;
pub mod coded;
pub mod keys;
pub mod lists;
pub mod numbers;
pub mod reasons;
pub mod rows;
pub mod states;
pub mod tasks;
pub mod texts;
pub mod trees;
pub mod whole;
