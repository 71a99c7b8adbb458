//! Scripts of what happens on some hosts, and their reader.
#![tactic(auto)]

mod fields;
mod hosts;
mod kind;
mod lines;
pub mod read;
pub mod script;
mod tools;
mod words;
