//! A step over a host's book: the book as it is while the step makes its changes, read without copying it.
#![tactic(auto)]

pub mod draft;
mod hosting;
mod making;
mod reading;
