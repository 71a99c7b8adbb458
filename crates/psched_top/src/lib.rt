//! The top call of psched: what its words and its input come to, over any source and sink.
#![tactic(auto)]

mod command;
mod limits;
mod outcome;
pub mod psched;
mod words;
