//! What a host shows of its book.
#![tactic(auto)]

pub mod page;
mod schedule;
pub mod showing;
