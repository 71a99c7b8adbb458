//! What a lead has to say to the other participants of its runs, and what it makes of their answers, over any reading
//! access to its book.
#![tactic(auto)]

pub mod hear;
pub mod laws;
pub mod listing;
pub mod orders;
