//! Leading a run: the next attempt of a task and its question, what becomes of a run once all have told when they are
//! free, posting and canceling a task, over any reading access to the lead's book.
#![tactic(auto)]

pub mod attempt;
pub mod cancel;
pub mod laws;
pub mod leading;
pub mod plan;
pub mod planning;
pub mod post;
pub mod question;
