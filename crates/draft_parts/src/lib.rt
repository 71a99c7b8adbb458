//! The parts of a draft of a step: rows that lie over those of a book, the changes so far, and how long a change is.
#![tactic(auto)]

pub mod bringing;
pub mod counting;
pub mod gather;
pub mod giving_way;
pub mod length;
pub mod log;
pub mod overlay;
pub mod walk;
