//! A turn of a host: what is due of each row at a moment, and all of it, group by group, over a draft of its book.
#![tactic(auto)]

pub mod due;
pub mod ending;
mod exclusive;
mod groups;
pub mod merging;
pub mod purging;
pub mod starting;
pub mod turn;
mod wishes;

/// The book of a host, and the draft of a step over it.
pub use host_book::book;
pub use host_draft::draft;
