//! Whether the parts of a book that was read keep the rules of a lawful book.
#![tactic(auto)]

pub mod host_row;
pub mod order;
pub mod pairs;
pub mod tasks;
