//! Whether rows that were read keep the rules of a lawful book.
#![tactic(auto)]

pub mod moments;
pub mod parts;
pub mod results;
pub mod row;
pub mod whys;
