//! What is tested as a snapshot and records are read: whether a book is lawful, and whether a record of changes may follow one.
#![tactic(auto)]

pub mod book;
pub mod change;
pub mod clash;
mod comes;
mod goes_on;
mod heard;
pub mod record;
mod runs;
mod steps;
pub mod tasks;
mod way;
