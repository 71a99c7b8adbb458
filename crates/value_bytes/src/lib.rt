//! Which bytes values have, and what is read from bytes, with the laws of both; numbers, texts, tests, tasks and names of
//! bytes.
#![tactic(auto)]

pub mod fault;
pub mod names;
pub mod numbers;
pub mod parts;
pub mod tasks;
pub mod texts;
pub mod trees;
