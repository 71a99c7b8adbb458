//! JSON trees whole: read, written, kept as texts, measured, and taken apart member by member.
#![tactic(auto)]

pub mod fault;
pub mod fields;
pub mod kept;
pub mod kinds;
pub mod law;
pub mod shape;
pub mod tree;
