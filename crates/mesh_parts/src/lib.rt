//! What a mesh is made of: named entries, groups with their pairs of hosts, templates.
#![tactic(auto)]

pub mod address;
pub mod entries;
pub mod fault;
pub mod fill;
pub mod group;
pub mod law;
pub mod named;
pub mod read_groups;
pub mod tree;
