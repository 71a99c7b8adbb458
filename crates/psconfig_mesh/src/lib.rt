//! Meshes of tasks: one file that says what many hosts are to measure with each other.
#![tactic(auto)]

pub mod body;
pub mod mesh;
pub mod read_mesh;
pub mod read_tasks;
pub mod wanted;
