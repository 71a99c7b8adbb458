//! Disks that a crash may leave in part, and racks that keep disks in pairs, as traits; and both in
//! memory, for tests and rehearsals.
#![tactic(auto)]

pub mod disk;
mod history;
pub mod image;
pub mod memory_disk;
pub mod memory_rack;
pub mod rack;
mod shelf;
