//! What psched meets beside its streams and disks, as traits: clocks, archivers, links to peers, doors at which
//! connections come, porches with such doors. Each stands in memory, too, for tests and rehearsals.
#![tactic(auto)]

pub mod archiver;
pub mod clock;
pub mod door;
pub mod fixed_clock;
pub mod link;
pub mod memory_archiver;
pub mod memory_door;
pub mod memory_link;
pub mod memory_porch;
pub mod porch;
mod returned;
