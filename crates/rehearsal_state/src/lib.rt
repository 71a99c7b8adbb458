//! The hosts of a script as they stand, and the messages between them: their steps and turns.
#![tactic(auto)]

pub mod message;
pub mod rehearsal;
pub mod tell;
pub mod turn;

/// A host, which is kept on two disks in memory.
pub use simulated_host::simulated;
/// The book of a host.
pub use host_keep::book;
/// What is asked of a host about archives.
pub use host_queries::{archives, attempt};
/// What comes of a step.
pub use rehearsal_model::outcome;
/// The hosts of a script, as each of them knows the others.
pub use rehearsal_hosts::hosts;
