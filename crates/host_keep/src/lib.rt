//! A host as a machine whose steps are kept.
#![tactic(auto)]

pub mod call;
pub mod host;
pub mod open;
mod parts;

/// The book of a host, and the law that its disks stand for one book alone.
pub use host_book::book;
pub use host_replay::law;
