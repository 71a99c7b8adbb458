//! Who asks: the identifiers and classifiers of a limit configuration.
#![tactic(auto)]

pub mod address;
pub mod classifier;
pub mod fault;
pub mod identifier;
pub mod known_asker;
pub mod member;
pub mod named;
pub mod read_classifiers;
pub mod read_identifiers;
pub mod read_lists;
pub mod require;
