//! The archivers that need nothing but themselves, and archivers by their names.
#![tactic(auto)]

pub mod bitbucket;
pub mod by_name;
pub mod failer;
pub mod plain;
