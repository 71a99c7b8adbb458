//! The compact JSON text of a test, written straight where its texts need no escapes.
#![tactic(auto)]

mod plain;
mod straight;
pub mod written;
