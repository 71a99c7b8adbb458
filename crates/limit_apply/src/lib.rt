//! What is allowed: configurations of limits, their applications and priorities.
#![tactic(auto)]

pub mod application;
pub mod bare;
pub mod kept;
pub mod limits;
pub mod open;
pub mod read;
pub mod read_applications;
