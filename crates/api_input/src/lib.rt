//! What a host is asked: requests of HTTP as inputs.
#![tactic(auto)]

pub mod parts;
pub mod place;
pub mod query;
pub mod refusal;
pub mod route;
pub mod understand;
