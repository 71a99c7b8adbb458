//! What hosts say to each other: orders as requests, replies as responses, both as bytes of HTTP. What is written is read again,
//! and means the same.
#![tactic(auto)]

pub mod body;
pub mod bounds_law;
pub mod heard_law;
pub mod order;
mod read;
pub mod reply;
pub mod request;
mod source;
pub mod widths;
