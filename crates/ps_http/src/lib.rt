//! HTTP/1.x messages whole: requests and responses read from a source, and their bytes written.
#![tactic(auto)]

pub mod fault;
mod fields;
mod find;
mod head;
mod held;
pub mod law;
mod lines;
pub mod message;
mod next;
pub mod reader;
pub mod reply;
mod target;
pub mod written;
