//! What psched reads and writes, as traits: sources and sinks of bytes, and streams that are both. Each
//! stands in memory, too, for tests and rehearsals, and over readers and writers of the system.
#![tactic(auto)]

pub mod adapters;
pub mod all;
pub mod failing_calls;
pub mod fault;
pub mod faults;
pub mod memory_sink;
pub mod memory_source;
pub mod memory_stream;
pub mod sink;
pub mod source;
pub mod stream;
mod unread;
mod written;
