//! What the hosts of a rehearsal are asked by its lines: bookings, limits, requests, messages and archives, each reported.
#![tactic(auto)]

pub mod archive;
pub mod arrive;
pub mod ask;
pub mod request;
pub mod requested;

/// The hosts of a rehearsal as they stand.
pub use rehearsal_state as state;
