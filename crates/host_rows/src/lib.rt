//! The rows of a host's book with what is kept of them beside: how many bytes of results they have, when each of them may
//! lapse, which of them are live, and when the first of the others may go.
#![tactic(auto)]

mod called;
pub mod deadlines;
pub mod ledger;
pub mod live_keys;
mod staying;
pub mod still;
