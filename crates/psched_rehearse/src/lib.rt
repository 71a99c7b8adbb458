//! Rehearsals: the hosts of a script are run line by line, and what they do is reported.
#![tactic(auto)]

pub mod line;
pub mod rehearse;

/// Messages that arrive, what hosts are asked, the requests that lines of a script make, and the hosts of a rehearsal as they stand.
pub use rehearsal_lines::{arrive, ask, requested, state};
