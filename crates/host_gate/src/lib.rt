//! One state behind a gate, at which threads take turns.
#![tactic(auto)]

mod gate;
mod kept;
mod plays;
mod turn;
mod view;

pub use gate::{Front, Gate, Memory, Pass, Spent};
pub use kept::Kept;
