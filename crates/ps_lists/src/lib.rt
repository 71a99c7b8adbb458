//! Lists in reserved places: in one block that slides, in blocks, and of items that stay in cells of their own.
#![tactic(auto)]

pub mod halves;
pub mod placed_lent;
pub mod placed_list;
pub mod sliding_list;
mod sliding_moves;
pub mod tiered_lent;
pub mod tiered_list;
mod tiered_moves;
