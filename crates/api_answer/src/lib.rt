//! The answers of peers to orders, as inputs.
#![tactic(auto)]

pub mod denial;
pub mod heard;
pub mod told;
