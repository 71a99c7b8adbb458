//! The run rows of a host: what they keep, how they live and lapse, and how they are named.
#![tactic(auto)]

pub mod answer;
mod conflict;
pub mod content;
pub mod fact;
pub mod lent;
pub mod life;
mod note;
pub mod proposal;
pub mod rest;
pub mod row;
pub mod rows;
pub mod state;
pub mod why;
