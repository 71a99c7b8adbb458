//! The words that every crate of psched speaks: texts and lists, moments, intervals, classes, keys of runs.
#![tactic(auto)]

pub mod asker;
pub mod boxed;
pub mod calendar;
pub mod class;
pub mod duplicate;
pub mod id;
pub mod interval;
pub mod items;
pub mod key;
pub mod length_text;
pub mod memory;
pub mod moment;
pub mod moment_text;
pub mod name;
pub mod number;
mod picture;
pub mod read_length;
pub mod read_moment;
pub mod read_start;
pub mod same;
pub mod text;
pub mod tiers;
