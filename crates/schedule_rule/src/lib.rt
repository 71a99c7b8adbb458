//! Schedules: at which moments each run of a repeated task may start.
#![tactic(auto)]

pub mod rule;
