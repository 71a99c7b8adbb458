//! The reservations of a host: what conflicts with a run, what can be preempted, what stays.
#![tactic(auto)]

pub mod booking;
mod booking_list;
mod busy;
pub mod free_starts;
pub mod lane;
mod lanes;
mod least_key;
pub mod lent;
mod ranges;
pub mod timeline;
