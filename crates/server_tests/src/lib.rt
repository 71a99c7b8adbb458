//! The tests of the generic server: connections of `http_connection`, and workers of `door_workers`, over their public items.
#![tactic(auto)]

#[cfg(test)]
mod connections;
#[cfg(test)]
mod pieces;
#[cfg(test)]
mod supply;
#[cfg(test)]
mod workers;
