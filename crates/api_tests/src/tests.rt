//! Orders between two hosts.
mod given;
mod orders;
mod orders_given;
