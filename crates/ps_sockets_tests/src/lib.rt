//! The tests of ps_sockets, over its public items.
#![tactic(auto)]

#[cfg(test)]
mod heads;
#[cfg(test)]
mod loopback;
#[cfg(test)]
mod loopback_links;
#[cfg(test)]
mod paces;
#[cfg(test)]
mod scripted;
