//! The tests of host_codec, replay_check and host_replay, over their public items.
#![tactic(auto)]

#[cfg(test)]
mod books;
#[cfg(test)]
mod codec_tests;
#[cfg(test)]
mod record_tests;
