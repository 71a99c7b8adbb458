//! The tests of ps_time, schedule_rule, slot_search and host_timeline, over their public items. What ps_time reads from texts
//! is in text_reader_tests.
#![tactic(auto)]

#[cfg(test)]
mod free_tests;
#[cfg(test)]
mod held;
#[cfg(test)]
mod item_tests;
#[cfg(test)]
mod rule_tests;
#[cfg(test)]
mod slot_tests;
#[cfg(test)]
mod standing_tests;
