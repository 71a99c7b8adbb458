//! The tests of run_states, the copies of archive_retry, and laws of ps_json, plugin_core and task_spec, over their public
//! items. What these read from texts is in task_reader_tests.
#![tactic(auto)]

#[cfg(test)]
mod full_row_tests;
#[cfg(test)]
mod life_tests;
#[cfg(test)]
mod policy_tests;
#[cfg(test)]
mod row_tests;
