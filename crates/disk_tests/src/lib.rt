//! The tests of ps_disks and ps_files, over their public items.
#![tactic(auto)]

#[cfg(test)]
mod file_tests;
#[cfg(test)]
mod memory_tests;
