//! Tests of machines and hosts on disks in memory of which a call is to fail: what is there behind the fault, for the next step and
//! behind a crash.
#![tactic(auto)]

mod host_faults;
mod hosts;
#[cfg(test)]
mod machine_faults;
#[cfg(test)]
mod machines;
