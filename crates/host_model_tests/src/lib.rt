//! The tests of host_model's definitions, as theorems: what a host is asked, what it answers and how its book stands then, worked
//! out by hand and computed.
#![tactic(auto)]
