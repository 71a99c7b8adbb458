//! The tests of the grammar of scripts, as theorems: what scripts say, worked out by hand and computed.
#![tactic(auto)]
