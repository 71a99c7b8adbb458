//! The tables of limits in docs/specification/limits.md, worked out by hand.
mod faults;
mod held;
mod times;

use limit_ident::fault::LimitFault;
use limit_ident::named::Named;
use limit_rule::limit::Limit;
use limit_rule::read_limits::read_limits;
use plugin_core::test_spec::{Sleep, TestSpec};
use ps_json::tree::read_tree;
use ps_time::interval::Interval;
use ps_time::items::Items;
use std::alloc::Global;

fn read(alloc: Global, text: &str) -> Result<Items<Named<Limit>>, LimitFault> {
    Ok(read_limits(alloc, read_tree(alloc, text.as_bytes())?)?.into_items())
}

fn idle(duration: u64) -> TestSpec {
    TestSpec::Idle(Sleep::of(duration))
}

/// Whether each limit of a list is true of a run of the test. The test is let go here.
fn holds(limits: &[Named<Limit>], test: TestSpec, run: Interval) -> bool {
    let run = Some(run);
    for limit in limits {
        if !limit.value.holds(&test, &run) {
            return false;
        }
    }
    true
}

fn letter(holds: bool) -> &'static str {
    if holds { "y" } else { "n" }
}
