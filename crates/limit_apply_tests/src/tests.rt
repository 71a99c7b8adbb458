//! The tables of docs/specification/limits.md, worked out by hand.
mod faults;
mod texts;
mod verdicts;

use limit_apply::limits::Limits;
use limit_ident::fault::LimitFault;
use plugin_core::test_spec::{Sleep, TestSpec};
use ps_time::asker::{Asker, Verdict};
use ps_time::interval::Interval;
use ps_time::memory::Memory;
use ps_time::text::Text;
use std::alloc::{AllocError, Global};

fn read(alloc: Global, text: &str) -> Result<Limits, LimitFault> {
    Limits::from_text(alloc, text.as_bytes())
}

fn asker(alloc: Global, requester: &str) -> Result<Asker, Memory> {
    Ok(Asker {
        requester: Text::new(alloc, requester)?,
        server: Text::new(alloc, "a")?,
    })
}

fn idle(duration: u64) -> TestSpec {
    TestSpec::Idle(Sleep::of(duration))
}

/// What is said of a run of the test. Who asks and the test are let go here.
fn permits(limits: &Limits, asker: Asker, test: TestSpec, run: Interval, priority: i16) -> Verdict {
    limits.permits(&asker, &test, &run, priority)
}

/// What is said before there is a run.
fn admits(limits: &Limits, asker: Asker, test: TestSpec) -> Verdict {
    limits.admits(&asker, &test)
}

fn told(alloc: Global, verdict: Verdict) -> Result<String, AllocError> {
    match verdict {
        Verdict::Permitted(place) => format!(in alloc; "permitted {place}"),
        Verdict::Stopped(place) => format!(in alloc; "stopped {place}"),
        Verdict::Exhausted => String::from_str(alloc, "exhausted"),
        Verdict::AboveCeiling(ceiling) => format!(in alloc; "above {ceiling}"),
    }
}
