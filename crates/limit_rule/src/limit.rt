//! Limits: what may be true of a run.
ghost use Rattle.std.specs.Prelude.{◌≡◌, Option};
ghost use Rattle.limit_rule.specs.Limit.{duration_in, interval_in, dawdle_in, timeout_in, kept, lengths_kept, same_kind, is_listed, in_dates, in_range, in_times, rule_holds, limit_holds, is_run_rule};

use crate::bounds::Bounds;
use crate::schedule::Schedule;
use plugin_core::kind::{TestKind, kind_name, kind_of};
use plugin_core::test_spec::TestSpec;
use ps_time::duplicate::Duplicate;
use ps_time::interval::Interval;
use ps_time::items::Items;
use ps_time::memory::Memory;
use ps_time::moment::{Length, Moment};
use std::alloc::Global;

/// Bounds of a test's lengths.
#[derive(Clone, Copy)]
pub struct Lengths {
    pub duration: Option<Bounds>,
    pub interval: Option<Bounds>,
    pub dawdle: Option<Bounds>,
    pub timeout: Option<Bounds>,
}

/// Moments from `start` up to and without `end`.
#[derive(Clone, Copy)]
pub struct DateRange {
    pub start: Moment,
    pub end: Moment,
    /// Whether a part of the run is enough.
    pub overlap: bool,
}

/// When a limit is true, before it is inverted.
pub enum Rule {
    PassFail(bool),
    TestType(Items<TestKind>),
    Test { test: TestKind, lengths: Lengths },
    RunDateRange(DateRange),
    RunSchedule(Schedule),
}

// Written out, so that a drop elsewhere is one call, and not a case for each kind.
impl Drop for Rule {
    fn drop(self) {
        match self {
            Rule::PassFail(_) => {}
            Rule::TestType(_) => {}
            Rule::Test {
                test: _,
                lengths: _,
            } => {}
            Rule::RunDateRange(_) => {}
            Rule::RunSchedule(_) => {}
        }
    }
}

/// A rule for runs; inverted it holds exactly where the rule does not.
#[derive(Drop)]
pub struct Limit {
    pub rule: Rule,
    pub invert: bool,
}

impl Duplicate for Rule {
    fn duplicate(&self, alloc: Global) -> Result<Rule, Memory> {
        match self {
            Rule::PassFail(pass) => Ok(Rule::PassFail(*pass)),
            Rule::TestType(kinds) => Ok(Rule::TestType(kinds.copy(alloc)?)),
            Rule::Test { test, lengths } => Ok(Rule::Test {
                test: *test,
                lengths: *lengths,
            }),
            Rule::RunDateRange(range) => Ok(Rule::RunDateRange(*range)),
            Rule::RunSchedule(schedule) => Ok(Rule::RunSchedule(schedule.duplicate(alloc)?)),
        }
    }
}

impl Duplicate for Limit {
    fn duplicate(&self, alloc: Global) -> Result<Limit, Memory> {
        Ok(Limit {
            rule: self.rule.duplicate(alloc)?,
            invert: self.invert,
        })
    }
}

fn duration_in(test: &TestSpec) -> Option<Length>
    ensures { result ≡ duration_in test.now }
{
    match test {
        TestSpec::Idle(sleep) => Some(sleep.duration),
        TestSpec::Idleex(sleep) => Some(sleep.duration),
        TestSpec::Idlebgm { sleep, .. } => Some(sleep.duration),
        TestSpec::Idlemany { sleep, .. } => Some(sleep.duration),
        TestSpec::Simplestream { .. } => None,
    }
}

fn interval_in(test: &TestSpec) -> Option<Length>
    ensures { result ≡ interval_in test.now }
{
    match test {
        TestSpec::Idlebgm { interval, .. } => Some(*interval),
        _ => None,
    }
}

fn dawdle_in(test: &TestSpec) -> Option<Length>
    ensures { result ≡ dawdle_in test.now }
{
    match test {
        TestSpec::Simplestream { dawdle, .. } => Some(*dawdle),
        _ => None,
    }
}

fn timeout_in(test: &TestSpec) -> Option<Length>
    ensures { result ≡ timeout_in test.now }
{
    match test {
        TestSpec::Simplestream { timeout, .. } => Some(*timeout),
        _ => None,
    }
}

fn is_kept(bounds: Option<Bounds>, length: Option<Length>) -> bool
    ensures { result ≡ kept bounds length }
{
    let Some(bounds) = bounds else {
        return true;
    };
    match length {
        Some(length) => bounds.contains(length),
        None => false,
    }
}

impl Lengths {
    fn are_kept(&self, test: &TestSpec) -> bool
        ensures { result ≡ lengths_kept self.now test.now }
    {
        is_kept(self.duration, duration_in(test))
            && is_kept(self.interval, interval_in(test))
            && is_kept(self.dawdle, dawdle_in(test))
            && is_kept(self.timeout, timeout_in(test))
    }
}

fn is_same_kind(a: TestKind, b: TestKind) -> bool
    ensures { result ≡ same_kind a b }
{
    kind_name(a) == kind_name(b)
}

fn is_listed(kind: TestKind, kinds: &[TestKind]) -> bool
    ensures { result ≡ is_listed kind kinds.now }
{
    for other in kinds {
        if is_same_kind(*other, kind) {
            return true;
        }
    }
    false
}

impl DateRange {
    fn has(&self, run: &Interval) -> bool
        ensures { result ≡ in_dates self.now run.now }
    {
        if self.overlap {
            self.start.max(run.start) < self.end.min(run.end)
        } else {
            self.start <= run.start && run.end <= self.end
        }
    }
}

fn is_in_range(range: &DateRange, run: &Option<Interval>) -> bool
    ensures { result ≡ in_range range.now run.now }
{
    match run {
        Some(run) => range.has(run),
        None => false,
    }
}

fn is_in_schedule(schedule: &Schedule, run: &Option<Interval>) -> bool
    ensures { result ≡ in_times schedule.now run.now }
{
    match run {
        Some(run) => schedule.has(run),
        None => false,
    }
}

impl Rule {
    fn holds(&self, test: &TestSpec, run: &Option<Interval>) -> bool
        ensures { result ≡ rule_holds test.now run.now self.now }
    {
        match self {
            Rule::PassFail(pass) => *pass,
            Rule::TestType(kinds) => is_listed(kind_of(test), kinds.as_slice()),
            Rule::Test {
                test: kind,
                lengths,
            } => is_same_kind(*kind, kind_of(test)) && lengths.are_kept(test),
            Rule::RunDateRange(range) => is_in_range(range, run),
            Rule::RunSchedule(schedule) => is_in_schedule(schedule, run),
        }
    }

    fn is_of_runs(&self) -> bool
        ensures { result ≡ is_run_rule self.now }
    {
        match self {
            Rule::PassFail(_) => false,
            Rule::TestType(_) => false,
            Rule::Test { .. } => false,
            Rule::RunDateRange(_) => true,
            Rule::RunSchedule(_) => true,
        }
    }
}

impl Limit {
    /// Whether the limit is true of a test, and of a run of it where there is one; one that speaks of runs is
    /// never true without a run, before it is inverted.
    pub fn holds(&self, test: &TestSpec, run: &Option<Interval>) -> bool
        ensures { result ≡ limit_holds test.now run.now self.now }
    {
        let holds = self.rule.holds(test, run);
        if self.invert { !holds } else { holds }
    }

    /// Whether it speaks of runs.
    pub fn is_of_runs(&self) -> bool
        ensures { result ≡ is_run_rule self.now.rule }
    {
        self.rule.is_of_runs()
    }
}
