//! A rule, the windows of its numbers, and the jump to the next number.
ghost use Rattle.std.specs.Prelude.{◌≡◌, ◌+◌, ◌*◌, ◌≤◌, ◌<◌, ◌↔◌, ℕ, IsNone, IsSome, IfSome, IfNone, IsTrue};
ghost use Rattle.ps_time.specs.Starts.{is_within};
ghost use Rattle.schedule_rule.specs.Rule.{has_number, nominal_start, latest_start, last_start, is_allowed, window_of, window_reaches, reaches_from, next_of, IsLeast, IsGreatest, HoldsNowhere};

use ps_time::duplicate::Duplicate;
use ps_time::interval::Window;
use ps_time::memory::Memory;
use ps_time::moment::{Length, MAX_LENGTH, MAX_MOMENT, Moment};
use ps_time::same::Same;
use std::alloc::Global;
use std::marker::Model;

/// When the runs of a task may start: the `schedule` of a pScheduler task. Run number `k`, counted
/// from 0, may start from `anchor + k * repeat` on, and up to `slip` later.
#[derive(Clone, Copy, Debug, PartialEq, Eq)]
pub struct Rule {
    /// The nominal start of number 0: at most `MAX_MOMENT`.
    pub anchor: Moment,
    /// How much later than nominal a run may start: at most `MAX_LENGTH`.
    pub slip: Length,
    /// From one nominal start to the next: 1 to `MAX_LENGTH`. Where absent, number 0 is the only one.
    pub repeat: Option<Length>,
    /// No run starts after it: at most `MAX_MOMENT`.
    pub until: Option<Moment>,
    /// How many numbers there are, those of failed runs among them: at least 1.
    pub max_runs: Option<u32>,
}

impl Model for Rule {
    ghost use Rattle.schedule_rule.specs.Rule.{Schedule, IsRule};

    ghost Value = { Schedule };

    ghost view = { λ r. record { anchor = r.anchor; slip = r.slip; repeat = r.repeat; until = r.until; max_runs = r.max_runs } };

    ghost invariant = { λ r. IsRule (record { anchor = r.anchor; slip = r.slip; repeat = r.repeat; until = r.until; max_runs = r.max_runs }) };

    ghost inverse = { λ s. record { anchor = s.anchor; slip = s.slip; repeat = s.repeat; until = s.until; max_runs = s.max_runs } };
}

impl Duplicate for Rule {
    fn duplicate(&self, _alloc: Global) -> Result<Rule, Memory> {
        Ok(*self)
    }
}

impl Same for Rule {
    fn same(&self, other: &Rule) -> bool {
        self == other
    }
}

impl Rule {
    /// Whether there is a run of this number.
    fn has_number(&self, number: u32) -> bool
        ensures { result ≡ has_number self.now number }
    {
        (number == 0 || self.repeat.is_some()) && self.max_runs.is_none_or(|runs| number < runs)
    }

    /// The moment from which the number may start: far below 2^64 for every number of 32 bits.
    fn nominal_start(&self, number: u32) -> u64
        ensures value { result ≡ nominal_start self.now number }
        ensures small { result ≤ MAX_MOMENT + u32.MAX * MAX_LENGTH }
    {
        self.anchor + u64::from(number) * self.repeat.unwrap_or(0)
    }

    /// The last moment at which any run may start.
    fn last_start(&self) -> Moment
        ensures { result ≡ last_start self.now }
    {
        self.until.unwrap_or(MAX_MOMENT)
    }

    /// Whether the window of the number has its last start at or after the moment.
    fn reaches(&self, number: u32, moment: u64) -> bool
        ensures value { result ≡ window_reaches (window_of self.now number) moment }
        ensures bound { IsTrue result → number ≤ MAX_MOMENT }
    {
        window(self, number).is_some_and(|window| moment <= window.last)
    }

    /// The least number whose slip ends at or after the moment, found by division; 0 without a repeat.
    /// `None` where such numbers start after `MAX_MOMENT`.
    #[tactic(auto, using(crate::proofs::JumpLemmas::short))]
    fn first_reaching(&self, moment: u64) -> Option<u32>
        ensures before { IfSome result (λ k. (j : ℕ) → j < k → latest_start self.now j < moment) }
        ensures there { IfSome result (λ k. IsSome self.now.repeat → moment ≤ latest_start self.now k) }
        ensures none { IfNone result
            ((j : ℕ) → nominal_start self.now j ≤ MAX_MOMENT → latest_start self.now j < moment) }
    {
        let Some(repeat) = self.repeat else {
            return Some(0);
        };
        let missing = moment.saturating_sub(self.anchor + self.slip);
        u32::try_from(missing.div_ceil(repeat)).ok()
    }
}

/// The moments at which run `number` may start: each of the window's, and no other. `None` where there
/// are none.
pub fn window(rule: &Rule, number: u32) -> Option<Window>
    ensures value { result ≡ window_of rule.now number }
    ensures none { IsNone result ↔ HoldsNowhere (is_allowed rule.now number) }
    ensures least { IfSome result (λ w. IsLeast (is_allowed rule.now number) w.first) }
    ensures greatest { IfSome result (λ w. IsGreatest (is_allowed rule.now number) w.last) }
    ensures each { IfSome result (λ w. (s : ℕ) → is_allowed rule.now number s ≡ is_within w s) }
    ensures bound { IfSome result (λ _. number ≤ MAX_MOMENT) }
{
    let first = rule.nominal_start(number);
    let last = (first + rule.slip).min(rule.last_start());
    if rule.has_number(number) && first <= last {
        Some(Window { first, last })
    } else {
        None
    }
}

/// Whether run `number` may start at `start`.
pub fn allowed(rule: &Rule, number: u32, start: Moment) -> bool
    ensures { result ≡ is_allowed rule.now number start }
{
    window(rule, number).is_some_and(|window| window.first <= start && start <= window.last)
}

/// The least number at or after `from` whose window reaches `reach`: whose last start is at or after
/// it. `None` where there is none; `reach` may be any number of 64 bits. The number is far enough below 2^32 that the
/// next one is a `u32` too.
pub fn next_number(rule: &Rule, from: u32, reach: Moment) -> Option<u32>
    ensures value { result ≡ next_of rule.now from reach }
    ensures least { IfSome result (IsLeast (reaches_from rule.now from reach)) }
    ensures none { IsNone result ↔ HoldsNowhere (reaches_from rule.now from reach) }
    ensures bound { IfSome result (λ number. number ≤ MAX_MOMENT) }
{
    let number = from.max(rule.first_reaching(reach)?);
    rule.reaches(number, reach).then_some(number)
}
