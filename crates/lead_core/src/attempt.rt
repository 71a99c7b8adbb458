//! The next attempt of a task, and the question with which its lead begins it.
ghost use Rattle.std.specs.Prelude.{◌≡◌, ◌+◌, ◌≤◌, Some, true};
ghost use Rattle.std.specs.Option.{option_copied};
ghost use Rattle.ps_time.specs.declared.moment.TheConstants.{MAX_MOMENT};
ghost use Rattle.ps_time.specs.Numbers.{plan_lead};
ghost use Rattle.schedule_rule.specs.Rule.{window_of, window_reaches};
ghost use Rattle.host_model.specs.NextAttempt.{after_failure, attempt_after, attempt_at, attempt_by, fresh_attempt, is_repeatable, next_attempt, repeated};

use crate::leading::Leading;
use host_model::lead::Attempt;
use host_model::task_row::TaskRow;
use ps_time::interval::Window;
use ps_time::key::RunKey;
use ps_time::moment::Moment;
use run_states::row::RunRow;
use run_states::why::Closing;
use schedule_rule::rule::{Rule, next_number, window};

/// How far ahead of the present moment a start is planned at least, in seconds.
pub const PLAN_LEAD: u64 = 5;

/// How far ahead of the present moment a start is planned at most, in seconds: a day.
pub const HORIZON: u64 = 86_400;

/// How long after an attempt was closed the next one of the same number is made, in seconds.
pub const RETRY_WAIT: u64 = 30;

/// The last attempt at a number: they are counted from 0.
pub const LAST_ATTEMPT: u16 = 7;

/// The next attempt of a task that this host leads: none while the task's newest row is neither confirmed nor closed,
/// after a failure the same number again, half a minute later, else the first number that may still start in 5 s.
/// The row is found by search; no other rows are looked at, and no memory is taken.
pub fn next_attempt<R: Leading>(book: &R, lead: u16, task: &TaskRow) -> Option<Attempt>
    ensures { result ≡ next_attempt lead (R.seen book.now) (R.at book.now) task.now }
{
    if task.closed.is_some() {
        return None;
    }
    let newest = book.newest(lead, task.serial);
    attempt_by(&task.task.rule, newest, book.moment())
}

/// The next attempt of a task that is open, by its newest row, if there is one. Takes no memory.
pub fn attempt_by(rule: &Rule, newest: Option<&RunRow>, moment: Moment) -> Option<Attempt>
    requires { moment ≤ MAX_MOMENT }
    ensures { result ≡ attempt_by moment rule.now (option_copied newest.entry) }
{
    match newest {
        Some(row) => attempt_after(rule, row, moment),
        None => fresh_attempt(rule, 0, moment),
    }
}

fn attempt_after(rule: &Rule, row: &RunRow, moment: Moment) -> Option<Attempt>
    requires { moment ≤ MAX_MOMENT }
    ensures { result ≡ attempt_after moment rule.now row.now.key row.now.confirmed row.now.closed }
{
    if row.confirmed.is_some() {
        return later_attempt(rule, row.key, moment);
    }
    match &row.closed {
        Some(closing) => after_failure(rule, row.key, closing, moment),
        None => None,
    }
}

// After a row that was closed without a confirmation.
fn after_failure(rule: &Rule, key: RunKey, closing: &Closing, moment: Moment) -> Option<Attempt>
    requires { moment ≤ MAX_MOMENT }
    ensures { result ≡ after_failure moment rule.now key closing.now }
{
    if is_repeatable(rule, key, moment) {
        repeated(rule, key, closing, moment)
    } else {
        later_attempt(rule, key, moment)
    }
}

fn is_repeatable(rule: &Rule, key: RunKey, moment: Moment) -> bool
    requires { moment ≤ MAX_MOMENT }
    ensures { result ≡ is_repeatable moment rule.now key }
{
    key.attempt < LAST_ATTEMPT
        && window(rule, key.number).is_some_and(|window| moment + PLAN_LEAD <= window.last)
}

fn repeated(rule: &Rule, key: RunKey, closing: &Closing, moment: Moment) -> Option<Attempt>
    requires moment { moment ≤ MAX_MOMENT }
    requires again { is_repeatable moment rule.now key ≡ true }
    ensures { result ≡ repeated moment rule.now key closing.now }
{
    if moment < RETRY_WAIT || moment - RETRY_WAIT < closing.moment {
        return None;
    }
    attempt_at(rule, key.number, key.attempt + 1, moment)
}

// The first attempt at the least number above that of the key whose window reaches the moment 5 s on.
fn later_attempt(rule: &Rule, key: RunKey, moment: Moment) -> Option<Attempt>
    requires { moment ≤ MAX_MOMENT }
    ensures { result ≡ fresh_attempt moment rule.now (key.number + 1) }
{
    let _known = &rule.anchor;
    match key.number.checked_add(1) {
        Some(from) => fresh_attempt(rule, from, moment),
        None => None,
    }
}

fn fresh_attempt(rule: &Rule, from: u32, moment: Moment) -> Option<Attempt>
    requires { moment ≤ MAX_MOMENT }
    ensures { result ≡ fresh_attempt moment rule.now from }
{
    let number = next_number(rule, from, moment + PLAN_LEAD)?;
    attempt_at(rule, number, 0, moment)
}

// An attempt is made once its window begins within a day.
fn attempt_at(rule: &Rule, number: u32, attempt: u16, moment: Moment) -> Option<Attempt>
    requires moment { moment ≤ MAX_MOMENT }
    requires reaches { window_reaches (window_of rule.now number) (moment + plan_lead) ≡ true }
    ensures { result ≡ attempt_at moment number attempt (window_of rule.now number) }
{
    let window = window(rule, number)?;
    if moment + HORIZON < window.first {
        return None;
    }
    Some(Attempt {
        number,
        attempt,
        window: Window {
            first: window.first.max(moment + PLAN_LEAD),
            last: window.last.min(moment + HORIZON),
        },
    })
}
