//! When a task wakes.
ghost use Rattle.std.specs.Prelude.{◌≡◌, ◌+◌, List, None, Option, false, ℕ};
ghost use Rattle.std.specs.Option.{option_copied};
ghost use Rattle.ps_time.specs.declared.key.RunKey.{RunKey as KeySeen};
ghost use Rattle.run_states.specs.declared.row.RunRow.{RunRow as RowSeen};
ghost use Rattle.host_model.specs.Apply.{settled};
ghost use Rattle.host_model.specs.Book.{Book};
ghost use Rattle.host_model.specs.Draft.{fresh};
ghost use Rattle.host_model.specs.Lawful.{Lawful};
ghost use Rattle.host_model.specs.NextAttempt.{next_attempt};
ghost use Rattle.host_model.specs.declared.config.Config.{Config};
ghost use Rattle.host_model.specs.declared.task_row.TaskRow.{TaskRow as TaskSeen};
ghost use Rattle.live_law.specs.Groups.{turned_most};
ghost use Rattle.live_law.specs.Waking.{awake_serials, is_awake, turned_awake, wake_after, wake_by, wake_from, wake_of};

use host_model::task_row::TaskRow;
use ps_time::key::RunKey;
use ps_time::moment::Moment;
use run_states::row::RunRow;
use schedule_rule::rule::{Rule, window};

// How long before the first start of its window a task wakes, in seconds: a day.
const HORIZON: u64 = 86_400;

/// The moment from which the task may have a next attempt, in seconds since 1970 UTC, by its newest row: before it there is
/// none, as `law_asleep` says. It is 0 while that row isn't confirmed. `None` where no attempt will come any more. Takes no memory.
pub fn wake_of(task: &TaskRow, newest: Option<&RunRow>) -> Option<Moment>
    ensures { result ≡ wake_of task.now (option_copied newest.entry) }
{
    if task.closed.is_some() {
        return None;
    }
    wake_by(&task.task.rule, newest)
}

fn wake_by(rule: &Rule, newest: Option<&RunRow>) -> Option<Moment>
    ensures { result ≡ wake_by rule.now (option_copied newest.entry) }
{
    match newest {
        Some(row) => wake_after(rule, row),
        None => wake_from(rule, 0),
    }
}

fn wake_after(rule: &Rule, row: &RunRow) -> Option<Moment>
    ensures { result ≡ wake_after rule.now row.now.key row.now.confirmed }
{
    if row.confirmed.is_none() {
        return Some(0);
    }
    wake_behind(rule, row.key)
}

// Behind a confirmed row.
fn wake_behind(rule: &Rule, key: RunKey) -> Option<Moment>
    ensures { result ≡ wake_from rule.now (key.number + 1) }
{
    let _known = &rule.anchor;
    match key.number.checked_add(1) {
        Some(number) => wake_from(rule, number),
        None => None,
    }
}

fn wake_from(rule: &Rule, number: u32) -> Option<Moment>
    ensures { result ≡ wake_from rule.now number }
{
    let window = window(rule, number)?;
    Some(window.first.saturating_sub(HORIZON))
}

/// A law: a task that isn't awake at a moment has no next attempt then.
pub fn law_asleep()
    ensures { (self m : ℕ) (rows : List RowSeen) (t : TaskSeen) → is_awake self rows m t ≡ false → next_attempt self rows m t ≡ None }
{}

/// A law: the groups of a turn before the purging may ask about those tasks alone that were awake before it, and before the book
/// settled; this whatever keys the groups over rows go over.
pub fn law_awake()
    ensures { (c : Config) (m : ℕ) (live : List KeySeen) (b : Book) → Lawful c.number b → turned_awake c m live (awake_serials c.number m b) (fresh (settled m b)) ≡ turned_most c m live (fresh (settled m b)) }
{}
