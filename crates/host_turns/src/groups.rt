//! The groups of a turn: for each key, or task, in order, one more change, while there is place.
ghost use Rattle.std.specs.Prelude.{◌≡◌, ◌∷◌, ◌||◌, [], IfSome, IsSome, OnOk, Some, option_and_then, true};
ghost use Rattle.ps_time.specs.Name.{is_name};
ghost use Rattle.run_states.specs.Rows.{find_row};
ghost use Rattle.run_states.specs.Purging.{is_long_past};
ghost use Rattle.live_law.specs.Groups.{going_keys, make_keys};
ghost use Rattle.live_law.specs.Waking.{make_asked};
ghost use Rattle.host_rows.specs.LiveKeys.{find_own};
ghost use Rattle.host_rows.specs.Still.{is_live_by};
ghost use Rattle.host_model.specs.Book.{find_task};
ghost use Rattle.host_model.specs.Draft.{make};
ghost use Rattle.host_model.specs.NextAttempt.{ask};
ghost use Rattle.host_model.specs.Purging.{purge_run};
ghost use Rattle.host_draft.specs.Draft.{with_draft};
ghost use Rattle.host_turns.specs.Awake.{awake_among};
ghost use Rattle.host_turns.specs.Turns.{IsLiveTurn, IsTurn, MayMake, wish_of};

use crate::due::Due;
use crate::wishes::{Turn, purge_at};
use host_book::book::HostBook;
use host_draft::draft::Draft;
use host_model::change::Change;
use host_model::config::Config;
use host_model::task_row::TaskRow;
use host_rows::still::is_live_by;
use lead_core::question::ask;
use part_core::reading::Reading;
use ps_time::key::RunKey;
use ps_time::memory::Memory;
use ps_time::moment::Moment;
use run_states::lent::LentRows;
use run_states::row::RunRow;
use std::alloc::Global;

impl<'a> Turn<'a> {
    // Makes what is due of the live runs.
    pub(crate) fn make_due(
        &self,
        alloc: Global,
        draft: &mut Draft<'_>,
        due: Due,
    ) -> Result<(), Memory>
        requires { IsLiveTurn self.now.config.now self.now.tasks.now self.now.live.now self.now.exclusive.now draft.old }
        ensures made { OnOk result (draft.new ≡ with_draft (make_keys (wish_of due self.now.config.now draft.old.draft.book.moment) draft.old.draft.book.moment self.now.live.now draft.old.draft) draft.old) }
        ensures turn { OnOk result (IsLiveTurn self.now.config.now self.now.tasks.now self.now.live.now self.now.exclusive.now draft.new) }
    {
        for key in self.live {
            self.make_at(alloc, draft, due, *key)?;
        }
        Ok(())
    }

    fn make_at(
        &self,
        alloc: Global,
        draft: &mut Draft<'_>,
        due: Due,
        key: RunKey,
    ) -> Result<(), Memory>
        requires turn { IsLiveTurn self.now.config.now self.now.tasks.now self.now.live.now self.now.exclusive.now draft.old }
        requires live { IsSome (find_own self.now.live.now key) }
        ensures made { OnOk result (draft.new ≡ with_draft (make draft.old.draft.book.moment (option_and_then (wish_of due self.now.config.now draft.old.draft.book.moment draft.old.draft.book) (find_row draft.old.draft.book.rows key)) draft.old.draft) draft.old) }
        ensures turn { OnOk result (IsLiveTurn self.now.config.now self.now.tasks.now self.now.live.now self.now.exclusive.now draft.new) }
    {
        if draft.is_full() {
            return Ok(());
        }
        let wish = self.wish(alloc, draft, due, key)?;
        grant(alloc, draft, wish)
    }
}

// Makes the change that is wished for, if there is one.
fn grant(alloc: Global, draft: &mut Draft<'_>, wish: Option<Change>) -> Result<(), Memory>
    requires { IfSome wish (MayMake draft.old) }
    ensures { OnOk result (draft.new ≡ with_draft (make draft.old.draft.book.moment wish draft.old.draft) draft.old) }
{
    match wish {
        Some(change) => draft.make(alloc, change),
        None => Ok(()),
    }
}

// Asks about the next attempt of each task that was awake before the turn: no other has one.
pub(crate) fn make_asks(
    alloc: Global,
    draft: &mut Draft<'_>,
    config: &Config,
    tasks: &[TaskRow],
    book: &HostBook,
) -> Result<(), Memory>
    requires name { is_name config.now.name ≡ true }
    requires tasks { tasks.now ≡ book.now.book.tasks }
    requires turn { IsTurn config.now tasks.now draft.old }
    ensures made { OnOk result (draft.new ≡ with_draft (make_asked config.now draft.old.draft.book.moment (awake_among book.now.number book.now.book.rows draft.old.draft.book.moment tasks.now) draft.old.draft) draft.old) }
    ensures turn { OnOk result (IsTurn config.now tasks.now draft.new) }
{
    for task in tasks {
        ask_awake(alloc, draft, config, tasks, book, task)?;
    }
    Ok(())
}

fn ask_awake(
    alloc: Global,
    draft: &mut Draft<'_>,
    config: &Config,
    tasks: &[TaskRow],
    book: &HostBook,
    task: &TaskRow,
) -> Result<(), Memory>
    requires name { is_name config.now.name ≡ true }
    requires tasks { tasks.now ≡ book.now.book.tasks }
    requires turn { IsTurn config.now tasks.now draft.old }
    requires known { find_task tasks.now task.now.serial ≡ Some task.now }
    ensures made { OnOk result (draft.new ≡ with_draft (make_asked config.now draft.old.draft.book.moment (awake_among book.now.number book.now.book.rows draft.old.draft.book.moment (task.now ∷ [])) draft.old.draft) draft.old) }
    ensures turn { OnOk result (IsTurn config.now tasks.now draft.new) }
{
    if book.is_awake(task.serial, draft.moment()) {
        make_ask(alloc, draft, config, tasks, task)
    } else {
        Ok(())
    }
}

fn make_ask(
    alloc: Global,
    draft: &mut Draft<'_>,
    config: &Config,
    tasks: &[TaskRow],
    task: &TaskRow,
) -> Result<(), Memory>
    requires name { is_name config.now.name ≡ true }
    requires turn { IsTurn config.now tasks.now draft.old }
    requires known { find_task tasks.now task.now.serial ≡ Some task.now }
    ensures made { OnOk result (draft.new ≡ with_draft (make draft.old.draft.book.moment (ask config.now draft.old.draft.book.moment draft.old.draft.book task.now) draft.old.draft) draft.old) }
    ensures turn { OnOk result (IsTurn config.now tasks.now draft.new) }
{
    if draft.is_full() {
        return Ok(());
    }
    let wish = ask(alloc, draft, config, task)?;
    grant(alloc, draft, wish)
}

// Lets the rows go that are long past: of the rows of the host's book, as they were before it settled.
pub(crate) fn make_purges(
    alloc: Global,
    draft: &mut Draft<'_>,
    config: &Config,
    tasks: &[TaskRow],
    rows: LentRows<'_>,
) -> Result<(), Memory>
    requires { IsTurn config.now tasks.now draft.old }
    ensures { OnOk result (draft.new ≡ with_draft (make_keys (purge_run config.now draft.old.draft.book.moment) draft.old.draft.book.moment (going_keys config.now.number draft.old.draft.book.moment rows.entry) draft.old.draft) draft.old) }
{
    for row in rows {
        make_purge(alloc, draft, config, tasks, row)?;
    }
    Ok(())
}

fn make_purge(
    alloc: Global,
    draft: &mut Draft<'_>,
    config: &Config,
    tasks: &[TaskRow],
    row: &RunRow,
) -> Result<(), Memory>
    requires { IsTurn config.now tasks.now draft.old }
    ensures made { OnOk result (draft.new ≡ with_draft (make_keys (purge_run config.now draft.old.draft.book.moment) draft.old.draft.book.moment (going_keys config.now.number draft.old.draft.book.moment (row.now ∷ [])) draft.old.draft) draft.old) }
    ensures turn { OnOk result (IsTurn config.now tasks.now draft.new) }
{
    if may_go(row, config.number, draft.moment()) {
        purge_key(alloc, draft, config, tasks, row.key)
    } else {
        Ok(())
    }
}

// Lets the rows of these keys go that are long past.
pub(crate) fn purge_keys(
    alloc: Global,
    draft: &mut Draft<'_>,
    config: &Config,
    tasks: &[TaskRow],
    keys: &[RunKey],
) -> Result<(), Memory>
    requires { IsTurn config.now tasks.now draft.old }
    ensures { OnOk result (draft.new ≡ with_draft (make_keys (purge_run config.now draft.old.draft.book.moment) draft.old.draft.book.moment keys.now draft.old.draft) draft.old) }
{
    for key in keys {
        purge_key(alloc, draft, config, tasks, *key)?;
    }
    Ok(())
}

// Whether the row is long past, or live by the moment: no other goes, whatever the turn has made so far.
fn may_go(row: &RunRow, number: u16, moment: Moment) -> bool
    ensures { result ≡ (is_long_past moment row.now || is_live_by number moment row.now) }
{
    row.is_long_past(moment) || is_live_by(row, number, moment)
}

fn purge_key(
    alloc: Global,
    draft: &mut Draft<'_>,
    config: &Config,
    tasks: &[TaskRow],
    key: RunKey,
) -> Result<(), Memory>
    requires { IsTurn config.now tasks.now draft.old }
    ensures made { OnOk result (draft.new ≡ with_draft (make draft.old.draft.book.moment (option_and_then (purge_run config.now draft.old.draft.book.moment draft.old.draft.book) (find_row draft.old.draft.book.rows key)) draft.old.draft) draft.old) }
    ensures turn { OnOk result (IsTurn config.now tasks.now draft.new) }
{
    if draft.is_full() {
        return Ok(());
    }
    let wish = purge_at(draft, config, tasks, key);
    grant(alloc, draft, wish)
}
