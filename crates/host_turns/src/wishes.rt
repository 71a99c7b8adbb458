//! What a turn wishes for at a key, a task, read off its draft.
ghost use Rattle.std.specs.List.{range_with_len};
ghost use Rattle.std.specs.Prelude.{◌≡◌, IfOk, length, map, option_and_then, slice_get};
ghost use Rattle.std.specs.Option.{option_copied};
ghost use Rattle.run_states.specs.Rows.{find_row};
ghost use Rattle.host_model.specs.Book.{find_task};
ghost use Rattle.host_model.specs.Ending.{end_run};
ghost use Rattle.host_model.specs.Merging.{merge_run};
ghost use Rattle.host_model.specs.Plan.{plan_run};
ghost use Rattle.host_model.specs.Purging.{purge_run};
ghost use Rattle.host_model.specs.Starting.{start_run};
ghost use Rattle.host_turns.specs.Turns.{IsLiveTurn, IsTurn, wish_of};

use crate::due::Due;
use crate::ending::end_run;
use crate::exclusive::hindering_keys;
use crate::merging::merge_run;
use crate::purging::purge_run;
use crate::starting::start_run;
use host_draft::draft::Draft;
use host_model::change::Change;
use host_model::config::Config;
use host_model::task_row::TaskRow;
use lead_core::planning::plan_run;
use part_core::reading::Reading;
use plugin_core::test_spec::class_of;
use ps_time::key::RunKey;
use ps_time::memory::Memory;
use std::alloc::Global;

/// What a turn goes by, beside its draft.
#[derive(Clone, Copy)]
pub(crate) struct Turn<'a> {
    pub(crate) config: &'a Config,
    // of the host: no change of a turn touches them
    pub(crate) tasks: &'a [TaskRow],
    // the keys of all rows that were live by its moment, ascending
    pub(crate) live: &'a [RunKey],
    // those of exclusive runs among them
    pub(crate) exclusive: &'a [RunKey],
}

impl<'a> Turn<'a> {
    // What is due of the run of the key.
    pub(crate) fn wish(
        &self,
        alloc: Global,
        draft: &Draft<'_>,
        due: Due,
        key: RunKey,
    ) -> Result<Option<Change>, Memory>
        requires { IsLiveTurn self.now.config.now self.now.tasks.now self.now.live.now self.now.exclusive.now draft.now }
        ensures { IfOk result (λ wish. wish ≡ option_and_then (wish_of due self.now.config.now draft.now.draft.book.moment draft.now.draft.book) (find_row draft.now.draft.book.rows key)) }
    {
        match due {
            Due::End => end_at(alloc, draft, self.config, self.tasks, key),
            Due::Merge => merge_at(alloc, draft, self.config, self.tasks, key),
            Due::Start => Ok(start_at(
                draft,
                self.config,
                self.tasks,
                self.live,
                self.exclusive,
                key,
            )),
            Due::Plan => plan_at(alloc, draft, self.config, self.tasks, key),
        }
    }
}

fn end_at(
    alloc: Global,
    draft: &Draft<'_>,
    config: &Config,
    tasks: &[TaskRow],
    key: RunKey,
) -> Result<Option<Change>, Memory>
    requires { IsTurn config.now tasks.now draft.now }
    ensures { IfOk result (λ wish. wish ≡ option_and_then (end_run config.now draft.now.draft.book.moment draft.now.draft.book) (find_row draft.now.draft.book.rows key)) }
{
    match draft.find(key) {
        Some(row) => end_run(alloc, config, row, draft.moment()),
        None => Ok(None),
    }
}

fn merge_at(
    alloc: Global,
    draft: &Draft<'_>,
    config: &Config,
    tasks: &[TaskRow],
    key: RunKey,
) -> Result<Option<Change>, Memory>
    requires { IsTurn config.now tasks.now draft.now }
    ensures { IfOk result (λ wish. wish ≡ option_and_then (merge_run config.now draft.now.draft.book.moment draft.now.draft.book) (find_row draft.now.draft.book.rows key)) }
{
    match draft.find(key) {
        Some(row) => merge_run(alloc, config, row, draft.moment()),
        None => Ok(None),
    }
}

fn start_at(
    draft: &Draft<'_>,
    config: &Config,
    tasks: &[TaskRow],
    live: &[RunKey],
    exclusive: &[RunKey],
    key: RunKey,
) -> Option<Change>
    requires { IsLiveTurn config.now tasks.now live.now exclusive.now draft.now }
    ensures { result ≡ option_and_then (start_run draft.now.draft.book.moment draft.now.draft.book) (find_row draft.now.draft.book.rows key) }
{
    match draft.find(key) {
        Some(row) => {
            let keys = hindering_keys(class_of(&row.test), live, exclusive);
            start_run(draft, keys, row)
        }
        None => None,
    }
}

fn plan_at(
    alloc: Global,
    draft: &Draft<'_>,
    config: &Config,
    tasks: &[TaskRow],
    key: RunKey,
) -> Result<Option<Change>, Memory>
    requires { IsTurn config.now tasks.now draft.now }
    ensures { IfOk result (λ wish. wish ≡ option_and_then (plan_run config.now draft.now.draft.book.moment draft.now.draft.book) (find_row draft.now.draft.book.rows key)) }
{
    plan_run(alloc, draft, config, find_task(tasks, key.task), key)
}

// The task of the serial, which is its place counted from 1.
fn find_task(tasks: &[TaskRow], serial: u32) -> Option<&TaskRow>
    requires { map (λ t. t.serial) tasks.now ≡ range_with_len 1 (length tasks.now) }
    ensures { option_copied result ≡ find_task tasks.now serial }
{
    if serial == 0 {
        return None;
    }
    task_at(tasks, serial as usize - 1)
}

fn task_at(tasks: &[TaskRow], place: usize) -> Option<&TaskRow>
    ensures { option_copied result ≡ slice_get tasks.now place }
{
    tasks.get(place)
}

/// Whether the row of the key is long past.
pub(crate) fn purge_at(
    draft: &Draft<'_>,
    config: &Config,
    tasks: &[TaskRow],
    key: RunKey,
) -> Option<Change>
    requires { IsTurn config.now tasks.now draft.now }
    ensures { result ≡ option_and_then (purge_run config.now draft.now.draft.book.moment draft.now.draft.book) (find_row draft.now.draft.book.rows key) }
{
    match draft.find(key) {
        Some(row) => purge_run(draft, config, row),
        None => None,
    }
}
