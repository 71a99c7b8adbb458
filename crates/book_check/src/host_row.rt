//! Whether a row keeps the rules of its host.
ghost use Rattle.std.specs.Prelude.{◌≡◌, ◌↔◌, All, IfOk, IsTrue, option_copied};
ghost use Rattle.archive_retry.specs.Bounds.{IsPolicy, IsStateOf};
ghost use Rattle.task_spec.specs.declared.task.Archive.{Archive as Entry};
ghost use Rattle.host_model.specs.Book.{find_task};
ghost use Rattle.host_model.specs.Effect.{archives_of};
ghost use Rattle.host_model.specs.LawfulRow.{HasLead, HasStates, IsHostRow};
ghost use Rattle.row_check.specs.HasTests.{HasTests};
ghost use Rattle.book_check.specs.Known.{IsReadTask};
ghost use Rattle.book_check.specs.States.{AreEachStates, AreStates};

use archive_retry::state::ArchiveState;
use host_model::task_row::TaskRow;
use ps_time::key::RunKey;
use ps_time::memory::Memory;
use ps_time::moment::{MAX_LENGTH, MAX_MOMENT, Moment};
use row_check::row::is_lawful_row;
use run_states::row::RunRow;
use std::alloc::Global;
use task_spec::task::Archive;

/// The task of the serial, if there is one.
pub fn find_task(tasks: &[TaskRow], serial: u32) -> Option<&TaskRow>
    ensures { option_copied result ≡ find_task tasks.now serial }
{
    tasks.iter().find(|task| task.serial == serial)
}

fn has_lead(number: u16, tasks: &[TaskRow], row: &RunRow) -> bool
    ensures { IsTrue result ↔ HasLead number tasks.now row.now row.now.asked }
{
    match row.asked {
        Some(_) => row.key.lead == number && find_task(tasks, row.key.task).is_some(),
        None => {
            if row.key.lead == number {
                row.key.task == 0 && row.participants.len() == 1
            } else {
                true
            }
        }
    }
}

/// The archives of the run's task; a run of no task has none.
pub fn archives_of(tasks: &[TaskRow], key: RunKey) -> &[Archive]
    ensures archives { result.now ≡ archives_of tasks.now key }
    ensures policies { All IsReadTask tasks.now → All (λ (a : Entry). IsPolicy a.policy) result.now }
{
    match find_task(tasks, key.task) {
        Some(task) => task.task.archives.as_slice(),
        None => &[],
    }
}

fn has_states(number: u16, archives: &[Archive], row: &RunRow) -> bool
    ensures { IsTrue result ↔ HasStates number archives.now row.now row.now.merged }
{
    match row.merged {
        None => true,
        Some(_) => row.key.lead == number && row.archives.len() == archives.len(),
    }
}

/// Whether the state is one that an archive with this policy comes to.
pub fn is_state_of(archive: &Archive, state: &ArchiveState) -> bool
    requires { IsPolicy archive.now.policy }
    ensures { IsTrue result ↔ IsStateOf archive.now.policy state.now }
{
    match state.next {
        None => true,
        Some(next) => next <= MAX_MOMENT + MAX_LENGTH && state.tried <= archive.policy.attempts(),
    }
}

fn are_each_states(archives: &[Archive], states: &[ArchiveState]) -> bool
    requires { All (λ (a : Entry). IsPolicy a.policy) archives.now }
    ensures { IsTrue result ↔ AreEachStates archives.now states.now }
{
    let mut left = states;
    for archive in archives {
        match left {
            [state, rest @ ..] => {
                if !is_state_of(archive, state) {
                    return false;
                }
                left = rest;
            }
            [] => return true,
        }
    }
    true
}

fn are_states(archives: &[Archive], states: &[ArchiveState]) -> bool
    requires { All (λ (a : Entry). IsPolicy a.policy) archives.now }
    ensures { IsTrue result ↔ AreStates archives.now states.now }
{
    are_each_states(archives, states)
}

/// Whether a row that was read keeps all rules that it keeps beside these tasks, in a book of the host with this number
/// whose latest moment is this one.
pub fn is_host_row(
    alloc: Global,
    number: u16,
    tasks: &[TaskRow],
    moment: Moment,
    row: &RunRow,
) -> Result<bool, Memory>
    requires tasks { All IsReadTask tasks.now }
    requires row { HasTests row.now }
    ensures { IfOk result (λ is. IsTrue is ↔ IsHostRow number tasks.now moment row.now) }
{
    let alone = is_lawful_row(alloc, moment, row)?;
    let archives = archives_of(tasks, row.key);
    let stated = are_states(archives, row.archives.as_slice());
    Ok(alone && has_lead(number, tasks, row) && has_states(number, archives, row) && stated)
}

/// Whether each of the rows keeps all these rules.
pub fn are_host_rows(
    alloc: Global,
    number: u16,
    tasks: &[TaskRow],
    moment: Moment,
    rows: &[RunRow],
) -> Result<bool, Memory>
    requires tasks { All IsReadTask tasks.now }
    requires rows { All HasTests rows.now }
    ensures { IfOk result (λ are. IsTrue are ↔ All (IsHostRow number tasks.now moment) rows.now) }
{
    for row in rows {
        let is = is_host_row(alloc, number, tasks, moment, row)?;
        if !is {
            return Ok(false);
        }
    }
    Ok(true)
}
