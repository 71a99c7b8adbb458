//! The attempt that a host may make at an archive of a merged run.
ghost use Rattle.std.specs.Prelude.{◌≡◌, IfOk, slice_get};
ghost use Rattle.std.specs.Option.{option_copied};
ghost use Rattle.host_model.specs.Archives.{attempt_of, attempt_with, state_at_index};
ghost use Rattle.host_model.specs.Book.{find_task};
ghost use Rattle.host_model.specs.Effect.{archives_of};

use host_book::book::HostBook;
use host_model::lead::Due;
use host_model::task_row::TaskRow;
use ps_time::key::RunKey;
use ps_time::memory::Memory;
use run_states::row::RunRow;
use std::alloc::Global;
use task_spec::task::Archive;

/// The attempt that may be made at the archive with this position among those of the run's task, if there is one: where the
/// run is merged, whether or not the archive is due.
pub fn attempt_of(
    alloc: Global,
    book: &HostBook,
    key: RunKey,
    index: u8,
) -> Result<Option<Due>, Memory>
    ensures { IfOk result (λ made. made ≡ attempt_of book.now.book key index) }
{
    match book.rows().find(key) {
        Some(row) => attempt_with(alloc, row, index, archive_at(book.tasks(), key, index)),
        None => Ok(None),
    }
}

// The archive of the run's task.
fn archive_at(tasks: &[TaskRow], key: RunKey, index: u8) -> Option<&Archive>
    ensures { option_copied result ≡ slice_get (archives_of tasks.now key) index }
{
    let task = find_task(tasks, key.task)?;
    let archives = task.task.archives.as_slice();
    archives.get(usize::from(index))
}

fn find_task(tasks: &[TaskRow], serial: u32) -> Option<&TaskRow>
    ensures { option_copied result ≡ find_task tasks.now serial }
{
    tasks.iter().find(|task| task.serial == serial)
}

// Where the run is merged and has a state for the archive.
fn attempt_with(
    alloc: Global,
    row: &RunRow,
    index: u8,
    archive: Option<&Archive>,
) -> Result<Option<Due>, Memory>
    ensures { IfOk result (λ made. made ≡ attempt_with row.now index row.now.merged (state_at_index row.now index) (option_copied archive.entry)) }
{
    let Some(merged) = &row.merged else {
        return Ok(None);
    };
    let states = row.archives.as_slice();
    let (Some(state), Some(archive)) = (states.get(usize::from(index)), archive) else {
        return Ok(None);
    };
    Ok(Some(Due {
        key: row.key,
        index,
        tried: state.tried,
        archiver: archive.archiver.copy(alloc)?,
        settings: archive.settings.copy(alloc)?,
        merged: merged.copy(alloc)?,
    }))
}
