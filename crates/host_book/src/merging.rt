//! The archives of a run whose results are merged.
ghost use Rattle.std.specs.Prelude.{◌≡◌, ◌≤◌, [], IfOk, length, vec_capacity};
ghost use Rattle.std.specs.Option.{option_copied};
ghost use Rattle.ps_time.specs.declared.moment.TheConstants.{MAX_MOMENT};
ghost use Rattle.host_model.specs.Book.{find_task};
ghost use Rattle.host_model.specs.Effect.{archives_of, states_due};
ghost use Rattle.host_book.specs.Ready.{most_archives};

use archive_retry::state::ArchiveState;
use host_model::task_row::TaskRow;
use ps_time::items::Items;
use ps_time::key::RunKey;
use ps_time::memory::Memory;
use ps_time::moment::Moment;
use std::alloc::Global;
use task_spec::task::Archive;

/// The most archives of a task.
const MOST_ARCHIVES: usize = 8;

/// Places for the states of the archives of a task.
pub fn archive_places(alloc: Global) -> Result<Vec<ArchiveState>, Memory>
    ensures empty { IfOk result (λ states. states.items ≡ []) }
    ensures places { IfOk result (λ states. most_archives ≤ vec_capacity states) }
{
    let mut states = Vec::new(alloc);
    states.reserve(MOST_ARCHIVES)?;
    Ok(states)
}

/// The archives of the run's task are due from the moment on; a booking has none. They take the places of the empty list.
pub fn states_due(
    moment: Moment,
    tasks: &[TaskRow],
    key: RunKey,
    places: Vec<ArchiveState>,
) -> Items<ArchiveState>
    requires moment { moment ≤ MAX_MOMENT }
    requires empty { places.items ≡ [] }
    requires enough { length (archives_of tasks.now key) ≤ vec_capacity places }
    ensures { result ≡ states_due moment (archives_of tasks.now key) }
{
    match find_task(tasks, key.task) {
        Some(task) => each_due(moment, task.task.archives.as_slice(), places),
        None => Items::from_vec(places),
    }
}

fn find_task(tasks: &[TaskRow], serial: u32) -> Option<&TaskRow>
    ensures { option_copied result ≡ find_task tasks.now serial }
{
    tasks.iter().find(|task| task.serial == serial)
}

fn each_due(moment: Moment, archives: &[Archive], places: Vec<ArchiveState>) -> Items<ArchiveState>
    requires moment { moment ≤ MAX_MOMENT }
    requires empty { places.items ≡ [] }
    requires enough { length archives.now ≤ vec_capacity places }
    ensures { result ≡ states_due moment archives.now }
{
    let mut states = places;
    for _archive in archives {
        states.push(ArchiveState::due_from(moment)).unwrap();
    }
    Items::from_vec(states)
}
