//! Canceling a task at its lead.
ghost use Rattle.std.specs.Prelude.{◌≡◌, ◌&&◌, is_some, not, option_and_then};
ghost use Rattle.std.specs.Option.{option_to_list};
ghost use Rattle.run_states.specs.Rows.{find_row};
ghost use Rattle.run_states.specs.TaskRows.{is_of_task};
ghost use Rattle.host_model.specs.Post.{cancel_run, close_unless};
ghost use Rattle.lead_core.specs.Books.{book_of_rows};

use host_model::change::Change;
use host_model::task_row::TaskRow;
use part_core::reading::Reading;
use ps_time::key::RunKey;
use run_states::row::RunRow;
use run_states::why::Why;

/// What canceling changes in the task: it is closed, unless it is already. Takes no memory.
pub fn close_task(task: &TaskRow) -> Option<Change>
    ensures { option_to_list result ≡ close_unless task.now }
{
    if task.closed.is_some() {
        None
    } else {
        Some(Change::TaskClosed(task.serial))
    }
}

/// What canceling this lead's task with this serial changes in the run of a key, where it is one of the task's: unless it
/// is started or closed, it is closed. Takes no memory.
pub fn cancel_run<R: Reading>(book: &R, lead: u16, serial: u32, key: RunKey) -> Option<Change>
    ensures { result ≡ option_and_then (cancel_run lead serial (book_of_rows (R.seen book.now))) (find_row (R.seen book.now) key) }
{
    match book.find(key) {
        Some(row) if is_canceled(row, lead, serial) => Some(Change::Closed {
            key: row.key,
            why: Why::Canceled,
        }),
        _ => None,
    }
}

fn is_canceled(row: &RunRow, lead: u16, serial: u32) -> bool
    ensures { result ≡ (is_of_task lead serial row.now && (not (is_some row.now.started) && not (is_some row.now.closed))) }
{
    row.is_of_task(lead, serial) && row.started.is_none() && row.closed.is_none()
}
