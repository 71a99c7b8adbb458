//! The tasks of a book.
ghost use Rattle.std.specs.List.{range_with_len};
ghost use Rattle.std.specs.Prelude.{◌≡◌, ◌≤◌, ◌↔◌, All, IsTrue, length, map};
ghost use Rattle.ps_time.specs.Numbers.{most_tasks};
ghost use Rattle.host_model.specs.Lawful.{IsLawfulTask};
ghost use Rattle.book_check.specs.Known.{IsReadTask};

use host_model::task_row::TaskRow;
use ps_time::moment::Moment;

/// Whether no moment of the task is after this one.
pub fn is_lawful_task(moment: Moment, task: &TaskRow) -> bool
    requires { IsReadTask task.now }
    ensures { IsTrue result ↔ IsLawfulTask moment task.now }
{
    let closed = match task.closed {
        None => true,
        Some(closed) => closed <= moment,
    };
    task.posted <= moment && closed
}

/// Whether no moment of these tasks is after this one.
pub fn are_lawful_tasks(moment: Moment, tasks: &[TaskRow]) -> bool
    requires { All IsReadTask tasks.now }
    ensures { IsTrue result ↔ All (IsLawfulTask moment) tasks.now }
{
    for task in tasks {
        if !is_lawful_task(moment, task) {
            return false;
        }
    }
    true
}

/// Whether their serials are 1, 2, 3 and so on.
pub fn have_serials(tasks: &[TaskRow]) -> bool
    requires { length tasks.now ≤ most_tasks }
    ensures { IsTrue result ↔ (map (λ t. t.serial) tasks.now ≡ range_with_len 1 (length tasks.now)) }
{
    let mut next = 1;
    for task in tasks {
        if task.serial != next {
            return false;
        }
        next += 1;
    }
    true
}
