//! Whether the tasks of a book are lawful.
ghost use Rattle.std.specs.List.{range_with_len};
ghost use Rattle.std.specs.Prelude.{◌≡◌, ◌≤◌, ◌↔◌, All, IsTrue, length, map};
ghost use Rattle.ps_time.specs.Numbers.{most_tasks};
ghost use Rattle.host_model.specs.Lawful.{IsLawfulTask};
ghost use Rattle.book_check.specs.Known.{IsReadTask};

use book_check::tasks::{are_lawful_tasks, have_serials};
use host_model::task_row::TaskRow;
use ps_time::moment::Moment;

/// The most tasks that a book has.
pub const MOST_TASKS: usize = 2_000;

/// Whether there are so few of them, with the serials 1, 2, 3 and so on, and none has a moment after this one.
pub(crate) fn are_tasks(moment: Moment, tasks: &[TaskRow]) -> bool
    requires { All IsReadTask tasks.now }
    ensures { IsTrue result ↔ ((length tasks.now ≤ most_tasks) × (map (λ t. t.serial) tasks.now ≡ range_with_len 1 (length tasks.now)) × All (IsLawfulTask moment) tasks.now) }
{
    tasks.len() <= MOST_TASKS && have_serials(tasks) && are_lawful_tasks(moment, tasks)
}
