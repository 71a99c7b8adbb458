//! What a host reads of its whole book to show it.
ghost use Rattle.std.specs.Prelude.{◌≡◌, find};
ghost use Rattle.host_model.specs.Book.{keys_of_rows};
ghost use Rattle.host_timeline.specs.Booking.{is_after};
ghost use Rattle.run_states.specs.Rows.{IsAscendingRows};

use host_inputs::hosting::Hosting;
use host_model::task_row::TaskRow;
use ps_time::key::RunKey;

/// What a host reads of its book for a page, beside what it reads in a step: all tasks, and all runs from key to key.
pub trait Showing: Hosting {
    /// The tasks, ascending by serial.
    fn tasks(&self) -> &[TaskRow]
        ensures { result.now ≡ (Self.kept self.now).tasks };

    /// The least key above another among all runs.
    fn next_row(&self, after: Option<RunKey>) -> Option<RunKey>
        ensures key { result ≡ find (is_after after) (keys_of_rows (Self.seen self.now)) }
        ensures ascending { IsAscendingRows (Self.seen self.now) };
}
