//! What a host reads of its whole book.
ghost use Rattle.std.specs.Prelude.{◌≡◌, IfSome, length};
ghost use Rattle.std.specs.List.{last_or};
ghost use Rattle.std.specs.Option.{option_copied};
ghost use Rattle.std.specs.Prelude.{None};
ghost use Rattle.run_states.specs.Rows.{IsAscendingRows};
ghost use Rattle.run_states.specs.TaskRows.{greatest_number};
ghost use Rattle.host_model.specs.Book.{find_task};
ghost use Rattle.host_inputs.specs.Kept.{HasPolicies, BesideRows};
ghost use Rattle.host_inputs.specs.Runs.{next_run};

use host_model::task_row::TaskRow;
use lead_core::leading::Leading;
use limit_apply::limits::Limits;
use ps_time::key::RunKey;

/// What a host reads of its book in a step, beside what it reads as a lead: its tasks, the limits that were set, and the
/// runs of one task from key to key.
pub trait Hosting: Leading {
    // What the book has beside its rows: the tasks, the epochs, and the epochs of runs.
    ghost kept: { Self → BesideRows };

    /// The task of the serial.
    fn task(&self, serial: u32) -> Option<&TaskRow>
        ensures task { option_copied result ≡ find_task (kept self.now).tasks serial }
        ensures policies { IfSome (option_copied result) HasPolicies };

    /// How many tasks there are.
    fn task_count(&self) -> u32
        ensures { result ≡ length (kept self.now).tasks };

    /// The limits of the latest epoch, where there is one.
    fn latest_limits(&self) -> Option<&Limits>
        ensures { option_copied result ≡ last_or None (kept self.now).epochs };

    /// The greatest number of a run of this lead's task with this serial; 0 where it has none.
    fn greatest_number(&self, lead: u16, serial: u32) -> u32
        ensures number { result ≡ greatest_number lead serial (Self.seen self.now) }
        ensures ascending { IsAscendingRows (Self.seen self.now) };

    /// The least key above another among the runs of this lead's task with this serial.
    fn next_of_task(&self, lead: u16, serial: u32, after: Option<RunKey>) -> Option<RunKey>
        ensures key { result ≡ next_run lead serial after (Self.seen self.now) }
        ensures ascending { IsAscendingRows (Self.seen self.now) };
}
