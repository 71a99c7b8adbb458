//! What a lead reads of its book.
ghost use Rattle.std.specs.Prelude.{◌≡◌};
ghost use Rattle.std.specs.Option.{option_copied};
ghost use Rattle.run_states.specs.TaskRows.{newest_row};

use part_core::reading::Reading;
use run_states::row::RunRow;

/// What a lead reads of its book beside what every decision reads: the rows of one task, as they are now.
pub trait Leading: Reading {
    /// The row of this lead's task with this serial that has the greatest number and attempt.
    fn newest(&self, lead: u16, serial: u32) -> Option<&RunRow>
        ensures { option_copied result ≡ newest_row lead serial (Self.seen self.now) };
}
