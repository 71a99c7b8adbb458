//! What a decision reads of a book.
ghost use Rattle.std.specs.Prelude.{◌≡◌, ◌≤◌, ℕ, List, IfOk, IfSome, length};
ghost use Rattle.std.specs.Option.{option_copied};
ghost use Rattle.ps_time.specs.declared.moment.TheConstants.{MAX_MOMENT};
ghost use Rattle.limit_apply.specs.Limits.{LimitsConfig as LimitsSeen};
ghost use Rattle.run_states.specs.declared.row.RunRow.{RunRow as Row};
ghost use Rattle.run_states.specs.Life.{HasMoments};
ghost use Rattle.run_states.specs.ResultBytes.{result_bytes};
ghost use Rattle.run_states.specs.Rows.{find_row, IsAscendingRows};
ghost use Rattle.host_model.specs.FreeStarts.{free_tiers};
ghost use Rattle.part_core.specs.Seen.{IsUnbooked, firm_key, next_key};

use limit_apply::limits::Limits;
use ps_time::class::Class;
use ps_time::interval::{Interval, Window};
use ps_time::key::RunKey;
use ps_time::memory::Memory;
use ps_time::moment::{Length, Moment};
use ps_time::tiers::Tiers;
use run_states::row::RunRow;
use std::alloc::Global;

/// What a decision reads of a book: its rows as they are now within a step, and the limits in force.
pub trait Reading {
    // The moment of the step.
    ghost at: { Self → ℕ };

    // The rows as they are now: ascending by key, and settled at the moment when the step began.
    ghost seen: { Self → List Row };

    // The limits in force.
    ghost in_force: { Self → LimitsSeen };

    // The number of their epoch; 0 where the book has none.
    ghost latest: { Self → ℕ };

    /// The moment of the step, in seconds since 1970 UTC.
    fn moment(&self) -> Moment
        ensures value { result ≡ at self.now }
        ensures bound { result ≤ MAX_MOMENT };

    /// The row that has the key, as it is now.
    fn find(&self, key: RunKey) -> Option<&RunRow>
        ensures row { option_copied result ≡ find_row (seen self.now) key }
        ensures moments { IfSome (option_copied result) HasMoments }
        ensures ascending { IsAscendingRows (seen self.now) };

    /// The least key among the rows in conflict with a run that it may not preempt. The run itself isn't
    /// booked yet.
    fn firm_conflict(
        &self,
        key: RunKey,
        class: Class,
        interval: &Interval,
        priority: i16,
    ) -> Option<RunKey>
        requires { IsUnbooked key (seen self.now) }
        ensures { result ≡ firm_key key class interval.now priority (at self.now) (seen self.now) };

    /// The least key above another among the rows in conflict with a run, which isn't booked yet.
    fn next_conflict(
        &self,
        key: RunKey,
        class: Class,
        interval: &Interval,
        after: Option<RunKey>,
    ) -> Option<RunKey>
        requires { IsUnbooked key (seen self.now) }
        ensures { result ≡ next_key key class interval.now after (seen self.now) };

    /// The starts in a window at which a run of this length, in seconds, would conflict with nothing, and
    /// those at which it may preempt all that is in conflict: the first 128 maximal windows of each.
    fn free(
        &self,
        alloc: Global,
        class: Class,
        length: Length,
        priority: i16,
        window: Window,
    ) -> Result<Tiers, Memory>
        ensures tiers { IfOk result (λ tiers. tiers ≡ free_tiers (seen self.now) (at self.now) class length priority window) }
        ensures ascending { IsAscendingRows (seen self.now) };

    /// How many rows there are.
    fn len(&self) -> usize
        ensures { result ≡ length (seen self.now) };

    /// How many bytes the results have that the rows keep.
    fn result_bytes(&self) -> u64
        ensures { result ≡ result_bytes (seen self.now) };

    /// The limits in force.
    fn limits(&self) -> &Limits
        ensures { result.now ≡ in_force self.now };

    /// The number of their epoch; 0 where the book has none.
    fn epoch(&self) -> u32
        ensures { result ≡ latest self.now };
}
