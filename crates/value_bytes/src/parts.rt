//! Values of their parts, once these were read.
ghost use Rattle.std.specs.Prelude.{◌≡◌};
ghost use Rattle.value_bytes.specs.Rows.{row_of};

use archive_retry::state::ArchiveState;
use plugin_core::test_spec::TestSpec;
use ps_time::asker::Asker;
use ps_time::interval::{Interval, Window};
use ps_time::items::Items;
use ps_time::key::RunKey;
use ps_time::text::Text;
use run_states::answer::Other;
use run_states::row::{Ending, RunRow};
use run_states::why::Closing;

type Work = (RunKey, (TestSpec, (Option<Text>, (Option<Interval>, i16))));

type Steps = (
    Items<Text>,
    (Asker, (Option<u64>, (Option<u64>, Option<u64>))),
);

type Ends = (
    Option<Ending>,
    (
        Option<u64>,
        (Option<Closing>, (Option<Window>, Option<u64>)),
    ),
);

type Lead = (Items<Other>, (Option<Text>, Items<ArchiveState>));

/// The parts of a row, in the order of their bytes.
pub type RowParts = (Work, (Steps, (Ends, Lead)));

/// The row of these parts.
pub fn row_of(parts: RowParts) -> RunRow
    ensures { result ≡ row_of parts }
{
    let (work, (steps, (ends, lead))) = parts;
    let (key, (test, (tool, (interval, priority)))) = work;
    let (participants, (asker, (accepted, (confirmed, started)))) = steps;
    let (ended, (material, (closed, (question, asked)))) = ends;
    let (others, (merged, archives)) = lead;
    RunRow {
        key,
        test,
        tool,
        interval,
        priority,
        participants,
        asker,
        accepted,
        confirmed,
        started,
        ended,
        material,
        closed,
        question,
        asked,
        others,
        merged,
        archives,
    }
}
