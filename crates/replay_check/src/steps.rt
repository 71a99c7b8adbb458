//! Steps of a run's life: whether its row has them, and what they bring.
ghost use Rattle.std.specs.Prelude.{◌↔◌, IfOk, IsTrue};
ghost use Rattle.archive_retry.specs.Merge.{IsResultText};
ghost use Rattle.run_states.specs.LawfulRow.{IsWhy};
ghost use Rattle.run_states.specs.Life.{is_active, may_take};
ghost use Rattle.run_states.specs.declared.life.LifeStep.TheVariants.{Close};
ghost use Rattle.row_check.specs.HasTests.{WhyTests};

use archive_retry::merge::is_result;
use ps_time::memory::Memory;
use ps_time::text::Text;
use row_check::whys::is_why;
use run_states::row::RunRow;
use run_states::why::Why;
use std::alloc::Global;

/// Whether the row may be closed, for a reason within bounds.
pub(crate) fn closes(row: &RunRow, why: &Why) -> bool
    requires { WhyTests why.now }
    ensures { IsTrue result ↔ (IsTrue (may_take (Close why.now) row.now) × IsWhy why.now) }
{
    row.closed.is_none() && row.started.is_none() && is_why(why)
}

/// Whether the run may end, with a result that may be kept.
pub(crate) fn ends(alloc: Global, row: &RunRow, body: &Text) -> Result<bool, Memory>
    ensures { IfOk result (λ may. IsTrue may ↔ (IsTrue (is_active row.now) × IsResultText body.now)) }
{
    let kept = is_result(alloc, body.as_str())?;
    Ok(row.is_active() && kept)
}
