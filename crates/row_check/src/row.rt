//! Whether a row keeps the rules that it keeps alone.
ghost use Rattle.std.specs.Prelude.{◌↔◌, All, IfOk, IfSome, IsTrue};
ghost use Rattle.run_states.specs.LawfulRow.{HasArchives, HasLife, HasMomentsUpTo, HasOrigin, HasParticipants, IsDueInTime, IsLawfulRow, IsOther, IsResult, IsWhy, IsWindow, Reserves};
ghost use Rattle.run_states.specs.ResultBytes.{own_result};
ghost use Rattle.row_check.specs.HasTests.{HasTests};

use crate::moments::{has_life, has_moments};
use crate::parts::{are_due_in_time, are_participants, has_origin, has_question, has_reserved};
use crate::results::{are_others, has_archives, has_result};
use crate::whys::has_closed;
use ps_time::memory::Memory;
use ps_time::moment::Moment;
use run_states::row::RunRow;
use std::alloc::Global;

fn has_times(moment: Moment, row: &RunRow) -> bool
    requires { HasTests row.now }
    ensures { IsTrue result ↔ (HasMomentsUpTo moment row.now × Reserves row.now.test row.now.accepted row.now.tool row.now.interval × IfSome row.now.question IsWindow × HasLife row.now) }
{
    has_moments(moment, row) && has_reserved(row) && has_question(&row.question) && has_life(row)
}

fn has_words(row: &RunRow) -> bool
    requires { HasTests row.now }
    ensures { IsTrue result ↔ (HasParticipants row.now.participants × HasOrigin row.now row.now.asked × IfSome row.now.closed (λ c. IsWhy c.why) × All IsDueInTime row.now.archives) }
{
    are_participants(row.participants.as_slice())
        && has_origin(row)
        && has_closed(&row.closed)
        && are_due_in_time(row.archives.as_slice())
}

fn has_texts(alloc: Global, row: &RunRow) -> Result<bool, Memory>
    ensures { IfOk result (λ is. IsTrue is ↔ (IsResult (own_result row.now) × All IsOther row.now.others × HasArchives row.now row.now.merged)) }
{
    let result = has_result(alloc, row)?;
    let others = are_others(alloc, row.others.as_slice())?;
    let archives = has_archives(alloc, row)?;
    Ok(result && others && archives)
}

/// Whether a row that was read keeps all rules that it keeps alone, in a book whose latest moment is this one.
pub fn is_lawful_row(alloc: Global, moment: Moment, row: &RunRow) -> Result<bool, Memory>
    requires { HasTests row.now }
    ensures { IfOk result (λ is. IsTrue is ↔ IsLawfulRow moment row.now) }
{
    let kept = has_texts(alloc, row)?;
    Ok(kept && has_times(moment, row) && has_words(row))
}
