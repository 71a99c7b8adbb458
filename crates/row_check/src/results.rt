//! The results that a row keeps.
ghost use Rattle.std.specs.Prelude.{◌↔◌, All, IfOk, IfSome, IsTrue};
ghost use Rattle.run_states.specs.LawfulRow.{HasArchives, IsFreeAnswer, IsOther, IsResult};
ghost use Rattle.run_states.specs.ResultBytes.{other_result, own_result};

use crate::parts::is_free_answer;
use archive_retry::merge::is_result;
use ps_json::kept::is_tree_text;
use ps_time::memory::Memory;
use run_states::answer::{FreeAnswer, Other};
use run_states::row::RunRow;
use std::alloc::Global;

/// Whether this host's own result, if there is one, may be kept.
pub fn has_result(alloc: Global, row: &RunRow) -> Result<bool, Memory>
    ensures { IfOk result (λ is. IsTrue is ↔ IsResult (own_result row.now)) }
{
    match &row.ended {
        None => Ok(true),
        Some(ending) => Ok(is_result(alloc, ending.body.as_str())?),
    }
}

fn has_answer(free: &Option<FreeAnswer>) -> bool
    ensures { IsTrue result ↔ IfSome free.now IsFreeAnswer }
{
    match free {
        None => true,
        Some(answer) => is_free_answer(answer),
    }
}

fn has_heard(alloc: Global, other: &Other) -> Result<bool, Memory>
    ensures { IfOk result (λ is. IsTrue is ↔ IsResult (other_result other.now)) }
{
    match &other.heard {
        Some(Some(text)) => Ok(is_result(alloc, text.as_str())?),
        _ => Ok(true),
    }
}

fn is_other(alloc: Global, other: &Other) -> Result<bool, Memory>
    ensures { IfOk result (λ is. IsTrue is ↔ IsOther other.now) }
{
    let heard = has_heard(alloc, other)?;
    Ok(heard && has_answer(&other.free))
}

/// Whether what is known of the other participants is within bounds.
pub fn are_others(alloc: Global, others: &[Other]) -> Result<bool, Memory>
    ensures { IfOk result (λ are. IsTrue are ↔ All IsOther others.now) }
{
    for other in others {
        let is = is_other(alloc, other)?;
        if !is {
            return Ok(false);
        }
    }
    Ok(true)
}

/// Whether what was merged may be kept and ended; before that no archive has a state.
pub fn has_archives(alloc: Global, row: &RunRow) -> Result<bool, Memory>
    ensures { IfOk result (λ has. IsTrue has ↔ HasArchives row.now row.now.merged) }
{
    match &row.merged {
        None => Ok(row.archives.len() == 0),
        Some(text) => {
            let kept = is_tree_text(alloc, text.as_str(), 64)?;
            Ok(kept && row.ended.is_some())
        }
    }
}
