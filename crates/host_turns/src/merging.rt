//! How the lead merges the results of a run.
ghost use Rattle.std.specs.Prelude.{◌≡◌, ◌+◌, ◌++◌, IfOk, OnOk, is_some, length, map, nat_le, All, true};
ghost use Rattle.std.specs.List.{list_all};
ghost use Rattle.ps_time.specs.Numbers.{result_wait};
ghost use Rattle.archive_retry.specs.Merge.{IsMergeable};
ghost use Rattle.run_states.specs.ResultBytes.{other_result, own_result};
ghost use Rattle.host_model.specs.Book.{Book};
ghost use Rattle.host_model.specs.Merging.{is_collected, merge_run, merged_text, results_of};
ghost use Rattle.host_turns.specs.Wishes.{MayMerge, is_mergeable};

use crate::ending::end_of;
use archive_retry::merge::merge;
use host_model::change::Change;
use host_model::config::Config;
use ps_time::duplicate::Duplicate;
use ps_time::items::Items;
use ps_time::memory::Memory;
use ps_time::moment::Moment;
use ps_time::text::Text;
use run_states::answer::Other;
use run_states::row::RunRow;
use std::alloc::Global;

/// How long after its end a run's missing results are waited for, in seconds.
pub const RESULT_WAIT: u64 = 120;

/// The merged result of an ended run that this host leads and that isn't merged yet, once every other result is heard or
/// the wait is over. Nothing else of a book matters.
pub fn merge_run(
    alloc: Global,
    config: &Config,
    row: &RunRow,
    moment: Moment,
) -> Result<Option<Change>, Memory>
    requires { MayMerge config.now.number row.now }
    ensures { (b : Book) → IfOk result (λ change. change ≡ merge_run config.now moment b row.now) }
{
    if is_mergeable(config.number, row, moment) {
        let body = merged_text(alloc, row)?;
        Ok(Some(Change::Merged { key: row.key, body }))
    } else {
        Ok(None)
    }
}

fn is_mergeable(number: u16, row: &RunRow, moment: Moment) -> bool
    ensures value { result ≡ is_mergeable number moment row.now }
    ensures lead { result ≡ true → row.now.key.lead ≡ number }
{
    row.key.lead == number
        && row.ended.is_some()
        && row.merged.is_none()
        && is_collected(row, moment)
}

// Whether every other result is heard, or the wait is over.
fn is_collected(row: &RunRow, moment: Moment) -> bool
    ensures { result ≡ is_collected moment row.now }
{
    are_heard(row.others.as_slice()) || is_waited(end_of(row), moment)
}

fn is_waited(end: Moment, moment: Moment) -> bool
    ensures { result ≡ nat_le (end + result_wait) moment }
{
    RESULT_WAIT <= moment && end <= moment - RESULT_WAIT
}

fn are_heard(others: &[Other]) -> bool
    ensures { result ≡ list_all (λ o. is_some o.heard) others.now }
{
    others.iter().all(|other| other.heard.is_some())
}

fn merged_text(alloc: Global, row: &RunRow) -> Result<Text, Memory>
    requires alike { length row.now.participants ≡ length row.now.others + 1 }
    requires results { All IsMergeable (results_of row.now) }
    ensures { IfOk result (λ text. text ≡ merged_text row.now) }
{
    let results = results_of(alloc, row)?;
    merge(alloc, row.participants.as_slice(), results.as_slice())
}

// The results in the order of the participants, the lead's own first.
fn results_of(alloc: Global, row: &RunRow) -> Result<Items<Option<Text>>, Memory>
    ensures { IfOk result (λ made. made ≡ results_of row.now) }
{
    let mut results = Items::new(alloc);
    results.push(own_result(alloc, row)?)?;
    add_others(alloc, &mut results, row.others.as_slice())?;
    Ok(results)
}

fn add_others(
    alloc: Global,
    results: &mut Items<Option<Text>>,
    others: &[Other],
) -> Result<(), Memory>
    ensures { OnOk result (results.new ≡ results.old ++ map other_result others.now) }
{
    for other in others {
        results.push(other_result(alloc, other)?)?;
    }
    Ok(())
}

fn own_result(alloc: Global, row: &RunRow) -> Result<Option<Text>, Memory>
    ensures { IfOk result (λ made. made ≡ own_result row.now) }
{
    match &row.ended {
        Some(ending) => Ok(Some(ending.body.copy(alloc)?)),
        None => Ok(None),
    }
}

fn other_result(alloc: Global, other: &Other) -> Result<Option<Text>, Memory>
    ensures { IfOk result (λ made. made ≡ other_result other.now) }
{
    match &other.heard {
        Some(result) => result.duplicate(alloc),
        None => Ok(None),
    }
}
