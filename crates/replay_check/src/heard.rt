//! What comes to a run later: answers of its participants, its merged results, attempts at its archives.
ghost use Rattle.std.specs.Prelude.{◌≡◌, ◌+◌, ◌↔◌, All, IfOk, IsNone, IsSome, IsTrue, MatchOption, Some, option_copied, slice_get};
ghost use Rattle.archive_retry.specs.Bounds.{IsPolicy, IsStateOf};
ghost use Rattle.archive_retry.specs.Merge.{IsResult};
ghost use Rattle.run_states.specs.LawfulRow.{IsDueInTime, IsFreeAnswer};
ghost use Rattle.task_spec.specs.declared.task.Archive.{Archive as Entry};
ghost use Rattle.host_model.specs.Heard.{other_at};
ghost use Rattle.replay_check.specs.Suits.{IsFirstMerge};

use archive_retry::merge::is_result;
use archive_retry::state::ArchiveState;
use book_check::host_row::is_state_of;
use ps_json::kept::is_tree_text;
use ps_time::key::RunKey;
use ps_time::memory::Memory;
use ps_time::moment::{MAX_LENGTH, MAX_MOMENT};
use ps_time::text::Text;
use row_check::parts::is_free_answer;
use run_states::answer::{FreeAnswer, Other};
use run_states::row::RunRow;
use std::alloc::Global;
use task_spec::task::Archive;

// What is known of the participant at the place; of the lead's own place nothing is kept.
fn other_at(row: &RunRow, place: u8) -> Option<&Other>
    ensures { option_copied result ≡ other_at row.now place }
{
    let others = row.others.as_slice();
    let before = usize::from(place).checked_sub(1)?;
    others.get(before)
}

/// Whether something is kept of the participant at the place.
pub(crate) fn has_place(row: &RunRow, place: u8) -> bool
    ensures { IsTrue result ↔ IsSome (other_at row.now place) }
{
    other_at(row, place).is_some()
}

/// Whether the participant at the place told already when it is free, or tells it within bounds.
pub(crate) fn hears_free(row: &RunRow, place: u8, answer: &FreeAnswer) -> bool
    ensures { IsTrue result ↔ MatchOption (other_at row.now place) ⊥ (λ o. IsNone o.free → IsFreeAnswer answer.now) }
{
    match other_at(row, place) {
        None => false,
        Some(other) => other.free.is_some() || is_free_answer(answer),
    }
}

fn may_be_kept(alloc: Global, told: &Option<Text>) -> Result<bool, Memory>
    ensures { IfOk result (λ may. IsTrue may ↔ IsResult told.now) }
{
    match told {
        None => Ok(true),
        Some(text) => Ok(is_result(alloc, text.as_str())?),
    }
}

/// Whether the participant at the place told its result already, or tells one that may be kept.
pub(crate) fn hears_result(
    alloc: Global,
    row: &RunRow,
    place: u8,
    told: &Option<Text>,
) -> Result<bool, Memory>
    ensures { IfOk result (λ may. IsTrue may ↔ MatchOption (other_at row.now place) ⊥ (λ o. IsNone o.heard → IsResult told.now)) }
{
    let kept = may_be_kept(alloc, told)?;
    match other_at(row, place) {
        None => Ok(false),
        Some(other) => Ok(other.heard.is_some() || kept),
    }
}

/// Whether the results of the run are merged already, or may be merged into this text by this host.
pub(crate) fn merges(
    alloc: Global,
    number: u16,
    row: &RunRow,
    key: RunKey,
    body: &Text,
) -> Result<bool, Memory>
    ensures { IfOk result (λ may. IsTrue may ↔ IsFirstMerge number key body.now row.now) }
{
    let kept = is_tree_text(alloc, body.as_str(), 64)?;
    Ok(row.merged.is_some() || (kept && key.lead == number && row.ended.is_some()))
}

fn is_due_in_time(state: &ArchiveState) -> bool
    ensures { IsTrue result ↔ IsDueInTime state.now }
{
    match state.next {
        None => true,
        Some(next) => next <= MAX_MOMENT + MAX_LENGTH,
    }
}

fn suits_archive(archives: &[Archive], index: u8, state: &ArchiveState) -> bool
    requires { All (λ (a : Entry). IsPolicy a.policy) archives.now }
    ensures { IsTrue result ↔ ((a : Entry) → slice_get archives.now index ≡ Some a → IsStateOf a.policy state.now) }
{
    match archives.get(usize::from(index)) {
        None => true,
        Some(archive) => is_state_of(archive, state),
    }
}

/// Whether the row has an archive in this place, which may come to the state, beside these archives of its task.
pub(crate) fn tries(archives: &[Archive], row: &RunRow, index: u8, state: &ArchiveState) -> bool
    requires { All (λ (a : Entry). IsPolicy a.policy) archives.now }
    ensures { IsTrue result ↔ (IsSome (slice_get row.now.archives index) × IsDueInTime state.now × ((a : Entry) → slice_get archives.now index ≡ Some a → IsStateOf a.policy state.now)) }
{
    usize::from(index) < row.archives.len()
        && is_due_in_time(state)
        && suits_archive(archives, index, state)
}
