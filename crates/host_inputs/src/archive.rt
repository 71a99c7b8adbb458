//! An attempt at an archive of a merged run.
ghost use Rattle.std.specs.Prelude.{◌≡◌, ◌≤◌, IfOk, IfSome, option_and_then, slice_get};
ghost use Rattle.std.specs.Option.{option_copied};
ghost use Rattle.ps_time.specs.declared.moment.TheConstants.{MAX_LENGTH};
ghost use Rattle.run_states.specs.Rows.{find_row};
ghost use Rattle.host_model.specs.Archives.{state_at_index, tried_to, try_archive};
ghost use Rattle.host_model.specs.Effect.{archives_of};
ghost use Rattle.host_inputs.specs.Kept.{HasPolicy, book_of};

use crate::hosting::Hosting;
use crate::outcome::{answered, one};
use archive_retry::retry::{due, tried};
use archive_retry::state::ArchiveState;
use host_model::change::Change;
use host_model::reply::{Outcome, Reply};
use part_core::reading::Reading;
use ps_time::key::RunKey;
use ps_time::memory::Memory;
use ps_time::moment::Length;
use std::alloc::Global;
use task_spec::task::Archive;

/// What an attempt at an archive comes to: how far it has come now. One that isn't due stays as it is.
pub fn try_archive<R: Hosting>(
    alloc: Global,
    book: &R,
    key: RunKey,
    index: u8,
    good: bool,
    retry: Option<Length>,
) -> Result<Outcome, Memory>
    requires { IfSome retry (λ r. r ≤ MAX_LENGTH) }
    ensures { IfOk result (λ o. o ≡ try_archive (book_of (R.at book.now) (R.seen book.now) (R.kept book.now)) (R.at book.now) key index good retry) }
{
    match (state_at(book, key, index), archive_at(book, key, index)) {
        (Some(state), Some(archive)) => {
            let moment = book.moment();
            if !due(&state, moment) {
                return Ok(answered(alloc, Reply::Archive(state)));
            }
            let state = tried(&archive.policy, state, moment, retry, good);
            tried_to(alloc, key, index, state)
        }
        _ => Ok(answered(alloc, Reply::NotFound)),
    }
}

fn tried_to(alloc: Global, key: RunKey, index: u8, state: ArchiveState) -> Result<Outcome, Memory>
    ensures { IfOk result (λ o. o ≡ tried_to key index state) }
{
    let list = one(alloc, Change::Tried { key, index, state })?;
    Ok(Outcome {
        reply: Reply::Archive(state),
        list,
    })
}

// Its state, where the run is merged and has that archive.
fn state_at<R: Reading>(book: &R, key: RunKey, index: u8) -> Option<ArchiveState>
    ensures { result ≡ option_and_then (λ r. state_at_index r index) (find_row (R.seen book.now) key) }
{
    let row = book.find(key)?;
    if row.merged.is_none() {
        return None;
    }
    let states = row.archives.as_slice();
    states.get(usize::from(index)).copied()
}

// The archive of the run's task.
fn archive_at<R: Hosting>(book: &R, key: RunKey, index: u8) -> Option<&Archive>
    ensures archive { option_copied result ≡ slice_get (archives_of (R.kept book.now).tasks key) index }
    ensures policy { IfSome (option_copied result) HasPolicy }
{
    let task = book.task(key.task)?;
    let archives = task.task.archives.as_slice();
    archives.get(usize::from(index))
}
