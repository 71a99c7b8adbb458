//! The question with which a lead begins an attempt.
ghost use Rattle.std.specs.Prelude.{◌≡◌, IfOk, is_some};
ghost use Rattle.run_states.specs.ResultBytes.{result_bytes};
ghost use Rattle.host_model.specs.Fits.{full_denial};
ghost use Rattle.host_model.specs.NextAttempt.{ask, asked_change, attempt_key};
ghost use Rattle.lead_core.specs.Books.{book_of_rows};

use crate::attempt::next_attempt;
use crate::leading::Leading;
use host_model::change::Change;
use host_model::config::Config;
use host_model::lead::Attempt;
use host_model::task_row::TaskRow;
use part_core::fit::full;
use plugin_core::participants::participants_of;
use ps_time::boxed::Boxed;
use ps_time::key::RunKey;
use ps_time::memory::Memory;
use run_states::proposal::Question;
use std::alloc::Global;

/// The question with which the next attempt of a task begins, if there is one and the book isn't full.
pub fn ask<R: Leading>(
    alloc: Global,
    book: &R,
    config: &Config,
    task: &TaskRow,
) -> Result<Option<Change>, Memory>
    ensures { IfOk result (λ change. change ≡ ask config.now (R.at book.now) (book_of_rows (R.seen book.now)) task.now) }
{
    if is_full(book) {
        return Ok(None);
    }
    match next_attempt(book, config.number, task) {
        Some(attempt) => {
            let change = asked(alloc, config, task, &attempt)?;
            Ok(Some(change))
        }
        None => Ok(None),
    }
}

// Whether there is no place for more rows, or for more bytes of results.
fn is_full<R: Leading>(book: &R) -> bool
    ensures { result ≡ is_some (full_denial (R.seen book.now) (result_bytes (R.seen book.now))) }
{
    full(book).is_some()
}

fn asked(
    alloc: Global,
    config: &Config,
    task: &TaskRow,
    attempt: &Attempt,
) -> Result<Change, Memory>
    ensures { IfOk result (λ change. change ≡ asked_change config.now task.now attempt.now) }
{
    let participants = participants_of(alloc, &task.task.test, config.name.as_str())?;
    let asker = task.asker.copy(alloc)?;
    let question = Question {
        key: attempt_key(config.number, task.serial, attempt),
        test: task.task.test.copy(alloc)?,
        priority: task.task.priority,
        window: attempt.window,
    };
    Ok(Change::Asked {
        question: Boxed::new(alloc, question)?,
        participants,
        asker,
    })
}

fn attempt_key(lead: u16, serial: u32, attempt: &Attempt) -> RunKey
    ensures { result ≡ attempt_key lead serial attempt.now }
{
    RunKey {
        lead,
        task: serial,
        number: attempt.number,
        attempt: attempt.attempt,
    }
}
