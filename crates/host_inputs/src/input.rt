//! The answer to a single input.
ghost use Rattle.std.specs.Prelude.{◌≡◌, IfOk, true};
ghost use Rattle.ps_time.specs.Name.{is_name};
ghost use Rattle.host_model.specs.Conditions.{IsInput};
ghost use Rattle.host_model.specs.FreeStarts.{free as free_outcome};
ghost use Rattle.host_model.specs.Heard.{hear as heard};
ghost use Rattle.host_model.specs.Post.{post as posted};
ghost use Rattle.host_model.specs.Step.{outcome_of};
ghost use Rattle.plugin_core.specs.Bounds.{IsTest};
ghost use Rattle.lead_core.specs.Books.{IsBookOf};
ghost use Rattle.host_inputs.specs.Answerable.{IsAnswerable};
ghost use Rattle.host_inputs.specs.Kept.{book_of};

use crate::archive::try_archive;
use crate::booking::book_run;
use crate::cancel::cancel;
use crate::hosting::Hosting;
use crate::limits::set_limits;
use crate::participant::{collect, confirm, drop_run, free, hear_material, propose};
use host_model::config::Config;
use host_model::input::Input;
use host_model::order::{Order, PeerAnswer};
use host_model::reply::Outcome;
use lead_core::post::post;
use lead_orders::hear::hear;
use ps_time::memory::Memory;
use ps_time::text::Text;
use run_states::proposal::Question;
use std::alloc::Global;
use task_spec::task::Task;

/// What a host answers to an input, and what changes with it, over its book as it is settled at the moment of the step:
/// every input but a turn, an opening and a page. Nothing changes but by the changes that it gives.
pub fn answer_input<R: Hosting>(
    alloc: Global,
    book: &R,
    config: &Config,
    input: Input,
) -> Result<Outcome, Memory>
    requires name { is_name config.now.name ≡ true }
    requires bounds { IsInput config.now input }
    requires answerable { IsAnswerable input }
    requires book { IsBookOf config.now (R.seen book.now) (R.in_force book.now) (R.latest book.now) (book_of (R.at book.now) (R.seen book.now) (R.kept book.now)) }
    ensures { IfOk result (λ o. o ≡ outcome_of config.now (R.at book.now) (book_of (R.at book.now) (R.seen book.now) (R.kept book.now)) input) }
{
    match input {
        Input::Book {
            class,
            priority,
            start,
            length,
        } => book_run(alloc, book, config, class, priority, start, length),
        Input::Post { task, requester } => post_task(alloc, book, config, task, requester),
        Input::Cancel { task, requester } => {
            cancel(alloc, book, config, task, requester.as_str())
        }
        Input::Free { sender, question } => free_of(alloc, book, config, sender, question),
        Input::Propose { sender, proposal } => propose(alloc, book, config, sender, proposal),
        Input::Confirm { sender, key } => confirm(alloc, book, config, sender, key),
        Input::Drop { sender, key } => drop_run(alloc, book, config, sender, key),
        Input::Collect { sender, key } => collect(alloc, book, config, sender, key),
        Input::Material { sender, key, .. } => hear_material(alloc, book, config, sender, key),
        Input::Heard { order, answer } => hear_answer(alloc, book, order, answer),
        Input::Tried {
            key,
            index,
            good,
            retry,
        } => try_archive(alloc, book, key, index, good, retry),
        Input::Limits(limits) => set_limits(alloc, book, limits),
        Input::View(_) | Input::Turn | Input::Open => unreachable!(),
    }
}

fn post_task<R: Hosting>(
    alloc: Global,
    book: &R,
    config: &Config,
    task: Task,
    requester: Text,
) -> Result<Outcome, Memory>
    requires { IsBookOf config.now (R.seen book.now) (R.in_force book.now) (R.latest book.now) (book_of (R.at book.now) (R.seen book.now) (R.kept book.now)) }
    ensures { IfOk result (λ o. o ≡ posted config.now (book_of (R.at book.now) (R.seen book.now) (R.kept book.now)) (R.at book.now) task requester) }
{
    post(
        alloc,
        book,
        config,
        book.task_count(),
        task,
        requester.as_str(),
    )
}

fn free_of<R: Hosting>(
    alloc: Global,
    book: &R,
    config: &Config,
    sender: u16,
    question: Question,
) -> Result<Outcome, Memory>
    requires { IsTest question.test }
    ensures { IfOk result (λ o. o ≡ free_outcome config.now (book_of (R.at book.now) (R.seen book.now) (R.kept book.now)) (R.at book.now) sender question) }
{
    free(alloc, book, config, sender, &question)
}

fn hear_answer<R: Hosting>(
    alloc: Global,
    book: &R,
    order: Order,
    answer: PeerAnswer,
) -> Result<Outcome, Memory>
    ensures { IfOk result (λ o. o ≡ heard (book_of (R.at book.now) (R.seen book.now) (R.kept book.now)) order answer) }
{
    hear(alloc, book, &order, answer)
}
