//! What a participant answers to a question for free starts, to one for a result, and to material.
ghost use Rattle.std.specs.Prelude.{◌≡◌, ◌≤◌, ◌∷◌, [], IfOk};
ghost use Rattle.ps_time.specs.declared.moment.TheConstants.{MAX_MOMENT};
ghost use Rattle.plugin_core.specs.Bounds.{IsTest};
ghost use Rattle.plugin_core.specs.TestSpec.{test_class, test_length};
ghost use Rattle.run_states.specs.Life.{HasMoments};
ghost use Rattle.run_states.specs.Rows.{IsAscendingRows, find_row};
ghost use Rattle.host_model.specs.Collect.{heard_material, material_at, result_reply, told_result};
ghost use Rattle.host_model.specs.FreeStarts.{free_answer, free_tiers};
ghost use Rattle.host_model.specs.Propose.{answered};
ghost use Rattle.host_model.specs.FreeTier.{IsFreeStart, IsFreeableStart, IsTier};

use crate::reading::Reading;
use host_model::change::Change;
use host_model::reply::{Outcome, Reply};
use plugin_core::test_spec::{class_of, length_of};
use plugin_tool::choice::tools_for;
use ps_time::items::Items;
use ps_time::key::RunKey;
use ps_time::memory::Memory;
use ps_time::moment::Moment;
use ps_time::text::Text;
use ps_time::tiers::Tiers;
use run_states::answer::FreeAnswer;
use run_states::life::state_name;
use run_states::proposal::Question;
use run_states::row::RunRow;
use run_states::why::Closing;
use std::alloc::Global;

/// The tools that run the test, and the starts in the window at which this host is free, or becomes free
/// by preemption: exactly the first 128 maximal windows of each. Limits have no part in it.
pub fn answer_free<R: Reading>(
    alloc: Global,
    book: &R,
    installed: &[Text],
    question: &Question,
) -> Result<FreeAnswer, Memory>
    requires { IsTest question.now.test }
    ensures value { IfOk result (λ a. a ≡ free_answer installed.now (R.seen book.now) (R.at book.now) question.now) }
    ensures free { IfOk result (λ a. IsTier (IsFreeStart (R.seen book.now) (test_class question.now.test) (test_length question.now.test)) question.now.window a.tiers.first) }
    ensures freeable { IfOk result (λ a. IsTier (IsFreeableStart (R.seen book.now) (R.at book.now) (test_class question.now.test) (test_length question.now.test) question.now.priority) question.now.window a.tiers.second) }
{
    let tools = tools_for(alloc, &question.test, installed)?;
    let tiers = tiers_of(alloc, book, question)?;
    Ok(FreeAnswer { tools, tiers })
}

fn tiers_of<R: Reading>(alloc: Global, book: &R, question: &Question) -> Result<Tiers, Memory>
    requires { IsTest question.now.test }
    ensures tiers { IfOk result (λ tiers. tiers ≡ free_tiers (R.seen book.now) (R.at book.now) (test_class question.now.test) (test_length question.now.test) question.now.priority question.now.window) }
    ensures ascending { IsAscendingRows (R.seen book.now) }
{
    book.free(
        alloc,
        class_of(&question.test),
        length_of(&question.test),
        question.priority,
        question.window,
    )
}

/// What a question for this host's result is answered: the result of an ended run, why a closed run has
/// none, else how far the run has come.
pub fn collect<R: Reading>(alloc: Global, book: &R, key: RunKey) -> Result<Reply, Memory>
    ensures { IfOk result (λ reply. reply ≡ result_reply (R.at book.now) (find_row (R.seen book.now) key)) }
{
    let moment = book.moment();
    match book.find(key) {
        Some(row) => told_result(alloc, row, moment),
        None => Ok(Reply::NotFound),
    }
}

fn told_result(alloc: Global, row: &RunRow, moment: Moment) -> Result<Reply, Memory>
    requires moment { moment ≤ MAX_MOMENT }
    requires moments { HasMoments row.now }
    ensures { IfOk result (λ reply. reply ≡ told_result moment row.now row.now.closed row.now.ended) }
{
    if let Some(closing) = &row.closed {
        return closed(alloc, closing);
    }
    match &row.ended {
        Some(ending) => Ok(Reply::Result(ending.body.copy(alloc)?)),
        None => Ok(Reply::State(state_name(row, moment))),
    }
}

fn closed(alloc: Global, closing: &Closing) -> Result<Reply, Memory>
    ensures { IfOk result (λ reply. reply ≡ Reply.Closed closing.now.why) }
{
    Ok(Reply::Closed(closing.why.copy(alloc)?))
}

/// What material that comes is answered, and changes: an active run keeps that it came, once.
pub fn hear_material<R: Reading>(alloc: Global, book: &R, key: RunKey) -> Result<Outcome, Memory>
    ensures { IfOk result (λ outcome. outcome ≡ material_at (find_row (R.seen book.now) key)) }
{
    match book.find(key) {
        Some(row) => heard_material(alloc, row),
        None => Ok(answered(alloc, Reply::NotFound)),
    }
}

fn heard_material(alloc: Global, row: &RunRow) -> Result<Outcome, Memory>
    ensures { IfOk result (λ outcome. outcome ≡ heard_material row.now row.now.closed) }
{
    if let Some(closing) = &row.closed {
        return Ok(answered(alloc, closed(alloc, closing)?));
    }
    if !row.is_active() {
        return Ok(answered(alloc, Reply::NotRunning));
    }
    if row.material.is_some() {
        return Ok(answered(alloc, Reply::MaterialHeard));
    }
    let list = one(alloc, Change::MaterialHeard(row.key))?;
    Ok(Outcome {
        reply: Reply::MaterialHeard,
        list,
    })
}

// A reply without changes.
fn answered(alloc: Global, reply: Reply) -> Outcome
    ensures { result ≡ answered reply }
{
    Outcome {
        reply,
        list: Items::new(alloc),
    }
}

fn one(alloc: Global, change: Change) -> Result<Items<Change>, Memory>
    ensures { IfOk result (λ list. list ≡ change ∷ []) }
{
    let mut list = Items::new(alloc);
    list.push(change)?;
    Ok(list)
}
