//! What host b answers to orders, as it is heard.
ghost use Rattle.std.specs.Prelude.{◌∷◌, ◌≡◌, ◌≤◌, [], IfOk, codes};
ghost use Rattle.ps_time.specs.declared.moment.TheConstants.{MAX_MOMENT};
ghost use Rattle.host_model.specs.Conditions.{IsAnswer, IsFreeHeard, IsInput, IsResultHeard};

use crate::fault::LineFault;
use crate::given::{a_key, cut};
use archive_retry::merge::is_result;
use host_model::config::Config;
use host_model::input::Input;
use host_model::order::{Order, OrderBody, PeerAnswer};
use plugin_core::test_spec::{Sleep, TestSpec};
use ps_time::asker::Asker;
use ps_time::interval::Window;
use ps_time::items::Items;
use ps_time::key::RunKey;
use ps_time::memory::Memory;
use ps_time::moment::Moment;
use ps_time::text::Text;
use ps_time::tiers::Tiers;
use row_check::parts::is_free_answer;
use run_states::answer::FreeAnswer;
use run_states::proposal::{Proposal, Question};
use std::alloc::Global;

// The starts at which host b is free.
const WINDOW: Window = Window {
    first: 1_000,
    last: 2_000,
};

// A result has no more bytes.
const MOST_RESULT_BYTES: usize = 65_536;

// Of what an order asks about, only its kind matters.
fn a_proposal(alloc: Global, key: RunKey) -> Result<OrderBody, Memory> {
    let tool = Text::new(alloc, "sleep")?;
    let requester = Text::new(alloc, "10.0.0.9")?;
    let server = Text::new(alloc, "a")?;
    Ok(OrderBody::Propose(Proposal {
        key,
        test: TestSpec::Idle(Sleep::of(10)),
        tool,
        start: 1_018,
        priority: 0,
        asker: Asker { requester, server },
    }))
}

fn a_question(key: RunKey) -> OrderBody {
    OrderBody::Free(Question {
        key,
        test: TestSpec::Idle(Sleep::of(10)),
        priority: 0,
        window: WINDOW,
    })
}

// What was asked, where this is answered.
fn a_body(alloc: Global, key: RunKey, word: &str) -> Result<OrderBody, Memory> {
    match word {
        "free" => Ok(a_question(key)),
        "accepted" => a_proposal(alloc, key),
        "confirmed" => Ok(OrderBody::Confirm),
        _ => Ok(OrderBody::Result),
    }
}

fn an_order(alloc: Global, key: RunKey, word: &str) -> Result<Order, Memory> {
    let to = Text::new(alloc, "b")?;
    Ok(Order {
        key,
        place: 1,
        to,
        body: a_body(alloc, key, word)?,
    })
}

fn one_tool(alloc: Global) -> Result<Items<Text>, Memory>
    ensures { IfOk result (λ tools. tools ≡ codes "sleep" ∷ []) }
{
    let mut tools = Items::new(alloc);
    tools.push(Text::new(alloc, "sleep")?)?;
    Ok(tools)
}

fn one_window(alloc: Global) -> Result<Tiers, Memory>
    ensures first { IfOk result (λ tiers. tiers.first ≡ record { first = 1000; last = 2000 } ∷ []) }
    ensures second { IfOk result (λ tiers. tiers.second ≡ []) }
{
    let mut first = Items::new(alloc);
    first.push(WINDOW)?;
    Ok(Tiers {
        first,
        second: Items::new(alloc),
    })
}

fn free_then(alloc: Global) -> Result<FreeAnswer, Memory>
    ensures tools { IfOk result (λ answer. answer.tools ≡ codes "sleep" ∷ []) }
    ensures first { IfOk result (λ answer. answer.tiers.first ≡ record { first = 1000; last = 2000 } ∷ []) }
    ensures second { IfOk result (λ answer. answer.tiers.second ≡ []) }
{
    let tools = one_tool(alloc)?;
    Ok(FreeAnswer {
        tools,
        tiers: one_window(alloc)?,
    })
}

fn a_free_answer(alloc: Global) -> Result<FreeAnswer, LineFault>
    ensures heard { IfOk result IsFreeHeard }
{
    let answer = free_then(alloc)?;
    if !is_free_answer(&answer) {
        drop(answer);
        return Err(LineFault::SaysNothing);
    }
    Ok(answer)
}

fn a_result(alloc: Global) -> Result<Text, LineFault>
    ensures { IfOk result IsResultHeard }
{
    let text = Text::new(alloc, r#"{"schema":1,"succeeded":true}"#)?;
    if text.len() > MOST_RESULT_BYTES || !is_result(alloc, text.as_str())? {
        return Err(LineFault::SaysNothing);
    }
    Ok(text)
}

fn an_answer(alloc: Global, word: &str, clock: Moment) -> Result<PeerAnswer, LineFault>
    requires { clock ≤ MAX_MOMENT }
    ensures answer { IfOk result IsAnswer }
{
    match word {
        "free" => Ok(PeerAnswer::Free(a_free_answer(alloc)?)),
        "accepted" => Ok(PeerAnswer::Accepted(clock)),
        "confirmed" => Ok(PeerAnswer::Confirmed(clock)),
        "result" => Ok(PeerAnswer::Result(a_result(alloc)?)),
        _ => Err(LineFault::SaysNothing),
    }
}

/// A key, and the word of an answer, as host b gives it at a clock in seconds since 1970 UTC.
pub(crate) fn a_hearing(
    alloc: Global,
    config: &Config,
    clock: Moment,
    rest: &str,
) -> Result<Input, LineFault>
    requires { clock ≤ MAX_MOMENT }
    ensures bounds { IfOk result (IsInput config.now) }
{
    let (key, word) = cut(rest);
    let key = a_key(key)?;
    let answer = an_answer(alloc, word, clock)?;
    match an_order(alloc, key, word) {
        Ok(order) => Ok(Input::Heard { order, answer }),
        Err(_) => {
            drop(answer);
            Err(LineFault::Memory)
        }
    }
}
