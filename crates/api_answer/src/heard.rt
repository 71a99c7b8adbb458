//! The answers of peers to orders.
ghost use Rattle.std.specs.Prelude.{◌≡◌, ◌≢◌, ◌≤◌, Err, Some, IfOk, IfSome};
ghost use Rattle.std.specs.Result.{result_ok};
ghost use Rattle.serde_json.specs.View.{view};
ghost use Rattle.ps_json.specs.Answer.{GivesUnless, then_with};
ghost use Rattle.run_states.specs.LawfulRow.{IsDenial};
ghost use Rattle.host_model.specs.Conditions.{IsAnswer, IsInput};
ghost use Rattle.host_model.specs.InputLength.{denial_texts, heard_texts, input_texts, most_input_texts};
ghost use Rattle.host_model.specs.declared.config.Config.{Config};
ghost use Rattle.api_body.specs.Bodies.{body_tree};
ghost use Rattle.api_answer.specs.Denied.{denial_told};
ghost use Rattle.api_answer.specs.Heard.{lead_of, if_said, told_in, denied_or, not_found, answer_by, answer_to, heard_of};

use crate::denial::read_denial;
use crate::told::{read_free, read_outcome, read_told_flag, read_told_moment};
use api_body::bodies::{MOST_BODY, read_body};
use host_model::input::Input;
use host_model::order::{Order, OrderBody, PeerAnswer};
use ps_http::message::Response;
use ps_json::fault::JsonFault;
use ps_time::memory::Memory;
use run_states::why::Denial;
use serde_json::Value;
use std::alloc::Global;
use task_spec::fault::TaskFault;

/// The name of the lead of the proposal that an order is; empty where it is none.
fn lead_of(body: &OrderBody) -> &str
    ensures { result.now ≡ lead_of body.now }
{
    match body {
        OrderBody::Propose(proposal) => proposal.asker.server.as_str(),
        _ => "",
    }
}

fn read_yes(
    alloc: Global,
    value: Value,
    name: &str,
    answer: PeerAnswer,
) -> Result<PeerAnswer, TaskFault>
    requires bounds { IsAnswer answer }
    requires short { heard_texts answer ≤ most_input_texts }
    ensures value { GivesUnless TaskFault.Memory result (if_said name.now answer (view value)) }
    ensures bounds { IfOk result IsAnswer }
    ensures short { IfOk result (λ made. heard_texts made ≤ most_input_texts) }
{
    if !read_told_flag(alloc, value, name)? {
        return Err(JsonFault::wrong_kind(alloc, name).into());
    }
    Ok(answer)
}

/// What the body of a response of status 200 tells.
fn read_told(alloc: Global, body: &OrderBody, value: Value) -> Result<PeerAnswer, TaskFault>
    ensures value { GivesUnless TaskFault.Memory result (told_in body.now (view value)) }
    ensures bounds { IfOk result IsAnswer }
    ensures short { IfOk result (λ made. heard_texts made ≤ most_input_texts) }
{
    match body {
        OrderBody::Free(_) => Ok(PeerAnswer::Free(read_free(alloc, value)?)),
        OrderBody::Propose(_) => Ok(PeerAnswer::Accepted(read_told_moment(
            alloc, value, "accepted",
        )?)),
        OrderBody::Confirm => Ok(PeerAnswer::Confirmed(read_told_moment(
            alloc,
            value,
            "confirmed",
        )?)),
        OrderBody::Cancel => read_yes(alloc, value, "dropped", PeerAnswer::Dropped),
        OrderBody::Material(_) => read_yes(alloc, value, "heard", PeerAnswer::MaterialHeard),
        OrderBody::Result => read_outcome(alloc, value),
    }
}

fn read_told_body(alloc: Global, body: &OrderBody, bytes: &[u8]) -> Result<PeerAnswer, TaskFault>
    ensures value { GivesUnless TaskFault.Memory result (then_with (body_tree bytes.now) (told_in body.now)) }
    ensures bounds { IfOk result IsAnswer }
    ensures short { IfOk result (λ made. heard_texts made ≤ most_input_texts) }
{
    let value = read_body(alloc, bytes)?;
    read_told(alloc, body, value)
}

/// The answer, or none where there is no such answer.
fn if_answer(read: Result<PeerAnswer, TaskFault>) -> Result<Option<PeerAnswer>, Memory>
    requires bounds { IfOk read IsAnswer }
    requires short { IfOk read (λ made. heard_texts made ≤ most_input_texts) }
    ensures value { IfOk result (λ answer. (answer ≡ result_ok read) × (read ≢ Err TaskFault.Memory)) }
    ensures bounds { IfOk result (λ answer. IfSome answer IsAnswer) }
    ensures short { IfOk result (λ answer. IfSome answer (λ made. heard_texts made ≤ most_input_texts)) }
{
    match read {
        Ok(answer) => Ok(Some(answer)),
        Err(TaskFault::Memory) => Err(Memory),
        Err(_) => Ok(None),
    }
}

fn read_denial_body(alloc: Global, lead: &str, bytes: &[u8]) -> Result<Denial, TaskFault>
    ensures value { GivesUnless TaskFault.Memory result (then_with (body_tree bytes.now) (denial_told lead.now)) }
    ensures bounds { IfOk result IsDenial }
    ensures short { IfOk result (λ made. denial_texts made ≤ most_input_texts) }
{
    let value = read_body(alloc, bytes)?;
    read_denial(alloc, value, lead)
}

/// The denial, or the status where the body is none.
fn denied_or(denied: Result<Denial, TaskFault>, status: u16) -> Result<Option<PeerAnswer>, Memory>
    requires bounds { IfOk denied IsDenial }
    requires short { IfOk denied (λ made. denial_texts made ≤ most_input_texts) }
    ensures value { IfOk result (λ answer. (answer ≡ Some (denied_or status denied)) × (denied ≢ Err TaskFault.Memory)) }
    ensures bounds { IfOk result (λ answer. IfSome answer IsAnswer) }
    ensures short { IfOk result (λ answer. IfSome answer (λ made. heard_texts made ≤ most_input_texts)) }
{
    match denied {
        Ok(denial) => Ok(Some(PeerAnswer::Denied(denial))),
        Err(TaskFault::Memory) => Err(Memory),
        Err(_) => Ok(Some(PeerAnswer::Other(status))),
    }
}

/// An answer of status 404.
fn not_found(body: &OrderBody) -> PeerAnswer
    ensures value { result ≡ not_found body.now }
    ensures bounds { IsAnswer result }
    ensures short { heard_texts result ≤ most_input_texts }
{
    match body {
        OrderBody::Confirm => PeerAnswer::Unknown,
        _ => PeerAnswer::Other(404),
    }
}

fn answer_by(
    alloc: Global,
    body: &OrderBody,
    response: &Response,
) -> Result<Option<PeerAnswer>, Memory>
    ensures value { IfOk result (λ answer. answer ≡ answer_by body.now response.now.status response.now.body) }
    ensures bounds { IfOk result (λ answer. IfSome answer IsAnswer) }
    ensures short { IfOk result (λ answer. IfSome answer (λ made. heard_texts made ≤ most_input_texts)) }
{
    let bytes = response.body.as_slice();
    match response.status {
        200 => if_answer(read_told_body(alloc, body, bytes)),
        403 | 409 | 507 => denied_or(
            read_denial_body(alloc, lead_of(body), bytes),
            response.status,
        ),
        404 => Ok(Some(not_found(body))),
        status => Ok(Some(PeerAnswer::Other(status))),
    }
}

fn read_answer(
    alloc: Global,
    body: &OrderBody,
    response: &Response,
) -> Result<Option<PeerAnswer>, Memory>
    ensures value { IfOk result (λ answer. answer ≡ answer_to body.now response.now) }
    ensures bounds { IfOk result (λ answer. IfSome answer IsAnswer) }
    ensures short { IfOk result (λ answer. IfSome answer (λ made. heard_texts made ≤ most_input_texts)) }
{
    if response.body.len() > MOST_BODY {
        return Ok(None);
    }
    answer_by(alloc, body, response)
}

/// What was answered to an order, as an input of the host that gave it; none where the response is no answer to it.
pub fn heard(alloc: Global, order: Order, response: &Response) -> Result<Option<Input>, Memory>
    ensures value { IfOk result (λ input. input ≡ heard_of order response.now) }
    ensures input { (c : Config) → IfOk result (λ input. IfSome input (IsInput c)) }
    ensures short { IfOk result (λ input. IfSome input (λ i. input_texts i ≤ most_input_texts)) }
{
    match read_answer(alloc, &order.body, response)? {
        None => Ok(None),
        Some(answer) => Ok(Some(Input::Heard { order, answer })),
    }
}
