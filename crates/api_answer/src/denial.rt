//! The bodies by which peers deny.
ghost use Rattle.std.specs.Prelude.{◌≡◌, ◌≤◌, IfOk, codes, length};
ghost use Rattle.serde_json.specs.View.{view};
ghost use Rattle.ps_json.specs.Answer.{GivesUnless};
ghost use Rattle.ps_json.specs.Fields.{without_member};
ghost use Rattle.ps_json.specs.Member.{required};
ghost use Rattle.ps_time.specs.Numbers.{most_request_bytes};
ghost use Rattle.run_states.specs.LawfulRow.{IsDenial, IsProposal};
ghost use Rattle.task_spec.specs.Fault.{wrapped};
ghost use Rattle.host_model.specs.InputLength.{denial_texts, most_input_texts, proposal_texts};
ghost use Rattle.api_body.specs.Bodies.{ended};
ghost use Rattle.api_answer.specs.Denied.{what_named, what_in, stopped_in, above_in, limits_in, past_in, conflict_in, full_in, most_proposal_texts, proposal_at, differs_in, closed_in, stranger_in, tool_at, no_tool_in, denial_told};

use crate::told::take_state;
use api_body::bodies::{MOST_BODY, read_proposal, take_key_at, take_moment, take_text};
use plugin_core::write_test::law_test_text;
use ps_json::fault::JsonFault;
use ps_json::fields::Fields;
use ps_json::kinds::{read_count, read_integer};
use ps_time::asker::Verdict;
use ps_time::boxed::Boxed;
use ps_time::text::Text;
use run_states::proposal::Proposal;
use run_states::why::{Denial, What};
use serde_json::Value;
use std::alloc::Global;
use task_spec::fault::TaskFault;

/// The most bytes of the texts of one of the proposals that differ. Both together have less than a body.
const MOST_TEXTS: usize = 960_000;

fn end_denial(alloc: Global, fields: Fields, denial: Denial) -> Result<Denial, TaskFault>
    ensures value { GivesUnless TaskFault.Memory result (ended fields denial) }
    ensures same { IfOk result (λ made. made ≡ denial) }
{
    fields.end(alloc)?;
    Ok(denial)
}

fn read_stopped(alloc: Global, mut fields: Fields) -> Result<Denial, TaskFault>
    ensures value { GivesUnless TaskFault.Memory result (stopped_in fields) }
    ensures bounds { IfOk result IsDenial }
    ensures short { IfOk result (λ made. denial_texts made ≤ most_input_texts) }
{
    let value = fields.need(alloc, "index")?;
    let index = read_count(alloc, value, "index", 0, 4_294_967_295)? as u32;
    end_denial(alloc, fields, Denial::Limits(Verdict::Stopped(index)))
}

fn read_above(alloc: Global, mut fields: Fields) -> Result<Denial, TaskFault>
    ensures value { GivesUnless TaskFault.Memory result (above_in fields) }
    ensures bounds { IfOk result IsDenial }
    ensures short { IfOk result (λ made. denial_texts made ≤ most_input_texts) }
{
    let value = fields.need(alloc, "ceiling")?;
    let ceiling = read_integer(alloc, value, "ceiling", -32_768, 32_767)? as i16;
    end_denial(
        alloc,
        fields,
        Denial::Limits(Verdict::AboveCeiling(ceiling)),
    )
}

fn read_limits(alloc: Global, mut fields: Fields) -> Result<Denial, TaskFault>
    ensures value { GivesUnless TaskFault.Memory result (limits_in fields) }
    ensures bounds { IfOk result IsDenial }
    ensures short { IfOk result (λ made. denial_texts made ≤ most_input_texts) }
{
    let verdict = take_text(alloc, &mut fields, "verdict")?;
    match verdict.as_str() {
        "stopped" => read_stopped(alloc, fields),
        "exhausted" => end_denial(alloc, fields, Denial::Limits(Verdict::Exhausted)),
        "above-ceiling" => read_above(alloc, fields),
        _ => Err(JsonFault::wrong_kind(alloc, "verdict").into()),
    }
}

fn read_past(alloc: Global, mut fields: Fields) -> Result<Denial, TaskFault>
    ensures value { GivesUnless TaskFault.Memory result (past_in fields) }
    ensures bounds { IfOk result IsDenial }
    ensures short { IfOk result (λ made. denial_texts made ≤ most_input_texts) }
{
    let moment = take_moment(alloc, &mut fields, "moment")?;
    let start = take_moment(alloc, &mut fields, "start")?;
    end_denial(alloc, fields, Denial::Past(moment, start))
}

fn read_conflict(alloc: Global, mut fields: Fields) -> Result<Denial, TaskFault>
    ensures value { GivesUnless TaskFault.Memory result (conflict_in fields) }
    ensures bounds { IfOk result IsDenial }
    ensures short { IfOk result (λ made. denial_texts made ≤ most_input_texts) }
{
    let key = take_key_at(alloc, &mut fields, "run")?;
    end_denial(alloc, fields, Denial::Conflict(key))
}

fn read_what(text: &str) -> Option<What>
    ensures { result ≡ what_named text.now }
{
    match text {
        "runs" => Some(What::Runs),
        "results" => Some(What::Results),
        "numbers" => Some(What::Numbers),
        _ => None,
    }
}

fn take_what(alloc: Global, fields: &mut Fields) -> Result<What, TaskFault>
    ensures value { GivesUnless TaskFault.Memory result (required wrapped what_in (codes "what") fields.old) }
    ensures rest { fields.new ≡ without_member (codes "what") fields.old }
{
    let text = take_text(alloc, fields, "what")?;
    match read_what(text.as_str()) {
        Some(what) => Ok(what),
        None => Err(JsonFault::wrong_kind(alloc, "what").into()),
    }
}

fn read_full(alloc: Global, mut fields: Fields) -> Result<Denial, TaskFault>
    ensures value { GivesUnless TaskFault.Memory result (full_in fields) }
    ensures bounds { IfOk result IsDenial }
    ensures short { IfOk result (λ made. denial_texts made ≤ most_input_texts) }
{
    let value = fields.need(alloc, "count")?;
    let count = read_count(alloc, value, "count", 0, u64::MAX)?;
    let what = take_what(alloc, &mut fields)?;
    end_denial(alloc, fields, Denial::Full(what, count))
}

fn take_proposal(
    alloc: Global,
    fields: &mut Fields,
    name: &str,
    lead: &str,
) -> Result<Proposal, TaskFault>
    ensures value { GivesUnless TaskFault.Memory result (required wrapped (proposal_at lead.now) name.now fields.old) }
    ensures bounds { IfOk result IsProposal }
    ensures short { IfOk result (λ made. proposal_texts made ≤ most_proposal_texts) }
    ensures rest { fields.new ≡ without_member name.now fields.old }
{
    law_test_text();
    let value = fields.need(alloc, name)?;
    read_proposal(alloc, value, lead, MOST_TEXTS)
}

fn read_differs(alloc: Global, mut fields: Fields, lead: &str) -> Result<Denial, TaskFault>
    ensures value { GivesUnless TaskFault.Memory result (differs_in lead.now fields) }
    ensures bounds { IfOk result IsDenial }
    ensures short { IfOk result (λ made. denial_texts made ≤ most_input_texts) }
{
    let kept = take_proposal(alloc, &mut fields, "kept", lead)?;
    let sent = take_proposal(alloc, &mut fields, "sent", lead)?;
    let kept = Boxed::new(alloc, kept)?;
    let sent = Boxed::new(alloc, sent)?;
    end_denial(alloc, fields, Denial::Differs(kept, sent))
}

fn read_closed(alloc: Global, mut fields: Fields) -> Result<Denial, TaskFault>
    ensures value { GivesUnless TaskFault.Memory result (closed_in fields) }
    ensures bounds { IfOk result IsDenial }
    ensures short { IfOk result (λ made. denial_texts made ≤ most_input_texts) }
{
    let state = take_state(alloc, &mut fields, "why")?;
    end_denial(alloc, fields, Denial::Closed(state))
}

fn read_stranger(alloc: Global, mut fields: Fields) -> Result<Denial, TaskFault>
    ensures value { GivesUnless TaskFault.Memory result (stranger_in fields) }
    ensures bounds { IfOk result IsDenial }
    ensures short { IfOk result (λ made. denial_texts made ≤ most_input_texts) }
{
    take_text(alloc, &mut fields, "host")?;
    end_denial(alloc, fields, Denial::NotParticipant)
}

/// The tool that a denial names.
fn take_tool(alloc: Global, fields: &mut Fields) -> Result<Text, TaskFault>
    ensures value { GivesUnless TaskFault.Memory result (required wrapped tool_at (codes "tool") fields.old) }
    ensures short { IfOk result (λ text. length text ≤ most_request_bytes) }
    ensures rest { fields.new ≡ without_member (codes "tool") fields.old }
{
    let text = take_text(alloc, fields, "tool")?;
    if text.len() > MOST_BODY {
        return Err(JsonFault::wrong_kind(alloc, "tool").into());
    }
    Ok(text)
}

fn read_no_tool(alloc: Global, mut fields: Fields) -> Result<Denial, TaskFault>
    ensures value { GivesUnless TaskFault.Memory result (no_tool_in fields) }
    ensures bounds { IfOk result IsDenial }
    ensures short { IfOk result (λ made. denial_texts made ≤ most_input_texts) }
{
    let tool = take_tool(alloc, &mut fields)?;
    end_denial(alloc, fields, Denial::NoTool(tool))
}

/// The denial that a body is. The lead of the proposals in it has this name.
pub fn read_denial(alloc: Global, value: Value, lead: &str) -> Result<Denial, TaskFault>
    ensures value { GivesUnless TaskFault.Memory result (denial_told lead.now (view value)) }
    ensures bounds { IfOk result IsDenial }
    ensures short { IfOk result (λ made. denial_texts made ≤ most_input_texts) }
{
    let mut fields = Fields::open(alloc, value, "answer")?;
    let error = take_text(alloc, &mut fields, "error")?;
    match error.as_str() {
        "limits" => read_limits(alloc, fields),
        "past" => read_past(alloc, fields),
        "conflict" => read_conflict(alloc, fields),
        "full" => read_full(alloc, fields),
        "differs" => read_differs(alloc, fields, lead),
        "closed" => read_closed(alloc, fields),
        "not a participant" => read_stranger(alloc, fields),
        "no tool" => read_no_tool(alloc, fields),
        _ => Err(JsonFault::wrong_kind(alloc, "error").into()),
    }
}
