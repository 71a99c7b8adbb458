//! The bodies of denials.
ghost use Rattle.std.specs.Prelude.{◌≡◌, IfOk};
ghost use Rattle.serde_json.specs.View.{view};
ghost use Rattle.plugin_core.specs.Bounds.{IsTest};
ghost use Rattle.run_states.specs.LawfulRow.{IsDenial};
ghost use Rattle.api_reply.specs.Denials.{at_application, denial_data, denial_status, differs_data, full_data, limits_data, past_data, proposal_data, what_text};

use crate::object::Object;
use crate::shown::{run_text, write_error_with};
use plugin_core::write_test::write_test;
use ps_time::asker::Verdict;
use ps_time::memory::Memory;
use ps_time::moment::Moment;
use run_states::proposal::Proposal;
use run_states::why::{Denial, What};
use serde_json::Value;
use std::alloc::Global;

fn write_application(alloc: Global, index: u32, verdict: &str) -> Result<Value, Memory>
    ensures { IfOk result (λ value. view value ≡ at_application index verdict.now) }
{
    Ok(
        Object::new(alloc)
            .text("error", "limits")?
            .count("index", u64::from(index))?
            .text("verdict", verdict)?
            .into_value(),
    )
}

fn write_above(alloc: Global, ceiling: i16) -> Result<Value, Memory>
    ensures { IfOk result (λ value. view value ≡ limits_data (Verdict.AboveCeiling ceiling)) }
{
    Ok(
        Object::new(alloc)
            .integer("ceiling", ceiling)?
            .text("error", "limits")?
            .text("verdict", "above-ceiling")?
            .into_value(),
    )
}

/// What the limits say of a run that they don't permit.
pub fn write_limits(alloc: Global, verdict: Verdict) -> Result<Value, Memory>
    ensures { IfOk result (λ value. view value ≡ limits_data verdict) }
{
    match verdict {
        Verdict::Permitted(index) => write_application(alloc, index, "permitted"),
        Verdict::Stopped(index) => write_application(alloc, index, "stopped"),
        Verdict::Exhausted => write_error_with(alloc, "limits", "verdict", "exhausted"),
        Verdict::AboveCeiling(ceiling) => write_above(alloc, ceiling),
    }
}

fn write_past(alloc: Global, moment: Moment, start: Moment) -> Result<Value, Memory>
    ensures { IfOk result (λ value. view value ≡ past_data moment start) }
{
    Ok(
        Object::new(alloc)
            .text("error", "past")?
            .second("moment", moment)?
            .second("start", start)?
            .into_value(),
    )
}

/// That there is no room for more of these, and how many there are.
pub fn write_full(alloc: Global, count: u64, what: &str) -> Result<Value, Memory>
    ensures { IfOk result (λ value. view value ≡ full_data count what.now) }
{
    Ok(
        Object::new(alloc)
            .count("count", count)?
            .text("error", "full")?
            .text("what", what)?
            .into_value(),
    )
}

fn what_name(what: What) -> &'static str
    ensures { result.now ≡ what_text what }
{
    match what {
        What::Runs => "runs",
        What::Results => "results",
        What::Numbers => "numbers",
    }
}

fn write_proposal(alloc: Global, proposal: &Proposal) -> Result<Value, Memory>
    requires { IsTest proposal.now.test }
    ensures { IfOk result (λ value. view value ≡ proposal_data proposal.now) }
{
    let key = run_text(alloc, proposal.key)?;
    let test = write_test(alloc, &proposal.test)?;
    Ok(
        Object::new(alloc)
            .text("key", key.as_str())?
            .integer("priority", proposal.priority)?
            .text("requester", proposal.asker.requester.as_str())?
            .second("start", proposal.start)?
            .with("test", test)?
            .text("tool", proposal.tool.as_str())?
            .into_value(),
    )
}

fn write_differs(alloc: Global, kept: &Proposal, sent: &Proposal) -> Result<Value, Memory>
    requires kept { IsTest kept.now.test }
    requires sent { IsTest sent.now.test }
    ensures { IfOk result (λ value. view value ≡ differs_data kept.now sent.now) }
{
    let object = Object::new(alloc).text("error", "differs")?;
    let object = object.with("kept", write_proposal(alloc, kept)?)?;
    Ok(
        object
            .with("sent", write_proposal(alloc, sent)?)?
            .into_value(),
    )
}

/// Why the host of this name takes no part in a run.
pub fn write_denial(alloc: Global, name: &str, denial: &Denial) -> Result<Value, Memory>
    requires { IsDenial denial.now }
    ensures { IfOk result (λ value. view value ≡ denial_data name.now denial.now) }
{
    match denial {
        Denial::Limits(verdict) => write_limits(alloc, *verdict),
        Denial::Past(moment, start) => write_past(alloc, *moment, *start),
        Denial::Conflict(key) => {
            let run = run_text(alloc, *key)?;
            write_error_with(alloc, "conflict", "run", run.as_str())
        }
        Denial::Full(what, count) => write_full(alloc, *count, what_name(*what)),
        Denial::Differs(kept, sent) => write_differs(alloc, kept.value(), sent.value()),
        Denial::Closed(state) => write_error_with(alloc, "closed", "why", state.name()),
        Denial::NotParticipant => write_error_with(alloc, "not a participant", "host", name),
        Denial::NoTool(tool) => write_error_with(alloc, "no tool", "tool", tool.as_str()),
    }
}

/// The status of a denial.
pub fn denial_status(denial: &Denial) -> u16
    ensures { result ≡ denial_status denial.now }
{
    match denial {
        Denial::Limits(_) => 403,
        Denial::Full(_, _) => 507,
        _ => 409,
    }
}
