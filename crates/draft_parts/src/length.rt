//! How many bytes a change takes in a record.
ghost use Rattle.std.specs.Prelude.{◌≡◌, ◌≤◌, ◌+◌, IfOk};
ghost use Rattle.plugin_core.specs.Bounds.{IsTest};
ghost use Rattle.run_states.specs.LawfulRow.{IsCause, IsDenial, IsProposal, IsWhy};
ghost use Rattle.host_model.specs.RecordLength.{asker_bytes, cause_bytes, change_bytes, denial_bytes, fields_bytes, list_bytes, proposal_bytes, test_bytes, text_bytes, verdict_bytes, why_bytes};
ghost use Rattle.draft_parts.specs.ReadOn.{HasTests, IsReadOn};

use host_model::change::Change;
use plugin_core::test_spec::TestSpec;
use plugin_core::write_test::write_test;
use ps_json::tree::write_text;
use ps_time::asker::{Asker, Verdict};
use ps_time::memory::Memory;
use ps_time::text::Text;
use run_states::proposal::{Proposal, Question};
use run_states::why::{Cause, Denial, Why};
use std::alloc::Global;

/// How many bytes a change that is read on takes in a record. Takes memory for the tests in it, whose texts are written.
pub fn change_length(alloc: Global, change: &Change) -> Result<u64, Memory>
    requires kind { IsReadOn change.now }
    requires tests { HasTests change.now }
    ensures { IfOk result (λ length. length ≡ change_bytes change.now) }
{
    plus(1, fields_length(alloc, change)?)
}

fn fields_length(alloc: Global, change: &Change) -> Result<u64, Memory>
    requires kind { IsReadOn change.now }
    requires tests { HasTests change.now }
    ensures { IfOk result (λ length. length ≡ fields_bytes change.now) }
{
    match change {
        Change::Asked {
            question,
            participants,
            asker,
        } => asked_length(alloc, question.value(), participants.as_slice(), asker),
        Change::Planned { tool, .. } => plus(24, text_length(tool)?),
        Change::Closed { why, .. } => plus(12, why_length(alloc, why)?),
        Change::Ended { body, .. } => plus(13, text_length(body)?),
        Change::Merged { body, .. } => plus(12, text_length(body)?),
        Change::Started(_) | Change::Purged(_) => Ok(12),
        Change::Posted(_)
        | Change::TaskClosed(_)
        | Change::Accepted { .. }
        | Change::Confirmed(_)
        | Change::FreeHeard { .. }
        | Change::AcceptHeard { .. }
        | Change::Told { .. }
        | Change::MaterialHeard(_)
        | Change::ResultHeard { .. }
        | Change::Tried { .. }
        | Change::LimitsSet(_) => unreachable!(),
    }
}

// A key, the test, a priority, the participants, the asker and a window.
fn asked_length(
    alloc: Global,
    question: &Question,
    participants: &[Text],
    asker: &Asker,
) -> Result<u64, Memory>
    requires { IsTest question.now.test }
    ensures { IfOk result (λ length. length ≡ 12 + test_bytes question.now.test + 2 + list_bytes text_bytes participants.now + asker_bytes asker.now + 16) }
{
    let names = texts_length(participants)?;
    let who = plus(names, asker_length(asker)?)?;
    plus(30, plus(who, test_length(alloc, &question.test)?)?)
}

fn texts_length(texts: &[Text]) -> Result<u64, Memory>
    ensures { IfOk result (λ length. length ≡ list_bytes text_bytes texts.now) }
{
    let mut total: u64 = 4;
    for text in texts {
        total = plus(total, text_length(text)?)?;
    }
    Ok(total)
}

fn asker_length(asker: &Asker) -> Result<u64, Memory>
    ensures { IfOk result (λ length. length ≡ asker_bytes asker.now) }
{
    let requester = text_length(&asker.requester)?;
    plus(requester, text_length(&asker.server)?)
}

// A test is kept as JSON.
fn test_length(alloc: Global, test: &TestSpec) -> Result<u64, Memory>
    requires { IsTest test.now }
    ensures { IfOk result (λ length. length ≡ test_bytes test.now) }
{
    let value = write_test(alloc, test)?;
    let text = write_text(alloc, &value)?;
    text_length(&text)
}

fn why_length(alloc: Global, why: &Why) -> Result<u64, Memory>
    requires { IsWhy why.now }
    ensures { IfOk result (λ length. length ≡ why_bytes why.now) }
{
    match why {
        Why::Missed | Why::Canceled => Ok(1),
        Why::Preempted(_) => Ok(13),
        Why::Nonstart(cause) => plus(1, cause_length(alloc, cause)?),
    }
}

fn cause_length(alloc: Global, cause: &Cause) -> Result<u64, Memory>
    requires { IsCause cause.now }
    ensures { IfOk result (λ length. length ≡ cause_bytes cause.now) }
{
    match cause {
        Cause::NoSlot | Cause::NoTool | Cause::Silent | Cause::HoldEnded => Ok(1),
        Cause::Denied(host, denial) => {
            let name = plus(1, text_length(host)?)?;
            plus(name, denial_length(alloc, denial)?)
        }
    }
}

fn denial_length(alloc: Global, denial: &Denial) -> Result<u64, Memory>
    requires { IsDenial denial.now }
    ensures { IfOk result (λ length. length ≡ denial_bytes denial.now) }
{
    match denial {
        Denial::Limits(verdict) => Ok(1 + verdict_length(*verdict)),
        Denial::Past(_, _) => Ok(17),
        Denial::Conflict(_) => Ok(13),
        Denial::Full(_, _) => Ok(10),
        Denial::Differs(kept, sent) => {
            let first = plus(1, proposal_length(alloc, kept.value())?)?;
            plus(first, proposal_length(alloc, sent.value())?)
        }
        Denial::Closed(_) => Ok(2),
        Denial::NotParticipant => Ok(1),
        Denial::NoTool(tool) => plus(1, text_length(tool)?),
    }
}

fn verdict_length(verdict: Verdict) -> u64
    ensures value { result ≡ verdict_bytes verdict }
    ensures bound { result ≤ 5 }
{
    match verdict {
        Verdict::Permitted(_) | Verdict::Stopped(_) => 5,
        Verdict::Exhausted => 1,
        Verdict::AboveCeiling(_) => 3,
    }
}

fn proposal_length(alloc: Global, proposal: &Proposal) -> Result<u64, Memory>
    requires { IsProposal proposal.now }
    ensures { IfOk result (λ length. length ≡ proposal_bytes proposal.now) }
{
    let tool = text_length(&proposal.tool)?;
    let who = plus(tool, asker_length(&proposal.asker)?)?;
    plus(22, plus(who, test_length(alloc, &proposal.test)?)?)
}

// A text with its length.
fn text_length(text: &Text) -> Result<u64, Memory>
    ensures { IfOk result (λ length. length ≡ text_bytes text.now) }
{
    plus(4, text.len() as u64)
}

// A sum of lengths. No memory holds more than the type counts.
fn plus(a: u64, b: u64) -> Result<u64, Memory>
    ensures { IfOk result (λ sum. sum ≡ a + b) }
{
    match a.checked_add(b) {
        Some(sum) => Ok(sum),
        None => Err(Memory),
    }
}
