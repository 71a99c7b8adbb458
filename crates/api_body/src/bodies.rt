//! The bodies of requests of peers.
ghost use Rattle.std.specs.Prelude.{◌≡◌, ◌≤◌, ◌+◌, IfOk, codes, length};
ghost use Rattle.serde_json.specs.View.{view};
ghost use Rattle.ps_json.specs.Answer.{GivesUnless, seen_as};
ghost use Rattle.ps_json.specs.Fields.{without_member};
ghost use Rattle.ps_json.specs.Member.{required};
ghost use Rattle.ps_time.specs.Id.{id_of_text};
ghost use Rattle.ps_time.specs.Numbers.{most_request_bytes};
ghost use Rattle.ps_time.specs.declared.moment.TheConstants.{MAX_MOMENT};
ghost use Rattle.plugin_core.specs.Bounds.{IsTest};
ghost use Rattle.run_states.specs.LawfulRow.{IsProposal, IsWindow};
ghost use Rattle.task_spec.specs.Fault.{wrapped};
ghost use Rattle.api_body.specs.Bodies.{body_tree, moment_in, key_or, key_at, last_in, priority_at, test_at, text_at, ended, question_of, are_short, proposal_end, proposal_of, material_of};

use plugin_core::read_test::read_test;
use plugin_core::test_spec::TestSpec;
use ps_json::fault::JsonFault;
use ps_json::fields::Fields;
use ps_json::kinds::{read_count, read_text};
use ps_json::tree::read_tree;
use ps_time::asker::Asker;
use ps_time::id::{Id, read_id};
use ps_time::interval::Window;
use ps_time::key::RunKey;
use ps_time::moment::{MAX_MOMENT, Moment};
use ps_time::text::Text;
use run_states::proposal::{Proposal, Question};
use serde_json::Value;
use std::alloc::Global;
use task_spec::fault::TaskFault;

/// How many seconds a peer may ask about at once.
const HORIZON: u64 = 86_400;

/// The longest body, in bytes. No text in it is longer.
pub const MOST_BODY: usize = 1_048_576;

/// The tree of a body.
pub fn read_body(alloc: Global, bytes: &[u8]) -> Result<Value, TaskFault>
    ensures { GivesUnless TaskFault.Memory (seen_as view result) (body_tree bytes.now) }
{
    Ok(read_tree(alloc, bytes)?)
}

/// A moment in whole seconds since 1970 UTC, taken from a member.
pub fn take_moment(alloc: Global, fields: &mut Fields, name: &str) -> Result<Moment, TaskFault>
    ensures value { GivesUnless TaskFault.Memory result (required wrapped moment_in name.now fields.old) }
    ensures bound { IfOk result (λ moment. moment ≤ MAX_MOMENT) }
    ensures rest { fields.new ≡ without_member name.now fields.old }
{
    let value = fields.need(alloc, name)?;
    Ok(read_count(alloc, value, name, 0, MAX_MOMENT)?)
}

/// The last moment of those that are asked about.
fn take_last(alloc: Global, fields: &mut Fields, first: Moment) -> Result<Moment, TaskFault>
    requires { first ≤ MAX_MOMENT }
    ensures value { GivesUnless TaskFault.Memory result (required wrapped (last_in first) (codes "last") fields.old) }
    ensures bound { IfOk result (λ last. (first ≤ last) × (last ≤ MAX_MOMENT)) }
    ensures rest { fields.new ≡ without_member (codes "last") fields.old }
{
    let value = fields.need(alloc, "last")?;
    let most = MAX_MOMENT.min(first + HORIZON);
    Ok(read_count(alloc, value, "last", first, most)?)
}

/// The key that an identifier of a run has.
fn read_key(alloc: Global, text: &str, name: &str) -> Result<RunKey, JsonFault>
    ensures { GivesUnless JsonFault.Memory result (key_or name.now (id_of_text text.now)) }
{
    match read_id(text) {
        Some(Id::Run(key)) => Ok(key),
        _ => Err(JsonFault::wrong_kind(alloc, name)),
    }
}

/// The key of a run, taken from a member that has its identifier.
pub fn take_key_at(alloc: Global, fields: &mut Fields, name: &str) -> Result<RunKey, TaskFault>
    ensures value { GivesUnless TaskFault.Memory result (required wrapped key_at name.now fields.old) }
    ensures rest { fields.new ≡ without_member name.now fields.old }
{
    let value = fields.need(alloc, name)?;
    let text = read_text(alloc, value, name)?;
    Ok(read_key(alloc, text.as_str(), name)?)
}

fn read_priority(value: &Value) -> Result<i16, TaskFault>
    ensures { result ≡ priority_at (codes "priority") (view value.now) }
{
    match value.as_i64() {
        Some(priority) if -32_768 <= priority && priority <= 32_767 => Ok(priority as i16),
        _ => Err(TaskFault::BadPriority),
    }
}

fn take_priority(alloc: Global, fields: &mut Fields) -> Result<i16, TaskFault>
    ensures value { GivesUnless TaskFault.Memory result (required wrapped priority_at (codes "priority") fields.old) }
    ensures rest { fields.new ≡ without_member (codes "priority") fields.old }
{
    let value = fields.need(alloc, "priority")?;
    read_priority(&value)
}

fn take_test(alloc: Global, fields: &mut Fields) -> Result<TestSpec, TaskFault>
    ensures value { GivesUnless TaskFault.Memory result (required wrapped test_at (codes "test") fields.old) }
    ensures bounds { IfOk result IsTest }
    ensures rest { fields.new ≡ without_member (codes "test") fields.old }
{
    let value = fields.need(alloc, "test")?;
    Ok(read_test(alloc, value)?)
}

/// A text, taken from a member.
pub fn take_text(alloc: Global, fields: &mut Fields, name: &str) -> Result<Text, TaskFault>
    ensures value { GivesUnless TaskFault.Memory result (required wrapped text_at name.now fields.old) }
    ensures rest { fields.new ≡ without_member name.now fields.old }
{
    let value = fields.need(alloc, name)?;
    Ok(Text::from_string(read_text(alloc, value, name)?))
}

/// The question, if nothing but comments is left beside it.
fn end_question(alloc: Global, fields: Fields, question: Question) -> Result<Question, TaskFault>
    ensures value { GivesUnless TaskFault.Memory result (ended fields question) }
    ensures same { IfOk result (λ made. made ≡ question) }
{
    fields.end(alloc)?;
    Ok(question)
}

/// The question for free starts that a body is.
pub fn read_question(alloc: Global, value: Value) -> Result<Question, TaskFault>
    ensures value { GivesUnless TaskFault.Memory result (question_of (view value)) }
    ensures test { IfOk result (λ question. IsTest question.test) }
    ensures window { IfOk result (λ question. IsWindow question.window) }
{
    let mut fields = Fields::open(alloc, value, "question")?;
    let first = take_moment(alloc, &mut fields, "first")?;
    let key = take_key_at(alloc, &mut fields, "key")?;
    let last = take_last(alloc, &mut fields, first)?;
    let priority = take_priority(alloc, &mut fields)?;
    let test = take_test(alloc, &mut fields)?;
    end_question(
        alloc,
        fields,
        Question {
            key,
            test,
            priority,
            window: Window { first, last },
        },
    )
}

/// Whether the texts of a proposal have together at most this many bytes.
fn are_short(requester: &Text, tool: &Text, server: &str, most: usize) -> bool
    ensures { result ≡ are_short most requester.now tool.now server.now }
{
    requester.len() <= most
        && tool.len() <= most - requester.len()
        && server.len() <= most - requester.len() - tool.len()
}

/// The proposal, if nothing but comments is left beside it and its texts are short enough.
fn end_proposal(
    alloc: Global,
    fields: Fields,
    proposal: Proposal,
    most: usize,
) -> Result<Proposal, TaskFault>
    ensures value { GivesUnless TaskFault.Memory result (proposal_end most fields proposal) }
    ensures same { IfOk result (λ made. made ≡ proposal) }
    ensures short { IfOk result (λ made. length made.asker.requester + length made.tool + length made.asker.server ≤ most) }
{
    fields.end(alloc)?;
    let asker = &proposal.asker;
    if !are_short(
        &asker.requester,
        &proposal.tool,
        asker.server.as_str(),
        most,
    ) {
        return Err(JsonFault::wrong_kind(alloc, "tool").into());
    }
    Ok(proposal)
}

/// The proposal that a body is, where the lead has this name, and the texts have together at most `most` bytes.
pub fn read_proposal(
    alloc: Global,
    value: Value,
    lead: &str,
    most: usize,
) -> Result<Proposal, TaskFault>
    ensures value { GivesUnless TaskFault.Memory result (proposal_of most lead.now (view value)) }
    ensures bounds { IfOk result IsProposal }
    ensures server { IfOk result (λ proposal. proposal.asker.server ≡ lead.now) }
    ensures short { IfOk result (λ made. length made.asker.requester + length made.tool + length made.asker.server ≤ most) }
{
    let mut fields = Fields::open(alloc, value, "proposal")?;
    let key = take_key_at(alloc, &mut fields, "key")?;
    let priority = take_priority(alloc, &mut fields)?;
    let requester = take_text(alloc, &mut fields, "requester")?;
    let start = take_moment(alloc, &mut fields, "start")?;
    let test = take_test(alloc, &mut fields)?;
    let tool = take_text(alloc, &mut fields, "tool")?;
    let server = Text::new(alloc, lead)?;
    end_proposal(
        alloc,
        fields,
        Proposal {
            key,
            test,
            tool,
            start,
            priority,
            asker: Asker { requester, server },
        },
        most,
    )
}

/// The material that a body is.
pub fn read_material(alloc: Global, value: Value) -> Result<Text, TaskFault>
    ensures value { GivesUnless TaskFault.Memory result (material_of (view value)) }
    ensures short { IfOk result (λ text. length text ≤ most_request_bytes) }
{
    let mut fields = Fields::open(alloc, value, "material")?;
    let text = take_text(alloc, &mut fields, "material")?;
    fields.end(alloc)?;
    if text.len() > MOST_BODY {
        return Err(JsonFault::wrong_kind(alloc, "material").into());
    }
    Ok(text)
}
