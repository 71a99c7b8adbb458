//! The bodies of orders.
ghost use Rattle.std.specs.Prelude.{◌≡◌, IfOk, Ok};
ghost use Rattle.serde_json.specs.Data.{number};
ghost use Rattle.serde_json.specs.Find.{of_integer};
ghost use Rattle.serde_json.specs.View.{view};
ghost use Rattle.serde_json.specs.Written.{compact_text};
ghost use Rattle.plugin_core.specs.Bounds.{IsTest};
ghost use Rattle.api_body.specs.Bodies.{proposal_of, question_of};
ghost use Rattle.api_input.specs.Understood.{most_texts};
ghost use Rattle.api_reply.specs.Denials.{proposal_data};
ghost use Rattle.api_reply.specs.Shown.{run_text};
ghost use Rattle.api_peer.specs.Meant.{IsAskable, IsPriority, IsProposable, IsReadKey, IsReadMaterial, IsReadProposal, IsReadQuestion};
ghost use Rattle.api_peer.specs.Ordered.{material_data, question_data};

use api_reply::object::Object;
use api_reply::respond::body_bytes;
use plugin_core::write_test::{law_test, write_test};
use ps_time::id::{Id, id_text};
use ps_time::items::Items;
use ps_time::key::RunKey;
use ps_time::memory::Memory;
use ps_time::text::Text;
use run_states::proposal::{Proposal, Question};
use serde_json::Value;
use std::alloc::Global;

/// The identifier of a run.
pub fn run_id(alloc: Global, key: RunKey) -> Result<Text, Memory>
    ensures text { IfOk result (λ id. id ≡ run_text key) }
    ensures reads { IfOk result (λ id. IsReadKey key) }
{
    id_text(alloc, Id::Run(key))
}

// Behind a reference, so that its range is known to callers too.
fn priority_value(priority: &i16) -> Value
    ensures tree { view result ≡ number (of_integer priority.now) }
    ensures reads { IsPriority priority.now }
{
    Value::from(*priority)
}

fn write_question(alloc: Global, question: &Question) -> Result<Value, Memory>
    requires { IsTest question.now.test }
    ensures tree { IfOk result (λ value. view value ≡ question_data question.now) }
    ensures reads { IfOk result (λ value. IsAskable question.now.window → question_of (question_data question.now) ≡ Ok question.now) }
{
    law_test();
    let key = run_id(alloc, question.key)?;
    let test = write_test(alloc, &question.test)?;
    let window = question.window;
    Ok(
        Object::new(alloc)
            .second("first", window.first)?
            .text("key", key.as_str())?
            .second("last", window.last)?
            .with("priority", priority_value(&question.priority))?
            .with("test", test)?
            .into_value(),
    )
}

/// The body of a question for free starts.
pub fn question_bytes(alloc: Global, question: &Question) -> Result<Items<u8>, Memory>
    requires { IsTest question.now.test }
    ensures text { IfOk result (λ body. body ≡ compact_text (question_data question.now)) }
    ensures reads { IfOk result (λ body. IsReadQuestion question.now) }
{
    let value = write_question(alloc, question)?;
    body_bytes(alloc, &value)
}

fn write_proposal(alloc: Global, proposal: &Proposal) -> Result<Value, Memory>
    requires { IsTest proposal.now.test }
    ensures tree { IfOk result (λ value. view value ≡ proposal_data proposal.now) }
    ensures reads { IfOk result (λ value. (name : _) → IsProposable name proposal.now → proposal_of most_texts name (proposal_data proposal.now) ≡ Ok proposal.now) }
{
    law_test();
    let key = run_id(alloc, proposal.key)?;
    let test = write_test(alloc, &proposal.test)?;
    Ok(
        Object::new(alloc)
            .text("key", key.as_str())?
            .with("priority", priority_value(&proposal.priority))?
            .text("requester", proposal.asker.requester.as_str())?
            .second("start", proposal.start)?
            .with("test", test)?
            .text("tool", proposal.tool.as_str())?
            .into_value(),
    )
}

/// The body of a proposal.
pub fn proposal_bytes(alloc: Global, proposal: &Proposal) -> Result<Items<u8>, Memory>
    requires { IsTest proposal.now.test }
    ensures text { IfOk result (λ body. body ≡ compact_text (proposal_data proposal.now)) }
    ensures reads { IfOk result (λ body. IsReadProposal proposal.now) }
{
    let value = write_proposal(alloc, proposal)?;
    body_bytes(alloc, &value)
}

fn write_material(alloc: Global, text: &Text) -> Result<Value, Memory>
    ensures { IfOk result (λ value. view value ≡ material_data text.now) }
{
    Ok(
        Object::new(alloc)
            .text("material", text.as_str())?
            .into_value(),
    )
}

/// The body that brings the material of a run.
pub fn material_bytes(alloc: Global, text: &Text) -> Result<Items<u8>, Memory>
    ensures text { IfOk result (λ body. body ≡ compact_text (material_data text.now)) }
    ensures reads { IfOk result (λ body. IsReadMaterial text.now) }
{
    let value = write_material(alloc, text)?;
    body_bytes(alloc, &value)
}
