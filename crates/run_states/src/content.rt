//! What of a row a proposal has.
ghost use Rattle.std.specs.Prelude.{◌≡◌, ◌↔◌, ◌∷◌, [], IsTrue, IfOk, unwrap_or};
ghost use Rattle.plugin_core.specs.Participants.{participants};
ghost use Rattle.run_states.specs.Content.{kept_proposal, same_content, start_of_span};

use crate::proposal::Proposal;
use crate::row::RunRow;
use plugin_core::test_spec::TestSpec;
use ps_time::items::Items;
use ps_time::memory::Memory;
use ps_time::moment::Moment;
use ps_time::same::Same;
use ps_time::text::Text;
use std::alloc::Global;

/// What was accepted, as it was proposed. A row that wasn't accepted has an empty name for its tool,
/// and the start 0.
pub fn proposal_of(alloc: Global, row: &RunRow) -> Result<Proposal, Memory>
    ensures { IfOk result (λ made. made ≡ kept_proposal row.now) }
{
    let tool = kept_tool(alloc, row)?;
    let asker = row.asker.copy(alloc)?;
    Ok(Proposal {
        key: row.key,
        test: row.test.copy(alloc)?,
        tool,
        start: kept_start(row),
        priority: row.priority,
        asker,
    })
}

/// Whether the proposal of this lead has the content of the row: what was accepted, with the same participants.
/// Takes no memory.
pub fn has_content(row: &RunRow, proposal: &Proposal, lead: &str) -> bool
    ensures same { result ≡ same_content row.now proposal.now (participants proposal.now.test lead.now) }
    ensures exact { IsTrue result ↔ ((kept_proposal row.now ≡ proposal.now) × (row.now.participants ≡ participants proposal.now.test lead.now)) }
{
    has_same(row, proposal, lead)
}

fn has_same(row: &RunRow, proposal: &Proposal, lead: &str) -> bool
    ensures { IsTrue result ↔ ((kept_proposal row.now ≡ proposal.now) × (row.now.participants ≡ participants proposal.now.test lead.now)) }
{
    is_proposed(row, proposal) && has_participants(&row.participants, &proposal.test, lead)
}

// Whether these are the participants, the lead's name first.
fn has_participants(names: &Items<Text>, test: &TestSpec, lead: &str) -> bool
    ensures { IsTrue result ↔ (names.now ≡ participants test.now lead.now) }
{
    match test {
        TestSpec::Idlemany { hosts, .. } => names.same(hosts),
        TestSpec::Simplestream { dest, .. } if !dest.is(lead) => {
            is_pair(names.as_slice(), lead, dest.as_str())
        }
        _ => is_alone(names.as_slice(), lead),
    }
}

fn is_alone(names: &[Text], lead: &str) -> bool
    ensures { IsTrue result ↔ (names.now ≡ lead.now ∷ []) }
{
    match names {
        [first] => first.is(lead),
        _ => false,
    }
}

fn is_pair(names: &[Text], lead: &str, other: &str) -> bool
    ensures { IsTrue result ↔ (names.now ≡ lead.now ∷ other.now ∷ []) }
{
    match names {
        [first, second] => first.is(lead) && second.is(other),
        _ => false,
    }
}

// Whether the proposal is what was accepted.
fn is_proposed(row: &RunRow, proposal: &Proposal) -> bool
    ensures { IsTrue result ↔ (kept_proposal row.now ≡ proposal.now) }
{
    row.key == proposal.key
        && row.test.same(&proposal.test)
        && has_tool(row, proposal)
        && kept_start(row) == proposal.start
        && row.priority == proposal.priority
        && row.asker.same(&proposal.asker)
}

fn has_tool(row: &RunRow, proposal: &Proposal) -> bool
    ensures { IsTrue result ↔ (unwrap_or row.now.tool [] ≡ proposal.now.tool) }
{
    match &row.tool {
        Some(tool) => tool.same(&proposal.tool),
        None => proposal.tool.is(""),
    }
}

fn kept_tool(alloc: Global, row: &RunRow) -> Result<Text, Memory>
    ensures { IfOk result (λ made. made ≡ unwrap_or row.now.tool []) }
{
    match &row.tool {
        Some(tool) => tool.copy(alloc),
        None => Text::new(alloc, ""),
    }
}

fn kept_start(row: &RunRow) -> Moment
    ensures { result ≡ start_of_span row.now.interval }
{
    match row.interval {
        Some(interval) => interval.start,
        None => 0,
    }
}
