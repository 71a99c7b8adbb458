//! What a lead makes of a run once every other participant has told when it is free.
ghost use Rattle.std.specs.Prelude.{◌≡◌, ◌≤◌, ◌∷◌, Some, None, IfOk, filter_map, is_some, map};
ghost use Rattle.std.specs.List.{list_all};
ghost use Rattle.ps_time.specs.declared.moment.TheConstants.{MAX_MOMENT};
ghost use Rattle.plugin_tool.specs.Choice.{chosen};
ghost use Rattle.slot_search.specs.CommonStart.{earliest};
ghost use Rattle.host_model.specs.Plan.{answers_of, common_start, startable_window, is_answered, plan, planned_at};

use crate::attempt::PLAN_LEAD;
use host_model::lead::Planned;
use plugin_tool::choice::choose_tool;
use plugin_tool::tool::{Tool, tool_name};
use ps_time::interval::Window;
use ps_time::items::Items;
use ps_time::memory::Memory;
use ps_time::moment::Moment;
use ps_time::text::Text;
use ps_time::tiers::Tiers;
use run_states::answer::{FreeAnswer, Other};
use run_states::row::RunRow;
use slot_search::search::{Choice, earliest};
use std::alloc::Global;

/// What the run comes to, with the lead's own answer: the tool that all have, and the least start at least 5 s ahead that
/// is free at all of them, or else the least one that preemption frees.
pub fn plan(
    alloc: Global,
    wanted: &[Text],
    row: &RunRow,
    own: &FreeAnswer,
    moment: Moment,
) -> Result<Planned, Memory>
    requires { moment ≤ MAX_MOMENT }
    ensures { IfOk result (λ planned. planned ≡ plan moment wanted.now row.now own.now) }
{
    match common_tool(alloc, wanted, row, own)? {
        Some(tool) => plan_with(alloc, tool, row, own, moment),
        None => Ok(Planned::NoTool),
    }
}

fn plan_with(
    alloc: Global,
    tool: Tool,
    row: &RunRow,
    own: &FreeAnswer,
    moment: Moment,
) -> Result<Planned, Memory>
    requires { moment ≤ MAX_MOMENT }
    ensures { IfOk result (λ planned. planned ≡ planned_at (common_start moment row.now.question (own.now ∷ answers_of row.now)) tool) }
{
    match common_start(alloc, row, own, moment)? {
        Some(choice) => Ok(Planned::At(choice.start, Text::new(alloc, tool_name(tool))?)),
        None => Ok(Planned::NoSlot),
    }
}

// The tool that all have.
fn common_tool(
    alloc: Global,
    wanted: &[Text],
    row: &RunRow,
    own: &FreeAnswer,
) -> Result<Option<Tool>, Memory>
    ensures { IfOk result (λ tool. tool ≡ chosen (map (λ a. a.tools) (own.now ∷ answers_of row.now)) wanted.now) }
{
    let lists = tools_of_all(alloc, own, row.others.as_slice())?;
    Ok(choose_tool(lists.as_slice(), wanted))
}

fn tools_of_all(
    alloc: Global,
    own: &FreeAnswer,
    others: &[Other],
) -> Result<Items<Items<Text>>, Memory>
    ensures { IfOk result (λ lists. lists ≡ map (λ a. a.tools) (own.now ∷ filter_map (λ o. o.free) others.now)) }
{
    let mut lists = Items::new(alloc);
    lists.push(own.tools.copy(alloc)?)?;
    for other in others {
        if let Some(answer) = &other.free {
            lists.push(answer.tools.copy(alloc)?)?;
        }
    }
    Ok(lists)
}

// The least start that all have in common; none without a question.
fn common_start(
    alloc: Global,
    row: &RunRow,
    own: &FreeAnswer,
    moment: Moment,
) -> Result<Option<Choice>, Memory>
    requires { moment ≤ MAX_MOMENT }
    ensures { IfOk result (λ choice. choice ≡ common_start moment row.now.question (own.now ∷ answers_of row.now)) }
{
    match row.question {
        Some(question) => {
            let lists = starts_of_all(alloc, own, row.others.as_slice())?;
            Ok(earliest_from(&question, moment, lists.as_slice()))
        }
        None => Ok(None),
    }
}

// The least common start of the window that is at least 5 s ahead.
#[tactic(auto, using(crate::proofs::AttemptLemmas::none_earliest))]
fn earliest_from(question: &Window, moment: Moment, lists: &[Tiers]) -> Option<Choice>
    requires { moment ≤ MAX_MOMENT }
    ensures { result ≡ earliest (startable_window moment question.now) lists.now }
{
    let first = question.first.max(moment + PLAN_LEAD);
    if question.last < first {
        return None;
    }
    let window = Window {
        first,
        last: question.last,
    };
    earliest(window, lists)
}

fn starts_of_all(alloc: Global, own: &FreeAnswer, others: &[Other]) -> Result<Items<Tiers>, Memory>
    ensures { IfOk result (λ lists. lists ≡ map (λ a. a.tiers) (own.now ∷ filter_map (λ o. o.free) others.now)) }
{
    let mut lists = Items::new(alloc);
    lists.push(own.tiers.copy(alloc)?)?;
    for other in others {
        if let Some(answer) = &other.free {
            lists.push(answer.tiers.copy(alloc)?)?;
        }
    }
    Ok(lists)
}

/// Whether the run is asked about, neither accepted nor closed, and every other participant has told when it is free.
pub fn is_answered(row: &RunRow) -> bool
    ensures { result ≡ is_answered row.now }
{
    row.asked.is_some()
        && row.accepted.is_none()
        && row.closed.is_none()
        && have_all_answered(row.others.as_slice())
}

fn have_all_answered(others: &[Other]) -> bool
    ensures { result ≡ list_all (λ o. is_some o.free) others.now }
{
    for other in others {
        if other.free.is_none() {
            return false;
        }
    }
    true
}
