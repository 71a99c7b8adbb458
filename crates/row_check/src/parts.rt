//! What a row reserves, asked about and has of others.
ghost use Rattle.std.specs.Prelude.{◌≡◌, ◌↔◌, All, IfSome, IsTrue, is_some, true};
ghost use Rattle.std.specs.List.{list_all};
ghost use Rattle.ps_time.specs.Name.{is_name};
ghost use Rattle.plugin_core.specs.Bounds.{IsTest};
ghost use Rattle.plugin_tool.specs.Choice.{tool_of_text};
ghost use Rattle.run_states.specs.LawfulRow.{HasOrigin, HasParticipants, IsDueInTime, IsFreeAnswer, IsWindow, Reserves};

use archive_retry::state::ArchiveState;
use plugin_core::test_spec::length_of;
use plugin_tool::choice::read_tool;
use ps_time::interval::Window;
use ps_time::moment::{MAX_LENGTH, MAX_MOMENT};
use ps_time::name::is_host_name;
use ps_time::text::Text;
use run_states::answer::FreeAnswer;
use run_states::row::RunRow;

fn are_names(names: &[Text]) -> bool
    ensures { result ≡ list_all is_name names.now }
{
    for name in names {
        if !is_host_name(name.as_str()) {
            return false;
        }
    }
    true
}

/// Whether these are 1 to 8 names.
pub fn are_participants(names: &[Text]) -> bool
    ensures { IsTrue result ↔ HasParticipants names.now }
{
    1 <= names.len() && names.len() <= 8 && are_names(names)
}

fn are_tools(names: &[Text]) -> bool
    ensures { result ≡ list_all (λ name. is_some (tool_of_text name)) names.now }
{
    for name in names {
        if read_tool(name.as_str()).is_none() {
            return false;
        }
    }
    true
}

fn is_window(window: &Window) -> bool
    ensures { IsTrue result ↔ IsWindow window.now }
{
    window.first <= window.last && window.last <= MAX_MOMENT
}

fn are_windows(windows: &[Window]) -> bool
    ensures { IsTrue result ↔ All IsWindow windows.now }
{
    for window in windows {
        if !is_window(window) {
            return false;
        }
    }
    true
}

/// Whether the answer names known tools, and windows within bounds.
pub fn is_free_answer(answer: &FreeAnswer) -> bool
    ensures { IsTrue result ↔ IsFreeAnswer answer.now }
{
    are_tools(answer.tools.as_slice())
        && are_windows(answer.tiers.first.as_slice())
        && are_windows(answer.tiers.second.as_slice())
}

/// Whether the row's question, if it has one, is within bounds.
pub fn has_question(question: &Option<Window>) -> bool
    ensures { IsTrue result ↔ IfSome question.now IsWindow }
{
    match question {
        None => true,
        Some(window) => is_window(window),
    }
}

/// Whether the row was asked about with all that this takes, or else accepted.
pub fn has_origin(row: &RunRow) -> bool
    ensures { IsTrue result ↔ HasOrigin row.now row.now.asked }
{
    match row.asked {
        Some(_) => row.question.is_some()
            && row.participants.len() >= 1
            && row.others.len() == row.participants.len() - 1,
        None => row.accepted.is_some() && row.question.is_none() && row.others.len() == 0,
    }
}

/// Whether the row has a known tool and the interval of its test exactly where it was accepted.
pub fn has_reserved(row: &RunRow) -> bool
    requires { IsTest row.now.test }
    ensures { IsTrue result ↔ Reserves row.now.test row.now.accepted row.now.tool row.now.interval }
{
    match (row.accepted, &row.tool, &row.interval) {
        (None, None, None) => true,
        (Some(_), Some(tool), Some(interval)) => read_tool(tool.as_str()).is_some()
            && interval.start <= MAX_MOMENT
            && interval.end - interval.start == length_of(&row.test),
        _ => false,
    }
}

fn is_due_in_time(state: &ArchiveState) -> bool
    ensures { IsTrue result ↔ IsDueInTime state.now }
{
    match state.next {
        None => true,
        Some(next) => next <= MAX_MOMENT + MAX_LENGTH,
    }
}

/// Whether each archive that is due is so within bounds.
pub fn are_due_in_time(states: &[ArchiveState]) -> bool
    ensures { IsTrue result ↔ All IsDueInTime states.now }
{
    for state in states {
        if !is_due_in_time(state) {
            return false;
        }
    }
    true
}
