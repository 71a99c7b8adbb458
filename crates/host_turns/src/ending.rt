//! How the active runs of a host end: by their tools, or by the host's restart.
ghost use Rattle.std.specs.Prelude.{◌≡◌, ◌≤◌, IfOk, Some};
ghost use Rattle.std.specs.List.{list_any};
ghost use Rattle.ps_time.specs.declared.moment.TheConstants.{MAX_MOMENT};
ghost use Rattle.plugin_core.specs.Bounds.{IsTest};
ghost use Rattle.plugin_tool.specs.ResultText.{TicksFit};
ghost use Rattle.host_model.specs.Book.{Book};
ghost use Rattle.host_model.specs.Ending.{end_of_span, end_run, end_started, ended_with, has_material, is_good_outcome, lead_of, restart_run, tool_view};
ghost use Rattle.host_turns.specs.Wishes.{MayEnd};

use host_model::change::Change;
use host_model::config::Config;
use plugin_tool::result::result_text;
use plugin_tool::run::{Outcome, ToolView, done, role_of};
use ps_time::memory::Memory;
use ps_time::moment::Moment;
use run_states::answer::Other;
use run_states::row::RunRow;
use std::alloc::Global;

/// The end of an active run whose tool is done at the moment, with the tool's result. Nothing else of a book matters.
pub fn end_run(
    alloc: Global,
    config: &Config,
    row: &RunRow,
    moment: Moment,
) -> Result<Option<Change>, Memory>
    requires may { MayEnd row.now }
    requires moment { moment ≤ MAX_MOMENT }
    ensures { (b : Book) → IfOk result (λ change. change ≡ end_run config.now moment b row.now) }
{
    if !row.is_active() {
        return Ok(None);
    }
    match row.started {
        Some(started) => end_started(alloc, config, row, started, moment),
        None => Ok(None),
    }
}

fn end_started(
    alloc: Global,
    config: &Config,
    row: &RunRow,
    started: Moment,
    moment: Moment,
) -> Result<Option<Change>, Memory>
    requires test { IsTest row.now.test }
    requires started { started ≤ MAX_MOMENT }
    requires moment { moment ≤ MAX_MOMENT }
    ensures { IfOk result (λ change. change ≡ end_started config.now moment row.now (Some started)) }
{
    let view = tool_view(config, row, started);
    match done(&row.test, &view, moment) {
        Some(outcome) => {
            let change = ended_with(alloc, row, &view, outcome)?;
            Ok(Some(change))
        }
        None => Ok(None),
    }
}

/// The end, without success, of an active run whose host was opened anew. Nothing else of a book matters.
pub fn restart_run(alloc: Global, config: &Config, row: &RunRow) -> Result<Option<Change>, Memory>
    requires may { MayEnd row.now }
    ensures { (b : Book) → IfOk result (λ change. change ≡ restart_run config.now b row.now) }
{
    if !row.is_active() {
        return Ok(None);
    }
    let view = tool_view(config, row, row.started.unwrap_or(0));
    let change = ended_with(alloc, row, &view, Outcome::Restarted)?;
    Ok(Some(change))
}

fn ended_with(
    alloc: Global,
    row: &RunRow,
    view: &ToolView,
    outcome: Outcome,
) -> Result<Change, Memory>
    requires test { IsTest row.now.test }
    requires fits { TicksFit row.now.test view.now outcome }
    ensures { IfOk result (λ change. change ≡ ended_with row.now view.now outcome) }
{
    let body = result_text(alloc, &row.test, view, outcome)?;
    Ok(Change::Ended {
        key: row.key,
        good: is_good(outcome),
        body,
    })
}

// Only a good outcome is a success.
fn is_good(outcome: Outcome) -> bool
    ensures { result ≡ is_good_outcome outcome }
{
    matches!(outcome, Outcome::Good)
}

fn tool_view(config: &Config, row: &RunRow, started: Moment) -> ToolView
    ensures { result ≡ tool_view config.now row.now started }
{
    ToolView {
        started,
        end: end_of(row),
        role: role_of(&row.test, lead_of(row), config.name.as_str()),
        material: has_material(row),
    }
}

// The lead is the first participant.
fn lead_of(row: &RunRow) -> &str
    ensures { result.now ≡ lead_of row.now }
{
    match row.participants.as_slice().first() {
        Some(name) => name.as_str(),
        None => "",
    }
}

/// The end of the row's interval, in seconds since 1970 UTC; 0 where it has none.
pub(crate) fn end_of(row: &RunRow) -> Moment
    ensures { result ≡ end_of_span row.now.interval }
{
    match row.interval {
        Some(interval) => interval.end,
        None => 0,
    }
}

// Whether the material was heard here, or acknowledged by the participant to which it was sent.
fn has_material(row: &RunRow) -> bool
    ensures { result ≡ has_material row.now }
{
    row.material.is_some() || is_told(row.others.as_slice())
}

fn is_told(others: &[Other]) -> bool
    ensures { result ≡ list_any (λ o. o.material_told) others.now }
{
    others.iter().any(|other| other.material_told)
}
