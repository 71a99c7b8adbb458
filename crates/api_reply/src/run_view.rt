//! The view of a run.
ghost use Rattle.std.specs.Prelude.{◌≡◌, IfOk, IfSome, codes, map, option_map};
ghost use Rattle.serde_json.specs.Data.{array, number, put as with_member, string};
ghost use Rattle.serde_json.specs.Find.{of_integer};
ghost use Rattle.serde_json.specs.View.{items_of, view};
ghost use Rattle.ps_json.specs.TreeText.{kept_tree};
ghost use Rattle.plugin_core.specs.WriteTest.{names_data};
ghost use Rattle.run_states.specs.State.{state_text};
ghost use Rattle.archive_retry.specs.Merge.{IsResultText, IsTreeText};
ghost use Rattle.api_reply.specs.Bounds.{IsRunShown};
ghost use Rattle.api_reply.specs.Views.{archiving_data, archiving_state, archivings, run_view, shown_result, some_moment, some_text};

use crate::object::Object;
use crate::shown::shown_moment;
use archive_retry::state::ArchiveState;
use plugin_core::write_test::write_names;
use ps_json::kept::read_kept;
use ps_time::interval::Interval;
use ps_time::memory::Memory;
use ps_time::text::Text;
use run_states::row::{Ending, RunRow};
use run_states::state::State;
use serde_json::Value;
use std::alloc::Global;

fn archiving_state(state: &ArchiveState) -> &'static str
    ensures { result.now ≡ archiving_state state.now }
{
    if state.done {
        return "succeeded";
    }
    match state.next {
        None => "given-up",
        Some(_) => "waiting",
    }
}

fn write_archiving(alloc: Global, archiver: &str, state: &ArchiveState) -> Result<Value, Memory>
    ensures { IfOk result (λ value. view value ≡ archiving_data archiver.now state.now) }
{
    Ok(
        Object::new(alloc)
            .text("archiver", archiver)?
            .text("state", archiving_state(state))?
            .count("tried", u64::from(state.tried))?
            .into_value(),
    )
}

fn archiving_values(
    alloc: Global,
    archivers: &[Text],
    states: &[ArchiveState],
) -> Result<Vec<Value>, Memory>
    ensures { IfOk result (λ values. map view values.items ≡ archivings archivers.now states.now) }
{
    let mut values = Vec::new(alloc);
    for index in 0..archivers.len().min(states.len()) {
        values.push(write_archiving(alloc, archivers[index].as_str(), &states[index])?)?;
    }
    Ok(values)
}

/// How far each archiver has come.
fn write_archivings(
    alloc: Global,
    archivers: &[Text],
    states: &[ArchiveState],
) -> Result<Value, Memory>
    ensures { IfOk result (λ value. view value ≡ array (items_of (archivings archivers.now states.now))) }
{
    Ok(Value::Array(archiving_values(alloc, archivers, states)?))
}

fn write_start(alloc: Global, interval: &Option<Interval>) -> Result<Value, Memory>
    ensures { IfOk result (λ value. view value ≡ some_moment (option_map (λ i. i.start) interval.now)) }
{
    match interval {
        None => Ok(Value::Null),
        Some(interval) => shown_moment(alloc, interval.start),
    }
}

fn write_end(alloc: Global, interval: &Option<Interval>) -> Result<Value, Memory>
    ensures { IfOk result (λ value. view value ≡ some_moment (option_map (λ i. i.end) interval.now)) }
{
    match interval {
        None => Ok(Value::Null),
        Some(interval) => shown_moment(alloc, interval.end),
    }
}

fn write_tool(alloc: Global, tool: &Option<Text>) -> Result<Value, Memory>
    ensures { IfOk result (λ value. view value ≡ some_text tool.now) }
{
    match tool {
        None => Ok(Value::Null),
        Some(name) => Ok(Value::try_from_str(alloc, name.as_str())?),
    }
}

fn write_merged(alloc: Global, merged: &Option<Text>) -> Result<Value, Memory>
    requires { IfSome merged.now IsTreeText }
    ensures { IfOk result (λ value. view value ≡ kept_tree merged.now) }
{
    match merged {
        None => Ok(Value::Null),
        Some(text) => read_kept(alloc, text),
    }
}

fn write_own(alloc: Global, ended: &Option<Ending>) -> Result<Value, Memory>
    requires { IfSome ended.now (λ e. IsResultText e.body) }
    ensures { IfOk result (λ value. view value ≡ kept_tree (option_map (λ e. e.body) ended.now)) }
{
    match ended {
        None => Ok(Value::Null),
        Some(ending) => read_kept(alloc, &ending.body),
    }
}

/// The merged result on the lead, and elsewhere the host's own.
fn write_result(alloc: Global, number: u16, row: &RunRow) -> Result<Value, Memory>
    requires { IsRunShown row.now }
    ensures { IfOk result (λ value. view value ≡ kept_tree (shown_result number row.now)) }
{
    if row.key.lead == number {
        write_merged(alloc, &row.merged)
    } else {
        write_own(alloc, &row.ended)
    }
}

/// With when it starts and ends, and its state.
fn with_course(object: Object, alloc: Global, row: &RunRow, state: State) -> Result<Object, Memory>
    ensures { IfOk result (λ made. made ≡ with_member (codes "state") (string (state_text state))
        (with_member (codes "start-time") (some_moment (option_map (λ i. i.start) row.now.interval))
        (with_member (codes "end-time") (some_moment (option_map (λ i. i.end) row.now.interval)) object))) }
{
    let end = write_end(alloc, &row.interval)?;
    let object = object.with("end-time", end)?;
    let start = write_start(alloc, &row.interval)?;
    object
        .with("start-time", start)?
        .text("state", state.name())
}

/// With who takes part, its priority and its tool.
fn with_work(object: Object, alloc: Global, row: &RunRow) -> Result<Object, Memory>
    ensures { IfOk result (λ made. made ≡ with_member (codes "tool") (some_text row.now.tool)
        (with_member (codes "priority") (number (of_integer row.now.priority))
        (with_member (codes "participants") (names_data row.now.participants) object))) }
{
    let participants = write_names(alloc, row.participants.as_slice())?;
    let object = object.with("participants", participants)?;
    let tool = write_tool(alloc, &row.tool)?;
    object.integer("priority", row.priority)?.with("tool", tool)
}

/// A run, with the names of its archivers and its state, at the host with this number.
pub fn write_run(
    alloc: Global,
    number: u16,
    row: &RunRow,
    archivers: &[Text],
    state: State,
) -> Result<Value, Memory>
    requires { IsRunShown row.now }
    ensures { IfOk result (λ value. view value ≡ run_view number row.now archivers.now state) }
{
    let archivings = write_archivings(alloc, archivers, row.archives.as_slice())?;
    let object = Object::new(alloc).with("archivings", archivings)?;
    let object = object.with("result", write_result(alloc, number, row)?)?;
    let object = with_course(object, alloc, row, state)?;
    Ok(with_work(object, alloc, row)?.into_value())
}
