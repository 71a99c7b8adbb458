//! What peers are told.
ghost use Rattle.std.specs.Prelude.{◌≡◌, IfOk};
ghost use Rattle.serde_json.specs.View.{view};
ghost use Rattle.archive_retry.specs.Merge.{IsResultText};
ghost use Rattle.api_reply.specs.Replies.{free_told, moment_told, result_told, state_told, window_data, windows_data, yes_told};

use crate::object::Object;
use crate::shown::shown_second;
use plugin_core::write_test::write_names;
use ps_json::kept::read_kept;
use ps_time::interval::Window;
use ps_time::memory::Memory;
use ps_time::moment::Moment;
use ps_time::text::Text;
use run_states::answer::FreeAnswer;
use run_states::state::State;
use serde_json::{Value, json};
use std::alloc::Global;

/// One moment.
pub fn write_moment(alloc: Global, name: &str, moment: Moment) -> Result<Value, Memory>
    ensures { IfOk result (λ value. view value ≡ moment_told name.now moment) }
{
    Ok(Object::new(alloc).second(name, moment)?.into_value())
}

/// Yes.
pub fn write_yes(alloc: Global, name: &str) -> Result<Value, Memory>
    ensures { IfOk result (λ value. view value ≡ yes_told name.now) }
{
    Ok(Object::new(alloc).flag(name, true)?.into_value())
}

/// A result, whose text is put into the body as a tree.
pub fn write_result(alloc: Global, text: &Text) -> Result<Value, Memory>
    requires { IsResultText text.now }
    ensures { IfOk result (λ value. view value ≡ result_told text.now) }
{
    let value = read_kept(alloc, text)?;
    Ok(Object::new(alloc).with("result", value)?.into_value())
}

/// The state of a run that has no result yet.
pub fn write_state(alloc: Global, state: State) -> Result<Value, Memory>
    ensures { IfOk result (λ value. view value ≡ state_told state) }
{
    Ok(Object::new(alloc).text("state", state.name())?.into_value())
}

fn write_window(alloc: Global, window: &Window) -> Result<Value, Memory>
    ensures { IfOk result (λ value. view value ≡ window_data window.now) }
{
    let first = shown_second(window.first);
    let last = shown_second(window.last);
    Ok(json!(in alloc; [first, last])?)
}

fn write_windows(alloc: Global, windows: &[Window]) -> Result<Value, Memory>
    ensures { IfOk result (λ value. view value ≡ windows_data windows.now) }
{
    let mut values = Vec::new(alloc);
    for window in windows {
        values.push(write_window(alloc, window)?)?;
    }
    Ok(Value::Array(values))
}

/// When a run could start, and the tools for it.
pub fn write_free(alloc: Global, answer: &FreeAnswer) -> Result<Value, Memory>
    ensures { IfOk result (λ value. view value ≡ free_told answer.now) }
{
    let object = Object::new(alloc);
    let object = object.with(
        "first-tier",
        write_windows(alloc, answer.tiers.first.as_slice())?,
    )?;
    let object = object.with(
        "second-tier",
        write_windows(alloc, answer.tiers.second.as_slice())?,
    )?;
    let object = object.with("tools", write_names(alloc, answer.tools.as_slice())?)?;
    Ok(object.into_value())
}
