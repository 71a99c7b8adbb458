//! Moments, names, addresses and errors as they are shown.
ghost use Rattle.std.specs.Prelude.{◌≡◌, IfOk, map, string_bytes};
ghost use Rattle.serde_json.specs.View.{view};
ghost use Rattle.plugin_core.specs.WriteTest.{names_data};
ghost use Rattle.api_reply.specs.Shown.{error, error_with, moment_data, run_text, run_url, second_data, task_text, task_url};

use crate::object::Object;
use ps_time::id::{Id, id_text};
use ps_time::key::RunKey;
use ps_time::memory::Memory;
use ps_time::moment::{MAX_MOMENT, Moment};
use ps_time::moment_text::moment_text;
use ps_time::text::Text;
use serde_json::Value;
use std::alloc::Global;

/// A moment as a text; one above the last is shown as the last.
#[tactic(auto, unfolding(crate::specs::Shown::moment_data))]
pub fn shown_moment(alloc: Global, moment: Moment) -> Result<Value, Memory>
    ensures { IfOk result (λ value. view value ≡ moment_data moment) }
{
    let text = moment_text(alloc, moment.min(MAX_MOMENT))?;
    Ok(Value::String(text.into_string()))
}

/// A moment as a number; one above the last is shown as the last.
#[tactic(auto, unfolding(crate::specs::Shown::second_data))]
pub fn shown_second(moment: Moment) -> Value
    ensures { view result ≡ second_data moment }
{
    Value::from(moment.min(MAX_MOMENT))
}

/// The identifier of a run.
#[tactic(auto, unfolding(crate::specs::Shown::run_text))]
pub fn run_text(alloc: Global, key: RunKey) -> Result<Text, Memory>
    ensures { IfOk result (λ text. text ≡ run_text key) }
{
    id_text(alloc, Id::Run(key))
}

#[tactic(auto, unfolding(crate::specs::Shown::task_text))]
fn task_text(alloc: Global, lead: u16, task: u32) -> Result<Text, Memory>
    ensures { IfOk result (λ text. text ≡ task_text lead task) }
{
    id_text(alloc, Id::Task { lead, task })
}

/// The address of a task at the host of this authority.
pub fn task_url(alloc: Global, authority: &str, lead: u16, task: u32) -> Result<String, Memory>
    ensures { IfOk result (λ url. string_bytes url ≡ task_url authority.now lead task) }
{
    let id = task_text(alloc, lead, task)?;
    Ok(format!(in alloc; "http://{authority}/pscheduler/tasks/{id}")?)
}

/// The address of a run at the host of this authority, below that of its task.
pub fn run_url(alloc: Global, authority: &str, key: RunKey) -> Result<String, Memory>
    ensures { IfOk result (λ url. string_bytes url ≡ run_url authority.now key) }
{
    let task = task_url(alloc, authority, key.lead, key.task)?;
    let id = run_text(alloc, key)?;
    Ok(format!(in alloc; "{task}/runs/{id}")?)
}

/// A list of names.
pub fn write_words(alloc: Global, words: &[&str]) -> Result<Value, Memory>
    ensures { IfOk result (λ value. view value ≡ names_data (map (λ word. word.now) words.now)) }
{
    let mut values = Vec::new(alloc);
    for word in words {
        values.push(Value::try_from_str(alloc, word)?)?;
    }
    Ok(Value::Array(values))
}

/// An error.
pub fn write_error(alloc: Global, text: &str) -> Result<Value, Memory>
    ensures { IfOk result (λ value. view value ≡ error text.now) }
{
    Ok(Object::new(alloc).text("error", text)?.into_value())
}

/// An error, and what it is about.
pub fn write_error_with(alloc: Global, text: &str, name: &str, about: &str) -> Result<Value, Memory>
    ensures { IfOk result (λ value. view value ≡ error_with text.now name.now about.now) }
{
    let object = Object::new(alloc).text("error", text)?;
    Ok(object.text(name, about)?.into_value())
}
