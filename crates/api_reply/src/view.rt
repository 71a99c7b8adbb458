//! The bodies of views.
ghost use Rattle.std.specs.Prelude.{◌≡◌, ◌++◌, IfOk, codes, map};
ghost use Rattle.serde_json.specs.Data.{array, string};
ghost use Rattle.serde_json.specs.View.{items_of, view};
ghost use Rattle.plugin_core.specs.Kind.{kind_text, kinds_by_name};
ghost use Rattle.plugin_core.specs.WriteTest.{names_data};
ghost use Rattle.api_reply.specs.Bounds.{IsViewShown};
ghost use Rattle.api_reply.specs.Views.{clock_data, line_data, run_link, task_link, test_data, tools_of, view_data};

use crate::object::Object;
use crate::run_view::write_run;
use crate::shown::{run_text, run_url, task_url, write_words};
use crate::task_view::write_task;
use host_model::config::Config;
use host_model::view::{Line, View};
use plugin_core::kind::{kind_name, kinds};
use plugin_core::participants::is_named;
use plugin_tool::choice::tools;
use plugin_tool::tool::tool_name;
use ps_time::class::{Class, class_name};
use ps_time::key::RunKey;
use ps_time::memory::Memory;
use ps_time::moment::Moment;
use ps_time::text::Text;
use serde_json::Value;
use std::alloc::Global;
use task_spec::archive::archivers;

fn write_home(alloc: Global, name: &Text) -> Result<Value, Memory>
    ensures { IfOk result (λ value. view value ≡ string (codes "pScheduler on " ++ name.now)) }
{
    Ok(Value::String(format!(in alloc; "pScheduler on {name}")?))
}

fn write_clock(alloc: Global, moment: Moment) -> Result<Value, Memory>
    ensures { IfOk result (λ value. view value ≡ clock_data moment) }
{
    Ok(
        Object::new(alloc)
            .flag("synchronized", false)?
            .moment("time", moment)?
            .into_value(),
    )
}

fn write_tests(alloc: Global) -> Result<Value, Memory>
    ensures { IfOk result (λ value. view value ≡ names_data (map kind_text kinds_by_name)) }
{
    let mut names = Vec::new(alloc);
    for kind in kinds() {
        names.push(kind_name(*kind))?;
    }
    write_words(alloc, names.as_slice())
}

/// The names of these tools that the host has, ascending.
fn write_tools(alloc: Global, installed: &[Text]) -> Result<Value, Memory>
    ensures { IfOk result (λ value. view value ≡ names_data (tools_of installed.now)) }
{
    let mut names = Vec::new(alloc);
    for tool in tools() {
        let name = tool_name(*tool);
        if is_named(installed, name) {
            names.push(name)?;
        }
    }
    write_words(alloc, names.as_slice())
}

fn write_test(alloc: Global, name: &str, class: Class) -> Result<Value, Memory>
    ensures { IfOk result (λ value. view value ≡ test_data name.now class) }
{
    Ok(
        Object::new(alloc)
            .text("class", class_name(class))?
            .text("name", name)?
            .into_value(),
    )
}

/// The address of the host's task of this serial.
pub fn write_task_link(alloc: Global, config: &Config, serial: u32) -> Result<Value, Memory>
    ensures { IfOk result (λ value. view value ≡ task_link config.now serial) }
{
    let url = task_url(alloc, config.authority.as_str(), config.number, serial)?;
    Ok(Value::String(url))
}

fn write_tasks(alloc: Global, config: &Config, serials: &[u32]) -> Result<Value, Memory>
    ensures { IfOk result (λ value. view value ≡ array (items_of (map (task_link config.now) serials.now))) }
{
    let mut values = Vec::new(alloc);
    for serial in serials {
        values.push(write_task_link(alloc, config, *serial)?)?;
    }
    Ok(Value::Array(values))
}

fn write_run_link(alloc: Global, config: &Config, key: &RunKey) -> Result<Value, Memory>
    ensures { IfOk result (λ value. view value ≡ run_link config.now key.now) }
{
    let url = run_url(alloc, config.authority.as_str(), *key)?;
    Ok(Value::String(url))
}

fn write_runs(alloc: Global, config: &Config, keys: &[RunKey]) -> Result<Value, Memory>
    ensures { IfOk result (λ value. view value ≡ array (items_of (map (run_link config.now) keys.now))) }
{
    let mut values = Vec::new(alloc);
    for key in keys {
        values.push(write_run_link(alloc, config, key)?)?;
    }
    Ok(Value::Array(values))
}

fn write_line(alloc: Global, line: &Line) -> Result<Value, Memory>
    ensures { IfOk result (λ value. view value ≡ line_data line.now) }
{
    let run = run_text(alloc, line.key)?;
    Ok(
        Object::new(alloc)
            .text("class", class_name(line.class))?
            .moment("end-time", line.interval.end)?
            .integer("priority", line.priority)?
            .text("run", run.as_str())?
            .moment("start-time", line.interval.start)?
            .text("state", line.state.name())?
            .into_value(),
    )
}

fn write_lines(alloc: Global, lines: &[Line]) -> Result<Value, Memory>
    ensures { IfOk result (λ value. view value ≡ array (items_of (map line_data lines.now))) }
{
    let mut values = Vec::new(alloc);
    for line in lines {
        values.push(write_line(alloc, line)?)?;
    }
    Ok(Value::Array(values))
}

/// What is shown, at the host of this configuration.
pub fn write_view(alloc: Global, config: &Config, shown: &View) -> Result<Value, Memory>
    requires { IsViewShown shown.now }
    ensures { IfOk result (λ value. view value ≡ view_data config.now shown.now) }
{
    match shown {
        View::Home => write_home(alloc, &config.name),
        View::Clock(moment) => write_clock(alloc, *moment),
        View::Tests => write_tests(alloc),
        View::Tools => write_tools(alloc, config.installed.as_slice()),
        View::Archivers => write_words(alloc, archivers()),
        View::Test { name, class } => write_test(alloc, name.as_str(), *class),
        View::Tasks(serials) => write_tasks(alloc, config, serials.as_slice()),
        View::Task(row) => write_task(alloc, row),
        View::Runs(keys) => write_runs(alloc, config, keys.as_slice()),
        View::Run {
            row,
            archivers,
            state,
        } => write_run(alloc, config.number, row, archivers.as_slice(), *state),
        View::Schedule(lines) => write_lines(alloc, lines.as_slice()),
    }
}
