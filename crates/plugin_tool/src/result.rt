//! The results of runs.
ghost use Rattle.std.specs.Prelude.{◌≡◌, ◌≤◌, ◌+◌, ◌*◌, ◌/◌, Ok, codes, length, true, IfOk};
ghost use Rattle.serde_json.specs.Data.{array, depth, member, object, string};
ghost use Rattle.serde_json.specs.View.{view, items_of};
ghost use Rattle.serde_json.specs.Written.{compact_text};
ghost use Rattle.ps_json.specs.Tree.{IsWhole, tree_of};
ghost use Rattle.ps_time.specs.Numbers.{most_result_bytes};
ghost use Rattle.ps_time.specs.declared.moment.TheConstants.{MAX_LENGTH, MAX_MOMENT};
ghost use Rattle.plugin_core.specs.Bounds.{IsTest};
ghost use Rattle.plugin_tool.specs.ResultText.{ending, failed, slept, tick, ticks, ticked, streamed, good_result, result_data, TicksFit};

use crate::run::{Outcome, Role, ToolView};
use plugin_core::test_spec::TestSpec;
use ps_json::tree::write_text;
use ps_time::length_text::length_text;
use ps_time::memory::Memory;
use ps_time::moment::{Length, Moment};
use ps_time::moment_text::moment_text;
use ps_time::text::Text;
use serde_json::{Value, json};
use std::alloc::Global;

fn write_failed(alloc: Global, error: &str) -> Result<Value, Memory>
    ensures { IfOk result (λ value. view value ≡ failed error.now) }
{
    Ok(json!(in alloc; {"error": error, "schema": 1u64, "succeeded": false})?)
}

fn write_slept(alloc: Global, duration: Length) -> Result<Value, Memory>
    requires { duration ≤ MAX_LENGTH }
    ensures { IfOk result (λ value. view value ≡ slept duration) }
{
    let text = length_text(alloc, duration)?;
    Ok(json!(in alloc; {"duration": text.as_str(), "schema": 1u64, "succeeded": true})?)
}

fn write_tick(alloc: Global, at: Moment) -> Result<Value, Memory>
    requires { at ≤ MAX_MOMENT }
    ensures { IfOk result (λ value. view value ≡ tick at) }
{
    let text = moment_text(alloc, at)?;
    Ok(json!(in alloc; {"at": text.as_str()})?)
}

/// One tick for each of `count` intervals.
#[tactic(auto, using(crate::proofs::ResultLemmas::tick_within))]
fn write_ticks(
    alloc: Global,
    started: Moment,
    interval: Length,
    count: u64,
) -> Result<Value, Memory>
    requires fits { started + count * interval ≤ MAX_MOMENT }
    requires many { count ≤ MAX_LENGTH }
    ensures { IfOk result (λ value. view value ≡ array (items_of (ticks started interval count))) }
{
    let mut values = Vec::new(alloc);
    for passed in 0..count {
        values.push(write_tick(alloc, started + (passed + 1) * interval)?)?;
    }
    Ok(Value::Array(values))
}

fn write_listed(alloc: Global, duration: &str, ticks: Value) -> Result<Value, Memory>
    ensures { IfOk result (λ value. view value
        ≡ object (member (codes "duration") (string duration.now) (member (codes "results") (view ticks) (ending true)))) }
{
    Ok(
        json!(in alloc; {"duration": duration, "results": ticks, "schema": 1u64, "succeeded": true})?,
    )
}

fn write_ticked(
    alloc: Global,
    started: Moment,
    duration: Length,
    interval: Length,
) -> Result<Value, Memory>
    requires lasts { 1 ≤ interval }
    requires short { duration ≤ MAX_LENGTH }
    requires fits { started + duration ≤ MAX_MOMENT }
    ensures { IfOk result (λ value. view value ≡ ticked started duration interval) }
{
    let text = length_text(alloc, duration)?;
    let ticks = write_ticks(alloc, started, interval, duration / interval)?;
    write_listed(alloc, text.as_str(), ticks)
}

fn write_received(alloc: Global, material: &str) -> Result<Value, Memory>
    ensures { IfOk result (λ value. view value ≡ streamed material.now Role.Dest) }
{
    Ok(json!(in alloc; {"received": material, "schema": 1u64, "succeeded": true})?)
}

fn write_sent(alloc: Global, material: &str) -> Result<Value, Memory>
    ensures { IfOk result (λ value. view value ≡ streamed material.now Role.Source) }
{
    Ok(json!(in alloc; {"schema": 1u64, "sent": material, "succeeded": true})?)
}

fn write_streamed(alloc: Global, material: &Text, role: Role) -> Result<Value, Memory>
    ensures { IfOk result (λ value. view value ≡ streamed material.now role) }
{
    match role {
        Role::Dest => write_received(alloc, material.as_str()),
        _ => write_sent(alloc, material.as_str()),
    }
}

fn write_good(alloc: Global, test: &TestSpec, tool: &ToolView) -> Result<Value, Memory>
    requires test { IsTest test.now }
    requires fits { TicksFit test.now tool.now Outcome.Good }
    ensures { IfOk result (λ value. view value ≡ good_result test.now tool.now) }
{
    match test {
        TestSpec::Idle(sleep) => write_slept(alloc, sleep.duration),
        TestSpec::Idleex(sleep) => write_slept(alloc, sleep.duration),
        TestSpec::Idlebgm { sleep, interval } => {
            write_ticked(alloc, tool.started, sleep.duration, *interval)
        }
        TestSpec::Idlemany { sleep, .. } => write_slept(alloc, sleep.duration),
        TestSpec::Simplestream { test_material, .. } => {
            write_streamed(alloc, test_material, tool.role)
        }
    }
}

fn write_result(
    alloc: Global,
    test: &TestSpec,
    tool: &ToolView,
    outcome: Outcome,
) -> Result<Value, Memory>
    requires test { IsTest test.now }
    requires fits { TicksFit test.now tool.now outcome }
    ensures { IfOk result (λ value. view value ≡ result_data test.now tool.now outcome) }
{
    match outcome {
        Outcome::Good => write_good(alloc, test, tool),
        Outcome::TimedOut => write_failed(alloc, "timed out"),
        Outcome::NotTaken => write_failed(alloc, "not taken"),
        Outcome::Restarted => write_failed(alloc, "host restarted"),
    }
}

/// The result of a run: compact JSON, which is read again as its tree.
pub fn result_text(
    alloc: Global,
    test: &TestSpec,
    tool: &ToolView,
    outcome: Outcome,
) -> Result<Text, Memory>
    requires test { IsTest test.now }
    requires fits { TicksFit test.now tool.now outcome }
    ensures text { IfOk result (λ text. text ≡ compact_text (result_data test.now tool.now outcome)) }
    ensures reads { IfOk result (λ text. tree_of text ≡ Ok (result_data test.now tool.now outcome)) }
    ensures whole { IsWhole (result_data test.now tool.now outcome) }
    ensures flat { depth (result_data test.now tool.now outcome) ≤ 3 }
    ensures short { IfOk result (λ text. length text ≤ most_result_bytes) }
{
    let value = write_result(alloc, test, tool, outcome)?;
    write_text(alloc, &value)
}
