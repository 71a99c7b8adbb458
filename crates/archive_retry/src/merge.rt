//! The results of a run's participants, made one.
ghost use Rattle.std.specs.Prelude.{◌≡◌, ◌≤◌, ◌↔◌, ℕ, List, Option, IsTrue, Ok, length, map, All, IfOk};
ghost use Rattle.serde_json.specs.Data.{depth};
ghost use Rattle.serde_json.specs.View.{view};
ghost use Rattle.serde_json.specs.Written.{compact_text};
ghost use Rattle.ps_json.specs.Tree.{IsWhole, tree_of};
ghost use Rattle.ps_json.specs.TreeText.{kept_tree};
ghost use Rattle.archive_retry.specs.Merge.{IsTreeText, IsMergeable, IsResultText, IsResult, is_good, participant, participants, all_good, merged};

use ps_json::kept::is_tree_text;
pub use ps_json::kept::read_kept;
use ps_json::tree::write_text;
use ps_time::memory::Memory;
use ps_time::text::Text;
use serde_json::{Value, json};
use std::alloc::Global;

/// The most levels that the result of a participant nests.
pub const MAX_RESULT_DEPTH: usize = 60;

/// Whether a text may be the result of a participant: `read_tree` reads it, it nests at most 60 levels, and
/// its numbers are whole.
pub fn is_result(alloc: Global, text: &str) -> Result<bool, Memory>
    ensures { IfOk result (λ is. IsTrue is ↔ IsResultText text.now) }
{
    is_tree_text(alloc, text, MAX_RESULT_DEPTH)
}

/// The tree of a result, null where there is none.
fn read_result(alloc: Global, heard: &Option<Text>) -> Result<Value, Memory>
    requires { IsMergeable heard.now }
    ensures { IfOk result (λ value. view value ≡ kept_tree heard.now) }
{
    match heard {
        None => Ok(Value::Null),
        Some(text) => read_kept(alloc, text),
    }
}

/// Whether the result says that it succeeded.
fn is_good(value: &Value) -> bool
    ensures { result ≡ is_good (view value.now) }
{
    matches!(value.get("succeeded"), Some(Value::Bool(true)))
}

fn write_participant(alloc: Global, host: &Text, value: Value) -> Result<Value, Memory>
    ensures { IfOk result (λ made. view made ≡ participant host.now (view value)) }
{
    Ok(json!(in alloc; {"host": host.as_str(), "result": value})?)
}

/// The participants with their results, and whether all of these succeeded.
fn write_participants(
    alloc: Global,
    hosts: &[Text],
    results: &[Option<Text>],
) -> Result<(Vec<Value>, bool), Memory>
    requires alike { length hosts.now ≡ length results.now }
    requires results { All IsMergeable results.now }
    ensures values { IfOk result (λ made. map view made.0.items ≡ participants hosts.now results.now) }
    ensures good { IfOk result (λ made. made.1 ≡ all_good results.now) }
{
    let mut values = Vec::new(alloc);
    let mut all_good = true;
    for index in 0..hosts.len() {
        let value = read_result(alloc, &results[index])?;
        all_good = all_good && is_good(&value);
        values.push(write_participant(alloc, &hosts[index], value)?)?;
    }
    Ok((values, all_good))
}

fn merged_tree(alloc: Global, hosts: &[Text], results: &[Option<Text>]) -> Result<Value, Memory>
    requires alike { length hosts.now ≡ length results.now }
    requires results { All IsMergeable results.now }
    ensures { IfOk result (λ value. view value ≡ merged hosts.now results.now) }
{
    let (values, all_good) = write_participants(alloc, hosts, results)?;
    let participants = Value::Array(values);
    Ok(json!(in alloc; {"participants": participants, "schema": 1u64, "succeeded": all_good})?)
}

/// The merged result of a run, from those of its participants in their order, where `None` is one that
/// wasn't heard: compact JSON. It is read again, and may be kept, where each result nests at most 60 levels.
pub fn merge(alloc: Global, hosts: &[Text], results: &[Option<Text>]) -> Result<Text, Memory>
    requires alike { length hosts.now ≡ length results.now }
    requires results { All IsMergeable results.now }
    ensures text { IfOk result (λ text. text ≡ compact_text (merged hosts.now results.now)) }
    ensures reads { IfOk result (λ text. All (λ r. depth (kept_tree r) ≤ 60) results.now
        → tree_of text ≡ Ok (merged hosts.now results.now)) }
    ensures kept { All IsResult results.now → IfOk result IsTreeText }
    ensures whole { IfOk result (λ _. IsWhole (merged hosts.now results.now)) }
{
    let value = merged_tree(alloc, hosts, results)?;
    let text = write_text(alloc, &value)?;
    Ok(text)
}

/// A law: results of participants may be merged.
pub fn law_results()
    ensures { (results : List (Option (List ℕ))) → All IsResult results → All IsMergeable results }
{}
