//! What stands in a line of a script: words, moments, keys, tests, tasks and limits.
ghost use Rattle.std.specs.Prelude.{◌≡◌, ◌≤◌, IfOk};
ghost use Rattle.limit_apply.specs.Read.{IsKept};
ghost use Rattle.plugin_core.specs.Bounds.{IsTest};
ghost use Rattle.ps_time.specs.declared.moment.TheConstants.{MAX_MOMENT};

use crate::fault::LineFault;
use limit_apply::kept::law_one_kept;
use limit_apply::limits::Limits;
use plugin_core::read_test::read_test;
use plugin_core::test_spec::TestSpec;
use ps_json::tree::read_tree;
use ps_time::key::RunKey;
use ps_time::moment::{MAX_MOMENT, Moment};
use ps_time::text::Text;
use serde_json::Value;
use std::alloc::Global;

// A test of ten seconds, of hosts b and a.
static TEST: &str = r#"{"spec":{"duration":"PT10S","hosts":["b","a"]},"type":"idlemany"}"#;

// A task of hosts a and b, whose result is archived.
static PAIR: &str =
    r#"{"archives":[{"archiver":"bitbucket"}],"test":{"spec":{"duration":"PT10S","hosts":["a","b"]},"type":"idlemany"}}"#;

// A task of host a alone.
static ALONE: &str = r#"{"test":{"spec":{"duration":"PT10S"},"type":"idle"}}"#;

// Nobody may have anything.
static NOBODY: &str =
    r#"{"identifiers":[{"name":"all","type":"always"}],"classifiers":[{"name":"all","identifiers":["all"]}],"limits":[{"name":"nothing","type":"pass-fail","data":{"pass":false}}],"applications":[{"classifier":"all","apply":[{"require":"all","limits":["nothing"]}]}]}"#;

/// A text is none of its kind. Why isn't looked at: the drop of a fault is one call here, whatever its variants.
pub(crate) fn line_fault<E: Drop>(fault: E) -> LineFault {
    drop(fault);
    LineFault::SaysNothing
}

/// What stands before the first space and behind it; all of a text without one stands before.
pub(crate) fn cut(text: &str) -> (&str, &str) {
    match text.split_once(' ') {
        Some(both) => both,
        None => (text, ""),
    }
}

/// The name of the step of a line.
pub fn name_of(line: &str) -> &str {
    cut(line).0
}

/// Its clock, in seconds since 1970 UTC.
pub fn clock_of(line: &str) -> Result<Moment, LineFault>
    ensures { IfOk result (λ clock. clock ≤ MAX_MOMENT) }
{
    a_moment(cut(cut(line).1).0)
}

/// What is asked then.
pub fn asked_of(line: &str) -> &str {
    cut(cut(line).1).1
}

/// A moment in seconds since 1970 UTC.
pub(crate) fn a_moment(text: &str) -> Result<Moment, LineFault>
    ensures { IfOk result (λ moment. moment ≤ MAX_MOMENT) }
{
    match text.parse::<u64>() {
        Ok(moment) if moment <= MAX_MOMENT => Ok(moment),
        _ => Err(LineFault::SaysNothing),
    }
}

/// A serial or a number.
pub(crate) fn a_number(text: &str) -> Result<u32, LineFault> {
    match text.parse::<u32>() {
        Ok(number) => Ok(number),
        Err(_) => Err(LineFault::SaysNothing),
    }
}

fn a_small_number(text: &str) -> Result<u16, LineFault> {
    match text.parse::<u16>() {
        Ok(number) => Ok(number),
        Err(_) => Err(LineFault::SaysNothing),
    }
}

// What stands before the first point and behind it.
fn cut_at_point(text: &str) -> (&str, &str) {
    match text.split_once('.') {
        Some(both) => both,
        None => (text, ""),
    }
}

/// A key as its lead, task, number and attempt with points between.
pub(crate) fn a_key(text: &str) -> Result<RunKey, LineFault> {
    let (lead, rest) = cut_at_point(text);
    let (task, rest) = cut_at_point(rest);
    let (number, attempt) = cut_at_point(rest);
    Ok(RunKey {
        lead: a_small_number(lead)?,
        task: a_number(task)?,
        number: a_number(number)?,
        attempt: a_small_number(attempt)?,
    })
}

/// A name or an address.
pub(crate) fn a_text(alloc: Global, text: &str) -> Result<Text, LineFault>
    ensures text { IfOk result (λ made. made ≡ text.now) }
{
    Ok(Text::new(alloc, text)?)
}

/// The tree of a text.
pub(crate) fn a_tree(alloc: Global, text: &str) -> Result<Value, LineFault> {
    match read_tree(alloc, text.as_bytes()) {
        Ok(value) => Ok(value),
        Err(fault) => Err(line_fault(fault)),
    }
}

/// The test of the runs of host b.
pub(crate) fn a_test(alloc: Global) -> Result<TestSpec, LineFault>
    ensures { IfOk result IsTest }
{
    match read_test(alloc, a_tree(alloc, TEST)?) {
        Ok(test) => Ok(test),
        Err(fault) => Err(line_fault(fault)),
    }
}

/// The text of the task of this name.
pub(crate) fn task_text(name: &str) -> &'static str {
    match name {
        "pair" => PAIR,
        "alone" => ALONE,
        _ => "",
    }
}

/// Limits that permit nothing, or everything.
pub(crate) fn limits_of(alloc: Global, name: &str) -> Result<Limits, LineFault>
    ensures { IfOk result IsKept }
{
    match name {
        "nobody" => no_limits(alloc),
        "everybody" => open_limits(alloc),
        _ => Err(LineFault::SaysNothing),
    }
}

fn open_limits(alloc: Global) -> Result<Limits, LineFault>
    ensures { IfOk result IsKept }
{
    let limits = Limits::open(alloc)?;
    law_one_kept(&limits);
    Ok(limits)
}

fn no_limits(alloc: Global) -> Result<Limits, LineFault>
    ensures { IfOk result IsKept }
{
    match Limits::from_text(alloc, NOBODY.as_bytes()) {
        Ok(limits) => {
            law_one_kept(&limits);
            Ok(limits)
        }
        Err(fault) => Err(line_fault(fault)),
    }
}
