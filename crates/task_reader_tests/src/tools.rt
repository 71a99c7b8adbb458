//! Participants, choices of tools, results and outcomes.
ghost use Rattle.std.specs.Prelude.{◌≡◌};
ghost use Rattle.plugin_core.specs.Bounds.{IsTest};

use crate::reader::{cut, found};
use crate::specs::{expanded, test_in};
use crate::told::tell_fault;
use plugin_core::kind::{TestKind, class_of_kind, kind_name};
use plugin_core::participants::{is_participant, participants_of};
use plugin_core::test_spec::{TestSpec, class_of, length_of};
use plugin_tool::choice::{choose_tool, tools_for};
use plugin_tool::result::result_text;
use plugin_tool::run::{Outcome, Role, ToolView, done, role_of};
use plugin_tool::tool::{Tool, tool_name};
use ps_time::class::class_name;
use ps_time::items::Items;
use ps_time::memory::Memory;
use ps_time::same::Same;
use ps_time::text::Text;
use std::alloc::Global;
use std::{io, print, println};
use task_spec::fault::TaskFault;

// The names that stand in a text, with blanks between them.
fn names(alloc: Global, text: &str) -> Result<Items<Text>, Memory> {
    let mut names = Items::new(alloc);
    for name in text.split(' ') {
        if !name.is_empty() {
            names.push(Text::new(alloc, name)?)?;
        }
    }
    Ok(names)
}

fn chosen(alloc: Global, lists: &str, wanted: &str) -> Result<Option<Tool>, Memory> {
    let mut offered = Vec::new(alloc);
    for list in lists.split('|') {
        offered.push(names(alloc, list)?)?;
    }
    let wanted = names(alloc, wanted)?;
    Ok(choose_tool(offered.as_slice(), wanted.as_slice()))
}

/// The lists of the participants, `|` between them, and behind ` & ` the wanted tools.
pub(crate) fn tell_choice(rt: &HostRuntime, text: &str) -> io::Result<()> {
    let (lists, wanted) = text.split_once(" & ").unwrap_or((text, ""));
    match chosen(rt.alloc(), lists, wanted) {
        Ok(Some(tool)) => println!(rt; "{tool}"),
        Ok(None) => println!(rt; "none"),
        Err(Memory) => println!(rt; "out of memory"),
    }
}

fn tell_names(rt: &HostRuntime, names: &[Text]) -> io::Result<()> {
    for name in names {
        print!(rt; " {name}")?;
    }
    print!(rt; ";")
}

fn tools_of(alloc: Global, test: &TestSpec) -> Result<Items<Text>, Memory> {
    let installed = names(alloc, "snooze sleepbgm simplestreamer ping sleep")?;
    tools_for(alloc, test, installed.as_slice())
}

fn tell_list(rt: &HostRuntime, names: Result<Items<Text>, Memory>) -> io::Result<()> {
    match names {
        Ok(names) => tell_names(rt, names.as_slice()),
        Err(Memory) => print!(rt; "out of memory"),
    }
}

fn tell_parts_of(rt: &HostRuntime, test: &TestSpec, lead: &str) -> io::Result<()> {
    tell_list(rt, tools_of(rt.alloc(), test))?;
    tell_list(rt, participants_of(rt.alloc(), test, lead))?;
    let first = role_of(test, lead, "a");
    let second = role_of(test, lead, "b");
    let third = is_participant(test, lead, "c");
    println!(rt; "{first:?} {second:?} {third}")
}

/// The lead and a test: the tools for the test, the participants, the parts of `a` and `b`, and whether `c` takes part.
pub(crate) fn tell_parts(rt: &HostRuntime, text: &str) -> io::Result<()> {
    let (lead, text) = cut(text);
    match test_in(rt.alloc(), text) {
        Ok(test) => tell_parts_of(rt, &test, lead),
        Err(fault) => tell_fault(rt, fault),
    }
}

static ROLES: [(&str, Role); 3] = [
    ("only", Role::Only),
    ("source", Role::Source),
    ("dest", Role::Dest),
];

static OUTCOMES: [(&str, Outcome); 4] = [
    ("good", Outcome::Good),
    ("timed-out", Outcome::TimedOut),
    ("not-taken", Outcome::NotTaken),
    ("restarted", Outcome::Restarted),
];

fn outcome_word(outcomes: &[(&'static str, Outcome)], wanted: Outcome) -> &'static str {
    for (name, outcome) in outcomes {
        if *outcome == wanted {
            return *name;
        }
    }
    "none"
}

// What a tool knows of a run from 1,007 to 1,020.
fn tool(role: Role, material: bool) -> ToolView
    ensures { result.started ≡ 1007 }
{
    ToolView {
        started: 1_007,
        end: 1_020,
        role,
        material,
    }
}

#[tactic(auto, using(plugin_tool::proofs::ResultLemmas::ticks_fit))]
fn result_of(alloc: Global, test: &TestSpec, role: Role, outcome: Outcome) -> Result<Text, Memory>
    requires { IsTest test.now }
{
    result_text(alloc, test, &tool(role, false), outcome)
}

/// The part in a test, an outcome and a test: the result.
pub(crate) fn tool_result(alloc: Global, text: &str) -> Result<Text, TaskFault> {
    let (part, rest) = cut(text);
    let (word, text) = cut(rest);
    let role = found(&ROLES, part, Role::Only);
    let outcome = found(&OUTCOMES, word, Outcome::Good);
    let test = test_in(alloc, text)?;
    Ok(result_of(alloc, &test, role, outcome)?)
}

#[tactic(auto, using(plugin_core::proofs::BoundLemmas::length_within))]
fn outcome_of(test: &TestSpec, role: Role, material: bool, moment: u64) -> Option<Outcome>
    requires { IsTest test.now }
{
    done(test, &tool(role, material), moment)
}

/// The part in a test, with `+` where the material is there, a moment and a test: the outcome by then.
pub(crate) fn outcome(alloc: Global, text: &str) -> Result<&'static str, TaskFault> {
    let (part, rest) = cut(text);
    let (moment, text) = cut(rest);
    let role = found(&ROLES, part.trim_end_matches('+'), Role::Only);
    let moment = moment.parse().unwrap_or(0);
    let test = test_in(alloc, text)?;
    match outcome_of(&test, role, part.ends_with('+'), moment) {
        Some(outcome) => Ok(outcome_word(&OUTCOMES, outcome)),
        None => Ok("none"),
    }
}

fn source_bytes(alloc: Global, text: &str) -> Result<usize, TaskFault> {
    let test = test_in(alloc, text)?;
    let result = result_of(alloc, &test, Role::Source, Outcome::Good)?;
    Ok(result.len())
}

/// A test in which words are repeated: how many bytes the good result of its source has.
pub(crate) fn result_bytes(alloc: Global, text: &str) -> Result<usize, TaskFault> {
    let text = expanded(alloc, text)?;
    source_bytes(alloc, text.as_str())
}

pub(crate) static TOOLS: [Tool; 4] = [
    Tool::Sleep,
    Tool::Snooze,
    Tool::Sleepbgm,
    Tool::Simplestreamer,
];

/// The names of tools, and how they are shown.
pub(crate) fn tell_names_of(rt: &HostRuntime, tools: &[Tool]) -> io::Result<()> {
    for tool in tools {
        print!(rt; "{} {tool} ", tool_name(*tool))?;
    }
    println!(rt; "end")
}

/// The names of kinds of tests, and their classes.
pub(crate) fn tell_kinds(rt: &HostRuntime, kinds: &[TestKind]) -> io::Result<()> {
    for kind in kinds {
        let class = class_name(class_of_kind(*kind));
        print!(rt; "{} {class} ", kind_name(*kind))?;
    }
    println!(rt; "end")
}

#[tactic(auto, using(plugin_core::proofs::BoundLemmas::length_within))]
fn tell_measure_of(rt: &HostRuntime, test: &TestSpec) -> io::Result<()>
    requires { IsTest test.now }
{
    let length = length_of(test);
    println!(rt; "{} {length}", class_name(class_of(test)))
}

/// The class of a test, and its length in seconds.
pub(crate) fn tell_measure(rt: &HostRuntime, text: &str) -> io::Result<()> {
    match test_in(rt.alloc(), text) {
        Ok(test) => tell_measure_of(rt, &test),
        Err(fault) => tell_fault(rt, fault),
    }
}

fn tell_whether_same(rt: &HostRuntime, first: &TestSpec, second: &TestSpec) -> io::Result<()> {
    match first.copy(rt.alloc()) {
        Ok(copy) => println!(rt; "{} {}", copy.same(first), copy.same(second)),
        Err(Memory) => println!(rt; "out of memory"),
    }
}

fn tell_same_as(rt: &HostRuntime, first: &TestSpec, text: &str) -> io::Result<()> {
    match test_in(rt.alloc(), text) {
        Ok(second) => tell_whether_same(rt, first, &second),
        Err(fault) => tell_fault(rt, fault),
    }
}

/// Two tests, ` & ` between them: whether the copy of the first is the same as the first, and as the second.
pub(crate) fn tell_same(rt: &HostRuntime, text: &str) -> io::Result<()> {
    let (first, second) = text.split_once(" & ").unwrap_or((text, ""));
    match test_in(rt.alloc(), first) {
        Ok(test) => tell_same_as(rt, &test, second),
        Err(fault) => tell_fault(rt, fault),
    }
}
