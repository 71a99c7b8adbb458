//! The writer of tests.
ghost use Rattle.std.specs.Prelude.{◌≡◌, ◌≤◌, ◌<◌, Ok, length, IfOk, OnOk};
ghost use Rattle.serde_json.specs.Data.{string, put as with_member, depth};
ghost use Rattle.serde_json.specs.View.{view, members_view};
ghost use Rattle.serde_json.specs.Written.{compact_text};
ghost use Rattle.ps_json.specs.Tree.{IsWhole};
ghost use Rattle.ps_time.specs.declared.moment.TheConstants.{MAX_LENGTH};
ghost use Rattle.plugin_core.specs.Bounds.{IsTest};
ghost use Rattle.plugin_core.specs.ReadTest.{test_of};
ghost use Rattle.plugin_core.specs.WriteTest.{length_data, names_data, with_comment, sleep_members, spec_members, test_data, most_test_bytes};
ghost use Rattle.plugin_core.specs.declared.test_spec.TestSpec.{TestSpec};

use crate::kind::{kind_name, kind_of};
use crate::test_spec::{Sleep, TestSpec};
use ps_time::items::Items;
use ps_time::length_text::{law_length_text, length_text};
use ps_time::memory::Memory;
use ps_time::moment::Length;
use ps_time::text::Text;
use serde_json::{Map, Value, json, put};
use std::alloc::Global;

fn put_text(
    members: &mut Map<String, Value>,
    alloc: Global,
    name: &str,
    text: &Text,
) -> Result<(), Memory>
    ensures { OnOk result (members_view members.new.entries
        ≡ with_member name.now (string text.now) (members_view members.old.entries)) }
{
    let text = text.copy(alloc)?;
    put(members, alloc, name, Value::String(text.into_string()))?;
    Ok(())
}

/// Puts a length into an object, as it is written.
pub fn put_length(
    members: &mut Map<String, Value>,
    alloc: Global,
    name: &str,
    length: Length,
) -> Result<(), Memory>
    requires { length ≤ MAX_LENGTH }
    ensures { OnOk result (members_view members.new.entries
        ≡ with_member name.now (length_data length) (members_view members.old.entries)) }
{
    let text = length_text(alloc, length)?;
    put(members, alloc, name, Value::String(text.into_string()))?;
    Ok(())
}

fn put_comment(
    members: &mut Map<String, Value>,
    alloc: Global,
    name: &str,
    comment: &Option<Text>,
) -> Result<(), Memory>
    ensures { OnOk result (members_view members.new.entries
        ≡ with_comment name.now comment.now (members_view members.old.entries)) }
{
    match comment {
        None => Ok(()),
        Some(text) => put_text(members, alloc, name, text),
    }
}

/// A list of names as a tree.
pub fn write_names(alloc: Global, names: &[Text]) -> Result<Value, Memory>
    ensures { IfOk result (λ value. view value ≡ names_data names.now) }
{
    let mut values = Vec::new(alloc);
    for name in names {
        values.push(Value::String(name.copy(alloc)?.into_string()))?;
    }
    Ok(Value::Array(values))
}

fn sleep_members(alloc: Global, sleep: &Sleep) -> Result<Map<String, Value>, Memory>
    requires { sleep.now.duration ≤ MAX_LENGTH }
    ensures { IfOk result (λ members. members_view members.entries ≡ sleep_members sleep.now) }
{
    let mut members = Map::new(alloc);
    put_length(&mut members, alloc, "duration", sleep.duration)?;
    put_comment(
        &mut members,
        alloc,
        "parting-comment",
        &sleep.parting_comment,
    )?;
    put_comment(
        &mut members,
        alloc,
        "starting-comment",
        &sleep.starting_comment,
    )?;
    Ok(members)
}

fn stream_members(
    alloc: Global,
    dest: &Text,
    material: &Text,
    dawdle: Length,
    timeout: Length,
) -> Result<Map<String, Value>, Memory>
    requires { (dawdle ≤ MAX_LENGTH) × (timeout ≤ MAX_LENGTH) }
    ensures { IfOk result (λ members. members_view members.entries
        ≡ spec_members (TestSpec.Simplestream dest.now material.now dawdle timeout)) }
{
    let mut members = Map::new(alloc);
    put_length(&mut members, alloc, "dawdle", dawdle)?;
    put_text(&mut members, alloc, "dest", dest)?;
    put_text(&mut members, alloc, "test-material", material)?;
    put_length(&mut members, alloc, "timeout", timeout)?;
    Ok(members)
}

fn paced_members(
    alloc: Global,
    sleep: &Sleep,
    interval: Length,
) -> Result<Map<String, Value>, Memory>
    requires { (sleep.now.duration ≤ MAX_LENGTH) × (interval ≤ MAX_LENGTH) }
    ensures { IfOk result (λ members. members_view members.entries
        ≡ spec_members (TestSpec.Idlebgm sleep.now interval)) }
{
    let mut members = sleep_members(alloc, sleep)?;
    put_length(&mut members, alloc, "interval", interval)?;
    Ok(members)
}

fn many_members(
    alloc: Global,
    sleep: &Sleep,
    hosts: &Items<Text>,
) -> Result<Map<String, Value>, Memory>
    requires { sleep.now.duration ≤ MAX_LENGTH }
    ensures { IfOk result (λ members. members_view members.entries
        ≡ spec_members (TestSpec.Idlemany sleep.now hosts.now)) }
{
    let mut members = sleep_members(alloc, sleep)?;
    let hosts = write_names(alloc, hosts.as_slice())?;
    put(&mut members, alloc, "hosts", hosts)?;
    Ok(members)
}

fn spec_members(alloc: Global, test: &TestSpec) -> Result<Map<String, Value>, Memory>
    requires { IsTest test.now }
    ensures { IfOk result (λ members. members_view members.entries ≡ spec_members test.now) }
{
    match test {
        TestSpec::Idle(sleep) => sleep_members(alloc, sleep),
        TestSpec::Idleex(sleep) => sleep_members(alloc, sleep),
        TestSpec::Idlebgm { sleep, interval } => paced_members(alloc, sleep, *interval),
        TestSpec::Idlemany { sleep, hosts } => many_members(alloc, sleep, hosts),
        TestSpec::Simplestream {
            dest,
            test_material,
            dawdle,
            timeout,
        } => stream_members(alloc, dest, test_material, *dawdle, *timeout),
    }
}

fn test_tree(alloc: Global, test: &TestSpec) -> Result<Value, Memory>
    requires { IsTest test.now }
    ensures { IfOk result (λ value. view value ≡ test_data test.now) }
{
    let spec = Value::Object(spec_members(alloc, test)?);
    Ok(json!(in alloc; {"spec": spec, "type": kind_name(kind_of(test))})?)
}

/// The tree of a test: an object with `spec` and `type`. Parameters that have a default are written too,
/// comments where there are some.
pub fn write_test(alloc: Global, test: &TestSpec) -> Result<Value, Memory>
    requires { IsTest test.now }
    ensures tree { IfOk result (λ value. view value ≡ test_data test.now) }
    ensures whole { IfOk result (λ value. IsWhole (view value)) }
    ensures flat { IfOk result (λ value. depth (view value) ≤ 3) }
{
    let value = test_tree(alloc, test)?;
    Ok(value)
}

/// A law: the compact text of the tree of every test has at most 65,536 bytes.
pub fn law_test_text()
    ensures { (test : TestSpec) → IsTest test → length (compact_text (test_data test)) ≤ most_test_bytes }
{}

/// A law: the tree of every test is read again as that test.
pub fn law_test()
    ensures { (test : TestSpec) → IsTest test → test_of (test_data test) ≡ Ok test }
{
    law_length_text();
}
