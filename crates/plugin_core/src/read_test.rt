//! The reader of tests.
ghost use Rattle.std.specs.Prelude.{◌≡◌, ◌≤◌, ◌+◌, [], true, length, map, None, IfOk, OnOk, codes};
ghost use Rattle.std.specs.List.{list_all};
ghost use Rattle.std.specs.Str.{IsUtf8};
ghost use Rattle.serde_json.specs.View.{view};
ghost use Rattle.ps_json.specs.Each.{read_each};
ghost use Rattle.ps_json.specs.Answer.{GivesUnless, then_with};
ghost use Rattle.ps_json.specs.Fields.{without_member};
ghost use Rattle.ps_time.specs.Name.{is_name};
ghost use Rattle.ps_time.specs.declared.moment.TheConstants.{MAX_LENGTH};
ghost use Rattle.plugin_core.specs.Bounds.{IsTest, IsSleep, IsPaced, AreHosts, IsComment};
ghost use Rattle.plugin_core.specs.Fault.{wrapped};
ghost use Rattle.plugin_core.specs.TestSpec.{test_length};
ghost use Rattle.plugin_core.specs.declared.test_spec.TestSpec.{TestSpec};
ghost use Rattle.ps_json.specs.Member.{required, optional};
ghost use Rattle.plugin_core.specs.ReadTest.{schema, length_in, duration_in, text_within, comment_in, host_in, all_differ, hosts_in, sleep_in, after_sleep, ended, idle_of, idleex_of, paced, idlebgm_of, idlemany_of, whole, simplestream_of, spec_of, kind_in, test_of};

use crate::fault::SpecFault;
use crate::kind::{TestKind, read_kind};
use crate::participants::is_named;
use crate::test_spec::{Sleep, TestSpec};
use ps_json::fault::JsonFault;
use ps_json::fields::Fields;
use ps_json::kinds::{read_count, read_list, read_text};
use ps_time::items::Items;
use ps_time::moment::{Length, MAX_LENGTH};
use ps_time::name::is_host_name;
use ps_time::read_length::read_length;
use ps_time::text::Text;
use serde_json::Value;
use std::alloc::Global;

fn take_schema(alloc: Global, fields: &mut Fields) -> Result<u64, SpecFault>
    ensures value { GivesUnless SpecFault.Memory result (optional 1 schema (codes "schema") fields.old) }
    ensures rest { fields.new ≡ without_member (codes "schema") fields.old }
{
    match fields.take("schema") {
        None => Ok(1),
        Some(value) => Ok(read_count(alloc, value, "schema", 1, 1)?),
    }
}

/// A length.
fn read_length_in(alloc: Global, value: Value, name: &str) -> Result<Length, SpecFault>
    ensures value { GivesUnless SpecFault.Memory result (length_in name.now (view value)) }
    ensures bound { IfOk result (λ len. len ≤ MAX_LENGTH) }
{
    let text = read_text(alloc, value, name)?;
    match read_length(text.as_str()) {
        Ok(length) => Ok(length),
        Err(fault) => Err(SpecFault::BadTime(Text::new(alloc, name)?, fault)),
    }
}

/// A length of at least 1 s.
fn read_duration(alloc: Global, value: Value, name: &str) -> Result<Length, SpecFault>
    ensures value { GivesUnless SpecFault.Memory result (duration_in name.now (view value)) }
    ensures bound { IfOk result (λ len. (1 ≤ len) × (len ≤ MAX_LENGTH)) }
{
    let length = read_length_in(alloc, value, name)?;
    if length == 0 {
        return Err(SpecFault::bad_spec(alloc, name));
    }
    Ok(length)
}

/// A text of at most `most` bytes.
fn read_text_within(alloc: Global, value: Value, name: &str, most: usize) -> Result<Text, SpecFault>
    ensures value { GivesUnless SpecFault.Memory result (text_within most name.now (view value)) }
    ensures bound { IfOk result (λ text. length text ≤ most) }
    ensures utf8 { IfOk result IsUtf8 }
{
    let text = Text::from_string(read_text(alloc, value, name)?);
    if text.len() > most {
        return Err(JsonFault::wrong_kind(alloc, name).into());
    }
    Ok(text)
}

/// The name of a host.
fn read_host(alloc: Global, value: Value, name: &str) -> Result<Text, SpecFault>
    ensures value { GivesUnless SpecFault.Memory result (host_in name.now (view value)) }
    ensures bound { IfOk result (λ host. is_name host ≡ true) }
{
    let host = Text::from_string(read_text(alloc, value, name)?);
    if !is_host_name(host.as_str()) {
        return Err(JsonFault::wrong_kind(alloc, name).into());
    }
    Ok(host)
}

/// A comment, if there is one.
fn take_comment(alloc: Global, fields: &mut Fields, name: &str) -> Result<Option<Text>, SpecFault>
    ensures value { GivesUnless SpecFault.Memory result (optional None comment_in name.now fields.old) }
    ensures bound { IfOk result IsComment }
    ensures rest { fields.new ≡ without_member name.now fields.old }
{
    match fields.take(name) {
        None => Ok(None),
        Some(value) => Ok(Some(read_text_within(alloc, value, name, 1_024)?)),
    }
}

fn take_sleep(alloc: Global, fields: &mut Fields) -> Result<Sleep, SpecFault>
    ensures value { GivesUnless SpecFault.Memory result (sleep_in fields.old) }
    ensures bound { IfOk result IsSleep }
    ensures rest { OnOk result (fields.new ≡ after_sleep fields.old) }
{
    take_schema(alloc, fields)?;
    let duration = read_duration(alloc, fields.need(alloc, "duration")?, "duration")?;
    let starting_comment = take_comment(alloc, fields, "starting-comment")?;
    let parting_comment = take_comment(alloc, fields, "parting-comment")?;
    Ok(Sleep {
        duration,
        starting_comment,
        parting_comment,
    })
}

/// The test, if nothing but comments is left beside it.
fn end_with(alloc: Global, fields: Fields, test: TestSpec) -> Result<TestSpec, SpecFault>
    ensures value { GivesUnless SpecFault.Memory result (ended fields test) }
    ensures same { IfOk result (λ made. made ≡ test) }
{
    fields.end(alloc)?;
    Ok(test)
}

fn read_idle(alloc: Global, mut fields: Fields) -> Result<TestSpec, SpecFault>
    ensures value { GivesUnless SpecFault.Memory result (idle_of fields) }
    ensures bounds { IfOk result IsTest }
{
    let sleep = take_sleep(alloc, &mut fields)?;
    end_with(alloc, fields, TestSpec::Idle(sleep))
}

fn read_idleex(alloc: Global, mut fields: Fields) -> Result<TestSpec, SpecFault>
    ensures value { GivesUnless SpecFault.Memory result (idleex_of fields) }
    ensures bounds { IfOk result IsTest }
{
    let sleep = take_sleep(alloc, &mut fields)?;
    end_with(alloc, fields, TestSpec::Idleex(sleep))
}

/// The interval, which is at most the duration and goes into it at most 64 times.
fn read_interval(alloc: Global, fields: &mut Fields, duration: Length) -> Result<Length, SpecFault>
    ensures value { GivesUnless SpecFault.Memory result
        (then_with (required wrapped duration_in (codes "interval") fields.old) (paced duration)) }
    ensures bound { IfOk result (IsPaced duration) }
    ensures rest { OnOk result (fields.new ≡ without_member (codes "interval") fields.old) }
{
    let interval = read_duration(alloc, fields.need(alloc, "interval")?, "interval")?;
    if interval > duration {
        return Err(SpecFault::bad_spec(alloc, "interval"));
    }
    if duration / interval > 64 {
        return Err(SpecFault::bad_spec(alloc, "duration"));
    }
    Ok(interval)
}

fn read_idlebgm(alloc: Global, mut fields: Fields) -> Result<TestSpec, SpecFault>
    ensures value { GivesUnless SpecFault.Memory result (idlebgm_of fields) }
    ensures bounds { IfOk result IsTest }
{
    let sleep = take_sleep(alloc, &mut fields)?;
    let interval = read_interval(alloc, &mut fields, sleep.duration)?;
    end_with(alloc, fields, TestSpec::Idlebgm { sleep, interval })
}

fn read_names(alloc: Global, values: Vec<Value>, name: &str) -> Result<Items<Text>, SpecFault>
    ensures value { GivesUnless SpecFault.Memory result (read_each (host_in name.now) (map view values.items)) }
    ensures names { IfOk result (λ hosts. list_all is_name hosts ≡ true) }
{
    let mut names = Items::new(alloc);
    for value in values {
        names.push(read_host(alloc, value, name)?)?;
    }
    Ok(names)
}

/// Whether no name stands there twice.
pub fn all_differ(names: &[Text]) -> bool
    ensures { result ≡ all_differ names.now }
{
    for index in 0..names.len() {
        if is_named(&names[index + 1..], names[index].as_str()) {
            return false;
        }
    }
    true
}

fn read_hosts(alloc: Global, value: Value) -> Result<Items<Text>, SpecFault>
    ensures value { GivesUnless SpecFault.Memory result (hosts_in (codes "hosts") (view value)) }
    ensures bounds { IfOk result AreHosts }
{
    let values = read_list(alloc, value, "hosts")?;
    let names = read_names(alloc, values, "hosts")?;
    if names.len() < 2 || names.len() > 8 || !all_differ(names.as_slice()) {
        return Err(SpecFault::bad_spec(alloc, "hosts"));
    }
    Ok(names)
}

fn read_idlemany(alloc: Global, mut fields: Fields) -> Result<TestSpec, SpecFault>
    ensures value { GivesUnless SpecFault.Memory result (idlemany_of fields) }
    ensures bounds { IfOk result IsTest }
{
    let sleep = take_sleep(alloc, &mut fields)?;
    let hosts = read_hosts(alloc, fields.need(alloc, "hosts")?)?;
    end_with(alloc, fields, TestSpec::Idlemany { sleep, hosts })
}

fn take_material(alloc: Global, fields: &mut Fields) -> Result<Text, SpecFault>
    ensures value { GivesUnless SpecFault.Memory result
        (optional [] (text_within 8_192) (codes "test-material") fields.old) }
    ensures bound { IfOk result (λ text. length text ≤ 8_192) }
    ensures utf8 { IfOk result IsUtf8 }
    ensures rest { fields.new ≡ without_member (codes "test-material") fields.old }
{
    match fields.take("test-material") {
        None => Ok(Text::new(alloc, "")?),
        Some(value) => read_text_within(alloc, value, "test-material", 8_192),
    }
}

fn take_dawdle(alloc: Global, fields: &mut Fields) -> Result<Length, SpecFault>
    ensures value { GivesUnless SpecFault.Memory result (optional 0 length_in (codes "dawdle") fields.old) }
    ensures bound { IfOk result (λ len. len ≤ MAX_LENGTH) }
    ensures rest { fields.new ≡ without_member (codes "dawdle") fields.old }
{
    match fields.take("dawdle") {
        None => Ok(0),
        Some(value) => read_length_in(alloc, value, "dawdle"),
    }
}

/// The timeout, 5 s where it is left out; it ends with the length of the whole.
fn take_timeout(alloc: Global, fields: &mut Fields, dawdle: Length) -> Result<Length, SpecFault>
    requires { dawdle ≤ MAX_LENGTH }
    ensures value { GivesUnless SpecFault.Memory result
        (then_with (optional 5 duration_in (codes "timeout") fields.old) (whole dawdle)) }
    ensures bound { IfOk result (λ len. (1 ≤ len) × (dawdle + len ≤ MAX_LENGTH)) }
    ensures rest { fields.new ≡ without_member (codes "timeout") fields.old }
{
    let timeout = match fields.take("timeout") {
        None => 5,
        Some(value) => read_duration(alloc, value, "timeout")?,
    };
    if dawdle + timeout > MAX_LENGTH {
        return Err(SpecFault::bad_spec(alloc, "timeout"));
    }
    Ok(timeout)
}

fn read_simplestream(alloc: Global, mut fields: Fields) -> Result<TestSpec, SpecFault>
    ensures value { GivesUnless SpecFault.Memory result (simplestream_of fields) }
    ensures bounds { IfOk result IsTest }
{
    take_schema(alloc, &mut fields)?;
    let dest = read_host(alloc, fields.need(alloc, "dest")?, "dest")?;
    let test_material = take_material(alloc, &mut fields)?;
    let dawdle = take_dawdle(alloc, &mut fields)?;
    let timeout = take_timeout(alloc, &mut fields, dawdle)?;
    end_with(
        alloc,
        fields,
        TestSpec::Simplestream {
            dest,
            test_material,
            dawdle,
            timeout,
        },
    )
}

fn read_spec(alloc: Global, kind: TestKind, fields: Fields) -> Result<TestSpec, SpecFault>
    ensures value { GivesUnless SpecFault.Memory result (spec_of kind fields) }
    ensures bounds { IfOk result IsTest }
{
    match kind {
        TestKind::Idle => read_idle(alloc, fields),
        TestKind::Idleex => read_idleex(alloc, fields),
        TestKind::Idlebgm => read_idlebgm(alloc, fields),
        TestKind::Idlemany => read_idlemany(alloc, fields),
        TestKind::Simplestream => read_simplestream(alloc, fields),
    }
}

fn read_kind_in(alloc: Global, value: Value) -> Result<TestKind, SpecFault>
    ensures { GivesUnless SpecFault.Memory result (kind_in (codes "type") (view value)) }
{
    let text = Text::from_string(read_text(alloc, value, "type")?);
    match read_kind(text.as_str()) {
        Some(kind) => Ok(kind),
        None => Err(SpecFault::UnknownTest(text)),
    }
}

/// The test that a tree is: an object with `type` and `spec`. Refusals come in the order in which the
/// tables of `docs/specification/tests-and-tools.md` name the members.
pub fn read_test(alloc: Global, value: Value) -> Result<TestSpec, SpecFault>
    ensures value { GivesUnless SpecFault.Memory result (test_of (view value)) }
    ensures bounds { IfOk result IsTest }
{
    let mut fields = Fields::open(alloc, value, "test")?;
    let kind = read_kind_in(alloc, fields.need(alloc, "type")?)?;
    let spec = Fields::open(alloc, fields.need(alloc, "spec")?, "spec")?;
    let test = read_spec(alloc, kind, spec)?;
    end_with(alloc, fields, test)
}

/// A law: the length of every test that keeps its bounds is a length, and at least 1 s.
pub fn law_test_length()
    ensures lasts { (test : TestSpec) → IsTest test → 1 ≤ test_length test }
    ensures within { (test : TestSpec) → IsTest test → test_length test ≤ MAX_LENGTH }
{}
