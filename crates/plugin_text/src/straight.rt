//! The text of a test, piece by piece.
ghost use Rattle.std.specs.Prelude.{◌≡◌, [], IfOk, OnOk};
ghost use Rattle.std.specs.Str.{IsUtf8};
ghost use Rattle.std.specs.String.{string_bytes};
ghost use Rattle.plugin_core.specs.declared.test_spec.TestSpec.{TestSpec};
ghost use Rattle.plugin_text.specs.Straight.{with_duration, with_hosts, with_kind, with_length, with_names, with_note, with_notes, with_sleep, with_test, with_text};

use plugin_core::test_spec::{Sleep, TestSpec};
use ps_time::items::Items;
use ps_time::length_text::push_length_text;
use ps_time::memory::Memory;
use ps_time::moment::Length;
use ps_time::text::Text;
use std::alloc::Global;

/// At most so many bytes stand beside comments, material and names.
const MOST_AROUND: usize = 192;

fn push_text(out: &mut String, head: &str, text: &str) -> Result<(), Memory>
    ensures { OnOk result (string_bytes out.new ≡ with_text (string_bytes out.old) head.now text.now) }
{
    out.push_str(head)?;
    out.push_str(text)?;
    out.push_str("\"")?;
    Ok(())
}

fn push_note(out: &mut String, head: &str, note: &Option<Text>) -> Result<(), Memory>
    ensures { OnOk result (string_bytes out.new ≡ with_note (string_bytes out.old) head.now note.now) }
{
    match note {
        None => Ok(()),
        Some(text) => push_text(out, head, text.as_str()),
    }
}

fn push_length(out: &mut String, head: &str, length: Length) -> Result<(), Memory>
    ensures { OnOk result (string_bytes out.new ≡ with_length (string_bytes out.old) head.now length) }
{
    out.push_str(head)?;
    push_length_text(out, length)?;
    out.push_str("\"")?;
    Ok(())
}

fn push_names(out: &mut String, names: &[Text]) -> Result<(), Memory>
    ensures { OnOk result (string_bytes out.new ≡ with_names (string_bytes out.old) names.now) }
{
    for name in names {
        push_text(out, ",\"", name.as_str())?;
    }
    out.push_str("]")?;
    Ok(())
}

fn push_hosts(out: &mut String, hosts: &[Text]) -> Result<(), Memory>
    ensures { OnOk result (string_bytes out.new ≡ with_hosts (string_bytes out.old) hosts.now) }
{
    match hosts {
        [] => Ok(()),
        [host, rest @ ..] => {
            push_text(out, ",\"hosts\":[\"", host.as_str())?;
            push_names(out, rest)
        }
    }
}

fn push_duration(out: &mut String, sleep: &Sleep) -> Result<(), Memory>
    ensures { OnOk result (string_bytes out.new ≡ with_duration (string_bytes out.old) sleep.now) }
{
    push_length(out, "{\"spec\":{\"duration\":\"", sleep.duration)
}

fn push_notes(out: &mut String, sleep: &Sleep) -> Result<(), Memory>
    ensures { OnOk result (string_bytes out.new ≡ with_notes (string_bytes out.old) sleep.now) }
{
    push_note(out, ",\"parting-comment\":\"", &sleep.parting_comment)?;
    push_note(out, ",\"starting-comment\":\"", &sleep.starting_comment)
}

fn push_kind(out: &mut String, kind: &str) -> Result<(), Memory>
    ensures { OnOk result (string_bytes out.new ≡ with_kind (string_bytes out.old) kind.now) }
{
    push_text(out, "},\"type\":\"", kind)?;
    out.push_str("}")?;
    Ok(())
}

fn push_paced(out: &mut String, sleep: &Sleep, interval: Length) -> Result<(), Memory>
    ensures { OnOk result (string_bytes out.new
        ≡ with_test (string_bytes out.old) (TestSpec.Idlebgm sleep.now interval)) }
{
    push_duration(out, sleep)?;
    push_length(out, ",\"interval\":\"", interval)?;
    push_notes(out, sleep)?;
    push_kind(out, "idlebgm")
}

fn push_many(out: &mut String, sleep: &Sleep, hosts: &Items<Text>) -> Result<(), Memory>
    ensures { OnOk result (string_bytes out.new
        ≡ with_test (string_bytes out.old) (TestSpec.Idlemany sleep.now hosts.now)) }
{
    push_duration(out, sleep)?;
    push_hosts(out, hosts.as_slice())?;
    push_notes(out, sleep)?;
    push_kind(out, "idlemany")
}

fn push_sleep(out: &mut String, sleep: &Sleep, kind: &str) -> Result<(), Memory>
    ensures { OnOk result (string_bytes out.new ≡ with_sleep (string_bytes out.old) sleep.now kind.now) }
{
    push_duration(out, sleep)?;
    push_notes(out, sleep)?;
    push_kind(out, kind)
}

fn push_stream(
    out: &mut String,
    dest: &Text,
    material: &Text,
    dawdle: Length,
    timeout: Length,
) -> Result<(), Memory>
    ensures { OnOk result (string_bytes out.new
        ≡ with_test (string_bytes out.old) (TestSpec.Simplestream dest.now material.now dawdle timeout)) }
{
    push_length(out, "{\"spec\":{\"dawdle\":\"", dawdle)?;
    push_text(out, ",\"dest\":\"", dest.as_str())?;
    push_text(out, ",\"test-material\":\"", material.as_str())?;
    push_length(out, ",\"timeout\":\"", timeout)?;
    push_kind(out, "simplestream")
}

fn push_test(out: &mut String, test: &TestSpec) -> Result<(), Memory>
    ensures { OnOk result (string_bytes out.new ≡ with_test (string_bytes out.old) test.now) }
{
    match test {
        TestSpec::Idle(sleep) => push_sleep(out, sleep, "idle"),
        TestSpec::Idleex(sleep) => push_sleep(out, sleep, "idleex"),
        TestSpec::Idlebgm { sleep, interval } => push_paced(out, sleep, *interval),
        TestSpec::Idlemany { sleep, hosts } => push_many(out, sleep, hosts),
        TestSpec::Simplestream {
            dest,
            test_material,
            dawdle,
            timeout,
        } => push_stream(out, dest, test_material, *dawdle, *timeout),
    }
}

/// About how many bytes the test takes, and mostly no less.
fn room(test: &TestSpec) -> usize {
    match test {
        TestSpec::Simplestream { test_material, .. } => {
            test_material.len().saturating_add(MOST_AROUND)
        }
        _ => MOST_AROUND,
    }
}

/// The text of a test, each byte of its texts as it is.
pub fn straight_text(alloc: Global, test: &TestSpec) -> Result<Text, Memory>
    ensures text { IfOk result (λ text. text ≡ with_test [] test.now) }
    ensures utf8 { IfOk result IsUtf8 }
{
    let mut out = String::with_capacity(alloc, room(test))?;
    push_test(&mut out, test)?;
    let text = Text::from_string(out);
    let _known = text.as_str();
    Ok(text)
}
