//! The reader of scripts.
ghost use Rattle.std.specs.Prelude.{◌≡◌, IfOk, IfSome, OnOk, is_some};
ghost use Rattle.std.specs.Str.{is_utf8};
ghost use Rattle.rehearsal_script.specs.Lawful.{HasKeptLimits, IsLawful};
ghost use Rattle.rehearsal_script.specs.Read.{Reads};
ghost use Rattle.rehearsal_script.specs.Script.{line_of, with_line, script_of};
ghost use Rattle.rehearsal_script.specs.declared.script.ScriptFault.TheVariants.{Memory as out_of_memory};

use crate::fields::Fields;
use crate::kind::kind_of;
use crate::lines::{Content, Read, read_by_kind};
use crate::script::{Numbered, Reason, Script, ScriptFault, ScriptHost, ScriptLine};
use limit_apply::kept::law_one_kept;
use ps_time::items::Items;
use ps_time::memory::Memory;
use std::alloc::Global;
use std::str;

impl From<Memory> for ScriptFault {
    ghost from_gives = { λ _ fault. fault ≡ out_of_memory };

    fn from(_fault: Memory) -> ScriptFault {
        ScriptFault::Memory
    }
}

// The bytes as a text, where they are one.
fn as_text(bytes: &[u8]) -> Option<&str>
    ensures utf8 { is_some result ≡ is_utf8 bytes.now }
    ensures same { IfSome result (λ text. text.now ≡ bytes.now) }
{
    match str::from_utf8(bytes) {
        Ok(text) => Some(text),
        Err(_) => None,
    }
}

#[tactic(auto, unfolding(crate::specs::Script::line_of))]
fn read_line(alloc: Global, hosts: &[ScriptHost], bytes: &[u8]) -> Read<Content>
    ensures { IfOk result (λ r. r ≡ line_of hosts.now bytes.now) }
{
    let Some(text) = as_text(bytes) else {
        return Ok(Err(Reason::NotUtf8));
    };
    if bytes.is_empty() || bytes[0] == b'#' {
        return Ok(Ok(Content::Nothing));
    }
    let fields = Fields::cut(alloc, text, ' ')?;
    let Some(kind) = kind_of(&fields) else {
        return Ok(Err(Reason::UnknownWord));
    };
    read_by_kind(alloc, hosts, kind, &fields)
}

// A law: the limits of a line are kept ones.
fn law_kept_limits(content: &Content)
    ensures { HasKeptLimits content.now }
{
    if let Content::Event(ScriptLine::Limits { limits, .. }) = content {
        law_one_kept(limits.value());
    }
}

fn add_line(script: &mut Script, number: u64, content: Content) -> Result<(), Memory>
    ensures { OnOk result (script.new ≡ with_line script.old number content) }
{
    match content {
        Content::Nothing => {}
        Content::NewHost(host) => {
            let place = script.hosts.len();
            script.hosts.push(host)?;
            let line = ScriptLine::Host { place };
            script.lines.push(Numbered { number, line })?;
        }
        Content::Event(line) => script.lines.push(Numbered { number, line })?,
    }
    Ok(())
}

/// Reads a script: UTF-8 lines, each ended by a line feed, which the last may leave out.
/// docs/specification/scripts.md states the grammar.
pub fn read_script(alloc: Global, bytes: &[u8]) -> Result<Script, ScriptFault>
    ensures script { Reads result (script_of bytes.now) }
    ensures lawful { IfOk result IsLawful }
{
    let mut script = Script {
        hosts: Items::new(alloc),
        lines: Items::new(alloc),
    };
    let mut number: u64 = 0;
    for line in bytes.split(|b| *b == b'\n') {
        number += 1;
        match read_line(alloc, script.hosts.as_slice(), line)? {
            Ok(content) => {
                law_kept_limits(&content);
                add_line(&mut script, number, content)?;
            }
            Err(reason) => {
                return Err(ScriptFault::Refused {
                    line: number,
                    reason,
                });
            }
        }
    }
    Ok(script)
}
