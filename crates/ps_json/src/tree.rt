//! Trees of JSON texts (RFC 8259): read and written.
ghost use Rattle.std.specs.Prelude.{◌≡◌, ◌≤◌, IfOk, IfSome, Ok, is_some};
ghost use Rattle.std.specs.Str.{is_utf8};
ghost use Rattle.serde_json.specs.Data.{depth};
ghost use Rattle.serde_json.specs.View.{view};
ghost use Rattle.serde_json.specs.Written.{compact_text};
ghost use Rattle.ps_json.specs.Answer.{GivesUnless, seen_as};
ghost use Rattle.ps_json.specs.Tree.{IsWhole, parsed, tree_of};

use crate::fault::JsonFault;
use crate::shape::is_deeper;
use ps_time::memory::Memory;
use ps_time::text::Text;
use serde_json::Value;
use serde_json::error::Category;
use std::alloc::Global;

/// The most levels that a tree nests, where it comes from outside.
pub const MAX_DEPTH: usize = 64;

/// The tree of a JSON text of at most 64 levels. Of a repeated member the last value counts.
pub fn read_tree(alloc: Global, bytes: &[u8]) -> Result<Value, JsonFault>
    ensures { GivesUnless JsonFault.Memory (seen_as view result) (tree_of bytes.now) }
{
    let Some(text) = as_text(bytes) else {
        return Err(JsonFault::NotUtf8);
    };
    match Value::from_str(alloc, text) {
        Ok(value) => {
            if is_deeper(&value, MAX_DEPTH) {
                return Err(JsonFault::TooDeep);
            }
            Ok(value)
        }
        Err(fault) => {
            if fault.classify() == Category::Memory {
                return Err(JsonFault::Memory);
            }
            Err(JsonFault::Syntax)
        }
    }
}

fn as_text(bytes: &[u8]) -> Option<&str>
    ensures utf8 { is_some result ≡ is_utf8 bytes.now }
    ensures text { IfSome result (λ text. text.now ≡ bytes.now) }
{
    match std::str::from_utf8(bytes) {
        Ok(text) => Some(text),
        Err(_) => None,
    }
}

/// The compact text of a tree: no blanks, members in the order of the bytes of their names.
/// It is read again as the same tree.
pub fn write_tree(alloc: Global, value: &Value) -> Result<Vec<u8>, Memory>
    requires { IsWhole (view value.now) }
    ensures text { IfOk result (λ bytes. bytes.items ≡ compact_text (view value.now)) }
    ensures parses { IfOk result (λ bytes. depth (view value.now) ≤ 127
        → parsed bytes.items ≡ Ok (view value.now)) }
    ensures reads { IfOk result (λ bytes. depth (view value.now) ≤ 64
        → tree_of bytes.items ≡ Ok (view value.now)) }
{
    Ok(value.to_vec(alloc)?)
}

/// The compact text of a tree, as `write_tree` gives it.
pub fn write_text(alloc: Global, value: &Value) -> Result<Text, Memory>
    requires whole { IsWhole (view value.now) }
    requires flat { depth (view value.now) ≤ 127 }
    ensures text { IfOk result (λ text. text ≡ compact_text (view value.now)) }
    ensures reads { IfOk result (λ text. depth (view value.now) ≤ 64 → tree_of text ≡ Ok (view value.now)) }
{
    match String::from_utf8(write_tree(alloc, value)?) {
        Ok(text) => Ok(Text::from_string(text)),
        Err(_) => unreachable!(),
    }
}
