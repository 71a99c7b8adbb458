//! Trees without their comments.
ghost use Rattle.std.specs.Prelude.{◌≡◌, IfOk, IfSome, IsSome, OnOk, Ok};
ghost use Rattle.serde_json.specs.View.{view, items_view, members_view};
ghost use Rattle.serde_json.specs.Written.{compact_text};
ghost use Rattle.ps_json.specs.Tree.{tree_of};
ghost use Rattle.limit_ident.specs.Plain.{IsPlain, ArePlainItems, ArePlain, IsFlat};
ghost use Rattle.limit_apply.specs.Bare.{bare, bare_items, bare_members};

use ps_json::fields::put_plain;
use ps_json::shape::{is_deeper, is_whole};
use ps_json::tree::{MAX_DEPTH, write_text};
use ps_time::memory::Memory;
use ps_time::text::Text;
use serde_json::{Map, Value};
use std::alloc::Global;

/// A copy without the members whose names begin with `#`, at every depth.
#[cycle(bare)]
pub fn copy_bare(alloc: Global, value: &Value) -> Result<Value, Memory>
    ensures bare { IfOk result (λ made. view made ≡ bare (view value.now)) }
    ensures plain { IfOk result (λ made. IsPlain (view made)) }
{
    match value {
        Value::Null => Ok(Value::Null),
        Value::Bool(flag) => Ok(Value::Bool(*flag)),
        Value::Number(number) => Ok(Value::Number(*number)),
        Value::String(text) => Ok(Value::String(text.clone()?)),
        Value::Array(items) => Ok(Value::Array(copy_items(alloc, items)?)),
        Value::Object(members) => Ok(Value::Object(copy_members(alloc, members)?)),
    }
}

#[cycle(bare)]
fn copy_items(alloc: Global, items: &Vec<Value>) -> Result<Vec<Value>, Memory>
    ensures bare { IfOk result (λ made. items_view made.items ≡ bare_items (items_view items.now.items)) }
    ensures plain { IfOk result (λ made. ArePlainItems (items_view made.items)) }
{
    let mut copies = Vec::new(alloc);
    for item in items {
        copies.push(copy_bare(alloc, item)?)?;
    }
    Ok(copies)
}

#[cycle(bare)]
fn copy_members(alloc: Global, members: &Map<String, Value>) -> Result<Map<String, Value>, Memory>
    ensures bare { IfOk result (λ made. members_view made.entries ≡ bare_members (members_view members.now.entries)) }
    ensures plain { IfOk result (λ made. ArePlain (members_view made.entries)) }
{
    let mut copies = Map::new(alloc);
    for (name, member) in members.iter() {
        let copy = copy_bare(alloc, member)?;
        put_plain(alloc, &mut copies, name.as_str(), copy)?;
    }
    Ok(copies)
}

/// The compact text of a tree whose numbers are whole and which isn't deeper than a tree may be. It is read
/// again as the tree.
pub fn plain_text(alloc: Global, value: &Value) -> Result<Option<Text>, Memory>
    ensures text { IfOk result (λ o. IfSome o (λ text. text ≡ compact_text (view value.now))) }
    ensures reads { IfOk result (λ o. IfSome o (λ text. tree_of text ≡ Ok (view value.now))) }
    ensures there { IfOk result (λ o. IsFlat 64 (view value.now) → IsSome o) }
{
    if !is_whole(value) {
        return Ok(None);
    }
    if is_deeper(value, MAX_DEPTH) {
        return Ok(None);
    }
    Ok(Some(write_text(alloc, value)?))
}
