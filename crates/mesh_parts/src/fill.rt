//! Trees without comments, in which templates give way to the hosts of a pair.
ghost use Rattle.std.specs.Prelude.{◌≡◌, IfOk, OnOk, option_copied, string_bytes};
ghost use Rattle.serde_json.specs.View.{view, items_view, members_view};
ghost use Rattle.mesh_parts.specs.Fill.{stands_for, filled, filled_items, filled_members, mentions, items_mention, members_mention};

use crate::group::Pair;
use ps_json::fields::put_plain;
use ps_time::memory::Memory;
use serde_json::{Map, Value};
use std::alloc::Global;

/// The text that stands for the first host of a pair.
pub const FIRST_HOST: &str = "{% address[0] %}";

/// The text that stands for the second host of a pair.
pub const SECOND_HOST: &str = "{% address[1] %}";

/// What a text of a test stands for: a host of the pair where it is exactly a template, else itself. Without
/// a pair, and of a pair without a second host, templates stay.
fn stands_for(alloc: Global, text: &str, pair: Option<&Pair>) -> Result<String, Memory>
    ensures { IfOk result (λ made. string_bytes made ≡ stands_for (option_copied pair.entry) text.now) }
{
    let Some(pair) = pair else {
        return Ok(String::from_str(alloc, text)?);
    };
    if text == FIRST_HOST {
        return Ok(pair.first.copy(alloc)?.into_string());
    }
    match &pair.second {
        Some(second) if text == SECOND_HOST => Ok(second.copy(alloc)?.into_string()),
        _ => Ok(String::from_str(alloc, text)?),
    }
}

/// A copy without comments, at every depth, in which each text that is exactly a template gives way to the
/// host of the pair. Names of members stay.
#[cycle(fill)]
pub fn fill(alloc: Global, value: &Value, pair: Option<&Pair>) -> Result<Value, Memory>
    ensures { IfOk result (λ made. view made ≡ filled (option_copied pair.entry) (view value.now)) }
{
    match value {
        Value::Null => Ok(Value::Null),
        Value::Bool(flag) => Ok(Value::Bool(*flag)),
        Value::Number(number) => Ok(Value::Number(*number)),
        Value::String(text) => Ok(Value::String(stands_for(alloc, text.as_str(), pair)?)),
        Value::Array(items) => Ok(Value::Array(fill_items(alloc, items, pair)?)),
        Value::Object(members) => Ok(Value::Object(fill_members(alloc, members, pair)?)),
    }
}

#[cycle(fill)]
fn fill_items(alloc: Global, items: &Vec<Value>, pair: Option<&Pair>) -> Result<Vec<Value>, Memory>
    ensures { IfOk result (λ made. items_view made.items ≡ filled_items (option_copied pair.entry) (items_view items.now.items)) }
{
    let mut copies = Vec::new(alloc);
    for item in items {
        copies.push(fill(alloc, item, pair)?)?;
    }
    Ok(copies)
}

#[cycle(fill)]
fn fill_members(
    alloc: Global,
    members: &Map<String, Value>,
    pair: Option<&Pair>,
) -> Result<Map<String, Value>, Memory>
    ensures { IfOk result (λ made. members_view made.entries ≡ filled_members (option_copied pair.entry) (members_view members.now.entries)) }
{
    let mut copies = Map::new(alloc);
    for (name, member) in members.iter() {
        let copy = fill(alloc, member, pair)?;
        put_plain(alloc, &mut copies, name.as_str(), copy)?;
    }
    Ok(copies)
}

/// Whether some text of a tree is exactly this one. Names of members don't count.
#[cycle(mention)]
pub fn mentions(value: &Value, text: &str) -> bool
    ensures { result ≡ mentions text.now (view value.now) }
{
    match value {
        Value::String(other) => other.as_str() == text,
        Value::Array(items) => some_mentions(items, text),
        Value::Object(members) => some_member_mentions(members, text),
        _ => false,
    }
}

#[cycle(mention)]
fn some_mentions(items: &Vec<Value>, text: &str) -> bool
    ensures { result ≡ items_mention text.now (items_view items.now.items) }
{
    for item in items {
        if mentions(item, text) {
            return true;
        }
    }
    false
}

#[cycle(mention)]
fn some_member_mentions(members: &Map<String, Value>, text: &str) -> bool
    ensures { result ≡ members_mention text.now (members_view members.now.entries) }
{
    for (_, member) in members.iter() {
        if mentions(member, text) {
            return true;
        }
    }
    false
}
