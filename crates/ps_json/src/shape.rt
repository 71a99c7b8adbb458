//! How deep a tree is, and whether its numbers are whole.
ghost use Rattle.std.specs.Prelude.{◌<◌, ◌↔◌, IsTrue, ◌≡◌, false};
ghost use Rattle.serde_json.specs.Data.{depth, items_depth, members_depth};
ghost use Rattle.serde_json.specs.View.{view, items_view, members_view};
ghost use Rattle.serde_json.specs.Written.{items_have_float, members_have_float};
ghost use Rattle.ps_json.specs.Tree.{IsWhole};

use serde_json::{Map, Value};

/// Whether lists and objects nest deeper than `most` levels: `[]` is one level, a number none.
#[cycle(deep)]
pub fn is_deeper(value: &Value, most: usize) -> bool
    ensures { IsTrue result ↔ (most < depth (view value.now)) }
{
    match value {
        Value::Array(items) => most == 0 || has_deeper_item(items, most - 1),
        Value::Object(members) => most == 0 || has_deeper_member(members, most - 1),
        _ => false,
    }
}

#[cycle(deep)]
fn has_deeper_item(items: &Vec<Value>, most: usize) -> bool
    ensures { IsTrue result ↔ (most < items_depth (items_view items.now.items)) }
{
    for item in items {
        if is_deeper(item, most) {
            return true;
        }
    }
    false
}

#[cycle(deep)]
fn has_deeper_member(members: &Map<String, Value>, most: usize) -> bool
    ensures { IsTrue result ↔ (most < members_depth (members_view members.now.entries)) }
{
    for (_, member) in members.iter() {
        if is_deeper(member, most) {
            return true;
        }
    }
    false
}

/// Whether every number of the tree is whole: an integer from -2^63 to 2^64 - 1, written
/// without a fraction, an exponent or a sign before 0.
#[cycle(whole)]
pub fn is_whole(value: &Value) -> bool
    ensures { IsTrue result ↔ IsWhole (view value.now) }
{
    match value {
        Value::Number(number) => !number.is_f64(),
        Value::Array(items) => are_whole_items(items),
        Value::Object(members) => are_whole_members(members),
        _ => true,
    }
}

#[cycle(whole)]
fn are_whole_items(items: &Vec<Value>) -> bool
    ensures { IsTrue result ↔ (items_have_float (items_view items.now.items) ≡ false) }
{
    for item in items {
        if !is_whole(item) {
            return false;
        }
    }
    true
}

#[cycle(whole)]
fn are_whole_members(members: &Map<String, Value>) -> bool
    ensures { IsTrue result ↔ (members_have_float (members_view members.now.entries) ≡ false) }
{
    for (_, member) in members.iter() {
        if !is_whole(member) {
            return false;
        }
    }
    true
}
