//! The value of a member, by its kind.
ghost use Rattle.std.specs.Prelude.{◌≤◌, ◌≤ℤ◌, IfOk, map, string_bytes};
ghost use Rattle.serde_json.specs.View.{view};
ghost use Rattle.ps_json.specs.Answer.{GivesUnless, seen_as};
ghost use Rattle.ps_json.specs.Kinds.{count_of, integer_of, text_of, boolean_of, list_of};

use crate::fault::JsonFault;
use serde_json::Value;
use std::alloc::Global;

/// A whole number from `least` to `most`.
pub fn read_count(
    alloc: Global,
    value: Value,
    name: &str,
    least: u64,
    most: u64,
) -> Result<u64, JsonFault>
    ensures count { GivesUnless JsonFault.Memory result (count_of name.now least most (view value)) }
    ensures within { IfOk result (λ n. (least ≤ n) × (n ≤ most)) }
{
    match value.as_u64() {
        Some(count) if least <= count && count <= most => Ok(count),
        _ => Err(JsonFault::wrong_kind(alloc, name)),
    }
}

/// A whole number from `least` to `most`, with a sign.
pub fn read_integer(
    alloc: Global,
    value: Value,
    name: &str,
    least: i64,
    most: i64,
) -> Result<i64, JsonFault>
    ensures integer { GivesUnless JsonFault.Memory result (integer_of name.now least most (view value)) }
    ensures within { IfOk result (λ z. (least ≤ℤ z) × (z ≤ℤ most)) }
{
    match value.as_i64() {
        Some(integer) if least <= integer && integer <= most => Ok(integer),
        _ => Err(JsonFault::wrong_kind(alloc, name)),
    }
}

/// A text.
pub fn read_text(alloc: Global, value: Value, name: &str) -> Result<String, JsonFault>
    ensures { GivesUnless JsonFault.Memory (seen_as string_bytes result) (text_of name.now (view value)) }
{
    match value {
        Value::String(text) => Ok(text),
        _ => Err(JsonFault::wrong_kind(alloc, name)),
    }
}

/// `true` or `false`.
pub fn read_boolean(alloc: Global, value: Value, name: &str) -> Result<bool, JsonFault>
    ensures { GivesUnless JsonFault.Memory result (boolean_of name.now (view value)) }
{
    match value {
        Value::Bool(boolean) => Ok(boolean),
        _ => Err(JsonFault::wrong_kind(alloc, name)),
    }
}

/// The items of a list.
pub fn read_list(alloc: Global, value: Value, name: &str) -> Result<Vec<Value>, JsonFault>
    ensures { GivesUnless JsonFault.Memory (seen_as (λ v. map view v.items) result)
        (list_of name.now (view value)) }
{
    match value {
        Value::Array(items) => Ok(items),
        _ => Err(JsonFault::wrong_kind(alloc, name)),
    }
}
