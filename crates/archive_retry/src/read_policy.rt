//! The reader of policies.
ghost use Rattle.std.specs.Prelude.{◌≡◌, ◌≤◌, length, map, IfOk, All};
ghost use Rattle.serde_json.specs.View.{view};
ghost use Rattle.ps_json.specs.Answer.{GivesUnless};
ghost use Rattle.ps_json.specs.Each.{read_each};
ghost use Rattle.ps_time.specs.declared.moment.TheConstants.{MAX_LENGTH};
ghost use Rattle.archive_retry.specs.Bounds.{IsEntry, IsPolicy};
ghost use Rattle.archive_retry.specs.ReadPolicy.{wait_in, entry_of, policy_of};

use crate::fault::PolicyFault;
use crate::policy::{Entry, Policy};
use ps_json::fault::JsonFault;
use ps_json::fields::Fields;
use ps_json::kinds::{read_count, read_list, read_text};
use ps_time::items::Items;
use ps_time::moment::Length;
use ps_time::read_length::read_length;
use ps_time::text::Text;
use serde_json::Value;
use std::alloc::Global;

fn read_wait(alloc: Global, value: Value) -> Result<Length, PolicyFault>
    ensures value { GivesUnless PolicyFault.Memory result (wait_in (view value)) }
    ensures bound { IfOk result (λ wait. wait ≤ MAX_LENGTH) }
{
    let text = read_text(alloc, value, "wait")?;
    match read_length(text.as_str()) {
        Ok(wait) => Ok(wait),
        Err(fault) => Err(PolicyFault::BadTime(Text::new(alloc, "wait")?, fault)),
    }
}

fn read_entry(alloc: Global, value: Value) -> Result<Entry, PolicyFault>
    ensures value { GivesUnless PolicyFault.Memory result (entry_of (view value)) }
    ensures bounds { IfOk result IsEntry }
{
    let mut fields = Fields::open(alloc, value, "retry-policy")?;
    let attempts = read_count(alloc, fields.need(alloc, "attempts")?, "attempts", 1, 1_000)?;
    let wait = read_wait(alloc, fields.need(alloc, "wait")?)?;
    fields.end(alloc)?;
    Ok(Entry {
        attempts: attempts as u32,
        wait,
    })
}

fn read_entries(alloc: Global, values: Vec<Value>) -> Result<Items<Entry>, PolicyFault>
    ensures value { GivesUnless PolicyFault.Memory result (read_each entry_of (map view values.items)) }
    ensures bounds { IfOk result (λ entries. All IsEntry entries) }
    ensures count { IfOk result (λ entries. length entries ≡ length values.items) }
{
    let mut entries = Items::new(alloc);
    for value in values {
        entries.push(read_entry(alloc, value)?)?;
    }
    Ok(entries)
}

/// The policy that a tree is: a list of 1 to 16 entries, each an object with `attempts` and `wait`. The
/// list's own kind and length come first, then its entries one after another.
pub fn read_policy(alloc: Global, value: Value) -> Result<Policy, PolicyFault>
    ensures value { GivesUnless PolicyFault.Memory result (policy_of (view value)) }
    ensures bounds { IfOk result IsPolicy }
{
    let values = read_list(alloc, value, "retry-policy")?;
    if values.is_empty() || values.len() > 16 {
        return Err(JsonFault::wrong_kind(alloc, "retry-policy").into());
    }
    Ok(Policy {
        entries: read_entries(alloc, values)?,
    })
}
