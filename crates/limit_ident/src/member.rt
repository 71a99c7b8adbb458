//! Members that many entries of a configuration have.
ghost use Rattle.std.specs.Prelude.{◌≡◌, ◌≤ℤ◌, IfOk, map, false};
ghost use Rattle.serde_json.specs.View.{view};
ghost use Rattle.ps_json.specs.Answer.{GivesUnless, seen_as};
ghost use Rattle.ps_json.specs.Fields.{without_member};
ghost use Rattle.ps_json.specs.Member.{required, optional};
ghost use Rattle.limit_ident.specs.Member.{text_in, flag_in, some_in, whole_in, described};
ghost use Rattle.limit_ident.specs.Fault.{wrapped};

use crate::fault::LimitFault;
use ps_json::fault::JsonFault;
use ps_json::fields::Fields;
use ps_json::kinds::{read_boolean, read_list, read_text};
use ps_time::text::Text;
use serde_json::Value;
use std::alloc::Global;

/// The items of a list that isn't empty.
pub(crate) fn read_some(alloc: Global, value: Value, name: &str) -> Result<Vec<Value>, LimitFault>
    ensures { GivesUnless LimitFault.Memory (seen_as (λ v. map view v.items) result) (some_in name.now (view value)) }
{
    let items = read_list(alloc, value, name)?;
    if items.is_empty() {
        return Err(LimitFault::empty(alloc, name));
    }
    Ok(items)
}

/// A whole number from `least` to `most`, the member `name`. One out of these bounds is refused as of `place`.
pub fn read_whole(
    alloc: Global,
    value: Value,
    place: &str,
    name: &str,
    least: i64,
    most: i64,
) -> Result<i64, LimitFault>
    ensures value { GivesUnless LimitFault.Memory result (whole_in place.now least most name.now (view value)) }
    ensures within { IfOk result (λ z. (least ≤ℤ z) × (z ≤ℤ most)) }
{
    let signed = value.as_i64();
    let is_unsigned = value.is_u64();
    drop(value);
    match signed {
        Some(number) if least <= number && number <= most => Ok(number),
        Some(_) => Err(LimitFault::bad_range(alloc, place)),
        None if is_unsigned => Err(LimitFault::bad_range(alloc, place)),
        None => Err(JsonFault::wrong_kind(alloc, name).into()),
    }
}

/// A text that has to be there.
pub fn need_text(alloc: Global, fields: &mut Fields, name: &str) -> Result<Text, LimitFault>
    ensures value { GivesUnless LimitFault.Memory result (required wrapped text_in name.now fields.old) }
    ensures rest { fields.new ≡ without_member name.now fields.old }
{
    let value = fields.need(alloc, name)?;
    Ok(Text::from_string(read_text(alloc, value, name)?))
}

/// `true` or `false`, and `false` where the member is left out.
pub fn take_flag(alloc: Global, fields: &mut Fields, name: &str) -> Result<bool, LimitFault>
    ensures value { GivesUnless LimitFault.Memory result (optional false flag_in name.now fields.old) }
    ensures rest { fields.new ≡ without_member name.now fields.old }
{
    match fields.take(name) {
        None => Ok(false),
        Some(value) => Ok(read_boolean(alloc, value, name)?),
    }
}

/// Nothing may be left but a description and comments.
pub fn end_described(alloc: Global, mut fields: Fields) -> Result<(), LimitFault>
    ensures { GivesUnless LimitFault.Memory result (described fields) }
{
    if let Some(value) = fields.take("description") {
        read_text(alloc, value, "description")?;
    }
    fields.end(alloc)?;
    Ok(())
}
