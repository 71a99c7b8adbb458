//! The reader of limits.
ghost use Rattle.std.specs.Prelude.{◌≡◌, option_map, codes, OnOk};
ghost use Rattle.serde_json.specs.View.{view};
ghost use Rattle.ps_json.specs.Answer.{GivesUnless};
ghost use Rattle.ps_json.specs.Fields.{without_member};
ghost use Rattle.ps_json.specs.Member.{required, optional};
ghost use Rattle.limit_ident.specs.Fault.{wrapped};
ghost use Rattle.limit_rule.specs.ReadLimits.{kind_of, kind_in, test_name_in, pass_of, test_type_in, length_in, moment_in, range_in, bounds_in, some_bounds_in, lengths_in, test_in, dates_in, dates_of, times_in, rule_of, told_of, after_told, rest_of, limits_in};

use crate::bounds::Bounds;
use crate::limit::{DateRange, Lengths, Limit, Rule};
use crate::read_schedule::read_schedule;
use limit_ident::fault::LimitFault;
use limit_ident::member::{end_described, need_text, take_flag};
use limit_ident::named::Entries;
use limit_ident::read_lists::{ReadEntry, ReadItem, read_entries, read_items};
use plugin_core::kind::{self, TestKind};
use ps_json::fault::JsonFault;
use ps_json::fields::Fields;
use ps_json::kinds::read_text;
use ps_time::items::Items;
use ps_time::moment::{Length, Moment, Round};
use ps_time::read_length::read_length;
use ps_time::read_moment::read_moment;
use ps_time::text::Text;
use serde_json::Value;
use std::alloc::Global;

/// A type of limits.
#[derive(Clone, Copy)]
enum Kind {
    PassFail,
    TestType,
    Test,
    RunDateRange,
    RunSchedule,
}

fn read_kind(text: &str) -> Option<Kind>
    ensures { result ≡ kind_of text.now }
{
    match text {
        "pass-fail" => Some(Kind::PassFail),
        "test-type" => Some(Kind::TestType),
        "test" => Some(Kind::Test),
        "run-daterange" => Some(Kind::RunDateRange),
        "run-schedule" => Some(Kind::RunSchedule),
        _ => None,
    }
}

fn need_kind(alloc: Global, fields: &mut Fields) -> Result<Kind, LimitFault>
    ensures value { GivesUnless LimitFault.Memory result (required wrapped kind_in (codes "type") fields.old) }
    ensures rest { fields.new ≡ without_member (codes "type") fields.old }
{
    let name = need_text(alloc, fields, "type")?;
    match read_kind(name.as_str()) {
        Some(kind) => Ok(kind),
        None => Err(LimitFault::UnknownType(name)),
    }
}

fn read_pass_data(alloc: Global, value: Option<Value>) -> Result<Rule, LimitFault>
    ensures { GivesUnless LimitFault.Memory result (pass_of (option_map view value)) }
{
    match value {
        None => Ok(Rule::PassFail(false)),
        Some(value) => {
            let mut fields = Fields::open(alloc, value, "data")?;
            let pass = take_flag(alloc, &mut fields, "pass")?;
            fields.end(alloc)?;
            Ok(Rule::PassFail(pass))
        }
    }
}

/// The kind of a test that a text names.
fn read_test_name(alloc: Global, value: Value, name: &str) -> Result<TestKind, LimitFault>
    ensures { GivesUnless LimitFault.Memory result (test_name_in name.now (view value)) }
{
    let text = Text::from_string(read_text(alloc, value, name)?);
    match kind::read_kind(text.as_str()) {
        Some(kind) => Ok(kind),
        None => Err(LimitFault::UnknownName(text)),
    }
}

/// Reads the items of `types`.
#[derive(Clone, Copy)]
struct TypeReader;

impl ReadItem for TypeReader {
    type Item = TestKind;

    ghost use Rattle.std.specs.Prelude.{codes};
    ghost use Rattle.limit_rule.specs.ReadLimits.{test_name_in};

    ghost item = { λ r d. test_name_in (codes "types") d };

    fn read_item(&self, alloc: Global, value: Value) -> Result<TestKind, LimitFault> {
        read_test_name(alloc, value, "types")
    }
}

fn read_type_data(alloc: Global, value: Value) -> Result<Rule, LimitFault>
    ensures { GivesUnless LimitFault.Memory result (test_type_in (codes "data") (view value)) }
{
    let mut fields = Fields::open(alloc, value, "data")?;
    let kinds = read_items(alloc, fields.need(alloc, "types")?, "types", &TypeReader)?;
    fields.end(alloc)?;
    Ok(Rule::TestType(kinds))
}

fn need_length(alloc: Global, fields: &mut Fields, name: &str) -> Result<Length, LimitFault>
    ensures value { GivesUnless LimitFault.Memory result (required wrapped length_in name.now fields.old) }
    ensures rest { fields.new ≡ without_member name.now fields.old }
{
    let text = need_text(alloc, fields, name)?;
    match read_length(text.as_str()) {
        Ok(length) => Ok(length),
        Err(_) => Err(JsonFault::wrong_kind(alloc, name).into()),
    }
}

fn need_moment(
    alloc: Global,
    fields: &mut Fields,
    name: &str,
    round: Round,
) -> Result<Moment, LimitFault>
    ensures value { GivesUnless LimitFault.Memory result (required wrapped (moment_in round) name.now fields.old) }
    ensures rest { fields.new ≡ without_member name.now fields.old }
{
    let text = need_text(alloc, fields, name)?;
    match read_moment(text.as_str(), round) {
        Ok(moment) => Ok(moment),
        Err(_) => Err(JsonFault::wrong_kind(alloc, name).into()),
    }
}

/// From `lower` to `upper`, of the length `name`.
fn read_range(alloc: Global, value: Value, name: &str) -> Result<Bounds, LimitFault>
    ensures { GivesUnless LimitFault.Memory result (range_in name.now (codes "range") (view value)) }
{
    let mut fields = Fields::open(alloc, value, "range")?;
    let lower = need_length(alloc, &mut fields, "lower")?;
    let upper = need_length(alloc, &mut fields, "upper")?;
    if upper < lower {
        return Err(LimitFault::bad_range(alloc, name));
    }
    fields.end(alloc)?;
    Ok(Bounds { lower, upper })
}

fn read_bounds(alloc: Global, value: Value, name: &str) -> Result<Bounds, LimitFault>
    ensures { GivesUnless LimitFault.Memory result (bounds_in name.now (view value)) }
{
    let mut fields = Fields::open(alloc, value, name)?;
    let range = fields.need(alloc, "range")?;
    let bounds = read_range(alloc, range, name)?;
    fields.end(alloc)?;
    Ok(bounds)
}

fn take_bounds(alloc: Global, fields: &mut Fields, name: &str) -> Result<Option<Bounds>, LimitFault>
    ensures value { GivesUnless LimitFault.Memory result (optional None some_bounds_in name.now fields.old) }
    ensures rest { fields.new ≡ without_member name.now fields.old }
{
    match fields.take(name) {
        None => Ok(None),
        Some(value) => Ok(Some(read_bounds(alloc, value, name)?)),
    }
}

fn read_lengths(alloc: Global, value: Value) -> Result<Lengths, LimitFault>
    ensures { GivesUnless LimitFault.Memory result (lengths_in (codes "limit") (view value)) }
{
    let mut fields = Fields::open(alloc, value, "limit")?;
    let duration = take_bounds(alloc, &mut fields, "duration")?;
    let interval = take_bounds(alloc, &mut fields, "interval")?;
    let dawdle = take_bounds(alloc, &mut fields, "dawdle")?;
    let timeout = take_bounds(alloc, &mut fields, "timeout")?;
    fields.end(alloc)?;
    Ok(Lengths {
        duration,
        interval,
        dawdle,
        timeout,
    })
}

fn read_test_data(alloc: Global, value: Value) -> Result<Rule, LimitFault>
    ensures { GivesUnless LimitFault.Memory result (test_in (codes "data") (view value)) }
{
    let mut fields = Fields::open(alloc, value, "data")?;
    let test = read_test_name(alloc, fields.need(alloc, "test")?, "test")?;
    let lengths = read_lengths(alloc, fields.need(alloc, "limit")?)?;
    fields.end(alloc)?;
    Ok(Rule::Test { test, lengths })
}

/// The dates; the end isn't before the start.
fn take_dates(alloc: Global, fields: &mut Fields) -> Result<DateRange, LimitFault>
    ensures value { GivesUnless LimitFault.Memory result (dates_of fields.old) }
    ensures rest { OnOk result (fields.new ≡ without_member (codes "overlap")
        (without_member (codes "end") (without_member (codes "start") fields.old))) }
{
    let start = need_moment(alloc, fields, "start", Round::Up)?;
    let end = need_moment(alloc, fields, "end", Round::Down)?;
    if end < start {
        return Err(LimitFault::bad_range(alloc, "end"));
    }
    let overlap = take_flag(alloc, fields, "overlap")?;
    Ok(DateRange {
        start,
        end,
        overlap,
    })
}

fn read_date_data(alloc: Global, value: Value) -> Result<Rule, LimitFault>
    ensures { GivesUnless LimitFault.Memory result (dates_in (codes "data") (view value)) }
{
    let mut fields = Fields::open(alloc, value, "data")?;
    let range = take_dates(alloc, &mut fields)?;
    fields.end(alloc)?;
    Ok(Rule::RunDateRange(range))
}

fn read_time_data(alloc: Global, value: Value) -> Result<Rule, LimitFault>
    ensures { GivesUnless LimitFault.Memory result (times_in (codes "data") (view value)) }
{
    Ok(Rule::RunSchedule(read_schedule(alloc, value)?))
}

#[tactic(auto, unfolding(crate::specs::ReadLimits::rule_of))]
fn take_rule(alloc: Global, fields: &mut Fields, kind: Kind) -> Result<Rule, LimitFault>
    ensures value { GivesUnless LimitFault.Memory result (rule_of kind (codes "data") fields.old) }
    ensures rest { fields.new ≡ without_member (codes "data") fields.old }
{
    match kind {
        Kind::PassFail => read_pass_data(alloc, fields.take("data")),
        Kind::TestType => read_type_data(alloc, fields.need(alloc, "data")?),
        Kind::Test => read_test_data(alloc, fields.need(alloc, "data")?),
        Kind::RunDateRange => read_date_data(alloc, fields.need(alloc, "data")?),
        Kind::RunSchedule => read_time_data(alloc, fields.need(alloc, "data")?),
    }
}

/// What `data` and `invert` say.
fn take_limit(alloc: Global, fields: &mut Fields, kind: Kind) -> Result<Limit, LimitFault>
    ensures value { GivesUnless LimitFault.Memory result (told_of kind fields.old) }
    ensures rest { OnOk result (fields.new ≡ after_told fields.old) }
{
    let rule = take_rule(alloc, fields, kind)?;
    let invert = take_flag(alloc, fields, "invert")?;
    Ok(Limit { rule, invert })
}

/// What stands behind the type.
fn read_typed(alloc: Global, mut fields: Fields, kind: Kind) -> Result<Limit, LimitFault>
    ensures { GivesUnless LimitFault.Memory result (rest_of kind fields) }
{
    let limit = take_limit(alloc, &mut fields, kind)?;
    end_described(alloc, fields)?;
    Ok(limit)
}

#[derive(Clone, Copy)]
struct LimitReader;

impl ReadEntry for LimitReader {
    type Entry = Limit;

    ghost use Rattle.limit_rule.specs.ReadLimits.{limit_of};

    ghost rest = { λ r ms. limit_of ms };

    fn read_rest(&self, alloc: Global, mut fields: Fields) -> Result<Limit, LimitFault> {
        let kind = need_kind(alloc, &mut fields)?;
        read_typed(alloc, fields, kind)
    }
}

/// The limits that the member `limits` is: a list that isn't empty.
pub fn read_limits(alloc: Global, value: Value) -> Result<Entries<Limit>, LimitFault>
    ensures { GivesUnless LimitFault.Memory result (limits_in (codes "limits") (view value)) }
{
    read_entries(alloc, value, "limits", &LimitReader)
}
