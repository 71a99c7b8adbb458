//! The reader of identifiers.
ghost use Rattle.std.specs.Prelude.{◌≡◌, option_map, codes, OnOk};
ghost use Rattle.serde_json.specs.View.{view};
ghost use Rattle.ps_json.specs.Answer.{GivesUnless};
ghost use Rattle.ps_json.specs.Fields.{without_member};
ghost use Rattle.ps_json.specs.Member.{required};
ghost use Rattle.limit_ident.specs.Fault.{wrapped};
ghost use Rattle.limit_ident.specs.ReadIdentifiers.{kind_of, kind_in, hint_in, style_in, match_in, hinted_in, cidr_list_in, always_of, condition_of, told_of, after_told, rest_of, identifiers_of};

use crate::address::{Block, read_block};
use crate::fault::LimitFault;
use crate::identifier::{Condition, Hint, Identifier, Style};
use crate::member::{end_described, need_text, take_flag};
use crate::named::Entries;
use crate::read_lists::{ReadEntry, ReadItem, read_entries, read_items};
use ps_json::fault::JsonFault;
use ps_json::fields::Fields;
use ps_json::kinds::read_text;
use ps_time::text::Text;
use serde_json::Value;
use std::alloc::Global;

/// A type of identifiers.
#[derive(Clone, Copy)]
enum Kind {
    Always,
    Hint,
    CidrList,
}

fn read_kind(text: &str) -> Option<Kind>
    ensures { result ≡ kind_of text.now }
{
    match text {
        "always" => Some(Kind::Always),
        "hint" => Some(Kind::Hint),
        "ip-cidr-list" => Some(Kind::CidrList),
        _ => None,
    }
}

fn need_kind(alloc: Global, fields: &mut Fields) -> Result<Kind, LimitFault>
    ensures value { GivesUnless LimitFault.Memory result (required wrapped kind_in (codes "type") fields.old) }
    ensures rest { fields.new ≡ without_member (codes "type") fields.old }
{
    let name = need_text(alloc, fields, "type")?;
    match read_kind(name.as_str()) {
        Some(kind) => Ok(kind),
        None => Err(LimitFault::UnknownType(name)),
    }
}

fn need_hint(alloc: Global, fields: &mut Fields) -> Result<Hint, LimitFault>
    ensures value { GivesUnless LimitFault.Memory result (required wrapped hint_in (codes "hint") fields.old) }
    ensures rest { fields.new ≡ without_member (codes "hint") fields.old }
{
    let text = need_text(alloc, fields, "hint")?;
    match text.as_str() {
        "requester" => Ok(Hint::Requester),
        "server" => Ok(Hint::Server),
        _ => Err(JsonFault::wrong_kind(alloc, "hint").into()),
    }
}

fn need_style(alloc: Global, fields: &mut Fields) -> Result<Style, LimitFault>
    ensures value { GivesUnless LimitFault.Memory result (required wrapped style_in (codes "style") fields.old) }
    ensures rest { fields.new ≡ without_member (codes "style") fields.old }
{
    let text = need_text(alloc, fields, "style")?;
    match text.as_str() {
        "exact" => Ok(Style::Exact),
        "contains" => Ok(Style::Contains),
        _ => Err(JsonFault::wrong_kind(alloc, "style").into()),
    }
}

/// How a hint is compared, and with what.
fn read_match(alloc: Global, value: Value) -> Result<(Style, Text), LimitFault>
    ensures { GivesUnless LimitFault.Memory result (match_in (codes "match") (view value)) }
{
    let mut fields = Fields::open(alloc, value, "match")?;
    let style = need_style(alloc, &mut fields)?;
    let text = need_text(alloc, &mut fields, "match")?;
    fields.end(alloc)?;
    Ok((style, text))
}

fn read_hint_data(alloc: Global, value: Value) -> Result<Condition, LimitFault>
    ensures { GivesUnless LimitFault.Memory result (hinted_in (codes "data") (view value)) }
{
    let mut fields = Fields::open(alloc, value, "data")?;
    let hint = need_hint(alloc, &mut fields)?;
    let (style, text) = read_match(alloc, fields.need(alloc, "match")?)?;
    fields.end(alloc)?;
    Ok(Condition::Hint { hint, style, text })
}

#[derive(Clone, Copy)]
struct BlockReader;

impl ReadItem for BlockReader {
    type Item = Block;

    ghost use Rattle.limit_ident.specs.ReadIdentifiers.{block_in};

    ghost item = { λ r d. block_in d };

    fn read_item(&self, alloc: Global, value: Value) -> Result<Block, LimitFault> {
        let text = Text::from_string(read_text(alloc, value, "cidrs")?);
        match read_block(text.as_str()) {
            Some(block) => Ok(block),
            None => Err(LimitFault::BadCidr(text)),
        }
    }
}

fn read_cidr_data(alloc: Global, value: Value) -> Result<Condition, LimitFault>
    ensures { GivesUnless LimitFault.Memory result (cidr_list_in (codes "data") (view value)) }
{
    let mut fields = Fields::open(alloc, value, "data")?;
    let blocks = read_items(alloc, fields.need(alloc, "cidrs")?, "cidrs", &BlockReader)?;
    fields.end(alloc)?;
    Ok(Condition::CidrList(blocks))
}

fn read_always_data(alloc: Global, value: Option<Value>) -> Result<Condition, LimitFault>
    ensures { GivesUnless LimitFault.Memory result (always_of (option_map view value)) }
{
    match value {
        None => Ok(Condition::Always),
        Some(value) => {
            Fields::open(alloc, value, "data")?.end(alloc)?;
            Ok(Condition::Always)
        }
    }
}

#[tactic(auto, unfolding(crate::specs::ReadIdentifiers::condition_of))]
fn take_condition(alloc: Global, fields: &mut Fields, kind: Kind) -> Result<Condition, LimitFault>
    ensures value { GivesUnless LimitFault.Memory result (condition_of kind (codes "data") fields.old) }
    ensures rest { fields.new ≡ without_member (codes "data") fields.old }
{
    match kind {
        Kind::Always => read_always_data(alloc, fields.take("data")),
        Kind::Hint => read_hint_data(alloc, fields.need(alloc, "data")?),
        Kind::CidrList => read_cidr_data(alloc, fields.need(alloc, "data")?),
    }
}

/// What `data` and `invert` say.
fn take_identifier(alloc: Global, fields: &mut Fields, kind: Kind) -> Result<Identifier, LimitFault>
    ensures value { GivesUnless LimitFault.Memory result (told_of kind fields.old) }
    ensures rest { OnOk result (fields.new ≡ after_told fields.old) }
{
    let condition = take_condition(alloc, fields, kind)?;
    let invert = take_flag(alloc, fields, "invert")?;
    Ok(Identifier { condition, invert })
}

/// What stands behind the type.
fn read_typed(alloc: Global, mut fields: Fields, kind: Kind) -> Result<Identifier, LimitFault>
    ensures { GivesUnless LimitFault.Memory result (rest_of kind fields) }
{
    let identifier = take_identifier(alloc, &mut fields, kind)?;
    end_described(alloc, fields)?;
    Ok(identifier)
}

#[derive(Clone, Copy)]
struct IdentifierReader;

impl ReadEntry for IdentifierReader {
    type Entry = Identifier;

    ghost use Rattle.limit_ident.specs.ReadIdentifiers.{identifier_of};

    ghost rest = { λ r ms. identifier_of ms };

    fn read_rest(&self, alloc: Global, mut fields: Fields) -> Result<Identifier, LimitFault> {
        let kind = need_kind(alloc, &mut fields)?;
        read_typed(alloc, fields, kind)
    }
}

/// The identifiers that the member `identifiers` of a configuration is: a list that isn't empty. The first
/// refusal comes, in the order in which `docs/specification/limits.md` names the members.
pub fn read_identifiers(alloc: Global, value: Value) -> Result<Entries<Identifier>, LimitFault>
    ensures { GivesUnless LimitFault.Memory result (identifiers_of (view value)) }
{
    read_entries(alloc, value, "identifiers", &IdentifierReader)
}
