//! The reader of classifiers.
ghost use Rattle.std.specs.Prelude.{◌≡◌, codes};
ghost use Rattle.serde_json.specs.View.{view};
ghost use Rattle.ps_json.specs.Answer.{GivesUnless};
ghost use Rattle.ps_json.specs.Fields.{without_member};
ghost use Rattle.ps_json.specs.Member.{required, optional};
ghost use Rattle.limit_ident.specs.Fault.{wrapped};
ghost use Rattle.limit_ident.specs.declared.require.Require.TheVariants.{Any as any};
ghost use Rattle.limit_ident.specs.ReadClassifiers.{require_of, require_in, places_in, classifiers_of};

use crate::classifier::Classifier;
use crate::fault::LimitFault;
use crate::identifier::Identifier;
use crate::member::end_described;
use crate::named::{Entries, read_place};
use crate::read_lists::{ReadEntry, ReadItem, read_entries, read_items};
use crate::require::Require;
use ps_json::fault::JsonFault;
use ps_json::fields::Fields;
use ps_json::kinds::read_text;
use ps_time::items::Items;
use serde_json::Value;
use std::alloc::Global;

fn read_word(text: &str) -> Option<Require>
    ensures { result ≡ require_of text.now }
{
    match text {
        "all" => Some(Require::All),
        "any" => Some(Require::Any),
        "one" => Some(Require::One),
        "none" => Some(Require::None),
        _ => None,
    }
}

/// How many of a list have to be true, by its word.
pub fn read_require(alloc: Global, value: Value, name: &str) -> Result<Require, LimitFault>
    ensures { GivesUnless LimitFault.Memory result (require_in name.now (view value)) }
{
    let text = read_text(alloc, value, name)?;
    match read_word(text.as_str()) {
        Some(require) => Ok(require),
        None => Err(JsonFault::wrong_kind(alloc, name).into()),
    }
}

fn take_require(alloc: Global, fields: &mut Fields) -> Result<Require, LimitFault>
    ensures value { GivesUnless LimitFault.Memory result (optional any require_in (codes "require") fields.old) }
    ensures rest { fields.new ≡ without_member (codes "require") fields.old }
{
    match fields.take("require") {
        None => Ok(Require::Any),
        Some(value) => read_require(alloc, value, "require"),
    }
}

/// Reads the names of entries, which stand in the member `member`.
#[derive(Clone, Copy)]
struct PlaceReader<'a, T> {
    member: &'a str,
    entries: &'a Entries<T>,
}

impl<'a, T> ReadItem for PlaceReader<'a, T> {
    type Item = usize;

    ghost use Rattle.limit_ident.specs.Named.{place_in};

    ghost item = { λ r d. place_in r.entries.now r.member.now d };

    fn read_item(&self, alloc: Global, value: Value) -> Result<usize, LimitFault> {
        read_place(alloc, value, self.member, self.entries)
    }
}

/// The places of the entries that a list names, which isn't empty.
pub fn read_places<T>(
    alloc: Global,
    value: Value,
    name: &str,
    entries: &Entries<T>,
) -> Result<Items<usize>, LimitFault>
    ensures { GivesUnless LimitFault.Memory result (places_in entries.now name.now (view value)) }
{
    let reader = PlaceReader {
        member: name,
        entries,
    };
    read_items(alloc, value, name, &reader)
}

fn need_identifiers(
    alloc: Global,
    fields: &mut Fields,
    identifiers: &Entries<Identifier>,
) -> Result<Items<usize>, LimitFault>
    ensures value { GivesUnless LimitFault.Memory result
        (required wrapped (places_in identifiers.now) (codes "identifiers") fields.old) }
    ensures rest { fields.new ≡ without_member (codes "identifiers") fields.old }
{
    let value = fields.need(alloc, "identifiers")?;
    read_places(alloc, value, "identifiers", identifiers)
}

#[derive(Clone, Copy)]
struct ClassifierReader<'a> {
    identifiers: &'a Entries<Identifier>,
}

impl<'a> ReadEntry for ClassifierReader<'a> {
    type Entry = Classifier;

    ghost use Rattle.limit_ident.specs.ReadClassifiers.{classifier_of};

    ghost rest = { λ r ms. classifier_of r.identifiers.now ms };

    fn read_rest(&self, alloc: Global, mut fields: Fields) -> Result<Classifier, LimitFault> {
        let places = need_identifiers(alloc, &mut fields, self.identifiers)?;
        let require = take_require(alloc, &mut fields)?;
        end_described(alloc, fields)?;
        Ok(Classifier {
            identifiers: places,
            require,
        })
    }
}

/// The classifiers that the member `classifiers` of a configuration is, over its identifiers: a list
/// that isn't empty. The first refusal comes, in the order in which `docs/specification/limits.md`
/// names the members.
pub fn read_classifiers(
    alloc: Global,
    value: Value,
    identifiers: &Entries<Identifier>,
) -> Result<Entries<Classifier>, LimitFault>
    ensures { GivesUnless LimitFault.Memory result (classifiers_of identifiers.now (view value)) }
{
    read_entries(
        alloc,
        value,
        "classifiers",
        &ClassifierReader { identifiers },
    )
}
