//! Entries of a list that others name.
ghost use Rattle.std.specs.Prelude.{◌≡◌, ℕ, List, [], ◌∷◌, ◌++◌, length, IfOk, Some, None, bytes_eq, if◌then◌else◌, codes};
ghost use Rattle.std.specs.BTreeMap.{get_by_text};
ghost use Rattle.serde_json.specs.View.{view};
ghost use Rattle.ps_json.specs.Answer.{GivesUnless};
ghost use Rattle.ps_json.specs.Fields.{without_member};
ghost use Rattle.ps_json.specs.Member.{required};
ghost use Rattle.limit_ident.specs.Fault.{wrapped};
ghost use Rattle.limit_ident.specs.Named.{place_of, first_place, new_in, place_in, head_in};

use crate::fault::LimitFault;
use crate::member::need_text;
use ps_json::fields::Fields;
use ps_json::kinds::read_text;
use ps_time::duplicate::Duplicate;
use ps_time::items::Items;
use ps_time::memory::Memory;
use ps_time::text::Text;
use serde_json::Value;
use std::alloc::Global;
use std::collections::BTreeMap;
use std::marker::Model;

/// An entry and its name.
#[derive(Drop)]
pub struct Named<T> {
    pub name: Text,
    pub value: T,
}

impl<T: Duplicate> Duplicate for Named<T> {
    fn duplicate(&self, alloc: Global) -> Result<Named<T>, Memory> {
        Ok(Named {
            name: self.name.copy(alloc)?,
            value: self.value.duplicate(alloc)?,
        })
    }
}

/// Entries that others name, found by their names. Of entries of one name the first is found.
#[derive(Drop)]
pub struct Entries<T> {
    list: Items<Named<T>>,
    places: BTreeMap<String, usize>,
}

impl<T> Model for Entries<T> {
    ghost use Rattle.std.specs.Prelude.{◌≡◌, ℕ, List};
    ghost use Rattle.std.specs.BTreeMap.{get_by_text};
    ghost use Rattle.limit_ident.specs.declared.named.Named.{Named};
    ghost use Rattle.limit_ident.specs.Named.{place_of};

    ghost Value = { List (Named T) };

    ghost view = { λ e. e.list };

    ghost invariant = { λ e. (name : List ℕ) → get_by_text e.places name ≡ place_of name e.list };
}

/// The places of names, and this one, unless the name has a place.
fn with_place(
    alloc: Global,
    mut places: BTreeMap<String, usize>,
    name: &str,
    place: usize,
) -> Result<BTreeMap<String, usize>, Memory>
    ensures { IfOk result (λ made. (other : List ℕ) → get_by_text made other
        ≡ first_place (get_by_text places other) (if bytes_eq name.now other then Some place else None)) }
{
    if places.contains_key(name) {
        return Ok(places);
    }
    places.insert(String::from_str(alloc, name)?, place)?;
    Ok(places)
}

impl<T> Entries<T> {
    pub(crate) fn new(alloc: Global) -> Entries<T>
        ensures { result ≡ [] }
    {
        Entries {
            list: Items::new(alloc),
            places: BTreeMap::new(alloc),
        }
    }

    /// How many entries there are.
    pub fn len(&self) -> usize
        ensures { result ≡ length self.now }
    {
        self.list.len()
    }

    /// The first place of the entry with this name.
    pub fn place_of(&self, name: &str) -> Option<usize>
        ensures { result ≡ place_of name.now self.now }
    {
        self.places.get(name).copied()
    }

    /// The entries, in their order; the places of names are dropped.
    pub fn into_items(self) -> Items<Named<T>>
        ensures { result ≡ self }
    {
        self.list
    }
}

impl<T: Drop> Entries<T> {
    /// The same entries, and one more behind them.
    pub(crate) fn with(self, alloc: Global, entry: Named<T>) -> Result<Entries<T>, Memory>
        ensures { IfOk result (λ made. made ≡ self ++ entry ∷ []) }
    {
        let Entries { mut list, places } = self;
        let places = with_place(alloc, places, entry.name.as_str(), list.len())?;
        list.push(entry)?;
        Ok(Entries { list, places })
    }
}

/// The member `name`, a text that none of the entries has for a name.
fn need_name<T>(
    alloc: Global,
    fields: &mut Fields,
    entries: &Entries<T>,
) -> Result<Text, LimitFault>
    ensures value { GivesUnless LimitFault.Memory result (required wrapped (new_in entries.now) (codes "name") fields.old) }
    ensures rest { fields.new ≡ without_member (codes "name") fields.old }
{
    let name = need_text(alloc, fields, "name")?;
    if entries.place_of(name.as_str()).is_some() {
        return Err(LimitFault::Duplicate(name));
    }
    Ok(name)
}

/// The place of the entry that a text names.
pub fn read_place<T>(
    alloc: Global,
    value: Value,
    member: &str,
    entries: &Entries<T>,
) -> Result<usize, LimitFault>
    ensures { GivesUnless LimitFault.Memory result (place_in entries.now member.now (view value)) }
{
    let name = Text::from_string(read_text(alloc, value, member)?);
    match entries.place_of(name.as_str()) {
        Some(place) => Ok(place),
        None => Err(LimitFault::UnknownName(name)),
    }
}

/// The name of an entry of the list `list`, and what stands behind it.
pub(crate) fn read_head<T>(
    alloc: Global,
    value: Value,
    list: &str,
    entries: &Entries<T>,
) -> Result<(Text, Fields), LimitFault>
    ensures { GivesUnless LimitFault.Memory result (head_in list.now entries.now (view value)) }
{
    let mut fields = Fields::open(alloc, value, list)?;
    let name = need_name(alloc, &mut fields, entries)?;
    Ok((name, fields))
}

/// The same places once more.
pub fn copy_places(alloc: Global, places: &[usize]) -> Result<Items<usize>, Memory>
    ensures { IfOk result (λ made. made ≡ places.now) }
{
    let mut made = Items::new(alloc);
    for place in places {
        made.push(*place)?;
    }
    Ok(made)
}
