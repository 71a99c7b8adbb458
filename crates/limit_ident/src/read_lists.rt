//! Lists of a configuration, read one item after another.
ghost use Rattle.std.specs.Prelude.{[], Result, map};
ghost use Rattle.serde_json.specs.Data.{Data, Members};
ghost use Rattle.serde_json.specs.View.{view};
ghost use Rattle.ps_json.specs.Each.{read_each};
ghost use Rattle.ps_json.specs.Answer.{GivesUnless, then_with};
ghost use Rattle.limit_ident.specs.Member.{some_in};
ghost use Rattle.limit_ident.specs.Named.{entry_in, entries_from, entries_in};

use crate::fault::LimitFault;
use crate::member::read_some;
use crate::named::{Entries, Named, read_head};
use ps_json::fields::Fields;
use ps_time::items::Items;
use serde_json::Value;
use std::alloc::Global;

/// A reader of the items of a list.
pub trait ReadItem {
    type Item: Drop;

    ghost use Rattle.limit_ident.specs.declared.fault.LimitFault.{LimitFault};

    ghost item: { Self → Data → Result Self.Item LimitFault };

    fn read_item(&self, alloc: Global, value: Value) -> Result<Self::Item, LimitFault>
        ensures { GivesUnless LimitFault.Memory result (item self.now (view value)) };
}

/// A reader of entries, of what stands behind their names.
pub trait ReadEntry {
    type Entry: Drop;

    ghost use Rattle.limit_ident.specs.declared.fault.LimitFault.{LimitFault};

    ghost rest: { Self → Members → Result Self.Entry LimitFault };

    fn read_rest(&self, alloc: Global, fields: Fields) -> Result<Self::Entry, LimitFault>
        ensures { GivesUnless LimitFault.Memory result (rest self.now fields) };
}

/// The items of a list.
pub fn read_each_item<R: ReadItem>(
    alloc: Global,
    values: Vec<Value>,
    reader: &R,
) -> Result<Items<R::Item>, LimitFault>
    ensures { GivesUnless LimitFault.Memory result (read_each (R.item reader.now) (map view values.items)) }
{
    let mut items = Items::new(alloc);
    for value in values {
        items.push(reader.read_item(alloc, value)?)?;
    }
    Ok(items)
}

/// The items of the list `name`, which isn't empty.
pub fn read_items<R: ReadItem>(
    alloc: Global,
    value: Value,
    name: &str,
    reader: &R,
) -> Result<Items<R::Item>, LimitFault>
    ensures { GivesUnless LimitFault.Memory result
        (then_with (some_in name.now (view value)) (read_each (R.item reader.now))) }
{
    let values = read_some(alloc, value, name)?;
    read_each_item(alloc, values, reader)
}

fn read_entry<R: ReadEntry>(
    alloc: Global,
    value: Value,
    list: &str,
    reader: &R,
    before: &Entries<R::Entry>,
) -> Result<Named<R::Entry>, LimitFault>
    ensures { GivesUnless LimitFault.Memory result (entry_in list.now (R.rest reader.now) before.now (view value)) }
{
    let (name, fields) = read_head(alloc, value, list, before)?;
    let value = reader.read_rest(alloc, fields)?;
    Ok(Named { name, value })
}

fn read_each_entry<R: ReadEntry>(
    alloc: Global,
    values: Vec<Value>,
    list: &str,
    reader: &R,
) -> Result<Entries<R::Entry>, LimitFault>
    ensures { GivesUnless LimitFault.Memory result (entries_from list.now (R.rest reader.now) [] (map view values.items)) }
{
    let mut entries = Entries::new(alloc);
    for value in values {
        let entry = read_entry(alloc, value, list, reader, &entries)?;
        entries = entries.with(alloc, entry)?;
    }
    Ok(entries)
}

/// The entries of the list `list`, which isn't empty. Each has a name that none before it has.
pub fn read_entries<R: ReadEntry>(
    alloc: Global,
    value: Value,
    list: &str,
    reader: &R,
) -> Result<Entries<R::Entry>, LimitFault>
    ensures { GivesUnless LimitFault.Memory result (entries_in (R.rest reader.now) list.now (view value)) }
{
    let values = read_some(alloc, value, list)?;
    read_each_entry(alloc, values, list, reader)
}
