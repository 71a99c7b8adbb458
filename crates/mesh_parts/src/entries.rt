//! The members of objects whose names are data.
ghost use Rattle.std.specs.Prelude.{◌≡◌, IfOk};
ghost use Rattle.serde_json.specs.View.{view, members_view};
ghost use Rattle.ps_json.specs.Answer.{GivesUnless};
ghost use Rattle.mesh_parts.specs.Entries.{entries_in, counted_in, object_in, objects_in};
ghost use Rattle.mesh_parts.specs.Named.{Ascend, names_of, entries_of, read_named};

use crate::fault::MeshFault;
use crate::named::Named;
use crate::tree::Tree;
use ps_json::fault::JsonFault;
use ps_time::items::Items;
use ps_time::memory::Memory;
use ps_time::text::Text;
use serde_json::{Map, Value};
use std::alloc::Global;

/// The most entries of an object that is counted.
pub const MAX_ENTRIES: usize = 64;

fn copy_entries(alloc: Global, members: &Map<String, Value>) -> Result<Items<Named<Tree>>, Memory>
    ensures value { IfOk result (λ entries. entries ≡ entries_of (members_view members.now.entries)) }
    ensures order { IfOk result (λ entries. Ascend (names_of entries)) }
{
    let mut entries = Items::new(alloc);
    for (name, value) in members.iter() {
        let name = Text::new(alloc, name.as_str())?;
        let value = Tree::new(value.clone()?);
        entries.push(Named { name, value })?;
    }
    Ok(entries)
}

/// The members of the object that is the value of the member `name`, by their names.
pub fn read_entries(
    alloc: Global,
    value: &Value,
    name: &str,
) -> Result<Items<Named<Tree>>, MeshFault>
    ensures value { GivesUnless MeshFault.Memory result (entries_in name.now (view value.now)) }
    ensures order { IfOk result (λ entries. Ascend (names_of entries)) }
{
    match value {
        Value::Object(members) => Ok(copy_entries(alloc, members)?),
        _ => Err(JsonFault::wrong_kind(alloc, name).into()),
    }
}

/// The members of the object that is the value of the member `name`, of which there have to be 1 to 64, by their names.
pub fn read_counted(
    alloc: Global,
    value: &Value,
    name: &str,
) -> Result<Items<Named<Tree>>, MeshFault>
    ensures value { GivesUnless MeshFault.Memory result (counted_in name.now (view value.now)) }
    ensures order { IfOk result (λ entries. Ascend (names_of entries)) }
{
    let entries = read_entries(alloc, value, name)?;
    if entries.len() == 0 {
        return Err(MeshFault::empty(alloc, name));
    }
    if entries.len() > MAX_ENTRIES {
        return Err(MeshFault::too_many(alloc, name));
    }
    Ok(entries)
}

fn check_object(alloc: Global, name: &str, tree: Tree) -> Result<Tree, MeshFault>
    ensures { GivesUnless MeshFault.Memory result (object_in name.now tree) }
{
    let is_object = matches!(tree.as_value(), Value::Object(_));
    if is_object {
        Ok(tree)
    } else {
        Err(JsonFault::wrong_kind(alloc, name).into())
    }
}

fn check_all(alloc: Global, entries: Vec<Named<Tree>>) -> Result<Items<Named<Tree>>, MeshFault>
    ensures { GivesUnless MeshFault.Memory result (read_named object_in entries.items) }
{
    let mut objects = Items::new(alloc);
    for entry in entries {
        let Named { name, value } = entry;
        let value = check_object(alloc, name.as_str(), value)?;
        objects.push(Named { name, value })?;
    }
    Ok(objects)
}

/// The members of the object that is the value of the member `name`, each an object itself.
pub fn read_objects(
    alloc: Global,
    value: &Value,
    name: &str,
) -> Result<Items<Named<Tree>>, MeshFault>
    ensures { GivesUnless MeshFault.Memory result (objects_in name.now (view value.now)) }
{
    let entries = read_entries(alloc, value, name)?;
    check_all(alloc, entries.into_vec())
}
