//! The reader of addresses and groups.
ghost use Rattle.std.specs.Prelude.{◌≡◌, IfOk, OnOk, map};
ghost use Rattle.serde_json.specs.View.{view};
ghost use Rattle.ps_json.specs.Answer.{GivesUnless};
ghost use Rattle.ps_json.specs.Each.{read_each};
ghost use Rattle.ps_json.specs.Fields.{without_member};
ghost use Rattle.ps_json.specs.Member.{required};
ghost use Rattle.mesh_parts.specs.Fault.{wrapped};
ghost use Rattle.mesh_parts.specs.Named.{Ascend, names_of, read_named};
ghost use Rattle.mesh_parts.specs.ReadGroups.{host_name_in, address_in, addresses_in, kind_of, kind_in, host_in, hosts_in, group_of, after_group, group_in, groups_in};

use crate::address::is_host_url;
use crate::entries::read_counted;
use crate::fault::MeshFault;
use crate::group::Group;
use crate::named::{Named, find};
use crate::tree::Tree;
use ps_json::fault::JsonFault;
use ps_json::fields::Fields;
use ps_json::kinds::{read_list, read_text};
use ps_time::items::Items;
use ps_time::name::is_host_name;
use ps_time::text::Text;
use serde_json::Value;
use std::alloc::Global;

/// A text that is a name as hosts have them.
pub fn read_host_name(alloc: Global, value: Value, name: &str) -> Result<Text, MeshFault>
    ensures { GivesUnless MeshFault.Memory result (host_name_in name.now (view value)) }
{
    let text = Text::from_string(read_text(alloc, value, name)?);
    if !is_host_name(text.as_str()) {
        return Err(MeshFault::BadName(text));
    }
    Ok(text)
}

fn read_address(alloc: Global, host: &str, tree: Tree) -> Result<Text, MeshFault>
    ensures { GivesUnless MeshFault.Memory result (address_in host.now tree) }
{
    if !is_host_name(host) {
        return Err(MeshFault::bad_name(alloc, host));
    }
    let url = Text::from_string(read_text(alloc, tree.into_value(), host)?);
    if !is_host_url(alloc, url.as_str())? {
        return Err(MeshFault::bad_url(alloc, host));
    }
    Ok(url)
}

fn read_all_addresses(
    alloc: Global,
    entries: Vec<Named<Tree>>,
) -> Result<Items<Named<Text>>, MeshFault>
    ensures value { GivesUnless MeshFault.Memory result (read_named address_in entries.items) }
    ensures names { IfOk result (λ addresses. names_of addresses ≡ names_of entries.items) }
{
    let mut addresses = Items::new(alloc);
    for entry in entries {
        let Named { name, value } = entry;
        let value = read_address(alloc, name.as_str(), value)?;
        addresses.push(Named { name, value })?;
    }
    Ok(addresses)
}

/// The URLs of 1 to 64 hosts, by their names.
pub fn read_addresses(
    alloc: Global,
    value: &Value,
    name: &str,
) -> Result<Items<Named<Text>>, MeshFault>
    ensures value { GivesUnless MeshFault.Memory result (addresses_in name.now (view value.now)) }
    ensures order { IfOk result (λ addresses. Ascend (names_of addresses)) }
{
    let entries = read_counted(alloc, value, name)?;
    read_all_addresses(alloc, entries.into_vec())
}

/// Which hosts of a group are measured with each other.
#[derive(Clone, Copy)]
pub enum Kind {
    List,
    Mesh,
    Disjoint,
}

fn kind_of(text: &str) -> Option<Kind>
    ensures { result ≡ kind_of text.now }
{
    match text {
        "list" => Some(Kind::List),
        "mesh" => Some(Kind::Mesh),
        "disjoint" => Some(Kind::Disjoint),
        _ => None,
    }
}

fn read_kind(alloc: Global, value: Value, name: &str) -> Result<Kind, MeshFault>
    ensures { GivesUnless MeshFault.Memory result (kind_in name.now (view value)) }
{
    let text = read_text(alloc, value, name)?;
    match kind_of(text.as_str()) {
        Some(kind) => Ok(kind),
        None => Err(JsonFault::wrong_kind(alloc, name).into()),
    }
}

fn read_host(
    alloc: Global,
    value: Value,
    name: &str,
    addresses: &[Named<Text>],
) -> Result<Text, MeshFault>
    ensures { GivesUnless MeshFault.Memory result (host_in addresses.now name.now (view value)) }
{
    let host = Text::from_string(read_text(alloc, value, name)?);
    if find(host.as_str(), addresses).is_none() {
        return Err(MeshFault::UnknownName(host));
    }
    Ok(host)
}

fn read_all_hosts(
    alloc: Global,
    values: Vec<Value>,
    name: &str,
    addresses: &[Named<Text>],
) -> Result<Items<Text>, MeshFault>
    ensures { GivesUnless MeshFault.Memory result (read_each (host_in addresses.now name.now) (map view values.items)) }
{
    let mut hosts = Items::new(alloc);
    for value in values {
        hosts.push(read_host(alloc, value, name, addresses)?)?;
    }
    Ok(hosts)
}

fn need_hosts(
    alloc: Global,
    fields: &mut Fields,
    name: &str,
    addresses: &[Named<Text>],
) -> Result<Items<Text>, MeshFault>
    ensures value { GivesUnless MeshFault.Memory result (required wrapped (hosts_in addresses.now) name.now fields.old) }
    ensures rest { fields.new ≡ without_member name.now fields.old }
{
    let value = fields.need(alloc, name)?;
    let values = read_list(alloc, value, name)?;
    if values.is_empty() {
        return Err(MeshFault::empty(alloc, name));
    }
    read_all_hosts(alloc, values, name, addresses)
}

fn read_of_kind(
    alloc: Global,
    kind: Kind,
    fields: &mut Fields,
    addresses: &[Named<Text>],
) -> Result<Group, MeshFault>
    ensures value { GivesUnless MeshFault.Memory result (group_of kind addresses.now fields.old) }
    ensures rest { OnOk result (fields.new ≡ after_group kind fields.old) }
{
    match kind {
        Kind::List => Ok(Group::List(need_hosts(alloc, fields, "addresses", addresses)?)),
        Kind::Mesh => Ok(Group::Mesh(need_hosts(alloc, fields, "addresses", addresses)?)),
        Kind::Disjoint => {
            let some = need_hosts(alloc, fields, "a-addresses", addresses)?;
            let others = need_hosts(alloc, fields, "b-addresses", addresses)?;
            Ok(Group::Disjoint(some, others))
        }
    }
}

fn read_group(
    alloc: Global,
    name: &str,
    tree: Tree,
    addresses: &[Named<Text>],
) -> Result<Group, MeshFault>
    ensures { GivesUnless MeshFault.Memory result (group_in addresses.now name.now tree) }
{
    let mut fields = Fields::open(alloc, tree.into_value(), name)?;
    let kind = read_kind(alloc, fields.need(alloc, "type")?, "type")?;
    let group = read_of_kind(alloc, kind, &mut fields, addresses)?;
    fields.end(alloc)?;
    Ok(group)
}

fn read_all_groups(
    alloc: Global,
    entries: Vec<Named<Tree>>,
    addresses: &[Named<Text>],
) -> Result<Items<Named<Group>>, MeshFault>
    ensures { GivesUnless MeshFault.Memory result (read_named (group_in addresses.now) entries.items) }
{
    let mut groups = Items::new(alloc);
    for entry in entries {
        let Named { name, value } = entry;
        let value = read_group(alloc, name.as_str(), value, addresses)?;
        groups.push(Named { name, value })?;
    }
    Ok(groups)
}

/// 1 to 64 groups of hosts that have addresses.
pub fn read_groups(
    alloc: Global,
    value: &Value,
    name: &str,
    addresses: &[Named<Text>],
) -> Result<Items<Named<Group>>, MeshFault>
    ensures { GivesUnless MeshFault.Memory result (groups_in addresses.now name.now (view value.now)) }
{
    let entries = read_counted(alloc, value, name)?;
    read_all_groups(alloc, entries.into_vec(), addresses)
}
