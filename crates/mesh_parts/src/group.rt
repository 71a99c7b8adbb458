//! Groups of hosts, and the pairs that they have.
ghost use Rattle.std.specs.Prelude.{◌≡◌, ◌++◌, IfOk, OnOk};
ghost use Rattle.mesh_parts.specs.Group.{has, is_list, alone, joins, single, joined, pairs_of};
ghost use Rattle.mesh_parts.specs.Named.{names_of};

use crate::named::Named;
use ps_time::duplicate::Duplicate;
use ps_time::items::Items;
use ps_time::memory::Memory;
use ps_time::text::Text;
use std::alloc::Global;

/// Hosts between which something is measured.
pub enum Group {
    /// Each of these hosts by itself.
    List(Items<Text>),
    /// Each of these hosts with each other one.
    Mesh(Items<Text>),
    /// Each of the first hosts with each of the second ones, and the other way round.
    Disjoint(Items<Text>, Items<Text>),
}

// Written out, so that a drop elsewhere is one call, and not a case for each kind.
impl Drop for Group {
    fn drop(self) {
        match self {
            Group::List(_) => {}
            Group::Mesh(_) => {}
            Group::Disjoint(_, _) => {}
        }
    }
}

/// A host, or two of which the first leads.
#[derive(Drop)]
pub struct Pair {
    pub first: Text,
    /// None where the group is a list.
    pub second: Option<Text>,
}

/// Whether the names have this one.
pub fn has(names: &[Text], name: &str) -> bool
    ensures { result ≡ has names.now name.now }
{
    for other in names {
        if other.as_str() == name {
            return true;
        }
    }
    false
}

impl Group {
    /// Whether it has hosts by themselves.
    pub fn is_list(&self) -> bool
        ensures { result ≡ is_list self.now }
    {
        matches!(self, Group::List(_))
    }

    fn has_alone(&self, host: &str) -> bool
        ensures { result ≡ alone self.now host.now }
    {
        match self {
            Group::List(hosts) => has(hosts.as_slice(), host),
            _ => false,
        }
    }

    fn joins(&self, first: &str, second: &str) -> bool
        ensures { result ≡ joins self.now first.now second.now }
    {
        if first == second {
            return false;
        }
        match self {
            Group::List(_) => false,
            Group::Mesh(hosts) => has(hosts.as_slice(), first) && has(hosts.as_slice(), second),
            Group::Disjoint(some, others) => {
                let some = some.as_slice();
                let others = others.as_slice();
                (has(some, first) && has(others, second))
                    || (has(others, first) && has(some, second))
            }
        }
    }

    fn push_alone(&self, alloc: Global, pairs: &mut Vec<Pair>, host: &str) -> Result<(), Memory>
        ensures { OnOk result (pairs.new.items ≡ pairs.old.items ++ single self.now host.now) }
    {
        if self.has_alone(host) {
            pairs.push(Pair {
                first: Text::new(alloc, host)?,
                second: None,
            })?;
        }
        Ok(())
    }

    fn push_joined<T>(
        &self,
        alloc: Global,
        pairs: &mut Vec<Pair>,
        first: &str,
        hosts: &[Named<T>],
    ) -> Result<(), Memory>
        ensures { OnOk result (pairs.new.items ≡ pairs.old.items ++ joined self.now (names_of hosts.now) first.now) }
    {
        for host in hosts {
            let second = host.name.as_str();
            if self.joins(first, second) {
                pairs.push(Pair {
                    first: Text::new(alloc, first)?,
                    second: Some(Text::new(alloc, second)?),
                })?;
            }
        }
        Ok(())
    }

    /// The members of the group among these hosts, in the order in which these stand: single hosts of a
    /// list, else ordered pairs of two different ones, of which each comes once.
    pub fn pairs<T>(&self, alloc: Global, hosts: &[Named<T>]) -> Result<Vec<Pair>, Memory>
        ensures { IfOk result (λ pairs. pairs.items ≡ pairs_of (names_of hosts.now) self.now) }
    {
        let mut pairs = Vec::new(alloc);
        for host in hosts {
            let first = host.name.as_str();
            self.push_alone(alloc, &mut pairs, first)?;
            self.push_joined(alloc, &mut pairs, first, hosts)?;
        }
        Ok(pairs)
    }
}

impl Duplicate for Group {
    fn duplicate(&self, alloc: Global) -> Result<Group, Memory> {
        match self {
            Group::List(hosts) => Ok(Group::List(hosts.copy(alloc)?)),
            Group::Mesh(hosts) => Ok(Group::Mesh(hosts.copy(alloc)?)),
            Group::Disjoint(some, others) => {
                Ok(Group::Disjoint(some.copy(alloc)?, others.copy(alloc)?))
            }
        }
    }
}
