//! The hosts of a script, as each of them knows the others.
ghost use Rattle.std.specs.Prelude.{◌≡◌, ◌<◌, IfOk, map};
ghost use Rattle.rehearsal_model.specs.Hosts.{every_tool, first_config, name_numbered, others_of, peer_of};
ghost use Rattle.rehearsal_model.specs.Moves.{place_numbered};

use host_model::config::{Config, Peer};
use limit_apply::limits::Limits;
use plugin_tool::choice::tools;
use plugin_tool::tool::tool_name;
use ps_time::items::Items;
use ps_time::memory::Memory;
use ps_time::text::Text;
use rehearsal_script::script::ScriptHost;
use std::alloc::Global;

/// What each host of a script shows to be taken for itself by the others.
const PEER_KEY: &str = "script";

/// A host as the others know it: its authority is its name.
fn peer_of(alloc: Global, host: &ScriptHost) -> Result<Peer, Memory>
    ensures { IfOk result (λ peer. peer ≡ peer_of host.now) }
{
    Ok(Peer {
        number: host.number,
        name: host.name.copy(alloc)?,
        authority: host.name.copy(alloc)?,
        key: Text::new(alloc, PEER_KEY)?,
    })
}

/// The hosts that have another number.
fn peers_of(alloc: Global, hosts: &[ScriptHost], number: u16) -> Result<Items<Peer>, Memory>
    ensures { IfOk result (λ peers. peers ≡ map peer_of (others_of hosts.now number)) }
{
    let mut peers = Items::new(alloc);
    for host in hosts {
        if host.number != number {
            peers.push(peer_of(alloc, host)?)?;
        }
    }
    Ok(peers)
}

fn every_tool(alloc: Global) -> Result<Items<Text>, Memory>
    ensures { IfOk result (λ names. names ≡ every_tool) }
{
    let mut names = Items::new(alloc);
    for tool in tools() {
        names.push(Text::new(alloc, tool_name(*tool))?)?;
    }
    Ok(names)
}

/// The configuration of a host at first: all other hosts are its peers, it has every tool, and everything is
/// allowed there.
pub fn first_config(
    alloc: Global,
    hosts: &[ScriptHost],
    host: &ScriptHost,
) -> Result<Config, Memory>
    ensures { IfOk result (λ config. config ≡ first_config hosts.now host.now) }
{
    let name = host.name.copy(alloc)?;
    let authority = host.name.copy(alloc)?;
    let peers = peers_of(alloc, hosts, host.number)?;
    let installed = every_tool(alloc)?;
    Ok(Config {
        number: host.number,
        name,
        authority,
        peers,
        installed,
        limits: Limits::open(alloc)?,
    })
}

/// The name of the host that has the number.
pub fn name_of(hosts: &[ScriptHost], number: u16) -> &str
    ensures { result.now ≡ name_numbered hosts.now number }
{
    for host in hosts {
        if host.number == number {
            return host.name.as_str();
        }
    }
    "stranger"
}

/// The place of the host that has the number.
pub fn place_of(hosts: &[ScriptHost], number: u16) -> usize
    ensures { result ≡ place_numbered hosts.now number }
{
    for (place, host) in hosts.iter().enumerate() {
        if host.number == number {
            return place;
        }
    }
    hosts.len()
}
