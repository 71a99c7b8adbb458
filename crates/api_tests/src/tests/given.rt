//! Hosts, and a test.
ghost use Rattle.std.specs.Prelude.{IfOk};
ghost use Rattle.plugin_core.specs.Bounds.{IsTest};

use host_model::config::{Config, Peer};
use limit_apply::limits::Limits;
use plugin_core::read_test::read_test;
use plugin_core::test_spec::TestSpec;
use ps_json::tree::read_tree;
use ps_time::items::Items;
use ps_time::memory::Memory;
use ps_time::text::Text;
use std::alloc::Global;
use std::test::Fail;

fn a_peer(alloc: Global, number: u16, name: &str) -> Result<Peer, Memory> {
    let name = Text::new(alloc, name)?;
    let authority = Text::new(alloc, "localhost:8081")?;
    Ok(Peer {
        number,
        name,
        authority,
        key: Text::new(alloc, "secret")?,
    })
}

fn one_peer(alloc: Global, number: u16, name: &str) -> Result<Items<Peer>, Memory> {
    let mut peers = Items::new(alloc);
    peers.push(a_peer(alloc, number, name)?)?;
    Ok(peers)
}

/// A test of ten seconds.
pub(crate) fn a_test(alloc: Global) -> Result<TestSpec, Fail>
    ensures { IfOk result IsTest }
{
    let text = r#"{"spec":{"duration":"PT10S"},"type":"idle"}"#;
    let value = read_tree(alloc, text.as_bytes())?;
    match read_test(alloc, value) {
        Ok(test) => Ok(test),
        Err(_) => Err(Fail::from("no test")),
    }
}

/// A host of this number and name, whose one peer has the other number and name.
pub(crate) fn a_host(
    alloc: Global,
    number: u16,
    name: &str,
    other: u16,
    peer: &str,
) -> Result<Config, Memory> {
    let name = Text::new(alloc, name)?;
    let authority = Text::new(alloc, "localhost:8080")?;
    let peers = one_peer(alloc, other, peer)?;
    Ok(Config {
        number,
        name,
        authority,
        peers,
        installed: Items::new(alloc),
        limits: Limits::open(alloc)?,
    })
}
