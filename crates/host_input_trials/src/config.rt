//! The configuration of the host that is tried.
ghost use Rattle.std.specs.Prelude.{◌≡◌, ◌∷◌, [], IfOk};
ghost use Rattle.limit_apply.specs.Read.{IsKept};
ghost use Rattle.host_model.specs.Conditions.{IsConfig};
ghost use Rattle.host_input_trials.specs.Given.{the_peer, the_tools};

use host_model::config::{Config, Peer};
use limit_apply::kept::law_one_kept;
use limit_apply::limits::Limits;
use ps_time::items::Items;
use ps_time::memory::Memory;
use ps_time::text::Text;
use std::alloc::Global;

/// Host a with the number 1, the peer b with the number 2, the tool `sleep`, and limits that permit everything.
pub fn config(alloc: Global) -> Result<Config, Memory>
    ensures { IfOk result IsConfig }
{
    config_with(alloc, limits(alloc)?)
}

fn limits(alloc: Global) -> Result<Limits, Memory>
    ensures { IfOk result IsKept }
{
    let limits = Limits::open(alloc)?;
    law_one_kept(&limits);
    Ok(limits)
}

fn peers(alloc: Global) -> Result<Items<Peer>, Memory>
    ensures { IfOk result (λ peers. peers ≡ the_peer ∷ []) }
{
    let name = Text::new(alloc, "b")?;
    let mut peers = Items::new(alloc);
    peers.push(Peer {
        number: 2,
        name,
        authority: no_text(alloc),
        key: no_text(alloc),
    })?;
    Ok(peers)
}

fn installed(alloc: Global) -> Result<Items<Text>, Memory>
    ensures { IfOk result (λ names. names ≡ the_tools) }
{
    let mut names = Items::new(alloc);
    names.push(Text::new(alloc, "sleep")?)?;
    Ok(names)
}

fn no_text(alloc: Global) -> Text
    ensures { result ≡ [] }
{
    Text::from_string(String::new(alloc))
}

fn config_with(alloc: Global, limits: Limits) -> Result<Config, Memory>
    requires { IsKept limits }
    ensures { IfOk result IsConfig }
{
    let name = Text::new(alloc, "a")?;
    let peers = peers(alloc)?;
    let installed = installed(alloc)?;
    Ok(Config {
        number: 1,
        name,
        authority: no_text(alloc),
        peers,
        installed,
        limits,
    })
}
