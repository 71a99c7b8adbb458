//! Where the API of a host is found.
ghost use Rattle.std.specs.Prelude.{◌≡◌, IfOk};
ghost use Rattle.url.specs.Input.{is_empty};
ghost use Rattle.mesh_parts.specs.Address.{is_host_url, is_plain};

use ps_time::memory::Memory;
use std::alloc::Global;
use url::{ParseError, Url};

fn is_plain(url: &Url) -> bool
    ensures { result ≡ is_plain url.now }
{
    if url.scheme() != "http" || !url.has_host() {
        return false;
    }
    if !url.username().is_empty() || url.password().is_some() {
        return false;
    }
    url.query().is_none() && url.fragment().is_none()
}

/// Whether a text is the URL of a host's API: a URL by the URL Standard of the scheme `http` with a host, and
/// without user, password, query and fragment.
#[tactic(auto, unfolding(crate::specs::Address::is_host_url))]
pub fn is_host_url(alloc: Global, text: &str) -> Result<bool, Memory>
    ensures { IfOk result (λ is. is ≡ is_host_url text.now) }
{
    match Url::parse(alloc, text) {
        Ok(url) => Ok(is_plain(&url)),
        Err(ParseError::OutOfMemory | ParseError::Overflow) => Err(Memory),
        Err(_) => Ok(false),
    }
}
