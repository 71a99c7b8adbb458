//! The hosts that are declared, and the lines that speak of one.
ghost use Rattle.std.specs.Prelude.{◌≡◌};
ghost use Rattle.rehearsal_script.specs.Line.{place_of, is_repeated, host_named, host_at, host_asked};
ghost use Rattle.rehearsal_script.specs.Words.{is_address};

use crate::script::{Reason, ScriptHost};
use crate::words::read_moment;
use ps_time::moment::Moment;
use ps_time::name::is_host_name;

fn find_host(hosts: &[ScriptHost], name: &str) -> Option<usize>
    ensures { result ≡ place_of hosts.now name.now }
{
    for (place, host) in hosts.iter().enumerate() {
        if host.name.as_str() == name {
            return Some(place);
        }
    }
    None
}

/// Whether a host has this name or this number.
pub fn is_used(hosts: &[ScriptHost], name: &str, number: u64) -> bool
    ensures { result ≡ is_repeated hosts.now name.now number }
{
    for host in hosts {
        if host.name.as_str() == name || host.number as u64 == number {
            return true;
        }
    }
    false
}

/// The place of the host `NAME`.
#[tactic(auto, unfolding(crate::specs::Line::host_named))]
pub fn read_name(hosts: &[ScriptHost], name: &str) -> Result<usize, Reason>
    ensures { result ≡ host_named hosts.now name.now }
{
    if !is_host_name(name) {
        return Err(Reason::BadName);
    }
    find_host(hosts, name).ok_or(Reason::NoSuchHost)
}

/// The moment and the host of `T NAME`.
#[tactic(auto, unfolding(crate::specs::Line::host_at))]
pub fn read_place(hosts: &[ScriptHost], at: &str, name: &str) -> Result<(Moment, usize), Reason>
    ensures { result ≡ host_at hosts.now at.now name.now }
{
    let at = read_moment(at).ok_or(Reason::BadNumber)?;
    let host = read_name(hosts, name)?;
    Ok((at, host))
}

fn is_address(address: &str) -> bool
    ensures { result ≡ is_address address.now }
{
    address.len() <= 255
}

/// The moment and the host of a line with an `ADDRESS`.
#[tactic(auto, unfolding(crate::specs::Line::host_asked))]
pub fn read_asked(
    hosts: &[ScriptHost],
    at: &str,
    name: &str,
    address: &str,
) -> Result<(Moment, usize), Reason>
    ensures { result ≡ host_asked hosts.now at.now name.now address.now }
{
    let at = read_moment(at).ok_or(Reason::BadNumber)?;
    if !is_address(address) {
        return Err(Reason::BadName);
    }
    let host = read_name(hosts, name)?;
    Ok((at, host))
}
