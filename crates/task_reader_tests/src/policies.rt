//! Policies of archives, when attempts are due by them, and results.
ghost use Rattle.std.specs.Prelude.{◌≤◌, IfOk, All};
ghost use Rattle.std.specs.Option.{ForSome};
ghost use Rattle.archive_retry.specs.Bounds.{IsPolicy};
ghost use Rattle.archive_retry.specs.Merge.{IsMergeable};

use crate::reader::cut;
use crate::told::tell_fault;
use archive_retry::merge::{is_result, merge};
use archive_retry::policy::Policy;
use archive_retry::read_policy::read_policy;
use archive_retry::retry::{due, tried};
use archive_retry::state::ArchiveState;
use ps_json::kept::is_tree_text;
use ps_json::tree::read_tree;
use ps_time::items::Items;
use ps_time::memory::Memory;
use ps_time::text::Text;
use std::alloc::Global;
use std::{io, print, println};
use task_spec::archive::fails_by;
use task_spec::fault::TaskFault;

fn policy_in(alloc: Global, text: &str) -> Result<Policy, TaskFault>
    ensures { IfOk result IsPolicy }
{
    let value = read_tree(alloc, text.as_bytes())?;
    Ok(read_policy(alloc, value)?)
}

// The attempts and waits of a policy.
fn tell_entries(rt: &HostRuntime, policy: &Policy) -> io::Result<()> {
    for entry in policy.entries.as_slice() {
        print!(rt; "{}x{} ", entry.attempts, entry.wait)?;
    }
    println!(rt; "end")
}

pub(crate) fn tell_policy(rt: &HostRuntime, text: &str) -> io::Result<()> {
    match policy_in(rt.alloc(), text) {
        Ok(policy) => tell_entries(rt, &policy),
        Err(fault) => tell_fault(rt, fault),
    }
}

/// How many attempts a policy has.
pub(crate) fn attempts(alloc: Global, text: &str) -> Result<u32, TaskFault> {
    let policy = policy_in(alloc, text)?;
    Ok(policy.attempts())
}

// Whether the state is due from this moment on, and not before.
fn is_due_from(state: &ArchiveState, moment: u64) -> bool {
    !due(state, moment.saturating_sub(1)) && due(state, moment)
}

// The moment at which the next attempt is due, where each one is made at 1,000 and this one fails; nothing is due after a
// success.
fn next_of(policy: &Policy, state: &mut ArchiveState, retry: Option<u64>) -> Option<u64>
    requires policy { IsPolicy policy.now }
    requires retry { ForSome retry (λ r. r ≤ 100) }
{
    if tried(policy, *state, 1_000, retry, true).next.is_some() {
        return Some(0);
    }
    *state = tried(policy, *state, 1_000, retry, false);
    let next = state.next?;
    Some(if is_due_from(state, next) { next } else { 0 })
}

// The seconds after 1,000 at which attempts are due.
fn tell_moments(rt: &HostRuntime, policy: &Policy, retry: Option<u64>) -> io::Result<()>
    requires policy { IsPolicy policy.now }
    requires retry { ForSome retry (λ r. r ≤ 100) }
{
    let mut state = ArchiveState::due_from(1_000);
    if !is_due_from(&state, 1_000) {
        return println!(rt; "first due at another moment");
    }
    for _attempt in 0..8 {
        match next_of(policy, &mut state, retry) {
            Some(next) => print!(rt; "{} ", next.saturating_sub(1_000))?,
            None => return println!(rt; "end"),
        }
    }
    println!(rt; "no end")
}

fn at_most(retry: Option<u64>) -> Option<u64>
    ensures { ForSome result (λ r. r ≤ 100) }
{
    match retry {
        Some(retry) if retry <= 100 => Some(retry),
        _ => None,
    }
}

/// The archiver's retry in seconds or `none`, and a policy.
pub(crate) fn tell_walk(rt: &HostRuntime, text: &str) -> io::Result<()> {
    let (retry, text) = cut(text);
    match policy_in(rt.alloc(), text) {
        Ok(policy) => tell_moments(rt, &policy, at_most(retry.parse().ok())),
        Err(fault) => tell_fault(rt, fault),
    }
}

/// Whether a text may be a result.
pub(crate) fn may_be_result(alloc: Global, text: &str) -> Result<bool, TaskFault> {
    Ok(is_result(alloc, text)?)
}

/// How many attempts fail by the settings of an archive.
pub(crate) fn fails(alloc: Global, text: &str) -> Result<u64, TaskFault> {
    Ok(fails_by(alloc, text)?)
}

// A result that was heard; null stands for none.
fn heard(alloc: Global, text: &str) -> Result<Option<Text>, Memory>
    ensures { IfOk result IsMergeable }
{
    if text == "null" || !is_tree_text(alloc, text, 64)? {
        return Ok(None);
    }
    let text = Text::new(alloc, text)?;
    Ok(Some(text))
}

// What stands behind the names of the hosts.
fn results(alloc: Global, text: &str) -> Result<Vec<Option<Text>>, Memory>
    ensures { IfOk result (λ results. All IsMergeable results.items) }
{
    let mut results = Vec::new(alloc);
    for part in text.split(" & ") {
        let (_, result) = part.split_once('=').unwrap_or((part, ""));
        results.push(heard(alloc, result)?)?;
    }
    Ok(results)
}

fn hosts(alloc: Global, text: &str) -> Result<Items<Text>, Memory> {
    let mut hosts = Items::new(alloc);
    for part in text.split(" & ") {
        let (host, _) = part.split_once('=').unwrap_or((part, ""));
        hosts.push(Text::new(alloc, host)?)?;
    }
    Ok(hosts)
}

/// Hosts and results, `=` between them, and ` & ` between the pairs: the merged result.
pub(crate) fn merged(alloc: Global, text: &str) -> Result<Text, TaskFault> {
    let hosts = hosts(alloc, text)?;
    let results = results(alloc, text)?;
    if hosts.len() != results.len() {
        return Ok(Text::new(alloc, "not alike")?);
    }
    Ok(merge(alloc, hosts.as_slice(), results.as_slice())?)
}

pub(crate) fn tell_archivers(rt: &HostRuntime, names: &[&str]) -> io::Result<()> {
    for name in names {
        print!(rt; "{name} ")?;
    }
    println!(rt; "end")
}
