//! Whether a proposed run fits at a host, and why not.
ghost use Rattle.std.specs.Prelude.{◌≡◌, ◌≤◌, IfOk};
ghost use Rattle.ps_time.specs.declared.moment.TheConstants.{MAX_MOMENT};
ghost use Rattle.plugin_core.specs.Bounds.{IsTest};
ghost use Rattle.plugin_tool.specs.Choice.{is_tool_for};
ghost use Rattle.plugin_core.specs.Kind.{test_kind};
ghost use Rattle.plugin_core.specs.TestSpec.{test_class};
ghost use Rattle.run_states.specs.Preemption.{firm_conflict};
ghost use Rattle.run_states.specs.ResultBytes.{result_bytes};
ghost use Rattle.host_model.specs.Fits.{conflict_denial, denial_of, full_denial, has_tool, objection, wanted_span};
ghost use Rattle.part_core.specs.Seen.{IsUnbooked, later_objection, place_in};

use crate::reading::Reading;
use host_model::config::Config;
use plugin_core::kind::kind_of;
use plugin_core::participants::{is_named, is_participant};
use plugin_core::test_spec::{class_of, length_of};
use plugin_tool::choice::{read_tool, runs};
use ps_time::asker::Verdict;
use ps_time::interval::Interval;
use ps_time::memory::Memory;
use ps_time::text::Text;
use run_states::proposal::Proposal;
use run_states::why::{Denial, What};
use std::alloc::Global;

/// The most rows that a book has.
pub const MOST_ROWS: usize = 50_000;

/// As many bytes of results as a book takes, so that no run is accepted where they are kept.
pub const MOST_KEPT_BYTES: u64 = 268_435_456;

/// What the run of the proposal reserves, in seconds since 1970 UTC.
pub fn wanted_interval(proposal: &Proposal) -> Interval
    requires test { IsTest proposal.now.test }
    requires start { proposal.now.start ≤ MAX_MOMENT }
    ensures { result ≡ wanted_span proposal.now }
{
    Interval {
        start: proposal.start,
        end: proposal.start + length_of(&proposal.test),
    }
}

/// The first of what a participant and the lead alike hold against the run: that its tool isn't there or
/// doesn't run the test, that its start is past, what the limits say, a run that it may not preempt.
pub fn objection<R: Reading>(
    alloc: Global,
    book: &R,
    installed: &[Text],
    proposal: &Proposal,
) -> Result<Option<Denial>, Memory>
    requires test { IsTest proposal.now.test }
    requires start { proposal.now.start ≤ MAX_MOMENT }
    requires unbooked { IsUnbooked proposal.now.key (R.seen book.now) }
    ensures { IfOk result (λ o. o ≡ objection installed.now (R.in_force book.now) (R.seen book.now) (R.at book.now) proposal.now) }
{
    if !has_tool(installed, proposal) {
        return Ok(Some(Denial::NoTool(proposal.tool.copy(alloc)?)));
    }
    Ok(later_objection(book, proposal))
}

// What is held against a run whose tool is there.
fn later_objection<R: Reading>(book: &R, proposal: &Proposal) -> Option<Denial>
    requires test { IsTest proposal.now.test }
    requires start { proposal.now.start ≤ MAX_MOMENT }
    requires unbooked { IsUnbooked proposal.now.key (R.seen book.now) }
    ensures { result ≡ later_objection (R.in_force book.now) (R.seen book.now) (R.at book.now) proposal.now }
{
    let moment = book.moment();
    if proposal.start < moment {
        return Some(Denial::Past(moment, proposal.start));
    }
    let interval = wanted_interval(proposal);
    let verdict = book.limits().permits(
        &proposal.asker,
        &proposal.test,
        &interval,
        proposal.priority,
    );
    match verdict {
        Verdict::Permitted(_) => conflict(book, proposal, &interval),
        _ => Some(Denial::Limits(verdict)),
    }
}

// The first run that it conflicts with and may not preempt.
fn conflict<R: Reading>(book: &R, proposal: &Proposal, interval: &Interval) -> Option<Denial>
    requires { IsUnbooked proposal.now.key (R.seen book.now) }
    ensures { result ≡ conflict_denial (firm_conflict proposal.now.key (test_class proposal.now.test) interval.now proposal.now.priority (R.at book.now) (R.seen book.now)) }
{
    let class = class_of(&proposal.test);
    match book.firm_conflict(proposal.key, class, interval, proposal.priority) {
        Some(key) => Some(Denial::Conflict(key)),
        None => None,
    }
}

// Whether the tool is installed, and runs the test.
fn has_tool(installed: &[Text], proposal: &Proposal) -> bool
    ensures { result ≡ has_tool installed.now proposal.now }
{
    is_named(installed, proposal.tool.as_str()) && is_tool_for(proposal)
}

fn is_tool_for(proposal: &Proposal) -> bool
    ensures { result ≡ is_tool_for (test_kind proposal.now.test) proposal.now.tool }
{
    match read_tool(proposal.tool.as_str()) {
        Some(tool) => runs(tool, kind_of(&proposal.test)),
        None => false,
    }
}

/// That there is no place for more rows, or that they keep as many bytes of results as a book takes.
pub fn full<R: Reading>(book: &R) -> Option<Denial>
    ensures { result ≡ full_denial (R.seen book.now) (result_bytes (R.seen book.now)) }
{
    let count = book.len();
    if MOST_ROWS <= count {
        return Some(Denial::Full(What::Runs, count as u64));
    }
    let bytes = book.result_bytes();
    if MOST_KEPT_BYTES <= bytes {
        return Some(Denial::Full(What::Results, bytes));
    }
    None
}

/// The first reason for which this host takes no part in the run; none where it fits.
pub fn denial_of<R: Reading>(
    alloc: Global,
    book: &R,
    config: &Config,
    lead: &str,
    proposal: &Proposal,
) -> Result<Option<Denial>, Memory>
    requires test { IsTest proposal.now.test }
    requires start { proposal.now.start ≤ MAX_MOMENT }
    requires unbooked { IsUnbooked proposal.now.key (R.seen book.now) }
    ensures { IfOk result (λ o. o ≡ denial_of (place_in config.now lead.now (R.in_force book.now) (R.seen book.now)) (R.seen book.now) (R.at book.now) proposal.now) }
{
    if !is_participant(&proposal.test, lead, config.name.as_str()) {
        return Ok(Some(Denial::NotParticipant));
    }
    match objection(alloc, book, config.installed.as_slice(), proposal)? {
        Some(denial) => Ok(Some(denial)),
        None => Ok(full(book)),
    }
}
