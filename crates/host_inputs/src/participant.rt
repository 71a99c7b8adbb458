//! What the lead of a run asks of another participant. Whoever isn't the lead of the key is told so, and nothing changes.
ghost use Rattle.std.specs.Prelude.{◌≡◌, ◌≤◌, IfOk, length};
ghost use Rattle.std.specs.Option.{option_copied};
ghost use Rattle.ps_time.specs.declared.moment.TheConstants.{MAX_MOMENT};
ghost use Rattle.plugin_core.specs.Bounds.{IsTest};
ghost use Rattle.host_model.specs.Book.{limits_in};
ghost use Rattle.host_model.specs.Collect.{collect, hear_material};
ghost use Rattle.host_model.specs.Confirm.{confirm, drop_run, part_reply};
ghost use Rattle.host_model.specs.Fits.{place_of};
ghost use Rattle.host_model.specs.FreeStarts.{free, free_here};
ghost use Rattle.host_model.specs.Propose.{decide, decided_outcome, find_peer, lead_name, propose};
ghost use Rattle.host_inputs.specs.Kept.{book_of};
ghost use Rattle.lead_core.specs.Books.{book_of_rows};

use crate::booking::acceptance;
use crate::hosting::Hosting;
use crate::outcome::{answered, listed, one};
use host_model::config::{Config, Peer};
use host_model::part::{Decision, PartReply};
use host_model::reply::{Outcome, Reply};
use part_core::answer::{answer_free, collect as result_of, hear_material as material_at};
use part_core::confirm::{cancel, cancel_change, confirm as confirm_reply, confirm_change};
use part_core::decision::decide;
use part_core::reading::Reading;
use plugin_core::participants::is_participant;
use ps_time::key::RunKey;
use ps_time::memory::Memory;
use ps_time::text::Text;
use run_states::proposal::{Proposal, Question};
use run_states::why::Denial;
use std::alloc::Global;

/// The name of the sender, where it is a peer and the lead of the key.
pub fn lead_name(config: &Config, sender: u16, key: RunKey) -> Option<&Text>
    ensures { option_copied result ≡ lead_name config.now sender key }
{
    if key.lead != sender {
        return None;
    }
    let peer = find_peer(config.peers.as_slice(), sender)?;
    Some(&peer.name)
}

fn find_peer(peers: &[Peer], number: u16) -> Option<&Peer>
    ensures { option_copied result ≡ find_peer peers.now number }
{
    for peer in peers {
        if peer.number == number {
            return Some(peer);
        }
    }
    None
}

/// When this host is free for a run: only a participant answers.
pub fn free<R: Reading>(
    alloc: Global,
    book: &R,
    config: &Config,
    sender: u16,
    question: &Question,
) -> Result<Outcome, Memory>
    requires { IsTest question.now.test }
    ensures { IfOk result (λ o. o ≡ free config.now (book_of_rows (R.seen book.now)) (R.at book.now) sender question.now) }
{
    match lead_name(config, sender, question.key) {
        Some(lead) => free_here(alloc, book, config, lead.as_str(), question),
        None => Ok(answered(alloc, Reply::NotLead)),
    }
}

fn free_here<R: Reading>(
    alloc: Global,
    book: &R,
    config: &Config,
    lead: &str,
    question: &Question,
) -> Result<Outcome, Memory>
    requires { IsTest question.now.test }
    ensures { IfOk result (λ o. o ≡ free_here config.now (book_of_rows (R.seen book.now)) (R.at book.now) question.now lead.now) }
{
    if !is_participant(&question.test, lead, config.name.as_str()) {
        return Ok(answered(alloc, Reply::Denied(Denial::NotParticipant)));
    }
    let answer = answer_free(alloc, book, config.installed.as_slice(), question)?;
    Ok(answered(alloc, Reply::Free(answer)))
}

/// What a proposal comes to: a run that is new and fits is accepted under the limits in force, one that stands is told
/// its moment, any other is denied with the first reason.
pub fn propose<R: Hosting>(
    alloc: Global,
    book: &R,
    config: &Config,
    sender: u16,
    proposal: Proposal,
) -> Result<Outcome, Memory>
    requires test { IsTest proposal.test }
    requires start { proposal.start ≤ MAX_MOMENT }
    requires limits { limits_in config.now (book_of (R.at book.now) (R.seen book.now) (R.kept book.now)) ≡ R.in_force book.now }
    requires epoch { length (R.kept book.now).epochs ≡ R.latest book.now }
    ensures { IfOk result (λ o. o ≡ propose config.now (book_of (R.at book.now) (R.seen book.now) (R.kept book.now)) (R.at book.now) sender proposal) }
{
    match lead_name(config, sender, proposal.key) {
        Some(lead) => decide_proposal(alloc, book, config, lead.as_str(), proposal),
        None => {
            drop(proposal);
            Ok(answered(alloc, Reply::NotLead))
        }
    }
}

fn decide_proposal<R: Hosting>(
    alloc: Global,
    book: &R,
    config: &Config,
    lead: &str,
    proposal: Proposal,
) -> Result<Outcome, Memory>
    requires test { IsTest proposal.test }
    requires start { proposal.start ≤ MAX_MOMENT }
    requires limits { limits_in config.now (book_of (R.at book.now) (R.seen book.now) (R.kept book.now)) ≡ R.in_force book.now }
    requires epoch { length (R.kept book.now).epochs ≡ R.latest book.now }
    ensures { IfOk result (λ o. o ≡ decided_outcome (book_of (R.at book.now) (R.seen book.now) (R.kept book.now)) (R.at book.now) lead.now proposal
        (decide (place_of config.now (book_of (R.at book.now) (R.seen book.now) (R.kept book.now)) lead.now) (R.seen book.now) (R.at book.now) proposal)) }
{
    let decision = decide(alloc, book, config, lead, &proposal)?;
    decided(alloc, book, lead, proposal, decision)
}

// What a decision on a proposal of this lead is answered, and changes.
fn decided<R: Hosting>(
    alloc: Global,
    book: &R,
    lead: &str,
    proposal: Proposal,
    decision: Decision,
) -> Result<Outcome, Memory>
    requires epoch { length (R.kept book.now).epochs ≡ R.latest book.now }
    ensures { IfOk result (λ o. o ≡ decided_outcome (book_of (R.at book.now) (R.seen book.now) (R.kept book.now)) (R.at book.now) lead.now proposal decision) }
{
    match decision {
        Decision::New => {
            let list = one(alloc, acceptance(alloc, book, lead, proposal)?)?;
            let reply = Reply::Accepted(book.moment());
            Ok(Outcome { reply, list })
        }
        Decision::Known(accepted) => {
            drop(proposal);
            Ok(answered(alloc, Reply::Accepted(accepted)))
        }
        Decision::Denied(denial) => {
            drop(proposal);
            Ok(answered(alloc, Reply::Denied(denial)))
        }
    }
}

/// What a confirmation comes to.
pub fn confirm<R: Reading>(
    alloc: Global,
    book: &R,
    config: &Config,
    sender: u16,
    key: RunKey,
) -> Result<Outcome, Memory>
    ensures { IfOk result (λ o. o ≡ confirm config.now (book_of_rows (R.seen book.now)) (R.at book.now) sender key) }
{
    if lead_name(config, sender, key).is_none() {
        return Ok(answered(alloc, Reply::NotLead));
    }
    let list = listed(alloc, confirm_change(book, key))?;
    let reply = part_reply(confirm_reply(alloc, book, key)?);
    Ok(Outcome { reply, list })
}

fn part_reply(reply: PartReply) -> Reply
    ensures { result ≡ part_reply reply }
{
    match reply {
        PartReply::Confirmed(moment) => Reply::Confirmed(moment),
        PartReply::Closed(why) => Reply::Closed(why),
        PartReply::Unknown => Reply::Unknown,
        PartReply::Dropped => Reply::Dropped,
    }
}

/// What a cancellation by the lead comes to.
pub fn drop_run<R: Reading>(
    alloc: Global,
    book: &R,
    config: &Config,
    sender: u16,
    key: RunKey,
) -> Result<Outcome, Memory>
    ensures { IfOk result (λ o. o ≡ drop_run config.now (book_of_rows (R.seen book.now)) sender key) }
{
    if lead_name(config, sender, key).is_none() {
        return Ok(answered(alloc, Reply::NotLead));
    }
    let list = listed(alloc, cancel_change(book, key))?;
    let reply = part_reply(cancel(book, key));
    Ok(Outcome { reply, list })
}

/// What a question for this host's result is answered.
pub fn collect<R: Reading>(
    alloc: Global,
    book: &R,
    config: &Config,
    sender: u16,
    key: RunKey,
) -> Result<Outcome, Memory>
    ensures { IfOk result (λ o. o ≡ collect config.now (book_of_rows (R.seen book.now)) (R.at book.now) sender key) }
{
    if lead_name(config, sender, key).is_none() {
        return Ok(answered(alloc, Reply::NotLead));
    }
    Ok(answered(alloc, result_of(alloc, book, key)?))
}

/// What material that comes is answered, and changes.
pub fn hear_material<R: Reading>(
    alloc: Global,
    book: &R,
    config: &Config,
    sender: u16,
    key: RunKey,
) -> Result<Outcome, Memory>
    ensures { IfOk result (λ o. o ≡ hear_material config.now (book_of_rows (R.seen book.now)) sender key) }
{
    if lead_name(config, sender, key).is_none() {
        return Ok(answered(alloc, Reply::NotLead));
    }
    material_at(alloc, book, key)
}
