//! What a proposal comes to at a participant.
ghost use Rattle.std.specs.Prelude.{◌≡◌, ◌≤◌, ◌↔◌, IfOk};
ghost use Rattle.ps_time.specs.declared.moment.TheConstants.{MAX_MOMENT};
ghost use Rattle.plugin_core.specs.Bounds.{IsTest};
ghost use Rattle.plugin_core.specs.Participants.{participants};
ghost use Rattle.run_states.specs.Life.{closed_state};
ghost use Rattle.run_states.specs.Rows.{IsAscendingRows};
ghost use Rattle.run_states.specs.declared.why.Denial.TheVariants.{Closed as ClosedDenial};
ghost use Rattle.host_model.specs.Fits.{denial_of};
ghost use Rattle.host_model.specs.Fitting.{IsAcceptance, MayAccept};
ghost use Rattle.host_model.specs.Propose.{decide, decided_known, decided_new};
ghost use Rattle.part_core.specs.Seen.{IsUnbooked, decided_with, place_in};

use crate::fit::denial_of;
use crate::reading::Reading;
use host_model::config::Config;
use host_model::part::Decision;
use ps_time::boxed::Boxed;
use ps_time::memory::Memory;
use run_states::content::{has_content, proposal_of};
use run_states::life::state_of_closed;
use run_states::proposal::Proposal;
use run_states::row::RunRow;
use run_states::why::{Closing, Denial};
use std::alloc::Global;

/// What a proposal of this lead comes to: the run is new and fits, was accepted before with the same content,
/// or is denied with the first reason. Nothing changes, so a repeated proposal moves no moment.
#[tactic(auto, using(host_model::proofs::FitLemmas::accepts_exactly))]
pub fn decide<R: Reading>(
    alloc: Global,
    book: &R,
    config: &Config,
    lead: &str,
    proposal: &Proposal,
) -> Result<Decision, Memory>
    requires test { IsTest proposal.now.test }
    requires start { proposal.now.start ≤ MAX_MOMENT }
    ensures value { IfOk result (λ d. d ≡ decide (place_in config.now lead.now (R.in_force book.now) (R.seen book.now)) (R.seen book.now) (R.at book.now) proposal.now) }

    // It is accepted exactly where it stands already, or no row has its key and it fits.
    ensures exact { IfOk result (λ d. IsAcceptance d ↔ MayAccept (place_in config.now lead.now (R.in_force book.now) (R.seen book.now)) (R.seen book.now) (R.at book.now) proposal.now) }
{
    decided(alloc, book, config, lead, proposal)
}

// `decide`, with the order of the rows.
fn decided<R: Reading>(
    alloc: Global,
    book: &R,
    config: &Config,
    lead: &str,
    proposal: &Proposal,
) -> Result<Decision, Memory>
    requires test { IsTest proposal.now.test }
    requires start { proposal.now.start ≤ MAX_MOMENT }
    ensures value { IfOk result (λ d. d ≡ decide (place_in config.now lead.now (R.in_force book.now) (R.seen book.now)) (R.seen book.now) (R.at book.now) proposal.now) }
    ensures ascending { IsAscendingRows (R.seen book.now) }
{
    match book.find(proposal.key) {
        Some(row) => decide_known(alloc, row, lead, proposal),
        None => decide_new(alloc, book, config, lead, proposal),
    }
}

// What it comes to where no row has its key.
fn decide_new<R: Reading>(
    alloc: Global,
    book: &R,
    config: &Config,
    lead: &str,
    proposal: &Proposal,
) -> Result<Decision, Memory>
    requires test { IsTest proposal.now.test }
    requires start { proposal.now.start ≤ MAX_MOMENT }
    requires unbooked { IsUnbooked proposal.now.key (R.seen book.now) }
    ensures { IfOk result (λ d. d ≡ decided_new (denial_of (place_in config.now lead.now (R.in_force book.now) (R.seen book.now)) (R.seen book.now) (R.at book.now) proposal.now)) }
{
    match denial_of(alloc, book, config, lead, proposal)? {
        Some(denial) => Ok(Decision::Denied(denial)),
        None => Ok(Decision::New),
    }
}

// What it comes to where this row has its key.
fn decide_known(
    alloc: Global,
    row: &RunRow,
    lead: &str,
    proposal: &Proposal,
) -> Result<Decision, Memory>
    ensures { IfOk result (λ d. d ≡ decided_with row.now (participants proposal.now.test lead.now) proposal.now) }
{
    if has_content(row, proposal, lead) {
        return Ok(decided_before(row));
    }
    let kept = Boxed::new(alloc, proposal_of(alloc, row)?)?;
    let sent = Boxed::new(alloc, proposal.copy(alloc)?)?;
    Ok(Decision::Denied(Denial::Differs(kept, sent)))
}

// What a proposal comes to whose content the row has.
fn decided_before(row: &RunRow) -> Decision
    ensures { result ≡ decided_known row.now row.now.closed }
{
    match &row.closed {
        Some(closing) => Decision::Denied(closed(closing)),
        None => Decision::Known(row.accepted.unwrap_or(0)),
    }
}

fn closed(closing: &Closing) -> Denial
    ensures { result ≡ ClosedDenial (closed_state closing.now.why) }
{
    Denial::Closed(state_of_closed(&closing.why))
}
