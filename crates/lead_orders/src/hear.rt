//! What a lead makes of the answer to one of its orders.
ghost use Rattle.std.specs.Prelude.{◌≡◌, [], IfOk, List, if◌then◌else◌, is_some, ℕ};
ghost use Rattle.std.specs.Option.{option_copied, option_to_list};
ghost use Rattle.run_states.specs.declared.proposal.Proposal.{Proposal as Proposed};
ghost use Rattle.run_states.specs.declared.proposal.Question.{Question as Asked};
ghost use Rattle.host_model.specs.declared.lead.LeadMove.TheVariants as move;
ghost use Rattle.host_model.specs.declared.lead.Meaning.TheVariants as meaning;
ghost use Rattle.host_model.specs.declared.order.OrderBody.TheVariants as order;
ghost use Rattle.host_model.specs.declared.order.PeerAnswer.TheVariants as peer;
ghost use Rattle.host_model.specs.Heard.{changes_of_move, completes, denied_move, denies_question, fact_of, has_told, hear, heard_at, keep_acceptance, keep_unless, lost_move, meaning_of, move_of, name_at, other_at, told_move};
ghost use Rattle.lead_core.specs.Books.{book_of_rows};
ghost use Rattle.lead_orders.specs.Others.{accepted_beside, is_closed_there};

use host_model::change::Change;
use host_model::lead::{LeadMove, Meaning};
use host_model::order::{Order, OrderBody, PeerAnswer};
use host_model::reply::{Outcome, Reply};
use part_core::reading::Reading;
use ps_time::items::Items;
use ps_time::key::RunKey;
use ps_time::memory::Memory;
use ps_time::text::Text;
use run_states::answer::{Answer, Other, Told};
use run_states::row::RunRow;
use run_states::why::{Cause, Denial, Why};
use std::alloc::Global;

/// What an answer to an order changes: a fact that the run's row doesn't keep yet is kept, an acceptance that was the
/// last one missing confirms the run, a denial or a loss closes it, and anything else changes nothing.
pub fn hear<R: Reading>(
    alloc: Global,
    book: &R,
    order: &Order,
    answer: PeerAnswer,
) -> Result<Outcome, Memory>
    ensures { IfOk result (λ outcome. outcome ≡ hear (book_of_rows (R.seen book.now)) order.now answer) }
{
    let said = meaning_of(&order.body, answer);
    let change = match book.find(order.key) {
        Some(row) => heard(alloc, row, order.place, said)?,
        None => {
            drop(said);
            None
        }
    };
    Ok(Outcome {
        reply: Reply::Heard,
        list: listed(alloc, change)?,
    })
}

fn listed(alloc: Global, change: Option<Change>) -> Result<Items<Change>, Memory>
    ensures { IfOk result (λ list. list ≡ option_to_list change) }
{
    let mut list = Items::new(alloc);
    if let Some(change) = change {
        list.push(change)?;
    }
    Ok(list)
}

// What an answer changes that means this: at a row that this host asked about, for a place of another participant.
fn heard(alloc: Global, row: &RunRow, place: u8, said: Meaning) -> Result<Option<Change>, Memory>
    ensures { IfOk result (λ change. option_to_list change ≡ (if is_some row.now.asked then heard_at place said row.now (other_at row.now place) else [])) }
{
    if row.asked.is_none() {
        drop(said);
        return Ok(None);
    }
    match other_at(row, place) {
        Some(other) => heard_of(alloc, row, place, other, said),
        None => {
            drop(said);
            Ok(None)
        }
    }
}

// What is known of the participant at the place; of the lead's own place nothing is kept.
fn other_at(row: &RunRow, place: u8) -> Option<&Other>
    ensures { option_copied result ≡ other_at row.now place }
{
    let others = row.others.as_slice();
    let before = usize::from(place).checked_sub(1)?;
    others.get(before)
}

fn heard_of(
    alloc: Global,
    row: &RunRow,
    place: u8,
    other: &Other,
    said: Meaning,
) -> Result<Option<Change>, Memory>
    ensures { IfOk result (λ change. option_to_list change ≡ changes_of_move row.now.key place said (move_of row.now place other.now said)) }
{
    let chosen = move_of(alloc, row, place, other, &said)?;
    Ok(change_of_move(row.key, place, said, chosen))
}

/// What an answer to an order means: an answer that the order can't have says nothing. Takes no memory.
pub fn meaning_of(body: &OrderBody, answer: PeerAnswer) -> Meaning
    ensures { result ≡ meaning_of body.now answer }
{
    match body {
        OrderBody::Free(_) => meaning_to_question(answer),
        OrderBody::Propose(_) => meaning_to_proposal(answer),
        OrderBody::Confirm => meaning_to_confirmation(answer),
        OrderBody::Cancel => meaning_to_cancellation(answer),
        OrderBody::Material(_) => meaning_to_material(answer),
        OrderBody::Result => meaning_to_collection(answer),
    }
}

fn meaning_to_question(answer: PeerAnswer) -> Meaning
    ensures { (q : Asked) → result ≡ meaning_of (order.Free q) answer }
{
    match answer {
        PeerAnswer::Free(answer) => Meaning::Told(Answer::Free(answer)),
        PeerAnswer::Denied(denial) => denied_question(denial),
        other => nothing(other),
    }
}

// Only limits, and who takes part, are a denial of a question.
fn denied_question(denial: Denial) -> Meaning
    ensures { result ≡ (if denies_question denial then meaning.Denied denial else meaning.Nothing) }
{
    match &denial {
        Denial::Limits(_) | Denial::NotParticipant => Meaning::Denied(denial),
        _ => {
            drop(denial);
            Meaning::Nothing
        }
    }
}

fn meaning_to_proposal(answer: PeerAnswer) -> Meaning
    ensures { (p : Proposed) → result ≡ meaning_of (order.Propose p) answer }
{
    match answer {
        PeerAnswer::Accepted(_) => Meaning::Told(Answer::Accepted),
        PeerAnswer::Denied(denial) => Meaning::Denied(denial),
        other => nothing(other),
    }
}

// A participant that doesn't know the run, or has closed it, no longer holds it.
fn meaning_to_confirmation(answer: PeerAnswer) -> Meaning
    ensures { result ≡ meaning_of order.Confirm answer }
{
    match answer {
        PeerAnswer::Confirmed(_) => Meaning::Told(Answer::Acknowledged(Told::Confirm)),
        PeerAnswer::Unknown => Meaning::Lost,
        PeerAnswer::Denied(denial) => denied_confirmation(denial),
        other => nothing(other),
    }
}

fn denied_confirmation(denial: Denial) -> Meaning
    ensures { result ≡ meaning_of order.Confirm (peer.Denied denial) }
{
    if is_closed(&denial) {
        Meaning::Lost
    } else {
        Meaning::Nothing
    }
}

fn is_closed(denial: &Denial) -> bool
    ensures { result ≡ is_closed_there denial.now }
{
    matches!(denial, Denial::Closed(_))
}

fn meaning_to_cancellation(answer: PeerAnswer) -> Meaning
    ensures { result ≡ meaning_of order.Cancel answer }
{
    match answer {
        PeerAnswer::Dropped => Meaning::Told(Answer::Acknowledged(Told::Cancel)),
        other => nothing(other),
    }
}

fn meaning_to_material(answer: PeerAnswer) -> Meaning
    ensures { (text : List ℕ) → result ≡ meaning_of (order.Material text) answer }
{
    match answer {
        PeerAnswer::MaterialHeard => Meaning::Told(Answer::Acknowledged(Told::Material)),
        other => nothing(other),
    }
}

// A run that is closed there will have no result.
fn meaning_to_collection(answer: PeerAnswer) -> Meaning
    ensures { result ≡ meaning_of order.Result answer }
{
    match answer {
        PeerAnswer::Result(text) => Meaning::Told(Answer::Result(Some(text))),
        PeerAnswer::Denied(denial) => denied_collection(denial),
        other => nothing(other),
    }
}

fn denied_collection(denial: Denial) -> Meaning
    ensures { result ≡ meaning_of order.Result (peer.Denied denial) }
{
    if is_closed(&denial) {
        Meaning::Told(Answer::Result(None))
    } else {
        Meaning::Nothing
    }
}

// An answer that says nothing goes.
fn nothing(_answer: PeerAnswer) -> Meaning
    ensures { result ≡ meaning.Nothing }
{
    Meaning::Nothing
}

/// What becomes of what an answer says, at the row of a run that this host asked about, for the participant at the
/// place, of which this is known.
pub fn move_of(
    alloc: Global,
    row: &RunRow,
    place: u8,
    other: &Other,
    said: &Meaning,
) -> Result<LeadMove, Memory>
    ensures { IfOk result (λ chosen. chosen ≡ move_of row.now place other.now said.now) }
{
    match said {
        Meaning::Told(answer) => Ok(told_move(row, place, other, answer)),
        Meaning::Denied(denial) => denied_move(alloc, row, place, denial),
        Meaning::Lost => Ok(lost_move(row)),
        Meaning::Nothing => Ok(LeadMove::Nothing),
    }
}

fn told_move(row: &RunRow, place: u8, other: &Other, answer: &Answer) -> LeadMove
    ensures { result ≡ told_move row.now place other.now answer.now }
{
    match answer {
        Answer::Free(_) => keep_unless(other.free.is_some()),
        Answer::Accepted => keep_acceptance(row, place, other),
        Answer::Acknowledged(told) => keep_unless(has_told(*told, other)),
        Answer::Result(_) => keep_unless(other.heard.is_some()),
    }
}

fn keep_unless(known: bool) -> LeadMove
    ensures { result ≡ keep_unless known }
{
    if known {
        LeadMove::Nothing
    } else {
        LeadMove::Keep
    }
}

fn keep_acceptance(row: &RunRow, place: u8, other: &Other) -> LeadMove
    ensures { result ≡ keep_acceptance row.now place other.now }
{
    if other.accepted {
        LeadMove::Nothing
    } else if completes(row, place) {
        LeadMove::KeepAndConfirm
    } else {
        LeadMove::Keep
    }
}

/// Whether an acceptance of the participant at the place is the last one that the booked row wants.
#[tactic(auto, using(crate::proofs::OtherLemmas::complete_beside))]
pub fn completes(row: &RunRow, place: u8) -> bool
    ensures { result ≡ completes row.now place }
{
    row.is_booked() && accepted_beside(row.others.as_slice(), place)
}

// Whether each has accepted, but for the one at this place; that of the first is 1.
fn accepted_beside(others: &[Other], place: u8) -> bool
    ensures { result ≡ accepted_beside place 1 others.now }
{
    for (before, other) in others.iter().enumerate() {
        if before + 1 != usize::from(place) && !other.accepted {
            return false;
        }
    }
    true
}

fn has_told(told: Told, other: &Other) -> bool
    ensures { result ≡ has_told told other.now }
{
    match told {
        Told::Confirm => other.confirm_told,
        Told::Cancel => other.cancel_told,
        Told::Material => other.material_told,
    }
}

// A denial closes a row that is neither confirmed nor closed.
fn denied_move(alloc: Global, row: &RunRow, place: u8, denial: &Denial) -> Result<LeadMove, Memory>
    ensures { IfOk result (λ chosen. chosen ≡ denied_move row.now place denial.now) }
{
    if row.confirmed.is_some() || row.closed.is_some() {
        return Ok(LeadMove::Nothing);
    }
    let name = name_at(alloc, row, place)?;
    let denial = denial.copy(alloc)?;
    Ok(LeadMove::Close(Why::Nonstart(Cause::Denied(name, denial))))
}

/// The name of the participant at the place; the empty one where there is none.
pub fn name_at(alloc: Global, row: &RunRow, place: u8) -> Result<Text, Memory>
    ensures { IfOk result (λ name. name ≡ name_at row.now place) }
{
    match row.participants.as_slice().get(usize::from(place)) {
        Some(name) => name.copy(alloc),
        None => Text::new(alloc, ""),
    }
}

// A participant that no longer holds a run that isn't started closes it.
fn lost_move(row: &RunRow) -> LeadMove
    ensures { result ≡ lost_move row.now }
{
    if row.started.is_none() && row.closed.is_none() {
        LeadMove::Close(Why::Canceled)
    } else {
        LeadMove::Nothing
    }
}

/// The change of the run's row that the move makes, if there is one. Takes no memory.
pub fn change_of_move(key: RunKey, place: u8, said: Meaning, chosen: LeadMove) -> Option<Change>
    ensures { option_to_list result ≡ changes_of_move key place said chosen }
{
    match chosen {
        LeadMove::Keep | LeadMove::KeepAndConfirm => kept(key, place, said),
        LeadMove::Close(why) => {
            drop(said);
            Some(Change::Closed { key, why })
        }
        LeadMove::Nothing => {
            drop(said);
            None
        }
    }
}

fn kept(key: RunKey, place: u8, said: Meaning) -> Option<Change>
    ensures { option_to_list result ≡ changes_of_move key place said move.Keep }
{
    match said {
        Meaning::Told(answer) => Some(fact_of(key, place, answer)),
        other => {
            drop(other);
            None
        }
    }
}

fn fact_of(key: RunKey, place: u8, answer: Answer) -> Change
    ensures { result ≡ fact_of key place answer }
{
    match answer {
        Answer::Free(answer) => Change::FreeHeard { key, place, answer },
        Answer::Accepted => Change::AcceptHeard { key, place },
        Answer::Acknowledged(told) => Change::Told { key, place, told },
        Answer::Result(result) => Change::ResultHeard { key, place, result },
    }
}
