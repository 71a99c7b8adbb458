//! A change with all that a book needs to take it in.
ghost use Rattle.std.specs.Prelude.{◌≡◌, [], IfOk, map, vec_capacity};
ghost use Rattle.host_model.specs.NewRow.{all_unheard, unheard};
ghost use Rattle.run_states.specs.ResultBytes.{bytes_in};
ghost use Rattle.host_book.specs.Ready.{HasPlaces, IsReady, brought_bytes, others_for};

use crate::merging::archive_places;
use archive_retry::state::ArchiveState;
use host_model::change::Change;
use ps_time::items::Items;
use ps_time::memory::Memory;
use ps_time::text::Text;
use run_states::answer::Other;
use std::alloc::Global;

/// A change with what it needs beside what it says, made beforehand.
#[derive(Drop)]
pub struct Ready {
    pub change: Change,
    /// What a run that is asked about knows of its other participants; else empty.
    pub others: Items<Other>,
    /// Empty, with places for the states of the archives of a run that is merged.
    pub archives: Vec<ArchiveState>,
}

impl Ready {
    /// The change with what it needs.
    pub fn new(alloc: Global, change: Change) -> Result<Ready, Memory>
        ensures change { IfOk result (λ r. r.change ≡ change) }
        ensures ready { IfOk result IsReady }
    {
        match lists(alloc, &change) {
            Ok((others, archives)) => Ok(Ready {
                change,
                others,
                archives,
            }),
            Err(fault) => {
                drop(change);
                Err(fault)
            }
        }
    }
}

fn lists(alloc: Global, change: &Change) -> Result<(Items<Other>, Vec<ArchiveState>), Memory>
    ensures others { IfOk result (λ l. l.0 ≡ others_for change.now) }
    ensures empty { IfOk result (λ l. l.1.items ≡ []) }
    ensures places { IfOk result (λ l. HasPlaces change.now (vec_capacity l.1)) }
{
    let others = others_for(alloc, change)?;
    Ok((others, places_for(alloc, change)?))
}

fn others_for(alloc: Global, change: &Change) -> Result<Items<Other>, Memory>
    ensures { IfOk result (λ others. others ≡ others_for change.now) }
{
    match change {
        Change::Asked { participants, .. } => all_unheard(alloc, participants.as_slice()),
        _ => Ok(Items::new(alloc)),
    }
}

fn places_for(alloc: Global, change: &Change) -> Result<Vec<ArchiveState>, Memory>
    ensures empty { IfOk result (λ states. states.items ≡ []) }
    ensures places { IfOk result (λ states. HasPlaces change.now (vec_capacity states)) }
{
    match change {
        Change::Merged { .. } => archive_places(alloc),
        _ => Ok(Vec::new(alloc)),
    }
}

/// Nothing is known of the participants beside the first, which is the lead.
pub fn all_unheard(alloc: Global, participants: &[Text]) -> Result<Items<Other>, Memory>
    ensures { IfOk result (λ others. others ≡ all_unheard participants.now) }
{
    if participants.len() == 0 {
        return Ok(Items::new(alloc));
    }
    each_unheard(alloc, &participants[1..])
}

fn each_unheard(alloc: Global, participants: &[Text]) -> Result<Items<Other>, Memory>
    ensures { IfOk result (λ others. others ≡ map (λ name. unheard) participants.now) }
{
    let mut others = Vec::new(alloc);
    for _name in participants {
        others.push(unheard())?;
    }
    Ok(Items::from_vec(others))
}

fn unheard() -> Other
    ensures { result ≡ unheard }
{
    Other {
        free: None,
        accepted: false,
        confirm_told: false,
        cancel_told: false,
        material_told: false,
        heard: None,
    }
}

fn bytes_in(text: &Option<Text>) -> u64
    ensures { result ≡ bytes_in text.now }
{
    match text {
        None => 0,
        Some(text) => text.len() as u64,
    }
}

/// How many bytes of results the change brings at most.
pub fn brought_bytes(change: &Change) -> u64
    ensures { result ≡ brought_bytes change.now }
{
    match change {
        Change::Ended { body, .. } => body.len() as u64,
        Change::ResultHeard { result: told, .. } => bytes_in(told),
        Change::Merged { body, .. } => body.len() as u64,
        _ => 0,
    }
}
