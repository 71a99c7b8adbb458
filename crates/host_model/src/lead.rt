//! What a lead decides.

use ps_time::interval::Window;
use ps_time::key::RunKey;
use ps_time::moment::Moment;
use ps_time::text::Text;
use run_states::answer::Answer;
use run_states::why::{Denial, Why};

/// The next attempt of a task.
#[derive(Clone, Copy, Debug, PartialEq, Eq)]
pub struct Attempt {
    /// The run of the task, from 0 on.
    pub number: u32,
    /// 0 to 7.
    pub attempt: u16,
    /// The starts to ask about.
    pub window: Window,
}

/// What a run that every participant has answered about comes to.
#[derive(Drop)]
pub enum Planned {
    /// It may start then, with the tool of this name.
    At(Moment, Text),
    NoTool,
    NoSlot,
}

/// What an answer to an order says.
#[derive(Drop)]
pub enum Meaning {
    /// A fact that the run's row keeps.
    Told(Answer),
    /// The participant denies the question or the proposal.
    Denied(Denial),
    /// The participant no longer holds the run that was confirmed.
    Lost,
    /// Nothing that matters.
    Nothing,
}

/// What becomes of what an answer says.
#[derive(Drop)]
pub enum LeadMove {
    /// The fact is kept.
    Keep,
    /// It is kept, and confirms the run.
    KeepAndConfirm,
    /// The run is closed.
    Close(Why),
    /// It is known, or doesn't matter.
    Nothing,
}

/// An attempt at an archiver that may be made.
#[derive(Drop)]
pub struct Due {
    pub key: RunKey,
    /// The position of the archive among those of the task.
    pub index: u8,
    /// How many attempts were made before.
    pub tried: u32,
    /// The archiver's name.
    pub archiver: Text,
    /// A JSON text.
    pub settings: Text,
    /// The merged result, a JSON text.
    pub merged: Text,
}
