//! What comes of a step of a host in a rehearsal.

use host_model::reply::Reply;

/// What came of a step.
#[derive(Drop)]
pub enum StepOutcome {
    /// It stopped, and the host was opened again.
    Crashed,
    /// A call of a disk failed, so that nobody was answered.
    Faulted,
    Answered(Reply),
}
