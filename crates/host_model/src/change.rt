//! Changes of a book, as data.

use crate::task_row::TaskRow;
use archive_retry::state::ArchiveState;
use limit_apply::limits::Limits;
use ps_time::asker::Asker;
use ps_time::boxed::Boxed;
use ps_time::items::Items;
use ps_time::key::RunKey;
use ps_time::moment::Moment;
use ps_time::text::Text;
use run_states::answer::{FreeAnswer, Told};
use run_states::proposal::{Proposal, Question};
use run_states::why::Why;

/// One change of a book. Where it names a place, that is the position of another participant among those of the run. What is large
/// has a place of its own, so that all changes stay small.
#[derive(Drop)]
pub enum Change {
    /// A task is kept.
    Posted(Boxed<TaskRow>),
    /// The task of this serial is canceled.
    TaskClosed(u32),
    /// A proposal is accepted: it gets a row, and each booked row in conflict with it is preempted.
    Accepted {
        proposal: Boxed<Proposal>,
        /// The names of the hosts that take part, the lead's first.
        participants: Items<Text>,
        /// The number of the limits under which it was accepted; 0 where the book had none.
        epoch: u32,
    },
    /// The lead asks when the participants are free for a run, which gets a row.
    Asked {
        question: Boxed<Question>,
        /// The names of the hosts that take part, the lead's first.
        participants: Items<Text>,
        asker: Asker,
    },
    /// The lead accepts a run that it had asked about: each booked row in conflict with it is preempted, and it is
    /// confirmed where the lead is alone.
    Planned {
        key: RunKey,
        start: Moment,
        tool: Text,
        /// The number of the limits under which it was accepted; 0 where the book had none.
        epoch: u32,
    },
    Confirmed(RunKey),
    Closed {
        key: RunKey,
        why: Why,
    },
    Started(RunKey),
    Ended {
        key: RunKey,
        good: bool,
        /// The result, a JSON text.
        body: Text,
    },
    /// A participant told when it is free.
    FreeHeard {
        key: RunKey,
        place: u8,
        answer: FreeAnswer,
    },
    /// A participant accepted; where it is the last one to, the run is confirmed.
    AcceptHeard {
        key: RunKey,
        place: u8,
    },
    /// A participant acknowledged what it was told.
    Told {
        key: RunKey,
        place: u8,
        told: Told,
    },
    /// The material of the run has come.
    MaterialHeard(RunKey),
    /// A participant told its result, or that it will have none.
    ResultHeard {
        key: RunKey,
        place: u8,
        result: Option<Text>,
    },
    /// The results were merged into this JSON text, and are due at each archiver of the task.
    Merged {
        key: RunKey,
        body: Text,
    },
    /// An archiver was tried.
    Tried {
        key: RunKey,
        /// The position of the archive among those of the task.
        index: u8,
        state: ArchiveState,
    },
    /// The limits from now on: a new epoch.
    LimitsSet(Boxed<Limits>),
    /// The row of a run that is long past goes.
    Purged(RunKey),
}

/// Changes of one step, in order.
#[derive(Drop)]
pub struct Changes {
    /// The moment of the step, in seconds since 1970 UTC.
    pub moment: Moment,
    pub list: Items<Change>,
}
