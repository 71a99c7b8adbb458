//! What a row can get beside the steps of its life.

use crate::answer::Answer;
use archive_retry::state::ArchiveState;
use ps_time::interval::Interval;
use ps_time::items::Items;
use ps_time::text::Text;

/// A fact that a row keeps. A `place` is the position of another participant among those of the run,
/// from 1 on; the lead's is 0.
#[derive(Drop)]
pub enum Fact {
    /// The lead accepts the run that it asked about; where it is the only participant, it confirms it.
    Planned {
        /// The name of the tool.
        tool: Text,
        interval: Interval,
    },
    /// A participant answered. Where it is the last one to accept, the run is confirmed.
    Answered {
        place: u8,
        answer: Answer,
    },
    /// The test's material came.
    MaterialHeard,
    /// The results of all participants were merged.
    Merged {
        /// The merged result, a JSON text.
        body: Text,
        /// The state of each archive of the task, in their order.
        archives: Items<ArchiveState>,
    },
    /// An archiver was tried.
    Tried {
        /// The position of the archive among those of the task, from 0 on.
        index: u8,
        state: ArchiveState,
    },
}
