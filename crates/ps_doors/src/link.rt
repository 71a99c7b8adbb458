//! Links to other hosts.
ghost use Rattle.std.specs.Prelude.{◌≡◌, ◌≤◌, ◌<◌, ◌^◌, ℕ, List, Option, IfOk, length};
ghost use Rattle.ps_doors.specs.Link.{greatest_reply, link_faults_after, answer_of};
ghost use Rattle.ps_doors.specs.Told.{TellsMore};
ghost use Rattle.ps_doors.specs.declared.link.Asked.{Asked as Made};

use ps_time::items::Items;
use ps_time::text::Text;
use std::alloc::Global;
use std::io;
use std::io::ErrorKind;

/// The longest reply, in bytes. What comes behind is cut off. One byte more than the longest response that is read.
pub const MOST_REPLY: usize = 33_570_817;

/// Why a peer gave no reply.
#[derive(Clone, Copy, Debug, PartialEq, Eq)]
pub enum LinkFault {
    /// The link failed, and has counted that.
    Failed,
    Memory,
}

impl From<io::Error> for LinkFault {
    ghost use Rattle.std.specs.Prelude.{◌≡◌};
    ghost use Rattle.std.specs.IoError.{error_kind};
    ghost use Rattle.ps_doors.specs.Link.{link_fault_of};

    ghost from_gives = { λ error fault. fault ≡ link_fault_of (error_kind error) };

    fn from(error: io::Error) -> LinkFault {
        match error.kind() {
            ErrorKind::OutOfMemory => LinkFault::Memory,
            _ => LinkFault::Failed,
        }
    }
}

/// What was asked, and the answer.
pub struct Asked {
    /// The peer, as it was named to the link.
    pub authority: Text,
    pub request: Items<u8>,
    pub answer: Result<Items<u8>, LinkFault>,
}

impl Drop for Asked {
    fn drop(self) {
        let Asked {
            authority: _,
            request: _,
            answer: _,
        } = self;
    }
}

/// What carries requests to peers and brings their replies.
pub trait Link {
    // What was asked so far, each with its answer, where it is told.
    ghost asked: { Self → Option (List Made) };

    // How many calls failed: a `u64` that never falls.
    ghost link_faults: { Self → ℕ };

    /// Sends the bytes of a request to a peer, and answers the bytes that came back up to their end.
    fn ask(&mut self, alloc: Global, authority: &str, request: &[u8]) -> Result<Vec<u8>, LinkFault>
        ensures bound { IfOk result (λ reply. length reply.items ≤ greatest_reply) }
        ensures told { TellsMore (asked self.old) (asked self.new)
            (record { authority = authority.now; request = request.now; answer = answer_of (λ v. v.items) result }) }
        ensures count { link_faults self.new ≡ link_faults_after (link_faults self.old) result }
        ensures later { link_faults self.old ≤ link_faults self.new };

    // The count is a `u64`, at each moment.
    ghost link_faults_fit: { (link : Self) → link_faults link < 2 ^ 64 };
}
