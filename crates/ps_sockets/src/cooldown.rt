//! Peers that aren't asked for a while.
ghost use Rattle.std.specs.Prelude.{◌≤◌, length};

use crate::deadline::Deadline;
use ps_time::memory::Memory;
use ps_time::text::Text;
use std::alloc::Global;
use std::time::Duration;

/// How many peers rest at once at most.
pub const MOST_RESTS: usize = 64;

#[derive(Drop)]
struct Rest {
    authority: Text,
    until: Deadline,
}

impl Rest {
    fn covers(&self, authority: &str, now: Duration) -> bool {
        self.authority.is(authority) && !self.is_over(now)
    }

    fn is_over(&self, now: Duration) -> bool {
        self.until.left(now).is_none()
    }
}

/// The peers that rest, the one that rests longest first: at most `MOST_RESTS`.
#[derive(Drop)]
pub struct Cooldown {
    rests: Vec<Rest>,
    ghost bounded: { length rests.items ≤ 64 },
}

impl Cooldown {
    /// No peer rests.
    pub fn new(alloc: Global) -> Cooldown {
        Cooldown {
            rests: Vec::new(alloc),
        }
    }

    /// Whether the peer rests.
    pub fn covers(&self, authority: &str, now: Duration) -> bool {
        for rest in self.rests.as_slice() {
            if rest.covers(authority, now) {
                return true;
            }
        }
        false
    }

    /// Has the peer rest until then. Where too many rest, the one that rests longest is asked again.
    pub fn begin(
        &mut self,
        alloc: Global,
        authority: &str,
        now: Duration,
        until: Deadline,
    ) -> Result<(), Memory> {
        let authority = Text::new(alloc, authority)?;
        self.let_go(now);
        if self.rests.len() == MOST_RESTS {
            drop(self.rests.remove(0));
        }
        self.rests.push(Rest { authority, until })?;
        Ok(())
    }

    // Those whose rest is over.
    fn let_go(&mut self, now: Duration) {
        let mut place = 0;
        while place < self.rests.len() {
            if self.rests[place].is_over(now) {
                drop(self.rests.remove(place));
            } else {
                place += 1;
            }
        }
    }
}
