//! What the workers tell the calling thread, and it tells them.
use std::sync::atomic::{AtomicU64, Ordering};

/// How many doors have ended, and the place of the door that is to stay at the calling thread.
pub struct Board {
    ended: AtomicU64,
    kept: AtomicU64,
}

impl Drop for Board {
    fn drop(self) {
        let Board { ended: _, kept: _ } = self;
    }
}

impl Board {
    /// No door has ended, and each is for a thread.
    pub fn new() -> Board {
        Board {
            ended: AtomicU64::new(0),
            kept: AtomicU64::new(u64::MAX),
        }
    }

    /// Another door has ended.
    pub fn count_end(&self) {
        self.ended.fetch_add(1, Ordering::SeqCst);
    }

    /// Whether so many doors have ended.
    pub fn have_ended(&self, doors: u64) -> bool {
        doors <= self.ended.load(Ordering::SeqCst)
    }

    /// The door at this place stays at the calling thread.
    pub fn keep(&self, place: u64) {
        self.kept.store(place, Ordering::SeqCst);
    }

    /// Whether the door at this place is the one that was kept last.
    pub fn is_kept(&self, place: u64) -> bool {
        self.kept.load(Ordering::SeqCst) == place
    }
}
