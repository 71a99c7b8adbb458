//! What is done with streams.
use crate::workers::token::Count;
use door_workers::Attendant;
use ps_ports::memory_stream::MemoryStream;
use ps_ports::sink::Sink;
use ps_ports::source::Source;
use ps_time::text::Text;
use std::sync::atomic::{AtomicU64, Ordering};
use std::thread;

// How often a flag is looked at before it counts as missed: seconds of looks.
const LOOKS: u32 = 5_000_000;

// Waits for a flag, and gives up after many looks.
fn is_raised(flag: &AtomicU64) -> bool {
    for _ in 0..LOOKS {
        if flag.load(Ordering::SeqCst) != 0 {
            return true;
        }
        thread::yield_now();
    }
    false
}

fn first_byte(stream: &mut MemoryStream) -> u8 {
    let mut buf = [0];
    let _ = stream.read(&mut buf);
    buf[0]
}

/// Reads a byte of each stream, and writes it back.
#[derive(Drop)]
pub struct Echo {}

impl Attendant<MemoryStream, Count> for Echo {
    ghost use Rattle.std.specs.Prelude.{◌≤◌, ⊤};

    ghost fits = { λ _ _. ⊤ };

    ghost attended = { λ _ t _ _ _ u. t.count ≤ u.count };

    fn attend(&self, token: &mut Count, stream: &mut MemoryStream, address: Text) {
        drop(address);
        let byte = first_byte(stream);
        let _ = stream.write(&[byte]);
        token.raise();
    }

    ghost attended_later = { λ _ _ _ _ _ _ e. e };
}

/// Holds each of two streams, which have the bytes 0 and 1, until the other's was read.
pub struct Meeting {
    pub first: AtomicU64,
    pub second: AtomicU64,
    pub missed: AtomicU64,
}

impl Drop for Meeting {
    fn drop(self) {
        let Meeting {
            first: _,
            second: _,
            missed: _,
        } = self;
    }
}

impl Attendant<MemoryStream, Count> for Meeting {
    ghost use Rattle.std.specs.Prelude.{◌≤◌, ⊤};

    ghost fits = { λ _ _. ⊤ };

    ghost attended = { λ _ t _ _ _ u. t.count ≤ u.count };

    fn attend(&self, token: &mut Count, stream: &mut MemoryStream, address: Text) {
        drop(address);
        let (mine, other) = if first_byte(stream) == 0 {
            (&self.first, &self.second)
        } else {
            (&self.second, &self.first)
        };
        mine.store(1, Ordering::SeqCst);
        if !is_raised(other) {
            self.missed.fetch_add(1, Ordering::SeqCst);
        }
        token.raise();
    }

    ghost attended_later = { λ _ _ _ _ _ _ e. e };
}

/// Holds each stream until a round was made.
#[derive(Drop)]
pub struct Held<'a> {
    pub rounds: &'a AtomicU64,
    pub missed: &'a AtomicU64,
}

impl<'a> Attendant<MemoryStream, Count> for Held<'a> {
    ghost use Rattle.std.specs.Prelude.{◌≤◌, ⊤};

    ghost fits = { λ _ _. ⊤ };

    ghost attended = { λ _ t _ _ _ u. t.count ≤ u.count };

    fn attend(&self, token: &mut Count, stream: &mut MemoryStream, address: Text) {
        drop(address);
        let _ = first_byte(stream);
        if !is_raised(self.rounds) {
            self.missed.fetch_add(1, Ordering::SeqCst);
        }
        token.raise();
    }

    ghost attended_later = { λ _ _ _ _ _ _ e. e };
}
