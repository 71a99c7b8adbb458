//! Bytes that are written piece by piece.
ghost use Rattle.std.specs.Prelude.{◌≡◌, [], ◌++◌, OnOk, OnErr, true, false};

use ps_time::memory::Memory;
use std::alloc::Global;
use std::marker::Model;

/// The bytes that were written, and whether memory ran out for some.
#[derive(Drop)]
pub struct Written {
    bytes: Vec<u8>,
    starved: bool,
}

impl Model for Written {
    ghost use Rattle.ps_ports.specs.Memory.{WrittenState};

    ghost Value = { WrittenState };

    ghost view = { λ w. record { bytes = w.bytes.items; starved = w.starved } };
}

impl Written {
    /// These bytes, as if they had been written.
    pub fn new(bytes: Vec<u8>) -> Written
        ensures { result ≡ record { bytes = bytes.items; starved = false } }
    {
        Written {
            bytes,
            starved: false,
        }
    }

    /// Nothing written yet.
    pub fn empty(alloc: Global) -> Written
        ensures { result ≡ record { bytes = []; starved = false } }
    {
        Written::new(Vec::new(alloc))
    }

    /// The bytes that were written.
    pub fn as_slice(&self) -> &[u8]
        ensures { result.now ≡ self.now.bytes }
    {
        self.bytes.as_slice()
    }

    /// Whether an `append` ever found no memory.
    pub fn starved(&self) -> bool
        ensures { result ≡ self.now.starved }
    {
        self.starved
    }

    /// Writes bytes behind the others: all of them, or none where memory runs out.
    pub fn append(&mut self, bytes: &[u8]) -> Result<(), Memory>
        ensures ok { OnOk result (self.new ≡ record { bytes = self.old.bytes ++ bytes.now; starved = self.old.starved }) }
        ensures err { OnErr result (self.new ≡ record { bytes = self.old.bytes; starved = true }) }
    {
        if self.bytes.extend_from_slice(bytes).is_err() {
            self.starved = true;
            return Err(Memory);
        }
        Ok(())
    }
}
