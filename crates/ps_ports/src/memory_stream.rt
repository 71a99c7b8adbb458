//! A stream in memory.
ghost use Rattle.std.specs.Prelude.{◌≡◌, [], IfOk, IsTrue, IsErr, is_err, Some, false, length, min};
ghost use Rattle.std.specs.Io.{ReadsAtMost, WritesAtMost};
ghost use Rattle.std.specs.Io.KnownBytes.{ReadConsumes, WriteAppends};
ghost use Rattle.ps_ports.specs.Causes.{HasCause, CountsNothing, counted};
ghost use Rattle.ps_ports.specs.Memory.{no_calls, fails_next, after_read, after_write, source_of, sink_of, with_source, with_sink, ReadKeeps, WriteKeeps};

use crate::failing_calls::FailingCalls;
use crate::fault::Failed;
use crate::faults::Faults;
use crate::sink::Sink;
use crate::source::Source;
use crate::stream::Stream;
use crate::unread::Unread;
use crate::written::Written;
use std::alloc::Global;
use std::marker::Model;

/// Bytes to read, bytes that were written, and the calls that are to fail, reads and writes
/// numbered together. A write that finds no memory fails.
pub struct MemoryStream {
    left: Unread,
    written: Written,
    calls: FailingCalls,
    read_faults: Faults,
    write_faults: Faults,
}

impl Model for MemoryStream {
    ghost use Rattle.ps_ports.specs.Memory.{StreamState};

    ghost Value = { StreamState };

    ghost view = { λ s. record {
      left = s.left;
      written = s.written.bytes;
      calls = s.calls;
      read_faults = s.read_faults;
      write_faults = s.write_faults;
      starved = s.written.starved;
    } };
}

impl Drop for MemoryStream {
    fn drop(self) {
        let MemoryStream {
            left: _,
            written: _,
            calls: _,
            read_faults: _,
            write_faults: _,
        } = self;
    }
}

impl MemoryStream {
    /// `bytes` are to be read, and nothing is written yet. `failing` has the numbers of the calls
    /// that are to fail, the first call being number 1.
    pub fn new(alloc: Global, bytes: Vec<u8>, failing: Vec<u64>) -> MemoryStream
        ensures { result ≡ record {
          left = bytes.items;
          written = [];
          calls = no_calls failing.items;
          read_faults = 0;
          write_faults = 0;
          starved = false;
        } }
    {
        MemoryStream {
            left: Unread::new(bytes),
            written: Written::empty(alloc),
            calls: FailingCalls::new(failing),
            read_faults: Faults::none(),
            write_faults: Faults::none(),
        }
    }

    /// The bytes that are left to read.
    pub fn left(&self) -> &[u8]
        ensures { result.now ≡ self.now.left }
    {
        self.left.as_slice()
    }

    /// The bytes that were written.
    pub fn written(&self) -> &[u8]
        ensures { result.now ≡ self.now.written }
    {
        self.written.as_slice()
    }

    /// How many reads and writes were made.
    pub fn calls(&self) -> u64
        ensures { result ≡ self.now.calls.made }
    {
        self.calls.made()
    }

    /// How many reads failed.
    pub fn read_faults(&self) -> u64
        ensures { result ≡ self.now.read_faults }
    {
        self.read_faults.count()
    }

    /// How many writes failed.
    pub fn write_faults(&self) -> u64
        ensures { result ≡ self.now.write_faults }
    {
        self.write_faults.count()
    }

    /// Whether a write ever found no memory.
    pub fn starved(&self) -> bool
        ensures { result ≡ self.now.starved }
    {
        self.written.starved()
    }
}

impl Source for MemoryStream {
    ghost use Rattle.std.specs.Prelude.{Some};
    ghost use Rattle.ps_ports.specs.Causes.{counted, counted_fits};
    ghost use Rattle.ps_ports.specs.Memory.{ReadKeeps, ReadKeeps-refl, ReadKeeps-trans};

    ghost left = { λ s. Some s.left };

    ghost read_faults = { λ s. counted s.read_faults };

    ghost kept = { ReadKeeps };

    fn read(&mut self, buf: &mut [u8]) -> Result<usize, Failed>
        ensures bound { ReadsAtMost result buf.new }
        ensures bytes { ReadConsumes (Some self.old.left) (Some self.new.left) result buf.new }
        ensures cause { HasCause (counted self.old.read_faults) (counted self.new.read_faults) result }
        ensures kept { ReadKeeps self.old self.new }

        // A read that isn't to fail gives as many bytes as fit.
        ensures fails { is_err result ≡ fails_next self.old.calls }
        ensures count { IfOk result (λ n. n ≡ min (length buf.old) (length self.old.left)) }
        ensures after { self.new ≡ with_source self.old (after_read (source_of self.old) result) }
    {
        if self.calls.next_fails() {
            self.read_faults.raise();
            return Err(Failed);
        }
        Ok(self.left.read(buf))
    }

    ghost kept_refl = { ReadKeeps-refl };

    ghost kept_trans = { ReadKeeps-trans };

    ghost read_faults_fit = { λ s. counted_fits s.read_faults };
}

impl Sink for MemoryStream {
    ghost use Rattle.std.specs.Prelude.{Some};
    ghost use Rattle.ps_ports.specs.Causes.{counted, counted_fits};
    ghost use Rattle.ps_ports.specs.Memory.{WriteKeeps, WriteKeeps-refl, WriteKeeps-trans};

    ghost written = { λ s. Some s.written };

    ghost write_faults = { λ s. counted s.write_faults };

    ghost sink_kept = { WriteKeeps };

    fn write(&mut self, bytes: &[u8]) -> Result<usize, Failed>
        ensures bound { WritesAtMost result bytes.now }
        ensures bytes { WriteAppends (Some self.old.written) (Some self.new.written) result bytes.now }
        ensures cause { HasCause (counted self.old.write_faults) (counted self.new.write_faults) result }
        ensures nothing { CountsNothing (counted self.old.write_faults) (counted self.new.write_faults) result bytes.now }
        ensures kept { WriteKeeps self.old self.new }

        // A write that is to fail does, and each other one takes the whole piece or finds no memory.
        ensures fails { IsTrue (fails_next self.old.calls) → IsErr result }
        ensures count { IfOk result (λ n. n ≡ length bytes.now) }
        ensures after { self.new ≡ with_sink self.old (after_write (sink_of self.old) bytes.now result) }
    {
        if self.calls.next_fails() || self.written.append(bytes).is_err() {
            self.write_faults.raise();
            return Err(Failed);
        }
        Ok(bytes.len())
    }

    ghost sink_kept_refl = { WriteKeeps-refl };

    ghost sink_kept_trans = { WriteKeeps-trans };

    ghost write_faults_fit = { λ s. counted_fits s.write_faults };
}

impl Stream for MemoryStream {
    ghost use Rattle.std.proofs.Common.{ap};
    ghost use Rattle.std.specs.Prelude.{Some};
    ghost use Rattle.ps_ports.specs.Causes.{counted};

    ghost reads_keep = { λ a b k. (ap Some k.written, ap counted k.faults) };

    ghost writes_keep = { λ a b k. (ap Some k.left, ap counted k.faults) };
}
