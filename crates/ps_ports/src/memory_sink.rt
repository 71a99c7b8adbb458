//! A sink in memory.
ghost use Rattle.std.specs.Prelude.{◌≡◌, IfOk, IsTrue, IsErr, Some, false, length};
ghost use Rattle.std.specs.Io.{WritesAtMost};
ghost use Rattle.std.specs.Io.KnownBytes.{WriteAppends};
ghost use Rattle.ps_ports.specs.Causes.{HasCause, CountsNothing, counted};
ghost use Rattle.ps_ports.specs.Memory.{no_calls, fails_next, after_write};

use crate::failing_calls::FailingCalls;
use crate::fault::Failed;
use crate::faults::Faults;
use crate::sink::Sink;
use crate::written::Written;
use std::marker::Model;

/// Bytes that were written, and the writes that are to fail. A write that finds no memory fails.
pub struct MemorySink {
    written: Written,
    calls: FailingCalls,
    faults: Faults,
}

impl Model for MemorySink {
    ghost use Rattle.ps_ports.specs.Memory.{SinkState};

    ghost Value = { SinkState };

    ghost view = { λ s. record { written = s.written.bytes; calls = s.calls; faults = s.faults; starved = s.written.starved } };
}

impl Drop for MemorySink {
    fn drop(self) {
        let MemorySink {
            written: _,
            calls: _,
            faults: _,
        } = self;
    }
}

impl MemorySink {
    /// What is written comes after `bytes`. `failing` has the numbers of the writes that are to
    /// fail, the first write being number 1.
    pub fn new(bytes: Vec<u8>, failing: Vec<u64>) -> MemorySink
        ensures { result ≡ record { written = bytes.items; calls = no_calls failing.items; faults = 0; starved = false } }
    {
        MemorySink {
            written: Written::new(bytes),
            calls: FailingCalls::new(failing),
            faults: Faults::none(),
        }
    }

    /// The bytes that were written, behind those that the sink was made with.
    pub fn written(&self) -> &[u8]
        ensures { result.now ≡ self.now.written }
    {
        self.written.as_slice()
    }

    /// How many writes were made.
    pub fn calls(&self) -> u64
        ensures { result ≡ self.now.calls.made }
    {
        self.calls.made()
    }

    /// How many writes failed.
    pub fn faults(&self) -> u64
        ensures { result ≡ self.now.faults }
    {
        self.faults.count()
    }

    /// Whether a write ever found no memory.
    pub fn starved(&self) -> bool
        ensures { result ≡ self.now.starved }
    {
        self.written.starved()
    }
}

impl Sink for MemorySink {
    ghost use Rattle.std.specs.Prelude.{◌≡◌, Some, refl};
    ghost use Rattle.std.proofs.Common.{◌∙◌};
    ghost use Rattle.ps_ports.specs.Causes.{counted, counted_fits};

    ghost written = { λ s. Some s.written };

    ghost write_faults = { λ s. counted s.faults };

    ghost sink_kept = { λ a b. b.calls.failing ≡ a.calls.failing };

    fn write(&mut self, bytes: &[u8]) -> Result<usize, Failed>
        ensures bound { WritesAtMost result bytes.now }
        ensures bytes { WriteAppends (Some self.old.written) (Some self.new.written) result bytes.now }
        ensures cause { HasCause (counted self.old.faults) (counted self.new.faults) result }
        ensures nothing { CountsNothing (counted self.old.faults) (counted self.new.faults) result bytes.now }
        ensures kept { self.new.calls.failing ≡ self.old.calls.failing }

        // A write that is to fail does, and each other one takes the whole piece or finds no memory.
        ensures fails { IsTrue (fails_next self.old.calls) → IsErr result }
        ensures count { IfOk result (λ n. n ≡ length bytes.now) }
        ensures after { self.new ≡ after_write self.old bytes.now result }
    {
        if self.calls.next_fails() || self.written.append(bytes).is_err() {
            self.faults.raise();
            return Err(Failed);
        }
        Ok(bytes.len())
    }

    ghost sink_kept_refl = { λ _. refl };

    ghost sink_kept_trans = { λ _ _ _ p q. q ∙ p };

    ghost write_faults_fit = { λ s. counted_fits s.faults };
}
