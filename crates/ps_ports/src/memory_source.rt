//! A source in memory.
ghost use Rattle.std.specs.Prelude.{◌≡◌, IfOk, Some, is_err, length, min};
ghost use Rattle.std.specs.Io.{ReadsAtMost};
ghost use Rattle.std.specs.Io.KnownBytes.{ReadConsumes};
ghost use Rattle.ps_ports.specs.Causes.{HasCause, counted};
ghost use Rattle.ps_ports.specs.Memory.{no_calls, fails_next, after_read};

use crate::failing_calls::FailingCalls;
use crate::fault::Failed;
use crate::faults::Faults;
use crate::source::Source;
use crate::unread::Unread;
use std::marker::Model;

/// Bytes to read, and the reads that are to fail.
pub struct MemorySource {
    left: Unread,
    calls: FailingCalls,
    faults: Faults,
}

impl Model for MemorySource {
    ghost use Rattle.ps_ports.specs.Memory.{SourceState};

    ghost Value = { SourceState };

    ghost view = { λ s. record { left = s.left; calls = s.calls; faults = s.faults } };
}

impl Drop for MemorySource {
    fn drop(self) {
        let MemorySource {
            left: _,
            calls: _,
            faults: _,
        } = self;
    }
}

impl MemorySource {
    /// `failing` has the numbers of the reads that are to fail, the first read being number 1.
    pub fn new(bytes: Vec<u8>, failing: Vec<u64>) -> MemorySource
        ensures { result ≡ record { left = bytes.items; calls = no_calls failing.items; faults = 0 } }
    {
        MemorySource {
            left: Unread::new(bytes),
            calls: FailingCalls::new(failing),
            faults: Faults::none(),
        }
    }

    /// The bytes that are left.
    pub fn left(&self) -> &[u8]
        ensures { result.now ≡ self.now.left }
    {
        self.left.as_slice()
    }

    /// How many reads were made.
    pub fn calls(&self) -> u64
        ensures { result ≡ self.now.calls.made }
    {
        self.calls.made()
    }

    /// How many reads failed.
    pub fn faults(&self) -> u64
        ensures { result ≡ self.now.faults }
    {
        self.faults.count()
    }
}

impl Source for MemorySource {
    ghost use Rattle.std.specs.Prelude.{◌≡◌, Some, refl};
    ghost use Rattle.std.proofs.Common.{◌∙◌};
    ghost use Rattle.ps_ports.specs.Causes.{counted, counted_fits};

    ghost left = { λ s. Some s.left };

    ghost read_faults = { λ s. counted s.faults };

    ghost kept = { λ a b. b.calls.failing ≡ a.calls.failing };

    fn read(&mut self, buf: &mut [u8]) -> Result<usize, Failed>
        ensures bound { ReadsAtMost result buf.new }
        ensures bytes { ReadConsumes (Some self.old.left) (Some self.new.left) result buf.new }
        ensures cause { HasCause (counted self.old.faults) (counted self.new.faults) result }
        ensures kept { self.new.calls.failing ≡ self.old.calls.failing }

        // A read that isn't to fail gives as many bytes as fit.
        ensures fails { is_err result ≡ fails_next self.old.calls }
        ensures count { IfOk result (λ n. n ≡ min (length buf.old) (length self.old.left)) }
        ensures after { self.new ≡ after_read self.old result }
    {
        if self.calls.next_fails() {
            self.faults.raise();
            return Err(Failed);
        }
        Ok(self.left.read(buf))
    }

    ghost kept_refl = { λ _. refl };

    ghost kept_trans = { λ _ _ _ p q. q ∙ p };

    ghost read_faults_fit = { λ s. counted_fits s.faults };
}
