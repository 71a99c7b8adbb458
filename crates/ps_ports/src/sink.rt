//! Sinks of bytes.
ghost use Rattle.std.specs.Prelude.{◌≡◌, ◌<◌, ◌^◌, ℕ, List, Option, refl};
ghost use Rattle.std.specs.Io.{WritesAtMost};
ghost use Rattle.std.specs.Io.KnownBytes.{WriteAppends};
ghost use Rattle.std.proofs.Common.{◌∙◌};
ghost use Rattle.ps_ports.specs.Causes.{HasCause, CountsNothing};

use crate::fault::Failed;

/// What bytes are written to.
pub trait Sink {
    // The bytes that were written, where the sink tells them.
    ghost written: { Self → Option (List ℕ) };

    // How many faults writing has met: a `u64` that never falls.
    ghost write_faults: { Self → ℕ };

    // What a write leaves as it was: of a reference its place, of a stream what is left to read.
    ghost sink_kept: { Self → Self → Type 0 };

    /// Writes some bytes of the front of `bytes`, and answers how many. 0 of a piece that isn't
    /// empty is counted as a fault. A call that failed has written nothing.
    fn write(&mut self, bytes: &[u8]) -> Result<usize, Failed>
        ensures bound { WritesAtMost result bytes.now }
        ensures bytes { WriteAppends (written self.old) (written self.new) result bytes.now }
        ensures cause { HasCause (write_faults self.old) (write_faults self.new) result }
        ensures nothing { CountsNothing (write_faults self.old) (write_faults self.new) result bytes.now }
        ensures kept { sink_kept self.old self.new };

    ghost sink_kept_refl: { (a : Self) → sink_kept a a };

    ghost sink_kept_trans: { (a b c : Self) → sink_kept a b → sink_kept b c → sink_kept a c };

    // The count is a `u64`, at each moment.
    ghost write_faults_fit: { (a : Self) → write_faults a < 2 ^ 64 };
}

impl<S: Sink> Sink for &mut S {
    ghost written = { λ s. S.written s.now };

    ghost write_faults = { λ s. S.write_faults s.now };

    ghost sink_kept = { λ a b. (b.ghost_name ≡ a.ghost_name) × S.sink_kept a.now b.now };

    fn write(&mut self, bytes: &[u8]) -> Result<usize, Failed> {
        (**self).write(bytes)
    }

    ghost sink_kept_refl = { λ a. (refl, S.sink_kept_refl a.now) };

    ghost sink_kept_trans = { λ a b c p q. (q.0 ∙ p.0, S.sink_kept_trans a.now b.now c.now p.1 q.1) };

    ghost write_faults_fit = { λ a. S.write_faults_fit a.now };
}
