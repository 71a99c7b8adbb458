//! Sources of bytes.
ghost use Rattle.std.specs.Prelude.{◌≡◌, ◌<◌, ◌^◌, ℕ, List, Option, refl};
ghost use Rattle.std.specs.Io.{ReadsAtMost};
ghost use Rattle.std.specs.Io.KnownBytes.{ReadConsumes};
ghost use Rattle.std.proofs.Common.{◌∙◌};
ghost use Rattle.ps_ports.specs.Causes.{HasCause};

use crate::fault::Failed;

/// What bytes are read from.
pub trait Source {
    // The bytes that are left, where the source tells them.
    ghost left: { Self → Option (List ℕ) };

    // How many faults reading has met: a `u64` that never falls.
    ghost read_faults: { Self → ℕ };

    // What a read leaves as it was: of a reference its place, of a stream what was written.
    ghost kept: { Self → Self → Type 0 };

    /// Reads the next bytes to the front of `buf`, and answers how many. 0 for a buffer that isn't
    /// empty is the end of the input. A call that failed has taken nothing.
    fn read(&mut self, buf: &mut [u8]) -> Result<usize, Failed>
        ensures bound { ReadsAtMost result buf.new }
        ensures bytes { ReadConsumes (left self.old) (left self.new) result buf.new }
        ensures cause { HasCause (read_faults self.old) (read_faults self.new) result }
        ensures kept { kept self.old self.new };

    ghost kept_refl: { (a : Self) → kept a a };

    ghost kept_trans: { (a b c : Self) → kept a b → kept b c → kept a c };

    // The count is a `u64`, at each moment.
    ghost read_faults_fit: { (a : Self) → read_faults a < 2 ^ 64 };
}

impl<S: Source> Source for &mut S {
    ghost left = { λ s. S.left s.now };

    ghost read_faults = { λ s. S.read_faults s.now };

    ghost kept = { λ a b. (b.ghost_name ≡ a.ghost_name) × S.kept a.now b.now };

    fn read(&mut self, buf: &mut [u8]) -> Result<usize, Failed> {
        (**self).read(buf)
    }

    ghost kept_refl = { λ a. (refl, S.kept_refl a.now) };

    ghost kept_trans = { λ a b c p q. (q.0 ∙ p.0, S.kept_trans a.now b.now c.now p.1 q.1) };

    ghost read_faults_fit = { λ a. S.read_faults_fit a.now };
}
