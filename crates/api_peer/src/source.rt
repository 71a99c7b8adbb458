//! Bytes that are whole in memory, as a source.
ghost use Rattle.std.specs.Prelude.{◌≡◌};

use ps_ports::fault::Failed;
use ps_ports::source::Source;
use std::marker::Model;

/// The bytes that are left. No read of it fails.
#[derive(Drop)]
pub struct WholeSource<'a> {
    left: &'a [u8],
}

impl<'a> Model for WholeSource<'a> {
    ghost use Rattle.std.specs.Prelude.{ℕ, List};

    ghost Value = { List ℕ };

    ghost view = { λ s. s.left.now };
}

impl<'a> WholeSource<'a> {
    /// A source of these bytes, none of which is read yet.
    pub fn new(bytes: &'a [u8]) -> WholeSource<'a>
        ensures { result ≡ bytes.now }
    {
        WholeSource { left: bytes }
    }
}

impl<'a> Source for WholeSource<'a> {
    ghost use Rattle.std.specs.Prelude.{Some};
    ghost use Rattle.std.proofs.Common.{arith};

    ghost left = { λ s. Some s };

    ghost read_faults = { λ _. 0 };

    ghost kept = { λ _ _. Unit {0} };

    fn read(&mut self, buf: &mut [u8]) -> Result<usize, Failed> {
        let left = self.left;
        let count = buf.len().min(left.len());
        buf[..count].copy_from_slice(&left[..count]);
        self.left = &left[count..];
        Ok(count)
    }

    ghost kept_refl = { λ _. tt };

    ghost kept_trans = { λ _ _ _ _ _. tt };

    ghost read_faults_fit = { λ _. omega arith };
}
