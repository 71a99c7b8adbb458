//! Rounds that tell of themselves.
use crate::workers::token::Count;
use door_workers::Rounds;
use std::sync::atomic::{AtomicU64, Ordering};

/// Rounds that are counted where others see it.
#[derive(Drop)]
pub struct Beats<'a> {
    pub made: &'a AtomicU64,
}

impl<'a> Rounds<Count> for Beats<'a> {
    ghost use Rattle.std.specs.Prelude.{◌≤◌, ⊤};
    ghost use Rattle.std.proofs.Common.{arith};

    ghost fits = { λ _ _. ⊤ };

    ghost rounded = { λ _ t _ u. t.count ≤ u.count };

    fn round(&mut self, token: &mut Count) {
        self.made.fetch_add(1, Ordering::SeqCst);
        token.raise();
    }

    ghost rounded_refl = { λ _ _. Prim.omega arith };

    ghost rounded_trans = { λ _ _ _ _ _ _ p q. Prim.omega arith };
}
