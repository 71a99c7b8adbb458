//! A token that counts.
ghost use Rattle.std.specs.Prelude.{◌≤◌};

use door_workers::{Timed, Token};

/// How many streams were attended with it, or how many rounds were made.
#[derive(Drop)]
pub struct Count {
    pub count: u64,
}

impl Timed for Count {
    ghost use Rattle.std.specs.Prelude.{◌≤◌};

    ghost later = { λ a b. a.count ≤ b.count };
}

impl Token for Count {
    ghost use Rattle.std.proofs.Common.{arith};

    ghost later_refl = { λ a. Prim.omega arith };

    ghost later_trans = { λ a b c p q. Prim.omega arith };
}

impl Count {
    pub fn none() -> Count {
        Count { count: 0 }
    }

    /// One more.
    pub fn raise(&mut self)
        ensures { self.old.count ≤ self.new.count }
    {
        self.count = self.count.saturating_add(1);
    }
}
