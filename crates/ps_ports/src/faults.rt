//! Counts of faults.
ghost use Rattle.std.specs.Prelude.{◌≡◌};
ghost use Rattle.ps_ports.specs.Causes.{raised};

use std::marker::Model;

/// How many faults an object has met. At its greatest value the count stands still.
#[derive(Drop)]
pub struct Faults {
    count: u64,
}

impl Model for Faults {
    ghost use Rattle.std.specs.Prelude.{ℕ};

    ghost Value = { ℕ };

    ghost view = { λ f. f.count };
}

impl Faults {
    /// No fault yet.
    pub fn none() -> Faults
        ensures { result ≡ 0 }
    {
        Faults { count: 0 }
    }

    /// How many faults there were; at 2^64 - 1 the count stands still.
    pub fn count(&self) -> u64
        ensures { result ≡ self.now }
    {
        self.count
    }

    /// Counts one more.
    pub fn raise(&mut self)
        ensures { self.new ≡ raised self.old }
    {
        self.count = self.count.saturating_add(1);
    }
}
