//! The calls on an object in memory, of which some are to fail.
ghost use Rattle.std.specs.Prelude.{◌≡◌};
ghost use Rattle.ps_ports.specs.Memory.{no_calls, fails_next, called};

use std::marker::Model;

/// The numbers of the calls that are to fail, counted from 0, and how many were made.
#[derive(Drop)]
pub struct FailingCalls {
    failing: Vec<u64>,
    made: u64,
}

impl Model for FailingCalls {
    ghost use Rattle.ps_ports.specs.Memory.{Calls};

    ghost Value = { Calls };

    ghost view = { λ c. record { made = c.made; failing = c.failing.items } };
}

impl FailingCalls {
    /// `failing` has the numbers of the calls that are to fail, the first call being number 1.
    pub fn new(failing: Vec<u64>) -> FailingCalls
        ensures { result ≡ no_calls failing.items }
    {
        FailingCalls { failing, made: 0 }
    }

    /// How many calls were made.
    pub fn made(&self) -> u64
        ensures { result ≡ self.now.made }
    {
        self.made
    }

    /// Counts one more call, and tells whether it is to fail.
    pub fn next_fails(&mut self) -> bool
        ensures answer { result ≡ fails_next self.old }
        ensures after { self.new ≡ called self.old }
    {
        self.made = self.made.saturating_add(1);
        self.failing.contains(&self.made)
    }
}
