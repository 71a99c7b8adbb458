//! How many of a list have to be true.
ghost use Rattle.std.specs.Prelude.{◌≡◌, ℕ, [], Bool, map};
ghost use Rattle.limit_ident.specs.Require.{met, IsLeft};

use ps_time::duplicate::Duplicate;
use ps_time::memory::Memory;
use std::alloc::Global;

/// How many of a list have to be true.
#[derive(Clone, Copy)]
pub enum Require {
    All,
    /// At least one.
    Any,
    /// Exactly one.
    One,
    None,
}

/// What one outcome leaves of a requirement.
#[derive(Clone, Copy)]
enum After {
    /// The answer, whatever comes behind the outcome.
    Decided(bool),
    /// What is required of the outcomes behind it.
    Open(Require),
}

/// A test of the places of a list. It has no memory of the places before.
pub trait PlaceTest {
    ghost outcome: { Self → ℕ → Bool };

    fn passes(&self, place: usize) -> bool
        ensures { result ≡ outcome self.now place };
}

impl Duplicate for Require {
    fn duplicate(&self, _alloc: Global) -> Result<Require, Memory> {
        Ok(*self)
    }
}

impl Require {
    fn after(self, outcome: bool) -> After
        ensures { IsLeft self outcome result }
    {
        match self {
            Require::All if !outcome => After::Decided(false),
            Require::Any if outcome => After::Decided(true),
            Require::One if outcome => After::Open(Require::None),
            Require::None if outcome => After::Decided(false),
            _ => After::Open(self),
        }
    }

    fn is_met_by_none(self) -> bool
        ensures { result ≡ met self [] }
    {
        match self {
            Require::All => true,
            Require::Any => false,
            Require::One => false,
            Require::None => true,
        }
    }

    /// Whether as many of the places pass the test as are required. No place is tested behind the first whose
    /// outcome decides.
    pub fn is_met<T: PlaceTest>(self, places: &[usize], test: &T) -> bool
        ensures { result ≡ met self (map (T.outcome test.now) places.now) }
    {
        let mut require = self;
        for place in places {
            match require.after(test.passes(*place)) {
                After::Decided(answer) => return answer,
                After::Open(left) => require = left,
            }
        }
        require.is_met_by_none()
    }
}
