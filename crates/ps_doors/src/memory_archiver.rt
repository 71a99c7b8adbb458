//! An archiver in memory.
ghost use Rattle.std.specs.Prelude.{◌≡◌, [], ◌∷◌, ◌++◌, drop, All, OnOk, false};
ghost use Rattle.ps_doors.specs.Archiver.{HasLength, next_outcome};
ghost use Rattle.ps_doors.specs.Told.{TellsMore, told_by};

use crate::archiver::{Archiver, Attempt, Tried};
use ps_time::key::RunKey;
use ps_time::memory::Memory;
use ps_time::text::Text;
use std::alloc::Global;
use std::collections::VecDeque;
use std::marker::Model;

/// An archiver whose attempts have the given outcomes, one after another, and behind them succeed. It tells its
/// attempts, until one finds no memory to be told.
pub struct MemoryArchiver {
    name: Text,
    outcomes: VecDeque<Tried>,
    attempts: Vec<Attempt>,
    starved: bool,
}

impl Model for MemoryArchiver {
    ghost use Rattle.std.specs.Prelude.{All};
    ghost use Rattle.ps_doors.specs.Archiver.{ArchiverState, HasLength};

    ghost Value = { ArchiverState };

    ghost view = { λ a. record { name = a.name; outcomes = a.outcomes.items; attempts = a.attempts.items; starved = a.starved } };

    ghost invariant = { λ a. All HasLength a.outcomes.items };
}

impl Drop for MemoryArchiver {
    fn drop(self) {
        let MemoryArchiver {
            name: _,
            outcomes: _,
            attempts: _,
            starved: _,
        } = self;
    }
}

impl MemoryArchiver {
    /// An archiver of this name, whose attempts come to these outcomes, one after another.
    pub fn new(alloc: Global, name: Text, outcomes: Vec<Tried>) -> MemoryArchiver
        requires { All HasLength outcomes.items }
        ensures { result ≡ record { name = name; outcomes = outcomes.items; attempts = []; starved = false } }
    {
        MemoryArchiver {
            name,
            outcomes: VecDeque::from_vec(outcomes),
            attempts: Vec::new(alloc),
            starved: false,
        }
    }

    /// The attempts so far, as long as memory never ran out.
    pub fn attempts(&self) -> &[Attempt]
        ensures { result.now ≡ self.now.attempts }
    {
        self.attempts.as_slice()
    }

    /// Whether an attempt ever found no memory to be told.
    pub fn starved(&self) -> bool
        ensures { result ≡ self.now.starved }
    {
        self.starved
    }
}

// One more attempt, or none where memory runs out.
fn note(
    attempts: &mut Vec<Attempt>,
    alloc: Global,
    key: RunKey,
    tried: u32,
    settings: &str,
    merged: &str,
    outcome: &Tried,
) -> Result<(), Memory>
    ensures ok { OnOk result (attempts.new.items ≡ attempts.old.items
        ++ record { key = key; tried = tried; settings = settings.now; merged = merged.now; outcome = outcome.now } ∷ []) }
{
    let settings = Text::new(alloc, settings)?;
    let merged = Text::new(alloc, merged)?;
    let outcome = outcome.copy(alloc)?;
    attempts.push(Attempt {
        key,
        tried,
        settings,
        merged,
        outcome,
    })?;
    Ok(())
}

impl Archiver for MemoryArchiver {
    ghost use Rattle.ps_doors.specs.Told.{told_by};

    ghost label = { λ a. a.name };

    ghost attempts = { λ a. told_by a.starved a.attempts };

    fn name(&self) -> &str {
        self.name.as_str()
    }

    fn attempt(
        &mut self,
        alloc: Global,
        key: RunKey,
        tried: u32,
        settings: &str,
        merged: &str,
    ) -> Tried
        ensures told { TellsMore (told_by self.old.starved self.old.attempts) (told_by self.new.starved self.new.attempts)
            (record { key = key; tried = tried; settings = settings.now; merged = merged.now; outcome = result }) }
        ensures name { self.new.name ≡ self.old.name }
        ensures retry { HasLength result }
        ensures outcome { result ≡ next_outcome self.old.outcomes }
        ensures rest { self.new.outcomes ≡ drop 1 self.old.outcomes }
    {
        let outcome = self.outcomes.pop_front().unwrap_or(Tried::Succeeded);
        if note(
            &mut self.attempts,
            alloc,
            key,
            tried,
            settings,
            merged,
            &outcome,
        )
        .is_err()
        {
            self.starved = true;
        }
        outcome
    }
}
