//! The changes of a step so far.
ghost use Rattle.std.specs.Prelude.{◌≡◌, ◌≤◌, ◌<◌, ◌-◌, ◌++◌, ◌∷◌, ◌&&◌, ◌==◌, [], OnOk, nat_le, nat_lt};

use host_model::change::Change;
use ps_time::items::Items;
use ps_time::memory::Memory;
use std::alloc::Global;
use std::marker::Model;

/// The changes that a step has made, in order, with a bound on those that it may still make.
#[derive(Drop)]
pub struct Log {
    changes: Vec<Change>,
    // for how many more changes there is place
    places: usize,
    // and how many bytes they may take
    left: u64,
}

impl Model for Log {
    ghost use Rattle.std.specs.Prelude.{◌-◌, vec_len, vec_capacity};
    ghost use Rattle.draft_parts.specs.Log.{Log as Seen};

    ghost Value = { Seen };

    ghost view = { λ l. record { changes = l.changes.items; places = l.places; left = l.left; room = vec_capacity l.changes - vec_len l.changes } };
}

impl Log {
    /// No changes, with place for so many, which take at most so many bytes.
    pub fn new(alloc: Global, places: usize, left: u64) -> Log
        ensures changes { result.changes ≡ [] }
        ensures places { result.places ≡ places }
        ensures left { result.left ≡ left }
    {
        Log {
            changes: Vec::new(alloc),
            places,
            left,
        }
    }

    /// The changes, in order.
    pub fn changes(&self) -> &[Change]
        ensures { result.now ≡ self.now.changes }
    {
        self.changes.as_slice()
    }

    /// Takes the changes out.
    pub fn into_changes(self) -> Items<Change>
        ensures { result ≡ self.changes }
    {
        Items::from_vec(self.changes)
    }

    /// Whether no more changes may be made.
    pub fn is_full(&self) -> bool
        ensures { result ≡ (self.now.places == 0) }
    {
        self.places == 0
    }

    /// Whether there is place for a change that takes so many bytes.
    pub fn admits(&self, bytes: u64) -> bool
        ensures { result ≡ (nat_lt 0 self.now.places && nat_le bytes self.now.left) }
    {
        0 < self.places && bytes <= self.left
    }

    /// Lets no more changes be made.
    pub fn end(&mut self)
        ensures changes { self.new.changes ≡ self.old.changes }
        ensures places { self.new.places ≡ 0 }
        ensures left { self.new.left ≡ self.old.left }
    {
        self.places = 0;
    }

    /// Takes memory for one change more.
    pub fn reserve(&mut self) -> Result<(), Memory>
        ensures changes { self.new.changes ≡ self.old.changes }
        ensures places { self.new.places ≡ self.old.places }
        ensures left { self.new.left ≡ self.old.left }
        ensures room { OnOk result (0 < self.new.room) }
    {
        self.changes.reserve(1)?;
        Ok(())
    }

    /// One change later, which takes so many bytes. Takes no memory.
    pub fn push(&mut self, change: Change, bytes: u64)
        requires room { 0 < self.old.room }
        requires places { 0 < self.old.places }
        requires left { bytes ≤ self.old.left }
        ensures changes { self.new.changes ≡ self.old.changes ++ change ∷ [] }
        ensures places { self.new.places ≡ self.old.places - 1 }
        ensures left { self.new.left ≡ self.old.left - bytes }
    {
        self.changes.push(change).unwrap();
        self.places -= 1;
        self.left -= bytes;
    }
}
