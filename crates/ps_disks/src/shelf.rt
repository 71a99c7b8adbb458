//! The pairs in a rack in memory.
ghost use Rattle.std.specs.Prelude.{◌≡◌, [], IfOk, OnOk, OnErr, IfSome, IfNone, IsTrue, is_some, None, bytes_eq, ◌+◌, ◌<◌, ◌∷◌, vec_len, vec_capacity};
ghost use Rattle.ps_disks.specs.Rack.{find_pair, opened_pair, after_take, after_give, first_by, is_under, IsFirst};
ghost use Rattle.ps_disks.specs.Disk.{AreBounded};
ghost use Rattle.ps_disks.specs.History.{IsImage};
ghost use Rattle.ps_disks.specs.MemoryDisk.{new_disk as made_disk};

use crate::memory_disk::MemoryDisk;
use crate::rack::{FRESH_FIRST, FRESH_SECOND};
use ps_time::memory::Memory;
use ps_time::text::Text;
use std::alloc::Global;
use std::marker::Model;

/// The pairs of disks of a rack in memory, by their folders, and which of them are out.
#[derive(Drop)]
pub struct Shelf {
    // It has room for those that are out, too.
    pairs: Vec<(Text, MemoryDisk, MemoryDisk)>,
    out: Vec<Text>,
}

impl Model for Shelf {
    ghost use Rattle.std.specs.Prelude.{◌+◌, ◌≤◌, vec_len, vec_capacity};
    ghost use Rattle.ps_disks.specs.Rack.{ShelfState};

    ghost Value = { ShelfState };

    ghost view = { λ s. record { pairs = s.pairs.items; out = s.out.items } };

    ghost invariant = { λ s. vec_len s.pairs + vec_len s.out ≤ vec_capacity s.pairs };
}

impl Shelf {
    /// A shelf with these pairs, none of which is out.
    pub fn new(alloc: Global, pairs: Vec<(Text, MemoryDisk, MemoryDisk)>) -> Shelf
        ensures { result ≡ record { pairs = pairs.items; out = [] } }
    {
        Shelf {
            pairs,
            out: Vec::new(alloc),
        }
    }

    /// The pairs that are not out, with their folders.
    pub fn pairs(&self) -> &[(Text, MemoryDisk, MemoryDisk)]
        ensures { result.now ≡ self.now.pairs }
    {
        self.pairs.as_slice()
    }

    /// Whether the pair of the folder is out.
    pub fn is_out(&self, folder: &str) -> bool
        ensures { result ≡ is_some (first_by (bytes_eq folder.now) self.now.out) }
    {
        place_of_folder(&self.out, folder).is_some()
    }

    /// Takes the folder's pair, or a new one. Where memory runs out nothing is changed.
    pub fn take(&mut self, alloc: Global, folder: &str) -> Result<(MemoryDisk, MemoryDisk), Memory>
        ensures pair { IfOk result (λ pair. pair ≡ opened_pair (find_pair folder.now self.old.pairs)) }
        ensures size { IfOk result (λ pair. AreBounded (IsImage pair.0.history) × AreBounded (IsImage pair.1.history)) }
        ensures after { OnOk result (self.new ≡ after_take folder.now self.old) }
        ensures err { OnErr result (self.new ≡ self.old) }
    {
        match place_of_pair(&self.pairs, folder) {
            Some(at) => {
                self.out.reserve(1)?;
                let (name, first, second) = self.pairs.remove(at);
                self.out.push(name)?;
                Ok((first.reopened(), second.reopened()))
            }
            None => {
                let name = Text::new(alloc, folder)?;
                let first = new_disk(alloc, &FRESH_FIRST)?;
                let second = new_disk(alloc, &FRESH_SECOND)?;
                self.pairs.reserve(self.out.len() + 1)?;
                self.out.push(name)?;
                Ok((first, second))
            }
        }
    }

    /// Takes no memory.
    pub fn give_back(&mut self, folder: &str, first: MemoryDisk, second: MemoryDisk)
        requires { IsTrue (is_some (first_by (bytes_eq folder.now) self.old.out)) }
        ensures { self.new ≡ after_give folder.now first second self.old }
    {
        if let Some(at) = place_of_folder(&self.out, folder) {
            let name = self.out.remove(at);
            put_first(&mut self.pairs, (name, first, second));
        }
    }
}

// Takes no memory.
fn put_first(pairs: &mut Vec<(Text, MemoryDisk, MemoryDisk)>, pair: (Text, MemoryDisk, MemoryDisk))
    requires { vec_len pairs.old < vec_capacity pairs.old }
    ensures items { pairs.new.items ≡ pair ∷ pairs.old.items }
    ensures len { vec_len pairs.new ≡ vec_len pairs.old + 1 }
    ensures capacity { vec_capacity pairs.new ≡ vec_capacity pairs.old }
{
    let _full = pairs.insert(0, pair);
}

fn new_disk(alloc: Global, bytes: &[u8]) -> Result<MemoryDisk, Memory>
    ensures disk { IfOk result (λ disk. disk ≡ made_disk bytes.now []) }
    ensures size { IfOk result (λ disk. AreBounded (IsImage disk.history)) }
{
    Ok(MemoryDisk::new(alloc, bytes.to_vec(alloc)?, Vec::new(alloc)))
}

fn is_folder(name: &Text, folder: &str) -> bool
    ensures { result ≡ bytes_eq folder.now name.now }
{
    name.is(folder)
}

fn place_of_pair(pairs: &[(Text, MemoryDisk, MemoryDisk)], folder: &str) -> Option<usize>
    ensures some { IfSome result (IsFirst (is_under folder.now) pairs.now) }
    ensures none { IfNone result (first_by (is_under folder.now) pairs.now ≡ None) }
{
    for (at, pair) in pairs.iter().enumerate() {
        if is_folder(&pair.0, folder) {
            return Some(at);
        }
    }
    None
}

fn place_of_folder(folders: &[Text], folder: &str) -> Option<usize>
    ensures some { IfSome result (IsFirst (bytes_eq folder.now) folders.now) }
    ensures none { IfNone result (first_by (bytes_eq folder.now) folders.now ≡ None) }
{
    for (at, name) in folders.iter().enumerate() {
        if is_folder(name, folder) {
            return Some(at);
        }
    }
    None
}
