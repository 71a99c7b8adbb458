//! A list that slides within its vector.
ghost use Rattle.std.specs.Prelude.{◌≡◌, ◌+◌, ◌-◌, ◌++◌, ◌^◌, ◌<◌, ◌≤◌, [], ◌∷◌, OnOk, length, slice_index_or, slice_set};
ghost use Rattle.std.specs.List.{insert, remove, remove_range};

use crate::sliding_moves::{
    close_behind, close_front, free_front, open_behind, open_front, slide, write,
};
use ps_time::memory::Memory;
use std::alloc::Global;
use std::marker::Model;
use std::ops::Index;

/// Items in places that were reserved, lent as one slice, with unused cells in front of them and behind. An item that comes or goes
/// moves the shorter side of the others, so the first and the last go at no cost. All items move only where one comes and no cell is
/// unused on its side, and as `reserve` says.
#[derive(Drop)]
pub struct SlidingList<T> {
    // the items, behind cells that are out of use
    cells: Vec<T>,
    // how many cells are out of use
    first: usize,
}

impl<T> Model for SlidingList<T> {
    ghost use Rattle.std.specs.Prelude.{◌≤◌, drop, vec_capacity, vec_len};
    ghost use Rattle.ps_lists.specs.SlidingList.{SlidingList as Seen};

    ghost Value = { Seen T };

    ghost view = { λ l. record { list = drop l.first l.cells.items; places = vec_capacity l.cells } };

    ghost invariant = { λ l. l.first ≤ vec_len l.cells };
}

impl<T: Copy> SlidingList<T> {
    /// No items, without reserved places.
    pub fn new(alloc: Global) -> SlidingList<T>
        ensures { result.list ≡ [] }
    {
        SlidingList {
            cells: Vec::new(alloc),
            first: 0,
        }
    }

    /// Reserves places, so that `count` more items fit. Moves nothing while they do and a cell is unused behind the items. Otherwise
    /// these slide to the front of the vector, and it grows, unless `count` fit and an eighth of the cells lay before them; so where a
    /// place is reserved for each item that comes behind the others, few move on the whole for the sake of those in front.
    pub fn reserve(&mut self, count: usize) -> Result<(), Memory>
        ensures same { self.new.list ≡ self.old.list }
        ensures never_less { self.old.places ≤ self.new.places }
        ensures ok { OnOk result (length self.new.list + count ≤ self.new.places) }
        ensures bound { OnOk result (length self.new.list + count < 2 ^ 64) }
    {
        let unused = self.cells.capacity() - self.len();
        if count == 0 || (count <= unused && self.cells.len() < self.cells.capacity()) {
            return Ok(());
        }
        let slides = self.cells.len() / 8 < self.first;
        slide(&mut self.cells, self.first);
        self.first = 0;
        if slides && count <= unused {
            return Ok(());
        }
        self.cells.reserve(count.max(unused.saturating_add(1)))?;
        Ok(())
    }

    /// The items.
    pub fn as_slice(&self) -> &[T]
        ensures value { result.now ≡ self.now.list }
    {
        &self.cells[self.first..]
    }

    /// How many items there are.
    pub fn len(&self) -> usize
        ensures value { result ≡ length self.now.list }
        ensures fits { length self.now.list ≤ self.now.places }
    {
        self.cells.len() - self.first
    }

    /// Puts an item in. Takes no memory. Moves the shorter side of the others by one cell. Where no cell is unused in front of them,
    /// an item that comes there first has all slide back by half of the unused cells, though by no more than there are items, so the
    /// next ones find cells there. Where none is unused behind, one that comes there has all slide to the front of the vector.
    pub fn insert(&mut self, at: usize, item: T)
        requires within { at ≤ length self.old.list }
        requires place { length self.old.list < self.old.places }
        ensures list { self.new.list ≡ insert self.old.list at item }
        ensures len { length self.new.list ≡ length self.old.list + 1 }
        ensures places { self.new.places ≡ self.old.places }
    {
        if at < self.len() / 2 {
            let first = free_front(&mut self.cells, self.first, item);
            open_front(&mut self.cells, first, at, item);
            self.first = first - 1;
        } else if self.cells.len() < self.cells.capacity() {
            open_behind(&mut self.cells, self.first, at, item);
        } else {
            slide(&mut self.cells, self.first);
            self.first = 0;
            open_behind(&mut self.cells, 0, at, item);
        }
    }

    /// Puts an item in behind the others. Takes no memory.
    pub fn push(&mut self, item: T)
        requires { length self.old.list < self.old.places }
        ensures list { self.new.list ≡ self.old.list ++ item ∷ [] }
        ensures len { length self.new.list ≡ length self.old.list + 1 }
        ensures places { self.new.places ≡ self.old.places }
    {
        self.insert(self.len(), item);
    }

    /// Puts an item in the place of another.
    pub fn set(&mut self, at: usize, item: T)
        requires { at < length self.old.list }
        ensures list { self.new.list ≡ slice_set self.old.list at item }
        ensures len { length self.new.list ≡ length self.old.list }
        ensures places { self.new.places ≡ self.old.places }
    {
        write(&mut self.cells, self.first, at, item);
    }

    /// Takes an item out; its place stays reserved.
    pub fn remove(&mut self, at: usize) -> T
        requires { at < length self.old.list }
        ensures value { result ≡ slice_index_or self.old.list at result }
        ensures list { self.new.list ≡ remove self.old.list at }
        ensures len { length self.new.list + 1 ≡ length self.old.list }
        ensures places { self.new.places ≡ self.old.places }
        ensures fits { length self.old.list ≤ self.old.places }
    {
        let item = self.cells[self.first + at];
        self.remove_range(at, at + 1);
        item
    }

    /// Takes the items out from one place on, before another; their places stay reserved.
    pub fn remove_range(&mut self, from: usize, until: usize)
        requires ordered { from ≤ until }
        requires within { until ≤ length self.old.list }
        ensures list { self.new.list ≡ remove_range self.old.list from until }
        ensures len { length self.new.list + (until - from) ≡ length self.old.list }
        ensures places { self.new.places ≡ self.old.places }
        ensures fits { length self.old.list ≤ self.old.places }
    {
        let behind = self.len() - until;
        if from == until {
            return;
        }
        if from < behind {
            close_front(&mut self.cells, self.first, from, until);
            self.first += until - from;
        } else {
            close_behind(&mut self.cells, self.first, from, until);
        }
    }

    /// Takes all items out; their places stay reserved.
    pub fn clear(&mut self)
        ensures list { self.new.list ≡ [] }
        ensures places { self.new.places ≡ self.old.places }
    {
        self.cells.clear();
        self.first = 0;
    }
}

impl<T: Copy> Index<usize> for SlidingList<T> {
    type Output = T;

    ghost can_index = { λ l i. i < length l.list };

    ghost index_gives = { λ l i x. x ≡ slice_index_or l.list i x };

    fn index(&self, index: usize) -> &T {
        &self.as_slice()[index]
    }
}
