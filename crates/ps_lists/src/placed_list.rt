//! A list whose items stay where they are put.
ghost use Rattle.std.specs.Prelude.{◌≡◌, ◌+◌, ◌++◌, ◌<◌, ◌≤◌, ◌^◌, ◌∷◌, [], IfOk, OnOk, length, slice_index_or, vec_capacity, vec_len};
ghost use Rattle.std.specs.Borrow.{sem};
ghost use Rattle.std.specs.List.{insert, range_with_len, remove};

use crate::placed_lent::Lent;
use crate::tiered_list::TieredList;
use ps_time::memory::Memory;
use std::alloc::Global;
use std::marker::Model;
use std::ops::{Index, IndexMut};

/// Items in cells of their own, at most 2^32 of them. The list's order is kept apart, as numbers of the cells in blocks of 2,048:
/// where an item comes or goes, four bytes move for each item of its block, and one number of each block behind it.
#[derive(Drop)]
pub struct PlacedList<T> {
    // the items, in no order
    cells: Vec<T>,
    // the numbers of their cells, in the order of the list
    order: TieredList<u32>,
}

impl<T> Model for PlacedList<T> {
    ghost use Rattle.std.specs.Prelude.{◌^◌, length, min, vec_capacity};
    ghost use Rattle.ps_lists.specs.Order.{IsOrderOf, last_place, picked};
    ghost use Rattle.ps_lists.specs.PlacedList.{PlacedList as Seen};

    ghost Value = { Seen T };

    ghost view = { λ l. record { list = picked l.cells.items l.order.list; places = min (vec_capacity l.cells) (min l.order.places (2 ^ 32)); last = last_place l.order.list } };

    ghost invariant = { λ l. IsOrderOf (length l.cells.items) l.order.list };
}

impl<T> PlacedList<T> {
    /// No items, without reserved places.
    pub fn new(alloc: Global) -> PlacedList<T>
        ensures { result.list ≡ [] }
    {
        PlacedList {
            cells: Vec::new(alloc),
            order: TieredList::new(alloc),
        }
    }

    /// Reserves places, so that `count` more items fit. Fails also where there would be more than 2^32 of them.
    pub fn reserve(&mut self, count: usize) -> Result<(), Memory>
        ensures same { self.new.list ≡ self.old.list }
        ensures never_less { self.old.places ≤ self.new.places }
        ensures ok { OnOk result (length self.new.list + count ≤ self.new.places) }
    {
        if MOST - self.cells.len() < count {
            return Err(Memory);
        }
        self.cells.reserve(count)?;
        self.order.reserve(count)?;
        Ok(())
    }

    /// How many items there are.
    pub fn len(&self) -> usize
        ensures value { result ≡ length self.now.list }
        ensures fits { length self.now.list ≤ self.now.places }
    {
        self.order.len()
    }

    /// The items, one after another in their order.
    pub fn in_order(&self) -> Lent<'_, T>
        ensures { result ≡ self.now.list }
    {
        Lent::of(self.cells.as_slice(), self.order.in_order())
    }

    /// Puts an item in. Takes no memory; no other item moves.
    pub fn insert(&mut self, at: usize, item: T)
        requires within { at ≤ length self.old.list }
        requires place { length self.old.list < self.old.places }
        ensures list { self.new.list ≡ insert self.old.list at item }
        ensures len { length self.new.list ≡ length self.old.list + 1 }
        ensures places { self.new.places ≡ self.old.places }
    {
        let number = add_cell(&mut self.cells, item);
        self.order.insert(at, number);
    }

    /// The item in the last cell, which a removal moves. Its place in the list isn't kept, so whoever removes an item finds it first.
    pub fn last_cell(&self) -> &T
        requires { 0 < length self.now.list }
        ensures within { self.now.last < length self.now.list }
        ensures value { result.now ≡ slice_index_or self.now.list self.now.last result.now }
    {
        &self.cells[self.cells.len() - 1]
    }

    /// Takes an item out; its place stays reserved. The item in the last cell, which stands at `last` in the list, moves into the
    /// cell that is free now, and no other moves.
    pub fn remove(&mut self, at: usize, last: usize) -> T
        requires within { at < length self.old.list }
        requires last { last ≡ self.old.last }
        ensures value { result ≡ slice_index_or self.old.list at result }
        ensures list { self.new.list ≡ remove self.old.list at }
        ensures len { length self.new.list + 1 ≡ length self.old.list }
        ensures places { self.new.places ≡ self.old.places }
        ensures fits { length self.old.list ≤ self.old.places }
    {
        let number = self.order[at];
        self.order.set(last, number);
        self.order.remove(at);
        self.cells.swap_remove(number as usize)
    }
}

impl<T: Drop> PlacedList<T> {
    /// These items, in their order; none of them moves. Fails also where there are more than 2^32 of them.
    pub fn of(alloc: Global, items: Vec<T>) -> Result<PlacedList<T>, Memory>
        ensures { IfOk result (λ made. made.list ≡ items.items) }
    {
        let order = numbers(alloc, items.len())?;
        Ok(PlacedList {
            cells: items,
            order,
        })
    }
}

impl<T> Index<usize> for PlacedList<T> {
    type Output = T;

    ghost can_index = { λ l i. i < length l.list };

    ghost index_gives = { λ l i x. x ≡ slice_index_or l.list i x };

    fn index(&self, index: usize) -> &T {
        &self.cells[self.order[index] as usize]
    }
}

impl<T> IndexMut<usize> for PlacedList<T> {
    ghost use Rattle.ps_lists.specs.Lending.{LendsItem};

    fn index_mut(&mut self, index: usize) -> &mut T
        requires { index < length self.old.list }
        ensures* writes_back { sem 𝓛 (LendsItem T.row self.entry index result) }
        ensures value { result.now ≡ slice_index_or self.old.list index result.now }
    {
        &mut self.cells[self.order[index] as usize]
    }
}

// As many numbers as four bytes have.
const MOST: usize = 1 << 32;

// Puts the item into a cell of its own, and answers the number of the cell.
fn add_cell<T>(cells: &mut Vec<T>, item: T) -> u32
    requires cell { vec_len cells.old < vec_capacity cells.old }
    requires number { vec_len cells.old < 2 ^ 32 }
    ensures number { result ≡ length cells.old.items }
    ensures items { cells.new.items ≡ cells.old.items ++ item ∷ [] }
    ensures capacity { vec_capacity cells.new ≡ vec_capacity cells.old }
{
    let number = cells.len();
    cells.insert(number, item).unwrap();
    number as u32
}

// The numbers of so many cells, one after another.
fn numbers(alloc: Global, count: usize) -> Result<TieredList<u32>, Memory>
    ensures few { OnOk result (count ≤ 2 ^ 32) }
    ensures numbers { IfOk result (λ made. made.list ≡ range_with_len 0 count) }
{
    let mut order = TieredList::new(alloc);
    if MOST < count {
        return Err(Memory);
    }
    order.reserve(count)?;
    for number in 0..count {
        order.push(number as u32);
    }
    Ok(order)
}
