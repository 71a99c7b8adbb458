//! Items that are lent, one after another.
ghost use Rattle.std.specs.Prelude.{◌≡◌, ◌<◌, ◌≤◌, ◌-◌, ◌+◌, ◌∷◌, All, Bool, drop, false, length, slice_get, slice_index_or, take, true};
ghost use Rattle.std.specs.Fn.{ComputesKey};
ghost use Rattle.std.specs.List.Sorted.{IsPartitionPoint, IsPartitionedBy};
ghost use Rattle.std.specs.Option.{option_copied};
ghost use Rattle.ps_lists.specs.Order.{passes_in, picked};

use crate::tiered_lent::Lent as Numbers;
use std::marker::Model;

/// Items of a list in its order, that are lent. As an iterator they are those that are left.
#[derive(Drop)]
pub struct Lent<'a, T> {
    // the items, in no order
    cells: &'a [T],
    // the numbers of the cells of those that are left
    order: Numbers<'a, u32>,
}

impl<'a, T> Model for Lent<'a, T> {
    ghost use Rattle.std.specs.Prelude.{◌<◌, All, List, length};
    ghost use Rattle.ps_lists.specs.Order.{picked};

    ghost Value = { List T };

    ghost view = { λ l. picked l.cells.now l.order };

    ghost invariant = { λ l. All (λ n. n < length l.cells.now) l.order };
}

impl<'a, T> Lent<'a, T> {
    // The items of the cells that have these numbers.
    pub(crate) fn of(cells: &'a [T], order: Numbers<'a, u32>) -> Lent<'a, T>
        requires { All (λ n. n < length cells.now) order }
        ensures { result ≡ picked cells.now order.entry }
    {
        Lent { cells, order }
    }

    /// How many there are.
    pub fn len(&self) -> usize
        ensures { result ≡ length self.now }
    {
        self.order.len()
    }

    /// The item at a place.
    pub fn at(&self, place: usize) -> &'a T
        requires { place < length self.now }
        ensures value { result.now ≡ slice_index_or self.now place result.now }
        ensures rest { drop place self.now ≡ result.now ∷ drop (place + 1) self.now }
    {
        &self.cells[*self.order.at(place) as usize]
    }

    /// The first item.
    pub fn front(&self) -> Option<&'a T>
        ensures { option_copied result ≡ slice_get self.now 0 }
    {
        if self.len() == 0 {
            None
        } else {
            Some(self.at(0))
        }
    }

    /// The last item.
    pub fn back(&self) -> Option<&'a T>
        ensures { option_copied result ≡ slice_get self.now (length self.now - 1) }
    {
        match self.len().checked_sub(1) {
            Some(place) => Some(self.at(place)),
            None => None,
        }
    }

    /// Those from a place on.
    pub fn from(&self, place: usize) -> Lent<'a, T>
        requires { place ≤ length self.now }
        ensures { result ≡ drop place self.now }
    {
        Lent::of(self.cells, self.order.from(place))
    }

    /// The first ones, so many.
    pub fn until(&self, place: usize) -> Lent<'a, T>
        requires { place ≤ length self.now }
        ensures { result ≡ take place self.now }
    {
        Lent::of(self.cells, self.order.until(place))
    }

    /// How many items pass the test, where those that pass stand before all others. The last ones are tested first, then as many as a binary
    /// search has steps.
    pub fn partition_point<P: FnMut(&T) -> bool>(&self, mut passes: P) -> usize
        requires { P.IsAlwaysCallable passes }
        ensures bound { result ≤ length self.now }
        ensures partitioned { (p : T → Bool) → ComputesKey P.FnMut p passes → IsPartitionedBy p self.now → IsPartitionPoint (λ y. p y ≡ true) (λ y. p y ≡ false) self.now result }
    {
        let cells = self.cells;
        self.order.partition_point(
            |number|
                requires { P.IsAlwaysCallable passes }
                ensures lasts { P.IsAlwaysCallable passes.exit }
                ensures answers { (p : T → Bool) → ComputesKey P.FnMut p passes.entry → (result ≡ passes_in p cells.entry.now number.now) × ComputesKey P.FnMut p passes.exit }
            {
                match cells.get(*number as usize) {
                    Some(item) => passes(item),
                    None => false,
                }
            },
        )
    }
}

impl<'a, T> Iterator for Lent<'a, T> {
    ghost use Rattle.std.specs.Iterator.{YieldsFirstRef, item_count};

    type Item = &'a T;

    ghost next_gives = { YieldsFirstRef (λ s. s) };

    ghost remaining = { item_count (λ s. s) };

    fn next(&mut self) -> Option<&'a T> {
        let number = self.order.next()?;
        Some(&self.cells[*number as usize])
    }
}
