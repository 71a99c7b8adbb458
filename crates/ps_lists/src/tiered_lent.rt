//! Items that are lent, one after another.
ghost use Rattle.std.specs.Prelude.{◌≡◌, ◌<◌, ◌≤◌, ◌-◌, ◌+◌, ◌∷◌, Bool, drop, false, length, slice_index_or, take, true};
ghost use Rattle.std.specs.Fn.{ComputesKey};
ghost use Rattle.std.specs.List.Sorted.{IsBinarySearchResult, IsPartitionPoint, IsPartitionedBy, IsSearchInRange};
ghost use Rattle.ps_lists.specs.TieredList.{joined, AreFilled};

use crate::halves::{FROM_THE_END, next_part};
use crate::sliding_list::SlidingList;
use crate::tiered_list::BLOCK;
use std::cmp::Ordering;
use std::marker::Model;

/// Items of a list in its order, that are lent. As an iterator they are those that are left.
#[derive(Drop)]
pub struct Lent<'a, T> {
    blocks: &'a [SlidingList<T>],
    // the places of those that are left
    from: usize,
    until: usize,
}

impl<'a, T> Model for Lent<'a, T> {
    ghost use Rattle.std.specs.Prelude.{◌-◌, ◌≤◌, List, drop, length, take};
    ghost use Rattle.ps_lists.specs.TieredList.{joined, AreFilled};

    ghost Value = { List T };

    ghost view = { λ l. take (l.until - l.from) (drop l.from (joined l.blocks.now)) };

    ghost invariant = { λ l. AreFilled l.blocks.now × (l.from ≤ l.until) × (l.until ≤ length (joined l.blocks.now)) };
}

impl<'a, T: Copy> Lent<'a, T> {
    // The items at these places.
    pub(crate) fn of(blocks: &'a [SlidingList<T>], from: usize, until: usize) -> Lent<'a, T>
        requires filled { AreFilled blocks.now }
        requires ordered { from ≤ until }
        requires within { until ≤ length (joined blocks.now) }
        ensures { result ≡ take (until - from) (drop from (joined blocks.now)) }
    {
        Lent {
            blocks,
            from,
            until,
        }
    }

    /// How many there are.
    pub fn len(&self) -> usize
        ensures { result ≡ length self.now }
    {
        self.until - self.from
    }

    /// The item at a place.
    pub fn at(&self, place: usize) -> &'a T
        requires { place < length self.now }
        ensures value { result.now ≡ slice_index_or self.now place result.now }
        ensures rest { drop place self.now ≡ result.now ∷ drop (place + 1) self.now }
    {
        item_at(self.blocks, self.from + place)
    }

    /// Those from a place on.
    pub fn from(&self, place: usize) -> Lent<'a, T>
        requires { place ≤ length self.now }
        ensures { result ≡ drop place self.now }
    {
        Lent::of(self.blocks, self.from + place, self.until)
    }

    /// The first ones, so many.
    pub fn until(&self, place: usize) -> Lent<'a, T>
        requires { place ≤ length self.now }
        ensures { result ≡ take place self.now }
    {
        Lent::of(self.blocks, self.from, self.from + place)
    }

    /// How many items pass the test, where those that pass stand before all others. The last ones are tested first, as most items
    /// come behind the others; then as many as a binary search has steps.
    pub fn partition_point<P: FnMut(&T) -> bool>(&self, mut passes: P) -> usize
        requires { P.IsAlwaysCallable passes }
        ensures bound { result ≤ length self.now }
        ensures partitioned { (p : T → Bool) → ComputesKey P.FnMut p passes → IsPartitionedBy p self.now → IsPartitionPoint (λ y. p y ≡ true) (λ y. p y ≡ false) self.now result }
    {
        let mut size = self.len();
        if size == 0 {
            return 0;
        }
        let mut base = 0;
        let mut tries = FROM_THE_END;
        while size > 1 {
            let part = next_part(size, tries);
            let mid = base + part;
            tries = tries.saturating_sub(1);
            if passes(self.at(mid)) {
                base = mid;
                size -= part;
            } else {
                size = part;
            }
        }
        if passes(self.at(base)) {
            base + 1
        } else {
            base
        }
    }

    /// The place of an item that has the key, or where one would go, where the items' keys never fall. It tests as many as
    /// `partition_point` does.
    pub fn binary_search_by_key<K: Ord, F: FnMut(&T) -> K>(
        &self,
        key: &K,
        mut f: F,
    ) -> Result<usize, usize>
    where
        K: Drop,
        requires { F.IsAlwaysCallable f }
        ensures bound { IsSearchInRange result (length self.now) }
        ensures position { (own : T → K) → ComputesKey F.FnMut own f → IsBinarySearchResult (λ y. K.cmp (own y) key.now) self.now result }
    {
        let mut size = self.len();
        if size == 0 {
            return Err(0);
        }
        let mut base = 0;
        let mut tries = FROM_THE_END;
        while size > 1 {
            let part = next_part(size, tries);
            let mid = base + part;
            tries = tries.saturating_sub(1);
            if f(self.at(mid)).cmp(key).is_le() {
                base = mid;
                size -= part;
            } else {
                size = part;
            }
        }
        match f(self.at(base)).cmp(key) {
            Ordering::Equal => Ok(base),
            Ordering::Less => Err(base + 1),
            Ordering::Greater => Err(base),
        }
    }
}

impl<'a, T: Copy> Iterator for Lent<'a, T> {
    ghost use Rattle.std.specs.Iterator.{YieldsFirstRef, item_count};

    type Item = &'a T;

    ghost next_gives = { YieldsFirstRef (λ s. s) };

    ghost remaining = { item_count (λ s. s) };

    fn next(&mut self) -> Option<&'a T> {
        if self.from == self.until {
            return None;
        }
        let item = item_at(self.blocks, self.from);
        self.from += 1;
        Some(item)
    }
}

// The item at a place of the blocks.
fn item_at<'a, T: Copy>(blocks: &'a [SlidingList<T>], place: usize) -> &'a T
    requires filled { AreFilled blocks.now }
    requires within { place < length (joined blocks.now) }
    ensures { result.now ≡ slice_index_or (joined blocks.now) place result.now }
{
    &blocks[place / BLOCK].as_slice()[place % BLOCK]
}
