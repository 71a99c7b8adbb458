//! A list in blocks.
ghost use Rattle.std.specs.Prelude.{◌≡◌, ◌+◌, ◌++◌, ◌<◌, ◌≤◌, ◌∷◌, [], OnOk, length, max, slice_index_or, slice_set};
ghost use Rattle.std.specs.List.{insert, remove};
ghost use Rattle.ps_lists.specs.TieredList.{joined, AreFilled};

use crate::sliding_list::SlidingList;
use crate::tiered_lent::Lent;
use crate::tiered_moves::{empty, put_in, replace, take_out};
use ps_time::memory::Memory;
use std::alloc::Global;
use std::marker::Model;
use std::ops::Index;

/// Items in blocks of 2,048, each but the last one with items full. Where an item comes or goes, the others of its block move, and one
/// of each block behind it: a tiered vector (Goodrich and Kloss, 1999) of two tiers.
#[derive(Drop)]
pub struct TieredList<T> {
    blocks: Vec<SlidingList<T>>,
    len: usize,
}

/// How many items a block has at most.
pub(crate) const BLOCK: usize = 2048;

// How many blocks there are at most, so that items can be counted.
const MOST_BLOCKS: usize = 1 << 52;

impl<T> Model for TieredList<T> {
    ghost use Rattle.std.specs.Prelude.{◌≡◌, ◌<◌, ◌*◌, ◌^◌, length};
    ghost use Rattle.ps_lists.specs.TieredList.{TieredList as Seen, joined, most, AreFilled};

    ghost Value = { Seen T };

    ghost view = { λ l. record { list = joined l.blocks.items; places = most * length l.blocks.items } };

    ghost invariant = { λ l. AreFilled l.blocks.items × (l.len ≡ length (joined l.blocks.items)) × (most * length l.blocks.items < 2 ^ 64) };
}

impl<T: Copy> TieredList<T> {
    /// No items, without reserved places.
    pub fn new(alloc: Global) -> TieredList<T>
        ensures { result.list ≡ [] }
    {
        TieredList {
            blocks: Vec::new(alloc),
            len: 0,
        }
    }

    /// Reserves places, so that `count` more items fit. A block has twice as many places as it is to hold, so items slide in it
    /// once in 1,024 times at most.
    pub fn reserve(&mut self, count: usize) -> Result<(), Memory>
        ensures same { self.new.list ≡ self.old.list }
        ensures never_less { self.old.places ≤ self.new.places }
        ensures ok { OnOk result (length self.new.list + count ≤ self.new.places) }
    {
        let wanted = self.len.saturating_add(count).div_ceil(BLOCK);
        if MOST_BLOCKS < wanted {
            return Err(Memory);
        }
        add_blocks(&mut self.blocks, wanted)
    }

    /// The items, one after another.
    pub fn in_order(&self) -> Lent<'_, T>
        ensures { result ≡ self.now.list }
    {
        Lent::of(self.blocks.as_slice(), 0, self.len)
    }

    /// How many items there are.
    pub fn len(&self) -> usize
        ensures value { result ≡ length self.now.list }
        ensures fits { length self.now.list ≤ self.now.places }
    {
        self.len
    }

    /// Puts an item in. Takes no memory.
    pub fn insert(&mut self, at: usize, item: T)
        requires within { at ≤ length self.old.list }
        requires place { length self.old.list < self.old.places }
        ensures list { self.new.list ≡ insert self.old.list at item }
        ensures len { length self.new.list ≡ length self.old.list + 1 }
        ensures places { self.new.places ≡ self.old.places }
    {
        put_in(&mut self.blocks, self.len, at, item);
        self.len += 1;
    }

    /// Puts an item in behind the others. Takes no memory.
    pub fn push(&mut self, item: T)
        requires { length self.old.list < self.old.places }
        ensures list { self.new.list ≡ self.old.list ++ item ∷ [] }
        ensures len { length self.new.list ≡ length self.old.list + 1 }
        ensures places { self.new.places ≡ self.old.places }
    {
        self.insert(self.len, item);
    }

    /// Puts an item in the place of another.
    pub fn set(&mut self, at: usize, item: T)
        requires { at < length self.old.list }
        ensures list { self.new.list ≡ slice_set self.old.list at item }
        ensures len { length self.new.list ≡ length self.old.list }
        ensures places { self.new.places ≡ self.old.places }
    {
        replace(&mut self.blocks, at, item);
    }

    /// Takes an item out; its place stays reserved.
    pub fn remove(&mut self, at: usize) -> T
        requires { at < length self.old.list }
        ensures value { result ≡ slice_index_or self.old.list at result }
        ensures list { self.new.list ≡ remove self.old.list at }
        ensures len { length self.new.list + 1 ≡ length self.old.list }
        ensures places { self.new.places ≡ self.old.places }
        ensures fits { length self.old.list ≤ self.old.places }
    {
        let item = take_out(&mut self.blocks, self.len, at);
        self.len -= 1;
        item
    }

    /// Takes all items out; their places stay reserved.
    pub fn clear(&mut self)
        ensures list { self.new.list ≡ [] }
        ensures places { self.new.places ≡ self.old.places }
    {
        empty(&mut self.blocks);
        self.len = 0;
    }
}

impl<T: Copy> Index<usize> for TieredList<T> {
    type Output = T;

    ghost can_index = { λ l i. i < length l.list };

    ghost index_gives = { λ l i x. x ≡ slice_index_or l.list i x };

    fn index(&self, index: usize) -> &T {
        &self.blocks[index / BLOCK][index % BLOCK]
    }
}

// Adds blocks until there are so many.
fn add_blocks<T: Copy>(blocks: &mut Vec<SlidingList<T>>, count: usize) -> Result<(), Memory>
    requires { AreFilled blocks.old.items }
    ensures filled { AreFilled blocks.new.items }
    ensures items { joined blocks.new.items ≡ joined blocks.old.items }
    ensures never_less { length blocks.old.items ≤ length blocks.new.items }
    ensures bound { length blocks.new.items ≤ max (length blocks.old.items) count }
    ensures ok { OnOk result (count ≤ length blocks.new.items) }
{
    let alloc = *blocks.allocator();
    for _made in blocks.len()..count {
        let mut block = SlidingList::new(alloc);
        block.reserve(2 * BLOCK)?;
        blocks.push(block)?;
    }
    Ok(())
}
