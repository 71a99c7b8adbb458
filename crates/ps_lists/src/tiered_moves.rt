//! Moves of items within blocks and from block to block.
ghost use Rattle.std.specs.Prelude.{◌≡◌, ◌+◌, ◌*◌, ◌<◌, ◌≤◌, [], length, slice_index_or, slice_set};
ghost use Rattle.std.specs.List.{insert, remove};
ghost use Rattle.ps_lists.specs.TieredList.{joined, most, AreFilled, IsOpenAt};

use crate::sliding_list::SlidingList;
use crate::tiered_list::BLOCK;

/// Puts an item in. Of each block from there on one item moves to the next, up to the first one with room.
pub(crate) fn put_in<T: Copy>(blocks: &mut Vec<SlidingList<T>>, len: usize, at: usize, item: T)
    requires filled { AreFilled blocks.old.items }
    requires count { len ≡ length (joined blocks.old.items) }
    requires within { at ≤ len }
    requires place { len < most * length blocks.old.items }
    ensures filled { AreFilled blocks.new.items }
    ensures items { joined blocks.new.items ≡ insert (joined blocks.old.items) at item }
    ensures blocks { length blocks.new.items ≡ length blocks.old.items }
{
    let first = at / BLOCK;
    make_room(blocks, first, len / BLOCK);
    blocks[first].insert(at % BLOCK, item);
}

// Moves the room of a block to an earlier one.
fn make_room<T: Copy>(blocks: &mut Vec<SlidingList<T>>, first: usize, last: usize)
    requires ordered { first ≤ last }
    requires room { IsOpenAt last blocks.old.items }
    ensures room { IsOpenAt first blocks.new.items }
    ensures items { joined blocks.new.items ≡ joined blocks.old.items }
    ensures blocks { length blocks.new.items ≡ length blocks.old.items }
{
    for moved in 0..last - first {
        move_on(blocks, last - 1 - moved);
    }
}

// Moves the last item of a full block to the next one.
fn move_on<T: Copy>(blocks: &mut Vec<SlidingList<T>>, at: usize)
    requires { IsOpenAt (at + 1) blocks.old.items }
    ensures room { IsOpenAt at blocks.new.items }
    ensures items { joined blocks.new.items ≡ joined blocks.old.items }
    ensures blocks { length blocks.new.items ≡ length blocks.old.items }
{
    let item = blocks[at].remove(BLOCK - 1);
    blocks[at + 1].insert(0, item);
}

/// Takes an item out. Of each block behind it one item moves to the block before.
pub(crate) fn take_out<T: Copy>(blocks: &mut Vec<SlidingList<T>>, len: usize, at: usize) -> T
    requires filled { AreFilled blocks.old.items }
    requires count { len ≡ length (joined blocks.old.items) }
    requires within { at < len }
    ensures filled { AreFilled blocks.new.items }
    ensures value { result ≡ slice_index_or (joined blocks.old.items) at result }
    ensures items { joined blocks.new.items ≡ remove (joined blocks.old.items) at }
    ensures blocks { length blocks.new.items ≡ length blocks.old.items }
{
    let first = at / BLOCK;
    let item = blocks[first].remove(at % BLOCK);
    fill_room(blocks, first, (len - 1) / BLOCK);
    item
}

// Fills the room of a block from those behind it.
fn fill_room<T: Copy>(blocks: &mut Vec<SlidingList<T>>, first: usize, last: usize)
    requires ordered { first ≤ last }
    requires room { IsOpenAt first blocks.old.items }
    requires above { most * last ≤ length (joined blocks.old.items) }
    requires below { length (joined blocks.old.items) < most * (last + 1) }
    ensures filled { AreFilled blocks.new.items }
    ensures items { joined blocks.new.items ≡ joined blocks.old.items }
    ensures blocks { length blocks.new.items ≡ length blocks.old.items }
{
    for at in first..last {
        move_back(blocks, at);
    }
}

// Moves the first item of a block to the one before.
fn move_back<T: Copy>(blocks: &mut Vec<SlidingList<T>>, at: usize)
    requires room { IsOpenAt at blocks.old.items }
    requires more { most * (at + 1) ≤ length (joined blocks.old.items) }
    ensures room { IsOpenAt (at + 1) blocks.new.items }
    ensures items { joined blocks.new.items ≡ joined blocks.old.items }
    ensures blocks { length blocks.new.items ≡ length blocks.old.items }
{
    let item = blocks[at + 1].remove(0);
    blocks[at].push(item);
}

/// Puts an item in the place of another.
pub(crate) fn replace<T: Copy>(blocks: &mut Vec<SlidingList<T>>, at: usize, item: T)
    requires filled { AreFilled blocks.old.items }
    requires within { at < length (joined blocks.old.items) }
    ensures filled { AreFilled blocks.new.items }
    ensures items { joined blocks.new.items ≡ slice_set (joined blocks.old.items) at item }
    ensures blocks { length blocks.new.items ≡ length blocks.old.items }
{
    blocks[at / BLOCK].set(at % BLOCK, item);
}

/// Takes all items out.
pub(crate) fn empty<T: Copy>(blocks: &mut Vec<SlidingList<T>>)
    requires { AreFilled blocks.old.items }
    ensures filled { AreFilled blocks.new.items }
    ensures items { joined blocks.new.items ≡ [] }
    ensures blocks { length blocks.new.items ≡ length blocks.old.items }
{
    for at in 0..blocks.len() {
        blocks[at].clear();
    }
}
