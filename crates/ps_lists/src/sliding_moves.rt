//! Moves of items within a vector, in front of which cells are out of use.
ghost use Rattle.std.specs.Prelude.{◌≡◌, ◌+◌, ◌-◌, ◌<◌, ◌≤◌, drop, slice_set, take, vec_capacity, vec_len};
ghost use Rattle.std.specs.List.{insert, remove_range};

/// Moves the items to the front.
pub(crate) fn slide<T: Copy>(cells: &mut Vec<T>, first: usize)
    requires { first ≤ vec_len cells.old }
    ensures items { cells.new.items ≡ drop first cells.old.items }
    ensures len { vec_len cells.new + first ≡ vec_len cells.old }
    ensures capacity { vec_capacity cells.new ≡ vec_capacity cells.old }
{
    let left = cells.len() - first;
    cells.copy_within(first.., 0);
    cells.truncate(left);
}

/// Moves the items of a whole vector back, so that as many cells as told are out of use in front of them.
pub(crate) fn slide_back<T: Copy>(cells: &mut Vec<T>, by: usize, filler: T)
    requires { vec_len cells.old + by ≤ vec_capacity cells.old }
    ensures items { drop by cells.new.items ≡ cells.old.items }
    ensures len { vec_len cells.new ≡ vec_len cells.old + by }
    ensures capacity { vec_capacity cells.new ≡ vec_capacity cells.old }
{
    let len = cells.len();
    lengthen(cells, by, filler);
    cells.copy_within(0..len, by);
}

// as many cells more as told
fn lengthen<T: Copy>(cells: &mut Vec<T>, by: usize, filler: T)
    requires { vec_len cells.old + by ≤ vec_capacity cells.old }
    ensures items { take (vec_len cells.old) cells.new.items ≡ cells.old.items }
    ensures len { vec_len cells.new ≡ vec_len cells.old + by }
    ensures capacity { vec_capacity cells.new ≡ vec_capacity cells.old }
{
    for _ in 0..by {
        cells.push_reserved(filler);
    }
}

/// How many cells are out of use in front of the items, at least one. Where there is none, the items first move back by half of the
/// unused cells, though by no more than there are items, so that to write the cells costs no more than to move the items.
pub(crate) fn free_front<T: Copy>(cells: &mut Vec<T>, first: usize, filler: T) -> usize
    requires some { first < vec_len cells.old }
    requires cell { vec_len cells.old < vec_capacity cells.old + first }
    ensures items { drop result cells.new.items ≡ drop first cells.old.items }
    ensures cell { 0 < result }
    ensures len { vec_len cells.new + first ≡ vec_len cells.old + result }
    ensures capacity { vec_capacity cells.new ≡ vec_capacity cells.old }
{
    if 0 < first {
        return first;
    }
    let unused = cells.capacity() - cells.len();
    let by = (unused - unused / 2).min(cells.len());
    slide_back(cells, by, filler);
    by
}

/// Moves the first items one cell forward, and puts one in behind them. The items begin one cell earlier then.
pub(crate) fn open_front<T: Copy>(cells: &mut Vec<T>, first: usize, at: usize, item: T)
    requires cell { 0 < first }
    requires within { first + at ≤ vec_len cells.old }
    ensures items { drop (first - 1) cells.new.items ≡ insert (drop first cells.old.items) at item }
    ensures len { vec_len cells.new ≡ vec_len cells.old }
    ensures capacity { vec_capacity cells.new ≡ vec_capacity cells.old }
{
    cells.copy_within(first..first + at, first - 1);
    cells[first + at - 1] = item;
}

/// Moves the last items one cell back, and puts one in before them.
pub(crate) fn open_behind<T: Copy>(cells: &mut Vec<T>, first: usize, at: usize, item: T)
    requires cell { vec_len cells.old < vec_capacity cells.old }
    requires within { first + at ≤ vec_len cells.old }
    ensures items { drop first cells.new.items ≡ insert (drop first cells.old.items) at item }
    ensures len { vec_len cells.new ≡ vec_len cells.old + 1 }
    ensures capacity { vec_capacity cells.new ≡ vec_capacity cells.old }
{
    let len = cells.len();
    cells.push_reserved(item);
    cells.copy_within(first + at..len, first + at + 1);
    cells[first + at] = item;
}

/// Puts an item in the place of another.
pub(crate) fn write<T: Copy>(cells: &mut Vec<T>, first: usize, at: usize, item: T)
    requires { first + at < vec_len cells.old }
    ensures items { drop first cells.new.items ≡ slice_set (drop first cells.old.items) at item }
    ensures len { vec_len cells.new ≡ vec_len cells.old }
    ensures capacity { vec_capacity cells.new ≡ vec_capacity cells.old }
{
    cells[first + at] = item;
}

/// Moves the items before a range over it. The items begin later then, by the length of the range.
pub(crate) fn close_front<T: Copy>(cells: &mut Vec<T>, first: usize, from: usize, until: usize)
    requires ordered { from ≤ until }
    requires within { first + until ≤ vec_len cells.old }
    ensures items { drop (first + (until - from)) cells.new.items ≡ remove_range (drop first cells.old.items) from until }
    ensures len { vec_len cells.new ≡ vec_len cells.old }
    ensures capacity { vec_capacity cells.new ≡ vec_capacity cells.old }
{
    cells.copy_within(first..first + from, first + (until - from));
}

/// Moves the items behind a range over it.
pub(crate) fn close_behind<T: Copy>(cells: &mut Vec<T>, first: usize, from: usize, until: usize)
    requires ordered { from ≤ until }
    requires within { first + until ≤ vec_len cells.old }
    ensures items { drop first cells.new.items ≡ remove_range (drop first cells.old.items) from until }
    ensures len { vec_len cells.new + (until - from) ≡ vec_len cells.old }
    ensures capacity { vec_capacity cells.new ≡ vec_capacity cells.old }
{
    let left = cells.len() - (until - from);
    cells.copy_within(first + until.., first + from);
    cells.truncate(left);
}
