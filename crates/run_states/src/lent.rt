//! Rows that are lent, one after another.
ghost use Rattle.std.specs.Prelude.{◌≡◌, ◌<◌, ◌≤◌, ◌+◌, ◌∷◌, Some, drop, false, length, not, slice_get, slice_index_or, true};
ghost use Rattle.std.specs.List.Sorted.{IsPartitionPoint};
ghost use Rattle.std.specs.Option.{option_copied};
ghost use Rattle.run_states.specs.Rows.{IsAscendingRows, is_above, rows_above};

use crate::row::RunRow;
use ps_lists::placed_lent::Lent;
use ps_time::key::RunKey;
use std::marker::Model;

/// Rows of a host, ascending by key, that are lent. As an iterator they are those that are left.
#[derive(Drop)]
pub struct LentRows<'a> {
    rows: Lent<'a, RunRow>,
}

impl<'a> Model for LentRows<'a> {
    ghost use Rattle.std.specs.Prelude.{List};
    ghost use Rattle.run_states.specs.declared.row.RunRow.{RunRow as SeenRow};

    ghost Value = { List SeenRow };

    ghost view = { λ l. l.rows };
}

impl<'a> LentRows<'a> {
    // These rows.
    pub(crate) fn of(rows: Lent<'a, RunRow>) -> LentRows<'a>
        ensures { result ≡ rows.entry }
    {
        LentRows { rows }
    }

    /// How many there are.
    pub fn len(&self) -> usize
        ensures { result ≡ length self.now }
    {
        self.rows.len()
    }

    /// The row at a place.
    pub fn at(&self, place: usize) -> &'a RunRow
        requires { place < length self.now }
        ensures value { result.now ≡ slice_index_or self.now place result.now }
        ensures rest { drop place self.now ≡ result.now ∷ drop (place + 1) self.now }
    {
        self.rows.at(place)
    }

    /// The row with the least key.
    pub fn least(&self) -> Option<&'a RunRow>
        ensures { option_copied result ≡ slice_get self.now 0 }
    {
        self.rows.front()
    }

    /// Those above a key; all of them where there is none.
    pub fn above(&self, key: Option<RunKey>) -> LentRows<'a>
        requires { IsAscendingRows self.now }
        ensures { result ≡ rows_above key self.now }
    {
        match key {
            Some(key) => LentRows {
                rows: rows_above(&self.rows, key),
            },
            None => LentRows {
                rows: self.rows.from(0),
            },
        }
    }
}

impl<'a> Iterator for LentRows<'a> {
    ghost use Rattle.std.specs.Iterator.{YieldsFirstRef, item_count};

    type Item = &'a RunRow;

    ghost next_gives = { YieldsFirstRef (λ s. s) };

    ghost remaining = { item_count (λ s. s) };

    fn next(&mut self) -> Option<&'a RunRow> {
        self.rows.next()
    }
}

// Those above a key.
fn rows_above<'a>(rows: &Lent<'a, RunRow>, key: RunKey) -> Lent<'a, RunRow>
    requires { IsAscendingRows rows.now }
    ensures { result ≡ rows_above (Some key) rows.now }
{
    rows.from(place_above(rows, key))
}

// How many of these rows aren't above the key.
fn place_above(rows: &Lent<'_, RunRow>, key: RunKey) -> usize
    requires { IsAscendingRows rows.now }
    ensures within { result ≤ length rows.now }
    ensures parted { IsPartitionPoint (λ r. not (is_above key r) ≡ true) (λ r. not (is_above key r) ≡ false) rows.now result }
{
    rows.partition_point(|row| !key.order(&row.key).is_lt())
}
