//! The run rows of a host: ascending by key, with reserved places.
ghost use Rattle.std.specs.Prelude.{◌≡◌, ℕ, ◌+◌, ◌<◌, ◌≤◌, [], None, Some, IfOk, IfErr, IfSome, IsSome, OnOk, is_some, if◌then◌else◌, All, true, false, length, slice_index_or};
ghost use Rattle.std.specs.List.{list_any};
ghost use Rattle.std.specs.Option.{option_copied};
ghost use Rattle.run_states.specs.Effect.{noted_row};
ghost use Rattle.run_states.specs.LawfulRow.{BringsResult, BringsResults, CanNote, CanTake, IsLawfulRow};
ghost use Rattle.std.specs.List.Sorted.{IsPartitionPoint};
ghost use Rattle.run_states.specs.TaskRows.{greatest_number, is_before_task, is_of_task, newest_row, number_of, rows_of_task};
ghost use Rattle.run_states.specs.Purging.{is_later, is_purgeable_key};
ghost use Rattle.run_states.specs.Life.{close_row, marked_row, settled_rows, HasMoments};
ghost use Rattle.run_states.specs.Rows.{find_row, put_row, lift_row, change_row, is_below, IsAscendingRows, IsPlaceOf, IsGapFor};

use crate::fact::Fact;
use crate::lent::LentRows;
use crate::life::LifeStep;
use crate::row::RunRow;
use crate::why::Closing;
use ps_lists::placed_lent::Lent;
use ps_lists::placed_list::PlacedList;
use ps_time::items::Items;
use ps_time::key::RunKey;
use ps_time::memory::Memory;
use ps_time::moment::Moment;
use std::alloc::Global;
use std::marker::Model;

/// Rows with different keys. Places for more can be reserved, so that putting rows takes no memory. A row stays in a cell of its
/// own: where others come or go before it, only its number moves.
#[derive(Drop)]
pub struct Rows {
    rows: PlacedList<RunRow>,
}

impl Model for Rows {
    ghost use Rattle.std.specs.Prelude.{◌-◌, length};
    ghost use Rattle.run_states.specs.Rows.{Rows as Table, IsAscendingRows};

    ghost Value = { Table };

    ghost view = { λ t. record { list = t.rows.list; room = t.rows.places - length t.rows.list } };

    ghost invariant = { λ t. IsAscendingRows t.rows.list };
}

impl Rows {
    /// No rows, without reserved places.
    pub fn new(alloc: Global) -> Rows
        ensures { result.list ≡ [] }
    {
        Rows {
            rows: PlacedList::new(alloc),
        }
    }

    /// These rows, where they are; none is copied. Takes memory for their order.
    pub fn of(alloc: Global, rows: Items<RunRow>) -> Result<Rows, Memory>
        requires { IsAscendingRows rows }
        ensures { IfOk result (λ made. made.list ≡ rows) }
    {
        let rows = PlacedList::of(alloc, rows.into_vec())?;
        Ok(Rows { rows })
    }

    /// Makes room for so many more rows than there are now.
    pub fn reserve(&mut self, count: usize) -> Result<(), Memory>
        ensures same { self.new.list ≡ self.old.list }
        ensures never_less { self.old.room ≤ self.new.room }
        ensures ok { OnOk result (count ≤ self.new.room) }
    {
        self.rows.reserve(count)?;
        Ok(())
    }

    /// All rows, ascending by key.
    pub fn in_order(&self) -> LentRows<'_>
        ensures rows { result ≡ self.now.list }
        ensures ascending { IsAscendingRows self.now.list }
    {
        LentRows::of(self.rows.in_order())
    }

    /// How many rows there are.
    pub fn len(&self) -> usize
        ensures { result ≡ length self.now.list }
    {
        self.rows.len()
    }

    /// The rows of this lead's task with this serial, ascending by key. They stand side by side, and are
    /// found by two searches.
    pub fn task_rows(&self, lead: u16, serial: u32) -> LentRows<'_>
        ensures { result ≡ rows_of_task lead serial self.now.list }
    {
        LentRows::of(task_rows(&self.rows.in_order(), lead, serial))
    }

    /// The row of the key, if there is one.
    pub fn find(&self, key: RunKey) -> Option<&RunRow>
        ensures { option_copied result ≡ find_row self.now.list key }
    {
        match self.search(key) {
            Ok(at) => Some(&self.rows[at]),
            Err(_) => None,
        }
    }

    /// Where the row of the key stands, counted from 0, if there is one.
    pub fn place(&self, key: RunKey) -> Option<usize>
        ensures found { IfSome result (IsPlaceOf self.now.list key) }
        ensures absent { result ≡ None → find_row self.now.list key ≡ None }
        ensures ascending { IsAscendingRows self.now.list }
    {
        match self.search(key) {
            Ok(place) => Some(place),
            Err(_) => None,
        }
    }

    /// The row at a place, counted from 0. No search is made.
    pub fn at(&self, place: usize) -> &RunRow
        requires { place < length self.now.list }
        ensures value { result.now ≡ slice_index_or self.now.list place result.now }
        ensures own { IsPlaceOf self.now.list result.now.key place }
        ensures found { (k : RunKey) → IsPlaceOf self.now.list k place → find_row self.now.list k ≡ Some result.now }
        ensures ascending { IsAscendingRows self.now.list }
    {
        &self.rows[place]
    }

    /// The row of the task with the greatest number and attempt.
    pub fn newest_of_task(&self, lead: u16, serial: u32) -> Option<&RunRow>
        ensures { option_copied result ≡ newest_row lead serial self.now.list }
    {
        newest_in(&self.rows.in_order(), lead, serial)
    }

    /// The greatest number of a run of the task; 0 where it has none.
    pub fn greatest_number(&self, lead: u16, serial: u32) -> u32
        ensures { result ≡ greatest_number lead serial self.now.list }
    {
        let newest = newest_in(&self.rows.in_order(), lead, serial);
        number_of(newest)
    }

    /// Takes no memory, and no other row moves: only the numbers of their cells do, as `PlacedList` says. Answers where the row
    /// stands, counted from 0.
    pub fn put(&mut self, row: RunRow) -> usize
        requires room { 0 < self.old.room }
        requires new_key { find_row self.old.list row.key ≡ None }
        ensures rows { self.new.list ≡ put_row self.old.list row }
        ensures gap { IsGapFor self.old.list row.key result }
        ensures place { IsPlaceOf self.new.list row.key result }
        ensures room { self.new.room + 1 ≡ self.old.room }
    {
        match self.search(row.key) {
            Ok(_) => unreachable!(),
            Err(at) => {
                self.rows.insert(at, row);
                at
            }
        }
    }

    /// Takes the row out; its place stays reserved. Where it is put back changed, it comes into its place
    /// again. The row in the last cell moves into the one that is free now, and that row's place is found by a
    /// search; of the others only the numbers of their cells move.
    pub fn lift(&mut self, key: RunKey) -> Option<RunRow>
        ensures row { result ≡ find_row self.old.list key }
        ensures rows { self.new.list ≡ lift_row self.old.list key }
        ensures gone { find_row self.new.list key ≡ None }
        ensures back { (s : RunRow) → IsSome result → s.key ≡ key → put_row self.new.list s ≡ change_row (λ _. s) self.old.list key }
        ensures room { self.new.room ≡ self.old.room + (if is_some result then 1 else 0) }
    {
        match self.search(key) {
            Ok(at) => {
                let moved = place_of_moved(&self.rows);
                Some(self.rows.remove(at, moved))
            }
            Err(_) => None,
        }
    }

    /// Sets what a step of life sets in the row of the key, if there is one, unless it has it.
    pub fn mark(&mut self, key: RunKey, step: LifeStep, moment: Moment)
        requires result { BringsResult step }
        ensures rows { self.new.list ≡ change_row (marked_row step moment) self.old.list key }
        ensures lawful { (m : ℕ) → m ≤ moment → IfSome (find_row self.old.list key) (CanTake step) → All (IsLawfulRow m) self.old.list → All (IsLawfulRow moment) self.new.list }
        ensures room { self.new.room ≡ self.old.room }
    {
        match self.search(key) {
            Ok(at) => self.mark_at(at, step, moment),
            Err(_) => drop(step),
        }
    }

    /// Sets what a step of life sets in the row at a place, counted from 0, unless it has it. The row keeps its place.
    pub fn mark_at(&mut self, place: usize, step: LifeStep, moment: Moment)
        requires place { place < length self.old.list }
        requires result { BringsResult step }
        ensures rows { (k : RunKey) → IsPlaceOf self.old.list k place → self.new.list ≡ change_row (marked_row step moment) self.old.list k }
        ensures place { (k : RunKey) → IsPlaceOf self.old.list k place → IsPlaceOf self.new.list k place }
        ensures room { self.new.room ≡ self.old.room }
    {
        let row = &mut self.rows[place];
        row.mark(step, moment);
    }

    /// Sets what the fact tells in the row of the key, if there is one, unless it has it. A fact that has
    /// lists of its own brings them along, so this takes no memory.
    pub fn note(&mut self, key: RunKey, fact: Fact, moment: Moment)
        requires results { BringsResults fact }
        ensures rows { self.new.list ≡ change_row (noted_row fact moment) self.old.list key }
        ensures lawful { (m : ℕ) → m ≤ moment → IfSome (find_row self.old.list key) (CanNote fact) → All (IsLawfulRow m) self.old.list → All (IsLawfulRow moment) self.new.list }
        ensures room { self.new.room ≡ self.old.room }
    {
        match self.search(key) {
            Ok(at) => self.note_at(at, fact, moment),
            Err(_) => drop(fact),
        }
    }

    /// Sets what the fact tells in the row at a place, counted from 0, unless it has it. The row keeps its place.
    pub fn note_at(&mut self, place: usize, fact: Fact, moment: Moment)
        requires place { place < length self.old.list }
        requires results { BringsResults fact }
        ensures rows { (k : RunKey) → IsPlaceOf self.old.list k place → self.new.list ≡ change_row (noted_row fact moment) self.old.list k }
        ensures place { (k : RunKey) → IsPlaceOf self.old.list k place → IsPlaceOf self.new.list k place }
        ensures room { self.new.room ≡ self.old.room }
    {
        let row = &mut self.rows[place];
        row.note(fact, moment);
    }

    /// Takes the row of the key out for good, and answers whether there was one. Its place stays reserved.
    pub fn purge(&mut self, key: RunKey) -> bool
        ensures there { result ≡ is_some (find_row self.old.list key) }
        ensures rows { self.new.list ≡ lift_row self.old.list key }
        ensures gone { find_row self.new.list key ≡ None }
        ensures room { self.new.room ≡ self.old.room + (if result then 1 else 0) }
    {
        match self.lift(key) {
            Some(row) => {
                drop(row);
                true
            }
            None => false,
        }
    }

    /// Whether the row at a place, counted from 0, is long past at the moment, so that the host of this number may purge it.
    pub fn is_purgeable_at(&self, place: usize, host: u16, moment: Moment) -> bool
        requires { place < length self.now.list }
        ensures { (k : RunKey) → IsPlaceOf self.now.list k place → result ≡ is_purgeable_key host moment self.now.list k }
    {
        let row = self.at(place);
        row.is_long_past(moment)
            && (row.key.lead != host || (row.is_archived() && self.has_later(row.key, place)))
    }

    // Whether a later row is of the same task: then so is the next one.
    fn has_later(&self, key: RunKey, at: usize) -> bool
        requires { IsPlaceOf self.now.list key at }
        ensures { result ≡ list_any (λ s. is_later key s.key) self.now.list }
    {
        if 1 < self.rows.len() - at {
            self.rows[at + 1].is_of_task(key.lead, key.task)
        } else {
            false
        }
    }

    /// Closes the row of the key, if there is one, unless it is closed.
    pub fn close(&mut self, key: RunKey, closing: Closing)
        ensures rows { self.new.list ≡ change_row (close_row closing) self.old.list key }
        ensures room { self.new.room ≡ self.old.room }
    {
        self.mark(key, LifeStep::Close(closing.why), closing.moment);
    }

    /// Closes each row that has lapsed by the moment.
    pub fn settle(&mut self, moment: Moment)
        requires { All HasMoments self.old.list }
        ensures rows { self.new.list ≡ settled_rows moment self.old.list }

        // An earlier settling makes no difference.
        ensures whenever { (m : ℕ) → m ≤ moment → settled_rows moment (settled_rows m self.old.list) ≡ self.new.list }
        ensures moments { All HasMoments self.new.list }
        ensures lawful { (m : ℕ) → m ≤ moment → All (IsLawfulRow m) self.old.list → All (IsLawfulRow moment) self.new.list }
        ensures room { self.new.room ≡ self.old.room }
    {
        settle_all(&mut self.rows, moment);
    }

    /// Equal rows. How many places the copy has reserved is left open.
    pub fn copy(&self, alloc: Global) -> Result<Rows, Memory>
        ensures { IfOk result (λ made. made.list ≡ self.now.list) }
    {
        let rows = copy_all(alloc, self.rows.in_order())?;
        let rows = PlacedList::of(alloc, rows)?;
        Ok(Rows { rows })
    }

    // Where the key is, or where it would go.
    fn search(&self, key: RunKey) -> Result<usize, usize>
        ensures found { IfOk result (IsPlaceOf self.now.list key) }
        ensures absent { IfErr result (IsGapFor self.now.list key) }
        ensures ascending { IsAscendingRows self.now.list }
    {
        place_of(&self.rows, key)
    }
}

fn number_of(row: Option<&RunRow>) -> u32
    ensures { result ≡ number_of (option_copied row.entry) }
{
    match row {
        Some(row) => row.key.number,
        None => 0,
    }
}

// Where the key is among the rows, or where it would go.
fn place_of(rows: &PlacedList<RunRow>, key: RunKey) -> Result<usize, usize>
    requires { IsAscendingRows rows.now.list }
    ensures found { IfOk result (IsPlaceOf rows.now.list key) }
    ensures absent { IfErr result (IsGapFor rows.now.list key) }
{
    match numbered_place(rows, key) {
        Some(at) => Ok(at),
        None => searched_place(rows, key),
    }
}

// Where the row of the key is, if it is of the first row's task and stands where its number says. Runs of a task are numbered one
// after another, so of a host's bookings most do.
fn numbered_place(rows: &PlacedList<RunRow>, key: RunKey) -> Option<usize>
    ensures { IfSome result (IsPlaceOf rows.now.list key) }
{
    let first = rows.in_order().front()?;
    if !first.is_of_task(key.lead, key.task) || key.number < first.key.number {
        return None;
    }
    let at = (key.number - first.key.number) as usize;
    if at < rows.len() && rows[at].key.order(&key).is_eq() {
        Some(at)
    } else {
        None
    }
}

fn searched_place(rows: &PlacedList<RunRow>, key: RunKey) -> Result<usize, usize>
    requires { IsAscendingRows rows.now.list }
    ensures found { IfOk result (IsPlaceOf rows.now.list key) }
    ensures absent { IfErr result (IsGapFor rows.now.list key) }
{
    let at = place_below(&rows.in_order(), key);
    if at == rows.len() {
        return Err(at);
    }
    if rows[at].key.order(&key).is_eq() {
        Ok(at)
    } else {
        Err(at)
    }
}

// The place of the row in the last cell, found by its key.
fn place_of_moved(rows: &PlacedList<RunRow>) -> usize
    requires ascending { IsAscendingRows rows.now.list }
    requires some { 0 < length rows.now.list }
    ensures { result ≡ rows.now.last }
{
    match place_of(rows, rows.last_cell().key) {
        Ok(last) => last,
        Err(_) => unreachable!(),
    }
}

// How many rows are below the key.
fn place_below(rows: &Lent<'_, RunRow>, key: RunKey) -> usize
    requires { IsAscendingRows rows.now }
    ensures within { result ≤ length rows.now }
    ensures parted { IsPartitionPoint (λ r. is_below key r ≡ true) (λ r. is_below key r ≡ false) rows.now result }
{
    rows.partition_point(|row| row.key.order(&key).is_lt())
}

fn task_rows<'a>(rows: &Lent<'a, RunRow>, lead: u16, serial: u32) -> Lent<'a, RunRow>
    requires { IsAscendingRows rows.now }
    ensures { result ≡ rows_of_task lead serial rows.now }
{
    let rest = rows.from(before_task(rows, lead, serial));
    rest.until(in_task(&rest, lead, serial))
}

// The row of the task with the greatest number and attempt. It is often the last of all.
fn newest_in<'a>(rows: &Lent<'a, RunRow>, lead: u16, serial: u32) -> Option<&'a RunRow>
    requires { IsAscendingRows rows.now }
    ensures { option_copied result ≡ newest_row lead serial rows.now }
{
    if let Some(row) = rows.back() {
        if row.is_of_task(lead, serial) {
            return Some(row);
        }
    }
    task_rows(rows, lead, serial).back()
}

// How many rows stand before those of the task.
fn before_task(rows: &Lent<'_, RunRow>, lead: u16, serial: u32) -> usize
    requires { IsAscendingRows rows.now }
    ensures within { result ≤ length rows.now }
    ensures parted { IsPartitionPoint (λ r. is_before_task lead serial r ≡ true) (λ r. is_before_task lead serial r ≡ false) rows.now result }
{
    rows.partition_point(|row| row.is_before_task(lead, serial))
}

// How many of these rows, none of which stands before those of the task, are of it.
fn in_task(rows: &Lent<'_, RunRow>, lead: u16, serial: u32) -> usize
    requires ascending { IsAscendingRows rows.now }
    requires none_before { All (λ r. is_before_task lead serial r ≡ false) rows.now }
    ensures within { result ≤ length rows.now }
    ensures parted { IsPartitionPoint (λ r. is_of_task lead serial r ≡ true) (λ r. is_of_task lead serial r ≡ false) rows.now result }
{
    rows.partition_point(|row| row.is_of_task(lead, serial))
}

fn settle_all(rows: &mut PlacedList<RunRow>, moment: Moment)
    requires { All HasMoments rows.old.list }
    ensures rows { rows.new.list ≡ settled_rows moment rows.old.list }
    ensures places { rows.new.places ≡ rows.old.places }
{
    for at in 0..rows.len() {
        let row = &mut rows[at];
        row.settle(moment);
    }
}

fn copy_all(alloc: Global, rows: Lent<'_, RunRow>) -> Result<Vec<RunRow>, Memory>
    ensures { IfOk result (λ made. made.items ≡ rows.entry) }
{
    let mut made = Vec::new(alloc);
    for row in rows {
        made.push(row.copy(alloc)?)?;
    }
    Ok(made)
}
