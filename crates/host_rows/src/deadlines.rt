//! The moments from which rows lapse, in order, so that those which have come are found first.
ghost use Rattle.std.specs.Prelude.{◌≡◌, ◌≤◌, ◌<◌, ◌+◌, ◌-◌, [], All, IfErr, IfOk, IfSome, OnOk, drop, false, length, reverse, true};
ghost use Rattle.std.specs.List.{remove};
ghost use Rattle.std.specs.List.Sorted.{IsPartitionPoint};
ghost use Rattle.run_states.specs.Life.{HasMoments};
ghost use Rattle.host_rows.specs.Deadlines.{deadline_of, due_keys, filed, is_before, key_then, lifted, refiled, waiting, IsAscendingDeadlines, IsGapFor, IsPlaceOf, Waits};

use ps_lists::placed_list::PlacedList;
use ps_time::key::RunKey;
use ps_time::memory::Memory;
use ps_time::moment::Moment;
use run_states::row::RunRow;
use std::alloc::Global;
use std::marker::Model;

/// From when on the row of a key lapses.
#[derive(Clone, Copy, PartialEq, Eq, PartialOrd, Ord)]
pub struct Deadline {
    /// In seconds since 1970 UTC.
    pub moment: Moment,
    /// Of the row.
    pub key: RunKey,
}

/// Different deadlines in ascending order, in places that were reserved. Each stays in a cell of its own: where one comes or goes,
/// only numbers of cells move, as `PlacedList` says. Where one goes, another is found by a search and moves into its cell. They are
/// kept the latest first, as those that come soon come and go most: behind them few numbers move.
#[derive(Drop)]
pub struct Deadlines {
    // the latest first
    entries: PlacedList<Deadline>,
}

impl Model for Deadlines {
    ghost use Rattle.std.specs.Prelude.{reverse};
    ghost use Rattle.host_rows.specs.Deadlines.{Deadlines as Seen, IsAscendingDeadlines};

    ghost Value = { Seen };

    ghost view = { λ d. record { list = reverse d.entries.list; places = d.entries.places } };

    ghost invariant = { λ d. IsAscendingDeadlines (reverse d.entries.list) };
}

impl Deadlines {
    /// No deadlines, without reserved places.
    pub(crate) fn new(alloc: Global) -> Deadlines
        ensures { result.list ≡ [] }
    {
        Deadlines {
            entries: PlacedList::new(alloc),
        }
    }

    /// Makes so many places, those of the deadlines that are there among them. Fails also where these are more than 2^32.
    pub(crate) fn reserve(&mut self, places: usize) -> Result<(), Memory>
        ensures same { self.new.list ≡ self.old.list }
        ensures never_less { self.old.places ≤ self.new.places }
        ensures ok { OnOk result (places ≤ self.new.places) }
    {
        self.entries
            .reserve(places.saturating_sub(self.entries.len()))
    }

    /// How many there are.
    pub fn len(&self) -> usize
        ensures value { result ≡ length self.now.list }
        ensures ascending { IsAscendingDeadlines self.now.list }
    {
        self.entries.len()
    }

    /// The key at this place among the deadlines, counted from 0, where that deadline has come by the moment. The first that
    /// hasn't come ends a walk over the places.
    pub fn due(&self, place: usize, moment: Moment) -> Option<RunKey>
        ensures walk { due_keys moment (drop place self.now.list) ≡ key_then result (due_keys moment (drop (place + 1) self.now.list)) }
        ensures ascending { IsAscendingDeadlines self.now.list }
    {
        let count = self.entries.len();
        if count <= place {
            return None;
        }
        let deadline = self.entries[count - 1 - place];
        if deadline.moment <= moment {
            Some(deadline.key)
        } else {
            None
        }
    }

    /// Takes the first out.
    pub(crate) fn pass(&mut self)
        ensures list { self.new.list ≡ drop 1 self.old.list }
        ensures places { self.new.places ≡ self.old.places }
    {
        if self.entries.len() != 0 {
            self.take_out(0);
        }
    }

    /// Puts the deadline that a row has after a change in place of the one that it had. Takes no memory.
    pub(crate) fn refile(&mut self, key: RunKey, before: Option<Moment>, after: Option<Moment>)
        requires { IfSome after (λ _. length (lifted key before self.old.list) < self.old.places) }
        ensures list { self.new.list ≡ refiled key before after self.old.list }
        ensures places { self.new.places ≡ self.old.places }
    {
        if before == after {
            return;
        }
        self.lift(key, before);
        self.file(key, after);
    }

    /// Takes the deadline out that a row had, if it is there.
    pub(crate) fn lift(&mut self, key: RunKey, moment: Option<Moment>)
        ensures list { self.new.list ≡ lifted key moment self.old.list }
        ensures places { self.new.places ≡ self.old.places }
    {
        let Some(moment) = moment else {
            return;
        };
        match self.search(&Deadline { moment, key }) {
            Ok(at) => self.take_out(at),
            Err(_) => {}
        }
    }

    // Puts the deadline in that a row has, unless it is there.
    fn file(&mut self, key: RunKey, moment: Option<Moment>)
        requires { IfSome moment (λ _. length self.old.list < self.old.places) }
        ensures list { self.new.list ≡ filed key moment self.old.list }
        ensures places { self.new.places ≡ self.old.places }
    {
        let Some(moment) = moment else {
            return;
        };
        let deadline = Deadline { moment, key };
        match self.search(&deadline) {
            Ok(_) => {}
            Err(at) => {
                let behind = self.entries.len() - at;
                self.entries.insert(behind, deadline)
            }
        }
    }

    // Where the deadline is, or where it would go.
    fn search(&self, deadline: &Deadline) -> Result<usize, usize>
        ensures found { IfOk result (IsPlaceOf self.now.list deadline.now) }
        ensures absent { IfErr result (IsGapFor self.now.list deadline.now) }
    {
        let behind = count_from(&self.entries, deadline);
        let at = self.entries.len() - behind;
        if behind == 0 {
            return Err(at);
        }
        if self.entries[behind - 1].cmp(deadline).is_eq() {
            Ok(at)
        } else {
            Err(at)
        }
    }

    // Takes the deadline at the place out.
    fn take_out(&mut self, at: usize)
        requires { at < length self.old.list }
        ensures list { self.new.list ≡ remove self.old.list at }
        ensures ascending { IsAscendingDeadlines self.old.list }
        ensures places { self.new.places ≡ self.old.places }
    {
        let place = self.entries.len() - 1 - at;
        let moved = place_of_moved(&self.entries, place);
        self.entries.remove(place, moved);
    }
}

// How many deadlines, the latest first, are no earlier than this one.
fn count_from(entries: &PlacedList<Deadline>, deadline: &Deadline) -> usize
    requires { IsAscendingDeadlines (reverse entries.now.list) }
    ensures within { result ≤ length entries.now.list }
    ensures parted { IsPartitionPoint (λ e. is_before deadline.now e ≡ true) (λ e. is_before deadline.now e ≡ false) (reverse entries.now.list) (length entries.now.list - result) }
{
    entries
        .in_order()
        .partition_point(|entry| !entry.cmp(deadline).is_lt())
}

// The place of the deadline in the last cell, as the one at this place goes: often it is that one, else it is found by a search.
fn place_of_moved(entries: &PlacedList<Deadline>, at: usize) -> usize
    requires ascending { IsAscendingDeadlines (reverse entries.now.list) }
    requires within { at < length entries.now.list }
    ensures { result ≡ entries.now.last }
{
    let last = entries.last_cell();
    if entries[at].cmp(last).is_eq() {
        return at;
    }
    count_from(entries, last) - 1
}

/// The deadlines of rows, in these places, where there is one for each row.
pub(crate) fn file_each(deadlines: &mut Deadlines, rows: &[RunRow])
    requires none { deadlines.old.list ≡ [] }
    requires moments { All HasMoments rows.now }
    requires places { length rows.now ≤ deadlines.old.places }
    ensures waits { All (Waits deadlines.new.list) rows.now }
    ensures few { length deadlines.new.list ≤ waiting rows.now }
    ensures places { deadlines.old.places ≤ deadlines.new.places }
{
    for row in rows {
        deadlines.refile(row.key, None, deadline_of(row));
    }
}

/// The moment from which the row lapses, unless it changes before.
pub(crate) fn deadline_of(row: &RunRow) -> Option<Moment>
    requires { HasMoments row.now }
    ensures { result ≡ deadline_of row.now }
{
    match row.lapse(Moment::MAX) {
        Some(closing) => Some(closing.moment),
        None => None,
    }
}
