//! Rows, with the bytes of their results, the moments from which they lapse, the keys of those that are live, and a moment before
//! which none of the others may go.
ghost use Rattle.std.specs.Prelude.{◌≡◌, ◌≤◌, ◌<◌, ◌+◌, ◌-◌, ◌∷◌, All, IfOk, IfSome, IsFalse, OnOk, None, drop, length, option_and_then, option_map, true};
ghost use Rattle.run_states.specs.Effect.{noted_row};
ghost use Rattle.run_states.specs.LawfulRow.{BringsResult, BringsResults};
ghost use Rattle.run_states.specs.Life.{close_row, lapse_of, settled_rows, marked_row, HasMoments};
ghost use Rattle.run_states.specs.declared.why.Why.TheVariants.{Preempted};
ghost use Rattle.run_states.specs.ResultBytes.{result_bytes as bytes_of_rows, row_bytes};
ghost use Rattle.run_states.specs.Rows.{change_row, find_row, lift_row, put_row, IsAscendingRows, IsPlaceOf};
ghost use Rattle.host_rows.specs.LiveKeys.{find_own, marked};
ghost use Rattle.host_rows.specs.Still.{keys_live_by, live_keys, StillStay};
ghost use Rattle.host_rows.specs.Deadlines.{deadline_at, due_keys, refiled, IsAscendingDeadlines, Waits};
ghost use Rattle.host_rows.specs.Ledger.{fact_bytes, most_counted, step_bytes};
ghost use Rattle.host_rows.specs.Closing.{closed_each};

use crate::called::add_called;
use crate::deadlines::{Deadlines, deadline_of, file_each};
use crate::live_keys::LiveKeys;
use crate::staying::{next_purge, sooner, sooner_before};
use crate::still::is_live;
use host_timeline::booking::Booking;
use host_timeline::timeline::Timeline;
use ps_lists::tiered_lent::Lent;
use ps_time::items::Items;
use ps_time::key::RunKey;
use ps_time::memory::Memory;
use ps_time::moment::Moment;
use run_states::fact::Fact;
use run_states::life::LifeStep;
use run_states::rest::result_bytes;
use run_states::row::RunRow;
use run_states::rows::Rows;
use run_states::why::{Closing, Why};
use std::alloc::Global;
use std::marker::Model;

/// Rows with reserved places, and what is counted over them.
#[derive(Drop)]
pub struct Ledger {
    rows: Rows,
    // of the results that the rows keep
    bytes: u64,
    // from when on which row lapses, with a place for each row
    deadlines: Deadlines,
    // of the host
    number: u16,
    // the keys of the rows that are live, with a place for each row
    live: LiveKeys,
    // no other row may go before this moment
    next_purge: Moment,
    // rows went since that moment was looked for among all rows
    has_gone: bool,
}

impl Model for Ledger {
    ghost use Rattle.std.specs.Prelude.{◌-◌, length, min};
    ghost use Rattle.host_rows.specs.Ledger.{Ledger as Seen, IsKept};

    ghost Value = { Seen };

    ghost view = { λ l. record {
      number = l.number;
      list = l.rows.list;
      deadlines = l.deadlines.list;
      room = min l.rows.room (min (l.live.places - length l.rows.list) (l.deadlines.places - length l.rows.list));
    } };

    ghost invariant = { λ l. IsKept l.number l.rows.list l.bytes l.next_purge l.deadlines l.live };
}

impl Ledger {
    /// These rows, which ascend by key, for the host with this number, and places for no more. Fails also where there are more than
    /// 2^32 of them.
    pub fn restore(alloc: Global, number: u16, rows: Items<RunRow>) -> Result<Ledger, Memory>
        requires ascending { IsAscendingRows rows }
        requires moments { All HasMoments rows }
        ensures number { IfOk result (λ l. l.number ≡ number) }
        ensures list { IfOk result (λ l. l.list ≡ rows) }
    {
        let mut live = LiveKeys::new(alloc);
        live.reserve(rows.len())?;
        live.refill(rows.as_slice(), number);
        let mut deadlines = Deadlines::new(alloc);
        deadlines.reserve(rows.len())?;
        file_each(&mut deadlines, rows.as_slice());
        let bytes = counted_bytes(rows.as_slice())?;
        let rows = Rows::of(alloc, rows)?;
        let next_purge = next_purge(&rows, number);
        Ok(Ledger {
            rows,
            bytes,
            deadlines,
            number,
            live,
            next_purge,
            has_gone: false,
        })
    }

    /// The rows, ascending by key.
    pub fn rows(&self) -> &Rows
        ensures list { result.now.list ≡ self.now.list }
        ensures ascending { IsAscendingRows self.now.list }
        ensures moments { All HasMoments self.now.list }
    {
        let _known = self.rows.in_order();
        &self.rows
    }

    /// The keys of the rows that are live, whatever the moment, ascending.
    pub fn live(&self) -> Lent<'_, RunKey>
        ensures { result ≡ live_keys self.now.number self.now.list }
    {
        self.live.in_order()
    }

    /// The keys of the rows that are live by the moment, ascending. Looks at the live rows, those whose deadline has come and those
    /// whose deadline comes within 16 s of the moment, and at no other.
    pub fn live_by(&self, alloc: Global, moment: Moment) -> Result<Items<RunKey>, Memory>
        ensures { IfOk result (λ keys. keys ≡ keys_live_by self.now.number moment self.now.list) }
    {
        let mut keys = self.live.copy(alloc)?;
        let _known = self.rows.in_order();
        let _known = self.deadlines.len();
        add_called(&mut keys, &self.deadlines, &self.rows, moment)?;
        keys.to_list(alloc)
    }

    /// From when on which row lapses, unless it changes before.
    pub fn deadlines(&self) -> &Deadlines
        ensures list { result.now.list ≡ self.now.deadlines }
        ensures ascending { IsAscendingDeadlines self.now.deadlines }
        ensures waits { All (Waits self.now.deadlines) self.now.list }
    {
        let _known = self.deadlines.len();
        &self.deadlines
    }

    /// How many bytes the results have that the rows keep.
    pub fn result_bytes(&self) -> u64
        ensures { result ≡ bytes_of_rows self.now.list }
    {
        self.bytes
    }

    /// Makes room for so many more rows than there are now. Fails also where there would be more than 2^32 of them.
    pub fn reserve(&mut self, count: usize) -> Result<(), Memory>
        ensures number { self.new.number ≡ self.old.number }
        ensures same { self.new.list ≡ self.old.list }
        ensures never_less { self.old.room ≤ self.new.room }
        ensures ok { OnOk result (count ≤ self.new.room) }
    {
        self.rows.reserve(count)?;
        let Some(places) = self.rows.len().checked_add(count) else {
            return Err(Memory);
        };
        self.live.reserve(places)?;
        self.deadlines.reserve(places)
    }

    /// Whether a row may lapse by the moment.
    pub fn may_lapse(&self, moment: Moment) -> bool
        ensures { IsFalse result → settled_rows moment self.now.list ≡ self.now.list }
    {
        self.deadlines.due(0, moment).is_some()
    }

    /// Closes each row that has lapsed by the moment. Looks at the rows whose deadline has come, and at no other.
    pub fn settle(&mut self, moment: Moment)
        ensures number { self.new.number ≡ self.old.number }
        ensures rows { self.new.list ≡ settled_rows moment self.old.list }
        ensures room { self.old.room ≤ self.new.room }
    {
        while let Some(key) = self.deadlines.due(0, moment) {
            self.settle_first(key, moment);
        }
    }

    // Closes the row of the first deadline, which has come by the moment, if it has lapsed by then, and takes its own deadline out.
    // Takes the first deadline out where it hasn't.
    fn settle_first(&mut self, key: RunKey, moment: Moment)
        requires { due_keys moment self.old.deadlines ≡ key ∷ due_keys moment (drop 1 self.old.deadlines) }
        ensures number { self.new.number ≡ self.old.number }
        ensures rows { settled_rows moment self.new.list ≡ settled_rows moment self.old.list }
        ensures fewer { length self.new.deadlines < length self.old.deadlines }
        ensures room { self.old.room ≤ self.new.room }
    {
        let _known = self.rows();
        let _known = self.deadlines();
        match self.lapse_of(key, moment) {
            Some((place, closing)) => {
                self.mark_at(place, key, LifeStep::Close(closing.why), closing.moment);
            }
            None => self.deadlines.pass(),
        }
    }

    // Where the row of the key stands, and how and when it lapses, where it does by the moment.
    fn lapse_of(&self, key: RunKey, moment: Moment) -> Option<(usize, Closing)>
        ensures place { IfSome result (λ found. IsPlaceOf self.now.list key found.0) }
        ensures lapse { option_map (λ found. found.1) result ≡ option_and_then (lapse_of moment) (find_row self.now.list key) }
    {
        let place = self.rows.place(key)?;
        let closing = self.rows.at(place).lapse(moment)?;
        Some((place, closing))
    }

    /// Whether a row that is still may go at the moment. Once rows went, it may say so for nothing until `review_purges`.
    pub fn may_purge(&self, moment: Moment) -> bool
        ensures { IsFalse result → StillStay self.now.number self.now.list moment }
    {
        if moment < self.next_purge {
            return false;
        }
        true
    }

    /// Where rows went since, looks among all for the first moment at which one that is still may go.
    pub fn review_purges(&mut self)
        ensures number { self.new.number ≡ self.old.number }
        ensures same { self.new.list ≡ self.old.list }
        ensures room { self.new.room ≡ self.old.room }
    {
        if !self.has_gone {
            return;
        }
        self.next_purge = next_purge(&self.rows, self.number);
        self.has_gone = false;
    }

    /// Sets what a step of life sets in the row of the key.
    pub fn mark(&mut self, key: RunKey, step: LifeStep, moment: Moment)
        requires result { BringsResult step }
        requires moments { All HasMoments (change_row (marked_row step moment) self.old.list key) }
        requires bytes { step_bytes step ≤ most_counted - bytes_of_rows self.old.list }
        ensures number { self.new.number ≡ self.old.number }
        ensures rows { self.new.list ≡ change_row (marked_row step moment) self.old.list key }
        ensures room { self.old.room ≤ self.new.room }
    {
        match self.rows.place(key) {
            Some(place) => self.mark_at(place, key, step, moment),
            None => drop(step),
        }
    }

    // Sets what a step of life sets in the row of the key, which stands at the place.
    fn mark_at(&mut self, place: usize, key: RunKey, step: LifeStep, moment: Moment)
        requires place { IsPlaceOf self.old.list key place }
        requires result { BringsResult step }
        requires moments { All HasMoments (change_row (marked_row step moment) self.old.list key) }
        requires bytes { step_bytes step ≤ most_counted - bytes_of_rows self.old.list }
        ensures number { self.new.number ≡ self.old.number }
        ensures rows { self.new.list ≡ change_row (marked_row step moment) self.old.list key }
        ensures deadlines { self.new.deadlines ≡ refiled key (deadline_at (find_row self.old.list key)) (deadline_at (find_row self.new.list key)) self.old.deadlines }
        ensures room { self.old.room ≤ self.new.room }
    {
        let row = self.rows.at(place);
        let before = row.result_bytes();
        let waited = deadline_of(row);
        let was_live = is_live(row, self.number);
        self.rows.mark_at(place, step, moment);
        let marked = self.rows.at(place);
        let after = marked.result_bytes();
        let waits = deadline_of(marked);
        let lives = is_live(marked, self.number);
        self.bytes = self.bytes - before + after;
        self.deadlines.refile(key, waited, waits);
        self.next_purge = sooner(self.next_purge, &self.rows, place, self.number);
        review(&mut self.live, key, was_live, lives);
    }

    /// Sets what the fact tells in the row of the key.
    pub fn note(&mut self, key: RunKey, fact: Fact, moment: Moment)
        requires results { BringsResults fact }
        requires moments { All HasMoments (change_row (noted_row fact moment) self.old.list key) }
        requires bytes { fact_bytes fact ≤ most_counted - bytes_of_rows self.old.list }
        ensures number { self.new.number ≡ self.old.number }
        ensures rows { self.new.list ≡ change_row (noted_row fact moment) self.old.list key }
        ensures room { self.old.room ≤ self.new.room }
    {
        match self.rows.place(key) {
            Some(place) => self.note_at(place, key, fact, moment),
            None => drop(fact),
        }
    }

    // Sets what the fact tells in the row of the key, which stands at the place.
    fn note_at(&mut self, place: usize, key: RunKey, fact: Fact, moment: Moment)
        requires place { IsPlaceOf self.old.list key place }
        requires results { BringsResults fact }
        requires moments { All HasMoments (change_row (noted_row fact moment) self.old.list key) }
        requires bytes { fact_bytes fact ≤ most_counted - bytes_of_rows self.old.list }
        ensures number { self.new.number ≡ self.old.number }
        ensures rows { self.new.list ≡ change_row (noted_row fact moment) self.old.list key }
        ensures room { self.old.room ≤ self.new.room }
    {
        let row = self.rows.at(place);
        let before = row.result_bytes();
        let waited = deadline_of(row);
        let was_live = is_live(row, self.number);
        self.rows.note_at(place, fact, moment);
        let noted = self.rows.at(place);
        let after = noted.result_bytes();
        let waits = deadline_of(noted);
        let lives = is_live(noted, self.number);
        self.bytes = self.bytes - before + after;
        self.deadlines.refile(key, waited, waits);
        self.next_purge = sooner(self.next_purge, &self.rows, place, self.number);
        review(&mut self.live, key, was_live, lives);
    }

    /// Puts a row that has no results.
    pub fn put(&mut self, row: RunRow)
        requires room { 0 < self.old.room }
        requires new_key { find_row self.old.list row.key ≡ None }
        requires moments { HasMoments row }
        requires bytes { row_bytes row ≡ 0 }
        ensures number { self.new.number ≡ self.old.number }
        ensures rows { self.new.list ≡ put_row self.old.list row }
        ensures room { self.old.room ≤ self.new.room + 1 }
    {
        let _known = self.rows.in_order();
        let key = row.key;
        let waits = deadline_of(&row);
        let lives = is_live(&row, self.number);
        let place = self.rows.put(row);
        self.deadlines.refile(key, None, waits);
        let own = sooner(self.next_purge, &self.rows, place, self.number);
        self.next_purge = sooner_before(own, &self.rows, place, self.number);
        review(&mut self.live, key, false, lives);
    }

    /// Takes the row of the key out for good; its place stays reserved.
    pub fn purge(&mut self, key: RunKey)
        ensures number { self.new.number ≡ self.old.number }
        ensures rows { self.new.list ≡ lift_row self.old.list key }
        ensures room { self.old.room ≤ self.new.room }
    {
        let Some(place) = self.rows.place(key) else {
            return;
        };
        let row = self.rows.at(place);
        self.bytes -= row.result_bytes();
        let waited = deadline_of(row);
        let was_live = is_live(row, self.number);
        self.deadlines.lift(key, waited);
        self.rows.purge(key);
        review(&mut self.live, key, was_live, false);
        self.has_gone = true;
    }

    /// Closes the rows of the reservations in conflict with the run, in favour of it.
    pub fn close_conflicts(&mut self, timeline: &Timeline, run: &Booking, moment: Moment)
        ensures number { self.new.number ≡ self.old.number }
        ensures rows { self.new.list ≡ closed_each moment run.now.key run.now.class run.now.interval timeline.now.list self.old.list }
        ensures room { self.old.room ≤ self.new.room }
    {
        let mut last = None;
        while let Some(key) = timeline.next_conflict(run.class, &run.interval, last) {
            self.preempt(key, run.key, moment);
            last = Some(key);
        }
    }

    // Closes the row of the key in favour of another run.
    fn preempt(&mut self, key: RunKey, by: RunKey, moment: Moment)
        ensures number { self.new.number ≡ self.old.number }
        ensures rows { self.new.list ≡ change_row (close_row (record { moment = moment; why = Preempted by })) self.old.list key }
        ensures room { self.old.room ≤ self.new.room }
    {
        let _known = self.rows();
        self.mark(key, LifeStep::Close(Why::Preempted(by)), moment);
    }
}

// How many bytes of results the rows keep. No memory holds more than the type counts.
fn counted_bytes(rows: &[RunRow]) -> Result<u64, Memory>
    ensures { IfOk result (λ bytes. bytes ≡ bytes_of_rows rows.now) }
{
    let bytes = result_bytes(rows);
    if bytes == u64::MAX {
        return Err(Memory);
    }
    Ok(bytes)
}

// Puts the key of a row that came, changed or goes among those of the live rows, or takes it out, as the row is live after that,
// unless it was so before.
fn review(live: &mut LiveKeys, key: RunKey, before: bool, after: bool)
    requires before { marked before live.old.list key ≡ live.old.list }
    requires place { after ≡ true → find_own live.old.list key ≡ None → length live.old.list < live.old.places }
    ensures list { live.new.list ≡ marked after live.old.list key }
    ensures places { live.new.places ≡ live.old.places }
{
    if before != after {
        live.mark(key, after);
    }
}
