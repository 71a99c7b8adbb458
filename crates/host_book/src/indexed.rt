//! A host's book in memory, but for when its tasks wake.
ghost use Rattle.std.specs.Prelude.{◌≡◌, ◌≤◌, ◌<◌, ◌+◌, ◌-◌, [], All, IfOk, IsFalse, OnOk, Some, length, map, vec_capacity};
ghost use Rattle.ps_time.specs.declared.moment.TheConstants.{MAX_MOMENT};
ghost use Rattle.run_states.specs.Life.{settled_rows, HasMoments};
ghost use Rattle.run_states.specs.ResultBytes.{bytes_in, result_bytes as bytes_of_rows};
ghost use Rattle.run_states.specs.Rows.{find_row};
ghost use Rattle.part_core.specs.Reservations.{bookings_of};
ghost use Rattle.host_model.specs.Apply.{apply, close_task, settled};
ghost use Rattle.host_model.specs.Book.{epoch_of, last_limits};
ghost use Rattle.host_model.specs.Effect.{states_due};
ghost use Rattle.host_model.specs.Lawful.{Lawful};
ghost use Rattle.host_model.specs.MayFollow.{CanApply};
ghost use Rattle.host_model.specs.declared.change.Change.TheVariants.{AcceptHeard as AcceptHeardChange, Accepted as AcceptedChange, Asked as AskedChange, Closed as ClosedChange, Confirmed as ConfirmedChange, Ended as EndedChange, FreeHeard as FreeHeardChange, LimitsSet as LimitsSetChange, MaterialHeard as MaterialHeardChange, Merged as MergedChange, Planned as PlannedChange, Posted as PostedChange, Purged as PurgedChange, ResultHeard as ResultHeardChange, Started as StartedChange, TaskClosed as TaskClosedChange, Told as ToldChange, Tried as TriedChange};
ghost use Rattle.run_states.specs.LawfulRow.{BringsResults};
ghost use Rattle.host_rows.specs.Still.{keys_live_by, live_keys, StillStay};
ghost use Rattle.host_book.specs.Host.{noted};
ghost use Rattle.host_rows.specs.Deadlines.{due_keys, IsAscendingDeadlines, Waits};
ghost use Rattle.host_rows.specs.Ledger.{fact_bytes, most_counted, IsNoPlan};
ghost use Rattle.host_model.specs.NewRow.{all_unheard};
ghost use Rattle.host_book.specs.Ready.{brought_bytes, is_heard, is_merged, most_archives, IsBare, IsReady};
ghost use Rattle.host_book.specs.Reservations.{lapses_at, released, without_lapsed};

use crate::merging::states_due;
use crate::new_row::{accepted_row, asked_row, planned_reservation, reservation_of};
use crate::pairs::Pairs;
use crate::parts::Parts;
use crate::ready::Ready;
use crate::restore::restored_timeline;
use archive_retry::state::ArchiveState;
use host_model::change::Change;
use host_model::task_row::TaskRow;
use host_rows::deadlines::Deadlines;
use host_rows::ledger::Ledger;
use host_timeline::timeline::Timeline;
use limit_apply::limits::Limits;
use ps_lists::tiered_lent::Lent;
use ps_time::asker::Asker;
use ps_time::items::Items;
use ps_time::key::RunKey;
use ps_time::memory::Memory;
use ps_time::moment::Moment;
use ps_time::text::Text;
use run_states::answer::{Answer, FreeAnswer, Other, Told};
use run_states::fact::Fact;
use run_states::life::LifeStep;
use run_states::proposal::{Proposal, Question};
use run_states::row::RunRow;
use run_states::rows::Rows;
use run_states::why::Why;
use std::alloc::Global;
use std::marker::Model;

/// A host's book, with what is looked up in it but for when its tasks wake, and places for changes.
pub(crate) struct IndexedBook {
    number: u16,
    moment: Moment,
    epochs: Vec<Limits>,
    pairs: Pairs,
    tasks: Vec<TaskRow>,
    ledger: Ledger,
    // what the booked rows reserve
    timeline: Timeline,
}

impl Model for IndexedBook {
    ghost use Rattle.std.specs.Prelude.{◌≡◌, ◌-◌, vec_len, vec_capacity};
    ghost use Rattle.host_book.specs.Host.{Host as Seen, IsSound, least};

    ghost Value = { Seen };

    ghost view = { λ h. record {
      number = h.number;
      book = record { moment = h.moment; epochs = h.epochs.items; pairs = h.pairs.list; tasks = h.tasks.items; rows = h.ledger.list };
      room = least h.ledger.room h.timeline.room h.pairs.room (vec_capacity h.tasks - vec_len h.tasks) (vec_capacity h.epochs - vec_len h.epochs);
    } };

    ghost invariant = { λ h. IsSound h.number (record { moment = h.moment; epochs = h.epochs.items; pairs = h.pairs.list; tasks = h.tasks.items; rows = h.ledger.list }) h.timeline.list × (h.ledger.number ≡ h.number) };
}

// Written out, so that a drop elsewhere is one call.
impl Drop for IndexedBook {
    fn drop(self) {
        let IndexedBook {
            number: _,
            moment: _,
            epochs: _,
            pairs: _,
            tasks: _,
            ledger: _,
            timeline: _,
        } = self;
    }
}

impl IndexedBook {
    /// The book of these parts, with what is looked up in it, and places for no more. Rows that stand in the order of their
    /// keys are only appended.
    pub(crate) fn restore(alloc: Global, number: u16, parts: Parts) -> Result<IndexedBook, Memory>
        requires lawful { Lawful number parts }
        ensures number { IfOk result (λ h. h.number ≡ number) }
        ensures book { IfOk result (λ h. h.book ≡ parts) }
    {
        let timeline = restored_timeline(alloc, parts.rows.as_slice())?;
        let Parts {
            moment,
            epochs,
            pairs,
            tasks,
            rows,
        } = parts;
        let pairs = Pairs::restore(alloc, pairs)?;
        let ledger = Ledger::restore(alloc, number, rows)?;
        Ok(IndexedBook {
            number,
            moment,
            epochs: epochs.into_vec(),
            pairs,
            tasks: tasks.into_vec(),
            ledger,
            timeline,
        })
    }

    /// That of the host.
    pub(crate) fn number(&self) -> u16
        ensures { result ≡ self.now.number }
    {
        self.number
    }

    /// The latest moment of the book, in seconds since 1970 UTC.
    pub(crate) fn moment(&self) -> Moment
        ensures value { result ≡ self.now.book.moment }
        ensures bound { result ≤ MAX_MOMENT }
    {
        self.moment
    }

    /// The rows, ascending by key.
    pub(crate) fn rows(&self) -> &Rows
        ensures list { result.now.list ≡ self.now.book.rows }
        ensures moments { All HasMoments self.now.book.rows }
        ensures lawful { Lawful self.now.number self.now.book }
    {
        self.ledger.rows()
    }

    /// The keys of the rows that are live whatever the moment, ascending.
    pub(crate) fn live(&self) -> Lent<'_, RunKey>
        ensures { result ≡ live_keys self.now.number self.now.book.rows }
    {
        let _known = self.number;
        self.ledger.live()
    }

    /// The keys of the rows that are live by the moment, ascending.
    pub(crate) fn live_by(&self, alloc: Global, moment: Moment) -> Result<Items<RunKey>, Memory>
        ensures { IfOk result (λ keys. keys ≡ keys_live_by self.now.number moment self.now.book.rows) }
    {
        let _known = self.number;
        self.ledger.live_by(alloc, moment)
    }

    /// What the booked rows reserve.
    pub(crate) fn timeline(&self) -> &Timeline
        ensures { result.now.list ≡ bookings_of self.now.book.rows }
    {
        &self.timeline
    }

    /// The tasks, with the serials 1, 2, 3 and so on.
    pub(crate) fn tasks(&self) -> &[TaskRow]
        ensures { result.now ≡ self.now.book.tasks }
    {
        self.tasks.as_slice()
    }

    /// The limits that were set, numbered from 1.
    pub(crate) fn epochs(&self) -> &[Limits]
        ensures { result.now ≡ self.now.book.epochs }
    {
        self.epochs.as_slice()
    }

    /// For each accepted run the number of its epoch, 0 where there was none; ascending by key.
    pub(crate) fn pairs(&self) -> Lent<'_, (RunKey, u32)>
        ensures { result ≡ self.now.book.pairs }
    {
        self.pairs.in_order()
    }

    /// The number of the epoch under which the run was accepted; 0 where there was none.
    pub(crate) fn epoch_of(&self, key: RunKey) -> Option<u32>
        ensures { result ≡ epoch_of self.now.book key }
    {
        self.pairs.epoch_of(key)
    }

    /// The limits in force: those of the latest epoch, or else those of the configuration.
    pub(crate) fn limits<'a>(&'a self, first: &'a Limits) -> &'a Limits
        ensures { result.now ≡ last_limits first.now self.now.book.epochs }
    {
        match self.epochs.last() {
            Some(limits) => limits,
            None => first,
        }
    }

    /// From when on which row lapses, unless it changes before: a row that lapses by a moment has its key among those whose
    /// deadline has come by then.
    pub(crate) fn deadlines(&self) -> &Deadlines
        ensures ascending { IsAscendingDeadlines result.now.list }
        ensures waits { All (Waits result.now.list) self.now.book.rows }
    {
        let _known = self.number;
        self.ledger.deadlines()
    }

    /// Whether a row may lapse by the moment, in seconds since 1970 UTC; where none does, the rows settle as they are.
    pub(crate) fn may_lapse(&self, moment: Moment) -> bool
        ensures { IsFalse result → settled_rows moment self.now.book.rows ≡ self.now.book.rows }
    {
        let _known = self.number;
        self.ledger.may_lapse(moment)
    }

    /// Whether a row that is still may go at the moment, in seconds since 1970 UTC; where none may, a purging need look at the live
    /// rows alone.
    pub(crate) fn may_purge(&self, moment: Moment) -> bool
        ensures { IsFalse result → StillStay self.now.number self.now.book.rows moment }
    {
        let _known = self.number;
        self.ledger.may_purge(moment)
    }

    /// How many bytes the results have that the rows keep.
    pub(crate) fn result_bytes(&self) -> u64
        ensures { result ≡ bytes_of_rows self.now.book.rows }
    {
        self.ledger.result_bytes()
    }

    /// Makes room for so many changes.
    pub(crate) fn reserve(&mut self, count: usize) -> Result<(), Memory>
        ensures number { self.new.number ≡ self.old.number }
        ensures book { self.new.book ≡ self.old.book }
        ensures never_less { self.old.room ≤ self.new.room }
        ensures room { OnOk result (count ≤ self.new.room) }
    {
        self.ledger.reserve(count)?;
        self.timeline.reserve(count)?;
        self.pairs.reserve(count)?;
        self.tasks.reserve(count)?;
        self.epochs.reserve(count)?;
        Ok(())
    }

    /// The book as it stands at the moment: each row that has lapsed by then is closed.
    pub(crate) fn settle(&mut self, moment: Moment)
        requires later { self.old.book.moment ≤ moment }
        requires bound { moment ≤ MAX_MOMENT }
        ensures number { self.new.number ≡ self.old.number }
        ensures book { self.new.book ≡ settled moment self.old.book }
        ensures room { self.old.room ≤ self.new.room }
    {
        if !self.ledger.may_lapse(moment) {
            self.moment = moment;
            return;
        }
        release_lapsed(
            &mut self.timeline,
            self.ledger.deadlines(),
            self.ledger.rows(),
            moment,
        );
        self.ledger.settle(moment);
        self.moment = moment;
    }

    /// Takes a change in, at the book's moment. Takes no memory.
    pub(crate) fn absorb(&mut self, ready: Ready)
        requires room { 0 < self.old.room }
        requires can { CanApply self.old.book ready.change }
        requires lawful { Lawful self.old.number (apply self.old.book.moment ready.change self.old.book) }
        requires ready { IsReady ready }
        requires bytes { brought_bytes ready.change ≤ most_counted - bytes_of_rows self.old.book.rows }
        ensures number { self.new.number ≡ self.old.number }
        ensures book { self.new.book ≡ apply self.old.book.moment ready.change self.old.book }
        ensures room { self.old.room ≤ self.new.room + 1 }
    {
        let Ready {
            change,
            others,
            archives,
        } = ready;
        match change {
            Change::Accepted {
                proposal,
                participants,
                epoch,
            } => self.accept(
                proposal.into_value(),
                participants,
                epoch,
                others,
                Items::from_vec(archives),
            ),
            Change::Asked {
                question,
                participants,
                asker,
            } => self.ask(
                question.into_value(),
                participants,
                asker,
                others,
                Items::from_vec(archives),
            ),
            Change::Merged { key, body } => self.merge(key, body, archives),
            change => self.absorb_bare(change),
        }
    }

    // Takes a change in that needs no lists.
    fn absorb_bare(&mut self, change: Change)
        requires room { 0 < self.old.room }
        requires bare { IsBare change }
        requires can { CanApply self.old.book change }
        requires lawful { Lawful self.old.number (apply self.old.book.moment change self.old.book) }
        requires bytes { brought_bytes change ≤ most_counted - bytes_of_rows self.old.book.rows }
        ensures number { self.new.number ≡ self.old.number }
        ensures book { self.new.book ≡ apply self.old.book.moment change self.old.book }
        ensures room { self.old.room ≤ self.new.room + 1 }
    {
        match change {
            Change::Posted(task) => self.post(task.into_value()),
            Change::TaskClosed(serial) => self.close_task(serial),
            Change::Planned {
                key,
                start,
                tool,
                epoch,
            } => self.plan(key, start, tool, epoch),
            Change::Confirmed(key) => self.confirm(key),
            Change::Closed { key, why } => self.close(key, why),
            Change::Started(key) => self.start(key),
            Change::Ended { key, good, body } => self.end(key, good, body),
            Change::FreeHeard { key, place, answer } => self.hear_free(key, place, answer),
            Change::AcceptHeard { key, place } => self.hear_acceptance(key, place),
            Change::Told { key, place, told } => self.hear_told(key, place, told),
            Change::MaterialHeard(key) => self.hear_material(key),
            Change::ResultHeard { key, place, result } => self.hear_result(key, place, result),
            Change::Tried { key, index, state } => self.set_archive(key, index, state),
            Change::LimitsSet(limits) => self.set_limits(limits.into_value()),
            Change::Purged(key) => self.purge(key),
            Change::Accepted { .. } | Change::Asked { .. } | Change::Merged { .. } =>
                unreachable!(),
        }
    }

    /// Where rows went, looks anew for the first moment at which one that is still may go.
    pub(crate) fn review_purges(&mut self)
        ensures number { self.new.number ≡ self.old.number }
        ensures book { self.new.book ≡ self.old.book }
        ensures room { self.new.room ≡ self.old.room }
    {
        self.ledger.review_purges();
    }

    // The run of the key is confirmed.
    fn confirm(&mut self, key: RunKey)
        requires lawful { Lawful self.old.number (apply self.old.book.moment (ConfirmedChange key) self.old.book) }
        ensures number { self.new.number ≡ self.old.number }
        ensures book { self.new.book ≡ apply self.old.book.moment (ConfirmedChange key) self.old.book }
        ensures room { self.old.room ≤ self.new.room }
    {
        self.ledger.mark(key, LifeStep::Confirm, self.moment);
    }

    // The run of the key starts, so that it can't be preempted any more.
    fn start(&mut self, key: RunKey)
        requires lawful { Lawful self.old.number (apply self.old.book.moment (StartedChange key) self.old.book) }
        ensures number { self.new.number ≡ self.old.number }
        ensures book { self.new.book ≡ apply self.old.book.moment (StartedChange key) self.old.book }
        ensures room { self.old.room ≤ self.new.room }
    {
        self.ledger.mark(key, LifeStep::Start, self.moment);
        self.timeline.mark_started(key);
    }

    // The run of the key ends.
    fn end(&mut self, key: RunKey, good: bool, body: Text)
        requires can { CanApply self.old.book (EndedChange key good body) }
        requires lawful { Lawful self.old.number (apply self.old.book.moment (EndedChange key good body) self.old.book) }
        requires bytes { length body ≤ most_counted - bytes_of_rows self.old.book.rows }
        ensures number { self.new.number ≡ self.old.number }
        ensures book { self.new.book ≡ apply self.old.book.moment (EndedChange key good body) self.old.book }
        ensures room { self.old.room ≤ self.new.room }
    {
        self.ledger
            .mark(key, LifeStep::End { good, body }, self.moment);
    }

    // The run of the key is given up, and reserves nothing any more.
    fn close(&mut self, key: RunKey, why: Why)
        requires lawful { Lawful self.old.number (apply self.old.book.moment (ClosedChange key why) self.old.book) }
        ensures number { self.new.number ≡ self.old.number }
        ensures book { self.new.book ≡ apply self.old.book.moment (ClosedChange key why) self.old.book }
        ensures room { self.old.room ≤ self.new.room }
    {
        self.ledger.mark(key, LifeStep::Close(why), self.moment);
        self.timeline.release(key);
    }

    // A fact comes to the run of the key that accepts nothing.
    fn note(&mut self, key: RunKey, fact: Fact)
        requires no_plan { IsNoPlan fact }
        requires results { BringsResults fact }
        requires lawful { Lawful self.old.number (noted key fact self.old.book) }
        requires bytes { fact_bytes fact ≤ most_counted - bytes_of_rows self.old.book.rows }
        ensures number { self.new.number ≡ self.old.number }
        ensures book { self.new.book ≡ noted key fact self.old.book }
        ensures room { self.old.room ≤ self.new.room }
    {
        self.ledger.note(key, fact, self.moment);
    }

    // A participant told when it is free.
    fn hear_free(&mut self, key: RunKey, place: u8, answer: FreeAnswer)
        requires lawful { Lawful self.old.number (apply self.old.book.moment (FreeHeardChange key place answer) self.old.book) }
        ensures number { self.new.number ≡ self.old.number }
        ensures book { self.new.book ≡ apply self.old.book.moment (FreeHeardChange key place answer) self.old.book }
        ensures room { self.old.room ≤ self.new.room }
    {
        let answer = Answer::Free(answer);
        self.note(key, Fact::Answered { place, answer });
    }

    // A participant accepted.
    fn hear_acceptance(&mut self, key: RunKey, place: u8)
        requires lawful { Lawful self.old.number (apply self.old.book.moment (AcceptHeardChange key place) self.old.book) }
        ensures number { self.new.number ≡ self.old.number }
        ensures book { self.new.book ≡ apply self.old.book.moment (AcceptHeardChange key place) self.old.book }
        ensures room { self.old.room ≤ self.new.room }
    {
        let answer = Answer::Accepted;
        self.note(key, Fact::Answered { place, answer });
    }

    // A participant acknowledged what it was told.
    fn hear_told(&mut self, key: RunKey, place: u8, told: Told)
        requires lawful { Lawful self.old.number (apply self.old.book.moment (ToldChange key place told) self.old.book) }
        ensures number { self.new.number ≡ self.old.number }
        ensures book { self.new.book ≡ apply self.old.book.moment (ToldChange key place told) self.old.book }
        ensures room { self.old.room ≤ self.new.room }
    {
        let answer = Answer::Acknowledged(told);
        self.note(key, Fact::Answered { place, answer });
    }

    // The material of the run came.
    fn hear_material(&mut self, key: RunKey)
        requires lawful { Lawful self.old.number (apply self.old.book.moment (MaterialHeardChange key) self.old.book) }
        ensures number { self.new.number ≡ self.old.number }
        ensures book { self.new.book ≡ apply self.old.book.moment (MaterialHeardChange key) self.old.book }
        ensures room { self.old.room ≤ self.new.room }
    {
        self.note(key, Fact::MaterialHeard);
    }

    // An archiver was tried.
    fn set_archive(&mut self, key: RunKey, index: u8, state: ArchiveState)
        requires lawful { Lawful self.old.number (apply self.old.book.moment (TriedChange key index state) self.old.book) }
        ensures number { self.new.number ≡ self.old.number }
        ensures book { self.new.book ≡ apply self.old.book.moment (TriedChange key index state) self.old.book }
        ensures room { self.old.room ≤ self.new.room }
    {
        self.note(key, Fact::Tried { index, state });
    }

    // A participant told its result; where it is heard already, that stays.
    fn hear_result(&mut self, key: RunKey, place: u8, told: Option<Text>)
        requires can { CanApply self.old.book (ResultHeardChange key place told) }
        requires lawful { Lawful self.old.number (apply self.old.book.moment (ResultHeardChange key place told) self.old.book) }
        requires bytes { bytes_in told ≤ most_counted - bytes_of_rows self.old.book.rows }
        ensures number { self.new.number ≡ self.old.number }
        ensures book { self.new.book ≡ apply self.old.book.moment (ResultHeardChange key place told) self.old.book }
        ensures room { self.old.room ≤ self.new.room }
    {
        if is_heard(self.ledger.rows(), key, place) {
            drop(told);
            return;
        }
        let answer = Answer::Result(told);
        self.note(key, Fact::Answered { place, answer });
    }

    // The results were merged; where they are merged already, that stays.
    fn merge(&mut self, key: RunKey, body: Text, places: Vec<ArchiveState>)
        requires can { CanApply self.old.book (MergedChange key body) }
        requires lawful { Lawful self.old.number (apply self.old.book.moment (MergedChange key body) self.old.book) }
        requires empty { places.items ≡ [] }
        requires places { most_archives ≤ vec_capacity places }
        requires bytes { length body ≤ most_counted - bytes_of_rows self.old.book.rows }
        ensures number { self.new.number ≡ self.old.number }
        ensures book { self.new.book ≡ apply self.old.book.moment (MergedChange key body) self.old.book }
        ensures room { self.old.room ≤ self.new.room }
    {
        if is_merged(self.ledger.rows(), key) {
            drop(body);
            return;
        }
        let archives = states_due(self.moment, self.tasks.as_slice(), key, places);
        self.note(key, Fact::Merged { body, archives });
    }

    // A proposal is accepted: all that is in conflict with it gives way, and it gets a row and a pair.
    fn accept(
        &mut self,
        proposal: Proposal,
        participants: Items<Text>,
        epoch: u32,
        others: Items<Other>,
        archives: Items<ArchiveState>,
    )
        requires room { 0 < self.old.room }
        requires can { CanApply self.old.book (AcceptedChange proposal participants epoch) }
        requires lawful { Lawful self.old.number (apply self.old.book.moment (AcceptedChange proposal participants epoch) self.old.book) }
        requires lists { (others ≡ []) × (archives ≡ []) }
        ensures number { self.new.number ≡ self.old.number }
        ensures book { self.new.book ≡ apply self.old.book.moment (AcceptedChange proposal participants epoch) self.old.book }
        ensures room { self.old.room ≤ self.new.room + 1 }
    {
        let moment = self.moment;
        let run = reservation_of(&proposal);
        self.ledger.close_conflicts(&self.timeline, &run, moment);
        self.timeline.release_conflicts(run.class, &run.interval);
        self.timeline.book(run);
        self.pairs.put(proposal.key, epoch);
        let row = accepted_row(moment, proposal, participants, others, archives);
        self.ledger.put(row);
    }

    // The lead asks about a run, which gets a row.
    fn ask(
        &mut self,
        question: Question,
        participants: Items<Text>,
        asker: Asker,
        others: Items<Other>,
        archives: Items<ArchiveState>,
    )
        requires room { 0 < self.old.room }
        requires can { CanApply self.old.book (AskedChange question participants asker) }
        requires lawful { Lawful self.old.number (apply self.old.book.moment (AskedChange question participants asker) self.old.book) }
        requires lists { (others ≡ all_unheard participants) × (archives ≡ []) }
        ensures number { self.new.number ≡ self.old.number }
        ensures book { self.new.book ≡ apply self.old.book.moment (AskedChange question participants asker) self.old.book }
        ensures room { self.old.room ≤ self.new.room + 1 }
    {
        let row = asked_row(self.moment, question, participants, asker, others, archives);
        self.ledger.put(row);
    }

    // A run that was asked about is accepted: all that is in conflict with it gives way, and it gets a pair.
    fn plan(&mut self, key: RunKey, start: Moment, tool: Text, epoch: u32)
        requires room { 0 < self.old.room }
        requires can { CanApply self.old.book (PlannedChange key start tool epoch) }
        requires lawful { Lawful self.old.number (apply self.old.book.moment (PlannedChange key start tool epoch) self.old.book) }
        ensures number { self.new.number ≡ self.old.number }
        ensures book { self.new.book ≡ apply self.old.book.moment (PlannedChange key start tool epoch) self.old.book }
        ensures room { self.old.room ≤ self.new.room + 1 }
    {
        let Some(row) = self.ledger.rows().find(key) else {
            unreachable!()
        };
        let run = planned_reservation(row, start);
        self.ledger
            .close_conflicts(&self.timeline, &run, self.moment);
        self.timeline.release_conflicts(run.class, &run.interval);
        self.timeline.book(run);
        self.pairs.put(key, epoch);
        let interval = run.interval;
        self.ledger
            .note(key, Fact::Planned { tool, interval }, self.moment);
    }

    // The row of a run that is long past goes, with its pair and what it reserved.
    fn purge(&mut self, key: RunKey)
        requires lawful { Lawful self.old.number (apply self.old.book.moment (PurgedChange key) self.old.book) }
        ensures number { self.new.number ≡ self.old.number }
        ensures book { self.new.book ≡ apply self.old.book.moment (PurgedChange key) self.old.book }
        ensures room { self.old.room ≤ self.new.room }
    {
        self.timeline.release(key);
        self.pairs.purge(key);
        self.ledger.purge(key);
    }

    // A task is kept.
    fn post(&mut self, task: TaskRow)
        requires room { 0 < self.old.room }
        requires lawful { Lawful self.old.number (apply self.old.book.moment (PostedChange task) self.old.book) }
        ensures number { self.new.number ≡ self.old.number }
        ensures book { self.new.book ≡ apply self.old.book.moment (PostedChange task) self.old.book }
        ensures room { self.old.room ≤ self.new.room + 1 }
    {
        self.tasks.push(task).unwrap();
    }

    // The task of the serial is canceled.
    fn close_task(&mut self, serial: u32)
        requires lawful { Lawful self.old.number (apply self.old.book.moment (TaskClosedChange serial) self.old.book) }
        ensures number { self.new.number ≡ self.old.number }
        ensures book { self.new.book ≡ apply self.old.book.moment (TaskClosedChange serial) self.old.book }
        ensures room { self.old.room ≤ self.new.room }
    {
        close_task(&mut self.tasks, serial, self.moment);
    }

    // New limits are in force.
    fn set_limits(&mut self, limits: Limits)
        requires room { 0 < self.old.room }
        requires lawful { Lawful self.old.number (apply self.old.book.moment (LimitsSetChange limits) self.old.book) }
        ensures number { self.new.number ≡ self.old.number }
        ensures book { self.new.book ≡ apply self.old.book.moment (LimitsSetChange limits) self.old.book }
        ensures room { self.old.room ≤ self.new.room + 1 }
    {
        self.epochs.push(limits).unwrap();
    }
}

// Whether the participant at the place of the run told its result, or that it has none.
fn is_heard(rows: &Rows, key: RunKey, place: u8) -> bool
    ensures { result ≡ is_heard place (find_row rows.now.list key) }
{
    let at = usize::from(place);
    let Some(row) = rows.find(key) else {
        return false;
    };
    if 0 < at && at <= row.others.len() {
        row.others[at - 1].heard.is_some()
    } else {
        false
    }
}

// Whether the results of the run are merged.
fn is_merged(rows: &Rows, key: RunKey) -> bool
    ensures { result ≡ is_merged (find_row rows.now.list key) }
{
    match rows.find(key) {
        Some(row) => row.merged.is_some(),
        None => false,
    }
}

// Sets when the task of the serial was canceled, unless it was so before.
fn close_task(tasks: &mut [TaskRow], serial: u32, moment: Moment)
    ensures { tasks.new ≡ map (close_task moment serial) tasks.old }
{
    for task in tasks.iter_mut() {
        close_one(task, serial, moment);
    }
}

fn close_one(task: &mut TaskRow, serial: u32, moment: Moment)
    ensures { task.new ≡ close_task moment serial task.old }
{
    if task.serial == serial && task.closed.is_none() {
        task.closed = Some(moment);
    }
}

// Takes the reservations of the rows out that lapse by the moment, which are among those whose deadline has come.
fn release_lapsed(timeline: &mut Timeline, deadlines: &Deadlines, rows: &Rows, moment: Moment)
    requires { All HasMoments rows.now.list }
    ensures list { timeline.new.list ≡ released moment rows.now.list (due_keys moment deadlines.now.list) timeline.old.list }
    ensures room { timeline.old.room ≤ timeline.new.room }
{
    for place in 0..deadlines.len() {
        let Some(key) = deadlines.due(place, moment) else {
            return;
        };
        release_if_lapsed(timeline, rows, key, moment);
    }
}

fn release_if_lapsed(timeline: &mut Timeline, rows: &Rows, key: RunKey, moment: Moment)
    requires { All HasMoments rows.now.list }
    ensures list { timeline.new.list ≡ without_lapsed moment rows.now.list key timeline.old.list }
    ensures room { timeline.old.room ≤ timeline.new.room }
{
    if has_lapsed(rows, key, moment) {
        timeline.release(key);
    }
}

fn has_lapsed(rows: &Rows, key: RunKey, moment: Moment) -> bool
    requires { All HasMoments rows.now.list }
    ensures { result ≡ lapses_at moment (find_row rows.now.list key) }
{
    match rows.find(key) {
        Some(row) => row.lapse(moment).is_some(),
        None => false,
    }
}
