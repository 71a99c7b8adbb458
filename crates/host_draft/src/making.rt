//! The changes that a step makes in its draft, and reads on.
ghost use Rattle.std.specs.Prelude.{◌≡◌, OnErr, OnOk, Some, false, true};
ghost use Rattle.run_states.specs.Rows.{find_row};
ghost use Rattle.host_book.specs.Ready.{is_merged};
ghost use Rattle.host_model.specs.Apply.{apply};
ghost use Rattle.host_model.specs.Draft.{make};
ghost use Rattle.host_model.specs.Lawful.{Lawful};
ghost use Rattle.host_model.specs.MayFollow.{CanApply};
ghost use Rattle.host_model.specs.RecordLength.{change_bytes};
ghost use Rattle.host_model.specs.declared.change.Change.TheVariants.{Asked as AskedChange, Closed as ClosedChange, Ended as EndedChange, Merged as MergedChange, Planned as PlannedChange, Purged as PurgedChange, Started as StartedChange};
ghost use Rattle.host_draft.specs.Draft.{with_draft};
ghost use Rattle.host_draft.specs.Making.{IsAdmitted, IsReadOn, made_in};
ghost use Rattle.draft_parts.specs.Way.{IsPlannedWay};

use crate::draft::Draft;
use draft_parts::bringing::asked_row;
use draft_parts::counting::{bytes_over, mark, note};
use draft_parts::giving_way::{Incoming, close_each, copy_way, planned_way};
use draft_parts::length::change_length;
use draft_parts::overlay::{find_over, touch};
use host_book::merging::{archive_places, states_due};
use host_model::change::Change;
use ps_time::asker::Asker;
use ps_time::boxed::Boxed;
use ps_time::items::Items;
use ps_time::key::RunKey;
use ps_time::memory::Memory;
use ps_time::moment::Moment;
use ps_time::text::Text;
use run_states::fact::Fact;
use run_states::life::LifeStep;
use run_states::proposal::Question;
use run_states::why::Why;
use std::alloc::Global;

impl<'a> Draft<'a> {
    /// Makes a change in the draft where it has a place and bytes for it; where it hasn't, the step makes no more. After
    /// `Memory` the draft is as it was.
    pub fn make(&mut self, alloc: Global, change: Change) -> Result<(), Memory>
        requires kind { IsReadOn change }
        requires can { CanApply self.old.draft.book change }
        requires lawful { Lawful self.old.number (apply self.old.draft.book.moment change self.old.draft.book) }
        ensures made { OnOk result (self.new ≡ with_draft (make self.old.draft.book.moment (Some change) self.old.draft) self.old) }
        ensures unchanged { OnErr result (self.new ≡ self.old) }
        ensures number { self.new.number ≡ self.old.number }
        ensures limits { self.new.limits ≡ self.old.limits }
    {
        if self.log.is_full() {
            drop(change);
            return Ok(());
        }
        match change_length(alloc, &change) {
            Ok(length) => self.make_long(alloc, change, length),
            Err(fault) => {
                drop(change);
                Err(fault)
            }
        }
    }

    // Makes a change that takes so many bytes.
    fn make_long(&mut self, alloc: Global, change: Change, length: u64) -> Result<(), Memory>
        requires kind { IsReadOn change }
        requires can { CanApply self.old.draft.book change }
        requires lawful { Lawful self.old.number (apply self.old.draft.book.moment change self.old.draft.book) }
        requires bytes { length ≡ change_bytes change }
        ensures made { OnOk result (self.new ≡ made_in change self.old) }
        ensures unchanged { OnErr result (self.new ≡ self.old) }
    {
        if !self.log.admits(length) {
            drop(change);
            self.log.end();
            return Ok(());
        }
        self.make_admitted(alloc, change, length)
    }

    // Makes a change for which there is place.
    fn make_admitted(&mut self, alloc: Global, change: Change, length: u64) -> Result<(), Memory>
        requires kind { IsReadOn change }
        requires admitted { IsAdmitted length change self.old }
        ensures made { OnOk result (self.new ≡ made_in change self.old) }
        ensures unchanged { OnErr result (self.new ≡ self.old) }
    {
        match change {
            Change::Ended { key, good, body } => self.make_ended(alloc, key, good, body, length),
            Change::Merged { key, body } => self.make_merged(alloc, key, body, length),
            Change::Started(key) => self.make_started(alloc, key, length),
            Change::Planned {
                key,
                start,
                tool,
                epoch,
            } => self.make_planned(alloc, key, start, tool, epoch, length),
            Change::Closed { key, why } => self.make_closed(alloc, key, why, length),
            Change::Asked {
                question,
                participants,
                asker,
            } => self.make_asked(alloc, question, participants, asker, length),
            Change::Purged(key) => self.make_purged(alloc, key, length),
            Change::Posted(_)
            | Change::TaskClosed(_)
            | Change::Accepted { .. }
            | Change::Confirmed(_)
            | Change::FreeHeard { .. }
            | Change::AcceptHeard { .. }
            | Change::Told { .. }
            | Change::MaterialHeard(_)
            | Change::ResultHeard { .. }
            | Change::Tried { .. }
            | Change::LimitsSet(_) => unreachable!(),
        }
    }

    // The run of the key starts.
    fn make_started(&mut self, alloc: Global, key: RunKey, length: u64) -> Result<(), Memory>
        requires { IsAdmitted length (StartedChange key) self.old }
        ensures made { OnOk result (self.new ≡ made_in (StartedChange key) self.old) }
        ensures unchanged { OnErr result (self.new ≡ self.old) }
    {
        self.log.reserve()?;
        let gone = self.gone.as_slice();
        touch(alloc, &mut self.touched, gone, self.book.rows(), key)?;
        self.touched.mark(key, LifeStep::Start, self.moment);
        self.log.push(Change::Started(key), length);
        Ok(())
    }

    // The run of the key is given up.
    fn make_closed(
        &mut self,
        alloc: Global,
        key: RunKey,
        why: Why,
        length: u64,
    ) -> Result<(), Memory>
        requires { IsAdmitted length (ClosedChange key why) self.old }
        ensures made { OnOk result (self.new ≡ made_in (ClosedChange key why) self.old) }
        ensures unchanged { OnErr result (self.new ≡ self.old) }
    {
        self.log.reserve()?;
        let gone = self.gone.as_slice();
        touch(alloc, &mut self.touched, gone, self.book.rows(), key)?;
        let kept = why.copy(alloc)?;
        self.touched.mark(key, LifeStep::Close(kept), self.moment);
        self.log.push(Change::Closed { key, why }, length);
        Ok(())
    }

    // The run of the key ends.
    fn make_ended(
        &mut self,
        alloc: Global,
        key: RunKey,
        good: bool,
        body: Text,
        length: u64,
    ) -> Result<(), Memory>
        requires { IsAdmitted length (EndedChange key good body) self.old }
        ensures made { OnOk result (self.new ≡ made_in (EndedChange key good body) self.old) }
        ensures unchanged { OnErr result (self.new ≡ self.old) }
    {
        self.log.reserve()?;
        let gone = self.gone.as_slice();
        touch(alloc, &mut self.touched, gone, self.book.rows(), key)?;
        let kept = body.copy(alloc)?;
        let step = LifeStep::End { good, body: kept };
        self.bytes = mark(&mut self.touched, self.bytes, key, step, self.moment);
        self.log.push(Change::Ended { key, good, body }, length);
        Ok(())
    }

    // The results were merged; where they are merged already, that stays.
    fn make_merged(
        &mut self,
        alloc: Global,
        key: RunKey,
        body: Text,
        length: u64,
    ) -> Result<(), Memory>
        requires { IsAdmitted length (MergedChange key body) self.old }
        ensures made { OnOk result (self.new ≡ made_in (MergedChange key body) self.old) }
        ensures unchanged { OnErr result (self.new ≡ self.old) }
    {
        if self.is_merged(key) {
            return self.merge_again(key, body, length);
        }
        self.merge(alloc, key, body, length)
    }

    // Whether the results of the run are merged.
    fn is_merged(&self, key: RunKey) -> bool
        ensures { result ≡ is_merged (find_row self.now.draft.book.rows key) }
    {
        let gone = self.gone.as_slice();
        match find_over(&self.touched, gone, self.book.rows(), key) {
            Some(row) => row.merged.is_some(),
            None => false,
        }
    }

    // Results come to a run whose results are merged already.
    fn merge_again(&mut self, key: RunKey, body: Text, length: u64) -> Result<(), Memory>
        requires admitted { IsAdmitted length (MergedChange key body) self.old }
        requires merged { is_merged (find_row self.old.draft.book.rows key) ≡ true }
        ensures made { OnOk result (self.new ≡ made_in (MergedChange key body) self.old) }
        ensures unchanged { OnErr result (self.new ≡ self.old) }
    {
        self.log.reserve()?;
        self.log.push(Change::Merged { key, body }, length);
        Ok(())
    }

    // The results of the run are merged.
    fn merge(&mut self, alloc: Global, key: RunKey, body: Text, length: u64) -> Result<(), Memory>
        requires admitted { IsAdmitted length (MergedChange key body) self.old }
        requires unmerged { is_merged (find_row self.old.draft.book.rows key) ≡ false }
        ensures made { OnOk result (self.new ≡ made_in (MergedChange key body) self.old) }
        ensures unchanged { OnErr result (self.new ≡ self.old) }
    {
        self.log.reserve()?;
        let gone = self.gone.as_slice();
        touch(alloc, &mut self.touched, gone, self.book.rows(), key)?;
        let places = archive_places(alloc)?;
        let kept = body.copy(alloc)?;
        let archives = states_due(self.moment, self.book.tasks(), key, places);
        let fact = Fact::Merged {
            body: kept,
            archives,
        };
        self.bytes = note(&mut self.touched, self.bytes, key, fact, self.moment);
        self.log.push(Change::Merged { key, body }, length);
        Ok(())
    }

    // The row of a run that is long past goes.
    fn make_purged(&mut self, alloc: Global, key: RunKey, length: u64) -> Result<(), Memory>
        requires { IsAdmitted length (PurgedChange key) self.old }
        ensures made { OnOk result (self.new ≡ made_in (PurgedChange key) self.old) }
        ensures unchanged { OnErr result (self.new ≡ self.old) }
    {
        self.log.reserve()?;
        self.gone.reserve(1)?;
        let gone = self.gone.as_slice();
        self.bytes -= bytes_over(&self.touched, gone, self.book.rows(), key);
        self.count -= 1;
        self.touched.purge(key);
        self.gone.push(key).unwrap();
        self.log.push(Change::Purged(key), length);
        Ok(())
    }

    // The lead asks about a run, which gets a row.
    fn make_asked(
        &mut self,
        alloc: Global,
        question: Boxed<Question>,
        participants: Items<Text>,
        asker: Asker,
        length: u64,
    ) -> Result<(), Memory>
        requires { IsAdmitted length (AskedChange question participants asker) self.old }
        ensures made { OnOk result (self.new ≡ made_in (AskedChange question participants asker) self.old) }
        ensures unchanged { OnErr result (self.new ≡ self.old) }
    {
        self.log.reserve()?;
        self.touched.reserve(1)?;
        let row = asked_row(alloc, self.moment, question.value(), &participants, &asker)?;
        self.touched.put(row);
        self.count += 1;
        let change = Change::Asked {
            question,
            participants,
            asker,
        };
        self.log.push(change, length);
        Ok(())
    }

    // A run that was asked about is accepted.
    fn make_planned(
        &mut self,
        alloc: Global,
        key: RunKey,
        start: Moment,
        tool: Text,
        epoch: u32,
        length: u64,
    ) -> Result<(), Memory>
        requires { IsAdmitted length (PlannedChange key start tool epoch) self.old }
        ensures made { OnOk result (self.new ≡ made_in (PlannedChange key start tool epoch) self.old) }
        ensures unchanged { OnErr result (self.new ≡ self.old) }
    {
        let gone = self.gone.as_slice();
        let Some(row) = find_over(&self.touched, gone, self.book.rows(), key) else {
            unreachable!()
        };
        let run = planned_way(row, start);
        self.plan(alloc, run, start, tool, epoch, length)
    }

    // All that is in conflict with the run gives way, and the run is accepted.
    fn plan(
        &mut self,
        alloc: Global,
        run: Incoming,
        start: Moment,
        tool: Text,
        epoch: u32,
        length: u64,
    ) -> Result<(), Memory>
        requires admitted { IsAdmitted length (PlannedChange run.key start tool epoch) self.old }
        requires run { IsPlannedWay start run self.old.draft.book.rows }
        ensures made { OnOk result (self.new ≡ made_in (PlannedChange run.key start tool epoch) self.old) }
        ensures unchanged { OnErr result (self.new ≡ self.old) }
    {
        self.log.reserve()?;
        let (gone, rows) = (self.gone.as_slice(), self.book.rows());
        let timeline = self.book.timeline();
        let way = copy_way(alloc, &mut self.touched, gone, rows, timeline, &run)?;
        let name = tool.copy(alloc)?;
        close_each(&mut self.touched, way.as_slice(), run.key, self.moment);
        let fact = Fact::Planned {
            tool: name,
            interval: run.interval,
        };
        self.touched.note(run.key, fact, self.moment);
        let change = Change::Planned {
            key: run.key,
            start,
            tool,
            epoch,
        };
        self.log.push(change, length);
        Ok(())
    }
}
