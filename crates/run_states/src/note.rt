//! How a row takes the facts that it keeps.
ghost use Rattle.std.specs.Prelude.{◌≡◌};
ghost use Rattle.run_states.specs.Effect.{accept_row, change_other, confirmed_alone, confirmed_by, is_alone, is_complete, material_row, merge_row, noted_row, tried_row, with_answer};
ghost use Rattle.run_states.specs.LawfulRow.{BringsResults};

use crate::answer::Answer;
use crate::fact::Fact;
use crate::row::RunRow;
use archive_retry::state::ArchiveState;
use ps_time::interval::Interval;
use ps_time::items::Items;
use ps_time::moment::Moment;
use ps_time::text::Text;
use std::mem;

impl RunRow {
    /// Sets what the fact tells, unless the row has it. A place without another participant, and an
    /// index without an archive, change nothing.
    pub fn note(&mut self, fact: Fact, moment: Moment)
        requires results { BringsResults fact }
        ensures { self.new ≡ noted_row fact moment self.old }
    {
        match fact {
            Fact::Planned { tool, interval } => self.plan(tool, interval, moment),
            Fact::Answered { place, answer } => self.take_answer(place, answer, moment),
            Fact::MaterialHeard => self.hear_material(moment),
            Fact::Merged { body, archives } => self.merge(body, archives),
            Fact::Tried { index, state } => self.set_archive(index, state),
        }
    }

    // Accepts the run, and confirms it where the lead is the only participant.
    fn plan(&mut self, tool: Text, interval: Interval, moment: Moment)
        ensures { self.new ≡ confirmed_alone moment (accept_row moment interval tool self.old) }
    {
        self.accept(tool, interval, moment);
        if self.is_booked() && self.is_alone() {
            self.confirm(moment);
        }
    }

    fn accept(&mut self, tool: Text, interval: Interval, moment: Moment)
        ensures { self.new ≡ accept_row moment interval tool self.old }
    {
        if self.tool.is_none() {
            drop(self.tool.replace(tool));
        } else {
            drop(tool);
        }
        if self.interval.is_none() {
            self.interval = Some(interval);
        }
        if self.accepted.is_none() {
            self.accepted = Some(moment);
        }
    }

    // Whether the lead is the only participant.
    fn is_alone(&self) -> bool
        ensures { result ≡ is_alone self.now }
    {
        self.participants.len() == 1
    }

    // Whether every other participant has accepted.
    fn is_complete(&self) -> bool
        ensures { result ≡ is_complete self.now }
    {
        self.others.as_slice().iter().all(|other| other.accepted)
    }

    // Keeps the answer of a participant. An acceptance confirms the run where none is missing any more.
    fn take_answer(&mut self, place: u8, answer: Answer, moment: Moment)
        ensures { self.new ≡ confirmed_by answer moment (change_other (with_answer answer) place self.old) }
    {
        let accepts = answer.is_acceptance();
        self.hear(place, answer);
        if accepts && self.is_booked() && self.is_complete() {
            self.confirm(moment);
        }
    }

    fn hear(&mut self, place: u8, answer: Answer)
        ensures { self.new ≡ change_other (with_answer answer) place self.old }
    {
        let at = usize::from(place);
        if 0 < at && at <= self.others.len() {
            let other = &mut self.others[at - 1];
            other.hear(answer);
        } else {
            drop(answer);
        }
    }

    fn hear_material(&mut self, moment: Moment)
        ensures { self.new ≡ material_row moment self.old }
    {
        if self.material.is_none() {
            self.material = Some(moment);
        }
    }

    fn merge(&mut self, body: Text, archives: Items<ArchiveState>)
        ensures { self.new ≡ merge_row archives body self.old }
    {
        if self.merged.is_none() {
            drop(self.merged.replace(body));
        } else {
            drop(body);
        }
        if self.archives.len() == 0 {
            drop(mem::replace(&mut self.archives, archives));
        } else {
            drop(archives);
        }
    }

    fn set_archive(&mut self, index: u8, state: ArchiveState)
        ensures { self.new ≡ tried_row index state self.old }
    {
        let at = usize::from(index);
        if at < self.archives.len() {
            self.archives.replace(at, state);
        }
    }
}
