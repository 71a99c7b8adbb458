//! The life of a row: its steps, how it lapses, and its state at a moment.
ghost use Rattle.std.specs.Prelude.{◌≡◌, ℕ, ◌≤◌, Some, None, OnOk, OnErr};
ghost use Rattle.ps_time.specs.declared.moment.TheConstants.{MAX_MOMENT};
ghost use Rattle.archive_retry.specs.Merge.{IsResultText};
ghost use Rattle.run_states.specs.LawfulRow.{BringsResult};
ghost use Rattle.run_states.specs.Life.{is_booked, is_active, confirm_row, start_row, end_row, close_row, marked_row, may_take, advanced, lapse_asked, lapse_held, lapse_missed, lapse_of, settled_row, closed_state, started_state, state_of, IsInTime, HasMoments};

use crate::row::{Ending, RunRow};
use crate::state::State;
use crate::why::{Cause, Closing, Why};
use ps_time::interval::Interval;
use ps_time::moment::{Moment, ON_DECK};
use ps_time::text::Text;

/// How long a question and an acceptance hold, in seconds.
pub const HOLD: u64 = 60;

/// How long after its start a run may still be started, and how long after its end it may take to
/// clean up, in seconds.
pub const GRACE: u64 = 15;

/// A step in the life of a row.
#[derive(Drop)]
pub enum LifeStep {
    /// The run is confirmed.
    Confirm,
    /// Its tool is started.
    Start,
    /// It ends with a result.
    End {
        /// Whether the run succeeded.
        good: bool,
        /// The result, a JSON text.
        body: Text,
    },
    /// It is given up.
    Close(Why),
}

/// The row's life has no such step.
#[derive(Clone, Copy)]
pub struct Wrong;

impl RunRow {
    /// Whether the run was accepted here, and isn't closed.
    pub fn is_booked(&self) -> bool
        ensures { result ≡ is_booked self.now }
    {
        self.accepted.is_some() && self.closed.is_none()
    }

    /// Whether the run has started and not ended.
    pub fn is_active(&self) -> bool
        ensures { result ≡ is_active self.now }
    {
        self.started.is_some() && self.ended.is_none()
    }

    /// Sets the moment of the confirmation, unless the row has one.
    pub(crate) fn confirm(&mut self, moment: Moment)
        ensures { self.new ≡ confirm_row moment self.old }
    {
        if self.confirmed.is_none() {
            self.confirmed = Some(moment);
        }
    }

    /// Sets the moment of the start, unless the row has one.
    pub(crate) fn start(&mut self, moment: Moment)
        ensures { self.new ≡ start_row moment self.old }
    {
        if self.started.is_none() {
            self.started = Some(moment);
        }
    }

    /// Sets how the run ended, unless it ended before.
    pub(crate) fn end(&mut self, ending: Ending)
        requires result { IsResultText ending.body }
        ensures { self.new ≡ end_row ending self.old }
    {
        if self.ended.is_none() {
            drop(self.ended.replace(ending));
        } else {
            drop(ending);
        }
    }

    /// Closes the row, unless it is closed.
    pub(crate) fn close(&mut self, closing: Closing)
        ensures { self.new ≡ close_row closing self.old }
    {
        if self.closed.is_none() {
            drop(self.closed.replace(closing));
        } else {
            drop(closing);
        }
    }

    /// Sets what the step sets, unless the row has it.
    pub(crate) fn mark(&mut self, step: LifeStep, moment: Moment)
        requires result { BringsResult step }
        ensures { self.new ≡ marked_row step moment self.old }
    {
        match step {
            LifeStep::Confirm => self.confirm(moment),
            LifeStep::Start => self.start(moment),
            LifeStep::End { good, body } => self.end(Ending { moment, good, body }),
            LifeStep::Close(why) => self.close(Closing { moment, why }),
        }
    }

    /// Whether the row's life has such a step.
    pub fn may_take(&self, step: &LifeStep) -> bool
        ensures { result ≡ may_take step.now self.now }
    {
        match step {
            LifeStep::Confirm => self.is_booked(),
            LifeStep::Start => {
                self.closed.is_none() && self.confirmed.is_some() && self.started.is_none()
            }
            LifeStep::End { .. } => self.is_active(),
            LifeStep::Close(_) => self.closed.is_none() && self.started.is_none(),
        }
    }

    /// Takes a step of the row's life.
    pub fn advance(&mut self, step: LifeStep, moment: Moment) -> Result<(), Wrong>
        requires result { BringsResult step }
        ensures ok { OnOk result (advanced step moment self.old ≡ Some self.new) }
        ensures wrong { OnErr result (advanced step moment self.old ≡ None) }
        ensures unchanged { OnErr result (self.new ≡ self.old) }
    {
        if !self.may_take(&step) {
            drop(step);
            return Err(Wrong);
        }
        self.mark(step, moment);
        Ok(())
    }

    /// How and when the row lapses, where it does by the moment.
    pub fn lapse(&self, moment: Moment) -> Option<Closing>
        requires { HasMoments self.now }
        ensures { result ≡ lapse_of moment self.now }
    {
        if self.closed.is_some() {
            return None;
        }
        let Some(accepted) = self.accepted else {
            return self.lapse_asked(moment);
        };
        if self.confirmed.is_none() {
            return self.lapse_held(accepted, moment);
        }
        if self.started.is_some() {
            return None;
        }
        self.lapse_missed(moment)
    }

    // Asked and not accepted: a minute after the asking.
    fn lapse_asked(&self, moment: Moment) -> Option<Closing>
        requires { HasMoments self.now }
        ensures { result ≡ lapse_asked moment self.now.asked }
    {
        let asked = self.asked?;
        if asked + HOLD <= moment {
            return Some(Closing {
                moment: asked + HOLD,
                why: Why::Nonstart(Cause::Silent),
            });
        }
        None
    }

    // Accepted and not confirmed: a minute after the accepting, or at the start where that is earlier.
    fn lapse_held(&self, accepted: Moment, moment: Moment) -> Option<Closing>
        requires row { HasMoments self.now }
        requires accepted { accepted ≤ MAX_MOMENT }
        ensures { result ≡ lapse_held moment accepted self.now.interval }
    {
        let interval = self.interval?;
        let last = interval.start.min(accepted + HOLD);
        if last <= moment {
            return Some(Closing {
                moment: last,
                why: Why::Nonstart(Cause::HoldEnded),
            });
        }
        None
    }

    // Confirmed and not started: more than the grace after the start.
    fn lapse_missed(&self, moment: Moment) -> Option<Closing>
        requires { HasMoments self.now }
        ensures { result ≡ lapse_missed moment self.now.interval }
    {
        let interval = self.interval?;
        if interval.start + GRACE < moment {
            return Some(Closing {
                moment: interval.start + GRACE + 1,
                why: Why::Missed,
            });
        }
        None
    }

    /// Closes the row where it has lapsed by the moment.
    pub fn settle(&mut self, moment: Moment)
        requires { HasMoments self.old }
        ensures settled { self.new ≡ settled_row moment self.old }

        // An earlier settling makes no difference.
        ensures whenever { (m : ℕ) → m ≤ moment → settled_row moment (settled_row m self.old) ≡ self.new }
        ensures moments { HasMoments self.new }
    {
        if let Some(closing) = self.lapse(moment) {
            self.close(closing);
        }
    }
}

/// The state of the row at the moment.
pub fn state_name(row: &RunRow, moment: Moment) -> State
    requires moment { moment ≤ MAX_MOMENT }
    requires row { HasMoments row.now }
    ensures { result ≡ state_of row.now moment }
{
    if let Some(closing) = &row.closed {
        return state_of_closed(&closing.why);
    }
    if let Some(ending) = &row.ended {
        return if ending.good {
            State::Finished
        } else {
            State::Failed
        };
    }
    if row.started.is_some() {
        return match row.interval {
            None => State::Overdue,
            Some(interval) => state_of_started(interval, moment),
        };
    }
    match row.interval {
        Some(interval) if row.confirmed.is_some() && interval.start <= moment + ON_DECK => {
            State::OnDeck
        }
        _ => State::Pending,
    }
}

/// The state of a row that was closed for this reason.
pub fn state_of_closed(why: &Why) -> State
    ensures { result ≡ closed_state why.now }
{
    match why {
        Why::Missed => State::Missed,
        Why::Preempted(_) => State::Preempted,
        Why::Nonstart(_) => State::Nonstart,
        Why::Canceled => State::Canceled,
    }
}

fn state_of_started(interval: Interval, moment: Moment) -> State
    requires { IsInTime interval }
    ensures { result ≡ started_state moment (Some interval) }
{
    if moment < interval.end {
        State::Running
    } else if moment < interval.end + GRACE {
        State::Cleanup
    } else {
        State::Overdue
    }
}
