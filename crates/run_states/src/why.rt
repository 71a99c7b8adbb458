//! Why a host denies a run, and why a row was closed.
ghost use Rattle.std.specs.Prelude.{◌≡◌, IfOk};

use crate::proposal::Proposal;
use crate::state::State;
use ps_time::asker::Verdict;
use ps_time::boxed::Boxed;
use ps_time::duplicate::Duplicate;
use ps_time::key::RunKey;
use ps_time::memory::Memory;
use ps_time::moment::Moment;
use ps_time::same::Same;
use ps_time::text::Text;
use std::alloc::Global;

/// What a host has no more room for.
#[derive(Clone, Copy, PartialEq, Eq)]
pub enum What {
    /// Run rows.
    Runs,
    /// Bytes of results.
    Results,
    /// Numbers of bookings.
    Numbers,
}

/// Why a host takes no part in a run.
pub enum Denial {
    /// Its limits don't permit the run.
    Limits(Verdict),
    /// The start, which comes second, is before the moment of the call.
    Past(Moment, Moment),
    /// The run conflicts with this one, which can't be preempted.
    Conflict(RunKey),
    /// This is full, and so much is there.
    Full(What, u64),
    /// The key's row has other content: first the kept one, then the one that was sent.
    Differs(Boxed<Proposal>, Boxed<Proposal>),
    /// The key's row is closed, for the reason that this state names.
    Closed(State),
    /// It isn't a participant of the test.
    NotParticipant,
    /// It doesn't have this tool, or the tool doesn't run the test.
    NoTool(Text),
}

impl Drop for Denial {
    fn drop(self) {
        match self {
            Denial::Limits(_) => {}
            Denial::Past(_, _) => {}
            Denial::Conflict(_) => {}
            Denial::Full(_, _) => {}
            Denial::Differs(_, _) => {}
            Denial::Closed(_) => {}
            Denial::NotParticipant => {}
            Denial::NoTool(_) => {}
        }
    }
}

impl Denial {
    /// The same denial once more.
    pub fn copy(&self, alloc: Global) -> Result<Denial, Memory>
        ensures { IfOk result (λ made. made ≡ self.now) }
    {
        match self {
            Denial::Limits(verdict) => Ok(Denial::Limits(*verdict)),
            Denial::Past(moment, start) => Ok(Denial::Past(*moment, *start)),
            Denial::Conflict(key) => Ok(Denial::Conflict(*key)),
            Denial::Full(what, count) => Ok(Denial::Full(*what, *count)),
            Denial::Differs(kept, sent) => Ok(Denial::Differs(
                kept.duplicate(alloc)?,
                sent.duplicate(alloc)?,
            )),
            Denial::Closed(state) => Ok(Denial::Closed(*state)),
            Denial::NotParticipant => Ok(Denial::NotParticipant),
            Denial::NoTool(tool) => Ok(Denial::NoTool(tool.copy(alloc)?)),
        }
    }
}

impl Duplicate for Denial {
    fn duplicate(&self, alloc: Global) -> Result<Denial, Memory> {
        self.copy(alloc)
    }
}

impl Same for Denial {
    fn same(&self, other: &Denial) -> bool {
        match (self, other) {
            (Denial::Limits(a), Denial::Limits(b)) => a == b,
            (Denial::Past(a, s), Denial::Past(b, t)) => a == b && s == t,
            (Denial::Conflict(a), Denial::Conflict(b)) => a == b,
            (Denial::Full(a, m), Denial::Full(b, n)) => a == b && m == n,
            (Denial::Differs(a, s), Denial::Differs(b, t)) => {
                a.value().same(b.value()) && s.value().same(t.value())
            }
            (Denial::Closed(a), Denial::Closed(b)) => a == b,
            (Denial::NotParticipant, Denial::NotParticipant) => true,
            (Denial::NoTool(a), Denial::NoTool(b)) => a.same(b),
            _ => false,
        }
    }
}

/// Why a run didn't come about.
pub enum Cause {
    /// No start suits all participants.
    NoSlot,
    /// No tool is there on all of them.
    NoTool,
    /// The participant of this name denied it.
    Denied(Text, Denial),
    /// Not every participant answered within a minute.
    Silent,
    /// It was accepted, and the hold ended before the confirmation.
    HoldEnded,
}

impl Drop for Cause {
    fn drop(self) {
        match self {
            Cause::NoSlot => {}
            Cause::NoTool => {}
            Cause::Denied(_, _) => {}
            Cause::Silent => {}
            Cause::HoldEnded => {}
        }
    }
}

impl Cause {
    /// The same cause once more.
    pub fn copy(&self, alloc: Global) -> Result<Cause, Memory>
        ensures { IfOk result (λ made. made ≡ self.now) }
    {
        match self {
            Cause::NoSlot => Ok(Cause::NoSlot),
            Cause::NoTool => Ok(Cause::NoTool),
            Cause::Denied(host, denial) => Ok(Cause::Denied(
                host.copy(alloc)?,
                denial.copy(alloc)?,
            )),
            Cause::Silent => Ok(Cause::Silent),
            Cause::HoldEnded => Ok(Cause::HoldEnded),
        }
    }
}

impl Duplicate for Cause {
    fn duplicate(&self, alloc: Global) -> Result<Cause, Memory> {
        self.copy(alloc)
    }
}

impl Same for Cause {
    fn same(&self, other: &Cause) -> bool {
        match (self, other) {
            (Cause::NoSlot, Cause::NoSlot) => true,
            (Cause::NoTool, Cause::NoTool) => true,
            (Cause::Denied(a, c), Cause::Denied(b, d)) => a.same(b) && c.same(d),
            (Cause::Silent, Cause::Silent) => true,
            (Cause::HoldEnded, Cause::HoldEnded) => true,
            _ => false,
        }
    }
}

/// Why a row was closed.
pub enum Why {
    /// It was confirmed, and didn't start in time.
    Missed,
    /// A run of higher priority, with this key, took its place.
    Preempted(RunKey),
    /// It didn't come about, for this cause.
    Nonstart(Cause),
    /// It was canceled.
    Canceled,
}

impl Drop for Why {
    fn drop(self) {
        match self {
            Why::Missed => {}
            Why::Preempted(_) => {}
            Why::Nonstart(_) => {}
            Why::Canceled => {}
        }
    }
}

impl Why {
    /// The same reason once more.
    pub fn copy(&self, alloc: Global) -> Result<Why, Memory>
        ensures { IfOk result (λ made. made ≡ self.now) }
    {
        match self {
            Why::Missed => Ok(Why::Missed),
            Why::Preempted(key) => Ok(Why::Preempted(*key)),
            Why::Nonstart(cause) => Ok(Why::Nonstart(cause.copy(alloc)?)),
            Why::Canceled => Ok(Why::Canceled),
        }
    }
}

impl Duplicate for Why {
    fn duplicate(&self, alloc: Global) -> Result<Why, Memory> {
        self.copy(alloc)
    }
}

impl Same for Why {
    fn same(&self, other: &Why) -> bool {
        match (self, other) {
            (Why::Missed, Why::Missed) => true,
            (Why::Preempted(a), Why::Preempted(b)) => a == b,
            (Why::Nonstart(a), Why::Nonstart(b)) => a.same(b),
            (Why::Canceled, Why::Canceled) => true,
            _ => false,
        }
    }
}

/// When and why a row was closed.
#[derive(Drop)]
pub struct Closing {
    /// In seconds since 1970 UTC.
    pub moment: Moment,
    /// The reason.
    pub why: Why,
}

impl Closing {
    /// The same closing once more.
    pub fn copy(&self, alloc: Global) -> Result<Closing, Memory>
        ensures { IfOk result (λ made. made ≡ self.now) }
    {
        Ok(Closing {
            moment: self.moment,
            why: self.why.copy(alloc)?,
        })
    }
}

impl Duplicate for Closing {
    fn duplicate(&self, alloc: Global) -> Result<Closing, Memory> {
        self.copy(alloc)
    }
}

impl Same for Closing {
    fn same(&self, other: &Closing) -> bool {
        self.moment == other.moment && self.why.same(&other.why)
    }
}
