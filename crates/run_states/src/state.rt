//! The names of a run's states.
ghost use Rattle.std.specs.Prelude.{◌≡◌};
ghost use Rattle.run_states.specs.State.{state_text};

use ps_time::duplicate::Duplicate;
use ps_time::memory::Memory;
use ps_time::same::Same;
use std::alloc::Global;
use std::fmt;

/// The state of a run at some moment. The reference has most of these names.
#[derive(Clone, Copy, Debug, PartialEq, Eq)]
pub enum State {
    Missed,
    Preempted,
    Nonstart,
    Canceled,
    Finished,
    Failed,
    Running,
    Cleanup,
    Overdue,
    OnDeck,
    Pending,
}

impl State {
    /// The name as reports and replies have it.
    pub fn name(self) -> &'static str
        ensures { result.now ≡ state_text self }
    {
        match self {
            State::Missed => "missed",
            State::Preempted => "preempted",
            State::Nonstart => "nonstart",
            State::Canceled => "canceled",
            State::Finished => "finished",
            State::Failed => "failed",
            State::Running => "running",
            State::Cleanup => "cleanup",
            State::Overdue => "overdue",
            State::OnDeck => "on-deck",
            State::Pending => "pending",
        }
    }
}

impl fmt::Display for State {
    ghost use Rattle.std.specs.Prelude.{Some};
    ghost use Rattle.run_states.specs.State.{state_text};

    ghost output = { λ s. Some (state_text s) };

    fn fmt<W: fmt::Write>(&self, f: &mut fmt::Formatter<W>) -> fmt::Result {
        f.write_str(self.name())
    }
}

impl Duplicate for State {
    fn duplicate(&self, _alloc: Global) -> Result<State, Memory> {
        Ok(*self)
    }
}

impl Same for State {
    fn same(&self, other: &State) -> bool {
        self == other
    }
}
