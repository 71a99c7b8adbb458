//! What a host answered, in the words of a report.

use archive_retry::state::ArchiveState;
use host_model::reply::{LimitsWrong, Reply};
use ps_time::asker::Verdict;
use ps_time::id::{Id, key_uuid};
use ps_time::items::Items;
use ps_time::key::RunKey;
use run_states::why::Denial;
use std::fmt;
use uuid::Uuid;

/// A run, shown by its identifier.
#[derive(Drop)]
pub(crate) struct ShownRun(pub(crate) RunKey);

impl fmt::Display for ShownRun {
    ghost use Rattle.std.specs.Prelude.{Some};
    ghost use Rattle.rehearsal_report.specs.Line.{run_text};

    ghost output = { λ s. Some (run_text s.0) };

    fn fmt<W: fmt::Write>(&self, f: &mut fmt::Formatter<W>) -> fmt::Result {
        let uuid = Uuid::from_u128(key_uuid(Id::Run(self.0)));
        write!(f, "{uuid}")
    }
}

/// Runs, each shown after a space.
#[derive(Drop)]
struct ShownRuns<'a>(&'a Items<RunKey>);

impl fmt::Display for ShownRuns<'_> {
    ghost use Rattle.std.specs.Prelude.{Some};
    ghost use Rattle.rehearsal_report.specs.Line.{runs_text};

    ghost output = { λ s. Some (runs_text s.0.now) };

    fn fmt<W: fmt::Write>(&self, f: &mut fmt::Formatter<W>) -> fmt::Result {
        for key in self.0.as_slice() {
            let run = ShownRun(*key);
            write!(f, " {run}")?;
        }
        Ok(())
    }
}

#[derive(Drop)]
struct ShownVerdict(Verdict);

impl fmt::Display for ShownVerdict {
    ghost use Rattle.std.specs.Prelude.{Some};
    ghost use Rattle.rehearsal_report.specs.Line.{verdict_text};

    ghost output = { λ s. Some (verdict_text s.0) };

    fn fmt<W: fmt::Write>(&self, f: &mut fmt::Formatter<W>) -> fmt::Result {
        match self.0 {
            Verdict::Permitted(place) => write!(f, "permitted {place}"),
            Verdict::Stopped(place) => write!(f, "stopped {place}"),
            Verdict::Exhausted => f.write_str("exhausted"),
            Verdict::AboveCeiling(ceiling) => write!(f, "above ceiling {ceiling}"),
        }
    }
}

#[derive(Drop)]
struct ShownDenial<'a>(&'a Denial);

impl fmt::Display for ShownDenial<'_> {
    ghost use Rattle.std.specs.Prelude.{Some};
    ghost use Rattle.rehearsal_report.specs.Line.{denial_text};

    ghost output = { λ s. Some (denial_text s.0.now) };

    fn fmt<W: fmt::Write>(&self, f: &mut fmt::Formatter<W>) -> fmt::Result {
        match self.0 {
            Denial::Limits(verdict) => {
                let verdict = ShownVerdict(*verdict);
                write!(f, "1 limits {verdict}")
            }
            Denial::Past(_, _) => f.write_str("2 past"),
            Denial::Conflict(key) => {
                let run = ShownRun(*key);
                write!(f, "3 conflict {run}")
            }
            Denial::Full(_, _) => f.write_str("4 full"),
            Denial::Differs(_, _) => f.write_str("5 differs"),
            Denial::Closed(_) => f.write_str("6 closed"),
            Denial::NotParticipant => f.write_str("7 not a participant"),
            Denial::NoTool(_) => f.write_str("8 no tool"),
        }
    }
}

/// What came of a booking.
#[derive(Drop)]
pub(crate) struct ShownBooking<'a>(pub(crate) &'a Reply);

impl fmt::Display for ShownBooking<'_> {
    ghost use Rattle.std.specs.Prelude.{Some};
    ghost use Rattle.rehearsal_report.specs.Line.{booking_text};

    ghost output = { λ s. Some (booking_text s.0.now) };

    fn fmt<W: fmt::Write>(&self, f: &mut fmt::Formatter<W>) -> fmt::Result {
        match self.0 {
            Reply::Booked { key, preempted } => {
                let run = ShownRun(*key);
                if preempted.len() == 0 {
                    write!(f, "accepted {run}")
                } else {
                    let runs = ShownRuns(preempted);
                    write!(f, "accepted {run} preempts{runs}")
                }
            }
            Reply::Denied(denial) => {
                let denial = ShownDenial(denial);
                write!(f, "denied {denial}")
            }
            _ => Ok(()),
        }
    }
}

#[derive(Drop)]
struct ShownWrong(LimitsWrong);

impl fmt::Display for ShownWrong {
    ghost use Rattle.std.specs.Prelude.{Some};
    ghost use Rattle.rehearsal_report.specs.Line.{wrong_text};

    ghost output = { λ s. Some (wrong_text s.0) };

    fn fmt<W: fmt::Write>(&self, f: &mut fmt::Formatter<W>) -> fmt::Result {
        match self.0 {
            LimitsWrong::Bytes(count) => write!(f, "limits not kept: {count} bytes"),
            LimitsWrong::Epochs(count) => write!(f, "limits not kept: {count} epochs"),
        }
    }
}

/// What came of new limits.
#[derive(Drop)]
pub(crate) struct ShownLimits<'a>(pub(crate) &'a Reply);

impl fmt::Display for ShownLimits<'_> {
    ghost use Rattle.std.specs.Prelude.{Some};
    ghost use Rattle.rehearsal_report.specs.Line.{limits_text};

    ghost output = { λ s. Some (limits_text s.0.now) };

    fn fmt<W: fmt::Write>(&self, f: &mut fmt::Formatter<W>) -> fmt::Result {
        match self.0 {
            Reply::LimitsWrong(wrong) => {
                let wrong = ShownWrong(*wrong);
                write!(f, "{wrong}")
            }
            _ => f.write_str("ok"),
        }
    }
}

/// How many changes a turn made.
#[derive(Drop)]
pub(crate) struct ShownChanges<'a>(pub(crate) &'a Reply);

impl fmt::Display for ShownChanges<'_> {
    ghost use Rattle.std.specs.Prelude.{Some};
    ghost use Rattle.rehearsal_report.specs.Line.{changes_text};

    ghost output = { λ s. Some (changes_text s.0.now) };

    fn fmt<W: fmt::Write>(&self, f: &mut fmt::Formatter<W>) -> fmt::Result {
        match self.0 {
            Reply::Changes(count) => write!(f, "changes {count}"),
            _ => Ok(()),
        }
    }
}

#[derive(Drop)]
struct ShownState(ArchiveState);

impl fmt::Display for ShownState {
    ghost use Rattle.std.specs.Prelude.{Some};
    ghost use Rattle.rehearsal_report.specs.Line.{state_told};

    ghost output = { λ s. Some (state_told s.0.done s.0.next) };

    fn fmt<W: fmt::Write>(&self, f: &mut fmt::Formatter<W>) -> fmt::Result {
        if self.0.done {
            return f.write_str("succeeded");
        }
        match self.0.next {
            None => f.write_str("given up"),
            Some(moment) => write!(f, "failed again at {moment}"),
        }
    }
}

/// How far an archive has come.
#[derive(Drop)]
pub(crate) struct ShownArchive<'a>(pub(crate) &'a Reply);

impl fmt::Display for ShownArchive<'_> {
    ghost use Rattle.std.specs.Prelude.{Some};
    ghost use Rattle.rehearsal_report.specs.Line.{archive_text};

    ghost output = { λ s. Some (archive_text s.0.now) };

    fn fmt<W: fmt::Write>(&self, f: &mut fmt::Formatter<W>) -> fmt::Result {
        match self.0 {
            Reply::Archive(state) => {
                let state = ShownState(*state);
                write!(f, "{state}")
            }
            _ => Ok(()),
        }
    }
}
