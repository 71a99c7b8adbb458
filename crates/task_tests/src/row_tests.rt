//! Names of states, against the table of docs/specification/run-rows.md, copies, and rows that take
//! steps and facts.
use plugin_core::test_spec::{Sleep, TestSpec};
use ps_time::asker::Asker;
use ps_time::class::Class;
use ps_time::interval::{Interval, Window};
use ps_time::items::Items;
use ps_time::key::RunKey;
use ps_time::memory::Memory;
use ps_time::same::Same;
use ps_time::text::Text;
use ps_time::tiers::Tiers;
use run_states::answer::{Answer, FreeAnswer, Other};
use run_states::fact::Fact;
use run_states::life::LifeStep;
use run_states::row::{Ending, RunRow};
use run_states::rows::Rows;
use run_states::state::State;
use run_states::why::Why;
use std::alloc::Global;

fn is_ending_copied(alloc: Global) -> Result<bool, Memory> {
    let ending = Ending {
        moment: 7,
        good: true,
        body: Text::new(alloc, "{}")?,
    };
    Ok(ending.copy(alloc)?.same(&ending))
}

fn is_answer_copied(alloc: Global) -> Result<bool, Memory> {
    let answer = FreeAnswer {
        tools: Items::new(alloc),
        tiers: Tiers {
            first: Items::new(alloc),
            second: Items::new(alloc),
        },
    };
    Ok(answer.copy(alloc)?.same(&answer))
}

fn is_other_copied(alloc: Global) -> Result<bool, Memory> {
    let other = Other {
        free: None,
        accepted: true,
        confirm_told: false,
        cancel_told: false,
        material_told: true,
        heard: Some(None),
    };
    Ok(other.copy(alloc)?.same(&other))
}

pub(crate) const KEY: RunKey = RunKey {
    lead: 1,
    task: 2,
    number: 3,
    attempt: 0,
};

// The names of a lead and another host.
fn pair(alloc: Global) -> Result<Items<Text>, Memory> {
    let mut names = Items::new(alloc);
    names.push(Text::new(alloc, "a")?)?;
    names.push(Text::new(alloc, "b")?)?;
    Ok(names)
}

pub(crate) fn an_asker(alloc: Global) -> Result<Asker, Memory> {
    let requester = Text::new(alloc, "127.0.0.1")?;
    let server = Text::new(alloc, "a")?;
    Ok(Asker { requester, server })
}

fn one_other(alloc: Global) -> Result<Items<Other>, Memory> {
    let mut others = Items::new(alloc);
    others.push(Other {
        free: None,
        accepted: false,
        confirm_told: false,
        cancel_told: false,
        material_told: false,
        heard: None,
    })?;
    Ok(others)
}

// A run that its lead has asked about, at 10.
fn asked(alloc: Global, participants: Items<Text>, asker: Asker, others: Items<Other>) -> RunRow {
    RunRow {
        key: KEY,
        test: TestSpec::Idleex(Sleep::of(10)),
        tool: None,
        interval: None,
        priority: 0,
        participants,
        asker,
        accepted: None,
        confirmed: None,
        started: None,
        ended: None,
        material: None,
        closed: None,
        question: Some(Window {
            first: 50,
            last: 90,
        }),
        asked: Some(10),
        others,
        merged: None,
        archives: Items::new(alloc),
    }
}

/// A row. Its drop is written out, so that each function that lets one go calls it.
pub(crate) struct Held {
    pub(crate) row: RunRow,
}

impl Drop for Held {
    fn drop(self) {
        let Held { row: _ } = self;
    }
}

fn an_asked_row(alloc: Global) -> Result<Held, Memory> {
    let participants = pair(alloc)?;
    let asker = an_asker(alloc)?;
    let others = one_other(alloc)?;
    Ok(Held {
        row: asked(alloc, participants, asker, others),
    })
}

// Planned at 20 for the seconds 60 to 70.
fn plan(row: &mut RunRow, tool: Text) {
    let interval = Interval { start: 60, end: 70 };
    row.note(Fact::Planned { tool, interval }, 20);
}

fn accept(row: &mut RunRow, place: u8, moment: u64) {
    let answer = Answer::Accepted;
    row.note(Fact::Answered { place, answer }, moment);
}

// Acceptances at the lead's place and at one that nobody has change nothing; that of the other confirms.
fn is_confirmed_by_the_last(row: &mut RunRow) -> bool {
    accept(row, 0, 25);
    accept(row, 2, 26);
    let waits = row.accepted == Some(20) && row.confirmed.is_none();
    accept(row, 1, 30);
    waits && row.confirmed == Some(30)
}

fn is_in_conflict_with_others_alone(row: &RunRow) -> bool {
    let interval = Interval { start: 65, end: 75 };
    let other = RunKey { number: 4, ..KEY };
    !row.is_in_conflict(KEY, Class::Exclusive, &interval)
        && row.is_in_conflict(other, Class::Exclusive, &interval)
}

// A started row isn't closed.
fn is_started_for_good(row: &mut RunRow) -> bool {
    let starts = row.advance(LifeStep::Start, 60).is_ok();
    let may_close = row.may_take(&LifeStep::Close(Why::Canceled));
    starts && !may_close && row.advance(LifeStep::Close(Why::Canceled), 61).is_err()
}

fn takes_facts(row: &mut RunRow, tool: Text) -> bool {
    plan(row, tool);
    is_confirmed_by_the_last(row)
        && is_in_conflict_with_others_alone(row)
        && is_started_for_good(row)
        && row.rest() == 70
}

pub(crate) fn is_row_copied(alloc: Global, row: &RunRow) -> Result<bool, Memory> {
    let copy = Held {
        row: row.copy(alloc)?,
    };
    Ok(copy.row.same(row))
}

#[test]
fn an_asked_row_is_copied_and_takes_facts(rt: HostRuntime) -> Result<(), Memory> {
    let alloc = rt.alloc();
    let mut held = an_asked_row(alloc)?;
    assert!(rt; is_row_copied(alloc, &held.row)?);
    assert!(rt; takes_facts(&mut held.row, Text::new(alloc, "sleep")?));
    Ok(())
}

// Room for many rows takes no row to be there.
#[test]
fn room(rt: HostRuntime) -> Result<(), Memory> {
    let mut rows = Rows::new(rt.alloc());
    rows.reserve(50_000)?;
    assert!(rt; rows.len() == 0);
    assert!(rt; !rows.purge(KEY));
    Ok(())
}

#[test]
fn copies(rt: HostRuntime) -> Result<(), Memory> {
    let alloc = rt.alloc();
    assert!(rt; is_ending_copied(alloc)?);
    assert!(rt; is_answer_copied(alloc)?);
    assert!(rt; is_other_copied(alloc)?);
    Ok(())
}

static NAMES: [(State, &str); 11] = [
    (State::Missed, "missed"),
    (State::Preempted, "preempted"),
    (State::Nonstart, "nonstart"),
    (State::Canceled, "canceled"),
    (State::Finished, "finished"),
    (State::Failed, "failed"),
    (State::Running, "running"),
    (State::Cleanup, "cleanup"),
    (State::Overdue, "overdue"),
    (State::OnDeck, "on-deck"),
    (State::Pending, "pending"),
];

fn are_named(alloc: Global, table: &[(State, &str)]) -> Result<bool, Memory> {
    for (state, name) in table {
        let shown = Text::from_string(format!(in alloc; "{state}")?);
        if state.name() != *name || !shown.is(name) {
            return Ok(false);
        }
    }
    Ok(true)
}

#[test]
fn names(rt: HostRuntime) -> Result<(), Memory> {
    assert!(rt; are_named(rt.alloc(), &NAMES)?);
    Ok(())
}
