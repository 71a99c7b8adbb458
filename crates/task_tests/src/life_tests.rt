//! Each step at each stage of a row's life: docs/specification/run-rows.md, worked out by hand.
ghost use Rattle.std.specs.Prelude.{IfOk};
ghost use Rattle.archive_retry.specs.Merge.{IsResultText};
ghost use Rattle.run_states.specs.LawfulRow.{BringsResult};

use crate::row_tests::{Held, KEY, an_asker};
use archive_retry::merge::is_result;
use plugin_core::test_spec::{Sleep, TestSpec};
use ps_time::asker::Asker;
use ps_time::items::Items;
use ps_time::memory::Memory;
use ps_time::text::Text;
use run_states::life::LifeStep;
use run_states::row::{Ending, RunRow};
use run_states::why::{Closing, Why};
use std::alloc::Global;
use std::test::Fail;

// When what came about.
#[derive(Clone, Copy, PartialEq, Eq)]
struct Life {
    accepted: Option<u64>,
    confirmed: Option<u64>,
    started: Option<u64>,
    ended: Option<u64>,
    closed: Option<u64>,
}

const ASKED: Life = Life {
    accepted: None,
    confirmed: None,
    started: None,
    ended: None,
    closed: None,
};

const ACCEPTED: Life = Life {
    accepted: Some(20),
    ..ASKED
};

const CONFIRMED: Life = Life {
    confirmed: Some(30),
    ..ACCEPTED
};

const STARTED: Life = Life {
    started: Some(60),
    ..CONFIRMED
};

const ENDED: Life = Life {
    ended: Some(70),
    ..STARTED
};

// Each stage, and what becomes of it by a confirmation, a start, an end and a closing at 90; nothing where
// the step is refused.
static LIVES: [(Life, Option<Life>, Option<Life>, Option<Life>, Option<Life>); 8] = [
    (
        ASKED,
        None,
        None,
        None,
        Some(Life {
            closed: Some(90),
            ..ASKED
        }),
    ),
    (
        ACCEPTED,
        Some(Life {
            confirmed: Some(90),
            ..ACCEPTED
        }),
        None,
        None,
        Some(Life {
            closed: Some(90),
            ..ACCEPTED
        }),
    ),
    (
        CONFIRMED,
        Some(CONFIRMED),
        Some(Life {
            started: Some(90),
            ..CONFIRMED
        }),
        None,
        Some(Life {
            closed: Some(90),
            ..CONFIRMED
        }),
    ),
    (
        STARTED,
        Some(STARTED),
        None,
        Some(Life {
            ended: Some(90),
            ..STARTED
        }),
        None,
    ),
    (ENDED, Some(ENDED), None, None, None),
    (
        Life {
            closed: Some(80),
            ..ASKED
        },
        None,
        None,
        None,
        None,
    ),
    (
        Life {
            closed: Some(80),
            ..ACCEPTED
        },
        None,
        None,
        None,
        None,
    ),
    (
        Life {
            closed: Some(80),
            ..CONFIRMED
        },
        None,
        None,
        None,
        None,
    ),
];

fn ending(alloc: Global, moment: Option<u64>) -> Result<Option<Ending>, Memory> {
    match moment {
        None => Ok(None),
        Some(moment) => Ok(Some(Ending {
            moment,
            good: true,
            body: Text::new(alloc, "{}")?,
        })),
    }
}

fn closing(moment: Option<u64>) -> Option<Closing> {
    match moment {
        None => None,
        Some(moment) => Some(Closing {
            moment,
            why: Why::Canceled,
        }),
    }
}

fn row_of(alloc: Global, life: Life, asker: Asker, ended: Option<Ending>) -> RunRow {
    RunRow {
        key: KEY,
        test: TestSpec::Idleex(Sleep::of(10)),
        tool: None,
        interval: None,
        priority: 0,
        participants: Items::new(alloc),
        asker,
        accepted: life.accepted,
        confirmed: life.confirmed,
        started: life.started,
        ended,
        material: None,
        closed: closing(life.closed),
        question: None,
        asked: None,
        others: Items::new(alloc),
        merged: None,
        archives: Items::new(alloc),
    }
}

fn a_row(alloc: Global, life: Life) -> Result<Held, Memory> {
    let asker = an_asker(alloc)?;
    let ended = ending(alloc, life.ended)?;
    Ok(Held {
        row: row_of(alloc, life, asker, ended),
    })
}

fn life_of(row: &RunRow) -> Life {
    let ended = match &row.ended {
        None => None,
        Some(ending) => Some(ending.moment),
    };
    let closed = match &row.closed {
        None => None,
        Some(closing) => Some(closing.moment),
    };
    Life {
        accepted: row.accepted,
        confirmed: row.confirmed,
        started: row.started,
        ended,
        closed,
    }
}

fn a_result(alloc: Global) -> Result<Text, Fail>
    ensures { IfOk result IsResultText }
{
    let text = Text::new(alloc, "{}")?;
    if is_result(alloc, text.as_str())? {
        Ok(text)
    } else {
        Err(Fail::new("no result"))
    }
}

fn step(alloc: Global, number: usize) -> Result<LifeStep, Fail>
    ensures { IfOk result BringsResult }
{
    match number {
        0 => Ok(LifeStep::Confirm),
        1 => Ok(LifeStep::Start),
        2 => Ok(LifeStep::End {
            good: true,
            body: a_result(alloc)?,
        }),
        _ => Ok(LifeStep::Close(Why::Canceled)),
    }
}

fn after(row: &mut RunRow, step: LifeStep) -> Option<Life>
    requires { BringsResult step }
{
    match row.advance(step, 90) {
        Ok(()) => Some(life_of(row)),
        Err(_) => None,
    }
}

fn becomes(alloc: Global, life: Life, number: usize) -> Result<Option<Life>, Fail> {
    let mut held = a_row(alloc, life)?;
    let step = step(alloc, number)?;
    Ok(after(&mut held.row, step))
}

fn check(
    alloc: Global,
    table: &[(Life, Option<Life>, Option<Life>, Option<Life>, Option<Life>)],
) -> Result<(), Fail> {
    for (life, confirmed, started, ended, closed) in table {
        if becomes(alloc, *life, 0)? != *confirmed
            || becomes(alloc, *life, 1)? != *started
            || becomes(alloc, *life, 2)? != *ended
            || becomes(alloc, *life, 3)? != *closed
        {
            return Err(Fail::new("a step does something else"));
        }
    }
    Ok(())
}

#[test]
fn each_step_at_each_stage(rt: HostRuntime) -> Result<(), Fail> {
    check(rt.alloc(), &LIVES)
}
