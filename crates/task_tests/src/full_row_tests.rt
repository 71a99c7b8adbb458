//! A copy of a row in which everything is set.
use crate::row_tests::{Held, KEY, an_asker, is_row_copied};
use archive_retry::state::ArchiveState;
use plugin_core::test_spec::{Sleep, TestSpec};
use ps_time::asker::Asker;
use ps_time::boxed::Boxed;
use ps_time::interval::{Interval, Window};
use ps_time::items::Items;
use ps_time::memory::Memory;
use ps_time::text::Text;
use ps_time::tiers::Tiers;
use run_states::answer::{FreeAnswer, Other};
use run_states::proposal::Proposal;
use run_states::row::{Ending, RunRow};
use run_states::why::{Cause, Closing, Denial, Why};
use std::alloc::Global;

const HOSTS: &str = "a b c d e f g h";

// The names that stand in a text, with blanks between them.
fn names(alloc: Global, text: &str) -> Result<Items<Text>, Memory> {
    let mut names = Items::new(alloc);
    for name in text.split(' ') {
        names.push(Text::new(alloc, name)?)?;
    }
    Ok(names)
}

fn sleep(alloc: Global) -> Result<Sleep, Memory> {
    let starting_comment = Some(Text::new(alloc, "begins")?);
    let parting_comment = Some(Text::new(alloc, "is over")?);
    Ok(Sleep {
        duration: 10,
        starting_comment,
        parting_comment,
    })
}

fn test(alloc: Global) -> Result<TestSpec, Memory> {
    let sleep = sleep(alloc)?;
    let hosts = names(alloc, HOSTS)?;
    Ok(TestSpec::Idlemany { sleep, hosts })
}

fn windows(alloc: Global, first: u64) -> Result<Items<Window>, Memory> {
    let mut windows = Items::new(alloc);
    windows.push(Window {
        first,
        last: first.saturating_add(9),
    })?;
    windows.push(Window {
        first: first.saturating_add(20),
        last: first.saturating_add(20),
    })?;
    Ok(windows)
}

fn tiers(alloc: Global) -> Result<Tiers, Memory> {
    let first = windows(alloc, 50)?;
    let second = windows(alloc, 100)?;
    Ok(Tiers { first, second })
}

fn free(alloc: Global) -> Result<FreeAnswer, Memory> {
    let tools = names(alloc, "sleep snooze")?;
    let tiers = tiers(alloc)?;
    Ok(FreeAnswer { tools, tiers })
}

fn other(alloc: Global) -> Result<Other, Memory> {
    let free = free(alloc)?;
    let result = Text::new(alloc, r#"{"schema":1,"succeeded":true}"#)?;
    Ok(Other {
        free: Some(free),
        accepted: true,
        confirm_told: true,
        cancel_told: false,
        material_told: true,
        heard: Some(Some(result)),
    })
}

fn others(alloc: Global) -> Result<Items<Other>, Memory> {
    let mut others = Items::new(alloc);
    for _place in 1..8_u8 {
        others.push(other(alloc)?)?;
    }
    Ok(others)
}

fn archives(alloc: Global) -> Result<Items<ArchiveState>, Memory> {
    let mut archives = Items::new(alloc);
    for tried in 0..8_u32 {
        archives.push(ArchiveState {
            tried,
            next: Some(100),
            done: false,
        })?;
    }
    Ok(archives)
}

fn proposal(alloc: Global, start: u64) -> Result<Proposal, Memory> {
    let test = test(alloc)?;
    let tool = Text::new(alloc, "sleep")?;
    let asker = an_asker(alloc)?;
    Ok(Proposal {
        key: KEY,
        test,
        tool,
        start,
        priority: 7,
        asker,
    })
}

// The row of the key has a start at 60, and one at 61 was sent.
fn denial(alloc: Global) -> Result<Denial, Memory> {
    let kept = Boxed::new(alloc, proposal(alloc, 60)?)?;
    let sent = Boxed::new(alloc, proposal(alloc, 61)?)?;
    Ok(Denial::Differs(kept, sent))
}

fn closing(alloc: Global) -> Result<Closing, Memory> {
    let denial = denial(alloc)?;
    let host = Text::new(alloc, "b")?;
    Ok(Closing {
        moment: 80,
        why: Why::Nonstart(Cause::Denied(host, denial)),
    })
}

fn ending(alloc: Global) -> Result<Ending, Memory> {
    let body = Text::new(alloc, r#"{"schema":1,"succeeded":true}"#)?;
    Ok(Ending {
        moment: 70,
        good: true,
        body,
    })
}

// What is run, and for whom.
struct Work {
    test: TestSpec,
    tool: Text,
    participants: Items<Text>,
    asker: Asker,
}

impl Drop for Work {
    fn drop(self) {
        let Work {
            test: _,
            tool: _,
            participants: _,
            asker: _,
        } = self;
    }
}

impl Work {
    fn into_row(self, ended: Ending, closed: Closing, lead: Lead) -> RunRow {
        let Work {
            test,
            tool,
            participants,
            asker,
        } = self;
        let Lead {
            others,
            merged,
            archives,
        } = lead;
        RunRow {
            key: KEY,
            test,
            tool: Some(tool),
            interval: Some(Interval { start: 60, end: 70 }),
            priority: -7,
            participants,
            asker,
            accepted: Some(20),
            confirmed: Some(30),
            started: Some(60),
            ended: Some(ended),
            material: Some(61),
            closed: Some(closed),
            question: Some(Window {
                first: 50,
                last: 90,
            }),
            asked: Some(10),
            others,
            merged: Some(merged),
            archives,
        }
    }
}

fn full_work(alloc: Global) -> Result<Work, Memory> {
    let test = test(alloc)?;
    let tool = Text::new(alloc, "sleep")?;
    let participants = names(alloc, HOSTS)?;
    let asker = an_asker(alloc)?;
    Ok(Work {
        test,
        tool,
        participants,
        asker,
    })
}

// What the lead keeps besides.
#[derive(Drop)]
struct Lead {
    others: Items<Other>,
    merged: Text,
    archives: Items<ArchiveState>,
}

fn full_lead(alloc: Global) -> Result<Lead, Memory> {
    let others = others(alloc)?;
    let merged = Text::new(alloc, r#"{"participants":[],"schema":1,"succeeded":true}"#)?;
    let archives = archives(alloc)?;
    Ok(Lead {
        others,
        merged,
        archives,
    })
}

fn a_full_row(alloc: Global) -> Result<Held, Memory> {
    let work = full_work(alloc)?;
    let ended = ending(alloc)?;
    let closed = closing(alloc)?;
    Ok(Held {
        row: work.into_row(ended, closed, full_lead(alloc)?),
    })
}

#[test]
fn a_row_with_all_in_it_is_copied(rt: HostRuntime) -> Result<(), Memory> {
    let held = a_full_row(rt.alloc())?;
    assert!(rt; is_row_copied(rt.alloc(), &held.row)?);
    Ok(())
}
