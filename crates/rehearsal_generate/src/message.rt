//! Messages in flight: a draw tells of each what becomes of it.
ghost use Rattle.std.specs.Prelude.{◌≡◌, ◌<◌, ◌≤◌, OnOk};
ghost use Rattle.ps_time.specs.declared.moment.TheConstants.{MAX_MOMENT};
ghost use Rattle.rehearsal_generate.specs.Draws.{is_crash, is_loss};
ghost use Rattle.rehearsal_generate.specs.Shown.{IsShown};
ghost use Rattle.rehearsal_generate.specs.Work.{crashed, flown, handled, met, shows, walked};

use crate::moves::{arrive, crash, lose};
use crate::tally::Tally;
use ps_time::memory::Memory;
use ps_time::moment::Moment;
use psched_rehearse::state::rehearsal::Rehearsal;
use rehearsal_script::script::ScriptHost;
use std::alloc::Global;

fn is_crash(number: u64) -> bool
    ensures { result ≡ is_crash number }
{
    number % 64 == 0
}

fn is_loss(number: u64) -> bool
    ensures { result ≡ is_loss number }
{
    number % 8 == 1
}

// The host at a place crashes, where this is true.
fn crash_if(
    alloc: Global,
    hosts: &[ScriptHost],
    now: &mut Rehearsal,
    place: usize,
    clock: Moment,
    is_crash: bool,
) -> Result<(), Memory>
    requires shown { IsShown hosts.now now.old }
    requires place { place < 8 }
    requires clock { clock ≤ MAX_MOMENT }
    ensures { OnOk result (now.new ≡ crashed (shows hosts.now) is_crash place clock now.old) }
{
    if is_crash {
        return crash(alloc, now, place, clock);
    }
    Ok(())
}

// A message is lost, where this is true, or arrives.
fn meet(
    alloc: Global,
    hosts: &[ScriptHost],
    now: &mut Rehearsal,
    number: u64,
    clock: Moment,
    is_loss: bool,
) -> Result<(), Memory>
    requires shown { IsShown hosts.now now.old }
    requires clock { clock ≤ MAX_MOMENT }
    ensures { OnOk result (now.new ≡ met (shows hosts.now) is_loss number clock now.old) }
{
    if is_loss {
        lose(now, number, clock);
        return Ok(());
    }
    arrive(alloc, hosts, now, number, clock)
}

// One draw tells both whether the host at the place crashes before the message, and whether this is lost.
#[tactic(auto, unfolding(crate::specs::Work::handled))]
fn handle(
    alloc: Global,
    hosts: &[ScriptHost],
    now: &mut Rehearsal,
    tally: &mut Tally,
    place: usize,
    clock: Moment,
    number: u64,
) -> Result<(), Memory>
    requires shown { IsShown hosts.now now.old }
    requires place { place < 8 }
    requires clock { clock ≤ MAX_MOMENT }
    ensures { OnOk result ((now.new, tally.new) ≡ handled (shows hosts.now) place clock number (now.old, tally.old)) }
{
    let drawn = tally.draw();
    let is_lost = is_loss(drawn);
    let crashes = is_crash(drawn);
    tally.note_loss(is_lost, number)?;
    tally.note_crash(crashes, clock)?;
    crash_if(alloc, hosts, now, place, clock, crashes)?;
    meet(alloc, hosts, now, number, clock, is_lost)
}

fn walk(
    alloc: Global,
    hosts: &[ScriptHost],
    now: &mut Rehearsal,
    tally: &mut Tally,
    place: usize,
    clock: Moment,
    numbers: &[u64],
) -> Result<(), Memory>
    requires shown { IsShown hosts.now now.old }
    requires place { place < 8 }
    requires clock { clock ≤ MAX_MOMENT }
    ensures { OnOk result ((now.new, tally.new) ≡ walked (shows hosts.now) place clock numbers.now (now.old, tally.old)) }
{
    for number in numbers {
        handle(alloc, hosts, now, tally, place, clock, *number)?;
    }
    Ok(())
}

/// Each message in flight is lost or arrives, by its number; the host at the place may crash before it.
#[tactic(auto, unfolding(crate::specs::Work::flown))]
pub fn fly(
    alloc: Global,
    hosts: &[ScriptHost],
    now: &mut Rehearsal,
    tally: &mut Tally,
    place: usize,
    clock: Moment,
) -> Result<(), Memory>
    requires shown { IsShown hosts.now now.old }
    requires place { place < 8 }
    requires clock { clock ≤ MAX_MOMENT }
    ensures { OnOk result ((now.new, tally.new) ≡ flown (shows hosts.now) place clock (now.old, tally.old)) }
{
    let numbers = now.flying().to_vec(alloc)?;
    walk(alloc, hosts, now, tally, place, clock, numbers.as_slice())
}
