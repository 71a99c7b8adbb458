//! One post after another, and the seconds behind each.
ghost use Rattle.std.specs.Prelude.{◌≡◌, ◌<◌, ◌≤◌, ◌+◌, OnOk};
ghost use Rattle.ps_time.specs.declared.moment.TheConstants.{MAX_MOMENT};
ghost use Rattle.rehearsal_model.specs.Plays.{MayMake};
ghost use Rattle.rehearsal_model.specs.Simulations.{first_play, first_simulation};
ghost use Rattle.rehearsal_generate.specs.Posts.{post_of};
ghost use Rattle.rehearsal_generate.specs.Shown.{Alike, IsShown};
ghost use Rattle.rehearsal_generate.specs.Work.{first_tally, job, moment_of_post, plays, posting, second, seconds, shows, turned, work_hosts, worked};

use crate::message::fly;
use crate::moves::{post, take_turn};
use crate::post::{draw_post, partner_of};
use crate::tally::Tally;
use ps_time::memory::Memory;
use ps_time::moment::Moment;
use psched_rehearse::state::rehearsal::Rehearsal;
use rehearsal_script::script::ScriptHost;
use std::alloc::Global;

// The moment of the first post.
const FIRST: Moment = 1_700_000_000;

// The host at a place and its partner take their turns.
fn take_turns(
    alloc: Global,
    hosts: &[ScriptHost],
    now: &mut Rehearsal,
    place: usize,
    clock: Moment,
) -> Result<(), Memory>
    requires shown { IsShown hosts.now now.old }
    requires place { place < 8 }
    requires clock { clock ≤ MAX_MOMENT }
    ensures { OnOk result (now.new ≡ turned (shows hosts.now) place clock now.old) }
{
    take_turn(alloc, now, place, clock)?;
    let partner = partner_of(place);
    take_turn(alloc, now, partner, clock)
}

// What is in flight after the turns is lost or arrives, the replies last.
#[tactic(auto, unfolding(crate::specs::Work::second))]
fn live_second(
    alloc: Global,
    hosts: &[ScriptHost],
    now: &mut Rehearsal,
    tally: &mut Tally,
    place: usize,
    clock: Moment,
) -> Result<(), Memory>
    requires shown { IsShown hosts.now now.old }
    requires place { place < 8 }
    requires clock { clock ≤ MAX_MOMENT }
    ensures { OnOk result ((now.new, tally.new) ≡ second (shows hosts.now) place clock (now.old, tally.old)) }
{
    take_turns(alloc, hosts, now, place, clock)?;
    fly(alloc, hosts, now, tally, place, clock)?;
    fly(alloc, hosts, now, tally, place, clock)
}

fn live_seconds(
    alloc: Global,
    hosts: &[ScriptHost],
    now: &mut Rehearsal,
    tally: &mut Tally,
    place: usize,
    start: Moment,
) -> Result<(), Memory>
    requires shown { IsShown hosts.now now.old }
    requires place { place < 8 }
    requires clock { start + 6 ≤ MAX_MOMENT }
    ensures { OnOk result ((now.new, tally.new) ≡ seconds (shows hosts.now) place start 6 (now.old, tally.old)) }
{
    for second in 0..6_u64 {
        let clock = start + second + 1;
        live_second(alloc, hosts, now, tally, place, clock)?;
    }
    Ok(())
}

// The post of this number, the first of which is 0, and six seconds behind it.
#[tactic(auto, unfolding(crate::specs::Work::job))]
fn run_post(
    alloc: Global,
    hosts: &[ScriptHost],
    now: &mut Rehearsal,
    tally: &mut Tally,
    number: u32,
) -> Result<(), Memory>
    requires shown { IsShown hosts.now now.old }
    requires number { number < 2000 }
    ensures work { OnOk result ((now.new, tally.new) ≡ job (shows hosts.now) number (now.old, tally.old)) }
    ensures may { OnOk result (MayMake now.old (posting now.old (moment_of_post number) (post_of tally.old.seed))) }
{
    let clock = FIRST + 10 * number as u64;
    let drawn = draw_post(tally);
    post(alloc, now, &drawn, clock)?;
    live_seconds(alloc, hosts, now, tally, drawn.place, clock)
}

/// So many posts, from the first one on.
pub fn run_posts(
    alloc: Global,
    hosts: &[ScriptHost],
    now: &mut Rehearsal,
    tally: &mut Tally,
    count: u32,
) -> Result<(), Memory>
    requires hosts { hosts.now ≡ work_hosts }
    requires now { now.old ≡ first_simulation hosts.now }
    requires tally { tally.old ≡ first_tally }
    requires count { count ≤ 2000 }
    ensures { OnOk result (Alike hosts.now (worked (plays hosts.now) count (first_play hosts.now)) (now.new, tally.new)) }
{
    for number in 0..count {
        run_post(alloc, hosts, now, tally, number)?;
    }
    Ok(())
}
