//! Generated work, from the first post to the summary.
ghost use Rattle.std.specs.Prelude.{◌≡◌, ◌≤◌, IfOk, OnOk};
ghost use Rattle.world_law.specs.Laws.{Safe};
ghost use Rattle.rehearsal_model.specs.Simulations.{UnsyncedKept};
ghost use Rattle.rehearsal_generate.specs.Summary.{summary_of};
ghost use Rattle.rehearsal_generate.specs.Work.{work_of};

use crate::hosts::{law_hosts, work_hosts};
use crate::job::run_posts;
use crate::summary::summarize;
use crate::tally::Tally;
use ps_time::memory::Memory;
use ps_time::text::Text;
use psched_rehearse::rehearse::open_hosts;
use psched_rehearse::state::rehearsal::Rehearsal;
use rehearsal_model::law::law_played;
use std::alloc::Global;

/// Posts so many drawn tasks to eight hosts, runs these for a while behind each, with losses and crashes, and tells what came of it.
/// docs/specification/generated-work.md states the work and the summary.
#[tactic(auto, unfolding(crate::specs::Summary::summary_of, crate::specs::Work::work))]
pub fn generate(alloc: Global, count: u32) -> Result<Text, Memory>
    requires { count ≤ 2000 }
    ensures summary { IfOk result (λ text. text ≡ summary_of count) }
    ensures safe { (turns : UnsyncedKept) → OnOk result (Safe (work_of count turns)) }
{
    law_hosts();
    law_played();
    let hosts = work_hosts(alloc)?;
    let all = hosts.as_slice();
    let held_hosts = open_hosts(alloc, all)?;
    let mut now = Rehearsal::new(alloc, held_hosts)?;
    let mut tally = Tally::new(alloc);
    run_posts(alloc, all, &mut now, &mut tally, count)?;
    summarize(alloc, count, &now, &tally)
}
