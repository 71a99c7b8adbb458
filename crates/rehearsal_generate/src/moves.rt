//! What the hosts do and what happens to them, each at a moment.
ghost use Rattle.std.specs.Prelude.{◌≡◌, ◌<◌, ◌≤◌, All, IfOk, List, OnOk, codes};
ghost use Rattle.ps_time.specs.declared.moment.TheConstants.{MAX_MOMENT};
ghost use Rattle.host_model.specs.Conditions.{IsInput};
ghost use Rattle.rehearsal_script.specs.declared.script.ScriptHost.{ScriptHost};
ghost use Rattle.psched_rehearse.specs.Playing.{IsPlaying};
ghost use Rattle.rehearsal_model.specs.Moves.{Move.Arrives, Move.Lost, Move.Turns, asking};
ghost use Rattle.rehearsal_model.specs.Plays.{MayMake};
ghost use Rattle.rehearsal_model.specs.Reaching.{IsScriptPeer};
ghost use Rattle.rehearsal_model.specs.Requests.{post as reading};
ghost use Rattle.rehearsal_model.specs.Simulations.{Action.Does, Action.Reopens, config_of, simulation_after, simulation_played};
ghost use Rattle.psched_rehearse.specs.Ready.{IsReady};
ghost use Rattle.rehearsal_generate.specs.Posts.{body_of};
ghost use Rattle.rehearsal_generate.specs.Work.{posted, posting, shows};

use crate::post::{Post, body_of};
use ps_time::memory::Memory;
use ps_time::moment::Moment;
use psched_rehearse::arrive::receive;
use psched_rehearse::ask::ask;
use psched_rehearse::requested::{self, Asked};
use psched_rehearse::state::rehearsal::Rehearsal;
use psched_rehearse::state::turn::turn;
use rehearsal_script::script::ScriptHost;
use std::alloc::Global;

/// A turn of the host at a place, and what it sends then.
pub fn take_turn(
    alloc: Global,
    now: &mut Rehearsal,
    place: usize,
    clock: Moment,
) -> Result<(), Memory>
    requires ready { IsReady now.old place clock }
    requires peers { All IsScriptPeer (config_of now.old place).peers }
    ensures { (hosts : List ScriptHost) → OnOk result (now.new ≡ simulation_played hosts now.old clock (Does (Turns place clock))) }
{
    let outcome = turn(alloc, now, place, clock)?;
    drop(outcome);
    now.advance(clock);
    Ok(())
}

/// The host at a place crashes, and is opened again.
pub fn crash(alloc: Global, now: &mut Rehearsal, place: usize, clock: Moment) -> Result<(), Memory>
    requires { IsReady now.old place clock }
    ensures { (hosts : List ScriptHost) → OnOk result (now.new ≡ simulation_played hosts now.old clock (Reopens place clock)) }
{
    now.reopen(alloc, place, clock)?;
    now.advance(clock);
    Ok(())
}

/// The message at a place among those of the hosts, from 1 on, is lost.
pub fn lose(now: &mut Rehearsal, number: u64, clock: Moment)
    ensures { (hosts : List ScriptHost) → now.new ≡ simulation_played hosts now.old clock (Does (Lost number)) }
{
    now.land(number);
    now.advance(clock);
}

/// The message at a place among those of the hosts, from 1 on, arrives.
pub fn arrive(
    alloc: Global,
    hosts: &[ScriptHost],
    now: &mut Rehearsal,
    number: u64,
    clock: Moment,
) -> Result<(), Memory>
    requires playing { IsPlaying hosts.now now.old }
    requires clock { clock ≤ MAX_MOMENT }
    ensures { OnOk result (now.new ≡ simulation_played hosts.now now.old clock (Does (Arrives number clock))) }
{
    let _arrival = receive(alloc, hosts, now, number, clock)?;
    now.advance(clock);
    Ok(())
}

// Nothing is asked where the request was refused as it was read.
fn ask_unless_refused(
    alloc: Global,
    now: &mut Rehearsal,
    place: usize,
    clock: Moment,
    asked: Asked,
) -> Result<(), Memory>
    requires ready { IsReady now.old place clock }
    requires input { IfOk asked (IsInput (config_of now.old place)) }
    ensures simulation { (hosts : List ScriptHost) → OnOk result (now.new ≡ simulation_after hosts now.old (Does (asking place clock asked))) }
    ensures may { MayMake now.old (asking place clock asked) }
{
    match asked {
        Ok(input) => {
            let outcome = ask(alloc, now, place, clock, input)?;
            drop(outcome);
            Ok(())
        }
        Err(response) => {
            drop(response);
            Ok(())
        }
    }
}

// What somebody at an address posts to the host at a place comes to there.
fn read_text(
    alloc: Global,
    now: &Rehearsal,
    place: usize,
    address: &str,
    body: &str,
    clock: Moment,
) -> Result<Asked, Memory>
    requires { IsReady now.now place clock }
    ensures value { IfOk result (λ asked. asked ≡ reading (config_of now.now place) address.now body.now clock) }
    ensures input { IfOk result (λ asked. IfOk asked (IsInput (config_of now.now place))) }
{
    requested::post(alloc, now.held_host(place).config(), address, body, clock)
}

// What a task that is posted to a host comes to there.
fn read_post(alloc: Global, now: &Rehearsal, post: &Post, clock: Moment) -> Result<Asked, Memory>
    requires ready { IsReady now.now post.now.place clock }
    requires place { post.now.place < 8 }
    ensures value { IfOk result (λ asked. asked ≡ reading (config_of now.now post.now.place) (codes "127.0.0.1") (body_of post.now) clock) }
    ensures input { IfOk result (λ asked. IfOk asked (IsInput (config_of now.now post.now.place))) }
{
    let body = body_of(alloc, post)?;
    let address = "127.0.0.1";
    read_text(alloc, now, post.place, address, body.as_str(), clock)
}

fn ask_for(alloc: Global, now: &mut Rehearsal, post: &Post, clock: Moment) -> Result<(), Memory>
    requires ready { IsReady now.old post.now.place clock }
    requires place { post.now.place < 8 }
    ensures simulation { (hosts : List ScriptHost) → OnOk result (now.new ≡ simulation_after hosts now.old (Does (posting now.old clock post.now))) }
    ensures may { OnOk result (MayMake now.old (posting now.old clock post.now)) }
{
    let asked = read_post(alloc, now, post, clock)?;
    ask_unless_refused(alloc, now, post.place, clock, asked)
}

/// Somebody on a host posts a task to it.
#[tactic(auto, unfolding(crate::specs::Work::posted))]
pub fn post(alloc: Global, now: &mut Rehearsal, post: &Post, clock: Moment) -> Result<(), Memory>
    requires ready { IsReady now.old post.now.place clock }
    requires place { post.now.place < 8 }
    ensures simulation { (hosts : List ScriptHost) → OnOk result (now.new ≡ posted (shows hosts) clock post.now now.old) }
    ensures may { OnOk result (MayMake now.old (posting now.old clock post.now)) }
{
    ask_for(alloc, now, post, clock)?;
    now.advance(clock);
    Ok(())
}
