//! A line of a script is run on the hosts as they stand, and reported.
ghost use Rattle.std.specs.Prelude.{◌≡◌, ◌++◌, ◌<◌, All, List, OnOk, codes, false, length, true};
ghost use Rattle.host_model.specs.Conditions.{IsConfig};
ghost use Rattle.rehearsal_script.specs.Lawful.{IsLawfulLine};
ghost use Rattle.rehearsal_script.specs.declared.script.ScriptHost.{ScriptHost};
ghost use Rattle.rehearsal_report.specs.Line.{line_text};
ghost use Rattle.rehearsal_model.specs.Moves.{Move.Arms, Move.Retools, Move.Turns, Outcomes};
ghost use Rattle.rehearsal_model.specs.Plays.{MayLine};
ghost use Rattle.rehearsal_model.specs.Reaching.{IsScriptPeer};
ghost use Rattle.rehearsal_model.specs.Rehearsal.{retooled};
ghost use Rattle.rehearsal_model.specs.Simulations.{Action.Does, Action.Fails, config_of, action_of, simulation_after, simulation_line};
ghost use Rattle.rehearsal_model.specs.Telling.{line_said, turn_said};
ghost use Rattle.rehearsal_lines.specs.Ready.{IsReady};
ghost use Rattle.rehearsal_lines.specs.Playing.{AreLawful, IsPlaying, is_archive, is_asked, is_at_path, is_of_message};

use archivers::by_name::Archivers;
use ps_time::items::Items;
use ps_time::memory::Memory;
use ps_time::moment::Moment;
use ps_time::text::Text;
use rehearsal_lines::archive::archive;
use rehearsal_lines::arrive::{deliver, lose, repeat};
use rehearsal_lines::ask::{CRASHED, DISK_FAULT, book, booking, limit};
use rehearsal_lines::request::{delete, get, post};
use rehearsal_lines::state::outcome::StepOutcome;
use rehearsal_lines::state::rehearsal::Rehearsal;
use rehearsal_lines::state::tell::add_messages;
use rehearsal_lines::state::turn::turn;
use rehearsal_report::line::{add_ok, add_said};
use rehearsal_report::message::begin_turn;
use rehearsal_report::report::ReportText;
use rehearsal_script::script::{Numbered, ScriptHost, ScriptLine, Stop};
use std::alloc::Global;

fn retool(
    alloc: Global,
    now: &mut Rehearsal,
    place: usize,
    tools: &Items<Text>,
    line: u64,
    report: &mut ReportText,
) -> Result<(), Memory>
    requires place { place < length now.old.held_hosts }
    requires config { IsConfig (retooled tools.now (config_of now.old place)) }
    ensures report { OnOk result (report.new ≡ report.old ++ line_text line (codes "ok")) }
    ensures simulation { (hosts : List ScriptHost) → OnOk result (now.new ≡ simulation_after hosts now.old (Does (Retools place tools.now))) }
{
    let tools = tools.copy(alloc)?;
    now.retool(alloc, place, tools)?;
    add_ok(report, line)
}

/// The next step of the host at a place is to stop.
fn arm(
    now: &mut Rehearsal,
    place: usize,
    stop: Stop,
    line: u64,
    report: &mut ReportText,
) -> Result<(), Memory>
    ensures report { OnOk result (report.new ≡ report.old ++ line_text line (codes "armed")) }
    ensures simulation { (hosts : List ScriptHost) → OnOk result (now.new ≡ simulation_after hosts now.old (Does (Arms place stop))) }
{
    now.arm(place, stop)?;
    add_said(report, line, "armed")
}

/// Of each disk of the host at a place the call of this number is to fail.
fn fail(
    now: &mut Rehearsal,
    place: usize,
    call: u64,
    line: u64,
    report: &mut ReportText,
) -> Result<(), Memory>
    requires { place < length now.old.held_hosts }
    ensures report { OnOk result (report.new ≡ report.old ++ line_text line (codes "armed")) }
    ensures simulation { (hosts : List ScriptHost) → OnOk result (now.new ≡ simulation_after hosts now.old (Fails place call)) }
{
    now.fail_at(place, call);
    add_said(report, line, "armed")
}

/// A turn of the host at a place; what it sends then is reported too.
fn take_turn(
    alloc: Global,
    hosts: &[ScriptHost],
    now: &mut Rehearsal,
    place: usize,
    clock: Moment,
    line: u64,
    report: &mut ReportText,
) -> Result<(), Memory>
    requires ready { IsReady now.old place clock }
    requires peers { All IsScriptPeer (config_of now.old place).peers }
    ensures report { OnOk result (report.new ≡ report.old ++ line_text line (turn_said hosts.now now.old place clock)) }
    ensures simulation { OnOk result (now.new ≡ simulation_after hosts.now now.old (Does (Turns place clock))) }
{
    let before = now.messages().len();
    let broken = now.count_broken();
    match turn(alloc, now, place, clock)? {
        StepOutcome::Answered(reply) => {
            let begun = begin_turn(report, line, &reply);
            drop(reply);
            begun?;
            add_messages(report, hosts, now.messages(), before, broken)
        }
        StepOutcome::Faulted => add_said(report, line, DISK_FAULT),
        StepOutcome::Crashed => add_said(report, line, CRASHED),
    }
}

// A line that speaks of what stands at a path.
fn run_at_path(
    alloc: Global,
    now: &mut Rehearsal,
    event: &ScriptLine,
    line: u64,
    report: &mut ReportText,
) -> Result<(), Memory>
    requires kind { is_at_path event.now ≡ true }
    requires lawful { IsLawfulLine (length now.old.held_hosts) event.now }
    requires hosts { AreLawful now.old }
    ensures report { (comes : Outcomes) (hosts : List ScriptHost) → OnOk result (report.new ≡ report.old ++ line_text line (line_said comes hosts now.old event.now)) }
    ensures simulation { (comes : Outcomes) (hosts : List ScriptHost) → OnOk result (now.new ≡ simulation_after hosts now.old (action_of comes now.old event.now)) }
    ensures may { (comes : Outcomes) (hosts : List ScriptHost) → OnOk result (MayLine comes hosts now.old event.now) }
{
    match event {
        ScriptLine::Get { at, host, path } => {
            let path = path.as_str();
            get(alloc, now, *host, *at, path, line, report)
        }
        ScriptLine::Delete {
            at,
            host,
            address,
            path,
        } => {
            let (address, path) = (address.as_str(), path.as_str());
            delete(alloc, now, *host, *at, address, path, line, report)
        }
        _ => Ok(()),
    }
}

// A line that asks a host something.
fn run_asked(
    alloc: Global,
    now: &mut Rehearsal,
    event: &ScriptLine,
    line: u64,
    report: &mut ReportText,
) -> Result<(), Memory>
    requires kind { is_asked event.now ≡ true }
    requires lawful { IsLawfulLine (length now.old.held_hosts) event.now }
    requires hosts { AreLawful now.old }
    ensures report { (comes : Outcomes) (hosts : List ScriptHost) → OnOk result (report.new ≡ report.old ++ line_text line (line_said comes hosts now.old event.now)) }
    ensures simulation { (comes : Outcomes) (hosts : List ScriptHost) → OnOk result (now.new ≡ simulation_after hosts now.old (action_of comes now.old event.now)) }
    ensures may { (comes : Outcomes) (hosts : List ScriptHost) → OnOk result (MayLine comes hosts now.old event.now) }
{
    match event {
        ScriptLine::Book {
            at,
            host,
            class,
            priority,
            start,
            length,
        } => {
            let input = booking(*class, *priority, *start, *length);
            book(alloc, now, *host, *at, input, line, report)
        }
        ScriptLine::Post {
            at,
            host,
            address,
            body,
        } => {
            let (address, body) = (address.as_str(), body.as_str());
            post(alloc, now, *host, *at, address, body, line, report)
        }
        _ => run_at_path(alloc, now, event, line, report),
    }
}

// A line that speaks of a message.
fn run_message(
    alloc: Global,
    hosts: &[ScriptHost],
    now: &mut Rehearsal,
    event: &ScriptLine,
    line: u64,
    report: &mut ReportText,
) -> Result<(), Memory>
    requires kind { is_of_message event.now ≡ true }
    requires playing { IsPlaying hosts.now now.old }
    requires lawful { IsLawfulLine (length hosts.now) event.now }
    ensures report { (comes : Outcomes) → OnOk result (report.new ≡ report.old ++ line_text line (line_said comes hosts.now now.old event.now)) }
    ensures simulation { (comes : Outcomes) → OnOk result (now.new ≡ simulation_after hosts.now now.old (action_of comes now.old event.now)) }
    ensures may { (comes : Outcomes) → MayLine comes hosts.now now.old event.now }
{
    match event {
        ScriptLine::Deliver { at, message } => deliver(
            alloc, hosts, now, *message, *at, line, report,
        ),
        ScriptLine::Repeat { at, message } => repeat(
            alloc, hosts, now, *message, *at, line, report,
        ),
        ScriptLine::Lose { message } => lose(now, *message, line, report),
        _ => Ok(()),
    }
}

// What a line asks for happens. The line has no host try an archive.
fn run_event(
    alloc: Global,
    hosts: &[ScriptHost],
    now: &mut Rehearsal,
    event: &ScriptLine,
    line: u64,
    report: &mut ReportText,
) -> Result<(), Memory>
    requires kind { is_archive event.now ≡ false }
    requires playing { IsPlaying hosts.now now.old }
    requires lawful { IsLawfulLine (length hosts.now) event.now }
    ensures report { (comes : Outcomes) → OnOk result (report.new ≡ report.old ++ line_text line (line_said comes hosts.now now.old event.now)) }
    ensures simulation { (comes : Outcomes) → OnOk result (now.new ≡ simulation_after hosts.now now.old (action_of comes now.old event.now)) }
    ensures may { (comes : Outcomes) → OnOk result (MayLine comes hosts.now now.old event.now) }
{
    match event {
        ScriptLine::Host { .. } => add_ok(report, line),
        ScriptLine::Tools { host, tools } => retool(alloc, now, *host, tools, line, report),
        ScriptLine::Limits { host, limits } => {
            limit(alloc, now, *host, limits.value(), line, report)
        }
        ScriptLine::Turn { at, host } => take_turn(alloc, hosts, now, *host, *at, line, report),
        ScriptLine::Crash { at: _, host, stop } => arm(now, *host, *stop, line, report),
        ScriptLine::Fail { at: _, host, call } => fail(now, *host, *call, line, report),
        ScriptLine::Deliver { .. } | ScriptLine::Repeat { .. } | ScriptLine::Lose { .. } => {
            run_message(alloc, hosts, now, event, line, report)
        }
        _ => run_asked(alloc, now, event, line, report),
    }
}

/// Runs a line of a script and reports it. The greatest moment of the lines is that of this line, where it is later.
pub fn run_line<A: Archivers>(
    alloc: Global,
    hosts: &[ScriptHost],
    archivers: &mut A,
    now: &mut Rehearsal,
    numbered: &Numbered,
    report: &mut ReportText,
) -> Result<(), Memory>
    requires playing { IsPlaying hosts.now now.old }
    requires lawful { IsLawfulLine (length hosts.now) numbered.now.line }
    ensures report { OnOk result (report.new ≡ report.old ++ line_text numbered.now.number (line_said (A.comes archivers.old) hosts.now now.old numbered.now.line)) }
    ensures simulation { OnOk result (now.new ≡ simulation_line (A.comes archivers.old) hosts.now now.old numbered.now.line) }
    ensures may { OnOk result (MayLine (A.comes archivers.old) hosts.now now.old numbered.now.line) }
    ensures stays { A.comes archivers.new ≡ A.comes archivers.old }
{
    let line = numbered.number;
    match &numbered.line {
        ScriptLine::Archive { at, host } => {
            archive(alloc, archivers, now, *host, *at, line, report)?;
        }
        event => {
            run_event(alloc, hosts, now, event, line, report)?;
        }
    }
    now.advance(numbered.line.moment().unwrap_or(0));
    Ok(())
}
