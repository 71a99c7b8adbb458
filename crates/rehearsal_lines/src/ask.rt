//! A host of a rehearsal is asked, by a line or by a request.
ghost use Rattle.std.specs.Prelude.{◌≡◌, ◌<◌, ◌++◌, IfOk, List, OnOk, length};
ghost use Rattle.host_model.specs.Conditions.{IsInput};
ghost use Rattle.host_model.specs.declared.input.Input.TheVariants.{Book as AsBook, Limits as AsLimits};
ghost use Rattle.host_model.specs.declared.reply.Reply.{Reply};
ghost use Rattle.api_reply.specs.Bounds.{IsReplyShown};
ghost use Rattle.limit_apply.specs.Read.{IsKept};
ghost use Rattle.rehearsal_script.specs.declared.script.ScriptHost.{ScriptHost};
ghost use Rattle.rehearsal_report.specs.Line.{booking_text, limits_text, line_text};
ghost use Rattle.rehearsal_model.specs.Moves.{Move.Asks};
ghost use Rattle.rehearsal_model.specs.Simulations.{Action.Does, outcome_at, config_of, simulation_after};
ghost use Rattle.rehearsal_model.specs.Telling.{outcome_said, unavailable};
ghost use Rattle.rehearsal_model.specs.declared.outcome.StepOutcome.TheVariants.{Answered as AsAnswered};
ghost use Rattle.rehearsal_state.specs.Moved.{with_step};
ghost use Rattle.rehearsal_state.specs.Ready.{IsReady};

use api_peer::bounds_law::law_reply;
use host_model::input::Input;
use limit_apply::limits::Limits;
use ps_time::class::Class;
use ps_time::memory::Memory;
use ps_time::moment::{Length, Moment};
use rehearsal_report::line::{add_booking, add_limits, add_said};
use rehearsal_report::report::ReportText;
use rehearsal_state::outcome::StepOutcome;
use rehearsal_state::rehearsal::Rehearsal;
use std::alloc::Global;

/// What is told where a step stopped.
pub const CRASHED: &str = "crashed";

/// What is told to somebody who asks, where a call of a disk failed.
pub(crate) const UNAVAILABLE: &str = "503 {\"error\":\"disk\"}";

/// What is told of what a host does of itself, where a call of a disk failed.
pub const DISK_FAULT: &str = "disk fault";

/// A step of the host at a place, at a clock in seconds since 1970 UTC. Its reply can be shown.
pub(crate) fn step_shown(
    alloc: Global,
    now: &mut Rehearsal,
    place: usize,
    clock: Moment,
    input: Input,
) -> Result<StepOutcome, Memory>
    requires ready { IsReady now.old place clock }
    requires input { IsInput (config_of now.old place) input }
    ensures outcome { IfOk result (λ outcome. outcome ≡ outcome_at now.old place clock input) }
    ensures shown { IfOk result (λ outcome. (reply : Reply) → outcome ≡ AsAnswered reply → IsReplyShown reply) }
    ensures simulation { OnOk result (now.new ≡ with_step now.old place clock input) }
{
    law_reply();
    now.step(alloc, place, clock, input)
}

/// Somebody asks the host at a place, at a clock in seconds since 1970 UTC.
pub fn ask(
    alloc: Global,
    now: &mut Rehearsal,
    place: usize,
    clock: Moment,
    input: Input,
) -> Result<StepOutcome, Memory>
    requires ready { IsReady now.old place clock }
    requires input { IsInput (config_of now.old place) input }
    ensures outcome { IfOk result (λ outcome. outcome ≡ outcome_at now.old place clock input) }
    ensures shown { IfOk result (λ outcome. (reply : Reply) → outcome ≡ AsAnswered reply → IsReplyShown reply) }
    ensures there { IfOk result (λ outcome. (reply : Reply) → outcome ≡ AsAnswered reply → place < length now.new.held_hosts) }
    ensures config { IfOk result (λ outcome. (reply : Reply) → outcome ≡ AsAnswered reply → config_of now.new place ≡ config_of now.old place) }
    ensures simulation { (hosts : List ScriptHost) → OnOk result (now.new ≡ simulation_after hosts now.old (Does (Asks place clock input))) }
{
    let outcome = step_shown(alloc, now, place, clock, input)?;
    Ok(outcome)
}

/// What a host is asked where a run is to be booked, from a start in seconds since 1970 UTC, so many seconds long.
pub fn booking(class: Class, priority: i16, start: Moment, length: Length) -> Input
    ensures { result ≡ AsBook class priority start length }
{
    Input::Book {
        class,
        priority,
        start,
        length,
    }
}

/// The host at a place is asked to book a run, and what comes of that is reported.
pub fn book(
    alloc: Global,
    now: &mut Rehearsal,
    place: usize,
    clock: Moment,
    input: Input,
    line: u64,
    report: &mut ReportText,
) -> Result<(), Memory>
    requires ready { IsReady now.old place clock }
    requires input { IsInput (config_of now.old place) input }
    ensures report { OnOk result (report.new ≡ report.old ++ line_text line (outcome_said (outcome_at now.old place clock input) unavailable booking_text)) }
    ensures simulation { (hosts : List ScriptHost) → OnOk result (now.new ≡ simulation_after hosts now.old (Does (Asks place clock input))) }
{
    match ask(alloc, now, place, clock, input)? {
        StepOutcome::Answered(reply) => {
            let added = add_booking(report, line, &reply);
            drop(reply);
            added
        }
        StepOutcome::Faulted => add_said(report, line, UNAVAILABLE),
        StepOutcome::Crashed => add_said(report, line, CRASHED),
    }
}

/// The host at a place gets these limits, and what comes of that is reported.
pub fn limit(
    alloc: Global,
    now: &mut Rehearsal,
    place: usize,
    limits: &Limits,
    line: u64,
    report: &mut ReportText,
) -> Result<(), Memory>
    requires ready { IsReady now.old place now.old.last }
    requires kept { IsKept limits.now }
    ensures report { OnOk result (report.new ≡ report.old ++ line_text line (outcome_said (outcome_at now.old place now.old.last (AsLimits limits.now)) unavailable limits_text)) }
    ensures simulation { (hosts : List ScriptHost) → OnOk result (now.new ≡ simulation_after hosts now.old (Does (Asks place now.old.last (AsLimits limits.now)))) }
{
    let input = Input::Limits(limits.copy(alloc)?);
    let clock = now.last();
    match ask(alloc, now, place, clock, input)? {
        StepOutcome::Answered(reply) => {
            let added = add_limits(report, line, &reply);
            drop(reply);
            added
        }
        StepOutcome::Faulted => add_said(report, line, UNAVAILABLE),
        StepOutcome::Crashed => add_said(report, line, CRASHED),
    }
}
