//! Requests to the hosts of a rehearsal: what each is answered is reported.
ghost use Rattle.std.specs.Prelude.{◌≡◌, ◌++◌, List, IfOk, Ok as AsOk, OnOk};
ghost use Rattle.host_model.specs.Conditions.{IsInput};
ghost use Rattle.rehearsal_script.specs.declared.script.ScriptHost.{ScriptHost};
ghost use Rattle.rehearsal_report.specs.Line.{line_text};
ghost use Rattle.rehearsal_model.specs.Moves.{Move.Asks, asking};
ghost use Rattle.rehearsal_model.specs.Plays.{MayMake};
ghost use Rattle.rehearsal_model.specs.Requests.{delete as deleting, get as getting, post as posting};
ghost use Rattle.rehearsal_model.specs.Simulations.{Action.Does, config_of, simulation_after};
ghost use Rattle.rehearsal_model.specs.Telling.{request_said};
ghost use Rattle.rehearsal_state.specs.Ready.{IsReady};

use crate::ask::{CRASHED, UNAVAILABLE, ask};
use crate::requested::{self, Asked};
use api_reply::respond::respond;
use host_model::input::Input;
use ps_time::memory::Memory;
use ps_time::moment::Moment;
use rehearsal_report::line::{add_response, add_said};
use rehearsal_report::report::ReportText;
use rehearsal_state::outcome::StepOutcome;
use rehearsal_state::rehearsal::Rehearsal;
use std::alloc::Global;

/// The host at a place is asked what a request asks, and what comes of that is reported.
fn answer(
    alloc: Global,
    now: &mut Rehearsal,
    place: usize,
    clock: Moment,
    input: Input,
    line: u64,
    report: &mut ReportText,
) -> Result<(), Memory>
    requires ready { IsReady now.old place clock }
    requires input { IsInput (config_of now.old place) input }
    ensures report { OnOk result (report.new ≡ report.old ++ line_text line (request_said now.old place clock (AsOk input))) }
    ensures simulation { (hosts : List ScriptHost) → OnOk result (now.new ≡ simulation_after hosts now.old (Does (Asks place clock input))) }
{
    match ask(alloc, now, place, clock, input)? {
        StepOutcome::Answered(reply) => {
            let response = respond(alloc, now.held_host(place).config(), &reply, clock);
            drop(reply);
            let response = response?;
            let added = add_response(report, line, &response);
            drop(response);
            added
        }
        StepOutcome::Faulted => add_said(report, line, UNAVAILABLE),
        StepOutcome::Crashed => add_said(report, line, CRASHED),
    }
}

// By what the host replies, or by the response that refuses the request.
fn answer_request(
    alloc: Global,
    now: &mut Rehearsal,
    place: usize,
    clock: Moment,
    asked: Asked,
    line: u64,
    report: &mut ReportText,
) -> Result<(), Memory>
    requires ready { IsReady now.old place clock }
    requires input { IfOk asked (IsInput (config_of now.old place)) }
    ensures report { OnOk result (report.new ≡ report.old ++ line_text line (request_said now.old place clock asked)) }
    ensures simulation { (hosts : List ScriptHost) → OnOk result (now.new ≡ simulation_after hosts now.old (Does (asking place clock asked))) }
    ensures may { MayMake now.old (asking place clock asked) }
{
    match asked {
        Ok(input) => answer(alloc, now, place, clock, input, line, report),
        Err(response) => {
            let added = add_response(report, line, &response);
            drop(response);
            added
        }
    }
}

/// A task is posted to the host at a place, at a clock in seconds since 1970 UTC, and what comes of that is reported.
pub fn post(
    alloc: Global,
    now: &mut Rehearsal,
    place: usize,
    clock: Moment,
    address: &str,
    body: &str,
    line: u64,
    report: &mut ReportText,
) -> Result<(), Memory>
    requires { IsReady now.old place clock }
    ensures report { OnOk result (report.new ≡ report.old ++ line_text line (request_said now.old place clock (posting (config_of now.old place) address.now body.now clock))) }
    ensures simulation { (hosts : List ScriptHost) → OnOk result (now.new ≡ simulation_after hosts now.old (Does (asking place clock (posting (config_of now.old place) address.now body.now clock)))) }
    ensures may { OnOk result (MayMake now.old (asking place clock (posting (config_of now.old place) address.now body.now clock))) }
{
    let asked = requested::post(alloc, now.held_host(place).config(), address, body, clock)?;
    answer_request(alloc, now, place, clock, asked, line, report)
}

/// Somebody on the host at a place asks for what stands at a path; its answer is reported.
pub fn get(
    alloc: Global,
    now: &mut Rehearsal,
    place: usize,
    clock: Moment,
    path: &str,
    line: u64,
    report: &mut ReportText,
) -> Result<(), Memory>
    requires { IsReady now.old place clock }
    ensures report { OnOk result (report.new ≡ report.old ++ line_text line (request_said now.old place clock (getting (config_of now.old place) path.now clock))) }
    ensures simulation { (hosts : List ScriptHost) → OnOk result (now.new ≡ simulation_after hosts now.old (Does (asking place clock (getting (config_of now.old place) path.now clock)))) }
    ensures may { OnOk result (MayMake now.old (asking place clock (getting (config_of now.old place) path.now clock))) }
{
    let asked = requested::get(alloc, now.held_host(place).config(), path, clock)?;
    answer_request(alloc, now, place, clock, asked, line, report)
}

/// What stands at a path is to be canceled, by somebody at an address; the answer is reported.
pub fn delete(
    alloc: Global,
    now: &mut Rehearsal,
    place: usize,
    clock: Moment,
    address: &str,
    path: &str,
    line: u64,
    report: &mut ReportText,
) -> Result<(), Memory>
    requires { IsReady now.old place clock }
    ensures report { OnOk result (report.new ≡ report.old ++ line_text line (request_said now.old place clock (deleting (config_of now.old place) address.now path.now clock))) }
    ensures simulation { (hosts : List ScriptHost) → OnOk result (now.new ≡ simulation_after hosts now.old (Does (asking place clock (deleting (config_of now.old place) address.now path.now clock)))) }
    ensures may { OnOk result (MayMake now.old (asking place clock (deleting (config_of now.old place) address.now path.now clock))) }
{
    let asked = requested::delete(alloc, now.held_host(place).config(), address, path, clock)?;
    answer_request(alloc, now, place, clock, asked, line, report)
}
