//! A host of a rehearsal tries an archive that is due.
ghost use Rattle.std.specs.Prelude.{◌≡◌, ◌≢◌, ◌++◌, IfOk, IfSome, List, OnOk, true};
ghost use Rattle.host_model.specs.Conditions.{IsInput};
ghost use Rattle.host_model.specs.declared.config.Config.{Config};
ghost use Rattle.rehearsal_script.specs.declared.script.ScriptHost.{ScriptHost};
ghost use Rattle.ps_doors.specs.Archiver.{HasLength};
ghost use Rattle.ps_doors.specs.declared.archiver.Tried.TheVariants.{Memory as NoMemory};
ghost use Rattle.rehearsal_report.specs.Line.{archive_text, line_text};
ghost use Rattle.rehearsal_model.specs.Moves.{Move.Tries, attempt, tried_as};
ghost use Rattle.rehearsal_model.specs.Plays.{MayArchive, MayTry};
ghost use Rattle.rehearsal_model.specs.Simulations.{Action.Does, at_last, book_of, outcome_at, config_of, simulation_archived, simulation_after, held_at, try_at};
ghost use Rattle.rehearsal_model.specs.Telling.{archive_said, outcome_said, disk_fault, tried_said};
ghost use Rattle.rehearsal_state.specs.Ready.{IsReady};
ghost use Rattle.rehearsal_lines.specs.Archiving.{told_of, tried_by};

use crate::ask::{CRASHED, DISK_FAULT};
use archivers::by_name::Archivers;
use host_model::input::Input;
use host_model::lead::Due;
use host_model::view::Page;
use ps_doors::archiver::Tried;
use ps_time::memory::Memory;
use ps_time::moment::Moment;
use rehearsal_report::line::{add_archive, add_said};
use rehearsal_report::report::ReportText;
use rehearsal_state::archives::first_due;
use rehearsal_state::attempt::attempt_of;
use rehearsal_state::book::HostBook;
use rehearsal_state::outcome::StepOutcome;
use rehearsal_state::rehearsal::Rehearsal;
use std::alloc::Global;

/// The attempt at the first archive that is due, if one is.
fn first_attempt(alloc: Global, book: &HostBook, clock: Moment) -> Result<Option<Due>, Memory>
    ensures { IfOk result (λ made. made ≡ attempt book.now.book clock) }
{
    match first_due(book, clock) {
        Some((key, index)) => attempt_of(alloc, book, key, index),
        None => Ok(None),
    }
}

/// What a host is told of an attempt that came to this.
fn as_input(due: &Due, tried: &Tried) -> Result<Input, Memory>
    requires { HasLength tried.now }
    ensures told { IfOk result (λ input. (tried.now ≢ NoMemory) × (input ≡ tried_as due.now tried.now)) }
    ensures input { (config : Config) → IfOk result (IsInput config) }
{
    let (good, retry) = match tried {
        Tried::Succeeded => (true, None),
        Tried::Failed { error: _, retry } => (false, *retry),
        Tried::Memory => return Err(Memory),
    };
    Ok(Input::Tried {
        key: due.key,
        index: due.index,
        good,
        retry,
    })
}

/// The attempt is made, and this is what the host is told of it.
fn make_attempt<A: Archivers>(alloc: Global, archivers: &mut A, due: &Due) -> Result<Input, Memory>
    ensures told { IfOk result (λ input. input ≡ told_of (A.comes archivers.old) due.now) }
    ensures input { (config : Config) → IfOk result (IsInput config) }
    ensures stays { A.comes archivers.new ≡ A.comes archivers.old }
{
    let archiver = due.archiver.as_str();
    let settings = due.settings.as_str();
    let merged = due.merged.as_str();
    let tried = archivers.attempt(alloc, archiver, due.key, due.tried, settings, merged);
    let input = as_input(due, &tried);
    drop(tried);
    input
}

/// The first attempt that is due on the host at a place is made, if one is.
fn make_first<A: Archivers>(
    alloc: Global,
    archivers: &mut A,
    now: &Rehearsal,
    place: usize,
    clock: Moment,
) -> Result<Option<Input>, Memory>
    requires ready { IsReady now.now place clock }
    requires sure { (held_at now.now place).ready ≡ true }
    ensures told { IfOk result (λ o. o ≡ tried_by (A.comes archivers.old) (attempt (book_of now.now place) clock)) }
    ensures input { (config : Config) → IfOk result (λ o. IfSome o (IsInput config)) }
    ensures stays { A.comes archivers.new ≡ A.comes archivers.old }
{
    match first_attempt(alloc, now.held_host(place).book(), clock)? {
        Some(due) => {
            let input = make_attempt(alloc, archivers, &due);
            drop(due);
            Ok(Some(input?))
        }
        None => Ok(None),
    }
}

/// A host is told of an attempt, and what comes of that is reported.
fn tell(
    alloc: Global,
    now: &mut Rehearsal,
    place: usize,
    clock: Moment,
    input: Input,
    line: u64,
    report: &mut ReportText,
) -> Result<(), Memory>
    requires ready { IsReady now.old place clock }
    requires input { IsInput (config_of now.old place) input }
    ensures report { OnOk result (report.new ≡ report.old ++ line_text line (outcome_said (outcome_at now.old place clock input) disk_fault archive_text)) }
    ensures simulation { (hosts : List ScriptHost) → OnOk result (now.new ≡ simulation_after hosts now.old (Does (Tries place clock input))) }
{
    match now.step(alloc, place, clock, input)? {
        StepOutcome::Answered(reply) => {
            let added = add_archive(report, line, &reply);
            drop(reply);
            added
        }
        StepOutcome::Faulted => add_said(report, line, DISK_FAULT),
        StepOutcome::Crashed => add_said(report, line, CRASHED),
    }
}

// A host that knows what stands makes the first attempt at an archive that is due.
fn try_first<A: Archivers>(
    alloc: Global,
    archivers: &mut A,
    now: &mut Rehearsal,
    place: usize,
    clock: Moment,
    line: u64,
    report: &mut ReportText,
) -> Result<(), Memory>
    requires ready { IsReady now.old place clock }
    requires sure { (held_at now.old place).ready ≡ true }
    ensures report { OnOk result (report.new ≡ report.old ++ line_text line (tried_said (A.comes archivers.old) now.old place clock)) }
    ensures simulation { (hosts : List ScriptHost) → OnOk result (now.new ≡ simulation_after hosts now.old (try_at (A.comes archivers.old) now.old place clock)) }
    ensures may { OnOk result (MayTry (A.comes archivers.old) now.old place clock) }
    ensures stays { A.comes archivers.new ≡ A.comes archivers.old }
{
    match make_first(alloc, archivers, now, place, clock)? {
        Some(input) => tell(alloc, now, place, clock, input, line, report),
        None => add_said(report, line, "nothing due"),
    }
}

/// The host at a place makes the first attempt at an archive that is due at a clock, in seconds since 1970 UTC, once, and what comes of
/// that is reported. After a fault of a disk it first finds out what stands, by looking at its first page.
pub fn archive<A: Archivers>(
    alloc: Global,
    archivers: &mut A,
    now: &mut Rehearsal,
    place: usize,
    clock: Moment,
    line: u64,
    report: &mut ReportText,
) -> Result<(), Memory>
    requires { IsReady now.old place clock }
    ensures report { (hosts : List ScriptHost) → OnOk result (report.new ≡ report.old ++ line_text line (archive_said (A.comes archivers.old) hosts now.old place clock)) }
    ensures simulation { (hosts : List ScriptHost) → OnOk result (at_last clock now.new ≡ simulation_archived (A.comes archivers.old) hosts now.old place clock) }
    ensures may { (hosts : List ScriptHost) → OnOk result (MayArchive (A.comes archivers.old) hosts now.old place clock) }
    ensures stays { A.comes archivers.new ≡ A.comes archivers.old }
{
    if now.held_host(place).is_ready() {
        return try_first(alloc, archivers, now, place, clock, line, report);
    }
    match now.step(alloc, place, clock, Input::View(Page::Home))? {
        StepOutcome::Answered(reply) => {
            drop(reply);
            let _ = now.held_host(place).book().rows();
            now.advance(clock);
            try_first(alloc, archivers, now, place, clock, line, report)
        }
        StepOutcome::Faulted => add_said(report, line, DISK_FAULT),
        StepOutcome::Crashed => add_said(report, line, CRASHED),
    }
}
