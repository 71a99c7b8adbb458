//! Rehearsals: the hosts of a script are run line by line, and what they do is reported.
ghost use Rattle.std.specs.Prelude.{◌≡◌, ◌++◌, ◌≤◌, All, IfOk, OnOk, flat_map, map, true};
ghost use Rattle.ps_time.specs.declared.moment.TheConstants.{MAX_MOMENT};
ghost use Rattle.host_model.specs.Conditions.{IsConfig};
ghost use Rattle.rehearsal_script.specs.Lawful.{AreLawfulHosts, IsLawful};
ghost use Rattle.world_law.specs.Laws.{Safe};
ghost use Rattle.rehearsal_model.specs.Hosts.{first_config};
ghost use Rattle.rehearsal_model.specs.Rehearsal.{stage_table};
ghost use Rattle.rehearsal_model.specs.Simulations.{UnsyncedKept, first_simulation, last_simulation, world_of};
ghost use Rattle.rehearsal_model.specs.Simulated.{opened_anew};
ghost use Rattle.rehearsal_model.specs.Telling.{lines_said, report_of};
ghost use Rattle.rehearsal_lines.specs.Kept.{AreKeptOn};

use crate::line::run_line;
use archivers::by_name::Archivers;
use host_model::input::Input;
use host_model::view::Page;
use ps_disks::memory_disk::MemoryDisk;
use ps_time::items::Items;
use ps_time::memory::Memory;
use ps_time::moment::Moment;
use rehearsal_lines::state::hosts::first_config;
use rehearsal_lines::state::rehearsal::Rehearsal;
use rehearsal_lines::state::simulated::SimulatedHost;
use rehearsal_model::law::{law_config, law_message, law_played};
use rehearsal_report::report::ReportText;
use rehearsal_report::table::add_table;
use rehearsal_script::script::{Script, ScriptHost};
use std::alloc::Global;
use std::mem::forget;

/// The hosts of a script, opened at moment 0.
pub fn open_hosts(alloc: Global, hosts: &[ScriptHost]) -> Result<Vec<SimulatedHost>, Memory>
    requires { AreLawfulHosts hosts.now }
    ensures { IfOk result (λ held_hosts. held_hosts.items ≡ map (λ host. opened_anew (first_config hosts.now host)) hosts.now) }
{
    let mut held_hosts = Vec::new(alloc);
    for host in hosts {
        let config = first_config(alloc, hosts, host)?;
        held_hosts.push(SimulatedHost::open(alloc, config)?)?;
    }
    Ok(held_hosts)
}

fn run_lines<A: Archivers>(
    alloc: Global,
    script: &Script,
    archivers: &mut A,
    now: &mut Rehearsal,
    report: &mut ReportText,
) -> Result<(), Memory>
    requires lawful { IsLawful script.now }
    requires first { now.old ≡ first_simulation script.now.hosts }
    ensures report { OnOk result (report.new ≡ report.old ++ lines_said (A.comes archivers.old) script.now.hosts (first_simulation script.now.hosts) script.now.lines) }
    ensures simulation { OnOk result (now.new ≡ last_simulation (A.comes archivers.old) script.now) }
    ensures safe { (turns : UnsyncedKept) → OnOk result (Safe (world_of (A.comes archivers.old) script.now turns)) }
    ensures configs { OnOk result (All (λ held_host. IsConfig held_host.state.config) now.new.held_hosts) }
    ensures moment { OnOk result (now.new.last ≤ MAX_MOMENT) }
    ensures stays { A.comes archivers.new ≡ A.comes archivers.old }
{
    law_config();
    law_message();
    law_played();
    let hosts = script.hosts.as_slice();
    for numbered in script.lines.as_slice() {
        run_line(alloc, hosts, archivers, now, numbered, report)?;
    }
    Ok(())
}

// The host once it knows what stands. After a fault of a disk it finds that out by looking at its first page.
fn settle(alloc: Global, held_host: SimulatedHost, clock: Moment) -> Result<SimulatedHost, Memory>
    requires config { IsConfig held_host.state.config }
    requires clock { clock ≤ MAX_MOMENT }
    ensures ready { IfOk result (λ settled. settled.ready ≡ true) }
    ensures state { IfOk result (λ settled. settled.state ≡ held_host.state) }
{
    if held_host.is_ready() {
        return Ok(held_host);
    }
    let mut held_host = held_host;
    held_host.fail_at(0);
    let reply = held_host.act(alloc, clock, Input::View(Page::Home))?;
    drop(reply);
    Ok(held_host)
}

fn add_host_table(
    alloc: Global,
    held_host: &SimulatedHost,
    moment: Moment,
    report: &mut ReportText,
) -> Result<(), Memory>
    requires ready { held_host.now.ready ≡ true }
    requires moment { moment ≤ MAX_MOMENT }
    ensures { OnOk result (report.new ≡ report.old ++ stage_table moment held_host.now.state) }
{
    let name = held_host.config().name.as_str();
    add_table(
        alloc,
        report,
        name,
        held_host.book().rows().in_order(),
        moment,
    )
}

// The host, once its table at a moment, in seconds since 1970 UTC, is in the report.
fn tell(
    alloc: Global,
    held_host: SimulatedHost,
    moment: Moment,
    report: &mut ReportText,
) -> Result<SimulatedHost, Memory>
    requires config { IsConfig held_host.state.config }
    requires moment { moment ≤ MAX_MOMENT }
    ensures report { OnOk result (report.new ≡ report.old ++ stage_table moment held_host.state) }
    ensures state { IfOk result (λ told. told.state ≡ held_host.state) }
{
    let held_host = settle(alloc, held_host, moment)?;
    add_host_table(alloc, &held_host, moment, report)?;
    Ok(held_host)
}

fn tell_all(
    alloc: Global,
    held_hosts: Vec<SimulatedHost>,
    moment: Moment,
    report: &mut ReportText,
) -> Result<Vec<SimulatedHost>, Memory>
    requires configs { All (λ held_host. IsConfig held_host.state.config) held_hosts.items }
    requires moment { moment ≤ MAX_MOMENT }
    ensures report { OnOk result (report.new ≡ report.old ++ flat_map (λ held_host. stage_table moment held_host.state) held_hosts.items) }
    ensures states { IfOk result (λ told. map (λ held_host. held_host.state) told.items ≡ map (λ held_host. held_host.state) held_hosts.items) }
{
    let mut told = Vec::new(alloc);
    for held_host in held_hosts {
        told.push(tell(alloc, held_host, moment, report)?)?;
    }
    Ok(told)
}

// Runs the hosts of a script, each opened with an empty book at moment 0: the report on what they do, and the hosts as they stand then.
fn run_through<A: Archivers>(
    alloc: Global,
    script: &Script,
    archivers: &mut A,
) -> Result<(ReportText, Vec<SimulatedHost>), Memory>
    requires { IsLawful script.now }
    ensures report { IfOk result (λ made. made.0 ≡ report_of (A.comes archivers.old) script.now) }
    ensures states { IfOk result (λ made. map (λ held_host. held_host.state) made.1.items ≡ map (λ held_host. held_host.state) (last_simulation (A.comes archivers.old) script.now).held_hosts) }
    ensures safe { (turns : UnsyncedKept) → OnOk result (Safe (world_of (A.comes archivers.old) script.now turns)) }
    ensures stays { A.comes archivers.new ≡ A.comes archivers.old }
{
    let held_hosts = open_hosts(alloc, script.hosts.as_slice())?;
    let mut now = Rehearsal::new(alloc, held_hosts)?;
    let mut report = ReportText::new(alloc);
    run_lines(alloc, script, archivers, &mut now, &mut report)?;
    let moment = now.last();
    let held_hosts = tell_all(alloc, now.into_held_hosts(), moment, &mut report)?;
    Ok((report, held_hosts))
}

/// The disks of a host, in their order.
pub type Disks = (MemoryDisk, MemoryDisk);

/// What came of a script.
#[derive(Drop)]
pub struct Rehearsed {
    pub report: Items<u8>,
    /// Of each host, in the order of their declaration.
    pub disks: Vec<Disks>,
}

fn disks_of(alloc: Global, held_hosts: Vec<SimulatedHost>) -> Result<Vec<Disks>, Memory>
    ensures { IfOk result (λ disks. AreKeptOn held_hosts.items disks.items) }
{
    let mut disks = Vec::new(alloc);
    for held_host in held_hosts {
        disks.push(held_host.into_disks()?)?;
    }
    Ok(disks)
}

/// Runs the hosts of a script, each opened with an empty book at moment 0, with these archivers, and gives the report on what they do,
/// and their disks. docs/specification/rehearsal.md states the report.
pub fn run_script<A: Archivers>(
    alloc: Global,
    script: &Script,
    archivers: &mut A,
) -> Result<Rehearsed, Memory>
    requires { IsLawful script.now }
    ensures report { IfOk result (λ made. made.report ≡ report_of (A.comes archivers.old) script.now) }
    // What each host did is kept.
    ensures kept { IfOk result (λ made. AreKeptOn (last_simulation (A.comes archivers.old) script.now).held_hosts made.disks.items) }
    // Whichever way it turns out what faults of disks left.
    ensures safe { (turns : UnsyncedKept) → OnOk result (Safe (world_of (A.comes archivers.old) script.now turns)) }
    ensures stays { A.comes archivers.new ≡ A.comes archivers.old }
{
    let (report, held_hosts) = run_through(alloc, script, archivers)?;
    let disks = disks_of(alloc, held_hosts)?;
    Ok(Rehearsed {
        report: report.into_bytes(),
        disks,
    })
}

/// The report alone. Its hosts keep their memory: the program ends with the report, and the system takes all of it back at once.
pub fn rehearse<A: Archivers>(
    alloc: Global,
    script: &Script,
    archivers: &mut A,
) -> Result<Items<u8>, Memory>
    requires { IsLawful script.now }
    ensures report { IfOk result (λ report. report ≡ report_of (A.comes archivers.old) script.now) }
    ensures safe { (turns : UnsyncedKept) → OnOk result (Safe (world_of (A.comes archivers.old) script.now turns)) }
    ensures stays { A.comes archivers.new ≡ A.comes archivers.old }
{
    let (report, held_hosts) = run_through(alloc, script, archivers)?;
    forget(held_hosts);
    Ok(report.into_bytes())
}
