//! A host of a script on two disks in memory, of each of which one call may be made to fail.
ghost use Rattle.std.specs.Prelude.{◌≡◌, ◌≤◌, ◌<◌, ◌-◌, IfOk, OnOk, Some, is_some, true};
ghost use Rattle.ps_disks.specs.Run.{IsArmed};
ghost use Rattle.ps_disks.specs.declared.rack.TheConstants.{FRESH_FIRST as fresh_first, FRESH_SECOND as fresh_second};
ghost use Rattle.ps_time.specs.declared.moment.TheConstants.{MAX_MOMENT};
ghost use Rattle.host_journal.specs.Pair.{pair_of};
ghost use Rattle.host_model.specs.Conditions.{IsConfig, IsInput};
ghost use Rattle.host_keep.specs.Standing.{Seen, after};
ghost use Rattle.simulated_machine.specs.Held.{armed_at, configured, fault_at};
ghost use Rattle.simulated_machine.specs.IsHeld.{held};
ghost use Rattle.rehearsal_model.specs.Plays.{IsSimulated};
ghost use Rattle.rehearsal_model.specs.Rehearsal.{retooled};
ghost use Rattle.rehearsal_model.specs.Simulated.{Left, answered, unarmed_on, ended_at, fault_in, is_before, left_stopped, new_left, opened_anew, opened_on, stage_with, stepped, stop_met};
ghost use Rattle.simulated_host.specs.Kept.{IsKeptOn};
ghost use Rattle.simulated_host.specs.Staged.{IsLeft, staged};

use host_keep::book::HostBook;
use host_keep::call::HostCall;
use host_keep::host::Host;
use host_keep::law::law_one_book;
use host_model::config::Config;
use host_model::input::Input;
use host_model::reply::Reply;
use ps_disks::disk::Disk;
use ps_disks::memory_disk::MemoryDisk;
use ps_disks::rack::{FRESH_FIRST, FRESH_SECOND};
use ps_time::items::Items;
use ps_time::memory::Memory;
use ps_time::moment::Moment;
use ps_time::text::Text;
use rehearsal_script::script::Stop;
use simulated_machine::simulated::{SimulatedMachine, Stepped};
use std::alloc::Global;
use std::marker::Model;
use std::mem;

/// A host with its configuration. All that it does is kept before it answers.
pub struct SimulatedHost {
    simulated: SimulatedMachine<Host>,
}

impl Model for SimulatedHost {
    ghost use Rattle.simulated_machine.specs.Held.{Held};
    ghost use Rattle.simulated_machine.specs.IsHeld.{held};
    ghost use Rattle.world_law.specs.World.{Stage};
    ghost use Rattle.host_keep.specs.Standing.{Seen, after};
    ghost use Rattle.simulated_host.specs.Staged.{staged};

    ghost Value = { Held Stage };

    ghost view = { λ s. staged (held (λ (m : Seen). m.standing) after s.simulated) };
}

// Written out, so that a drop elsewhere is one call.
impl Drop for SimulatedHost {
    fn drop(self) {
        let SimulatedHost { simulated: _ } = self;
    }
}

impl SimulatedHost {
    /// The host with this configuration on new disks, opened at moment 0.
    pub fn open(alloc: Global, config: Config) -> Result<SimulatedHost, Memory>
        requires { IsConfig config }
        ensures { IfOk result (λ simulated. simulated ≡ opened_anew config) }
    {
        let first = disk_of(alloc, &FRESH_FIRST)?;
        let second = disk_of(alloc, &FRESH_SECOND)?;
        open_on(alloc, config, 0, first, second)
    }

    /// The configuration, which no step changes.
    pub fn config(&self) -> &Config
        ensures { result.now ≡ self.now.state.config }
    {
        self.simulated.machine().config()
    }

    /// The book; after a fault the next step finds out what it is.
    pub fn book(&self) -> &HostBook
        requires { self.now.ready ≡ true }
        ensures book { result.now.book ≡ self.now.state.book }
        ensures number { result.now.number ≡ self.now.state.config.number }
    {
        self.simulated.machine().book()
    }

    /// Whether the last step met no fault.
    pub fn is_ready(&self) -> bool
        ensures { result ≡ self.now.ready }
    {
        self.simulated.is_ready()
    }

    /// Lets one of the writes, cuts and syncs of each disk fail, numbered from 1 from now on, or none for 0. The first fault
    /// disarms both.
    pub fn fail_at(&mut self, call: u64)
        ensures { self.new ≡ armed_at self.old call }
    {
        self.simulated.fail_at(call);
    }

    /// A step of the host at a clock, in seconds since 1970 UTC. It answers nothing where a call of its disks failed.
    pub fn act(
        &mut self,
        alloc: Global,
        clock: Moment,
        input: Input,
    ) -> Result<Option<Reply>, Memory>
        requires config { IsConfig self.old.state.config }
        requires clock { clock ≤ MAX_MOMENT }
        requires input { IsInput self.old.state.config input }
        ensures reply { IfOk result (λ reply. reply ≡ answered self.old clock input) }
        ensures simulated { OnOk result (self.new ≡ stepped self.old clock input) }
        ensures config { OnOk result (self.new.state.config ≡ self.old.state.config) }
    {
        match self.simulated.step(alloc, HostCall { clock, input })? {
            Stepped::Answered(reply) => Ok(Some(reply)),
            Stepped::Faulted => Ok(None),
        }
    }

    // What is unsynced of the host has its configuration. Does nothing.
    fn known(&self)
        ensures { IsSimulated self.now }
    {
        let _ready = self.simulated.is_ready();
    }

    /// A step of the host at a clock, in seconds since 1970 UTC, that is to stop: the host as it is opened again, and that it
    /// stopped. Where a call of its disks fails before, the step meets that fault, and the host isn't to stop any more.
    pub fn crash(
        self,
        alloc: Global,
        clock: Moment,
        input: Input,
        stop: Stop,
    ) -> Result<(SimulatedHost, bool), Memory>
        requires config { IsConfig self.state.config }
        requires clock { clock ≤ MAX_MOMENT }
        requires input { IsInput self.state.config input }
        ensures simulated { IfOk result (λ r. r.0 ≡ ended_at self clock input stop) }
        ensures stopped { IfOk result (λ r. r.1 ≡ is_some (stop_met (Some stop) (fault_in self clock input))) }
        ensures config { IfOk result (λ r. r.0.state.config ≡ self.state.config) }
    {
        let number = self.simulated.fault_at()?;
        if is_before(number, stop.call) {
            return self.crash_unless_fault(alloc, clock, input, stop);
        }
        self.known();
        let config = self.config().copy(alloc)?;
        let disks = self.crash_at_stop(alloc, clock, input, stop)?;
        let simulated = reopen_on(alloc, config, clock, disks)?;
        Ok((simulated, true))
    }

    // A call that is to fail comes before the stop. Where the step makes fewer, it stops behind its last one.
    fn crash_unless_fault(
        self,
        alloc: Global,
        clock: Moment,
        input: Input,
        stop: Stop,
    ) -> Result<(SimulatedHost, bool), Memory>
        requires config { IsConfig self.state.config }
        requires clock { clock ≤ MAX_MOMENT }
        requires input { IsInput self.state.config input }
        requires before { is_before stop.call (fault_at self) ≡ true }
        ensures simulated { IfOk result (λ r. r.0 ≡ ended_at self clock input stop) }
        ensures stopped { IfOk result (λ r. r.1 ≡ is_some (stop_met (Some stop) (fault_in self clock input))) }
        ensures config { IfOk result (λ r. r.0.state.config ≡ self.state.config) }
    {
        let mut simulated = self;
        let Some(reply) = simulated.act(alloc, clock, input)? else {
            return Ok((simulated, false));
        };
        drop(reply);
        let config = simulated.config().copy(alloc)?;
        let disks = simulated.into_simulated().crash_now(stop.image)?;
        let simulated = reopen_on(alloc, config, clock, disks)?;
        Ok((simulated, true))
    }

    fn into_simulated(self) -> SimulatedMachine<Host>
        ensures { staged (held (λ (m : Seen). m.standing) after result) ≡ self }
    {
        let SimulatedHost { simulated } = self;
        simulated
    }

    // What a crash leaves of the disks as the step stops.
    fn crash_at_stop(
        self,
        alloc: Global,
        clock: Moment,
        input: Input,
        stop: Stop,
    ) -> Result<(MemoryDisk, MemoryDisk), Memory>
        requires config { IsConfig self.state.config }
        requires clock { clock ≤ MAX_MOMENT }
        requires input { IsInput self.state.config input }
        ensures { IfOk result (λ disks. IsLeft (left_stopped self clock input stop) (pair_of (⟦<MemoryDisk as Disk>⟧.seen disks.0) (⟦<MemoryDisk as Disk>⟧.seen disks.1))) }
    {
        let SimulatedHost { simulated } = self;
        let mut simulated = simulated;
        simulated.fail_at(0);
        simulated.crash(alloc, HostCall { clock, input }, stop.call, stop.image)
    }

    /// The disks, which as they read stand for the host's book.
    pub fn into_disks(self) -> Result<(MemoryDisk, MemoryDisk), Memory>
        ensures { IfOk result (λ disks. IsKeptOn self.state disks.0 disks.1) }
    {
        let SimulatedHost { simulated } = self;
        simulated.into_disks()
    }

    /// Gives the host other tools.
    pub fn retool(&mut self, alloc: Global, tools: Items<Text>) -> Result<(), Memory>
        requires { IsConfig (retooled tools self.old.state.config) }
        ensures { OnOk result (self.new ≡ configured stage_with (retooled tools self.old.state.config) self.old) }
    {
        let config = with_tools(alloc, self.config(), tools)?;
        self.simulated.set_config(config)
    }
}

// The configuration with other tools.
fn with_tools(alloc: Global, config: &Config, tools: Items<Text>) -> Result<Config, Memory>
    ensures { IfOk result (λ made. made ≡ retooled tools config.now) }
{
    match config.copy(alloc) {
        Ok(mut made) => {
            drop(mem::replace(&mut made.installed, tools));
            Ok(made)
        }
        Err(fault) => {
            drop(tools);
            Err(fault)
        }
    }
}

// A disk with these bytes, which met no fault and of which no call is to fail.
fn disk_of(alloc: Global, bytes: &[u8]) -> Result<MemoryDisk, Memory>
    ensures seen { IfOk result (λ disk. ⟦<MemoryDisk as Disk>⟧.seen disk ≡ bytes.now) }
    ensures armed { IfOk result (λ disk. IsArmed disk 0) }
    ensures faults { IfOk result (λ disk. disk.faults ≡ 0) }
{
    Ok(MemoryDisk::new(alloc, bytes.to_vec(alloc)?, Vec::new(alloc)))
}

// The call that is to fail comes before the stop.
fn is_before(number: Option<u64>, stop: u64) -> bool
    ensures { result ≡ is_before stop number }
{
    match number {
        Some(number) => number < stop,
        None => false,
    }
}

// The host for which disks stand of which no call is to fail, opened at a clock.
fn open_on(
    alloc: Global,
    config: Config,
    clock: Moment,
    first: MemoryDisk,
    second: MemoryDisk,
) -> Result<SimulatedHost, Memory>
    requires config { IsConfig config }
    requires clock { clock ≤ MAX_MOMENT }
    requires armed { IsArmed first 0 × IsArmed second 0 }
    requires faults { (first.faults ≡ 0) × (second.faults ≡ 0) }
    ensures config { IfOk result (λ simulated. simulated.state.config ≡ config) }
    ensures left { IfOk result (λ simulated. (left : Left) → left.state.config ≡ config → IsLeft left (pair_of (⟦<MemoryDisk as Disk>⟧.seen first) (⟦<MemoryDisk as Disk>⟧.seen second)) → simulated ≡ opened_on left clock) }
    ensures anew { IfOk result (λ simulated. ⟦<MemoryDisk as Disk>⟧.seen first ≡ fresh_first → ⟦<MemoryDisk as Disk>⟧.seen second ≡ fresh_second → simulated ≡ opened_on (new_left config) clock) }
{
    law_one_book();
    match SimulatedMachine::open(alloc, config, first, second) {
        Ok(simulated) => begin(alloc, SimulatedHost { simulated }, clock),
        Err(_fault) => Err(Memory),
    }
}

// The host for what a crash left of disks, opened at a clock.
fn reopen_on(
    alloc: Global,
    config: Config,
    clock: Moment,
    disks: (MemoryDisk, MemoryDisk),
) -> Result<SimulatedHost, Memory>
    requires config { IsConfig config }
    requires clock { clock ≤ MAX_MOMENT }
    ensures config { IfOk result (λ simulated. simulated.state.config ≡ config) }
    ensures left { IfOk result (λ simulated. (left : Left) → left.state.config ≡ config → IsLeft left (pair_of (⟦<MemoryDisk as Disk>⟧.seen disks.0) (⟦<MemoryDisk as Disk>⟧.seen disks.1)) → simulated ≡ opened_on left clock) }
{
    let first = disk_of(alloc, disks.0.bytes())?;
    let second = disk_of(alloc, disks.1.bytes())?;
    open_on(alloc, config, clock, first, second)
}

// The first step of a host of which no call is to fail.
fn begin(alloc: Global, simulated: SimulatedHost, clock: Moment) -> Result<SimulatedHost, Memory>
    requires config { IsConfig simulated.state.config }
    requires clock { clock ≤ MAX_MOMENT }
    ensures config { IfOk result (λ made. made.state.config ≡ simulated.state.config) }
    ensures opened { IfOk result (λ made. (left : Left) → simulated ≡ unarmed_on left → made ≡ opened_on left clock) }
{
    let mut simulated = simulated;
    let reply = simulated.act(alloc, clock, Input::Open)?;
    drop(reply);
    Ok(simulated)
}
