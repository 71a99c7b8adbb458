//! The host that is tried, kept on two disks in memory.
ghost use Rattle.std.specs.Prelude.{◌≡◌, ◌≤◌};
ghost use Rattle.ps_time.specs.declared.moment.TheConstants.{MAX_MOMENT};
ghost use Rattle.host_model.specs.Conditions.{IsInput};

use crate::fault::TableFault;
use host_input_trials::config::config;
use host_journal::image::SnapshotImage;
use host_keep::call::HostCall;
use host_keep::host::Host;
use host_keep::open::{KeepFault, KeepReason, open};
use host_model::config::Config;
use host_model::input::Input;
use machine_keep::fault::StepFault;
use machine_keep::keep::Keep;
use machine_keep::machine::Machine;
use ps_disks::memory_disk::MemoryDisk;
use ps_disks::rack::{FRESH_FIRST, FRESH_SECOND};
use ps_time::memory::Memory;
use ps_time::moment::Moment;
use std::alloc::Global;
use std::marker::Model;

/// The disks of a host, in their order.
pub(crate) type Disks = (MemoryDisk, MemoryDisk);

/// What a step comes to.
#[derive(Clone, Copy)]
pub(crate) enum Outcome {
    Answered,
    DiskFault,
}

/// A host that is kept; seen by contracts as its configuration.
pub(crate) struct KeptHost {
    keep: Keep<Host, MemoryDisk>,
}

// Written out, so that a drop elsewhere is one call.
impl Drop for KeptHost {
    fn drop(self) {
        let KeptHost { keep: _ } = self;
    }
}

impl Model for KeptHost {
    ghost use Rattle.host_model.specs.Conditions.{IsConfig};
    ghost use Rattle.host_model.specs.declared.config.Config.{Config as Seen};

    ghost Value = { Seen };

    ghost view = { λ h. h.keep.machine.standing.config };

    ghost invariant = { λ h. IsConfig h.keep.machine.standing.config };
}

impl KeptHost {
    /// A host that has kept nothing, on new disks, opened at a clock in seconds since 1970 UTC.
    pub(crate) fn fresh(alloc: Global, clock: Moment) -> Result<KeptHost, TableFault>
        requires { clock ≤ MAX_MOMENT }
    {
        KeptHost::on(alloc, clock, new_disks(alloc)?)
    }

    /// The host for which the disks stand, opened at a clock in seconds since 1970 UTC.
    pub(crate) fn on(alloc: Global, clock: Moment, disks: Disks) -> Result<KeptHost, TableFault>
        requires { clock ≤ MAX_MOMENT }
    {
        match KeptHost::unless_fault(alloc, clock, disks)? {
            Ok(host) => Ok(host),
            Err(disks) => {
                drop(disks);
                Err(TableFault::NotOpened)
            }
        }
    }

    /// The host for which the disks stand, opened at a clock in seconds since 1970 UTC; or both disks where one of them failed.
    pub(crate) fn unless_fault(
        alloc: Global,
        clock: Moment,
        disks: Disks,
    ) -> Result<Result<KeptHost, Disks>, TableFault>
        requires { clock ≤ MAX_MOMENT }
    {
        let config = config(alloc)?;
        let (first, second) = disks;
        match open(alloc, config, clock, first, second) {
            Ok(keep) => Ok(Ok(KeptHost { keep })),
            Err(
                KeepFault {
                    first,
                    second,
                    reason: KeepReason::DiskFault,
                },
            ) => Ok(Err((first, second))),
            Err(fault) => {
                drop(fault);
                Err(TableFault::NotOpened)
            }
        }
    }

    /// The disks behind an opening of which the call of the second disk after so many fails, where it makes more.
    pub(crate) fn disks_behind(
        alloc: Global,
        clock: Moment,
        disks: Disks,
        calls: u64,
    ) -> Result<Disks, TableFault>
        requires { clock ≤ MAX_MOMENT }
    {
        let (first, mut second) = disks;
        second.fail_at(Some(calls.saturating_add(1)));
        match KeptHost::unless_fault(alloc, clock, (first, second))? {
            Ok(host) => Ok(host.into_disks()),
            Err(disks) => Ok(disks),
        }
    }

    pub(crate) fn config(&self) -> &Config
        ensures { result.now ≡ self.now }
    {
        self.keep.machine().config()
    }

    /// The book's moment, and how many rows and epochs it has.
    pub(crate) fn stands(&self) -> (Moment, usize, usize) {
        let book = self.keep.machine().book();
        (book.moment(), book.rows().len(), book.epochs().len())
    }

    /// How many calls that change it each disk has got.
    pub(crate) fn calls(&self) -> (u64, u64) {
        self.keep.calls()
    }

    /// The bytes of its book as a snapshot.
    pub(crate) fn book_bytes(&self, alloc: Global) -> Result<Vec<u8>, Memory> {
        let image = SnapshotImage::of_buffer([0; 12].to_vec(alloc)?);
        Ok(self.keep.machine().write_image(alloc, image)?.into_buffer())
    }

    /// Lets a call of each disk fail, numbered from 1 from now on, or none.
    pub(crate) fn fail_at(&mut self, call: Option<u64>)
        ensures { self.new ≡ self.old }
    {
        self.keep.fail_at(call);
    }

    /// Makes a step at the clock, in seconds since 1970 UTC.
    pub(crate) fn act(
        &mut self,
        alloc: Global,
        clock: Moment,
        input: Input,
    ) -> Result<Outcome, Memory>
        requires clock { clock ≤ MAX_MOMENT }
        requires bounds { IsInput self.old input }
        ensures { self.new ≡ self.old }
    {
        match self.keep.apply(alloc, HostCall { clock, input }) {
            Ok(reply) => {
                drop(reply);
                Ok(Outcome::Answered)
            }
            Err(StepFault::Disk) => Ok(Outcome::DiskFault),
            Err(StepFault::Memory) => Err(Memory),
        }
    }

    pub(crate) fn into_disks(self) -> Disks {
        let KeptHost { keep } = self;
        keep.into_disks()
    }
}

fn disk_of(alloc: Global, bytes: &[u8]) -> Result<MemoryDisk, TableFault> {
    Ok(MemoryDisk::new(alloc, bytes.to_vec(alloc)?, Vec::new(alloc)))
}

/// Disks on which nothing is kept.
pub(crate) fn new_disks(alloc: Global) -> Result<Disks, TableFault> {
    let first = disk_of(alloc, &FRESH_FIRST)?;
    let second = disk_of(alloc, &FRESH_SECOND)?;
    Ok((first, second))
}
