//! Opening a host that is kept.
ghost use Rattle.std.specs.Prelude.{◌≡◌, ◌⊎◌, ◌≤◌, [], IfErr, IfOk, IsTrue, false, true};
ghost use Rattle.ps_ports.specs.Causes.{Rose};
ghost use Rattle.ps_time.specs.declared.moment.TheConstants.{MAX_MOMENT};
ghost use Rattle.host_journal.specs.Moments.{Adds, AddsOnly, LeftIn};
ghost use Rattle.host_journal.specs.Pair.{pair_of};
ghost use Rattle.host_journal.specs.State.{is_ready, stored, EachImage, first_disk, second_disk};
ghost use Rattle.host_model.specs.Book.{Book};
ghost use Rattle.host_model.specs.Conditions.{IsConfig};
ghost use Rattle.host_model.specs.Step.{step_book, step_reply};
ghost use Rattle.host_model.specs.declared.input.Input.TheVariants.{Open as OpenInput};
ghost use Rattle.host_model.specs.declared.reply.Reply.{Reply as ReplySeen};
ghost use Rattle.machine_keep.specs.Calls.{TellsPair, TellsSome, sync_calls};
ghost use Rattle.machine_keep.specs.Course.{Unwritten};
ghost use Rattle.machine_keep.specs.Kept.{IsMade, StandsEither, StandsFor};
ghost use Rattle.machine_keep.specs.Opening.{EachUnlessUndone, StandsAsBefore};
ghost use Rattle.machine_keep.specs.Refusal.{IsRefusedAt};
ghost use Rattle.host_replay.specs.Stands.{StandsFor as IsListOf};
ghost use Rattle.host_keep.specs.Opening.{Halted, IsFirstAnswer, IsFirstFault, IsStarting, KeptHost, Started, Unstarted, started};
ghost use Rattle.host_keep.specs.Standing.{StandsNow, StoodOnce};

use crate::call::HostCall;
use crate::host::Host;
use host_journal::fault::{OpenFault, OpenReason};
use host_journal::reading::DiskPlace;
use host_model::config::Config;
use host_model::input::Input;
use host_model::reply::{LimitsWrong, Reply};
use machine_keep::fault::StepFault;
use machine_keep::keep::Keep;
use ps_disks::disk::Disk;
use ps_time::moment::Moment;
use std::alloc::Global;

/// Why no host was opened.
#[derive(Clone, Copy, PartialEq, Eq)]
pub enum KeepReason {
    /// The disks stand for no book of a host with this number: the first byte of the first record that is refused, or of the
    /// snapshot, or the place at which they are no journal.
    NotAJournal(DiskPlace),
    /// A disk failed.
    DiskFault,
    Memory,
    /// The limits of the configuration can't be kept.
    Limits(LimitsWrong),
}

/// No host was opened; both disks are handed back.
#[derive(Drop)]
pub struct KeepFault<D> {
    pub first: D,
    pub second: D,
    pub reason: KeepReason,
}

/// The host for which two disks stand, after its first step at a clock, in seconds since 1970 UTC: the limits of the
/// configuration become the first epoch of a book that has none, and every run that was going on ends as failed. A pair of
/// new disks stands for a host that has kept nothing. A list of the first format is written anew in the second.
pub fn open<D: Disk>(
    alloc: Global,
    config: Config,
    clock: Moment,
    first: D,
    second: D,
) -> Result<Keep<Host, D>, KeepFault<D>>
    requires config { IsConfig config }
    requires clock { clock ≤ MAX_MOMENT }
    ensures config { IfOk result (λ keep. keep.machine.standing.config ≡ config) }
    ensures book { D.premise → IfOk result (λ keep. (before : Book) × StandsEither StandsNow StoodOnce (record { config = config; book = before }) (pair_of (D.seen first) (D.seen second))
        × (keep.machine.standing.book ≡ step_book config before clock OpenInput)) }
    ensures durable { D.premise → IfOk result (λ keep. EachImage D.may_leave keep.journal (StandsFor StandsNow keep.machine.standing)) }
    // At every moment since the disks were handed in.
    ensures any_moment { D.premise → IfOk result (λ keep. (before : Book) × (keep.machine.standing.book ≡ step_book config before clock OpenInput)
        × IsStarting D.seen D.may_leave D.moment D.left_since D.calls_advance config clock first second before (first_disk keep.journal) (second_disk keep.journal)) }
    ensures any_moment_err { D.premise → IfErr result (λ f. EachUnlessUndone D.seen D.may_leave D.moment D.left_since first second f.first f.second
        (λ c d. StandsAsBefore StandsNow StoodOnce (pair_of (D.seen first) (D.seen second)) (pair_of c d))
        ⊎ ((before : Book) × IsStarting D.seen D.may_leave D.moment D.left_since D.calls_advance config clock first second before f.first f.second)) }
    ensures ready { IfOk result (λ keep. IsTrue (is_ready keep.journal.pending)) }
    // The calls that the disks tell: those of the opening, and then those of the first step. On no premise.
    ensures told { IfOk result (λ keep. Started D.premise D.seen D.told clock first second keep) }
    ensures told_err { IfErr result (λ f. f.reason ≡ KeepReason.DiskFault → TellsSome D.told D.disk_faults D.calls_advance first second f.first f.second (sync_calls false)
        ⊎ (Unwritten D.premise D.seen D.told D.disk_faults D.calls_advance StandsNow first second f.first f.second
        ⊎ Halted D.premise D.seen D.told D.disk_faults D.calls_advance clock first second f.first f.second)) }
    ensures told_refused { IfErr result (λ f. (f.reason ≡ KeepReason.DiskFault → ⊥) → TellsPair D.told first second f.first f.second (sync_calls false)
        ⊎ Unstarted D.premise D.seen D.told clock first second f.first f.second) }
    ensures nothing { D.premise → IfErr result (λ f. (place : _) → f.reason ≡ KeepReason.NotAJournal place → (b : Book) → StandsEither StandsNow StoodOnce (record { config = config; book = b }) (pair_of (D.seen first) (D.seen second)) → ⊥) }
    // At the place where they are no journal, or else of the first item that is refused.
    ensures place { D.premise → IfErr result (λ f. (place : _) → f.reason ≡ KeepReason.NotAJournal place → IsRefusedAt (IsListOf config.number) (pair_of (D.seen first) (D.seen second)) place) }
    ensures limits { D.premise → IfErr result (λ f. (wrong : _) → f.reason ≡ KeepReason.Limits wrong → (before : Book) × StandsEither StandsNow StoodOnce (record { config = config; book = before }) (pair_of (D.seen first) (D.seen second))
        × (step_reply config before clock OpenInput ≡ Reply.LimitsWrong wrong)) }
    ensures fault { IfErr result (λ f. f.reason ≡ KeepReason.DiskFault → Rose (D.disk_faults first) (D.disk_faults f.first) ⊎ Rose (D.disk_faults second) (D.disk_faults f.second)) }
    ensures no_fault { IfOk result (λ keep. (D.disk_faults (first_disk keep.journal) ≡ D.disk_faults first) × (D.disk_faults (second_disk keep.journal) ≡ D.disk_faults second)) }
    ensures no_fault_err { IfErr result (λ f. (f.reason ≡ KeepReason.DiskFault → ⊥) → (D.disk_faults f.first ≡ D.disk_faults first) × (D.disk_faults f.second ≡ D.disk_faults second)) }
    ensures calls_advance { IfOk result (λ keep. D.calls_advance first (first_disk keep.journal) × D.calls_advance second (second_disk keep.journal)) }
    ensures calls_advance_err { IfErr result (λ f. D.calls_advance first f.first × D.calls_advance second f.second) }
{
    match Keep::open(alloc, config, first, second) {
        Ok(keep) => begin(alloc, keep, clock),
        Err(
            OpenFault {
                first,
                second,
                reason,
            },
        ) => Err(KeepFault {
            first,
            second,
            reason: reason_of(reason),
        }),
    }
}

// The host after its first step.
fn begin<D: Disk>(
    alloc: Global,
    keep: Keep<Host, D>,
    clock: Moment,
) -> Result<Keep<Host, D>, KeepFault<D>>
    requires config { IsConfig keep.machine.standing.config }
    requires clock { clock ≤ MAX_MOMENT }
    requires ready { IsTrue (is_ready keep.journal.pending) }
    ensures config { IfOk result (λ k. k.machine.standing.config ≡ keep.machine.standing.config) }
    ensures book { D.premise → IfOk result (λ k. k.machine.standing.book ≡ step_book keep.machine.standing.config keep.machine.standing.book clock OpenInput) }
    ensures durable { D.premise → IfOk result (λ k. EachImage D.may_leave k.journal (StandsFor StandsNow k.machine.standing)) }
    ensures stands { D.premise → StandsFor StandsNow keep.machine.standing (stored D.seen keep.journal) }
    ensures each { D.premise → EachImage D.may_leave keep.journal (λ pair. pair ≡ stored D.seen keep.journal) }
    ensures adds { D.premise → IfOk result (λ k. Adds D.moment D.left_since keep.journal k.journal
        (LeftIn (stored D.seen keep.journal) (IsMade StandsNow (stored D.seen keep.journal) (started keep.machine.standing.config keep.machine.standing.book clock)))) }
    ensures adds_first { D.premise → IfErr result (λ f. AddsOnly D.moment D.left_since (first_disk keep.journal) f.first
        (LeftIn (stored D.seen keep.journal) (IsMade StandsNow (stored D.seen keep.journal) (started keep.machine.standing.config keep.machine.standing.book clock)) false)) }
    ensures adds_second { D.premise → IfErr result (λ f. AddsOnly D.moment D.left_since (second_disk keep.journal) f.second
        (LeftIn (stored D.seen keep.journal) (IsMade StandsNow (stored D.seen keep.journal) (started keep.machine.standing.config keep.machine.standing.book clock)) true)) }
    ensures ready { IfOk result (λ k. IsTrue (is_ready k.journal.pending)) }
    ensures answered { IfOk result (λ k. (reply : ReplySeen) × IsFirstAnswer D.premise D.seen D.told clock keep k reply) }
    ensures halted { IfErr result (λ f. f.reason ≡ KeepReason.DiskFault → (now : KeptHost D) × IsFirstFault D.premise D.seen D.told D.disk_faults D.calls_advance clock keep now
        × (f.first ≡ first_disk now.journal) × (f.second ≡ second_disk now.journal)) }
    ensures unmoved { IfErr result (λ f. (f.reason ≡ KeepReason.DiskFault → ⊥) → TellsPair D.told (first_disk keep.journal) (second_disk keep.journal) f.first f.second []) }
    ensures no_place { IfErr result (λ f. (place : _) → f.reason ≡ KeepReason.NotAJournal place → ⊥) }
    ensures limits { IfErr result (λ f. (wrong : _) → f.reason ≡ KeepReason.Limits wrong → step_reply keep.machine.standing.config keep.machine.standing.book clock OpenInput ≡ Reply.LimitsWrong wrong) }
    ensures fault { IfErr result (λ f. f.reason ≡ KeepReason.DiskFault → Rose (D.disk_faults (first_disk keep.journal)) (D.disk_faults f.first) ⊎ Rose (D.disk_faults (second_disk keep.journal)) (D.disk_faults f.second)) }
    ensures no_fault { IfOk result (λ k. (D.disk_faults (first_disk k.journal) ≡ D.disk_faults (first_disk keep.journal)) × (D.disk_faults (second_disk k.journal) ≡ D.disk_faults (second_disk keep.journal))) }
    ensures no_fault_err { IfErr result (λ f. (f.reason ≡ KeepReason.DiskFault → ⊥) → (D.disk_faults f.first ≡ D.disk_faults (first_disk keep.journal)) × (D.disk_faults f.second ≡ D.disk_faults (second_disk keep.journal))) }
    ensures calls_advance { IfOk result (λ k. D.calls_advance (first_disk keep.journal) (first_disk k.journal) × D.calls_advance (second_disk keep.journal) (second_disk k.journal)) }
    ensures calls_advance_err { IfErr result (λ f. D.calls_advance (first_disk keep.journal) f.first × D.calls_advance (second_disk keep.journal) f.second) }
{
    let mut keep = keep;
    keep.known();
    let call = HostCall {
        clock,
        input: Input::Open,
    };
    match keep.apply(alloc, call) {
        Ok(Reply::LimitsWrong(wrong)) => Err(refused(keep, KeepReason::Limits(wrong))),
        Ok(reply) => {
            drop(reply);
            Ok(keep)
        }
        Err(StepFault::Disk) => Err(refused(keep, KeepReason::DiskFault)),
        Err(StepFault::Memory) => Err(refused(keep, KeepReason::Memory)),
    }
}

fn reason_of(reason: OpenReason) -> KeepReason
    ensures place { (place : _) → result ≡ KeepReason.NotAJournal place → reason ≡ OpenReason.NotAJournal place }
    ensures disk { result ≡ KeepReason.DiskFault → reason ≡ OpenReason.DiskFault }
    ensures no_disk { (result ≡ KeepReason.DiskFault → ⊥) → reason ≡ OpenReason.DiskFault → ⊥ }
    ensures no_limits { (wrong : _) → result ≡ KeepReason.Limits wrong → ⊥ }
{
    match reason {
        OpenReason::NotAJournal(place) => KeepReason::NotAJournal(place),
        OpenReason::DiskFault => KeepReason::DiskFault,
        OpenReason::Memory => KeepReason::Memory,
    }
}

fn refused<D: Disk>(keep: Keep<Host, D>, reason: KeepReason) -> KeepFault<D>
    ensures first { result.first ≡ first_disk keep.journal }
    ensures second { result.second ≡ second_disk keep.journal }
    ensures reason { result.reason ≡ reason }
{
    let (first, second) = keep.into_disks();
    KeepFault {
        first,
        second,
        reason,
    }
}
