//! A kept host as a state behind a gate.
ghost use Rattle.std.specs.Prelude.{◌≡◌, ◌≤◌, IfOk, IsTrue, false};
ghost use Rattle.host_journal.specs.State.{is_ready};
ghost use Rattle.host_keep.specs.Standing.{IsAsked};
ghost use Rattle.host_model.specs.Archives.{attempt_of as attempt_in, due as due_in};
ghost use Rattle.host_model.specs.Orders.{orders as orders_in};
ghost use Rattle.ps_time.specs.declared.moment.TheConstants.{MAX_MOMENT};
ghost use Rattle.shared_host.specs.Comes.{AtEachMoment, Comes};
ghost use Rattle.shared_host.specs.Gated.{IsLater, seen_of};

use crate::call::{KeepCall, KeepReply};
use crate::step::step;
use host_gate::Kept;
use host_keep::call::HostCall;
use host_keep::host::Host;
use host_model::lead::Due;
use host_model::order::Order;
use host_model::reply::Reply;
use host_queries::{archives, attempt, orders};
use machine_keep::fault::StepFault;
use machine_keep::keep::Keep;
use ps_disks::disk::Disk;
use ps_time::items::Items;
use ps_time::key::RunKey;
use ps_time::memory::Memory;
use ps_time::moment::Moment;
use std::alloc::Global;
use std::marker::Model;

/// A host that is kept on two disks, with the allocator of its steps. A step counts as a change where it changes the host, where
/// a disk fails, and where it finds out what stands after a fault.
#[derive(Drop)]
pub struct KeptHost<D: Disk> {
    alloc: Global,
    keep: Keep<Host, D>,
}

impl<D: Disk> Model for KeptHost<D> {
    ghost use Rattle.std.specs.Prelude.{IfSome};
    ghost use Rattle.shared_host.specs.Gated.{Gated, MayStand, seen_of};

    ghost Value = { Gated D };

    ghost view = { λ h. seen_of h.keep };

    ghost invariant = { λ h. IfSome h.keep.unsure (MayStand h.keep.machine.standing) };
}

impl<D: Disk> KeptHost<D> {
    /// The host of a keep whose last call met no fault.
    pub fn new(alloc: Global, keep: Keep<Host, D>) -> KeptHost<D>
        requires { IsTrue (is_ready keep.journal.pending) }
        ensures { result ≡ seen_of keep }
    {
        keep.known();
        KeptHost { alloc, keep }
    }

    /// The host as it is kept.
    pub fn keep(&self) -> &Keep<Host, D>
        ensures { self.now ≡ seen_of result.now }
    {
        &self.keep
    }

    /// The host as it is kept, given back.
    pub fn into_keep(self) -> Keep<Host, D>
        ensures { self ≡ seen_of result }
    {
        let KeptHost { alloc: _, keep } = self;
        keep
    }

    fn step(&mut self, call: HostCall) -> (Result<Reply, StepFault>, bool)
        requires { IsAsked self.old.machine.config call }
        ensures comes { Comes D.premise D.seen D.told D.may_leave D.disk_faults D.calls_advance self.old call result.0 result.1 self.new }
        ensures moments { AtEachMoment D.premise D.seen D.may_leave D.moment D.left_since self.old self.new call }
        ensures later { IsLater D.disk_faults self.old self.new }
        ensures same { result.1 ≡ false → self.new ≡ self.old }
    {
        step(self.alloc, &mut self.keep, call)
    }

    fn orders(&self, clock: Moment) -> Result<Items<Order>, Memory>
        requires { clock ≤ MAX_MOMENT }
        ensures { IfOk result (λ list. list ≡ orders_in self.now.machine.book clock) }
    {
        let host = self.keep.machine();
        orders::orders(self.alloc, host.config(), host.book(), clock)
    }

    fn due(&self, clock: Moment) -> Result<Items<(RunKey, u8)>, Memory>
        ensures { IfOk result (λ list. list ≡ due_in self.now.machine.book clock) }
    {
        archives::due(self.alloc, self.keep.machine().book(), clock)
    }

    fn attempt(&self, key: RunKey, index: u8) -> Result<Option<Due>, Memory>
        ensures { IfOk result (λ made. made ≡ attempt_in self.now.machine.book key index) }
    {
        attempt::attempt_of(self.alloc, self.keep.machine().book(), key, index)
    }
}

impl<D: Disk> Kept for KeptHost<D> {
    ghost use Rattle.shared_host.specs.Comes.{Steps};
    ghost use Rattle.shared_host.specs.Gated.{IsLater, MayAsk};
    ghost use Rattle.shared_host.specs.Laws.{later_refl, later_trans, may_later};

    type Call = KeepCall;

    type Reply = KeepReply;

    ghost may = { MayAsk };

    ghost grown = { IsLater D.disk_faults };

    ghost steps = { Steps D.premise D.seen D.told D.may_leave D.moment D.left_since D.disk_faults D.calls_advance };

    fn apply(&mut self, call: KeepCall) -> (KeepReply, bool) {
        match call {
            KeepCall::Apply(call) => {
                let (answer, changed) = self.step(call);
                (KeepReply::Answer(answer), changed)
            }
            KeepCall::Orders(clock) => (KeepReply::Orders(self.orders(clock)), false),
            KeepCall::Due(clock) => (KeepReply::Due(self.due(clock)), false),
            KeepCall::Attempt(key, index) => (KeepReply::Attempt(self.attempt(key, index)), false),
        }
    }

    ghost grown_refl = { later_refl D.disk_faults };

    ghost grown_trans = { later_trans D.disk_faults };

    ghost may_grown = { may_later D.disk_faults };
}
