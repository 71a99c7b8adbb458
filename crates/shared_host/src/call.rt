//! What a pass asks of a kept host, and what it is answered.

use host_keep::call::HostCall;
use host_model::lead::Due;
use host_model::order::Order;
use host_model::reply::Reply;
use machine_keep::fault::StepFault;
use ps_time::items::Items;
use ps_time::key::RunKey;
use ps_time::memory::Memory;
use ps_time::moment::Moment;

/// What is asked. Only `Apply` changes anything. The others are read off the host in memory: after a fault, without the step
/// that is unsure.
#[derive(Drop)]
pub enum KeepCall {
    /// A step.
    Apply(HostCall),
    /// What the host has to say to other hosts, at a clock in seconds since 1970 UTC.
    Orders(Moment),
    /// Which archives of merged runs are due, at such a clock.
    Due(Moment),
    /// The attempt at the archive of a run with this position among those of its task, from 0 on.
    Attempt(RunKey, u8),
}

/// What is answered.
#[derive(Drop)]
pub enum KeepReply {
    /// To `KeepCall::Apply`.
    Answer(Result<Reply, StepFault>),
    /// To `KeepCall::Orders`: the first 64.
    Orders(Result<Items<Order>, Memory>),
    /// To `KeepCall::Due`: runs, each with the position of the archive.
    Due(Result<Items<(RunKey, u8)>, Memory>),
    /// To `KeepCall::Attempt`: none where the run isn't merged, or has no such archive.
    Attempt(Result<Option<Due>, Memory>),
}
