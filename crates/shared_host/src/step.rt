//! One step of a keep, and whether it counts as a change.
ghost use Rattle.std.specs.Prelude.{◌≡◌, ◌==◌, ◌-◌, ◌&&◌, ◌||◌, IfSome, false, not};
ghost use Rattle.host_keep.specs.Standing.{IsAsked};
ghost use Rattle.host_model.specs.Lawful.{Lawful};
ghost use Rattle.shared_host.specs.Applied.{Applied, is_disk, is_fault};
ghost use Rattle.shared_host.specs.Comes.{AtEachMoment, Comes};
ghost use Rattle.shared_host.specs.Gated.{IsLater, MayStand, seen_of};

use host_keep::call::HostCall;
use host_keep::host::Host;
use host_model::law::law_step;
use host_model::reply::Reply;
use machine_keep::fault::StepFault;
use machine_keep::keep::Keep;
use ps_disks::disk::Disk;
use std::alloc::Global;

/// Makes a step, and says whether it counts as a change: it changed the host, a disk failed, or it found out what stands after
/// a fault.
pub(crate) fn step<D: Disk>(
    alloc: Global,
    keep: &mut Keep<Host, D>,
    call: HostCall,
) -> (Result<Reply, StepFault>, bool)
    requires asked { IsAsked keep.old.machine.standing.config call }
    requires unsure { IfSome keep.old.unsure (MayStand keep.old.machine.standing) }
    ensures comes { Comes D.premise D.seen D.told D.may_leave D.disk_faults D.calls_advance (seen_of keep.old) call result.0 result.1 (seen_of keep.new) }
    ensures moments { AtEachMoment D.premise D.seen D.may_leave D.moment D.left_since (seen_of keep.old) (seen_of keep.new) call }
    ensures later { IsLater D.disk_faults (seen_of keep.old) (seen_of keep.new) }
    ensures same { result.1 ≡ false → seen_of keep.new ≡ seen_of keep.old }
    ensures unsure { IfSome keep.new.unsure (MayStand keep.new.machine.standing) }
{
    law_step();
    lawful(keep);
    let was_ready = keep.is_ready();
    let generation = keep.generation();
    let bytes = keep.record_bytes();
    let answer = applied(alloc, keep, call);
    let failed = is_fault(&answer);
    let has_moved = moved(keep, generation, bytes);
    let changed = any(failed, !was_ready, has_moved);
    (answer, changed)
}

// The step, and all that is said of it.
fn applied<D: Disk>(
    alloc: Global,
    keep: &mut Keep<Host, D>,
    call: HostCall,
) -> Result<Reply, StepFault>
    requires { IsAsked keep.old.machine.standing.config call }
    ensures { Applied D.premise D.seen D.told D.may_leave D.moment D.left_since D.disk_faults D.calls_advance keep.old keep.new call result }
{
    keep.known();
    let answer = keep.apply(alloc, call);
    keep.known();
    answer
}

// A law: its book is lawful.
fn lawful<D: Disk>(keep: &Keep<Host, D>)
    ensures { Lawful keep.now.machine.standing.config.number keep.now.machine.standing.book }
{
    let _known = keep.machine().book().rows();
}

// Whether its records end elsewhere than they did.
fn moved<D: Disk>(keep: &Keep<Host, D>, generation: u64, bytes: u64) -> bool
    ensures { result ≡ not ((keep.now.journal.generation == generation) && (keep.now.journal.end - keep.now.journal.start == bytes)) }
{
    !(keep.generation() == generation && keep.record_bytes() == bytes)
}

fn any(one: bool, two: bool, three: bool) -> bool
    ensures { result ≡ ((one || two) || three) }
{
    one || two || three
}

fn is_fault(answer: &Result<Reply, StepFault>) -> bool
    ensures { result ≡ is_fault answer.now }
{
    match answer {
        Ok(_) => false,
        Err(fault) => is_disk(*fault),
    }
}

fn is_disk(fault: StepFault) -> bool
    ensures { result ≡ is_disk fault }
{
    match fault {
        StepFault::Disk => true,
        StepFault::Memory => false,
    }
}
