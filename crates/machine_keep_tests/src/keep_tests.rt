//! A gatherer, kept: what its steps do to the disks, what a fault leaves, what the disks stand for.
ghost use Rattle.std.specs.Prelude.{◌≡◌, IfOk, IfSome};

use crate::disks::{GathererKeep, Pair, asked, has_bytes, new_keep};
use machine_keep::fault::StepFault;
use ps_disks::image::Image;
use ps_time::memory::Memory;
use std::alloc::Global;
use std::test::Fail;

// A byte, or none; the answer, and how many calls the first disk has had since the step before.
static STEPS: [(Option<u8>, usize, u64); 5] = [
    (Some(7), 0, 4),
    (None, 1, 0),
    (Some(8), 1, 4),
    (Some(9), 2, 4),
    (None, 3, 0),
];

fn steps_so(
    alloc: Global,
    keep: &mut GathererKeep,
    steps: &[(Option<u8>, usize, u64)],
) -> Result<bool, Memory> {
    for (byte, reply, calls) in steps {
        let before = keep.calls();
        let call = asked(alloc, *byte)?;
        if keep.apply(alloc, call) != Ok(*reply) {
            return Ok(false);
        }
        let now = keep.calls();
        if now.0.saturating_sub(before.0) != *calls || now.1 != before.1 {
            return Ok(false);
        }
    }
    Ok(true)
}

fn each_step(alloc: Global) -> Result<bool, Memory> {
    match new_keep(alloc, 1_000)? {
        Some(mut keep) => steps_so(alloc, &mut keep, &STEPS),
        None => Ok(false),
    }
}

#[test]
fn a_change_makes_four_calls_and_a_reading_none(rt: HostRuntime) -> Result<(), Fail> {
    assert!(rt; each_step(rt.alloc())?);
    Ok(())
}

// The call of a disk that fails while a byte is gathered, and whether the byte is kept then.
static FAULTS: [(u64, bool); 4] = [(1, false), (2, false), (3, false), (4, true)];

// The bytes then.
fn kept_bytes(kept: bool) -> &'static [u8] {
    if kept { &[5] } else { &[] }
}

// A byte is gathered while this call fails, where there is a place for one.
fn failed(alloc: Global, call: u64) -> Result<Option<GathererKeep>, Memory>
    ensures { IfOk result (λ o. IfSome o (λ keep. keep.machine.most ≡ 1)) }
{
    let Some(mut keep) = new_keep(alloc, 1)? else {
        return Ok(None);
    };
    keep.fail_at(Some(call));
    let five = asked(alloc, Some(5))?;
    if keep.apply(alloc, five) != Err(StepFault::Disk) {
        return Ok(None);
    }
    keep.fail_at(None);
    Ok(Some(keep))
}

// The next step finds out whether it is kept, and so does an opening.
fn is_found_out(alloc: Global, call: u64, kept: bool) -> Result<bool, Memory> {
    let Some(mut keep) = failed(alloc, call)? else {
        return Ok(false);
    };
    if keep.apply(alloc, None) != Ok(usize::from(kept)) {
        return Ok(false);
    }
    Ok(has_bytes(alloc, keep.into_disks(), kept_bytes(kept)))
}

fn each_found_out(alloc: Global, faults: &[(u64, bool)]) -> Result<bool, Memory> {
    for (call, kept) in faults {
        if !is_found_out(alloc, *call, *kept)? {
            return Ok(false);
        }
    }
    Ok(true)
}

#[test]
fn the_step_after_a_fault_finds_out_what_is_kept(rt: HostRuntime) -> Result<(), Fail> {
    assert!(rt; each_found_out(rt.alloc(), &FAULTS)?);
    Ok(())
}

// After the fault there may be two bytes: so one more has a place, whether the first is kept or not.
fn goes_on_with_more(alloc: Global, call: u64, kept: bool) -> Result<bool, Memory> {
    let Some(mut keep) = failed(alloc, call)? else {
        return Ok(false);
    };
    keep.set_config(2);
    let six = asked(alloc, Some(6))?;
    if keep.apply(alloc, six) != Ok(usize::from(kept)) {
        return Ok(false);
    }
    Ok(has_bytes(alloc, keep.into_disks(), if kept { &[5, 6] } else { &[6] }))
}

fn each_goes_on(alloc: Global, faults: &[(u64, bool)]) -> Result<bool, Memory> {
    for (call, kept) in faults {
        if !goes_on_with_more(alloc, *call, *kept)? {
            return Ok(false);
        }
    }
    Ok(true)
}

#[test]
fn what_is_set_after_a_fault_holds_for_the_next_step(rt: HostRuntime) -> Result<(), Fail> {
    assert!(rt; each_goes_on(rt.alloc(), &FAULTS)?);
    Ok(())
}

// The calls of the first disk behind which a crash comes while a byte is gathered, since the next one fails, and whether the byte
// is kept: from the sync behind its open gate byte on.
static CRASHES: [(u64, bool); 5] = [(0, false), (1, false), (2, false), (3, false), (4, true)];

fn crashed_after(alloc: Global, calls: u64) -> Result<Option<Pair>, Memory> {
    let Some(mut keep) = new_keep(alloc, 1_000)? else {
        return Ok(None);
    };
    keep.fail_at(Some(calls.saturating_add(1)));
    let five = asked(alloc, Some(5))?;
    let wanted = if calls == 4 {
        Ok(0)
    } else {
        Err(StepFault::Disk)
    };
    if keep.apply(alloc, five) != wanted {
        return Ok(None);
    }
    keep.fail_at(None);
    let (first, second) = keep.into_disks();
    Ok(Some((first.crashed(Image::Old)?, second)))
}

fn each_crash(alloc: Global, crashes: &[(u64, bool)]) -> Result<bool, Memory> {
    for (calls, kept) in crashes {
        let Some(pair) = crashed_after(alloc, *calls)? else {
            return Ok(false);
        };
        if !has_bytes(alloc, pair, kept_bytes(*kept)) {
            return Ok(false);
        }
    }
    Ok(true)
}

#[test]
fn what_a_crash_leaves_stands_for_the_state_before_or_after(rt: HostRuntime) -> Result<(), Fail> {
    assert!(rt; each_crash(rt.alloc(), &CRASHES)?);
    Ok(())
}
