//! Tests of what no clause says: that calls return, that each makes one step and no more, and that threads get on.
ghost use Rattle.std.specs.Prelude.{◌≡◌};

mod counter;
mod log;

use crate::tests::counter::{Ask, Counter};
use crate::tests::log::{Entry, Log};
use host_gate::{Front, Gate, Pass, Spent};
use std::alloc::Global;
use std::process::Abort;
use std::sync::Wait;
use std::test::Fail;
use std::thread::{Threads, join};

// Whether the call is answered by this count and this front.
fn answers<R: Wait>(
    rt: &R,
    gate: &Gate<Counter>,
    pass: &mut Pass<Counter>,
    ask: Ask,
    wanted: (u64, u64),
) -> bool
    requires { pass.old.gate ≡ gate.now }
    ensures { pass.new.gate ≡ gate.now }
{
    match gate.call(rt, pass, ask) {
        Ok((count, front)) => count == wanted.0 && front.0 == wanted.1,
        Err(_) => false,
    }
}

// Three calls of one pass; another meets it, calls, and reads; the gate is closed.
#[test]
fn two_passes_share_one_counter(rt: HostRuntime) -> Result<(), Fail> {
    let (gate, mut one) = Gate::new(rt.alloc(), Counter { count: 0 }).map_err(|_| "memory")?;
    let mut two = gate.split(&mut one);
    assert!(rt; answers(&rt, &gate, &mut one, Ask::Add, (1, 1)));
    assert!(rt; answers(&rt, &gate, &mut one, Ask::Add, (2, 2)));
    assert!(rt; answers(&rt, &gate, &mut one, Ask::Add, (3, 3)));
    assert!(rt; one.front() == Front(3) && two.front() == Front(0));
    let three = gate.split(&mut one);
    gate.meet(&mut two, three);
    assert!(rt; two.front() == Front(3));
    assert!(rt; answers(&rt, &gate, &mut two, Ask::Read, (3, 3)));
    assert!(rt; answers(&rt, &gate, &mut two, Ask::Add, (4, 4)));
    let (counter, front) = gate.close(&rt, one);
    assert!(rt; counter.count == 4 && front == Front(4));
    Ok(())
}

// What a thread gives back: its pass, and the place of each entry that it wrote.
#[derive(Drop)]
struct Written {
    pass: Pass<Log>,
    places: Vec<usize>,
}

// Makes the calls of one thread.
fn write<R: Wait>(rt: &R, alloc: Global, gate: &Gate<Log>, mut pass: Pass<Log>, by: u64) -> Written
    requires { pass.gate ≡ gate.now }
    ensures { result.pass.gate ≡ gate.now }
{
    let mut places = Vec::new(alloc);
    for number in 0..25 {
        if let Ok((Some(place), _)) = gate.call(rt, &mut pass, Entry { by, number }) {
            let _ = places.push(place);
        }
    }
    Written { pass, places }
}

// Two threads write, with a pass each.
fn write_both<R: Wait + Threads + Sync>(
    rt: &R,
    alloc: Global,
    gate: &Gate<Log>,
    passes: (Pass<Log>, Pass<Log>),
    names: (u64, u64),
) -> (Written, Written)
    requires { (passes.0.gate ≡ gate.now) × (passes.1.gate ≡ gate.now) }
    ensures { (result.0.pass.gate ≡ gate.now) × (result.1.pass.gate ≡ gate.now) }
{
    let (one, other) = passes;
    join(
        rt,
        move || -> Written
            requires { one.gate ≡ gate.now }
            ensures { result.pass.gate ≡ gate.entry.now }
        { write(rt, alloc, gate, one, names.0) },
        move || -> Written
            requires { other.gate ≡ gate.now }
            ensures { result.pass.gate ≡ gate.entry.now }
        { write(rt, alloc, gate, other, names.1) },
    )
}

// Four threads write.
fn write_all<R: Wait + Threads + Sync>(
    rt: &R,
    alloc: Global,
    gate: &Gate<Log>,
    first: (Pass<Log>, Pass<Log>),
    second: (Pass<Log>, Pass<Log>),
) -> ((Written, Written), (Written, Written))
    requires { (first.0.gate ≡ gate.now) × (first.1.gate ≡ gate.now) × (second.0.gate ≡ gate.now) × (second.1.gate ≡ gate.now) }
    ensures { (result.0.0.pass.gate ≡ gate.now) × (result.0.1.pass.gate ≡ gate.now) × (result.1.0.pass.gate ≡ gate.now) × (result.1.1.pass.gate ≡ gate.now) }
{
    join(
        rt,
        move || -> (Written, Written)
            requires { (first.0.gate ≡ gate.now) × (first.1.gate ≡ gate.now) }
            ensures { (result.0.pass.gate ≡ gate.entry.now) × (result.1.pass.gate ≡ gate.entry.now) }
        { write_both(rt, alloc, gate, first, (0, 1)) },
        move || -> (Written, Written)
            requires { (second.0.gate ≡ gate.now) × (second.1.gate ≡ gate.now) }
            ensures { (result.0.pass.gate ≡ gate.entry.now) × (result.1.pass.gate ≡ gate.entry.now) }
        { write_both(rt, alloc, gate, second, (2, 3)) },
    )
}

// Each place that was answered has the entry of its call.
fn check_places<R: Abort>(rt: &R, log: &Log, by: u64, places: &[usize]) {
    assert_eq!(rt; places.len(), 25);
    for (number, place) in (0..).zip(places) {
        let is_there = match log.entries.get(*place) {
            Some(entry) => entry.by == by && entry.number == number,
            None => false,
        };
        assert!(rt; is_there, "{by} {number}");
    }
}

#[test]
fn four_threads_write_one_log(rt: HostRuntime) -> Result<(), Fail> {
    let alloc = rt.alloc();
    let (gate, mut a) = Gate::new(
        alloc,
        Log {
            entries: Vec::new(alloc),
        },
    )
    .map_err(|_| "memory")?;
    let b = gate.split(&mut a);
    let mut c = gate.split(&mut a);
    let d = gate.split(&mut c);
    let ((a, b), (c, d)) = write_all(&rt, alloc, &gate, (a, b), (c, d));
    let (log, front) = gate.close(&rt, c.pass);
    assert!(rt; log.entries.len() == 100 && front == Front(100));
    check_places(&rt, &log, 0, a.places.as_slice());
    check_places(&rt, &log, 1, b.places.as_slice());
    check_places(&rt, &log, 2, c.places.as_slice());
    check_places(&rt, &log, 3, d.places.as_slice());
    Ok(())
}

// At ticket 2^63 calls are over, and the gate still closes.
#[test]
fn a_gate_without_tickets_answers_spent(rt: HostRuntime) -> Result<(), Fail> {
    let last = 1 << 63;
    let (gate, mut pass) = Gate::starting_at(rt.alloc(), Counter { count: 7 }, last - 1).map_err(
        |_| "memory",
    )?;
    assert_eq!(rt; gate.call(&rt, &mut pass, Ask::Add), Ok((8, Front(1))));
    assert_eq!(rt;
        gate.call(&rt, &mut pass, Ask::Add),
        Err(Spent { ticket: last })
    );
    let (counter, front) = gate.close(&rt, pass);
    assert_eq!(rt; (counter.count, front), (8, Front(1)));
    Ok(())
}
