//! Books made runs, and asks when another could start, for measuring. Its words are the kind of bookings, how many, and how
//! many questions. It prints how many bookings stand, and a sum of the answers. The status is 2 for other words, and 1
//! without memory.
#![tactic(auto)]

ghost use Rattle.std.specs.Prelude.{◌<◌};

use host_timeline::booking::{Booking, firm_from};
use host_timeline::timeline::Timeline;
use ps_time::class::Class::{self, Exclusive, Normal};
use ps_time::interval::{Interval, Window};
use ps_time::key::RunKey;
use ps_time::memory::Memory;
use std::alloc::Global;
use std::process::ExitCode;
use std::{env, io, println};

/// How the bookings lie.
#[derive(Clone, Copy)]
enum Kind {
    /// Normal ones that overlap.
    Normal,
    /// Exclusive and normal ones, apart.
    Mixed,
    /// Exclusive ones, each from the end of the one before.
    Touching,
}

/// What is measured.
#[derive(Clone, Copy)]
struct Task {
    kind: Kind,
    bookings: u32,
    questions: u32,
}

const DAY: u64 = 86_400;

const SPAN: u64 = 5_000_000;

// The next number of a sequence that looks random.
fn draw(seed: &mut u64) -> u64 {
    *seed = seed
        .wrapping_mul(6_364_136_223_846_793_005)
        .wrapping_add(1_442_695_040_888_963_407);
    *seed >> 33
}

fn made_interval(seed: &mut u64, kind: Kind, number: u32) -> Interval {
    let start = match kind {
        Kind::Normal => draw(seed) % SPAN,
        Kind::Mixed => number as u64 * 100,
        Kind::Touching => number as u64 * 10,
    };
    let length = match kind {
        Kind::Normal => 1 + draw(seed) % 600,
        Kind::Mixed => 60,
        Kind::Touching => 10,
    };
    Interval {
        start,
        end: start + length,
    }
}

fn made_class(seed: &mut u64, kind: Kind) -> Class {
    match kind {
        Kind::Normal => Normal,
        Kind::Mixed if draw(seed) % 2 == 0 => Normal,
        _ => Exclusive,
    }
}

fn made_booking(seed: &mut u64, kind: Kind, number: u32) -> Booking {
    let interval = made_interval(seed, kind, number);
    let start = interval.start;
    Booking {
        key: RunKey {
            lead: 1,
            task: 0,
            number,
            attempt: 0,
        },
        class: made_class(seed, kind),
        interval,
        priority: if draw(seed) % 2 == 0 { 0 } else { 2 },
        firm_from: firm_from(start, false),
    }
}

// Books a run, after what is in its way was taken out.
fn put(timeline: &mut Timeline, booking: Booking) -> Result<(), Memory> {
    timeline.release(booking.key);
    timeline.release_conflicts(booking.class, &booking.interval);
    timeline.reserve(1)?;
    timeline.book(booking);
    Ok(())
}

fn booked(alloc: Global, seed: &mut u64, task: &Task) -> Result<Timeline, Memory> {
    let mut timeline = Timeline::new(alloc);
    for number in 0..task.bookings {
        put(&mut timeline, made_booking(seed, task.kind, number))?;
    }
    Ok(timeline)
}

fn window_sum(windows: &[Window]) -> u64 {
    let mut sum: u64 = 0;
    for window in windows {
        sum = sum
            .wrapping_mul(31)
            .wrapping_add(window.first)
            .wrapping_mul(31)
            .wrapping_add(window.last);
    }
    sum
}

// When an exclusive run of a minute could start within a day from a drawn moment on.
fn answer(alloc: Global, timeline: &Timeline, first: u64) -> Result<u64, Memory> {
    let window = Window {
        first,
        last: first.saturating_add(DAY),
    };
    let tiers = timeline.free(alloc, Exclusive, 60, 1, window, first)?;
    Ok(window_sum(tiers.first.as_slice()).wrapping_add(window_sum(tiers.second.as_slice())))
}

// The moments at which questions begin are below it.
fn reach(task: &Task) -> u64
    ensures { 0 < result }
{
    match task.kind {
        Kind::Normal => SPAN,
        Kind::Mixed => task.bookings as u64 * 100 + 1,
        Kind::Touching => task.bookings as u64 * 10 + 1,
    }
}

fn measured(alloc: Global, task: &Task) -> Result<(usize, u64), Memory> {
    let mut seed = 26;
    let timeline = booked(alloc, &mut seed, task)?;
    let mut sum: u64 = 0;
    for _ in 0..task.questions {
        let first = draw(&mut seed) % reach(task);
        sum = sum.wrapping_add(answer(alloc, &timeline, first)?);
    }
    Ok((timeline.bookings().len(), sum))
}

fn kind_of(word: &str) -> Option<Kind> {
    match word {
        "normal" => Some(Kind::Normal),
        "mixed" => Some(Kind::Mixed),
        "touching" => Some(Kind::Touching),
        _ => None,
    }
}

fn task_of(rt: &HostRuntime) -> io::Result<Option<Task>> {
    let mut words = env::args(rt)?.skip(1);
    let (Some(kind), Some(bookings), Some(questions)) = (words.next(), words.next(), words.next())
    else {
        return Ok(None);
    };
    let (Some(kind), Ok(bookings), Ok(questions)) = (
        kind_of(kind.as_str()),
        bookings.parse(),
        questions.parse(),
    ) else {
        return Ok(None);
    };
    Ok(Some(Task {
        kind,
        bookings,
        questions,
    }))
}

fn main(rt: HostRuntime) -> ExitCode {
    let Ok(Some(task)) = task_of(&rt) else {
        return ExitCode::from(2);
    };
    match measured(rt.alloc(), &task) {
        Ok((count, sum)) => print_sum(&rt, count, sum),
        Err(Memory) => ExitCode::from(1),
    }
}

fn print_sum(rt: &HostRuntime, count: usize, sum: u64) -> ExitCode {
    match println!(rt; "{count} bookings, {sum}") {
        Ok(()) => ExitCode::SUCCESS,
        Err(_) => ExitCode::from(1),
    }
}
