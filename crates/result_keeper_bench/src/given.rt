//! What stands in a line: words, numbers, moments, keys.
ghost use Rattle.std.specs.Prelude.{◌≤◌, IfOk};

use crate::fault::LineFault;
use ps_time::key::RunKey;
use ps_time::moment::{MAX_MOMENT, Moment};

/// What stands before the first space and behind it; all of a text without one stands before.
pub(crate) fn cut(text: &str) -> (&str, &str) {
    match text.split_once(' ') {
        Some(both) => both,
        None => (text, ""),
    }
}

/// A number of a run.
pub(crate) fn a_number(text: &str) -> Result<u32, LineFault> {
    match text.parse::<u32>() {
        Ok(number) => Ok(number),
        Err(_) => Err(LineFault::Line),
    }
}

/// How many results are made.
pub(crate) fn a_count(text: &str) -> Result<u16, LineFault> {
    match text.parse::<u16>() {
        Ok(count) => Ok(count),
        Err(_) => Err(LineFault::Line),
    }
}

/// A moment in seconds since 1970 UTC.
pub(crate) fn a_moment(text: &str) -> Result<Moment, LineFault>
    ensures { IfOk result (λ moment. moment ≤ 4_102_444_800) }
{
    match text.parse::<u64>() {
        Ok(moment) if moment <= MAX_MOMENT => Ok(moment),
        _ => Err(LineFault::Line),
    }
}

/// A page, from 1.
pub(crate) fn a_page(text: &str) -> Result<u32, LineFault>
    ensures first { IfOk result (λ page. 1 ≤ page) }
    ensures last { IfOk result (λ page. page ≤ 1_000_000) }
{
    match text.parse::<u32>() {
        Ok(page) if 1 <= page && page <= 1_000_000 => Ok(page),
        _ => Err(LineFault::Line),
    }
}

/// The first attempt at a run of a task of host 1.
pub(crate) fn key(task: u32, number: u32) -> RunKey {
    RunKey {
        lead: 1,
        task,
        number,
        attempt: 0,
    }
}
