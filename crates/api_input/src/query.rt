//! The query of a schedule.
ghost use Rattle.std.specs.Prelude.{◌≡◌, ◌≤◌, [], ◌∷◌, IfOk, IfSome, codes, option_map};
ghost use Rattle.ps_time.specs.declared.moment.TheConstants.{MAX_MOMENT};
ghost use Rattle.host_model.specs.Conditions.{IsPage};
ghost use Rattle.host_model.specs.declared.view.Page.{Page};
ghost use Rattle.api_input.specs.Query.{interval_of, value_of, moment_in, from_to, window_by, window_of};

use crate::parts::Parts;
use ps_time::interval::Interval;
use ps_time::memory::Memory;
use ps_time::moment::{Moment, Round};
use ps_time::read_moment::read_moment;
use ps_time::text::Text;
use std::alloc::Global;

/// How much is shown where no end is given, in seconds.
const DAY: u64 = 86_400;

fn interval_of(start: Moment, end: Moment) -> Option<Interval>
    ensures value { result ≡ interval_of start end }
    ensures ends { IfSome result (λ window. (window.start ≡ start) × (window.end ≡ end)) }
{
    if end <= start {
        return None;
    }
    Some(Interval { start, end })
}

/// The value behind the name and an equal sign.
fn value_of<'a>(name: &str, pair: &Parts<'a>) -> Option<&'a str>
    ensures { option_map (λ text. text.now) result ≡ value_of name.now pair.now }
{
    if pair.len() != 2 || pair.at(0) != name {
        return None;
    }
    Some(pair.at(1))
}

/// The moment behind the name and an equal sign, a fraction of a second rounded up.
fn moment_in(alloc: Global, name: &str, pair: &str) -> Result<Option<Moment>, Memory>
    ensures value { IfOk result (λ moment. moment ≡ moment_in name.now pair.now) }
    ensures bound { IfOk result (λ moment. IfSome moment (λ m. m ≤ MAX_MOMENT)) }
{
    let parts = Parts::of_pair(alloc, pair)?;
    match value_of(name, &parts) {
        None => Ok(None),
        Some(text) => Ok(read_moment(text, Round::Up).ok()),
    }
}

/// One of the two ends alone.
fn window_of_one(alloc: Global, now: Moment, pair: &str) -> Result<Option<Interval>, Memory>
    requires { now ≤ MAX_MOMENT }
    ensures value { IfOk result (λ window. window ≡ window_by now (pair.now ∷ [])) }
    ensures bounds { IfOk result (λ window. IfSome window (λ w. IsPage (Page.Schedule w.start w.end))) }
{
    if let Some(start) = moment_in(alloc, "start", pair)? {
        return Ok(interval_of(start, start + DAY));
    }
    match moment_in(alloc, "end", pair)? {
        None => Ok(None),
        Some(end) => Ok(interval_of(now, end)),
    }
}

/// Both ends.
fn window_of_two(alloc: Global, start: &str, end: &str) -> Result<Option<Interval>, Memory>
    ensures value { IfOk result (λ window. window ≡ from_to (moment_in (codes "start") start.now) (moment_in (codes "end") end.now)) }
    ensures bounds { IfOk result (λ window. IfSome window (λ w. IsPage (Page.Schedule w.start w.end))) }
{
    let Some(start) = moment_in(alloc, "start", start)? else {
        return Ok(None);
    };
    match moment_in(alloc, "end", end)? {
        None => Ok(None),
        Some(end) => Ok(interval_of(start, end)),
    }
}

fn window_by(alloc: Global, now: Moment, parts: &Parts) -> Result<Option<Interval>, Memory>
    requires { now ≤ MAX_MOMENT }
    ensures value { IfOk result (λ window. window ≡ window_by now parts.now) }
    ensures bounds { IfOk result (λ window. IfSome window (λ w. IsPage (Page.Schedule w.start w.end))) }
{
    match parts.len() {
        1 => window_of_one(alloc, now, parts.at(0)),
        2 => window_of_two(alloc, parts.at(0), parts.at(1)),
        _ => Ok(None),
    }
}

/// What a query of a schedule asks to see, where `now` is the moment; `None` where it is no such query. An empty
/// query is none: it asks for a day from now on.
pub fn read_window(
    alloc: Global,
    now: Moment,
    query: &Option<Text>,
) -> Result<Option<Interval>, Memory>
    requires { now ≤ MAX_MOMENT }
    ensures value { IfOk result (λ window. window ≡ window_of now query.now) }
    ensures bounds { IfOk result (λ window. IfSome window (λ w. IsPage (Page.Schedule w.start w.end))) }
{
    match query {
        Some(query) if query.len() > 0 => {
            window_by(alloc, now, &Parts::of_query(alloc, query.as_str())?)
        }
        _ => Ok(interval_of(now, now + DAY)),
    }
}
