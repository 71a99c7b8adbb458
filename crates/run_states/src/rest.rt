//! When a row comes to rest, and how many bytes of results it keeps.
ghost use Rattle.std.specs.Prelude.{◌≡◌, ◌-◌, ◌^◌, map, min, option_map, sum};
ghost use Rattle.std.specs.List.{list_all};
ghost use Rattle.run_states.specs.Purging.{is_archived, is_long_past, is_settled_archive, later_of, rest_of};
ghost use Rattle.run_states.specs.ResultBytes.{bytes_in, other_result, result_bytes, row_bytes};

use crate::answer::Other;
use crate::row::{Ending, RunRow};
use crate::why::Closing;
use archive_retry::state::ArchiveState;
use ps_time::moment::Moment;
use ps_time::text::Text;

/// How long a row is kept after its rest, in seconds: seven days.
pub const KEEPING: u64 = 604_800;

impl RunRow {
    /// The latest of the end of its interval and its moments, in seconds since 1970 UTC; 0 where it
    /// has none.
    pub fn rest(&self) -> Moment
        ensures { result ≡ rest_of self.now }
    {
        let closed = later(moment_of_closing(&self.closed), 0);
        let ended = later(moment_of_ending(&self.ended), closed);
        let material = later(self.material, ended);
        let started = later(self.started, material);
        let confirmed = later(self.confirmed, started);
        let accepted = later(self.accepted, confirmed);
        let asked = later(self.asked, accepted);
        match self.interval {
            Some(interval) => later(Some(interval.end), asked),
            None => asked,
        }
    }

    /// Whether it is over, and was at rest for so long that it may go.
    pub fn is_long_past(&self, moment: Moment) -> bool
        ensures { result ≡ is_long_past moment self.now }
    {
        let is_over = self.closed.is_some() || self.ended.is_some();
        is_over && moment.saturating_sub(self.rest()) >= KEEPING
    }

    /// Whether there is nothing left to merge and to archive.
    pub fn is_archived(&self) -> bool
        ensures { result ≡ is_archived self.now }
    {
        self.ended.is_none() || (self.merged.is_some() && self.has_settled_archives())
    }

    fn has_settled_archives(&self) -> bool
        ensures { result ≡ list_all is_settled_archive self.now.archives }
    {
        self.archives
            .as_slice()
            .iter()
            .all(|state| is_settled(state))
    }

    /// How many bytes of results it keeps, own, heard and merged ones; at most the greatest number of
    /// the type.
    pub fn result_bytes(&self) -> u64
        ensures { result ≡ min (row_bytes self.now) (2 ^ 64 - 1) }
    {
        let own = match &self.ended {
            Some(ending) => ending.body.len() as u64,
            None => 0,
        };
        let heard = heard_bytes(self.others.as_slice());
        own.saturating_add(heard)
            .saturating_add(bytes_of(&self.merged))
    }
}

/// How many bytes of results the rows keep; at most the greatest number of the type.
pub fn result_bytes(rows: &[RunRow]) -> u64
    ensures { result ≡ min (result_bytes rows.now) (2 ^ 64 - 1) }
{
    let mut total: u64 = 0;
    for row in rows {
        total = total.saturating_add(row.result_bytes());
    }
    total
}

fn later(moment: Option<Moment>, other: Moment) -> Moment
    ensures { result ≡ later_of moment other }
{
    match moment {
        Some(moment) => moment.max(other),
        None => other,
    }
}

fn moment_of_closing(closed: &Option<Closing>) -> Option<Moment>
    ensures { result ≡ option_map (λ c. c.moment) closed.now }
{
    match closed {
        Some(closing) => Some(closing.moment),
        None => None,
    }
}

fn moment_of_ending(ended: &Option<Ending>) -> Option<Moment>
    ensures { result ≡ option_map (λ e. e.moment) ended.now }
{
    match ended {
        Some(ending) => Some(ending.moment),
        None => None,
    }
}

fn is_settled(state: &ArchiveState) -> bool
    ensures { result ≡ is_settled_archive state.now }
{
    state.done || state.next.is_none()
}

// The results of other participants, added up.
fn heard_bytes(others: &[Other]) -> u64
    ensures { result ≡ min (sum (map (λ o. bytes_in (other_result o)) others.now)) (2 ^ 64 - 1) }
{
    let mut total: u64 = 0;
    for other in others {
        total = total.saturating_add(heard_bytes_of(other));
    }
    total
}

fn heard_bytes_of(other: &Other) -> u64
    ensures { result ≡ bytes_in (other_result other.now) }
{
    match &other.heard {
        Some(result) => bytes_of(result),
        None => 0,
    }
}

fn bytes_of(text: &Option<Text>) -> u64
    ensures { result ≡ bytes_in text.now }
{
    match text {
        Some(text) => text.len() as u64,
        None => 0,
    }
}
