//! Rows of which nothing more comes, but that they are purged, and rows of which nothing comes before their start.
ghost use Rattle.std.specs.Prelude.{◌≡◌};
ghost use Rattle.std.specs.List.{list_all};
ghost use Rattle.run_states.specs.Purging.{is_settled_archive};
ghost use Rattle.host_rows.specs.Still.{has_come, is_ahead, is_called, is_decided, is_live, is_live_by, awaits_merging, is_quiet, is_still, is_told, is_waiting};

use archive_retry::state::ArchiveState;
use ps_time::interval::Interval;
use ps_time::moment::Moment;
use run_states::answer::Other;
use run_states::row::RunRow;

/// Whether the host with this number does nothing more with the row, whatever the moment, but to purge it: it doesn't lapse,
/// start, end, isn't merged or planned, and there is nothing to say or to archive.
pub fn is_still(row: &RunRow, number: u16) -> bool
    ensures { result ≡ is_still number row.now }
{
    is_decided(row)
        && !row.is_active()
        && !awaits_merging(row, number)
        && is_quiet(row)
        && has_settled_archives(row)
}

/// Whether the host with this number may have something to do with the row, whatever the moment: it is neither still, nor does it
/// wait for its start.
pub fn is_live(row: &RunRow, number: u16) -> bool
    ensures { result ≡ is_live number row.now }
{
    !(is_still(row, number) || is_waiting(row))
}

/// Whether the host with this number may have something to do with the row by the moment, in seconds since 1970 UTC.
pub fn is_live_by(row: &RunRow, number: u16, moment: Moment) -> bool
    ensures { result ≡ is_live_by number moment row.now }
{
    is_live(row, number) || is_called(row, moment)
}

/// Whether the row waits for its start, and that has come by the moment, in seconds since 1970 UTC.
pub fn is_called(row: &RunRow, moment: Moment) -> bool
    ensures { result ≡ is_called moment row.now }
{
    is_waiting(row) && has_come(&row.interval, moment)
}

// Whether it is confirmed, hasn't started, and nothing is to be said of it before its start.
fn is_waiting(row: &RunRow) -> bool
    ensures { result ≡ is_waiting row.now }
{
    is_ahead(row) && is_quiet(row) && has_settled_archives(row)
}

// Whether it is accepted and confirmed, hasn't started, and isn't over.
fn is_ahead(row: &RunRow) -> bool
    ensures { result ≡ is_ahead row.now }
{
    row.accepted.is_some()
        && row.confirmed.is_some()
        && row.started.is_none()
        && row.ended.is_none()
        && row.closed.is_none()
}

fn has_come(interval: &Option<Interval>, moment: Moment) -> bool
    ensures { result ≡ has_come moment interval.now }
{
    match interval {
        Some(interval) => interval.start <= moment,
        None => false,
    }
}

// Whether it is closed, or has come as far as its start.
fn is_decided(row: &RunRow) -> bool
    ensures { result ≡ is_decided row.now }
{
    row.closed.is_some()
        || (row.accepted.is_some() && row.confirmed.is_some() && row.started.is_some())
}

// Whether it ended under the lead with this number, and its results aren't merged.
fn awaits_merging(row: &RunRow, number: u16) -> bool
    ensures { result ≡ awaits_merging number row.now }
{
    row.key.lead == number && row.ended.is_some() && row.merged.is_none()
}

// Whether there is nothing to say to the other participants.
fn is_quiet(row: &RunRow) -> bool
    ensures { result ≡ is_quiet row.now }
{
    row.asked.is_none() || all_told(row, row.others.as_slice())
}

fn all_told(row: &RunRow, others: &[Other]) -> bool
    ensures { result ≡ list_all (is_told row.now) others.now }
{
    for other in others {
        if !is_told(row, other) {
            return false;
        }
    }
    true
}

// Whether there is nothing to say to this participant.
fn is_told(row: &RunRow, other: &Other) -> bool
    ensures { result ≡ is_told row.now other.now }
{
    let knows = if row.closed.is_some() {
        !other.accepted || other.cancel_told
    } else {
        other.free.is_some() && other.confirm_told
    };
    knows && (row.merged.is_some() || row.ended.is_none() || other.heard.is_some())
}

// Whether each archive is done or given up.
fn has_settled_archives(row: &RunRow) -> bool
    ensures { result ≡ list_all is_settled_archive row.now.archives }
{
    row.archives
        .as_slice()
        .iter()
        .all(|state| is_settled(state))
}

fn is_settled(state: &ArchiveState) -> bool
    ensures { result ≡ is_settled_archive state.now }
{
    state.done || state.next.is_none()
}
