//! The least start that lies in each of several lists of windows.
ghost use Rattle.std.specs.Prelude.{◌≡◌, ◌≤◌, ◌&&◌, false, length, nat_le, nat_lt, true};
ghost use Rattle.std.specs.List.Sorted.{IsPartitionPoint};
ghost use Rattle.ps_time.specs.Starts.{least_start};
ghost use Rattle.slot_search.specs.CommonStart.{earliest};
ghost use Rattle.slot_search.specs.Search.{in_all, lesser, next_in, next_in_all, start_in, windows_of, AreInOrder, IsInOrder};

use ps_time::interval::Window;
use ps_time::moment::Moment;
use ps_time::tiers::Tiers;

/// A start that all participants have in common.
#[derive(Clone, Copy, Debug, PartialEq, Eq)]
pub struct Choice {
    /// In seconds since 1970 UTC.
    pub start: Moment,
    /// Whether somebody must preempt for it.
    pub second: bool,
}

/// The least start of the window that is in every first tier; if there is none, the least that is in every second tier;
/// `None` if there is none of these either. It takes no memory. The windows of a tier may stand in any order.
pub fn earliest(window: Window, lists: &[Tiers]) -> Option<Choice>
    ensures { result ≡ earliest window lists.now }
{
    if let Some(start) = common_start(&window, lists, false) {
        return Some(Choice {
            start,
            second: false,
        });
    }
    let start = common_start(&window, lists, true)?;
    Some(Choice {
        start,
        second: true,
    })
}

// The least start of the window that lies in this tier of each list. A pass over the lists goes on to the next start that
// could be one, so it goes from window to window and never from second to second. Where the windows are in order, each list
// is searched in; else it is passed over.
fn common_start(window: &Window, lists: &[Tiers], second: bool) -> Option<Moment>
    ensures { result ≡ least_start (in_all second lists.now) window.now }
{
    let ordered = are_in_order(lists, second);
    let mut from = window.first;
    while from <= window.last {
        let Some(next) = next_in_all(lists, second, ordered, from) else {
            return None;
        };
        if next == from {
            return Some(from);
        }
        from = next;
    }
    None
}

// Whether the windows of this tier of each list begin one after another, and end so.
fn are_in_order(lists: &[Tiers], second: bool) -> bool
    ensures { result ≡ true → AreInOrder second lists.now }
{
    for tiers in lists {
        if !is_in_order(windows_of(tiers, second)) {
            return false;
        }
    }
    true
}

// Whether the windows begin one after another, and end so.
fn is_in_order(windows: &[Window]) -> bool
    ensures { result ≡ true → IsInOrder windows.now }
{
    for at in 1..windows.len() {
        if !comes_after(&windows[at], &windows[at - 1]) {
            return false;
        }
    }
    true
}

// Whether a window neither begins nor ends before another.
fn comes_after(window: &Window, other: &Window) -> bool
    ensures { result ≡ (nat_le other.now.first window.now.first && nat_le other.now.last window.now.last) }
{
    other.first <= window.first && other.last <= window.last
}

// The windows of the second tier, or of the first.
fn windows_of(tiers: &Tiers, second: bool) -> &[Window]
    ensures { result.now ≡ windows_of second tiers.now }
{
    if second {
        tiers.second.as_slice()
    } else {
        tiers.first.as_slice()
    }
}

// The start to which the lists send on a start, one after another. It is the same one exactly where it lies in all of them.
fn next_in_all(lists: &[Tiers], second: bool, ordered: bool, from: Moment) -> Option<Moment>
    requires { ordered ≡ true → AreInOrder second lists.now }
    ensures { result ≡ next_in_all second lists.now from }
{
    let mut start = from;
    for tiers in lists {
        start = next_start(windows_of(tiers, second), ordered, start)?;
    }
    Some(start)
}

// The least start from this one on that lies in one of the windows: by search where these are in order.
fn next_start(windows: &[Window], ordered: bool, from: Moment) -> Option<Moment>
    requires { ordered ≡ true → IsInOrder windows.now }
    ensures { result ≡ next_in windows.now from }
{
    if ordered {
        next_in_order(windows, from)
    } else {
        next_in(windows, from)
    }
}

// The least start from this one on that lies in one of the windows, which are in order: it lies in the first that doesn't
// end before it.
fn next_in_order(windows: &[Window], from: Moment) -> Option<Moment>
    requires { IsInOrder windows.now }
    ensures { result ≡ next_in windows.now from }
{
    let at = ending_before(windows, from);
    if at < windows.len() {
        let window = windows[at];
        Some(window.first.max(from))
    } else {
        None
    }
}

// How many of the windows, which are in order, end before the moment.
fn ending_before(windows: &[Window], moment: Moment) -> usize
    requires { IsInOrder windows.now }
    ensures within { result ≤ length windows.now }
    ensures parted { IsPartitionPoint (λ w. nat_lt w.last moment ≡ true) (λ w. nat_lt w.last moment ≡ false) windows.now result }
{
    windows.partition_point(|window| window.last < moment)
}

// The least start from this one on that lies in one of the windows.
fn next_in(windows: &[Window], from: Moment) -> Option<Moment>
    ensures { result ≡ next_in windows.now from }
{
    let mut least = None;
    for window in windows {
        least = lesser(least, start_in(window, from));
    }
    least
}

// The least start of the window from this one on.
fn start_in(window: &Window, from: Moment) -> Option<Moment>
    ensures { result ≡ start_in window.now from }
{
    let start = window.first.max(from);
    if start <= window.last {
        Some(start)
    } else {
        None
    }
}

// The lesser of two that may be there.
fn lesser(a: Option<Moment>, b: Option<Moment>) -> Option<Moment>
    ensures { result ≡ lesser a b }
{
    match (a, b) {
        (Some(a), Some(b)) => Some(a.min(b)),
        (Some(a), None) => Some(a),
        (None, b) => b,
    }
}
