//! Maximal ranges of seconds, ascending.
ghost use Rattle.std.specs.Prelude.{◌≡◌, ◌+◌, ◌++◌, ◌<◌, ◌≤◌, ◌||◌, [], ℕ, Bool, OnOk, drop, length, nat_lt, slice_index_or, take, true, false};
ghost use Rattle.std.specs.List.Sorted.{IsPartitionPoint};
ghost use Rattle.std.specs.List.{list_any, remove_range};
ghost use Rattle.ps_time.specs.Span.{Span};
ghost use Rattle.host_timeline.specs.Busy.{begin_at, conflicts_begin_at, covers, has_second, pieces, range_places, span_between, takes_beside, with_range, without_range, HavePlacesFor, IsApart, IsCovered};

use crate::lent::LentBookings;
use ps_lists::tiered_lent::Lent;
use ps_lists::tiered_list::TieredList;
use ps_time::class::Class;
use ps_time::interval::Interval;
use ps_time::memory::Memory;
use ps_time::moment::Moment;
use std::alloc::Global;
use std::marker::Model;

/// Ranges of seconds, each maximal, and places that are reserved for more.
#[derive(Drop)]
pub(crate) struct Ranges {
    ranges: TieredList<Interval>,
}

impl Model for Ranges {
    ghost use Rattle.std.specs.Prelude.{◌-◌, length};
    ghost use Rattle.host_timeline.specs.Busy.{Ranges as Seen, IsApart};

    ghost Value = { Seen };

    ghost view = { λ r. record { list = r.ranges.list; room = r.ranges.places - length r.ranges.list } };

    ghost invariant = { λ r. IsApart r.ranges.list };
}

impl Ranges {
    pub(crate) fn new(alloc: Global) -> Ranges
        ensures { result.list ≡ [] }
    {
        Ranges {
            ranges: TieredList::new(alloc),
        }
    }

    /// Reserves places, so that `count` more ranges fit.
    pub(crate) fn reserve(&mut self, count: usize) -> Result<(), Memory>
        ensures same { self.new.list ≡ self.old.list }
        ensures never_less { self.old.room ≤ self.new.room }
        ensures ok { OnOk result (count ≤ self.new.room) }
    {
        self.ranges.reserve(count)
    }

    /// All of them.
    pub(crate) fn ranges(&self) -> Lent<'_, Interval>
        ensures list { result ≡ self.now.list }
        ensures apart { IsApart self.now.list }
    {
        self.ranges.in_order()
    }

    /// None of them.
    pub(crate) fn nothing(&self) -> Lent<'_, Interval>
        ensures { result ≡ [] }
    {
        self.ranges.in_order().until(0)
    }

    /// A moment before which nothing starts that takes time, is covered throughout and ends behind `from`: the start of the
    /// first range that ends behind that; where there is none, the last moment of all.
    pub(crate) fn reach_back(&self, from: Moment) -> Moment
        ensures { (s : Span) → s.start < s.end → IsCovered self.now.list s → from < s.end → result ≤ s.start }
    {
        let at = ending_by(&self.ranges.in_order(), from);
        if at < self.ranges.len() {
            self.ranges[at].start
        } else {
            Moment::MAX
        }
    }

    /// Takes an interval in, and joins it with the ranges that it overlaps or touches.
    pub(crate) fn add(&mut self, interval: &Interval)
        requires room { 0 < self.old.room }
        ensures list { self.new.list ≡ with_range self.old.list interval.now }
        ensures covers { (second : ℕ) → covers self.new.list second ≡ (covers self.old.list second || has_second interval.now second) }
        ensures apart { IsApart self.new.list }
        ensures places { range_places self.new ≡ range_places self.old }
    {
        let first = ending_before(&self.ranges.in_order(), interval.start);
        let end = starting_by(&self.ranges.in_order(), interval.end);
        if first < end {
            let start = self.ranges[first].start.min(interval.start);
            let last = self.ranges[end - 1].end.max(interval.end);
            self.ranges.set(first, Interval { start, end: last });
            take_out(&mut self.ranges, first + 1, end);
        } else {
            self.ranges.insert(first, *interval)
        }
    }

    /// Takes an interval out of the range in which it lies.
    pub(crate) fn cut(&mut self, interval: &Interval)
        requires room { 0 < self.old.room }
        requires covered { IsCovered self.old.list interval.now }
        ensures list { self.new.list ≡ without_range self.old.list interval.now }
        ensures apart { IsApart self.new.list }
        ensures places { range_places self.new ≡ range_places self.old }
    {
        let at = containing(&self.ranges.in_order(), interval);
        let range = self.ranges[at];
        let before = span_between(range.start, interval.start);
        let behind = span_between(interval.end, range.end);
        match (before, behind) {
            (Some(before), Some(behind)) => {
                self.ranges.set(at, before);
                self.ranges.insert(at + 1, behind);
            }
            (Some(piece), None) => self.ranges.set(at, piece),
            (None, Some(piece)) => self.ranges.set(at, piece),
            (None, None) => {
                self.ranges.remove(at);
            }
        }
    }
}

// Takes the ranges out from one place on, before another.
fn take_out(ranges: &mut TieredList<Interval>, from: usize, until: usize)
    requires ordered { from ≤ until }
    requires within { until ≤ length ranges.old.list }
    ensures list { ranges.new.list ≡ remove_range ranges.old.list from until }
    ensures places { ranges.new.places ≡ ranges.old.places }
{
    for _taken in from..until {
        ranges.remove(from);
    }
}

// Where the range is that has the interval.
fn containing(ranges: &Lent<'_, Interval>, interval: &Interval) -> usize
    requires apart { IsApart ranges.now }
    requires covered { IsCovered ranges.now interval.now }
    ensures within { result < length ranges.now }
    ensures cut { (d : Span) → without_range ranges.now interval.now ≡ take result ranges.now ++ (pieces (slice_index_or ranges.now result d) interval.now ++ drop (result + 1) ranges.now) }
{
    ending_by(ranges, interval.start)
}

// The seconds from one on, before another, if there are any.
fn span_between(start: Moment, end: Moment) -> Option<Interval>
    ensures { result ≡ span_between start end }
{
    if start < end {
        Some(Interval { start, end })
    } else {
        None
    }
}

// How many of the ranges end before the moment.
fn ending_before(ranges: &Lent<'_, Interval>, moment: Moment) -> usize
    requires { IsApart ranges.now }
    ensures within { result ≤ length ranges.now }
    ensures parted { IsPartitionPoint (λ r. nat_lt r.end moment ≡ true) (λ r. nat_lt r.end moment ≡ false) ranges.now result }
{
    ranges.partition_point(|range| range.end < moment)
}

// How many of the ranges end by the moment.
fn ending_by(ranges: &Lent<'_, Interval>, moment: Moment) -> usize
    requires { IsApart ranges.now }
    ensures within { result ≤ length ranges.now }
    ensures parted { IsPartitionPoint (λ r. nat_lt moment r.end ≡ false) (λ r. nat_lt moment r.end ≡ true) ranges.now result }
{
    ranges.partition_point(|range| range.end <= moment)
}

// How many of the ranges start by the moment.
fn starting_by(ranges: &Lent<'_, Interval>, moment: Moment) -> usize
    requires { IsApart ranges.now }
    ensures within { result ≤ length ranges.now }
    ensures parted { IsPartitionPoint (λ r. nat_lt moment r.start ≡ false) (λ r. nat_lt moment r.start ≡ true) ranges.now result }
{
    ranges.partition_point(|range| range.start <= moment)
}

/// Adds the intervals of those bookings that conflict with a run.
pub(crate) fn add_conflicts(
    ranges: &mut Ranges,
    class: Class,
    interval: &Interval,
    bookings: LentBookings<'_>,
)
    requires room { HavePlacesFor class interval.now ranges.old bookings }
    ensures covers { (second : ℕ) → covers ranges.new.list second ≡ (covers ranges.old.list second || list_any (takes_beside class interval.now second) bookings.entry) }
    ensures apart { IsApart ranges.new.list }
    ensures begin { (begins : ℕ → Bool) → begin_at begins ranges.old.list ≡ true → conflicts_begin_at begins class interval.now bookings.entry ≡ true → begin_at begins ranges.new.list ≡ true }
    ensures places { range_places ranges.new ≡ range_places ranges.old }
{
    for booking in bookings {
        if booking.conflicts_with(class, interval) {
            ranges.add(&booking.interval);
        }
    }
}
