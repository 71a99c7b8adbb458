//! The seconds that are taken for each class that can conflict.
ghost use Rattle.std.specs.Prelude.{◌≡◌, ◌<◌, ◌≤◌, [], ◌∷◌, ℕ, List, OnOk};
ghost use Rattle.host_timeline.specs.declared.booking.Booking.{Booking as SeenBooking};
ghost use Rattle.host_timeline.specs.Lane.{HoldLanes, Lanes as SeenLanes, Reach};
ghost use Rattle.host_timeline.specs.Busy.{covers, is_busy, range_places, AreBusy, CanRelease, CanUncover, IsApart, IsBusy};

use crate::booking::Booking;
use crate::lanes::Lanes;
use crate::ranges::{Ranges, add_conflicts};
use ps_lists::tiered_lent::Lent;
use ps_time::class::{Class, classes_conflict};
use ps_time::interval::Interval;
use ps_time::memory::Memory;
use ps_time::moment::Moment;
use std::alloc::Global;
use std::marker::Model;

/// What bookings of conflicting classes take, for a normal and for an exclusive run.
#[derive(Drop)]
pub(crate) struct Busy {
    normal: Ranges,
    exclusive: Ranges,
}

impl Model for Busy {
    ghost use Rattle.host_timeline.specs.Busy.{Busy as Seen};

    ghost Value = { Seen };

    ghost view = { λ b. record { normal = b.normal; exclusive = b.exclusive } };
}

impl Busy {
    pub(crate) fn new(alloc: Global) -> Busy
        ensures normal { result.normal.list ≡ [] }
        ensures exclusive { result.exclusive.list ≡ [] }
    {
        Busy {
            normal: Ranges::new(alloc),
            exclusive: Ranges::new(alloc),
        }
    }

    /// Reserves places, so that there are more than this many for each class, taken or not.
    pub(crate) fn reserve(&mut self, places: usize) -> Result<(), Memory>
        ensures normal { self.new.normal.list ≡ self.old.normal.list }
        ensures exclusive { self.new.exclusive.list ≡ self.old.exclusive.list }
        ensures normal_room { self.old.normal.room ≤ self.new.normal.room }
        ensures exclusive_room { self.old.exclusive.room ≤ self.new.exclusive.room }
        ensures normal_places { OnOk result (places < range_places self.new.normal) }
        ensures exclusive_places { OnOk result (places < range_places self.new.exclusive) }
    {
        reserve_ranges(&mut self.normal, places)?;
        reserve_ranges(&mut self.exclusive, places)
    }

    /// What is taken for a class.
    pub(crate) fn of(&self, class: Class) -> Lent<'_, Interval>
        ensures covered { (bookings : List SeenBooking) (places : ℕ) → AreBusy bookings places self.now → (second : ℕ) → covers result second ≡ is_busy class bookings second }
        ensures apart { IsApart result }
    {
        match class {
            Class::Exclusive => self.exclusive.ranges(),
            Class::Normal => self.normal.ranges(),
            _ => self.normal.nothing(),
        }
    }

    /// A moment before which none of the bookings starts that conflict with a run of the class and end behind `from`. Where
    /// none of them starts before an end, that isn't behind it.
    pub(crate) fn reach_back(&self, class: Class, from: Moment) -> Moment
        ensures { (bookings : List SeenBooking) (places : ℕ) (lanes : SeenLanes) → AreBusy bookings places self.now → HoldLanes bookings lanes → Reach class result from lanes }
    {
        match class {
            Class::Exclusive => self.exclusive.reach_back(from),
            Class::Normal => self.normal.reach_back(from),
            _ => from,
        }
    }

    /// Takes in what a booking takes.
    pub(crate) fn cover(&mut self, booking: &Booking)
        requires normal { 0 < self.old.normal.room }
        requires exclusive { 0 < self.old.exclusive.room }
        ensures { (bookings : List SeenBooking) (places : ℕ) → AreBusy bookings places self.old → AreBusy (booking.now ∷ bookings) places self.new }
    {
        cover(&mut self.normal, Class::Normal, booking);
        cover(&mut self.exclusive, Class::Exclusive, booking);
    }

    /// Takes out what a booking took, but for what those in the lanes take too.
    pub(crate) fn uncover(&mut self, booking: &Booking, lanes: &Lanes)
        requires { CanRelease booking.now lanes.now self.old }
        ensures { (bookings : List SeenBooking) (places : ℕ) → HoldLanes bookings lanes.now → AreBusy (booking.now ∷ bookings) places self.old → AreBusy bookings places self.new }
    {
        uncover(&mut self.normal, Class::Normal, booking, lanes);
        uncover(&mut self.exclusive, Class::Exclusive, booking, lanes);
    }
}

// Reserves places, so that there are more than this many, taken or not.
fn reserve_ranges(ranges: &mut Ranges, places: usize) -> Result<(), Memory>
    ensures same { ranges.new.list ≡ ranges.old.list }
    ensures never_less { ranges.old.room ≤ ranges.new.room }
    ensures ok { OnOk result (places < range_places ranges.new) }
{
    let taken = ranges.ranges().len();
    match places.saturating_sub(taken).checked_add(1) {
        Some(more) => ranges.reserve(more),
        None => Err(Memory),
    }
}

// Takes in what a booking takes for a class.
fn cover(ranges: &mut Ranges, class: Class, booking: &Booking)
    requires room { 0 < ranges.old.room }
    ensures busy { (bookings : List SeenBooking) → IsBusy class bookings ranges.old.list → IsBusy class (booking.now ∷ bookings) ranges.new.list }
    ensures places { range_places ranges.new ≡ range_places ranges.old }
{
    if classes_conflict(class, booking.class) {
        let interval = booking.interval;
        ranges.add(&interval);
    }
}

// Takes out what a booking took for a class, but for what those in the lanes take too.
fn uncover(ranges: &mut Ranges, class: Class, booking: &Booking, lanes: &Lanes)
    requires { CanUncover class booking.now lanes.now ranges.old }
    ensures busy { (bookings : List SeenBooking) → HoldLanes bookings lanes.now → IsBusy class (booking.now ∷ bookings) ranges.old.list → IsBusy class bookings ranges.new.list }
    ensures places { range_places ranges.new ≡ range_places ranges.old }
{
    if classes_conflict(class, booking.class) {
        let interval = booking.interval;
        let earliest = ranges.reach_back(interval.start);
        ranges.cut(&interval);
        let (some, others) = lanes.beside(class, earliest, interval.start, Some(interval.end));
        add_conflicts(ranges, class, &interval, some);
        add_conflicts(ranges, class, &interval, others);
    }
}
