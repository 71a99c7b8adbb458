//! The bookings of each class.
ghost use Rattle.std.specs.Prelude.{◌≡◌, ◌<◌, ◌≤◌, ◌&&◌, [], List, None, IsTrue, OnOk};
ghost use Rattle.ps_time.specs.declared.class.Class.{Class as SeenClass};
ghost use Rattle.host_timeline.specs.declared.booking.Booking.{Booking as SeenBooking};
ghost use Rattle.host_timeline.specs.Lane.{find_place, lane_of, place_of, places_of, with_place, without_place, with_started_place, Decide, Have, HavePlaces, HoldLanes, IsAscendingPlaces, IsEdited, Reach};

use crate::booking::Booking;
use crate::lane::{Lane, place_of};
use crate::lent::LentBookings;
use ps_time::class::Class;
use ps_time::memory::Memory;
use ps_time::moment::Moment;
use std::alloc::Global;
use std::marker::Model;

/// A lane for each class.
#[derive(Drop)]
pub(crate) struct Lanes {
    background_multi: Lane,
    background: Lane,
    normal: Lane,
    exclusive: Lane,
}

impl Model for Lanes {
    ghost use Rattle.host_timeline.specs.Lane.{Lanes as Seen};

    ghost Value = { Seen };

    ghost view = { λ l. record { background_multi = l.background_multi; background = l.background; normal = l.normal; exclusive = l.exclusive } };
}

impl Lanes {
    pub(crate) fn new(alloc: Global) -> Lanes
        ensures { (class : SeenClass) → (lane_of class result).list ≡ [] }
    {
        Lanes {
            background_multi: Lane::new(alloc),
            background: Lane::new(alloc),
            normal: Lane::new(alloc),
            exclusive: Lane::new(alloc),
        }
    }

    /// Reserves places, so that each lane has this many, taken or not.
    pub(crate) fn reserve(&mut self, places: usize) -> Result<(), Memory>
        ensures same { (class : SeenClass) → (lane_of class self.new).list ≡ (lane_of class self.old).list }
        ensures never_less { (class : SeenClass) → (lane_of class self.old).room ≤ (lane_of class self.new).room }
        ensures ok { OnOk result (HavePlaces places self.new) }
    {
        reserve_lane(&mut self.background_multi, places)?;
        reserve_lane(&mut self.background, places)?;
        reserve_lane(&mut self.normal, places)?;
        reserve_lane(&mut self.exclusive, places)
    }

    /// The bookings of a class.
    pub(crate) fn of(&self, class: Class) -> LentBookings<'_>
        ensures list { result ≡ (lane_of class self.now).list }
        ensures ascending { IsAscendingPlaces (lane_of class self.now).list }
    {
        match class {
            Class::BackgroundMulti => self.background_multi.bookings(),
            Class::Background => self.background.bookings(),
            Class::Normal => self.normal.bookings(),
            Class::Exclusive => self.exclusive.bookings(),
        }
    }

    /// Takes a booking in.
    pub(crate) fn insert(&mut self, booking: &Booking)
        requires room { 0 < (lane_of booking.now.class self.old).room }
        requires new_place { find_place (lane_of booking.now.class self.old).list (place_of booking.now) ≡ None }
        ensures { IsEdited (λ l. with_place l booking.now) booking.now.class self.old self.new }
    {
        match booking.class {
            Class::BackgroundMulti => self.background_multi.insert(booking),
            Class::Background => self.background.insert(booking),
            Class::Normal => self.normal.insert(booking),
            Class::Exclusive => self.exclusive.insert(booking),
        }
    }

    /// Takes a booking out.
    pub(crate) fn remove(&mut self, booking: &Booking)
        ensures { IsEdited (λ l. without_place l (place_of booking.now)) booking.now.class self.old self.new }
    {
        let place = place_of(booking);
        match booking.class {
            Class::BackgroundMulti => self.background_multi.remove(place),
            Class::Background => self.background.remove(place),
            Class::Normal => self.normal.remove(place),
            Class::Exclusive => self.exclusive.remove(place),
        }
    }

    /// Says that the run of a booking was started.
    pub(crate) fn mark_started(&mut self, booking: &Booking)
        ensures { IsEdited (λ l. with_started_place l (place_of booking.now)) booking.now.class self.old self.new }
    {
        let place = place_of(booking);
        match booking.class {
            Class::BackgroundMulti => self.background_multi.mark_started(place),
            Class::Background => self.background.mark_started(place),
            Class::Normal => self.normal.mark_started(place),
            Class::Exclusive => self.exclusive.mark_started(place),
        }
    }

    /// Whether none of the bookings conflicts with a run of the class from one moment on, before an end, as far as that is known
    /// without a look at them.
    pub(crate) fn are_clear(
        &self,
        class: Class,
        earliest: Moment,
        from: Moment,
        until: Option<Moment>,
    ) -> bool
        requires { Reach class earliest from self.now }
        ensures { (bookings : List SeenBooking) → HoldLanes bookings self.now → IsTrue result → Decide class from until bookings [] [] }
    {
        match class {
            Class::Exclusive => both(
                self.exclusive.is_clear(earliest, from, until),
                self.normal.is_clear(earliest, from, until),
            ),
            Class::Normal => self.exclusive.is_clear(earliest, from, until),
            _ => true,
        }
    }

    /// The exclusive and the normal bookings that a run of the class has to look at: all that conflict with it from one
    /// moment on, before an end, and few besides, none before the earliest. For a class that conflicts with none there are
    /// none.
    pub(crate) fn beside(
        &self,
        class: Class,
        earliest: Moment,
        from: Moment,
        until: Option<Moment>,
    ) -> (LentBookings<'_>, LentBookings<'_>)
        requires { Reach class earliest from self.now }
        ensures have { (bookings : List SeenBooking) → HoldLanes bookings self.now → Have class from until bookings result.0 result.1 }
        ensures decide { (bookings : List SeenBooking) → HoldLanes bookings self.now → Decide class from until bookings result.0 result.1 }
    {
        match class {
            Class::Exclusive => (
                self.exclusive.near(earliest, from, until),
                self.normal.near(earliest, from, until),
            ),
            Class::Normal => (
                self.exclusive.near(earliest, from, until),
                self.normal.nothing(),
            ),
            _ => (self.exclusive.nothing(), self.normal.nothing()),
        }
    }
}

// Whether both hold.
fn both(first: bool, second: bool) -> bool
    ensures { result ≡ (first && second) }
{
    first && second
}

// Reserves places, so that the lane has this many, taken or not.
fn reserve_lane(lane: &mut Lane, places: usize) -> Result<(), Memory>
    ensures same { lane.new.list ≡ lane.old.list }
    ensures never_less { lane.old.room ≤ lane.new.room }
    ensures ok { OnOk result (places ≤ places_of lane.new) }
{
    let taken = lane.bookings().len();
    lane.reserve(places.saturating_sub(taken))
}
