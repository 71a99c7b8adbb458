//! The bookings of one class, ascending by start and then by key.
ghost use Rattle.std.specs.Prelude.{◌≡◌, ◌<◌, ◌≤◌, [], Bool, IfOk, IfErr, IsTrue, None, OnOk, false, length, nat_lt, true};
ghost use Rattle.std.specs.List.{list_all, AllWithin};
ghost use Rattle.host_timeline.specs.declared.booking.Booking.{Booking as SeenBooking};
ghost use Rattle.host_timeline.specs.Lane.{find_place, how_many, place_cmp, place_of, places_of, reaches, spans, starts_between, starts_by, with_place, without_place, with_started_place, IsAscendingPlaces, IsFoundAt, IsLane, IsOpenAt, FailsOthers, FailsOutside};

use crate::booking::Booking;
use crate::booking_list::BookingList;
use crate::lent::LentBookings;
use ps_time::key::RunKey;
use ps_time::memory::Memory;
use ps_time::moment::{Length, Moment};
use std::alloc::Global;
use std::cmp::Ordering;
use std::marker::Model;

/// Where a booking stands among those of its class.
#[derive(Clone, Copy, PartialEq, Eq, PartialOrd, Ord)]
pub struct Place {
    pub start: Moment,
    pub key: RunKey,
}

impl Place {
    /// The order of places, as contracts cite it.
    pub fn order(&self, other: &Place) -> Ordering
        ensures { result ≡ place_cmp self.now other.now }
    {
        self.cmp(other)
    }
}

/// The place of a booking.
pub(crate) fn place_of(booking: &Booking) -> Place
    ensures { result ≡ place_of booking.now }
{
    Place {
        start: booking.interval.start,
        key: booking.key,
    }
}

/// Bookings, ascending by start and then by key, and places that are reserved for more.
#[derive(Drop)]
pub(crate) struct Lane {
    bookings: BookingList,
    // no booking is longer
    longest: Length,
}

impl Model for Lane {
    ghost use Rattle.std.specs.Prelude.{◌-◌, length};
    ghost use Rattle.host_timeline.specs.Lane.{Lane as Seen, IsLane};

    ghost Value = { Seen };

    ghost view = { λ l. record { list = l.bookings.list; room = l.bookings.places - length l.bookings.list } };

    ghost invariant = { λ l. IsLane l.bookings.list l.longest };
}

impl Lane {
    pub(crate) fn new(alloc: Global) -> Lane
        ensures { result.list ≡ [] }
    {
        Lane {
            bookings: BookingList::new(alloc),
            longest: 0,
        }
    }

    /// Reserves places, so that `insert` can be called `count` times.
    pub(crate) fn reserve(&mut self, count: usize) -> Result<(), Memory>
        ensures same { self.new.list ≡ self.old.list }
        ensures never_less { self.old.room ≤ self.new.room }
        ensures ok { OnOk result (count ≤ self.new.room) }
    {
        self.bookings.reserve(count)
    }

    /// All of them.
    pub(crate) fn bookings(&self) -> LentBookings<'_>
        ensures list { result ≡ self.now.list }
        ensures ascending { IsAscendingPlaces self.now.list }
    {
        self.bookings.in_order()
    }

    /// Takes a booking in.
    pub(crate) fn insert(&mut self, booking: &Booking)
        requires room { 0 < self.old.room }
        requires new_place { find_place self.old.list (place_of booking.now) ≡ None }
        ensures list { self.new.list ≡ with_place self.old.list booking.now }
        ensures places { places_of self.new ≡ places_of self.old }
    {
        let interval = booking.interval;
        match self.search(place_of(booking)) {
            Ok(_) => unreachable!(),
            Err(at) => {
                self.longest = self.longest.max(interval.end - interval.start);
                self.bookings.insert(at, booking)
            }
        }
    }

    /// Takes the booking at a place out; its place stays reserved. Nothing changes where there is none.
    pub(crate) fn remove(&mut self, place: Place)
        ensures list { self.new.list ≡ without_place self.old.list place }
        ensures places { places_of self.new ≡ places_of self.old }
    {
        match self.search(place) {
            Ok(at) => {
                self.bookings.remove(at);
            }
            Err(_) => {}
        }
    }

    /// Says that the run of the booking at a place was started. Nothing changes where there is none.
    pub(crate) fn mark_started(&mut self, place: Place)
        ensures list { self.new.list ≡ with_started_place self.old.list place }
        ensures places { places_of self.new ≡ places_of self.old }
    {
        match self.search(place) {
            Ok(at) => {
                self.bookings.mark_started(at);
            }
            Err(_) => {}
        }
    }

    /// Some of the bookings in a row: all that have a second from `from` on, before `until`, if there is such an end. None
    /// of them starts from `until` on, or so long before `from` that even the longest would have ended, or before `earliest`.
    pub(crate) fn near(
        &self,
        earliest: Moment,
        from: Moment,
        until: Option<Moment>,
    ) -> LentBookings<'_>
        requires { list_all (reaches earliest from) self.now.list ≡ true }
        ensures { (test : SeenBooking → Bool) → FailsOutside (spans from until) test → how_many test result ≡ how_many test self.now.list }
    {
        let first = from.saturating_sub(self.longest).max(earliest);
        between(&self.bookings, first, until)
    }

    /// Whether none of them has a second from `from` on, before `until`, as far as that is known without a look at them.
    pub(crate) fn is_clear(&self, earliest: Moment, from: Moment, until: Option<Moment>) -> bool
        requires { list_all (reaches earliest from) self.now.list ≡ true }
        ensures { (test : SeenBooking → Bool) → FailsOutside (spans from until) test → IsTrue result → how_many test self.now.list ≡ 0 }
    {
        let _known = &self.bookings;
        !starts_by(until, earliest)
    }

    /// None of them.
    pub(crate) fn nothing(&self) -> LentBookings<'_>
        ensures { result ≡ [] }
    {
        self.bookings().part(0, 0)
    }

    // Where the booking with the place is, or where it would go.
    fn search(&self, place: Place) -> Result<usize, usize>
        ensures found { IfOk result (IsFoundAt self.now.list place) }
        ensures absent { IfErr result (IsOpenAt self.now.list place) }
    {
        self.bookings.search(place)
    }
}

// Those that start from one moment on, before an end.
fn between(bookings: &BookingList, from: Moment, until: Option<Moment>) -> LentBookings<'_>
    requires { IsAscendingPlaces bookings.now.list }
    ensures { (test : SeenBooking → Bool) → FailsOthers bookings.now.list (starts_between from until) test → how_many test result ≡ how_many test bookings.now.list }
{
    if !starts_by(until, from) {
        return bookings.in_order().part(0, 0);
    }
    let first = bookings.starting_before(from);
    let end = start_by(bookings, first, until);
    bookings.in_order().part(first, end)
}

// Whether a start is before an end, if there is one.
fn starts_by(until: Option<Moment>, start: Moment) -> bool
    ensures { result ≡ starts_by until start }
{
    match until {
        Some(until) => start < until,
        None => true,
    }
}

// Where those end, from a place on, that start before an end.
fn start_by(bookings: &BookingList, first: usize, until: Option<Moment>) -> usize
    requires ascending { IsAscendingPlaces bookings.now.list }
    requires place { first ≤ length bookings.now.list }
    ensures behind { first ≤ result }
    ensures within { result ≤ length bookings.now.list }
    ensures others { AllWithin (λ b. starts_by until b.interval.start ≡ false) bookings.now.list result (length bookings.now.list) }
{
    match until {
        Some(until) => first_from(bookings, first, until),
        None => bookings.len(),
    }
}

// The place of the first one, from a place on, that starts no earlier than the moment. One after another is tested: those
// before it are looked at anyway, and mostly there are few.
fn first_from(bookings: &BookingList, first: usize, moment: Moment) -> usize
    requires ascending { IsAscendingPlaces bookings.now.list }
    requires place { first ≤ length bookings.now.list }
    ensures behind { first ≤ result }
    ensures within { result ≤ length bookings.now.list }
    ensures others { AllWithin (λ b. nat_lt b.interval.start moment ≡ false) bookings.now.list result (length bookings.now.list) }
{
    for place in first..bookings.len() {
        if moment <= bookings.start_at(place) {
            return place;
        }
    }
    bookings.len()
}
