//! Bookings in their order, and their starts side by side.
ghost use Rattle.std.specs.Prelude.{◌≡◌, ◌+◌, ◌<◌, ◌≤◌, [], IfErr, IfOk, OnOk, false, length, nat_le, nat_lt, slice_index_or, slice_set, true};
ghost use Rattle.std.specs.List.{insert, remove};
ghost use Rattle.std.specs.List.Sorted.{IsPartitionPoint};
ghost use Rattle.std.specs.Ordering.{is_lt};
ghost use Rattle.host_timeline.specs.declared.booking.Booking.{Booking as SeenBooking};
ghost use Rattle.host_timeline.specs.Lane.{place_cmp, place_of, IsAscendingPlaces, IsFoundAt, IsOpenAt};
ghost use Rattle.host_timeline.specs.Timeline.{started_booking};

use crate::booking::{Booking, started};
use crate::lane::{Place, place_of};
use crate::lent::LentBookings;
use ps_lists::placed_list::PlacedList;
use ps_lists::tiered_list::TieredList;
use ps_time::memory::Memory;
use ps_time::moment::Moment;
use std::alloc::Global;
use std::cmp::Ordering;
use std::marker::Model;

/// Bookings, and their starts in the same order, eight bytes each: a search among starts looks at no booking, and needs a
/// small part of the memory that bookings take.
#[derive(Drop)]
pub(crate) struct BookingList {
    bookings: PlacedList<Booking>,
    starts: TieredList<Moment>,
}

impl Model for BookingList {
    ghost use Rattle.std.specs.Prelude.{◌≡◌, min};
    ghost use Rattle.ps_lists.specs.PlacedList.{PlacedList as Seen};
    ghost use Rattle.host_timeline.specs.declared.booking.Booking.{Booking as SeenBooking};
    ghost use Rattle.host_timeline.specs.Lane.{starts_of};

    ghost Value = { Seen SeenBooking };

    ghost view = { λ l. record { list = l.bookings.list; places = min l.bookings.places l.starts.places; last = l.bookings.last } };

    ghost invariant = { λ l. l.starts.list ≡ starts_of l.bookings.list };
}

impl BookingList {
    pub(crate) fn new(alloc: Global) -> BookingList
        ensures { result.list ≡ [] }
    {
        BookingList {
            bookings: PlacedList::new(alloc),
            starts: TieredList::new(alloc),
        }
    }

    /// Reserves places, so that `count` more fit.
    pub(crate) fn reserve(&mut self, count: usize) -> Result<(), Memory>
        ensures same { self.new.list ≡ self.old.list }
        ensures never_less { self.old.places ≤ self.new.places }
        ensures ok { OnOk result (length self.new.list + count ≤ self.new.places) }
    {
        self.bookings.reserve(count)?;
        self.starts.reserve(count)
    }

    /// The bookings, one after another.
    pub(crate) fn in_order(&self) -> LentBookings<'_>
        ensures { result ≡ self.now.list }
    {
        LentBookings::of(self.bookings.in_order())
    }

    /// How many there are.
    pub(crate) fn len(&self) -> usize
        ensures { result ≡ length self.now.list }
    {
        self.bookings.len()
    }

    /// When the booking at a place starts.
    pub(crate) fn start_at(&self, at: usize) -> Moment
        requires { at < length self.now.list }
        ensures { (d : SeenBooking) → result ≡ (slice_index_or self.now.list at d).interval.start }
    {
        self.starts[at]
    }

    /// Puts a booking in.
    pub(crate) fn insert(&mut self, at: usize, booking: &Booking)
        requires within { at ≤ length self.old.list }
        requires place { length self.old.list < self.old.places }
        ensures list { self.new.list ≡ insert self.old.list at booking.now }
        ensures places { self.new.places ≡ self.old.places }
    {
        self.starts.insert(at, place_of(booking).start);
        self.bookings.insert(at, *booking);
    }

    /// Takes a booking out; its place stays reserved.
    pub(crate) fn remove(&mut self, at: usize) -> Booking
        requires within { at < length self.old.list }
        requires ascending { IsAscendingPlaces self.old.list }
        ensures value { result ≡ slice_index_or self.old.list at result }
        ensures list { self.new.list ≡ remove self.old.list at }
        ensures places { self.new.places ≡ self.old.places }
        ensures fits { length self.old.list ≤ self.old.places }
    {
        let last = self.last_place();
        self.starts.remove(at);
        self.bookings.remove(at, last)
    }

    /// Says that the run of the booking at a place was started.
    pub(crate) fn mark_started(&mut self, at: usize)
        requires { at < length self.old.list }
        ensures list { (d : SeenBooking) → self.new.list ≡ slice_set self.old.list at (started_booking (slice_index_or self.old.list at d)) }
        ensures len { length self.new.list ≡ length self.old.list }
        ensures places { self.new.places ≡ self.old.places }
    {
        let booking = self.bookings[at];
        self.bookings[at] = started(&booking);
    }

    /// Where the booking with the place is, or where it would go.
    pub(crate) fn search(&self, place: Place) -> Result<usize, usize>
        requires { IsAscendingPlaces self.now.list }
        ensures found { IfOk result (IsFoundAt self.now.list place) }
        ensures absent { IfErr result (IsOpenAt self.now.list place) }
    {
        let at = self.before_place(place);
        if at == self.len() {
            return Err(at);
        }
        match place_of(&self.bookings[at]).order(&place) {
            Ordering::Equal => Ok(at),
            _ => Err(at),
        }
    }

    /// How many of them start before the moment.
    pub(crate) fn starting_before(&self, moment: Moment) -> usize
        requires { IsAscendingPlaces self.now.list }
        ensures within { result ≤ length self.now.list }
        ensures parted { IsPartitionPoint (λ b. nat_lt b.interval.start moment ≡ true) (λ b. nat_lt b.interval.start moment ≡ false) self.now.list result }
    {
        self.starts
            .in_order()
            .partition_point(|start| *start < moment)
    }

    // How many of them start by the moment.
    fn starting_by(&self, moment: Moment) -> usize
        requires { IsAscendingPlaces self.now.list }
        ensures within { result ≤ length self.now.list }
        ensures parted { IsPartitionPoint (λ b. nat_le b.interval.start moment ≡ true) (λ b. nat_le b.interval.start moment ≡ false) self.now.list result }
    {
        self.starts
            .in_order()
            .partition_point(|start| *start <= moment)
    }

    // How many of them stand before the place. Of those with its start alone the keys are looked at.
    fn before_place(&self, place: Place) -> usize
        requires { IsAscendingPlaces self.now.list }
        ensures within { result ≤ length self.now.list }
        ensures parted { IsPartitionPoint (λ b. is_lt (place_cmp (place_of b) place) ≡ true) (λ b. is_lt (place_cmp (place_of b) place) ≡ false) self.now.list result }
    {
        let first = self.starting_before(place.start);
        if first == self.len() || place.start < self.start_at(first) {
            return first;
        }
        let end = self.starting_by(place.start);
        first + self.in_order().part(first, end).before_place(place)
    }

    // Where the booking in the last cell stands.
    fn last_place(&self) -> usize
        requires some { 0 < length self.now.list }
        requires ascending { IsAscendingPlaces self.now.list }
        ensures { result ≡ self.now.last }
    {
        self.before_place(place_of(self.bookings.last_cell()))
    }
}
