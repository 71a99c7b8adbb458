//! Bookings that are lent, one after another.
ghost use Rattle.std.specs.Prelude.{◌≡◌, ◌<◌, ◌≤◌, ◌-◌, ◌+◌, ◌∷◌, IfErr, IfOk, drop, false, length, slice_index_or, take, true};
ghost use Rattle.std.specs.List.Sorted.{IsPartitionPoint};
ghost use Rattle.std.specs.Ordering.{is_lt};
ghost use Rattle.ps_time.specs.Key.{key_cmp};
ghost use Rattle.host_timeline.specs.Lane.{place_cmp, place_of, IsAscendingPlaces};
ghost use Rattle.host_timeline.specs.Timeline.{IsAscendingBookings, IsGapFor, IsPlaceOf};

use crate::booking::Booking;
use crate::lane::{Place, place_of};
use ps_lists::placed_lent::Lent;
use ps_time::key::RunKey;
use std::cmp::Ordering;
use std::marker::Model;

/// Bookings of a host that are lent. As an iterator they are those that are left.
#[derive(Drop)]
pub struct LentBookings<'a> {
    bookings: Lent<'a, Booking>,
}

impl<'a> Model for LentBookings<'a> {
    ghost use Rattle.std.specs.Prelude.{List};
    ghost use Rattle.host_timeline.specs.declared.booking.Booking.{Booking as SeenBooking};

    ghost Value = { List SeenBooking };

    ghost view = { λ l. l.bookings };
}

impl<'a> LentBookings<'a> {
    /// These bookings.
    pub(crate) fn of(bookings: Lent<'a, Booking>) -> LentBookings<'a>
        ensures { result ≡ bookings.entry }
    {
        LentBookings { bookings }
    }

    /// How many there are.
    pub fn len(&self) -> usize
        ensures { result ≡ length self.now }
    {
        self.bookings.len()
    }

    /// The booking at a place.
    pub(crate) fn at(&self, place: usize) -> &'a Booking
        requires { place < length self.now }
        ensures value { result.now ≡ slice_index_or self.now place result.now }
        ensures rest { drop place self.now ≡ result.now ∷ drop (place + 1) self.now }
    {
        self.bookings.at(place)
    }

    /// Those from one place on, before another.
    pub(crate) fn part(&self, from: usize, until: usize) -> LentBookings<'a>
        requires ordered { from ≤ until }
        requires within { until ≤ length self.now }
        ensures { result ≡ take (until - from) (drop from self.now) }
    {
        LentBookings {
            bookings: self.bookings.from(from).until(until - from),
        }
    }

    /// How many of them stand before the place.
    pub(crate) fn before_place(&self, place: Place) -> usize
        requires { IsAscendingPlaces self.now }
        ensures within { result ≤ length self.now }
        ensures parted { IsPartitionPoint (λ b. is_lt (place_cmp (place_of b) place) ≡ true) (λ b. is_lt (place_cmp (place_of b) place) ≡ false) self.now result }
    {
        self.bookings
            .partition_point(|booking| place_of(booking).order(&place).is_lt())
    }

    /// How many of them have a key below this one.
    pub(crate) fn below(&self, key: RunKey) -> usize
        requires { IsAscendingBookings self.now }
        ensures within { result ≤ length self.now }
        ensures parted { IsPartitionPoint (λ b. is_lt (key_cmp b.key key) ≡ true) (λ b. is_lt (key_cmp b.key key) ≡ false) self.now result }
    {
        self.bookings
            .partition_point(|booking| booking.key.order(&key).is_lt())
    }

    /// Where the booking with the key is, or where it would go.
    pub(crate) fn search_key(&self, key: RunKey) -> Result<usize, usize>
        requires { IsAscendingBookings self.now }
        ensures found { IfOk result (IsPlaceOf self.now key) }
        ensures absent { IfErr result (IsGapFor self.now key) }
    {
        let at = self.below(key);
        if at == self.len() {
            return Err(at);
        }
        match self.at(at).key.order(&key) {
            Ordering::Equal => Ok(at),
            _ => Err(at),
        }
    }
}

impl<'a> Iterator for LentBookings<'a> {
    ghost use Rattle.std.specs.Iterator.{YieldsFirstRef, item_count};

    type Item = &'a Booking;

    ghost next_gives = { YieldsFirstRef (λ s. s) };

    ghost remaining = { item_count (λ s. s) };

    fn next(&mut self) -> Option<&'a Booking> {
        self.bookings.next()
    }
}
