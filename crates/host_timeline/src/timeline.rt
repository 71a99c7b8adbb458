//! The timeline: the bookings of a host, ascending by key, with reserved places.
ghost use Rattle.std.specs.Prelude.{◌≡◌, ◌+◌, ◌<◌, ◌≤◌, ◌&&◌, [], ℕ, Bool, false, None, Some, IfOk, IfErr, IfNone, IfSome, OnOk, is_some, if◌then◌else◌, length};
ghost use Rattle.std.specs.List.{filter_map, list_all};
ghost use Rattle.std.specs.Option.{is_none};
ghost use Rattle.ps_time.specs.Key.{key_cmp};
ghost use Rattle.ps_time.specs.declared.class.Class.{Class};
ghost use Rattle.ps_time.specs.Sorted.{IsAscending};
ghost use Rattle.host_timeline.specs.Booking.{conflicting, conflicting_after, can_preempt, firm, is_other, key_and, keys_of, least_key, without_conflicts};
ghost use Rattle.host_timeline.specs.Busy.{covers, is_busy, IsApart};
ghost use Rattle.host_timeline.specs.Free.{free_tiers};
ghost use Rattle.host_timeline.specs.Timeline.{find_booking, with_booking, without_booking, with_started, IsAscendingBookings, IsConflictFree, IsInOrder, IsPlaceOf, IsGapFor};
ghost use Rattle.host_timeline.specs.Lane.{how_many, same_class, Decide, Have, IsAscendingPlaces};
ghost use Rattle.host_timeline.specs.declared.booking.Booking.{Booking as SeenBooking};

use crate::booking::{Booking, started};
use crate::busy::Busy;
use crate::free_starts::{keep_firm, near_bookings, reach, windows_beside};
use crate::lanes::Lanes;
use crate::least_key::{add_conflicts, first_conflict, least_conflict, least_firm, lesser_of};
use crate::lent::LentBookings;
use ps_lists::placed_list::PlacedList;
use ps_lists::tiered_lent::Lent;
use ps_time::class::Class;
use ps_time::interval::{Interval, Window};
use ps_time::items::Items;
use ps_time::key::RunKey;
use ps_time::memory::Memory;
use ps_time::moment::{Length, Moment};
use ps_time::tiers::Tiers;
use std::alloc::Global;
use std::marker::Model;

/// The bookings of a host, at most one of a key, and places that are reserved for more.
#[derive(Drop)]
pub struct Timeline {
    bookings: PlacedList<Booking>,
    // the same bookings, by class and start
    lanes: Lanes,
    // what they take, by class
    busy: Busy,
    // how many are reserved in each list, taken or not
    places: usize,
}

impl Model for Timeline {
    ghost use Rattle.std.specs.Prelude.{◌-◌, length};
    ghost use Rattle.host_timeline.specs.Indexed.{IsIndexed};
    ghost use Rattle.host_timeline.specs.Timeline.{Timeline as Seen};

    ghost Value = { Seen };

    ghost view = { λ t. record { list = t.bookings.list; room = t.places - length t.bookings.list } };

    ghost invariant = { λ t. IsIndexed t.bookings.list t.bookings.places t.places t.lanes t.busy };
}

impl Timeline {
    /// A timeline without bookings, and without places for any.
    pub fn new(alloc: Global) -> Timeline
        ensures { result.list ≡ [] }
    {
        Timeline {
            bookings: PlacedList::new(alloc),
            lanes: Lanes::new(alloc),
            busy: Busy::new(alloc),
            places: 0,
        }
    }

    /// Reserves places, so that `book` can be called `count` times.
    pub fn reserve(&mut self, count: usize) -> Result<(), Memory>
        ensures same { self.new.list ≡ self.old.list }
        ensures never_less { self.old.room ≤ self.new.room }
        ensures ok { OnOk result (count ≤ self.new.room) }
    {
        let wanted = self.bookings.len().checked_add(count).ok_or(Memory)?;
        self.bookings.reserve(count)?;
        let places = self.places.max(wanted);
        self.lanes.reserve(places)?;
        self.busy.reserve(places)?;
        self.places = places;
        Ok(())
    }

    /// All bookings, ascending by key.
    pub fn bookings(&self) -> LentBookings<'_>
        ensures list { result ≡ self.now.list }
        ensures ascending { IsAscendingBookings self.now.list }
        ensures conflict_free { IsConflictFree self.now.list }
    {
        LentBookings::of(self.bookings.in_order())
    }

    /// The bookings of a class, ascending by start and then by key.
    pub fn by_start(&self, class: Class) -> LentBookings<'_>
        ensures same { (test : SeenBooking → Bool) → how_many test result ≡ how_many (λ b. same_class class b.class && test b) self.now.list }
        ensures ascending { IsAscendingPlaces result }
    {
        self.lanes.of(class)
    }

    /// The seconds that bookings take which conflict with a run of the class, as maximal intervals, ascending.
    pub fn busy(&self, class: Class) -> Lent<'_, Interval>
        ensures same { (second : ℕ) → covers result second ≡ is_busy class self.now.list second }
        ensures apart { IsApart result }
    {
        let _known = &self.bookings;
        self.busy.of(class)
    }

    /// The least key among the conflicts with a run that it may not preempt at the moment.
    pub fn firm_conflict(
        &self,
        class: Class,
        interval: &Interval,
        priority: i16,
        moment: Moment,
    ) -> Option<RunKey>
        ensures least { result ≡ least_key (keys_of (firm class interval.now priority moment self.now.list)) }
        ensures none { is_none result ≡ list_all (can_preempt priority moment) (conflicting class interval.now self.now.list) }
    {
        let (exclusive, normal) = self.at_odds(class, interval)?;
        lesser_of(
            least_firm(exclusive, class, interval, priority, moment),
            least_firm(normal, class, interval, priority, moment),
        )
    }

    /// The keys of all bookings in conflict with a run, ascending.
    pub fn conflicts(
        &self,
        alloc: Global,
        class: Class,
        interval: &Interval,
    ) -> Result<Items<RunKey>, Memory>
        ensures keys { IfOk result (λ keys. keys ≡ keys_of (conflicting class interval.now self.now.list)) }
        ensures ascending { IfOk result (λ keys. IsAscending key_cmp (λ k. k) keys) }
    {
        let _known = &self.bookings;
        let (exclusive, normal) = self.beside(class, interval.start, Some(interval.end));
        let mut keys = Vec::new(alloc);
        add_conflicts(&mut keys, exclusive, class, interval)?;
        add_conflicts(&mut keys, normal, class, interval)?;
        keys.sort()?;
        Ok(Items::from_vec(keys))
    }

    /// The bookings in conflict with a run, ascending by key. Only what is beside the interval is looked at.
    pub fn conflicting(
        &self,
        alloc: Global,
        class: Class,
        interval: &Interval,
    ) -> Result<Vec<Booking>, Memory>
        ensures { IfOk result (λ made. made.items ≡ conflicting class interval.now self.now.list) }
    {
        let _known = &self.bookings;
        let keys = self.conflicts(alloc, class, interval)?;
        self.bookings_of(alloc, keys.as_slice())
    }

    /// The least key above `after` among all bookings in conflict with a run; from `None` on it goes through the keys of all,
    /// ascending, and takes no memory.
    pub fn next_conflict(
        &self,
        class: Class,
        interval: &Interval,
        after: Option<RunKey>,
    ) -> Option<RunKey>
        ensures least { result ≡ least_key (keys_of (conflicting_after class interval.now after self.now.list)) }
        ensures walk { keys_of (conflicting_after class interval.now after self.now.list) ≡ key_and result (λ key. keys_of (conflicting_after class interval.now (Some key) self.now.list)) }
    {
        let _known = &self.bookings;
        let (exclusive, normal) = self.at_odds(class, interval)?;
        lesser_of(
            least_conflict(exclusive, class, interval, after),
            least_conflict(normal, class, interval, after),
        )
    }

    /// Where a run could start: the first 128 windows of the starts without a conflict, and of those whose conflicts it may
    /// all preempt at the moment.
    pub fn free(
        &self,
        alloc: Global,
        class: Class,
        length: Length,
        priority: i16,
        window: Window,
        moment: Moment,
    ) -> Result<Tiers, Memory>
        ensures { IfOk result (λ tiers. tiers ≡ free_tiers class length priority window moment self.now.list) }
    {
        let until = reach(&window, length);
        let (exclusive, normal) = self.beside(class, window.first, until);
        let mut near = near_bookings(alloc, exclusive, normal, class, length, &window)?;
        let first = windows_beside(alloc, near.as_slice(), length, &window)?;
        keep_firm(&mut near, priority, moment);
        let second = windows_beside(alloc, near.as_slice(), length, &window)?;
        Ok(Tiers { first, second })
    }

    /// Takes a booking in. What conflicts with it was released before.
    pub fn book(&mut self, booking: Booking)
        requires room { 0 < self.old.room }
        requires new_key { find_booking self.old.list booking.key ≡ None }
        requires no_conflict { conflicting booking.class booking.interval self.old.list ≡ [] }
        ensures list { self.new.list ≡ with_booking self.old.list booking }
        ensures room { self.new.room + 1 ≡ self.old.room }
    {
        self.put(&booking);
    }

    fn put(&mut self, booking: &Booking)
        requires room { 0 < self.old.room }
        requires new_key { find_booking self.old.list booking.now.key ≡ None }
        requires no_conflict { conflicting booking.now.class booking.now.interval self.old.list ≡ [] }
        ensures list { self.new.list ≡ with_booking self.old.list booking.now }
        ensures room { self.new.room + 1 ≡ self.old.room }
    {
        match self.search(booking.key) {
            Ok(_) => unreachable!(),
            Err(at) => {
                self.lanes.insert(booking);
                self.busy.cover(booking);
                self.bookings.insert(at, *booking)
            }
        }
    }

    /// Takes the booking of a key out; its place stays reserved. False for a key that no booking has.
    pub fn release(&mut self, key: RunKey) -> bool
        ensures found { result ≡ is_some (find_booking self.old.list key) }
        ensures list { self.new.list ≡ without_booking self.old.list key }
        ensures room { self.new.room ≡ self.old.room + (if result then 1 else 0) }
    {
        match self.search(key) {
            Ok(at) => {
                let last = last_place(&self.bookings);
                let booking = self.bookings.remove(at, last);
                self.lanes.remove(&booking);
                self.busy.uncover(&booking, &self.lanes);
                true
            }
            Err(_) => false,
        }
    }

    /// Takes each booking in conflict with a run out; their places stay reserved.
    pub fn release_conflicts(&mut self, class: Class, interval: &Interval)
        ensures list { self.new.list ≡ without_conflicts class interval.now self.old.list }
        ensures room { self.old.room ≤ self.new.room }
    {
        while let Some(key) = self.some_conflict(class, interval) {
            self.release(key);
        }
    }

    /// Says that the run of a key was started, so that it can't be preempted. Nothing changes for a key that no booking has.
    pub fn mark_started(&mut self, key: RunKey)
        ensures list { self.new.list ≡ with_started self.old.list key }
        ensures room { self.new.room ≡ self.old.room }
    {
        match self.search(key) {
            Ok(at) => {
                let booking = self.bookings[at];
                self.lanes.mark_started(&booking);
                self.bookings[at] = started(&booking);
            }
            Err(_) => {}
        }
    }

    // The bookings that the keys find, in the order of the keys.
    fn bookings_of(&self, alloc: Global, keys: &[RunKey]) -> Result<Vec<Booking>, Memory>
        ensures { IfOk result (λ made. made.items ≡ filter_map (find_booking self.now.list) keys.now) }
    {
        let mut made = Vec::new(alloc);
        for key in keys {
            if let Some(booking) = self.find(*key) {
                made.push(booking)?;
            }
        }
        Ok(made)
    }

    // The booking that the key finds.
    fn find(&self, key: RunKey) -> Option<Booking>
        ensures { result ≡ find_booking self.now.list key }
    {
        match self.search(key) {
            Ok(at) => Some(self.bookings[at]),
            Err(_) => None,
        }
    }

    // The key of some booking in conflict with a run, with the order of the bookings.
    fn some_conflict(&self, class: Class, interval: &Interval) -> Option<RunKey>
        ensures there { IfSome result (λ key. list_all (is_other class interval.now key) self.now.list ≡ false) }
        ensures none { IfNone result (conflicting class interval.now self.now.list ≡ []) }
        ensures ordered { IsAscendingBookings self.now.list }
    {
        let _known = &self.bookings;
        let (exclusive, normal) = self.at_odds(class, interval)?;
        match first_conflict(exclusive, class, interval) {
            Some(key) => Some(key),
            None => first_conflict(normal, class, interval),
        }
    }

    // The exclusive and the normal bookings among which those in conflict with a run are; `None` where what is busy tells that
    // there are none.
    fn at_odds(
        &self,
        class: Class,
        interval: &Interval,
    ) -> Option<(LentBookings<'_>, LentBookings<'_>)>
        ensures clear { IfNone result (conflicting class interval.now self.now.list ≡ []) }
        ensures decide { IfSome result (λ lanes. Decide class interval.now.start (Some interval.now.end) self.now.list lanes.0 lanes.1) }
    {
        let _known = &self.bookings;
        let from = interval.start;
        let until = Some(interval.end);
        let earliest = self.busy.reach_back(class, from);
        if self.lanes.are_clear(class, earliest, from, until) {
            return None;
        }
        Some(self.lanes.beside(class, earliest, from, until))
    }

    // The exclusive and the normal bookings that a run of the class has to look at.
    fn beside(
        &self,
        class: Class,
        from: Moment,
        until: Option<Moment>,
    ) -> (LentBookings<'_>, LentBookings<'_>)
        ensures have { Have class from until self.now.list result.0 result.1 }
        ensures decide { Decide class from until self.now.list result.0 result.1 }
    {
        let _known = &self.bookings;
        let earliest = self.busy.reach_back(class, from);
        self.lanes.beside(class, earliest, from, until)
    }

    // Where the key is, or where it would go.
    fn search(&self, key: RunKey) -> Result<usize, usize>
        ensures found { IfOk result (IsPlaceOf self.now.list key) }
        ensures absent { IfErr result (IsGapFor self.now.list key) }
        ensures ordered { IsInOrder self.now.list }
    {
        self.bookings().search_key(key)
    }
}

// Where the booking in the last cell stands.
fn last_place(bookings: &PlacedList<Booking>) -> usize
    requires some { 0 < length bookings.now.list }
    requires ascending { IsAscendingBookings bookings.now.list }
    ensures { result ≡ bookings.now.last }
{
    let key = bookings.last_cell().key;
    LentBookings::of(bookings.in_order()).below(key)
}
