//! What decisions read of a draft.
ghost use Rattle.std.specs.Prelude.{◌≡◌, find, option_map};
ghost use Rattle.draft_parts.specs.Overlay.{meets};

use crate::draft::Draft;
use draft_parts::gather::{bookings_over, reach, timeline_of};
use draft_parts::overlay::{
    Sought, find_over, first_below, first_sought, later, lesser_of, newest_bare,
};
use lead_core::leading::Leading;
use limit_apply::limits::Limits;
use part_core::reading::Reading;
use ps_time::class::Class;
use ps_time::interval::{Interval, Window};
use ps_time::key::RunKey;
use ps_time::memory::Memory;
use ps_time::moment::{Length, Moment};
use ps_time::tiers::Tiers;
use run_states::row::RunRow;
use std::alloc::Global;

impl<'a> Draft<'a> {
    // The least key of the rows that are sought.
    fn sought(&self, sought: &Sought) -> Option<RunKey>
        ensures { result ≡ option_map (λ r. r.key) (find (meets self.now.draft.book.moment sought.now) self.now.draft.book.rows) }
    {
        let rows = self.book.rows();
        let gone = self.gone.as_slice();
        let over = first_sought(self.touched.in_order(), sought, self.moment);
        let below = first_below(
            self.book.timeline(),
            rows,
            &self.touched,
            gone,
            sought,
            self.moment,
        );
        lesser_of(over, below)
    }
}

impl<'a> Reading for Draft<'a> {
    ghost use Rattle.host_model.specs.Book.{latest_epoch};

    ghost at = { λ d. d.draft.book.moment };

    ghost seen = { λ d. d.draft.book.rows };

    ghost in_force = { λ d. d.limits };

    ghost latest = { λ d. latest_epoch d.draft.book };

    fn moment(&self) -> Moment {
        self.moment
    }

    fn find(&self, key: RunKey) -> Option<&RunRow> {
        find_over(&self.touched, self.gone.as_slice(), self.book.rows(), key)
    }

    fn firm_conflict(
        &self,
        key: RunKey,
        class: Class,
        interval: &Interval,
        priority: i16,
    ) -> Option<RunKey> {
        self.sought(&Sought {
            key,
            class,
            interval: *interval,
            after: None,
            priority: Some(priority),
        })
    }

    fn next_conflict(
        &self,
        key: RunKey,
        class: Class,
        interval: &Interval,
        after: Option<RunKey>,
    ) -> Option<RunKey> {
        self.sought(&Sought {
            key,
            class,
            interval: *interval,
            after,
            priority: None,
        })
    }

    fn free(
        &self,
        alloc: Global,
        class: Class,
        length: Length,
        priority: i16,
        window: Window,
    ) -> Result<Tiers, Memory> {
        let _known = self.book.rows();
        let reach = reach(length, &window);
        let bookings = bookings_over(
            alloc,
            self.book.timeline(),
            &self.touched,
            self.gone.as_slice(),
            class,
            &reach,
        )?;
        let timeline = timeline_of(alloc, bookings.as_slice())?;
        timeline.free(alloc, class, length, priority, window, self.moment)
    }

    fn len(&self) -> usize {
        self.count
    }

    fn result_bytes(&self) -> u64 {
        self.bytes
    }

    fn limits(&self) -> &Limits {
        self.limits
    }

    fn epoch(&self) -> u32 {
        self.epoch
    }
}

impl<'a> Leading for Draft<'a> {
    fn newest(&self, lead: u16, serial: u32) -> Option<&RunRow> {
        let _known = self.touched.in_order();
        let over = self.touched.newest_of_task(lead, serial);
        let below = newest_bare(
            self.book.rows(),
            &self.touched,
            self.gone.as_slice(),
            lead,
            serial,
        );
        later(over, below)
    }
}
