//! The draft of a step: a host's book as it is within the step, and the changes that the step has made so far.
ghost use Rattle.std.specs.Prelude.{◌≡◌, ◌≤◌, [], IfOk};
ghost use Rattle.ps_time.specs.declared.moment.TheConstants.{MAX_MOMENT};
ghost use Rattle.ps_time.specs.declared.key.RunKey.{RunKey};
ghost use Rattle.run_states.specs.Life.{settled_rows};
ghost use Rattle.run_states.specs.Rows.{find_row};
ghost use Rattle.host_draft.specs.Draft.{is_full, opened};
ghost use Rattle.draft_parts.specs.Overlay.{over};

use draft_parts::log::Log;
use draft_parts::overlay::lapsed;
use host_book::book::HostBook;
use host_model::change::Change;
use host_model::task_row::TaskRow;
use limit_apply::limits::Limits;
use ps_time::items::Items;
use ps_time::key::RunKey;
use ps_time::memory::Memory;
use ps_time::moment::Moment;
use run_states::row::RunRow;
use run_states::rows::Rows;
use std::alloc::Global;
use std::marker::Model;

/// The most changes of a step.
pub const MOST_CHANGES: usize = 64;

/// As many bytes as the changes of a step may take in their record: 4 MiB without its moment and its count.
pub const MOST_CHANGE_BYTES: u64 = 4_194_292;

/// A host's book as it is within a step, over the book that the step began with, which stays as it is.
#[derive(Drop)]
pub struct Draft<'a> {
    pub(crate) book: &'a HostBook,
    pub(crate) moment: Moment,
    // in force
    pub(crate) limits: &'a Limits,
    pub(crate) epoch: u32,
    // copies of the rows that lapsed by the moment or were changed, and new ones, as they are now
    pub(crate) touched: Rows,
    // the keys of rows that went
    pub(crate) gone: Vec<RunKey>,
    // how many rows there are now
    pub(crate) count: usize,
    // of the results that the rows keep now
    pub(crate) bytes: u64,
    pub(crate) log: Log,
}

impl<'a> Model for Draft<'a> {
    ghost use Rattle.host_draft.specs.Draft.{IsDraft, Seen, book_now};

    ghost Value = { Seen };

    ghost view = { λ d. record {
      number = d.book.now.number;
      limits = d.limits.now;
      draft = record { book = book_now d.moment d.log.changes d.book.now.book; changes = d.log.changes; places = d.log.places; left = d.log.left };
    } };

    ghost invariant = { λ d. IsDraft d.book.now.number d.moment d.book.now.book (book_now d.moment d.log.changes d.book.now.book) d.touched.list d.gone.items d.epoch d.count d.bytes d.log.left };
}

impl<'a> Draft<'a> {
    /// Of the book as it settles at the moment, in seconds since 1970 UTC, without changes; `first` are the limits of
    /// the configuration, which hold where none were set. Of the rows it looks at those alone whose deadline has come by then,
    /// and copies the ones that lapse.
    pub fn new(
        alloc: Global,
        book: &'a HostBook,
        first: &'a Limits,
        moment: Moment,
    ) -> Result<Draft<'a>, Memory>
        requires later { book.now.book.moment ≤ moment }
        requires bound { moment ≤ MAX_MOMENT }
        ensures { IfOk result (λ d. d ≡ opened book.now.number moment first.now book.now.book) }
    {
        let Ok(epoch) = u32::try_from(book.epochs().len()) else {
            return Err(Memory);
        };
        let bytes = book.result_bytes();
        if u64::MAX - MOST_CHANGE_BYTES < bytes {
            return Err(Memory);
        }
        let touched = lapsed_rows(alloc, book, moment)?;
        Ok(Draft {
            book,
            moment,
            limits: book.limits(first),
            epoch,
            touched,
            gone: Vec::new(alloc),
            count: book.rows().len(),
            bytes,
            log: Log::new(alloc, MOST_CHANGES, MOST_CHANGE_BYTES),
        })
    }

    /// The changes so far, in order.
    pub fn changes(&self) -> &[Change]
        ensures { result.now ≡ self.now.draft.changes }
    {
        self.log.changes()
    }

    /// Takes the changes out.
    pub fn into_changes(self) -> Items<Change>
        ensures { result ≡ self.entry.draft.changes }
    {
        self.log.into_changes()
    }

    /// Whether the step makes no more changes.
    pub fn is_full(&self) -> bool
        ensures { result ≡ is_full self.now.draft }
    {
        self.log.is_full()
    }

    /// The tasks, with the serials 1, 2, 3 and so on; they stay as they are while the draft changes.
    pub fn tasks(&self) -> &'a [TaskRow]
        ensures { result.now ≡ self.now.draft.book.tasks }
    {
        self.book.tasks()
    }

    /// The limits that were set, numbered from 1; they stay as they are while the draft changes.
    pub fn epochs(&self) -> &'a [Limits]
        ensures { result.now ≡ self.now.draft.book.epochs }
    {
        self.book.epochs()
    }
}

// Copies of the rows that lapse by the moment, closed, to lie over those of the book.
fn lapsed_rows(alloc: Global, book: &HostBook, moment: Moment) -> Result<Rows, Memory>
    ensures { IfOk result (λ made. (k : RunKey) → find_row (settled_rows moment book.now.book.rows) k ≡ over made.list [] book.now.book.rows k) }
{
    if !book.may_lapse(moment) {
        return Ok(Rows::new(alloc));
    }
    lapsed(alloc, book.deadlines(), book.rows(), moment)
}
