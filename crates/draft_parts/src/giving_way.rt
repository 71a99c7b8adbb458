//! How rows that lie over those of a book give way to a run that is accepted.
ghost use Rattle.std.specs.Prelude.{◌≡◌, ◌≤◌, IfOk, OnOk};
ghost use Rattle.ps_time.specs.declared.moment.TheConstants.{MAX_LENGTH, MAX_MOMENT};
ghost use Rattle.plugin_core.specs.TestSpec.{test_length};
ghost use Rattle.run_states.specs.Preemption.{conflicts};
ghost use Rattle.run_states.specs.Rows.{IsAscendingRows};
ghost use Rattle.host_timeline.specs.Booking.{conflicting, keys_of};
ghost use Rattle.host_rows.specs.Closing.{closed_keys};
ghost use Rattle.host_model.specs.Apply.{put_new};
ghost use Rattle.host_model.specs.Book.{keys_of_rows};
ghost use Rattle.draft_parts.specs.Overlay.{below, over};
ghost use Rattle.draft_parts.specs.Way.{planned_way, touched_each};

use crate::overlay::touch;
use host_timeline::timeline::Timeline;
use plugin_core::test_spec::{class_of, length_of};
use ps_time::class::Class;
use ps_time::interval::Interval;
use ps_time::key::RunKey;
use ps_time::memory::Memory;
use ps_time::moment::Moment;
use run_states::lent::LentRows;
use run_states::row::RunRow;
use run_states::rows::Rows;
use run_states::why::{Closing, Why};
use std::alloc::Global;

/// A run that is accepted. What is booked and in conflict with it gives way.
#[derive(Clone, Copy)]
pub struct Incoming {
    /// The run.
    pub key: RunKey,
    /// Its class.
    pub class: Class,
    /// When it is to run.
    pub interval: Interval,
}

/// The run of the row, which is accepted for this start.
pub fn planned_way(row: &RunRow, start: Moment) -> Incoming
    requires start { start ≤ MAX_MOMENT }
    requires length { (1 ≤ test_length row.now.test) × (test_length row.now.test ≤ MAX_LENGTH) }
    ensures { result ≡ planned_way start row.now }
{
    Incoming {
        key: row.key,
        class: class_of(&row.test),
        interval: Interval {
            start,
            end: start + length_of(&row.test),
        },
    }
}

/// Puts copies of the run's row, and of the rows in conflict with it, beside those that lie over the book, so that they can
/// change without memory. Answers the keys of those in conflict.
pub fn copy_way(
    alloc: Global,
    touched: &mut Rows,
    gone: &[RunKey],
    book: &Rows,
    timeline: &Timeline,
    run: &Incoming,
) -> Result<Vec<RunKey>, Memory>
    ensures same { (k : RunKey) → over touched.new.list gone.now book.now.list k ≡ over touched.old.list gone.now book.now.list k }
    ensures touched { IfOk result (λ keys. touched.new.list ≡ put_new (below gone.now book.now.list run.now.key) (touched_each gone.now book.now.list (keys_of (conflicting run.now.class run.now.interval timeline.now.list)) touched.old.list)) }
    ensures keys { IfOk result (λ keys. keys.items ≡ keys_of_rows (conflicts run.now.key run.now.class run.now.interval touched.new.list)) }
    ensures ascending { IfOk result (λ keys. IsAscendingRows touched.new.list) }
{
    touch_conflicts(alloc, touched, gone, book, timeline, run)?;
    touch(alloc, touched, gone, book, run.key)?;
    keys_in_conflict(alloc, touched.in_order(), run)
}

fn touch_conflicts(
    alloc: Global,
    touched: &mut Rows,
    gone: &[RunKey],
    book: &Rows,
    timeline: &Timeline,
    run: &Incoming,
) -> Result<(), Memory>
    ensures same { (k : RunKey) → over touched.new.list gone.now book.now.list k ≡ over touched.old.list gone.now book.now.list k }
    ensures touched { OnOk result (touched.new.list ≡ touched_each gone.now book.now.list (keys_of (conflicting run.now.class run.now.interval timeline.now.list)) touched.old.list) }
{
    let mut last = None;
    while let Some(key) = timeline.next_conflict(run.class, &run.interval, last) {
        touch(alloc, touched, gone, book, key)?;
        last = Some(key);
    }
    Ok(())
}

fn keys_in_conflict(
    alloc: Global,
    rows: LentRows<'_>,
    run: &Incoming,
) -> Result<Vec<RunKey>, Memory>
    ensures { IfOk result (λ keys. keys.items ≡ keys_of_rows (conflicts run.now.key run.now.class run.now.interval rows.entry)) }
{
    let mut keys = Vec::new(alloc);
    for row in rows {
        if row.is_in_conflict(run.key, run.class, &run.interval) {
            keys.push(row.key)?;
        }
    }
    Ok(keys)
}

/// Closes the rows of these keys at the moment in favour of a run.
pub fn close_each(rows: &mut Rows, keys: &[RunKey], run: RunKey, moment: Moment)
    ensures { rows.new.list ≡ closed_keys moment run keys.now rows.old.list }
{
    for key in keys {
        let why = Why::Preempted(run);
        rows.close(*key, Closing { moment, why });
    }
}
