//! Rows that lie over those of a book: copies of the ones that lapsed or were changed, and keys of the ones that went.
ghost use Rattle.std.specs.Prelude.{◌≡◌, ◌≤◌, [], All, IfOk, OnErr, OnOk, Some, None, filter, find, is_some, not, option_map};
ghost use Rattle.std.specs.List.{last_or};
ghost use Rattle.std.specs.Option.{option_copied};
ghost use Rattle.std.specs.Ordering.{is_eq};
ghost use Rattle.ps_time.specs.declared.moment.TheConstants.{MAX_MOMENT};
ghost use Rattle.run_states.specs.Life.{HasMoments, settled_row};
ghost use Rattle.run_states.specs.Preemption.{starts_after, yields};
ghost use Rattle.run_states.specs.Rows.{find_row};
ghost use Rattle.run_states.specs.TaskRows.{rows_of_task};
ghost use Rattle.host_model.specs.Apply.{put_new};
ghost use Rattle.host_timeline.specs.Booking.{conflicting_after, is_after, keys_of, lesser_of};
ghost use Rattle.host_rows.specs.Deadlines.{due_keys};
ghost use Rattle.draft_parts.specs.Overlay.{hard_below, below, hides, is_hard, lapsed_copy, lapsed_over, later, meets, meets_below, named, over};

use host_rows::deadlines::Deadlines;
use host_timeline::timeline::Timeline;
use ps_time::class::Class;
use ps_time::interval::Interval;
use ps_time::items::Items;
use ps_time::key::RunKey;
use ps_time::memory::Memory;
use ps_time::moment::{Moment, ON_DECK};
use run_states::lent::LentRows;
use run_states::row::RunRow;
use run_states::rows::Rows;
use std::alloc::Global;

/// Which row is asked for: one in conflict with a run, above a key, if there is one, and not to be preempted at a
/// priority, if there is one.
#[derive(Clone, Copy)]
pub struct Sought {
    /// The run, which is never sought itself.
    pub key: RunKey,
    /// Its class.
    pub class: Class,
    /// When it is to run.
    pub interval: Interval,
    /// Above which key; `None` where any will do.
    pub after: Option<RunKey>,
    /// At which priority the row stands firm; `None` where that isn't asked.
    pub priority: Option<i16>,
}

/// Copies of those of the book's rows that lapse by the moment, closed, where these are the deadlines of all.
pub fn lapsed(
    alloc: Global,
    deadlines: &Deadlines,
    book: &Rows,
    moment: Moment,
) -> Result<Rows, Memory>
    requires { All HasMoments book.now.list }
    ensures { IfOk result (λ made. made.list ≡ lapsed_over moment book.now.list (due_keys moment deadlines.now.list) []) }
{
    let mut made = Rows::new(alloc);
    for place in 0..deadlines.len() {
        let Some(key) = deadlines.due(place, moment) else {
            return Ok(made);
        };
        put_lapsed(alloc, &mut made, book, key, moment)?;
    }
    Ok(made)
}

fn put_lapsed(
    alloc: Global,
    touched: &mut Rows,
    book: &Rows,
    key: RunKey,
    moment: Moment,
) -> Result<(), Memory>
    requires { All HasMoments book.now.list }
    ensures { OnOk result (touched.new.list ≡ put_new (lapsed_copy moment (find_row book.now.list key)) touched.old.list) }
{
    let Some(row) = book.find(key) else {
        return Ok(());
    };
    if row.lapse(moment).is_none() {
        return Ok(());
    }
    put_settled(alloc, touched, row, moment)
}

fn put_settled(
    alloc: Global,
    touched: &mut Rows,
    row: &RunRow,
    moment: Moment,
) -> Result<(), Memory>
    requires { HasMoments row.now }
    ensures { OnOk result (touched.new.list ≡ put_new (Some (settled_row moment row.now)) touched.old.list) }
{
    if has(touched, row.key) {
        return Ok(());
    }
    touched.reserve(1)?;
    let copy = settled_copy(alloc, row, moment)?;
    touched.put(copy);
    Ok(())
}

fn has(rows: &Rows, key: RunKey) -> bool
    ensures { result ≡ is_some (find_row rows.now.list key) }
{
    rows.find(key).is_some()
}

fn settled_copy(alloc: Global, row: &RunRow, moment: Moment) -> Result<RunRow, Memory>
    requires { HasMoments row.now }
    ensures value { IfOk result (λ made. made ≡ settled_row moment row.now) }
    ensures key { IfOk result (λ made. made.key ≡ row.now.key) }
{
    let mut copy = row.copy(alloc)?;
    copy.settle(moment);
    Ok(copy)
}

/// Whether the key is one of these.
pub(crate) fn is_named(key: RunKey, keys: &[RunKey]) -> bool
    ensures { result ≡ named key keys.now }
{
    for other in keys {
        if other.order(&key).is_eq() {
            return true;
        }
    }
    false
}

/// The row of the key as it is now.
pub fn find_over<'a>(
    touched: &'a Rows,
    gone: &[RunKey],
    book: &'a Rows,
    key: RunKey,
) -> Option<&'a RunRow>
    ensures { option_copied result ≡ over touched.now.list gone.now book.now.list key }
{
    match touched.find(key) {
        Some(row) => Some(row),
        None => find_below(gone, book, key),
    }
}

fn find_below<'a>(gone: &[RunKey], book: &'a Rows, key: RunKey) -> Option<&'a RunRow>
    ensures { option_copied result ≡ below gone.now book.now.list key }
{
    if is_named(key, gone) {
        return None;
    }
    book.find(key)
}

/// Whether the book's row of the key isn't the one of now.
pub(crate) fn is_hidden(touched: &Rows, gone: &[RunKey], key: RunKey) -> bool
    ensures { result ≡ hides touched.now.list gone.now key }
{
    has(touched, key) || is_named(key, gone)
}

/// The first of these rows that is sought.
pub fn first_sought(rows: LentRows<'_>, sought: &Sought, moment: Moment) -> Option<RunKey>
    requires { moment ≤ MAX_MOMENT }
    ensures { result ≡ option_map (λ r. r.key) (find (meets moment sought.now) rows.entry) }
{
    for row in rows {
        if meets(row, sought, moment) {
            return Some(row.key);
        }
    }
    None
}

fn meets(row: &RunRow, sought: &Sought, moment: Moment) -> bool
    requires { moment ≤ MAX_MOMENT }
    ensures { result ≡ meets moment sought.now row.now }
{
    row.is_in_conflict(sought.key, sought.class, &sought.interval)
        && is_after(sought.after, row.key)
        && is_hard(row, sought.priority, moment)
}

fn is_after(low: Option<RunKey>, key: RunKey) -> bool
    ensures { result ≡ is_after low key }
{
    match low {
        Some(low) => low.order(&key).is_lt(),
        None => true,
    }
}

fn is_hard(row: &RunRow, priority: Option<i16>, moment: Moment) -> bool
    requires { moment ≤ MAX_MOMENT }
    ensures { result ≡ is_hard moment priority row.now }
{
    match priority {
        Some(priority) => !yields(row, priority, moment),
        None => true,
    }
}

// Whether a run of this priority may preempt the row at the moment.
fn yields(row: &RunRow, priority: i16, moment: Moment) -> bool
    requires { moment ≤ MAX_MOMENT }
    ensures { result ≡ yields priority moment row.now }
{
    row.priority < priority && row.started.is_none() && starts_after(row, moment + ON_DECK)
}

fn starts_after(row: &RunRow, moment: Moment) -> bool
    ensures { result ≡ starts_after moment row.now.interval }
{
    match row.interval {
        Some(interval) => moment < interval.start,
        None => false,
    }
}

/// The key of the first of the book's rows that is sought, and is as it was; of what the book's rows reserve.
pub fn first_below(
    timeline: &Timeline,
    book: &Rows,
    touched: &Rows,
    gone: &[RunKey],
    sought: &Sought,
    moment: Moment,
) -> Option<RunKey>
    requires { moment ≤ MAX_MOMENT }
    ensures { result ≡ find (meets_below moment sought.now touched.now.list gone.now book.now.list)
        (keys_of (conflicting_after sought.now.class sought.now.interval sought.now.after timeline.now.list)) }
{
    let mut last = sought.after;
    while let Some(key) = timeline.next_conflict(sought.class, &sought.interval, last) {
        if meets_below(book, touched, gone, sought, moment, key) {
            return Some(key);
        }
        last = Some(key);
    }
    None
}

fn meets_below(
    book: &Rows,
    touched: &Rows,
    gone: &[RunKey],
    sought: &Sought,
    moment: Moment,
    key: RunKey,
) -> bool
    requires { moment ≤ MAX_MOMENT }
    ensures { result ≡ meets_below moment sought.now touched.now.list gone.now book.now.list key }
{
    !key.order(&sought.key).is_eq()
        && !is_hidden(touched, gone, key)
        && is_hard_at(book, sought, moment, key)
}

fn is_hard_at(book: &Rows, sought: &Sought, moment: Moment, key: RunKey) -> bool
    requires { moment ≤ MAX_MOMENT }
    ensures { result ≡ hard_below moment sought.now (find_row book.now.list key) }
{
    match book.find(key) {
        Some(row) => is_hard(row, sought.priority, moment),
        None => true,
    }
}

/// The lesser of two keys that may be there.
pub fn lesser_of(a: Option<RunKey>, b: Option<RunKey>) -> Option<RunKey>
    ensures { result ≡ lesser_of a b }
{
    match (a, b) {
        (Some(a), Some(b)) if b.order(&a).is_lt() => Some(b),
        (Some(a), _) => Some(a),
        (None, b) => b,
    }
}

/// The last of these rows that is as it was.
pub(crate) fn last_bare<'a>(
    rows: LentRows<'a>,
    touched: &Rows,
    gone: &[RunKey],
) -> Option<&'a RunRow>
    ensures { option_copied result ≡ last_or None (filter (λ r. not (hides touched.now.list gone.now r.key)) rows.entry) }
{
    let mut end = rows.len();
    while 0 < end {
        end -= 1;
        let row = rows.at(end);
        if !is_hidden(touched, gone, row.key) {
            return Some(row);
        }
    }
    None
}

/// The newest row of the task of those of the book that are as they were: the newest of all, unless it is hidden.
pub fn newest_bare<'a>(
    book: &'a Rows,
    touched: &Rows,
    gone: &[RunKey],
    lead: u16,
    serial: u32,
) -> Option<&'a RunRow>
    ensures { option_copied result ≡ last_or None (filter (λ r. not (hides touched.now.list gone.now r.key)) (rows_of_task lead serial book.entry.now.list)) }
{
    let row = book.newest_of_task(lead, serial)?;
    if is_hidden(touched, gone, row.key) {
        return last_bare(book.task_rows(lead, serial), touched, gone);
    }
    Some(row)
}

/// The row of two, if they are there, whose key is the greater.
pub fn later<'a>(a: Option<&'a RunRow>, b: Option<&'a RunRow>) -> Option<&'a RunRow>
    ensures { option_copied result ≡ later (option_copied a.entry) (option_copied b.entry) }
{
    match (a, b) {
        (Some(a), Some(b)) if a.key.order(&b.key).is_lt() => Some(b),
        (Some(a), _) => Some(a),
        (None, b) => b,
    }
}

/// Puts a copy of the book's row beside those that lie over the book, unless there is one.
pub fn touch(
    alloc: Global,
    touched: &mut Rows,
    gone: &[RunKey],
    book: &Rows,
    key: RunKey,
) -> Result<(), Memory>
    ensures ok { OnOk result (touched.new.list ≡ put_new (below gone.now book.now.list key) touched.old.list) }
    ensures err { OnErr result (touched.new.list ≡ touched.old.list) }
{
    let Some(row) = find_below(gone, book, key) else {
        return Ok(());
    };
    if has(touched, row.key) {
        return Ok(());
    }
    touched.reserve(1)?;
    touched.put(row.copy(alloc)?);
    Ok(())
}
