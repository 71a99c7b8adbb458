//! The runs of a schedule, in order.
ghost use Rattle.std.specs.Prelude.{◌≡◌, ◌++◌, ◌≤◌, IfOk, OnOk, filter_map};
ghost use Rattle.ps_time.specs.declared.moment.TheConstants.{MAX_MOMENT};
ghost use Rattle.run_states.specs.Life.{HasMoments};
ghost use Rattle.run_states.specs.Rows.{IsAscendingRows};
ghost use Rattle.host_model.specs.Book.{keys_of_rows};
ghost use Rattle.host_model.specs.Views.{in_order, line_cmp, line_of, schedule_lines};
ghost use Rattle.host_pages.specs.Walks.{HaveKeysAscending, line_at};

use crate::showing::Showing;
use host_model::view::Line;
use plugin_core::test_spec::class_of;
use ps_time::items::Items;
use ps_time::key::RunKey;
use ps_time::memory::Memory;
use ps_time::moment::Moment;
use run_states::life::state_name;
use run_states::row::RunRow;
use std::alloc::Global;
use std::cmp::Ordering;

/// The runs that overlap the interval from start to end, by start, then by end, then by key.
pub(crate) fn schedule_lines<R: Showing>(
    alloc: Global,
    book: &R,
    start: Moment,
    end: Moment,
) -> Result<Items<Line>, Memory>
    ensures { IfOk result (λ lines. lines ≡ schedule_lines (R.seen book.now) (R.at book.now) (record { start = start; end = end })) }
{
    let mut lines = Vec::new(alloc);
    add_lines(book, start, end, &mut lines)?;
    sort(&mut lines)?;
    Ok(Items::from_vec(lines))
}

// Adds the line of each run that overlaps: a walk from one run to the next.
fn add_lines<R: Showing>(
    book: &R,
    start: Moment,
    end: Moment,
    lines: &mut Vec<Line>,
) -> Result<(), Memory>
    ensures list { OnOk result (lines.new.items ≡ lines.old.items ++ filter_map (line_at (R.at book.now) (record { start = start; end = end }) (R.seen book.now)) (keys_of_rows (R.seen book.now))) }
    ensures ascending { IsAscendingRows (R.seen book.now) }
{
    let mut last = None;
    while let Some(key) = book.next_row(last) {
        if let Some(line) = line_at(book, start, end, key) {
            lines.push(line)?;
        }
        last = Some(key);
    }
    Ok(())
}

fn line_at<R: Showing>(book: &R, start: Moment, end: Moment, key: RunKey) -> Option<Line>
    ensures { result ≡ line_at (R.at book.now) (record { start = start; end = end }) (R.seen book.now) key }
{
    let row = book.find(key)?;
    line_of(row, start, end, book.moment())
}

fn line_of(row: &RunRow, start: Moment, end: Moment, moment: Moment) -> Option<Line>
    requires bound { moment ≤ MAX_MOMENT }
    requires row { HasMoments row.now }
    ensures { result ≡ line_of moment (record { start = start; end = end }) row.now row.now.interval }
{
    let interval = row.interval?;
    if interval.start < end && start < interval.end {
        Some(Line {
            key: row.key,
            class: class_of(&row.test),
            interval,
            priority: row.priority,
            state: state_name(row, moment),
        })
    } else {
        None
    }
}

fn sort(lines: &mut Vec<Line>) -> Result<(), Memory>
    requires { HaveKeysAscending lines.old.items }
    ensures { OnOk result (lines.new.items ≡ in_order lines.old.items) }
{
    lines.sort_by(|a, b| order(a, b))?;
    Ok(())
}

fn order(a: &Line, b: &Line) -> Ordering
    ensures { result ≡ line_cmp a.now b.now }
{
    a.interval
        .start
        .cmp(&b.interval.start)
        .then(a.interval.end.cmp(&b.interval.end))
        .then(a.key.order(&b.key))
}
