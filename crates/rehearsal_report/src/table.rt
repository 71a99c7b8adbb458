//! The table of a host's runs at the end of a report.
ghost use Rattle.std.specs.Prelude.{◌≡◌, ◌++◌, ◌≤◌, All, IfOk, OnOk, map, flat_map};
ghost use Rattle.ps_time.specs.declared.moment.TheConstants.{MAX_MOMENT};
ghost use Rattle.run_states.specs.Life.{settled_row, settled_rows, state_of, HasMoments};
ghost use Rattle.rehearsal_report.specs.Table.{entry_of, interval_cmp, entry_cmp, ordered, entry_text, entry_line, table_text};

use crate::report::ReportText;
use crate::shown::ShownRun;
use plugin_core::test_spec::class_of;
use ps_time::class::Class;
use ps_time::interval::Interval;
use ps_time::key::RunKey;
use ps_time::memory::Memory;
use ps_time::moment::Moment;
use run_states::lent::LentRows;
use run_states::life::{state_name, state_of_closed};
use run_states::row::RunRow;
use run_states::state::State;
use std::alloc::Global;
use std::cmp::Ordering;
use std::fmt;

/// What a table shows of a run.
#[derive(Clone, Copy)]
struct Entry {
    interval: Option<Interval>,
    key: RunKey,
    class: Class,
    priority: i16,
    state: State,
}

impl Entry {
    fn order(&self, other: &Entry) -> Ordering
        ensures { result ≡ entry_cmp self.now other.now }
    {
        interval_order(self.interval, other.interval).then(self.key.cmp(&other.key))
    }
}

/// By start, then by end; where there is none comes last.
fn interval_order(a: Option<Interval>, b: Option<Interval>) -> Ordering
    ensures { result ≡ interval_cmp a b }
{
    match (a, b) {
        (Some(a), Some(b)) => a.start.cmp(&b.start).then(a.end.cmp(&b.end)),
        (Some(_), None) => Ordering::Less,
        (None, Some(_)) => Ordering::Greater,
        (None, None) => Ordering::Equal,
    }
}

/// Start and end, or a dash for each.
#[derive(Drop)]
struct ShownInterval(Option<Interval>);

impl fmt::Display for ShownInterval {
    ghost use Rattle.std.specs.Prelude.{Some};
    ghost use Rattle.rehearsal_report.specs.Table.{interval_text};

    ghost output = { λ s. Some (interval_text s.0) };

    fn fmt<W: fmt::Write>(&self, f: &mut fmt::Formatter<W>) -> fmt::Result {
        match self.0 {
            None => f.write_str("- -"),
            Some(interval) => {
                let (start, end) = (interval.start, interval.end);
                write!(f, "{start} {end}")
            }
        }
    }
}

/// Class and priority.
#[derive(Drop)]
struct ShownStanding(Class, i16);

impl fmt::Display for ShownStanding {
    ghost use Rattle.std.specs.Prelude.{Some};
    ghost use Rattle.rehearsal_report.specs.Table.{standing_text};

    ghost output = { λ s. Some (standing_text s.0 s.1) };

    fn fmt<W: fmt::Write>(&self, f: &mut fmt::Formatter<W>) -> fmt::Result {
        let (class, priority) = (self.0, self.1);
        write!(f, "{class} {priority}")
    }
}

impl fmt::Display for Entry {
    ghost use Rattle.std.specs.Prelude.{Some};

    ghost output = { λ e. Some (entry_text e) };

    fn fmt<W: fmt::Write>(&self, f: &mut fmt::Formatter<W>) -> fmt::Result {
        let interval = ShownInterval(self.interval);
        let standing = ShownStanding(self.class, self.priority);
        let state = self.state;
        let run = ShownRun(self.key);
        write!(f, "{interval} {standing} {state} {run}")
    }
}

/// The state of the row once it is settled at the moment.
pub fn settled_state(row: &RunRow, moment: Moment) -> State
    requires moment { moment ≤ MAX_MOMENT }
    requires row { HasMoments row.now }
    ensures { result ≡ state_of (settled_row moment row.now) moment }
{
    match row.lapse(moment) {
        Some(closing) => state_of_closed(&closing.why),
        None => state_name(row, moment),
    }
}

fn entry_of(row: &RunRow, moment: Moment) -> Entry
    requires moment { moment ≤ MAX_MOMENT }
    requires row { HasMoments row.now }
    ensures { result ≡ entry_of moment (settled_row moment row.now) }
{
    Entry {
        interval: row.interval,
        key: row.key,
        class: class_of(&row.test),
        priority: row.priority,
        state: settled_state(row, moment),
    }
}

fn entries_of(alloc: Global, rows: LentRows<'_>, moment: Moment) -> Result<Vec<Entry>, Memory>
    requires moment { moment ≤ MAX_MOMENT }
    requires rows { All HasMoments rows }
    ensures { IfOk result (λ v. v.items ≡ map (entry_of moment) (settled_rows moment rows.entry)) }
{
    let mut entries = Vec::new(alloc);
    for row in rows {
        entries.push(entry_of(row, moment))?;
    }
    Ok(entries)
}

fn sort(entries: &mut Vec<Entry>) -> Result<(), Memory>
    ensures { OnOk result (entries.new.items ≡ ordered entries.old.items) }
{
    entries.sort_by(|a, b| a.order(b))?;
    Ok(())
}

fn add_entry(report: &mut ReportText, name: &str, entry: &Entry) -> Result<(), Memory>
    ensures { OnOk result (report.new ≡ report.old ++ entry_line name.now entry.now) }
{
    writeln!(report, "{name} {entry}")?;
    Ok(())
}

fn add_entries(report: &mut ReportText, name: &str, entries: &[Entry]) -> Result<(), Memory>
    ensures { OnOk result (report.new ≡ report.old ++ flat_map (entry_line name.now) entries.now) }
{
    for entry in entries {
        add_entry(report, name, entry)?;
    }
    Ok(())
}

/// Lists the host's runs by start, end and key, those without an interval last. States are those of
/// the settled rows at the moment, and the rows are left as they are.
pub fn add_table(
    alloc: Global,
    report: &mut ReportText,
    name: &str,
    rows: LentRows<'_>,
    moment: Moment,
) -> Result<(), Memory>
    requires moment { moment ≤ MAX_MOMENT }
    requires rows { All HasMoments rows }
    ensures { OnOk result (report.new ≡ report.old ++ table_text name.now moment (settled_rows moment rows.entry)) }
{
    let mut entries = entries_of(alloc, rows, moment)?;
    sort(&mut entries)?;
    add_entries(report, name, &entries)
}
