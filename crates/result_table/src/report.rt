//! The report on a keeper's table.
ghost use Rattle.std.specs.Prelude.{◌≡◌, ◌≤◌, ◌*◌, ◌++◌, List, IfOk, OnOk, Err};
ghost use Rattle.std.specs.String.{string_bytes};
ghost use Rattle.std.specs.List.{flat_map};
ghost use Rattle.ps_ports.specs.Causes.{Rose};
ghost use Rattle.ps_time.specs.Numbers.{greatest_moment};
ghost use Rattle.result_table.specs.Record.{HasMoments};
ghost use Rattle.result_table.specs.Report.{no_tally, with_record, tallied, tally_text, task_line, day_line, report_text};
ghost use Rattle.result_table.specs.declared.record.Record.{Record as Kept};

use crate::keeper::{Keeper, KeeperFault};
use crate::record::Record;
use crate::tally::{Counts, count};
use crate::visit::{Visitor, visit_table};
use ps_time::id::{Id, id_text};
use ps_time::memory::Memory;
use ps_time::moment::Moment;
use ps_time::moment_text::day_text;
use ps_time::text::Text;
use std::alloc::Global;
use std::collections::BTreeMap;
use std::fmt::Write;
use std::marker::Model;

/// The seconds of a day.
const DAY: u64 = 86_400;

/// A task of some host. Tasks are ordered by their lead, and then by their number there.
#[derive(Clone, Copy, PartialEq, Eq, PartialOrd, Ord)]
struct TaskKey {
    lead: u16,
    task: u32,
}

/// The line of a day.
fn add_day(alloc: Global, text: &mut String, day: u64, counts: &Counts) -> Result<(), Memory>
    requires { day * 86_400 ≤ greatest_moment }
    ensures { OnOk result (string_bytes text.new ≡ string_bytes text.old ++ day_line (day, counts.now)) }
{
    let date = day_text(alloc, day * DAY)?;
    writeln!(text, "day {date}{counts}")?;
    Ok(())
}

/// What is counted for a report.
#[derive(Drop)]
struct Tally {
    from: Moment,
    to: Moment,
    tasks: BTreeMap<TaskKey, Counts>,
    days: BTreeMap<u64, Counts>,
    total: Counts,
}

impl Model for Tally {
    ghost use Rattle.std.specs.Prelude.{◌≤◌, ◌*◌, All};
    ghost use Rattle.ps_time.specs.Numbers.{greatest_moment};
    ghost use Rattle.result_table.specs.Report.{TallyState};

    ghost Value = { TallyState };

    ghost view = { λ t. record { from = t.from; to = t.to; tasks = t.tasks.entries; days = t.days.entries; total = t.total } };

    ghost invariant = { λ t. All (λ e. e.0 * 86_400 ≤ greatest_moment) t.days.entries };
}

impl Tally {
    fn new(alloc: Global, from: Moment, to: Moment) -> Tally
        ensures { result ≡ no_tally from to }
    {
        Tally {
            from,
            to,
            tasks: BTreeMap::new(alloc),
            days: BTreeMap::new(alloc),
            total: Counts::NONE,
        }
    }

    /// Counts one record more.
    fn add(&mut self, kept: &Record) -> Result<(), Memory>
        requires { HasMoments kept.now }
        ensures { OnOk result (self.new ≡ with_record self.old kept.now) }
    {
        let task = TaskKey {
            lead: kept.key.lead,
            task: kept.key.task,
        };
        count(&mut self.tasks, task, kept.good)?;
        count(&mut self.days, kept.since / DAY, kept.good)?;
        self.total = self.total.with(kept.good);
        Ok(())
    }

    fn add_tasks(&self, alloc: Global, text: &mut String) -> Result<(), Memory>
        ensures { OnOk result (string_bytes text.new ≡ string_bytes text.old ++ flat_map task_line self.now.tasks) }
    {
        for (key, counts) in &self.tasks {
            let id = id_text(
                alloc,
                Id::Task {
                    lead: key.lead,
                    task: key.task,
                },
            )?;
            writeln!(text, "task {id}{counts}")?;
        }
        Ok(())
    }

    fn add_days(&self, alloc: Global, text: &mut String) -> Result<(), Memory>
        ensures { OnOk result (string_bytes text.new ≡ string_bytes text.old ++ flat_map day_line self.now.days) }
    {
        for (day, counts) in &self.days {
            add_day(alloc, text, *day, counts)?;
        }
        Ok(())
    }

    fn text(&self, alloc: Global) -> Result<Text, Memory>
        ensures { IfOk result (λ text. text ≡ tally_text self.now) }
    {
        let mut text = String::new(alloc);
        self.add_tasks(alloc, &mut text)?;
        self.add_days(alloc, &mut text)?;
        let total = self.total;
        writeln!(text, "total{total}")?;
        Ok(Text::from_string(text))
    }
}

impl Visitor for Tally {
    ghost use Rattle.std.specs.Prelude.{false};
    ghost use Rattle.result_table.specs.Report.{tallied};

    ghost after = { tallied };

    ghost is_full = { λ _. false };

    fn visit(&mut self, _alloc: Global, kept: &Record) -> Result<(), Memory> {
        if self.from <= kept.since && kept.since < self.to {
            return self.add(kept);
        }
        Ok(())
    }

    fn is_full(&self) -> bool {
        false
    }

    ghost full_stays = { λ visitor r is. absurd cc };
}

/// The report on the records whose `since` lies in `[from, to)`: how many there are, how many are good and how many
/// aren't, for each task by lead and task, for each day of UTC, and in all. It reads the keeper in pieces of 64 records. A
/// count is shown up to 18,446,744,073,709,551,615.
pub fn report<Q: Keeper>(
    alloc: Global,
    keeper: &mut Q,
    from: Moment,
    to: Moment,
) -> Result<Text, KeeperFault>
    ensures later { Q.keeper_faults keeper.old ≤ Q.keeper_faults keeper.new }
    ensures failed { result ≡ Err KeeperFault.Failed → Rose (Q.keeper_faults keeper.old) (Q.keeper_faults keeper.new) }
    ensures sound { Q.is_sound keeper.new → Q.is_sound keeper.old }
    ensures text { (table : List Kept) → Q.has_table keeper.old table → Q.is_sound keeper.new
        → IfOk result (λ text. text ≡ report_text table from to) }
    ensures stays { (table : List Kept) → Q.has_table keeper.old table → Q.is_sound keeper.new → Q.has_table keeper.new table }
{
    let mut tally = Tally::new(alloc, from, to);
    visit_table(alloc, keeper, &mut tally)?;
    Ok(tally.text(alloc)?)
}
