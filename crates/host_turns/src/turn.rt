//! A turn: a host does what is due.
ghost use Rattle.std.specs.Option.{option_copied};
ghost use Rattle.std.specs.Prelude.{◌≡◌, ◌≤◌, IfOk, IsFalse, OnOk, false, length, true};
ghost use Rattle.ps_time.specs.Name.{is_name};
ghost use Rattle.ps_time.specs.Numbers.{most_changes};
ghost use Rattle.ps_time.specs.declared.moment.TheConstants.{MAX_MOMENT};
ghost use Rattle.live_law.specs.Groups.{asked_key, is_past_at, let_go, lets_go, turned_most};
ghost use Rattle.live_law.specs.Waking.{turned_awake};
ghost use Rattle.host_rows.specs.Still.{keys_live_by, StillStay};
ghost use Rattle.host_model.specs.Apply.{settled};
ghost use Rattle.host_model.specs.Draft.{fresh, turned};
ghost use Rattle.host_model.specs.Turn.{changed, turn as turn_of};
ghost use Rattle.host_draft.specs.Draft.{with_draft};
ghost use Rattle.host_turns.specs.Awake.{awake_among};
ghost use Rattle.host_turns.specs.Turns.{IsLiveTurn, IsTurn};

use crate::due::Due;
use crate::exclusive::exclusive_keys;
use crate::groups::{make_asks, make_purges, purge_keys};
use crate::wishes::Turn;
use host_book::book::HostBook;
use host_draft::draft::Draft;
use host_model::change::Change;
use host_model::config::Config;
use host_model::reply::{Outcome, Reply};
use part_core::reading::Reading;
use ps_time::items::Items;
use ps_time::memory::Memory;
use ps_time::moment::Moment;
use run_states::row::RunRow;
use run_states::rows::Rows;
use std::alloc::Global;

/// All that is due at a host at the moment, in seconds since 1970 UTC, with the number of its changes: runs end, are merged,
/// start, are planned, are asked about, and rows go, each read off the book with the earlier changes made. At most 64 changes,
/// as far as their record has room in 4,194,304 bytes.
pub fn turn(
    alloc: Global,
    config: &Config,
    book: &HostBook,
    moment: Moment,
) -> Result<Outcome, Memory>
    requires number { book.now.number ≡ config.now.number }
    requires name { is_name config.now.name ≡ true }
    requires later { book.now.book.moment ≤ moment }
    requires bound { moment ≤ MAX_MOMENT }
    ensures { IfOk result (λ outcome. outcome ≡ turn_of config.now (settled moment book.now.book) moment) }
{
    let keys = book.live_by(alloc, moment)?;
    let live = keys.as_slice();
    let exclusive = exclusive_keys(alloc, book.rows(), live)?;
    let mut draft = Draft::new(alloc, book, &config.limits, moment)?;
    let turn = Turn {
        config,
        tasks: book.tasks(),
        live,
        exclusive: exclusive.as_slice(),
    };
    turn.make_most(alloc, &mut draft, book)?;
    turn.make_last(alloc, &mut draft, book, moment)?;
    Ok(changed(draft.into_changes()))
}

// The reply counts the changes.
fn changed(list: Items<Change>) -> Outcome
    requires { length list ≤ most_changes }
    ensures { result ≡ changed list }
{
    Outcome {
        reply: Reply::Changes(list.len() as u32),
        list,
    }
}

// Whether the purging has to look at all rows: one that is still may go, or the turn asks about a run that may let one go.
fn looks_at_all(draft: &Draft<'_>, book: &HostBook, moment: Moment) -> bool
    ensures { IsFalse result → StillStay book.now.number book.now.book.rows moment × (let_go moment book.now.book.rows draft.now.draft.changes ≡ false) }
{
    book.may_purge(moment) || let_go(draft.changes(), book.rows(), moment)
}

// Whether one of the changes asks about a run whose task's newest row is long past.
fn let_go(changes: &[Change], rows: &Rows, moment: Moment) -> bool
    ensures { result ≡ let_go moment rows.now.list changes.now }
{
    for change in changes {
        if lets_go(change, rows, moment) {
            return true;
        }
    }
    false
}

fn lets_go(change: &Change, rows: &Rows, moment: Moment) -> bool
    ensures { result ≡ lets_go moment rows.now.list (asked_key change.now) }
{
    match change {
        Change::Asked { question, .. } => {
            let key = question.value().key;
            is_past_at(rows.newest_of_task(key.lead, key.task), moment)
        }
        _ => false,
    }
}

fn is_past_at(row: Option<&RunRow>, moment: Moment) -> bool
    ensures { result ≡ is_past_at moment (option_copied row.entry) }
{
    match row {
        Some(row) => row.is_long_past(moment),
        None => false,
    }
}

impl<'a> Turn<'a> {
    // The groups before the purging.
    fn make_most(&self, alloc: Global, draft: &mut Draft<'_>, book: &HostBook) -> Result<(), Memory>
        requires name { is_name self.now.config.now.name ≡ true }
        requires tasks { self.now.tasks.now ≡ book.now.book.tasks }
        requires turn { IsLiveTurn self.now.config.now self.now.tasks.now self.now.live.now self.now.exclusive.now draft.old }
        ensures made { OnOk result (draft.new ≡ with_draft (turned_awake self.now.config.now draft.old.draft.book.moment self.now.live.now (awake_among book.now.number book.now.book.rows draft.old.draft.book.moment self.now.tasks.now) draft.old.draft) draft.old) }
        ensures turn { OnOk result (IsTurn self.now.config.now self.now.tasks.now draft.new) }
    {
        self.make_due(alloc, draft, Due::End)?;
        self.make_due(alloc, draft, Due::Merge)?;
        self.make_due(alloc, draft, Due::Start)?;
        self.make_due(alloc, draft, Due::Plan)?;
        make_asks(alloc, draft, self.config, self.tasks, book)
    }

    // The purging, behind the other groups.
    fn make_last(
        &self,
        alloc: Global,
        draft: &mut Draft<'_>,
        book: &HostBook,
        moment: Moment,
    ) -> Result<(), Memory>
        requires number { book.now.number ≡ self.now.config.now.number }
        requires live { self.now.live.now ≡ keys_live_by book.now.number moment book.now.book.rows }
        requires turn { IsTurn self.now.config.now self.now.tasks.now draft.old }
        requires made { draft.old.draft ≡ turned_most self.now.config.now moment self.now.live.now (fresh (settled moment book.now.book)) }
        ensures { OnOk result (draft.new.draft ≡ turned self.now.config.now moment (fresh (settled moment book.now.book))) }
    {
        let rows = book.rows();
        if looks_at_all(draft, book, moment) {
            make_purges(alloc, draft, self.config, self.tasks, rows.in_order())
        } else {
            purge_keys(alloc, draft, self.config, self.tasks, self.live)
        }
    }
}
