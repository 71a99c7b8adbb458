//! Rows that change, and the bytes of their results, counted as one row changes.
ghost use Rattle.std.specs.Prelude.{◌≡◌, ◌≤◌, ◌+◌, min};
ghost use Rattle.run_states.specs.Effect.{noted_row};
ghost use Rattle.run_states.specs.LawfulRow.{BringsResult, BringsResults};
ghost use Rattle.run_states.specs.Life.{marked_row};
ghost use Rattle.run_states.specs.Rows.{change_row, find_row};
ghost use Rattle.host_rows.specs.Ledger.{bytes_at, fact_bytes, most_counted, step_bytes};
ghost use Rattle.draft_parts.specs.Overlay.{over};

use crate::overlay::find_over;
use ps_time::key::RunKey;
use ps_time::moment::Moment;
use run_states::fact::Fact;
use run_states::life::LifeStep;
use run_states::rows::Rows;

/// Sets what a step of life sets in the row of the key, and counts the bytes of results anew, of which there were so many.
pub fn mark(rows: &mut Rows, bytes: u64, key: RunKey, step: LifeStep, moment: Moment) -> u64
    requires result { BringsResult step }
    requires before { bytes_at (find_row rows.old.list key) ≤ bytes }
    requires room { bytes + step_bytes step ≤ most_counted }
    ensures rows { rows.new.list ≡ change_row (marked_row step moment) rows.old.list key }
    ensures bytes { result + bytes_at (find_row rows.old.list key) ≡ bytes + bytes_at (find_row rows.new.list key) }
{
    let before = bytes_at(rows, key);
    rows.mark(key, step, moment);
    let after = bytes_at(rows, key);
    bytes - before + after
}

/// Sets what the fact tells in the row of the key, and counts the bytes of results anew, of which there were so many.
pub fn note(rows: &mut Rows, bytes: u64, key: RunKey, fact: Fact, moment: Moment) -> u64
    requires results { BringsResults fact }
    requires before { bytes_at (find_row rows.old.list key) ≤ bytes }
    requires room { bytes + fact_bytes fact ≤ most_counted }
    ensures rows { rows.new.list ≡ change_row (noted_row fact moment) rows.old.list key }
    ensures bytes { result + bytes_at (find_row rows.old.list key) ≡ bytes + bytes_at (find_row rows.new.list key) }
{
    let before = bytes_at(rows, key);
    rows.note(key, fact, moment);
    let after = bytes_at(rows, key);
    bytes - before + after
}

// How many bytes of results the row of the key keeps.
fn bytes_at(rows: &Rows, key: RunKey) -> u64
    ensures { result ≡ min (bytes_at (find_row rows.now.list key)) most_counted }
{
    match rows.find(key) {
        Some(row) => row.result_bytes(),
        None => 0,
    }
}

/// How many bytes of results the row of the key keeps as it is now.
pub fn bytes_over(touched: &Rows, gone: &[RunKey], book: &Rows, key: RunKey) -> u64
    ensures { result ≡ min (bytes_at (over touched.now.list gone.now book.now.list key)) most_counted }
{
    match find_over(touched, gone, book, key) {
        Some(row) => row.result_bytes(),
        None => 0,
    }
}
