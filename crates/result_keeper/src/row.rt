//! Rows of the table of results, read as records.
ghost use Rattle.std.specs.Prelude.{◌≡◌, ◌≤◌, IfOk, IfSome, All, length, pos};
ghost use Rattle.sqlite.specs.Order.{column};
ghost use Rattle.sqlite.specs.declared.types.Value.TheVariants.{Int, Text as Words};
ghost use Rattle.ps_time.specs.Id.{InRange};
ghost use Rattle.ps_time.specs.Numbers.{greatest_moment};
ghost use Rattle.ps_time.specs.declared.id.Id.TheVariants.{Run};
ghost use Rattle.result_keeper.specs.Row.{is_further, in_order, AreRowsOf, IsFound};
ghost use Rattle.result_rows.specs.Rows.{number_of, key_text, IsRowOf};
ghost use Rattle.result_table.specs.Record.{IsTable, HasMoments, IsAbove};

use ps_time::key::RunKey;
use ps_time::memory::Memory;
use ps_time::moment::{MAX_MOMENT, Moment};
use ps_time::text::Text;
use result_rows::run_id::read_key;
use result_table::record::Record;
use sqlite::{Error, ErrorCode, Row};
use std::alloc::Global;

/// Why a value was not read, where memory didn't run out: there is none, or it is of another kind.
fn unread(error: Error) -> Result<(), Memory> {
    match error {
        Error::SqliteFailure(ErrorCode::OutOfMemory) => Err(Memory),
        _ => Ok(()),
    }
}

/// The text in a column.
fn text_at(row: &Row, at: usize) -> Result<Option<Text>, Memory>
    ensures { IfOk result (λ text. IfSome text (λ t. column row.now at ≡ Words t)) }
{
    match row.get::<String>(at) {
        Ok(text) => Ok(Some(Text::from_string(text))),
        Err(error) => {
            unread(error)?;
            Ok(None)
        }
    }
}

/// The number in a column, where it isn't negative.
fn number_at(row: &Row, at: usize) -> Result<Option<u64>, Memory>
    ensures { IfOk result (λ number. IfSome number (λ n. column row.now at ≡ Int (pos n))) }
{
    match row.get::<u64>(at) {
        Ok(number) => Ok(Some(number)),
        Err(error) => {
            unread(error)?;
            Ok(None)
        }
    }
}

/// The moment in a column.
fn moment_at(row: &Row, at: usize) -> Result<Option<Moment>, Memory>
    ensures { IfOk result (λ moment. IfSome moment (λ m. (column row.now at ≡ Int (pos m)) × (m ≤ greatest_moment))) }
{
    match number_at(row, at)? {
        Some(moment) if moment <= MAX_MOMENT => Ok(Some(moment)),
        _ => Ok(None),
    }
}

/// The flag in a column: 1 or 0.
fn flag_at(row: &Row, at: usize) -> Result<Option<bool>, Memory>
    ensures { IfOk result (λ flag. IfSome flag (λ f. column row.now at ≡ Int (pos (number_of f)))) }
{
    match number_at(row, at)? {
        Some(0) => Ok(Some(false)),
        Some(1) => Ok(Some(true)),
        _ => Ok(None),
    }
}

/// The key in a column: the text of a run's identifier, as it is written.
fn key_at(alloc: Global, row: &Row, at: usize) -> Result<Option<RunKey>, Memory>
    ensures key { IfOk result (λ key. IfSome key (λ k. column row.now at ≡ Words (key_text k))) }
    ensures range { IfOk result (λ key. IfSome key (λ k. InRange (Run k))) }
{
    match text_at(row, at)? {
        Some(text) => read_key(alloc, &text),
        None => Ok(None),
    }
}

/// The record of a row, if it is one.
pub(crate) fn read_row(alloc: Global, row: &Row) -> Result<Option<Record>, Memory>
    ensures row { IfOk result (λ found. IfSome found (IsRowOf row.now)) }
    ensures moments { IfOk result (λ found. IfSome found HasMoments) }
{
    let Some(key) = key_at(alloc, row, 0)? else {
        return Ok(None);
    };
    let Some(since) = moment_at(row, 1)? else {
        return Ok(None);
    };
    let Some(latest) = moment_at(row, 2)? else {
        return Ok(None);
    };
    let Some(good) = flag_at(row, 3)? else {
        return Ok(None);
    };
    match text_at(row, 4)? {
        Some(body) => Ok(Some(Record {
            key,
            since,
            latest,
            good,
            body,
        })),
        None => Ok(None),
    }
}

/// The record of the rows of one key, or that there is none; nothing where these are no record of that key, or more.
pub(crate) fn read_found(
    alloc: Global,
    rows: &[Row],
    key: RunKey,
) -> Result<Option<Option<Record>>, Memory>
    ensures rows { IfOk result (λ read. IfSome read (IsFound rows.now)) }
    ensures bound { IfOk result (λ read. IfSome read (λ found. IfSome found (λ r. (r.key ≡ key) × HasMoments r))) }
{
    match rows {
        [] => Ok(Some(None)),
        [row] => match read_row(alloc, row)? {
            Some(found) if found.key == key => Ok(Some(Some(found))),
            _ => Ok(None),
        },
        _ => Ok(None),
    }
}

/// Whether a key is above the other, where there is one.
fn is_further(last: Option<RunKey>, key: RunKey) -> bool
    ensures { result ≡ is_further last key }
{
    match last {
        Some(last) => last < key,
        None => true,
    }
}

/// Whether each key is above the one before it, and the first above the given one.
fn in_order(records: &[Record], after: Option<RunKey>) -> bool
    ensures { result ≡ in_order after records.now }
{
    let mut last = after;
    for kept in records {
        if !is_further(last, kept.key) {
            return false;
        }
        last = Some(kept.key);
    }
    true
}

/// The records of rows, if all are records.
fn read_rows(alloc: Global, rows: &[Row]) -> Result<Option<Vec<Record>>, Memory>
    ensures rows { IfOk result (λ read. IfSome read (λ records. AreRowsOf rows.now records.items)) }
    ensures moments { IfOk result (λ read. IfSome read (λ records. All HasMoments records.items)) }
{
    let mut records = Vec::new(alloc);
    for row in rows {
        let Some(kept) = read_row(alloc, row)? else {
            return Ok(None);
        };
        records.push(kept)?;
    }
    Ok(Some(records))
}

/// The records of rows above a key, at most so many; nothing where these are others, or more.
#[tactic(auto, using(crate::proofs::RowLemmas::order_is_table, crate::proofs::RowLemmas::order_is_above))]
pub(crate) fn read_list(
    alloc: Global,
    rows: &[Row],
    after: Option<RunKey>,
    count: u32,
) -> Result<Option<Vec<Record>>, Memory>
    ensures rows { IfOk result (λ read. IfSome read (λ records. AreRowsOf rows.now records.items)) }
    ensures count { IfOk result (λ read. IfSome read (λ records. length records.items ≤ count)) }
    ensures ascending { IfOk result (λ read. IfSome read (λ records. IsTable records.items)) }
    ensures above { IfOk result (λ read. IfSome read (λ records. All (IsAbove after) records.items)) }
    ensures moments { IfOk result (λ read. IfSome read (λ records. All HasMoments records.items)) }
{
    let Some(records) = read_rows(alloc, rows)? else {
        return Ok(None);
    };
    if records.len() <= count as usize && in_order(records.as_slice(), after) {
        Ok(Some(records))
    } else {
        Ok(None)
    }
}
