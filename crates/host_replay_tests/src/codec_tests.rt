//! What no clause says: records and snapshots byte by byte, as docs/specification/journal.md has them, and bytes of none.
ghost use Rattle.std.specs.Prelude.{◌≡◌, []};
ghost use Rattle.host_codec.specs.Books.{lent};

use crate::books::TWO_BOOKINGS;
use host_codec::book::{BookParts, KeptBook, read_book, write_book};
use host_codec::record::{read_record, write_record};
use host_model::change::{Change, Changes};
use ps_lists::tiered_list::TieredList;
use ps_time::items::Items;
use ps_time::key::RunKey;
use run_states::row::RunRow;
use run_states::rows::Rows;
use std::alloc::Global;
use std::test::Fail;

// At the moment 1000 one change: the confirmation of the seventh booking of host 1.
static CONFIRMED: [u8; 25] = [
    0, 0, 0, 0, 0, 0, 3, 232, // the moment
    0, 0, 0, 1, // one change
    6, // its tag
    0, 1, // the key's lead
    0, 0, 0, 0, // its task
    0, 0, 0, 7, // its number
    0, 0, // its attempt
];

// The snapshot of a host that has kept nothing but the moment 1000.
static EMPTY: [u8; 36] = [
    255, 255, 255, 255, 255, 255, 255, 255, // the mark of the second format
    0, 0, 0, 2, // its number
    0, 0, 0, 0, 0, 0, 3, 232, // the moment
    0, 0, 0, 0, // no epochs
    0, 0, 0, 0, // no pairs
    0, 0, 0, 0, // no tasks
    0, 0, 0, 0, // no rows
];

fn seventh() -> RunKey {
    RunKey {
        lead: 1,
        task: 0,
        number: 7,
        attempt: 0,
    }
}

fn confirms(kept: &Changes, key: RunKey) -> bool {
    match kept.list.as_slice() {
        [Change::Confirmed(confirmed)] => *confirmed == key,
        _ => false,
    }
}

fn is_confirmation(alloc: Global, bytes: &[u8]) -> bool {
    match read_record(alloc, bytes) {
        Ok(Some(kept)) => kept.moment == 1_000 && confirms(&kept, seventh()),
        _ => false,
    }
}

fn writes_confirmation(alloc: Global, wanted: &[u8]) -> bool {
    let mut list = Vec::new(alloc);
    if list.push(Change::Confirmed(seventh())).is_err() {
        return false;
    }
    let kept = Changes {
        moment: 1_000,
        list: Items::from_vec(list),
    };
    let mut out = Vec::new(alloc);
    write_record(alloc, &kept, &mut out).is_ok() && out.as_slice() == wanted
}

#[test]
fn a_record_byte_by_byte(rt: HostRuntime) -> Result<(), Fail> {
    let alloc = rt.alloc();
    assert!(rt; is_confirmation(alloc, &CONFIRMED));
    assert!(rt; writes_confirmation(alloc, &CONFIRMED));
    Ok(())
}

fn is_first_row(row: &RunRow) -> bool {
    row.key.number == 1 && row.accepted == Some(0) && row.confirmed == Some(0)
}

fn has_two_rows(book: &KeptBook) -> bool {
    match book.rows.as_slice() {
        [first, second] => is_first_row(first) && second.key.number == 2,
        _ => false,
    }
}

fn has_two_pairs(book: &KeptBook) -> bool {
    match book.pairs.as_slice() {
        [first, second] => first.0.number == 1 && first.1 == 0 && second.0.number == 2,
        _ => false,
    }
}

fn has_two_bookings(book: &KeptBook) -> bool {
    book.moment == 0 && book.epochs.len() == 0 && has_two_rows(book) && has_two_pairs(book)
}

fn is_empty_at(book: &KeptBook, moment: u64) -> bool {
    book.moment == moment && book.tasks.len() == 0 && book.rows.len() == 0
}

fn reads_empty(alloc: Global, bytes: &[u8]) -> bool {
    match read_book(alloc, bytes) {
        Ok(Some(book)) => is_empty_at(&book, 1_000),
        _ => false,
    }
}

fn parts_of<'a>(pairs: &'a TieredList<(RunKey, u32)>, rows: &'a Rows) -> BookParts<'a>
    ensures { lent result ≡ record { moment = 1000; epochs = []; pairs = pairs.now.list; tasks = []; rows = rows.now.list } }
{
    let pairs = pairs.in_order();
    let rows = rows.in_order();
    BookParts {
        moment: 1_000,
        epochs: &[],
        pairs,
        tasks: &[],
        rows,
    }
}

fn writes_empty(alloc: Global, wanted: &[u8]) -> bool {
    let mut out = Vec::new(alloc);
    let pairs = TieredList::new(alloc);
    let rows = Rows::new(alloc);
    let parts = parts_of(&pairs, &rows);
    write_book(alloc, parts, &mut out).is_ok() && out.as_slice() == wanted
}

fn reads_two(alloc: Global, bytes: &[u8]) -> bool {
    match read_book(alloc, bytes) {
        Ok(Some(book)) => has_two_bookings(&book),
        _ => false,
    }
}

#[test]
fn a_snapshot_there_and_back(rt: HostRuntime) -> Result<(), Fail> {
    let alloc = rt.alloc();
    assert!(rt; writes_empty(alloc, &EMPTY));
    assert!(rt; reads_empty(alloc, &EMPTY));
    assert!(rt; reads_two(alloc, &TWO_BOOKINGS));
    Ok(())
}

fn is_no_record(alloc: Global, bytes: &[u8]) -> bool {
    matches!(read_record(alloc, bytes), Ok(None))
}

fn is_no_book(alloc: Global, bytes: &[u8]) -> bool {
    matches!(read_book(alloc, bytes), Ok(None))
}

static NO_RECORDS: [&[u8]; 5] = [
    &[],
    &[0, 0, 0, 0, 0, 0, 3, 232, 0, 0, 0, 1],
    &[0, 0, 0, 0, 0, 0, 3, 232, 0, 0, 0, 0, 0],
    &[0, 0, 0, 0, 0, 0, 3, 232, 0, 0, 0, 1, 0, 0, 0, 0, 1],
    &[
        0, 0, 0, 0, 0, 0, 3, 232, 0, 0, 0, 1, 19, 0, 1, 0, 0, 0, 0, 0, 0, 0, 7, 0, 0,
    ],
];

fn are_no_records(alloc: Global, table: &[&[u8]]) -> bool {
    for bytes in table {
        if !is_no_record(alloc, bytes) {
            return false;
        }
    }
    true
}

#[test]
fn bytes_of_no_value(rt: HostRuntime) -> Result<(), Fail> {
    let alloc = rt.alloc();
    assert!(rt; are_no_records(alloc, &NO_RECORDS));
    assert!(rt; is_no_book(alloc, &[]) && is_no_book(alloc, &EMPTY[..35]));
    assert!(rt; is_no_book(alloc, &TWO_BOOKINGS[8..]));
    Ok(())
}
