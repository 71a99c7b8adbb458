//! Whether a book is lawful.
ghost use Rattle.std.specs.Prelude.{◌≡◌, ◌≤◌, ◌↔◌, All, IfOk, IsTrue, List, length, map, ℕ};
ghost use Rattle.std.specs.List.{range_with_len};
ghost use Rattle.ps_time.specs.Numbers.{greatest_moment, most_rows, most_tasks};
ghost use Rattle.run_states.specs.Rows.{IsAscendingRows};
ghost use Rattle.host_model.specs.Book.{Book};
ghost use Rattle.host_model.specs.Lawful.{ArePairs, IsLawfulTask, Lawful, NoClash};
ghost use Rattle.host_model.specs.LawfulRow.{IsHostRow};
ghost use Rattle.host_codec.specs.Books.{book as book_codec};
ghost use Rattle.host_codec.specs.FirstFormat.{IsFirstSnapshot};
ghost use Rattle.replay_check.specs.ReadBook.{IsReadBook};

use crate::clash::are_apart;
use crate::tasks::are_tasks;
use book_check::host_row::are_host_rows;
use book_check::order::are_ascending;
use book_check::pairs::{are_known, are_of_rows};
use host_codec::book::{KeptBook, law_read};
use limit_apply::kept::law_kept;
use part_core::fit::MOST_ROWS;
use ps_time::memory::Memory;
use ps_time::moment::MAX_MOMENT;
use std::alloc::Global;

fn has_tasks(book: &KeptBook) -> bool
    requires { IsReadBook book.now }
    ensures { IsTrue result ↔ ((book.now.moment ≤ greatest_moment) × (length book.now.tasks ≤ most_tasks)
        × (map (λ t. t.serial) book.now.tasks ≡ range_with_len 1 (length book.now.tasks)) × All (IsLawfulTask book.now.moment) book.now.tasks) }
{
    book.moment <= MAX_MOMENT && are_tasks(book.moment, book.tasks.as_slice())
}

fn has_pairs(book: &KeptBook) -> bool
    requires { IsReadBook book.now }
    ensures { IsTrue result ↔ ArePairs book.now }
{
    let pairs = book.pairs.as_slice();
    are_of_rows(pairs, book.rows.as_slice()) && are_known(book.epochs.len() as u32, pairs)
}

fn has_order(book: &KeptBook) -> bool
    ensures { IsTrue result ↔ ((length book.now.rows ≤ most_rows) × IsAscendingRows book.now.rows) }
{
    book.rows.len() <= MOST_ROWS && are_ascending(book.rows.as_slice())
}

fn has_rows(alloc: Global, number: u16, book: &KeptBook) -> Result<bool, Memory>
    requires read { IsReadBook book.now }
    requires ascending { IsAscendingRows book.now.rows }
    ensures { IfOk result (λ has. IsTrue has ↔ (All (IsHostRow number book.now.tasks book.now.moment) book.now.rows × NoClash book.now.rows)) }
{
    let rows = book.rows.as_slice();
    let hosts = are_host_rows(alloc, number, book.tasks.as_slice(), book.moment, rows)?;
    let apart = are_apart(alloc, rows)?;
    Ok(hosts && apart)
}

/// Whether the book, which was read from bytes, is lawful for the host with this number: all that a host rests on. Each row
/// is tested once, beside its task and what clashes with it.
pub fn is_lawful(alloc: Global, number: u16, book: &KeptBook) -> Result<bool, Memory>
    requires { IsReadBook book.now }
    ensures { IfOk result (λ is. IsTrue is ↔ Lawful number book.now) }
{
    law_kept(book.epochs.as_slice());
    if !has_tasks(book) || !has_order(book) || !has_pairs(book) {
        return Ok(false);
    }
    has_rows(alloc, number, book)
}

/// Laws: what `is_lawful` asks is so of each book that was read from a snapshot, of either format.
pub fn law_read_book()
    ensures second { (b : Book) → book_codec.Fits b → IsReadBook b }
    ensures first { (bytes : List ℕ) (b : Book) → IsFirstSnapshot bytes b → IsReadBook b }
{
    law_read();
}
