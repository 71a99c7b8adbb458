//! The snapshot at the front of a list.
ghost use Rattle.std.specs.Prelude.{◌≡◌, IfOk, IfSome, IsSome, Some};
ghost use Rattle.host_model.specs.Book.{Book};
ghost use Rattle.host_model.specs.Lawful.{Lawful};
ghost use Rattle.replay_check.specs.ReadBook.{IsReadBook};
ghost use Rattle.host_replay.specs.Stands.{IsSnapshot};

use host_book::book::HostBook;
use host_book::parts::Parts;
use host_codec::book::{KeptBook, read_book};
use host_codec::first::read_first_book;
use ps_time::memory::Memory;
use replay_check::book::{is_lawful, law_read_book};
use std::alloc::Global;

fn read_of(alloc: Global, second: bool, bytes: &[u8]) -> Result<Option<KeptBook>, Memory>
    ensures found { IfOk result (λ o. IfSome o (IsSnapshot second bytes.now)) }
    ensures only { IfOk result (λ o. (b : Book) → IsSnapshot second bytes.now b → o ≡ Some b) }
    ensures read { IfOk result (λ o. IfSome o IsReadBook) }
{
    law_read_book();
    if second {
        read_book(alloc, bytes)
    } else {
        read_first_book(alloc, bytes)
    }
}

/// The lawful book of the host with this number whose snapshot these bytes are, of the second format or of the first; `None`
/// where they are the snapshot of none.
pub fn read_lawful(
    alloc: Global,
    number: u16,
    second: bool,
    bytes: &[u8],
) -> Result<Option<KeptBook>, Memory>
    ensures found { IfOk result (λ o. IfSome o (λ b. IsSnapshot second bytes.now b × Lawful number b)) }
    ensures only { IfOk result (λ o. (b : Book) → IsSnapshot second bytes.now b → Lawful number b → o ≡ Some b) }
{
    let Some(book) = read_of(alloc, second, bytes)? else {
        return Ok(None);
    };
    if is_lawful(alloc, number, &book)? {
        Ok(Some(book))
    } else {
        drop(book);
        Ok(None)
    }
}

fn parts_of(book: KeptBook) -> Parts
    ensures { result ≡ book }
{
    let KeptBook {
        moment,
        epochs,
        pairs,
        tasks,
        rows,
    } = book;
    Parts {
        moment,
        epochs,
        pairs,
        tasks,
        rows,
    }
}

/// The book of a snapshot, with what is looked up in it.
pub fn open_snapshot(
    alloc: Global,
    number: u16,
    second: bool,
    bytes: &[u8],
) -> Result<Option<HostBook>, Memory>
    ensures number { IfOk result (λ o. IfSome o (λ h. h.number ≡ number)) }
    ensures found { IfOk result (λ o. IfSome o (λ h. IsSnapshot second bytes.now h.book × Lawful number h.book)) }
    ensures only { IfOk result (λ o. (b : Book) → IsSnapshot second bytes.now b → Lawful number b → IfSome o (λ h. h.book ≡ b) × IsSome o) }
{
    match read_lawful(alloc, number, second, bytes)? {
        None => Ok(None),
        Some(book) => Ok(Some(HostBook::restore(alloc, number, parts_of(book))?)),
    }
}
