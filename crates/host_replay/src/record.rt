//! The next record of a list.
ghost use Rattle.std.specs.Prelude.{◌≡◌, All, IfOk, IfSome, IsFalse, IsTrue, Some};
ghost use Rattle.host_model.specs.Apply.{recorded};
ghost use Rattle.host_model.specs.MayFollow.{MayFollow};
ghost use Rattle.host_model.specs.declared.change.Changes.{Changes as Record};
ghost use Rattle.replay_check.specs.ReadChange.{IsReadChange};
ghost use Rattle.host_replay.specs.Stands.{IsRecord};

use host_book::book::HostBook;
use host_codec::first::read_first_record;
use host_codec::record::read_record;
use host_model::change::Changes;
use ps_time::memory::Memory;
use replay_check::record::{law_read_record, take_record};
use std::alloc::Global;

fn read_of(alloc: Global, second: bool, bytes: &[u8]) -> Result<Option<Changes>, Memory>
    ensures found { IfOk result (λ o. IfSome o (IsRecord second bytes.now)) }
    ensures only { IfOk result (λ o. (c : Record) → IsRecord second bytes.now c → o ≡ Some c) }
    ensures read { IfOk result (λ o. IfSome o (λ c. All IsReadChange c.list)) }
{
    law_read_record();
    if second {
        read_record(alloc, bytes)
    } else {
        read_first_record(alloc, bytes)
    }
}

/// Takes the record whose bytes these are, of the second format or of the first, into the book of the host with this number.
/// False where they are the record of none, or of one that may not follow the book; then, and where memory runs out, the
/// book is of no use.
pub fn take_bytes(
    alloc: Global,
    number: u16,
    second: bool,
    book: &mut HostBook,
    bytes: &[u8],
) -> Result<bool, Memory>
    requires { book.old.number ≡ number }
    ensures number { book.new.number ≡ number }
    ensures taken { IfOk result (λ may. IsTrue may → (c : Record) × IsRecord second bytes.now c × MayFollow number book.old.book c × (book.new.book ≡ recorded book.old.book c) × ((other : Record) → IsRecord second bytes.now other → other ≡ c)) }
    ensures refused { IfOk result (λ may. IsFalse may → (c : Record) → IsRecord second bytes.now c → MayFollow number book.old.book c → ⊥) }
{
    let Some(kept) = read_of(alloc, second, bytes)? else {
        return Ok(false);
    };
    take_record(alloc, number, book, kept)
}
