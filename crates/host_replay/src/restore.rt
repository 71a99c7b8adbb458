//! The book for which a list stands.
ghost use Rattle.std.specs.Prelude.{◌∷◌, ◌≡◌, ◌⊎◌, ◌+◌, ◌<◌, ◌≤◌, Err, IfErr, IfOk, false, length, not, take, true, ℕ};
ghost use Rattle.host_model.specs.Book.{Book};
ghost use Rattle.machine_keep.specs.Refusal.{IsFirstRefused};
ghost use Rattle.machine_keep.specs.declared.machine.RestoreFault.TheVariants.{NotARecord};
ghost use Rattle.host_replay.specs.Stands.{Leads, StandsAs, StandsFor, StandsIn};

use crate::record::take_bytes;
use crate::snapshot::open_snapshot;
use host_book::book::HostBook;
use machine_keep::machine::RestoreFault;
use ps_time::items::Items;
use ps_time::memory::Memory;
use std::alloc::Global;

// The book after these records, or the index of the first that isn't one that may follow.
fn follow(
    alloc: Global,
    number: u16,
    second: bool,
    from: HostBook,
    records: &[Items<u8>],
) -> Result<Result<HostBook, usize>, Memory>
    requires { from.number ≡ number }
    ensures number { IfOk result (λ r. IfOk r (λ h. h.number ≡ number)) }
    ensures leads { IfOk result (λ r. IfOk r (λ h. Leads second number from.book records.now h.book)) }
    ensures within { IfOk result (λ r. IfErr r (λ index. index < length records.now)) }
    ensures front { IfOk result (λ r. IfErr r (λ index. (b : Book) × Leads second number from.book (take index records.now) b)) }
    ensures first { IfOk result (λ r. IfErr r (λ index. (b : Book) → Leads second number from.book (take (index + 1) records.now) b → ⊥)) }
{
    let mut book = from;
    for index in 0..records.len() {
        if !take_bytes(alloc, number, second, &mut book, records[index].as_slice())? {
            drop(book);
            return Ok(Err(index));
        }
    }
    Ok(Ok(book))
}

// The book from a snapshot of one format on.
fn restore_in(
    alloc: Global,
    number: u16,
    second: bool,
    snapshot: &[u8],
    records: &[Items<u8>],
) -> Result<Result<HostBook, usize>, Memory>
    ensures number { IfOk result (λ r. IfOk r (λ h. h.number ≡ number)) }
    ensures stands { IfOk result (λ r. IfOk r (λ h. StandsIn second number snapshot.now records.now h.book)) }
    ensures first { IfOk result (λ r. IfErr r (IsFirstRefused (StandsAs second number) (snapshot.now ∷ records.now))) }
{
    let Some(book) = open_snapshot(alloc, number, second, snapshot)? else {
        return Ok(Err(0));
    };
    match follow(alloc, number, second, book, records)? {
        Ok(book) => Ok(Ok(book)),
        Err(index) => Ok(Err(index + 1)),
    }
}

fn later(index: usize, other: usize) -> usize
    ensures one { (result ≡ index) ⊎ (result ≡ other) }
    ensures bound { index ≤ result }
    ensures bound_too { other ≤ result }
{
    if index < other { other } else { index }
}

/// The book for which a list stands.
#[derive(Drop)]
pub struct Restored {
    pub book: HostBook,
    /// The list is in the first format, which is read only.
    pub is_first: bool,
}

// In the second format, or else in the first: where neither goes on to the end, the one that goes on longer tells the index.
fn restore_either(
    alloc: Global,
    number: u16,
    snapshot: &[u8],
    records: &[Items<u8>],
) -> Result<Result<Restored, usize>, Memory>
    ensures number { IfOk result (λ r. IfOk r (λ h. h.book.number ≡ number)) }
    ensures stands { IfOk result (λ r. IfOk r (λ h. StandsIn (not h.is_first) number snapshot.now records.now h.book.book)) }
    ensures first { IfOk result (λ r. IfErr r (IsFirstRefused (StandsFor number) (snapshot.now ∷ records.now))) }
{
    match restore_in(alloc, number, true, snapshot, records)? {
        Ok(book) => Ok(Ok(Restored {
            book,
            is_first: false,
        })),
        Err(index) => match restore_in(alloc, number, false, snapshot, records)? {
            Ok(book) => Ok(Ok(Restored {
                book,
                is_first: true,
            })),
            Err(other) => Ok(Err(later(index, other))),
        },
    }
}

/// The book of the host with this number for which a list stands, a snapshot and then records, and in which format. The index that is refused is
/// that of the first item that is no snapshot of a lawful book, or no record that may follow. A list has a snapshot; without
/// one the answer is out of memory.
pub fn restore(alloc: Global, number: u16, list: &[Items<u8>]) -> Result<Restored, RestoreFault>
    ensures number { IfOk result (λ r. r.book.number ≡ number) }
    ensures stands { IfOk result (λ r. StandsAs (not r.is_first) number list.now r.book.book) }
    ensures refused { (index : ℕ) → result ≡ Err (NotARecord index) → index < length list.now × ((b : Book) → StandsFor number list.now b → ⊥) }
    // The item is the first that is refused: with it the list stands for none, and what is before it still stands for a book.
    ensures front { (index : ℕ) → result ≡ Err (NotARecord index) → IsFirstRefused (StandsFor number) list.now index }
{
    let [snapshot, records @ ..] = list else {
        return Err(RestoreFault::Memory);
    };
    match restore_either(alloc, number, snapshot.as_slice(), records) {
        Ok(Ok(restored)) => Ok(restored),
        Ok(Err(index)) => Err(RestoreFault::NotARecord(index)),
        Err(Memory) => Err(RestoreFault::Memory),
    }
}
