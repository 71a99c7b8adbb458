//! Records that were read, taken into a book one change after another.
ghost use Rattle.std.specs.Prelude.{◌≡◌, ◌≤◌, ◌<◌, ◌+◌, ◌↔◌, All, IfOk, IsTrue, OnOk, length};
ghost use Rattle.host_model.specs.Apply.{apply, apply_all, recorded};
ghost use Rattle.host_model.specs.MayFollow.{CanApplyAll, MayFollow};
ghost use Rattle.value_bytes.specs.Changes.{changes};
ghost use Rattle.host_codec.specs.FirstFormat.{first_changes};
ghost use Rattle.host_model.specs.declared.change.Changes.{Changes as Record};
ghost use Rattle.replay_check.specs.Follows.{Follows};
ghost use Rattle.replay_check.specs.ReadChange.{IsReadChange};

use crate::change::may_follow_next;
use host_book::book::HostBook;
use host_book::ready::{Ready, brought_bytes};
use host_model::change::{Change, Changes};
use ps_time::items::Items;
use ps_time::memory::Memory;
use ps_time::moment::MAX_MOMENT;
use std::alloc::Global;

// Takes in a change that may follow. A book of more bytes than can be counted is out of memory too.
fn absorb_next(alloc: Global, book: &mut HostBook, change: Change) -> Result<(), Memory>
    requires room { 0 < book.old.room }
    requires follows { Follows book.old.number book.old.book change }
    ensures number { book.new.number ≡ book.old.number }
    ensures book { OnOk result (book.new.book ≡ apply book.old.book.moment change book.old.book) }
    ensures room { OnOk result (book.old.room ≤ book.new.room + 1) }
{
    if u64::MAX - book.result_bytes() < brought_bytes(&change) {
        drop(change);
        return Err(Memory);
    }
    let ready = Ready::new(alloc, change)?;
    book.absorb(ready);
    Ok(())
}

// Takes a change in, if it may follow.
fn take_next(
    alloc: Global,
    number: u16,
    book: &mut HostBook,
    change: Change,
) -> Result<bool, Memory>
    requires number { book.old.number ≡ number }
    requires read { IsReadChange change }
    requires room { 0 < book.old.room }
    ensures number { book.new.number ≡ number }
    ensures may { IfOk result (λ may. IsTrue may ↔ Follows number book.old.book change) }
    ensures taken { IfOk result (λ may. IsTrue may → book.new.book ≡ apply book.old.book.moment change book.old.book) }
    ensures room { IfOk result (λ may. IsTrue may → book.old.room ≤ book.new.room + 1) }
{
    match may_follow_next(alloc, number, book, &change) {
        Ok(true) => {
            absorb_next(alloc, book, change)?;
            Ok(true)
        }
        Ok(false) => {
            drop(change);
            Ok(false)
        }
        Err(fault) => {
            drop(change);
            Err(fault)
        }
    }
}

fn take_each(
    alloc: Global,
    number: u16,
    book: &mut HostBook,
    list: Items<Change>,
) -> Result<bool, Memory>
    requires number { book.old.number ≡ number }
    requires read { All IsReadChange list }
    requires room { length list ≤ book.old.room }
    ensures number { book.new.number ≡ number }
    ensures may { IfOk result (λ may. IsTrue may ↔ CanApplyAll number book.old.book.moment list book.old.book) }
    ensures taken { IfOk result (λ may. IsTrue may → book.new.book ≡ apply_all book.old.book.moment list book.old.book) }
{
    for change in list.into_vec() {
        if !take_next(alloc, number, book, change)? {
            return Ok(false);
        }
    }
    Ok(true)
}

/// Takes a record that was read into the book of the host with this number, and answers whether it may follow the book. Each
/// change is tested by what it touches, against the book that the earlier ones left. Where the answer is no, or memory is
/// missing, some of the changes may have been taken in: the book is of no use then.
pub fn take_record(
    alloc: Global,
    number: u16,
    book: &mut HostBook,
    kept: Changes,
) -> Result<bool, Memory>
    requires number { book.old.number ≡ number }
    requires read { All IsReadChange kept.list }
    ensures number { book.new.number ≡ number }
    ensures may { IfOk result (λ may. IsTrue may ↔ MayFollow number book.old.book kept) }
    ensures taken { IfOk result (λ may. IsTrue may → book.new.book ≡ recorded book.old.book kept) }
{
    let Changes { moment, list } = kept;
    if moment < book.moment() || MAX_MOMENT < moment {
        drop(list);
        return Ok(false);
    }
    book.reserve(list.len())?;
    book.settle(moment);
    take_each(alloc, number, book, list)
}

/// Laws: what `take_record` asks is so of each record that was read, of either format.
pub fn law_read_record()
    ensures second { (r : Record) → changes.Fits r → All IsReadChange r.list }
    ensures first { (r : Record) → first_changes.Fits r → All IsReadChange r.list }
{}
