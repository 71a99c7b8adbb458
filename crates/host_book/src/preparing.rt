//! The changes of a step, made ready for a book.
ghost use Rattle.std.specs.Prelude.{◌≡◌, ◌≤◌, ◌-◌, All, IfOk, IfSome, OnOk, length};
ghost use Rattle.run_states.specs.ResultBytes.{result_bytes as bytes_of_rows};
ghost use Rattle.host_rows.specs.Ledger.{most_counted};
ghost use Rattle.host_book.specs.Ready.{IsReady, all_brought, changes_of};

use crate::book::HostBook;
use crate::ready::{Ready, brought_bytes};
use host_model::change::Change;
use ps_time::items::Items;
use ps_time::memory::Memory;
use std::alloc::Global;

impl HostBook {
    /// The changes with what they need, and places for them in the book, which stays as it is. More results than can be
    /// counted in bytes are out of memory too.
    pub fn prepare(&mut self, alloc: Global, list: Items<Change>) -> Result<Items<Ready>, Memory>
        ensures number { self.new.number ≡ self.old.number }
        ensures book { self.new.book ≡ self.old.book }
        ensures changes { IfOk result (λ made. changes_of made ≡ list) }
        ensures ready { IfOk result (λ made. All IsReady made) }
        ensures room { IfOk result (λ made. length made ≤ self.new.room) }
        ensures bytes { IfOk result (λ made. all_brought made ≤ most_counted - bytes_of_rows self.old.book.rows) }
    {
        let made = each_ready(alloc, list)?;
        match self.make_room(made.as_slice()) {
            Ok(()) => Ok(made),
            Err(fault) => {
                drop(made);
                Err(fault)
            }
        }
    }

    // Makes room for these changes, if what they bring can be counted.
    fn make_room(&mut self, list: &[Ready]) -> Result<(), Memory>
        ensures number { self.new.number ≡ self.old.number }
        ensures book { self.new.book ≡ self.old.book }
        ensures room { OnOk result (length list.now ≤ self.new.room) }
        ensures bytes { OnOk result (all_brought list.now ≤ most_counted - bytes_of_rows self.old.book.rows) }
    {
        let left = u64::MAX - self.result_bytes();
        match all_brought(list) {
            Some(bytes) if bytes <= left => self.reserve(list.len()),
            _ => Err(Memory),
        }
    }
}

fn each_ready(alloc: Global, list: Items<Change>) -> Result<Items<Ready>, Memory>
    ensures changes { IfOk result (λ made. changes_of made ≡ list) }
    ensures ready { IfOk result (λ made. All IsReady made) }
{
    let mut made = Vec::with_capacity(alloc, list.len())?;
    for change in list.into_vec() {
        made.push(Ready::new(alloc, change)?)?;
    }
    Ok(Items::from_vec(made))
}

// How many bytes of results they bring at most, if that can be counted.
fn all_brought(list: &[Ready]) -> Option<u64>
    ensures { IfSome result (λ bytes. bytes ≡ all_brought list.now) }
{
    let mut bytes = 0u64;
    for ready in list {
        bytes = bytes.checked_add(brought_bytes(&ready.change))?;
    }
    Some(bytes)
}
