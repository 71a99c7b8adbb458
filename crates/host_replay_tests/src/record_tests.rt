//! What no clause says: that a lawful book and records that may follow it are there and taken, beside those with one rule
//! broken.

use crate::books::{
    ACCEPTANCES, ACCEPTED, BOOKS, Case, GIVES_WAY, STARTED, STARTS, TWO_BOOKINGS, WAYS,
};
use host_replay::record::take_bytes;
use host_replay::restore::restore;
use host_replay::snapshot::{open_snapshot, read_lawful};
use machine_keep::machine::RestoreFault;
use ps_time::items::Items;
use ps_time::memory::Memory;
use std::alloc::Global;
use std::test::Fail;

fn set(bytes: &mut [u8], (at, byte): (usize, u8)) {
    if let Some(place) = bytes.get_mut(at) {
        *place = byte;
    }
}

fn changed(alloc: Global, base: &[u8], case: &Case) -> Result<Vec<u8>, Memory> {
    let mut bytes = base.to_vec(alloc)?;
    set(&mut bytes, case.first);
    set(&mut bytes, case.second);
    Ok(bytes)
}

fn is_book(alloc: Global, case: &Case) -> Result<bool, Memory> {
    let bytes = changed(alloc, &TWO_BOOKINGS, case)?;
    let found = read_lawful(alloc, case.host, true, bytes.as_slice())?;
    Ok(found.is_some() == case.holds)
}

fn are_books(alloc: Global, cases: &[Case]) -> bool {
    for case in cases {
        if is_book(alloc, case) != Ok(true) {
            return false;
        }
    }
    true
}

#[test]
fn books_with_a_rule_broken(rt: HostRuntime) -> Result<(), Fail> {
    assert!(rt; are_books(rt.alloc(), &BOOKS));
    Ok(())
}

// Whether the record may follow the two bookings.
fn may_follow(alloc: Global, record: &[u8]) -> Result<bool, Memory> {
    match open_snapshot(alloc, 1, true, &TWO_BOOKINGS)? {
        None => Ok(false),
        Some(mut book) => Ok(take_bytes(alloc, 1, true, &mut book, record)?),
    }
}

fn is_record(alloc: Global, base: &[u8], case: &Case) -> Result<bool, Memory> {
    let bytes = changed(alloc, base, case)?;
    Ok(may_follow(alloc, bytes.as_slice())? == case.holds)
}

fn are_records(alloc: Global, base: &[u8], cases: &[Case]) -> bool {
    for case in cases {
        if is_record(alloc, base, case) != Ok(true) {
            return false;
        }
    }
    true
}

#[test]
fn records_with_a_rule_broken(rt: HostRuntime) -> Result<(), Fail> {
    let alloc = rt.alloc();
    assert!(rt; are_records(alloc, &ACCEPTED, &ACCEPTANCES));
    assert!(rt; are_records(alloc, &STARTED, &STARTS));
    assert!(rt; are_records(alloc, &GIVES_WAY, &WAYS));
    Ok(())
}

fn list_of(alloc: Global, items: &[&[u8]]) -> Result<Vec<Items<u8>>, Memory> {
    let mut list = Vec::new(alloc);
    for item in items {
        list.push(Items::from_vec(item.to_vec(alloc)?))?;
    }
    Ok(list)
}

// How many rows the book of a list has, or the index of the item that is refused.
fn rows_of(alloc: Global, items: &[&[u8]]) -> Result<usize, RestoreFault> {
    let Ok(list) = list_of(alloc, items) else {
        return Err(RestoreFault::Memory);
    };
    match restore(alloc, 1, list.as_slice()) {
        Ok(restored) => Ok(restored.book.rows().len()),
        Err(fault) => Err(fault),
    }
}

#[test]
fn a_list_as_a_book(rt: HostRuntime) -> Result<(), Fail> {
    let alloc = rt.alloc();
    assert!(rt; rows_of(alloc, &[&[]]) == Ok(0));
    assert!(rt; rows_of(alloc, &[&TWO_BOOKINGS, &ACCEPTED, &STARTED]) == Ok(3));
    assert!(rt;
        rows_of(alloc, &[&TWO_BOOKINGS, &STARTED, &STARTED]) == Err(RestoreFault::NotARecord(2))
    );
    assert!(rt; rows_of(alloc, &[&ACCEPTED]) == Err(RestoreFault::NotARecord(0)));
    Ok(())
}
