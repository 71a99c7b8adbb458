//! Records of changes as bytes.
ghost use Rattle.std.specs.Prelude.{◌++◌, ◌≡◌, All, IfOk, IfSome, List, OnOk, Some, length, ℕ};
ghost use Rattle.value_bytes.specs.Changes.{change, changes};
ghost use Rattle.value_bytes.specs.Reading.{whole_of};
ghost use Rattle.host_model.specs.Book.{Book};
ghost use Rattle.host_model.specs.MayFollow.{MayFollow};
ghost use Rattle.host_model.specs.RecordLength.{change_bytes, record_bytes};
ghost use Rattle.host_model.specs.declared.change.Change.{Change};
ghost use Rattle.host_model.specs.declared.change.Changes.{Changes};
ghost use Rattle.host_codec.specs.Bounds.{KeepsBounds};

use byte_codec::coded::Coded;
use byte_codec::whole::{law_one_code, read_whole};
use host_model::change::Changes;
use ps_time::memory::Memory;
use std::alloc::Global;

/// Adds the bytes of a record.
pub fn write_record(alloc: Global, kept: &Changes, out: &mut Vec<u8>) -> Result<(), Memory>
    requires { changes.Writable kept.now }
    ensures code { OnOk result (out.new.items ≡ out.old.items ++ changes.code kept.now) }
    ensures fits { OnOk result (changes.Fits kept.now) }
{
    kept.write(alloc, out)
}

/// The record whose bytes these are, followed by nothing; `None` where they are those of none.
pub fn read_record(alloc: Global, bytes: &[u8]) -> Result<Option<Changes>, Memory>
    ensures found { IfOk result (λ o. IfSome o (λ c. changes.Fits c × (bytes.now ≡ changes.code c))) }
    ensures only { IfOk result (λ o. (c : Changes) → changes.Fits c → bytes.now ≡ changes.code c → o ≡ Some c) }
    ensures exact { IfOk result (λ o. o ≡ whole_of (changes.read bytes.now)) }
{
    read_whole::<Changes>(alloc, bytes)
}

/// A law: no two records have the same bytes, and the bytes of none begin those of another.
pub fn law_record()
    ensures { (a b : Changes) (x y : List ℕ) → changes.Fits a → changes.Fits b → changes.code a ++ x ≡ changes.code b ++ y → (a ≡ b) × (x ≡ y) }
{
    law_one_code::<Changes>();
}

/// Laws: the bytes of a change and of a record are as many as a host counts for them.
pub fn law_lengths()
    ensures change { (c : Change) → length (change.code c) ≡ change_bytes c }
    ensures record { (r : Changes) → length (changes.code r) ≡ record_bytes r.list }
{}

/// Laws: a record whose tests and tasks keep their bounds may be written, and so may each that may follow a book.
pub fn law_writable_record()
    ensures bounds { (r : Changes) → All KeepsBounds r.list → changes.Writable r }
    ensures follows { (self : ℕ) (b : Book) (r : Changes) → MayFollow self b r → changes.Writable r }
{}
