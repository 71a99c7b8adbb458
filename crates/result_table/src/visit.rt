//! A walk over the table of a keeper, in pieces.
ghost use Rattle.std.specs.Prelude.{◌≡◌, ◌≤◌, Bool, true, List, Option, IfOk, OnOk, IfSome, All, Err};
ghost use Rattle.std.specs.List.{fold};
ghost use Rattle.ps_ports.specs.Causes.{Rose};
ghost use Rattle.ps_time.specs.Id.{InRange};
ghost use Rattle.ps_time.specs.declared.id.Id.TheVariants.{Run};
ghost use Rattle.result_table.specs.Record.{above, HasMoments};
ghost use Rattle.result_table.specs.Visit.{left_above, next_key, IsFurther};
ghost use Rattle.result_table.specs.declared.record.Record.{Record as Kept};

use crate::keeper::{Keeper, KeeperFault};
use crate::record::Record;
use ps_time::key::RunKey;
use ps_time::memory::Memory;
use std::alloc::Global;

/// How many records a piece has.
const PIECE: u32 = 64;

/// What visits the records of a table, one after another.
pub(crate) trait Visitor {
    // What it is after one record more.
    ghost after: { Self → Kept → Self };

    // No record changes it any more.
    ghost is_full: { Self → Bool };

    fn visit(&mut self, alloc: Global, kept: &Record) -> Result<(), Memory>
        requires { HasMoments kept.now }
        ensures { OnOk result (self.new ≡ after self.old kept.now) };

    fn is_full(&self) -> bool
        ensures { result ≡ is_full self.now };

    ghost full_stays: { (visitor : Self) → (r : Kept) → is_full visitor ≡ true → after visitor r ≡ visitor };
}

fn visit_all<V: Visitor>(alloc: Global, visitor: &mut V, records: &[Record]) -> Result<(), Memory>
    requires { All HasMoments records.now }
    ensures { OnOk result (visitor.new ≡ fold V.after visitor.old records.now) }
{
    for kept in records {
        visitor.visit(alloc, kept)?;
    }
    Ok(())
}

/// The fields of a key have their widths.
fn known_range(key: RunKey)
    ensures { InRange (Run key) }
{
    let RunKey {
        lead: _lead,
        task: _task,
        number: _number,
        attempt: _attempt,
    } = key;
}

/// The key of the last record of a piece, where more may come behind it.
fn next_after<V: Visitor>(visitor: &V, piece: &[Record]) -> Option<RunKey>
    ensures key { result ≡ next_key (V.is_full visitor.now) piece.now }
    ensures range { IfSome result (λ key. InRange (Run key)) }
{
    if visitor.is_full() || piece.len() < PIECE as usize {
        return None;
    }
    match piece.last() {
        Some(kept) => {
            known_range(kept.key);
            Some(kept.key)
        }
        None => None,
    }
}

/// Visits the next records. The key of the last one is given where more may come.
fn visit_piece<Q: Keeper, V: Visitor>(
    alloc: Global,
    keeper: &mut Q,
    visitor: &mut V,
    after: Option<RunKey>,
) -> Result<Option<RunKey>, KeeperFault>
    ensures later { Q.keeper_faults keeper.old ≤ Q.keeper_faults keeper.new }
    ensures failed { result ≡ Err KeeperFault.Failed → Rose (Q.keeper_faults keeper.old) (Q.keeper_faults keeper.new) }
    ensures sound { Q.is_sound keeper.new → Q.is_sound keeper.old }
    ensures visited { (table : List Kept) → Q.has_table keeper.old table → Q.is_sound keeper.new
        → IfOk result (λ next. fold V.after visitor.old (above after table) ≡ fold V.after visitor.new (left_above next table)) }
    ensures stays { (table : List Kept) → Q.has_table keeper.old table → Q.is_sound keeper.new → Q.has_table keeper.new table }
    ensures further { IfOk result (λ next. IfSome next (IsFurther after)) }
    ensures range { IfOk result (λ next. IfSome next (λ key. InRange (Run key))) }
{
    let piece = keeper.list(alloc, after, PIECE)?;
    visit_all(alloc, visitor, piece.as_slice())?;
    Ok(next_after(visitor, piece.as_slice()))
}

/// Visits all records, until the visitor is full.
pub(crate) fn visit_table<Q: Keeper, V: Visitor>(
    alloc: Global,
    keeper: &mut Q,
    visitor: &mut V,
) -> Result<(), KeeperFault>
    ensures later { Q.keeper_faults keeper.old ≤ Q.keeper_faults keeper.new }
    ensures failed { result ≡ Err KeeperFault.Failed → Rose (Q.keeper_faults keeper.old) (Q.keeper_faults keeper.new) }
    ensures sound { Q.is_sound keeper.new → Q.is_sound keeper.old }
    ensures visited { (table : List Kept) → Q.has_table keeper.old table → Q.is_sound keeper.new
        → OnOk result (visitor.new ≡ fold V.after visitor.old table) }
    ensures stays { (table : List Kept) → Q.has_table keeper.old table → Q.is_sound keeper.new → Q.has_table keeper.new table }
{
    let mut after = visit_piece(alloc, keeper, visitor, None)?;
    while let Some(key) = after {
        after = visit_piece(alloc, keeper, visitor, Some(key))?;
    }
    Ok(())
}
