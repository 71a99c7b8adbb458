//! Records and snapshots of the first format, in which no epochs stood: read, and never written.
ghost use Rattle.std.specs.Prelude.{◌==◌, ◌≡◌, ◌≤◌, All, IfOk, IfSome, Some, false, length};
ghost use Rattle.run_states.specs.declared.row.RunRow.{RunRow};
ghost use Rattle.host_model.specs.Book.{Book};
ghost use Rattle.host_model.specs.declared.change.Changes.{Changes};
ghost use Rattle.value_bytes.specs.Changes.{change_cases};
ghost use Rattle.value_bytes.specs.Gives.{Gives};
ghost use Rattle.value_bytes.specs.Laws.{IsCodec};
ghost use Rattle.value_bytes.specs.Reading.{made_at, times_at, whole_of};
ghost use Rattle.host_codec.specs.FirstFormat.{FitsFirst, IsFirstSnapshot, first_accepted, first_accepted_of, first_book, first_cases, first_change, first_changes, first_pairs, first_planned, first_planned_of, first_snapshot};

use crate::book::KeptBook;
use byte_codec::changes::read_fields;
use byte_codec::coded::Coded;
use host_model::change::{Change, Changes};
use host_model::task_row::TaskRow;
use plugin_core::test_spec::TestSpec;
use ps_time::asker::Asker;
use ps_time::boxed::Boxed;
use ps_time::items::Items;
use ps_time::key::RunKey;
use ps_time::memory::Memory;
use ps_time::text::Text;
use run_states::proposal::Proposal;
use run_states::row::RunRow;
use std::alloc::Global;
use value_bytes::fault::CodeFault;

type AcceptedParts = (
    (RunKey, (TestSpec, Text)),
    ((u64, (i16, Items<Text>)), Asker),
);

fn read_accepted(alloc: Global, bytes: &[u8]) -> Result<(Change, &[u8]), CodeFault>
    ensures value { Gives (λ x. (x.0, x.1.now)) result (made_at first_accepted_of first_accepted.read bytes.now) }
    ensures fits { IfOk result (λ x. FitsFirst x.0) }
{
    let (((key, (test, tool)), ((start, (priority, participants)), asker)), rest) =
        AcceptedParts::read(alloc, bytes)?;
    let proposal = Proposal {
        key,
        test,
        tool,
        start,
        priority,
        asker,
    };
    let change = Change::Accepted {
        proposal: Boxed::new(alloc, proposal)?,
        participants,
        epoch: 0,
    };
    Ok((change, rest))
}

fn read_planned(alloc: Global, bytes: &[u8]) -> Result<(Change, &[u8]), CodeFault>
    ensures value { Gives (λ x. (x.0, x.1.now)) result (made_at first_planned_of first_planned.read bytes.now) }
    ensures fits { IfOk result (λ x. FitsFirst x.0) }
{
    let ((key, (start, tool)), rest) = <(RunKey, (u64, Text))>::read(alloc, bytes)?;
    let change = Change::Planned {
        key,
        start,
        tool,
        epoch: 0,
    };
    Ok((change, rest))
}

// A tag whose fields are those of the second format.
fn read_other_fields(alloc: Global, tag: u8, bytes: &[u8]) -> Result<(Change, &[u8]), CodeFault>
    requires accepted { (tag == 3) ≡ false }
    requires planned { (tag == 5) ≡ false }
    requires limits { (tag == 17) ≡ false }
    requires purged { (tag == 18) ≡ false }
    ensures value { Gives (λ x. (x.0, x.1.now)) result (change_cases tag bytes.now) }
    ensures fits { IfOk result (λ x. FitsFirst x.0) }
{
    read_fields(alloc, tag, bytes)
}

fn read_first_fields(alloc: Global, tag: u8, bytes: &[u8]) -> Result<(Change, &[u8]), CodeFault>
    ensures value { Gives (λ x. (x.0, x.1.now)) result (first_cases tag bytes.now) }
    ensures fits { IfOk result (λ x. FitsFirst x.0) }
{
    match tag {
        3 => read_accepted(alloc, bytes),
        5 => read_planned(alloc, bytes),
        17 => Err(CodeFault::NoValue),
        18 => Err(CodeFault::NoValue),
        _ => read_other_fields(alloc, tag, bytes),
    }
}

fn read_first_change(alloc: Global, bytes: &[u8]) -> Result<(Change, &[u8]), CodeFault>
    ensures value { Gives (λ x. (x.0, x.1.now)) result (first_change.read bytes.now) }
    ensures fits { IfOk result (λ x. FitsFirst x.0) }
{
    let (tag, rest) = u8::read(alloc, bytes)?;
    read_first_fields(alloc, tag, rest)
}

fn read_list(alloc: Global, count: u32, bytes: &[u8]) -> Result<(Items<Change>, &[u8]), CodeFault>
    ensures value { Gives (λ x. (x.0, x.1.now)) result (times_at first_change.read count bytes.now) }
    ensures count { IfOk result (λ x. length x.0 ≡ count) }
    ensures fit { IfOk result (λ x. All FitsFirst x.0) }
{
    let mut items = Vec::new(alloc);
    let mut rest = bytes;
    for _ in 0..count {
        let (item, after) = read_first_change(alloc, rest)?;
        items.push(item)?;
        rest = after;
    }
    Ok((Items::from_vec(items), rest))
}

fn read_changes(alloc: Global, bytes: &[u8]) -> Result<(Changes, &[u8]), CodeFault>
    ensures value { Gives (λ x. (x.0, x.1.now)) result (first_changes.read bytes.now) }
    ensures fits { IfOk result (λ x. first_changes.Fits x.0) }
{
    let ((moment, count), rest) = <(u64, u32)>::read(alloc, bytes)?;
    let (list, rest) = read_list(alloc, count, rest)?;
    Ok((Changes { moment, list }, rest))
}

fn whole_record(alloc: Global, bytes: &[u8]) -> Result<Option<Changes>, Memory>
    ensures exact { IfOk result (λ o. o ≡ whole_of (first_changes.read bytes.now)) }
    ensures fits { IfOk result (λ o. IfSome o first_changes.Fits) }
{
    match read_changes(alloc, bytes) {
        Ok((kept, [])) => Ok(Some(kept)),
        Ok((kept, [_, ..])) => {
            drop(kept);
            Ok(None)
        }
        Err(CodeFault::NoValue) => Ok(None),
        Err(CodeFault::Memory) => Err(Memory),
    }
}

/// The record of the first format whose bytes these are, followed by nothing; `None` where they are those of none. What it
/// accepts is of the epoch 0.
pub fn read_first_record(alloc: Global, bytes: &[u8]) -> Result<Option<Changes>, Memory>
    ensures found { IfOk result (λ o. IfSome o (λ c. first_changes.Fits c × (bytes.now ≡ first_changes.code c))) }
    ensures only { IfOk result (λ o. (c : Changes) → first_changes.Fits c → bytes.now ≡ first_changes.code c → o ≡ Some c) }
    ensures exact { IfOk result (λ o. o ≡ whole_of (first_changes.read bytes.now)) }
{
    whole_record(alloc, bytes)
}

/// A pair with the epoch 0 for each accepted row.
#[tactic(auto, using(crate::proofs::FirstLemmas::pair_more, crate::proofs::FirstLemmas::pair_same))]
fn pairs_of(alloc: Global, rows: &[RunRow]) -> Result<Items<(RunKey, u32)>, Memory>
    ensures { IfOk result (λ pairs. pairs ≡ first_pairs rows.now) }
{
    let mut pairs = Vec::new(alloc);
    for row in rows {
        if row.accepted.is_some() {
            pairs.push((row.key, 0))?;
        }
    }
    Ok(Items::from_vec(pairs))
}

fn read_parts(alloc: Global, bytes: &[u8]) -> Result<(KeptBook, &[u8]), CodeFault>
    ensures value { Gives (λ x. (x.0, x.1.now)) result (first_book.read bytes.now) }
    ensures fits { IfOk result (λ x. first_book.Fits x.0) }
{
    let ((moment, (tasks, rows)), rest) = <(u64, (Items<TaskRow>, Items<RunRow>))>::read(
        alloc, bytes,
    )?;
    let pairs = pairs_of(alloc, rows.as_slice())?;
    let kept = KeptBook {
        moment,
        epochs: Items::new(alloc),
        pairs,
        tasks,
        rows,
    };
    Ok((kept, rest))
}

fn whole_book(alloc: Global, bytes: &[u8]) -> Result<Option<KeptBook>, Memory>
    ensures exact { IfOk result (λ o. o ≡ whole_of (first_book.read bytes.now)) }
    ensures fits { IfOk result (λ o. IfSome o first_book.Fits) }
{
    match read_parts(alloc, bytes) {
        Ok((kept, [])) => Ok(Some(kept)),
        Ok((kept, [_, ..])) => {
            drop(kept);
            Ok(None)
        }
        Err(CodeFault::NoValue) => Ok(None),
        Err(CodeFault::Memory) => Err(Memory),
    }
}

// The book of a snapshot that isn't the one without bytes.
fn read_some_book(alloc: Global, bytes: &[u8]) -> Result<Option<KeptBook>, Memory>
    requires { 1 ≤ length bytes.now }
    ensures found { IfOk result (λ o. IfSome o (IsFirstSnapshot bytes.now)) }
    ensures only { IfOk result (λ o. (b : Book) → IsFirstSnapshot bytes.now b → o ≡ Some b) }
    ensures exact { IfOk result (λ o. o ≡ first_snapshot bytes.now) }
{
    whole_book(alloc, bytes)
}

/// The book whose snapshot of the first format these bytes are, followed by nothing: no bytes at all are that of the empty
/// book. `None` where they are the snapshot of none.
pub fn read_first_book(alloc: Global, bytes: &[u8]) -> Result<Option<KeptBook>, Memory>
    ensures found { IfOk result (λ o. IfSome o (IsFirstSnapshot bytes.now)) }
    ensures only { IfOk result (λ o. (b : Book) → IsFirstSnapshot bytes.now b → o ≡ Some b) }
    ensures exact { IfOk result (λ o. o ≡ first_snapshot bytes.now) }
{
    match bytes {
        [] => Ok(Some(KeptBook::empty(alloc))),
        [_, ..] => read_some_book(alloc, bytes),
    }
}

/// Laws of the first format: what has bytes is read again, whatever follows them, and bytes begin with those of what is
/// read from them.
pub fn law_first()
    ensures record { IsCodec first_changes }
    ensures book { IsCodec first_book }
{}
