//! Books as bytes: snapshots of the second format.
ghost use Rattle.std.specs.Prelude.{◌++◌, ◌≡◌, All, IfOk, IfSome, OnOk, Some, ℕ};
ghost use Rattle.std.specs.List.{flat_map};
ghost use Rattle.value_bytes.specs.Codec.{list};
ghost use Rattle.value_bytes.specs.Gives.{Gives};
ghost use Rattle.value_bytes.specs.Reading.{whole_of};
ghost use Rattle.host_model.specs.Book.{Book, empty_book};
ghost use Rattle.host_model.specs.Lawful.{Lawful};
ghost use Rattle.host_model.specs.declared.task_row.TaskRow.{TaskRow as Task};
ghost use Rattle.run_states.specs.declared.row.RunRow.{RunRow as Row};
ghost use Rattle.task_spec.specs.Bounds.{IsTask};
ghost use Rattle.row_check.specs.HasTests.{HasTests};
ghost use Rattle.value_bytes.specs.Rows.{row};
ghost use Rattle.value_bytes.specs.Tasks.{task_row};
ghost use Rattle.host_codec.specs.Books.{back, book, epochs, front, lent, pair, second};

use byte_codec::coded::{Coded, write_three, write_two};
use byte_codec::lists::write_list;
use byte_codec::whole::read_whole;
use host_model::task_row::TaskRow;
use limit_apply::limits::Limits;
use ps_lists::tiered_lent::Lent;
use ps_time::items::Items;
use ps_time::key::RunKey;
use ps_time::memory::Memory;
use ps_time::moment::Moment;
use run_states::lent::LentRows;
use run_states::row::RunRow;
use std::alloc::Global;
use std::marker::Model;
use value_bytes::fault::CodeFault;

/// What a host keeps, seen by contracts as its book.
#[derive(Drop)]
pub struct KeptBook {
    /// The latest moment, in seconds since 1970 UTC.
    pub moment: Moment,
    /// The limits that were set, numbered from 1.
    pub epochs: Items<Limits>,
    /// For each accepted run the number of its epoch, 0 where there was none.
    pub pairs: Items<(RunKey, u32)>,
    /// The tasks, in the order of their serials.
    pub tasks: Items<TaskRow>,
    /// The rows, ascending by key.
    pub rows: Items<RunRow>,
}

impl Model for KeptBook {
    ghost use Rattle.host_model.specs.Book.{Book};

    ghost Value = { Book };

    ghost view = { λ b. record { moment = b.moment; epochs = b.epochs; pairs = b.pairs; tasks = b.tasks; rows = b.rows } };
}

impl KeptBook {
    /// The book of a host that has kept nothing.
    pub fn empty(alloc: Global) -> KeptBook
        ensures { result ≡ empty_book }
    {
        KeptBook {
            moment: 0,
            epochs: Items::new(alloc),
            pairs: Items::new(alloc),
            tasks: Items::new(alloc),
            rows: Items::new(alloc),
        }
    }
}

/// The parts of a book, lent to be written.
#[derive(Drop)]
pub struct BookParts<'a> {
    /// The latest moment, in seconds since 1970 UTC.
    pub moment: Moment,
    /// The limits that were set, numbered from 1.
    pub epochs: &'a [Limits],
    /// For each accepted run the number of its epoch, 0 where there was none.
    pub pairs: Lent<'a, (RunKey, u32)>,
    /// The tasks, in the order of their serials.
    pub tasks: &'a [TaskRow],
    /// The rows, ascending by key.
    pub rows: LentRows<'a>,
}

fn write_mark(alloc: Global, out: &mut Vec<u8>) -> Result<(), Memory>
    ensures { OnOk result (out.new.items ≡ out.old.items ++ second.code tt) }
{
    u64::MAX.write(alloc, out)?;
    2u32.write(alloc, out)
}

fn write_each_pair(
    alloc: Global,
    pairs: Lent<'_, (RunKey, u32)>,
    out: &mut Vec<u8>,
) -> Result<(), Memory>
    requires { All pair.Writable pairs }
    ensures code { OnOk result (out.new.items ≡ out.old.items ++ flat_map pair.code pairs.entry) }
    ensures fit { OnOk result (All pair.Fits pairs.entry) }
{
    for pair in pairs {
        pair.write(alloc, out)?;
    }
    Ok(())
}

// The bytes of a list. 2^32 pairs or more have none, and are out of memory.
fn write_pairs(
    alloc: Global,
    pairs: Lent<'_, (RunKey, u32)>,
    out: &mut Vec<u8>,
) -> Result<(), Memory>
    requires { (list pair).Writable pairs }
    ensures code { OnOk result (out.new.items ≡ out.old.items ++ (list pair).code pairs.entry) }
    ensures fits { OnOk result ((list pair).Fits pairs.entry) }
{
    let Ok(count) = u32::try_from(pairs.len()) else {
        return Err(Memory);
    };
    count.write(alloc, out)?;
    write_each_pair(alloc, pairs, out)
}

fn write_epochs(
    alloc: Global,
    limits: &[Limits],
    pairs: Lent<'_, (RunKey, u32)>,
    out: &mut Vec<u8>,
) -> Result<(), Memory>
    requires { epochs.Writable (limits.now, pairs) }
    ensures code { OnOk result (out.new.items ≡ out.old.items ++ epochs.code (limits.now, pairs.entry)) }
    ensures fits { OnOk result (epochs.Fits (limits.now, pairs.entry)) }
{
    write_list(alloc, limits, out)?;
    write_pairs(alloc, pairs, out)
}

fn write_front(
    alloc: Global,
    moment: Moment,
    limits: &[Limits],
    pairs: Lent<'_, (RunKey, u32)>,
    out: &mut Vec<u8>,
) -> Result<(), Memory>
    requires { front.Writable (moment, (limits.now, pairs)) }
    ensures code { OnOk result (out.new.items ≡ out.old.items ++ front.code (moment, (limits.now, pairs.entry))) }
    ensures fits { OnOk result (front.Fits (moment, (limits.now, pairs.entry))) }
{
    moment.write(alloc, out)?;
    write_epochs(alloc, limits, pairs, out)
}

fn write_each_row(alloc: Global, rows: LentRows<'_>, out: &mut Vec<u8>) -> Result<(), Memory>
    requires { All row.Writable rows }
    ensures code { OnOk result (out.new.items ≡ out.old.items ++ flat_map row.code rows.entry) }
    ensures fit { OnOk result (All row.Fits rows.entry) }
{
    for row in rows {
        row.write(alloc, out)?;
    }
    Ok(())
}

// The bytes of a list. 2^32 rows or more have none, and are out of memory.
fn write_rows(alloc: Global, rows: LentRows<'_>, out: &mut Vec<u8>) -> Result<(), Memory>
    requires { (list row).Writable rows }
    ensures code { OnOk result (out.new.items ≡ out.old.items ++ (list row).code rows.entry) }
    ensures fits { OnOk result ((list row).Fits rows.entry) }
{
    let Ok(count) = u32::try_from(rows.len()) else {
        return Err(Memory);
    };
    count.write(alloc, out)?;
    write_each_row(alloc, rows, out)
}

fn write_back(
    alloc: Global,
    tasks: &[TaskRow],
    rows: LentRows<'_>,
    out: &mut Vec<u8>,
) -> Result<(), Memory>
    requires { back.Writable (tasks.now, rows) }
    ensures code { OnOk result (out.new.items ≡ out.old.items ++ back.code (tasks.now, rows.entry)) }
    ensures fits { OnOk result (back.Fits (tasks.now, rows.entry)) }
{
    write_list(alloc, tasks, out)?;
    write_rows(alloc, rows, out)
}

/// Adds the snapshot of a book.
pub fn write_book(alloc: Global, parts: BookParts<'_>, out: &mut Vec<u8>) -> Result<(), Memory>
    requires { book.Writable (lent parts) }
    ensures code { OnOk result (out.new.items ≡ out.old.items ++ book.code (lent parts.entry)) }
    ensures fits { OnOk result (book.Fits (lent parts.entry)) }
{
    let BookParts {
        moment,
        epochs,
        pairs,
        tasks,
        rows,
    } = parts;
    write_mark(alloc, out)?;
    write_front(alloc, moment, epochs, pairs, out)?;
    write_back(alloc, tasks, rows, out)
}

fn read_mark(alloc: Global, bytes: &[u8]) -> Result<&[u8], CodeFault>
    ensures { Gives (λ rest. (tt, rest.now)) result (second.read bytes.now) }
{
    let ((greatest, format), rest) = <(u64, u32)>::read(alloc, bytes)?;
    if greatest == u64::MAX && format == 2 {
        Ok(rest)
    } else {
        Err(CodeFault::NoValue)
    }
}

type Front = (u64, (Items<Limits>, Items<(RunKey, u32)>));

type Back = (Items<TaskRow>, Items<RunRow>);

impl Coded for KeptBook {
    ghost use Rattle.host_codec.specs.Books.{book, book_is};

    ghost codec = { book };

    fn write(&self, alloc: Global, out: &mut Vec<u8>) -> Result<(), Memory> {
        write_mark(alloc, out)?;
        write_three(alloc, &self.moment, &self.epochs, &self.pairs, out)?;
        write_two(alloc, &self.tasks, &self.rows, out)
    }

    fn read(alloc: Global, bytes: &[u8]) -> Result<(KeptBook, &[u8]), CodeFault> {
        let rest = read_mark(alloc, bytes)?;
        let (((moment, (epochs, pairs)), (tasks, rows)), rest) = <(Front, Back)>::read(
            alloc, rest,
        )?;
        let kept = KeptBook {
            moment,
            epochs,
            pairs,
            tasks,
            rows,
        };
        Ok((kept, rest))
    }

    ghost laws = { book_is };
}

/// The book whose snapshot of the second format these bytes are, followed by nothing; `None` where they are that of none.
pub fn read_book(alloc: Global, bytes: &[u8]) -> Result<Option<KeptBook>, Memory>
    ensures found { IfOk result (λ o. IfSome o (λ b. book.Fits b × (bytes.now ≡ book.code b))) }
    ensures only { IfOk result (λ o. (b : Book) → book.Fits b → bytes.now ≡ book.code b → o ≡ Some b) }
    ensures exact { IfOk result (λ o. o ≡ whole_of (book.read bytes.now)) }
{
    read_whole::<KeptBook>(alloc, bytes)
}

/// A law: each lawful book may be written.
pub fn law_writable_book()
    ensures { (self : ℕ) (b : Book) → Lawful self b → book.Writable b }
{}

/// Laws: the tests and tasks of what was read keep their bounds, as the tests of books ask.
pub fn law_read()
    ensures rows { (r : Row) → row.Fits r → HasTests r }
    ensures tasks { (t : Task) → task_row.Fits t → IsTask t.asker.server t.task }
{}
