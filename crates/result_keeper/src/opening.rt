//! What a keeper takes of a database that was just opened.
ghost use Rattle.std.specs.Prelude.{◌≡◌, ◌≢◌, [], Err, IfOk, IsTrue, OnOk};
ghost use Rattle.std.specs.List.{AllByRecursion};
ghost use Rattle.sqlite.specs.Held.{state};
ghost use Rattle.sqlite.specs.State.{HasCleanDisk, IsUnchanged};
ghost use Rattle.sqlite.specs.Steps.{IsEmpty};
ghost use Rattle.result_keeper.specs.Opening.{IsOpenedWith, HasFound, open_fault_of};
ghost use Rattle.result_rows.specs.Keeps.{IsSound, Keeps};
ghost use Rattle.result_rows.specs.Rows.{IsRecord, columns_in};
ghost use Rattle.result_rows.specs.Table.{results_schema};

use crate::row::read_row;
use ps_time::memory::Memory;
use result_rows::schema::{has_results, is_bare};
use result_rows::statement::{all_select, create_table};
use sqlite::{Alter, Connection, Error, ErrorCode, Row};
use std::alloc::{AllocError, Global};

/// Why there is no keeper over a database.
#[derive(Clone, Copy, Debug, PartialEq, Eq)]
pub enum OpenFault {
    /// The file can't be opened, as one that another program holds, is no database, or can't be read or written.
    Failed,
    Memory,
    /// The database has another table, or a table `result` that is another.
    OtherTables,
    /// A row of the table is no record.
    NoRecord,
}

impl From<AllocError> for OpenFault {
    ghost use Rattle.std.specs.Prelude.{◌≡◌};
    ghost use Rattle.result_keeper.specs.declared.opening.OpenFault.TheVariants.{Memory as out_of_memory};

    ghost from_gives = { λ _ fault. fault ≡ out_of_memory };

    fn from(_fault: AllocError) -> OpenFault {
        OpenFault::Memory
    }
}

/// What a refusal of the database means for who opens it.
pub(crate) fn open_fault_of(error: &Error) -> OpenFault
    ensures value { result ≡ open_fault_of error.now }
    ensures others { result ≢ OpenFault.OtherTables }
    ensures records { result ≢ OpenFault.NoRecord }
{
    match error {
        Error::SqliteFailure(ErrorCode::OutOfMemory) => OpenFault::Memory,
        _ => OpenFault::Failed,
    }
}

/// Whether the row is a record.
fn is_record(alloc: Global, row: &Row) -> Result<bool, Error>
    ensures { IfOk result (λ is. IsTrue is → IsRecord row.now) }
{
    match read_row(alloc, row) {
        Ok(found) => Ok(found.is_some()),
        Err(Memory) => Err(Error::SqliteFailure(ErrorCode::OutOfMemory)),
    }
}

/// Whether each row of the table is a record. The rows are read one at a time.
fn are_records<S: Alter>(alloc: Global, conn: &mut Connection<S>) -> Result<bool, Error>
    requires { conn.old.schema ≡ results_schema }
    ensures clean { HasCleanDisk (state S.Store conn.new) → HasCleanDisk (state S.Store conn.old) }
    ensures records { HasCleanDisk (state S.Store conn.new)
        → IfOk result (λ all. IsTrue all → AllByRecursion (λ row. IsRecord (columns_in row)) ((state S.Store conn.old).now.trees 0)) }
    ensures same { HasCleanDisk (state S.Store conn.new) → OnOk result (IsUnchanged (state S.Store conn.old) (state S.Store conn.new)) }
{
    let mut rows = conn.query(all_select(), &[])?;
    'rows: for _ in 0..u64::MAX {
        let Some(row) = rows.next()? else {
            return Ok(true);
        };
        if !is_record(alloc, row)? {
            return Ok(false);
        }
    }
    Ok(false)
}

/// Makes the table.
fn make_table<S: Alter>(conn: &mut Connection<S>) -> Result<(), OpenFault>
    ensures clean { HasCleanDisk (state S.Store conn.new) → HasCleanDisk (state S.Store conn.old) }
    ensures made { IsEmpty (state S.Store conn.old) → HasCleanDisk (state S.Store conn.new)
        → OnOk result (IsSound (state S.Store conn.new) × Keeps (state S.Store conn.new) []) }
    ensures others { result ≢ Err OpenFault.OtherTables }
    ensures records { result ≢ Err OpenFault.NoRecord }
{
    match create_table(conn) {
        Ok(_) => Ok(()),
        Err(error) => Err(open_fault_of(&error)),
    }
}

/// Looks at the rows of the table.
fn take_table<S: Alter>(alloc: Global, conn: &mut Connection<S>) -> Result<(), OpenFault>
    requires { conn.old.schema ≡ results_schema }
    ensures clean { HasCleanDisk (state S.Store conn.new) → HasCleanDisk (state S.Store conn.old) }
    ensures same { HasCleanDisk (state S.Store conn.new) → result ≡ Err OpenFault.NoRecord → IsUnchanged (state S.Store conn.old) (state S.Store conn.new) }
    ensures table { IsOpenedWith (state S.Store conn.old) → HasCleanDisk (state S.Store conn.new)
        → OnOk result (HasFound (state S.Store conn.old) (state S.Store conn.new)) }
    ensures others { result ≢ Err OpenFault.OtherTables }
{
    match are_records(alloc, conn) {
        Ok(true) => Ok(()),
        Ok(false) => Err(OpenFault::NoRecord),
        Err(error) => Err(open_fault_of(&error)),
    }
}

/// Takes the table of results of a database that was just opened, and makes it in an empty one. A database that has others, or
/// whose rows are no records, stays as it is.
pub(crate) fn adopt<S: Alter>(alloc: Global, conn: &mut Connection<S>) -> Result<(), OpenFault>
    ensures clean { HasCleanDisk (state S.Store conn.new) → HasCleanDisk (state S.Store conn.old) }
    ensures others { result ≡ Err OpenFault.OtherTables → conn.new ≡ conn.old }
    ensures same { HasCleanDisk (state S.Store conn.new) → result ≡ Err OpenFault.NoRecord → IsUnchanged (state S.Store conn.old) (state S.Store conn.new) }
    ensures empty { IsEmpty (state S.Store conn.old) → HasCleanDisk (state S.Store conn.new)
        → OnOk result (IsSound (state S.Store conn.new) × Keeps (state S.Store conn.new) []) }
    ensures table { IsOpenedWith (state S.Store conn.old) → HasCleanDisk (state S.Store conn.new)
        → OnOk result (HasFound (state S.Store conn.old) (state S.Store conn.new)) }
{
    if is_bare(conn.schema()) {
        return make_table(conn);
    }
    if !has_results(conn.schema()) {
        return Err(OpenFault::OtherTables);
    }
    take_table(alloc, conn)
}
