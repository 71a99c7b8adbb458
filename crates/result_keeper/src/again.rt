//! A keeper that is closed and opened again.
ghost use Rattle.std.specs.Prelude.{◌≡◌, List, IfOk};
ghost use Rattle.sqlite.specs.Effect.{IsDatabase};
ghost use Rattle.sqlite.specs.Files.{file_state, over_files};
ghost use Rattle.sqlite.specs.State.{HasCleanDisk, IsLive};
ghost use Rattle.result_keeper.specs.Keeper.{store_of};
ghost use Rattle.result_keeper.specs.Opening.{IsOpenedWith};
ghost use Rattle.result_rows.specs.Keeps.{IsSound, Keeps};
ghost use Rattle.result_table.specs.declared.record.Record.{Record as Kept};

use crate::opening::{OpenFault, open_fault_of};
use crate::sqlite_keeper::{SqliteKeeper, take_files};
use sqlite::{Connection, FileStore, Options};
use sqlite_disk::Disk;
use std::alloc::Global;

/// Copies the log into the database file, and opens both again.
fn reopen_files<D: Disk + Drop>(
    alloc: Global,
    conn: Connection<FileStore<D>>,
    options: Options,
) -> Result<Connection<FileStore<D>>, OpenFault>
    requires { IsLive (file_state conn) }
    ensures begun { IfOk result (λ again. HasCleanDisk (file_state again) → IsOpenedWith (file_state again)) }
    ensures same { IfOk result (λ again. HasCleanDisk (file_state again) → (file_state again).committed.trees ≡ (file_state conn).committed.trees) }
    ensures live { IfOk result (λ again. HasCleanDisk (file_state again) → IsDatabase (file_state conn).now) }
{
    let files = match conn.close_files() {
        Ok(files) => files,
        Err((error, store)) => {
            drop(store);
            return Err(open_fault_of(&error));
        }
    };
    match Connection::open_files(alloc, files, options) {
        Ok(again) => Ok(again),
        Err((error, left)) => {
            drop(left);
            Err(open_fault_of(&error))
        }
    }
}

/// A keeper whose files are closed and opened again: it has the table that it had. The log is copied into the database file.
pub fn reopen<D: Disk + Drop>(
    alloc: Global,
    keeper: SqliteKeeper<FileStore<D>>,
    options: Options,
) -> Result<SqliteKeeper<FileStore<D>>, OpenFault>
    ensures table { (table : List Kept) → Keeps (store_of over_files keeper) table → IfOk result (λ again. HasCleanDisk (store_of over_files again)
        → IsSound (store_of over_files again) × Keeps (store_of over_files again) table) }
{
    match reopen_files(alloc, keeper.into_connection(), options) {
        Ok(conn) => take_files(alloc, conn),
        Err(fault) => Err(fault),
    }
}
