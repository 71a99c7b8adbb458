//! A keeper over SQL.
ghost use Rattle.std.specs.Prelude.{◌≡◌, ◌≤◌, ℕ, List, [], Option, IfOk, OnOk, OnErr, IfSome, length, All, Ok, Err};
ghost use Rattle.sqlite.specs.Held.{state};
ghost use Rattle.sqlite.specs.State.{HasCleanDisk, IsLive, Executes, Shown};
ghost use Rattle.sqlite.specs.Files.{file_state, over_files};
ghost use Rattle.sqlite.specs.Steps.{IsEmpty, over_memory};
ghost use Rattle.sqlite.specs.WalFiles.{image_at};
ghost use Rattle.sqlite.specs.Order.{Row as Values};
ghost use Rattle.sqlite.specs.declared.error.Error.{Error as SqlError};
ghost use Rattle.ps_ports.specs.Causes.{Rose, counted, raised};
ghost use Rattle.ps_time.specs.Numbers.{greatest_moment};
ghost use Rattle.result_keeper.specs.Keeper.{fault_of, store_of, faults_with, put_params, get_params, list_params};
ghost use Rattle.result_keeper.specs.Row.{IsFound, AreRowsOf};
ghost use Rattle.result_keeper.specs.Opening.{IsOpenedWith, HasFound};
ghost use Rattle.result_rows.specs.Found.{IsTableIn};
ghost use Rattle.result_rows.specs.Keeps.{IsSound, Keeps};
ghost use Rattle.result_rows.specs.Statement.{put_text, get_text, list_text};
ghost use Rattle.result_table.specs.Record.{put_record, find_record, first_above, IsTable, HasMoments, IsAbove};
ghost use Rattle.result_table.specs.declared.record.Record.{Record as Kept};

use crate::opening::{OpenFault, adopt, open_fault_of};
use crate::row::{read_found, read_list};
use ps_ports::faults::Faults;
use ps_time::key::RunKey;
use ps_time::moment::Moment;
use result_rows::run_id::{write_after, write_key};
use result_rows::statement::{get_rows, list_rows, put_row};
use result_table::keeper::{Keeper, KeeperFault};
use result_table::record::{Record, is_good};
use sqlite::{
    Alter, Connection, Error, ErrorCode, File, FileFrom, FileStore, MemStore, Start, Unknown,
};
use sqlite_disk::Disk;
use std::alloc::Global;

/// A keeper whose records are the rows of a table `result`: the identifier of the run, both moments in seconds, 1 or 0 for
/// `good`, and the body.
#[derive(Drop)]
pub struct SqliteKeeper<S: Alter> {
    conn: Connection<S>,
    faults: Faults,
}

/// What a refusal of the database means for a keeper.
fn fault_of(error: &Error) -> KeeperFault
    ensures { result ≡ fault_of error.now }
{
    match error {
        Error::SqliteFailure(ErrorCode::OutOfMemory) => KeeperFault::Memory,
        _ => KeeperFault::Failed,
    }
}

impl SqliteKeeper<MemStore> {
    /// A keeper in memory, with no records.
    pub fn in_memory(alloc: Global) -> Result<SqliteKeeper<MemStore>, OpenFault>
        ensures faults { IfOk result (λ keeper. counted keeper.faults ≡ 0) }
        ensures sound { IfOk result (λ keeper. IsSound (store_of over_memory keeper)) }
        ensures table { IfOk result (λ keeper. Keeps (store_of over_memory keeper) []) }
    {
        SqliteKeeper::over(alloc, Connection::open_in_memory(alloc)?)
    }
}

impl SqliteKeeper<FileStore<File>> {
    /// A keeper over a database in a file, which is made where it isn't there. It is `open_from` for a program that states
    /// nothing of what its files held.
    pub fn open(rt: &HostRuntime, path: &str) -> Result<SqliteKeeper<FileStore<File>>, OpenFault>
        ensures faults { IfOk result (λ keeper. counted keeper.faults ≡ 0) }
    {
        SqliteKeeper::open_from(rt, path, Unknown)
    }
}

impl<S: Start> SqliteKeeper<FileStore<FileFrom<S>>> {
    /// A keeper over a database in a file, where `S` stands for what the file and its log hold. Its table is the one that they
    /// hold, and it is empty where they hold no database yet. A file is refused, and stays as it is, where it has other tables
    /// or rows that are no records.
    pub fn open_from(
        rt: &HostRuntime,
        path: &str,
        start: S,
    ) -> Result<SqliteKeeper<FileStore<FileFrom<S>>>, OpenFault>
        ensures faults { IfOk result (λ keeper. counted keeper.faults ≡ 0) }
        ensures table { IfOk result (λ keeper. HasCleanDisk (store_of over_files keeper)
            → IsSound (store_of over_files keeper) × (table : List Kept) × Keeps (store_of over_files keeper) table × IsTableIn (image_at S.Start) table) }
    {
        match Connection::open_from(rt, path, false, start) {
            Ok(conn) => take_files(rt.alloc(), conn),
            Err((error, left)) => {
                drop(left);
                Err(open_fault_of(&error))
            }
        }
    }
}

/// Takes the table of files that were just opened. What needs a file's store as an `Alter` takes the prover long, so `over` is called
/// for files here alone.
pub(crate) fn take_files<D: Disk + Drop>(
    alloc: Global,
    conn: Connection<FileStore<D>>,
) -> Result<SqliteKeeper<FileStore<D>>, OpenFault>
    ensures faults { IfOk result (λ keeper. counted keeper.faults ≡ 0) }
    ensures clean { IfOk result (λ keeper. HasCleanDisk (store_of over_files keeper) → HasCleanDisk (file_state conn)) }
    ensures table { IsOpenedWith (file_state conn) → IfOk result (λ keeper. HasCleanDisk (store_of over_files keeper)
        → HasFound (file_state conn) (store_of over_files keeper)) }
{
    SqliteKeeper::over(alloc, conn)
}

impl<S: Alter + Drop> SqliteKeeper<S> {
    /// Takes the table of a database that was just opened.
    pub(crate) fn over(alloc: Global, mut conn: Connection<S>) -> Result<SqliteKeeper<S>, OpenFault>
        ensures faults { IfOk result (λ keeper. counted keeper.faults ≡ 0) }
        ensures clean { IfOk result (λ keeper. HasCleanDisk (store_of S.Store keeper) → HasCleanDisk (state S.Store conn)) }
        ensures empty { IsEmpty (state S.Store conn) → IfOk result (λ keeper. HasCleanDisk (store_of S.Store keeper)
            → IsSound (store_of S.Store keeper) × Keeps (store_of S.Store keeper) []) }
        ensures table { IsOpenedWith (state S.Store conn) → IfOk result (λ keeper. HasCleanDisk (store_of S.Store keeper)
            → HasFound (state S.Store conn) (store_of S.Store keeper)) }
    {
        adopt(alloc, &mut conn)?;
        Ok(SqliteKeeper {
            conn,
            faults: Faults::none(),
        })
    }
}

impl<S: Alter> SqliteKeeper<S> {
    pub(crate) fn into_connection(self) -> Connection<S>
        ensures same { result ≡ self.conn }
        ensures live { IsLive (state S.Store result) }
    {
        let SqliteKeeper { conn, faults: _ } = self;
        let _live = conn.schema();
        conn
    }
}

/// Counts that the database refused a statement, unless memory ran out.
fn count_refusal(faults: &mut Faults, error: &Error) -> KeeperFault
    ensures fault { result ≡ fault_of error.now }
    ensures count { faults.new ≡ faults_with faults.old (fault_of error.now) }
{
    let fault = fault_of(error);
    if fault == KeeperFault::Failed {
        faults.raise();
    }
    fault
}

/// Counts that rows are no records.
fn count_unread(faults: &mut Faults) -> KeeperFault
    ensures fault { result ≡ KeeperFault.Failed }
    ensures count { faults.new ≡ raised faults.old }
{
    faults.raise();
    KeeperFault::Failed
}

impl<S: Alter> Keeper for SqliteKeeper<S> {
    ghost use Rattle.ps_ports.specs.Causes.{counted, counted_fits};
    ghost use Rattle.result_keeper.specs.Keeper.{store_of};
    ghost use Rattle.result_rows.specs.Keeps.{IsSound, Keeps};

    ghost keeper_faults = { λ k. counted k.faults };

    ghost has_table = { λ k table. Keeps (store_of S.Store k) table };

    ghost is_sound = { λ k. IsSound (store_of S.Store k) };

    fn put(
        &mut self,
        alloc: Global,
        key: RunKey,
        moment: Moment,
        body: &str,
    ) -> Result<(), KeeperFault>
        requires { moment ≤ greatest_moment }
        ensures later { counted self.old.faults ≤ counted self.new.faults }
        ensures failed { result ≡ Err KeeperFault.Failed → Rose (counted self.old.faults) (counted self.new.faults) }
        ensures sound { IsSound (store_of S.Store self.new) → IsSound (store_of S.Store self.old) }
        ensures ok { (table : List Kept) → Keeps (store_of S.Store self.old) table → IsSound (store_of S.Store self.new)
            → OnOk result (Keeps (store_of S.Store self.new) (put_record table key moment body.now)) }
        ensures err { (table : List Kept) → Keeps (store_of S.Store self.old) table → IsSound (store_of S.Store self.new)
            → OnErr result (Keeps (store_of S.Store self.new) table) }
        ensures runs { HasCleanDisk (store_of S.Store self.new)
            → OnOk result ((count : ℕ) × Executes put_text (put_params key moment body.now) (store_of S.Store self.old) (store_of S.Store self.new) (Ok count)) }
        ensures refused { HasCleanDisk (store_of S.Store self.new) → result ≡ Err KeeperFault.Failed
            → (error : SqlError) × Executes put_text (put_params key moment body.now) (store_of S.Store self.old) (store_of S.Store self.new) (Err error) }
    {
        let id = write_key(alloc, key)?;
        let good = is_good(alloc, body)?;
        match put_row(&mut self.conn, id.as_str(), moment, good, body) {
            Ok(_changed) => Ok(()),
            Err(error) => Err(count_refusal(&mut self.faults, &error)),
        }
    }

    fn get(&mut self, alloc: Global, key: RunKey) -> Result<Option<Record>, KeeperFault>
        ensures later { counted self.old.faults ≤ counted self.new.faults }
        ensures failed { result ≡ Err KeeperFault.Failed → Rose (counted self.old.faults) (counted self.new.faults) }
        ensures sound { IsSound (store_of S.Store self.new) → IsSound (store_of S.Store self.old) }
        ensures found { (table : List Kept) → Keeps (store_of S.Store self.old) table → IsSound (store_of S.Store self.new)
            → IfOk result (λ found. found ≡ find_record table key) }
        ensures stays { (table : List Kept) → Keeps (store_of S.Store self.old) table → IsSound (store_of S.Store self.new)
            → Keeps (store_of S.Store self.new) table }
        ensures bound { IfOk result (λ found. IfSome found (λ r. (r.key ≡ key) × HasMoments r)) }
        ensures shown { HasCleanDisk (store_of S.Store self.new) → IfOk result (λ found. (rows : List Values)
            × Shown get_text (get_params key) (store_of S.Store self.old) (store_of S.Store self.new) rows × IsFound rows found) }
    {
        let id = write_key(alloc, key)?;
        let rows = match get_rows(&mut self.conn, id.as_str()) {
            Ok(rows) => rows,
            Err(error) => return Err(count_refusal(&mut self.faults, &error)),
        };
        match read_found(alloc, rows.as_slice(), key)? {
            Some(found) => Ok(found),
            None => Err(count_unread(&mut self.faults)),
        }
    }

    fn list(
        &mut self,
        alloc: Global,
        after: Option<RunKey>,
        count: u32,
    ) -> Result<Vec<Record>, KeeperFault>
        ensures later { counted self.old.faults ≤ counted self.new.faults }
        ensures failed { result ≡ Err KeeperFault.Failed → Rose (counted self.old.faults) (counted self.new.faults) }
        ensures sound { IsSound (store_of S.Store self.new) → IsSound (store_of S.Store self.old) }
        ensures records { (table : List Kept) → Keeps (store_of S.Store self.old) table → IsSound (store_of S.Store self.new)
            → IfOk result (λ records. records.items ≡ first_above table after count) }
        ensures stays { (table : List Kept) → Keeps (store_of S.Store self.old) table → IsSound (store_of S.Store self.new)
            → Keeps (store_of S.Store self.new) table }
        ensures count { IfOk result (λ records. length records.items ≤ count) }
        ensures ascending { IfOk result (λ records. IsTable records.items) }
        ensures above { IfOk result (λ records. All (IsAbove after) records.items) }
        ensures moments { IfOk result (λ records. All HasMoments records.items) }
        ensures shown { HasCleanDisk (store_of S.Store self.new) → IfOk result (λ records. (rows : List Values)
            × Shown list_text (list_params after count) (store_of S.Store self.old) (store_of S.Store self.new) rows × AreRowsOf rows records.items) }
    {
        let id = write_after(alloc, after)?;
        let rows = match list_rows(&mut self.conn, id.as_str(), i64::from(count)) {
            Ok(rows) => rows,
            Err(error) => return Err(count_refusal(&mut self.faults, &error)),
        };
        match read_list(alloc, rows.as_slice(), after, count)? {
            Some(records) => Ok(records),
            None => Err(count_unread(&mut self.faults)),
        }
    }

    ghost is_table = { λ keeper table has. has.rows.ascends };

    ghost keeper_faults_fit = { λ k. counted_fits k.faults };
}
