//! The statements over the table of results.
ghost use Rattle.std.specs.Prelude.{◌≡◌, ◌≤◌, ℕ, List, [], ◌∷◌, map, Option, IfOk, IfErr, OnOk, OnErr, pos};
ghost use Rattle.std.specs.Option.{option_to_list};
ghost use Rattle.sqlite.specs.Held.{state};
ghost use Rattle.sqlite.specs.State.{HasCleanDisk, Executes, FailsToQuery, Shown};
ghost use Rattle.sqlite.specs.Steps.{IsEmpty};
ghost use Rattle.sqlite.specs.declared.types.Value.TheVariants.{Int, Text};
ghost use Rattle.ps_time.specs.Id.{InRange};
ghost use Rattle.ps_time.specs.Numbers.{greatest_moment};
ghost use Rattle.ps_time.specs.declared.id.Id.TheVariants.{Run};
ghost use Rattle.ps_time.specs.declared.key.RunKey.{RunKey};
ghost use Rattle.result_rows.specs.Keeps.{IsSound, Keeps};
ghost use Rattle.result_rows.specs.Rows.{number_of, key_text, text_above, columns_of, HasAfter};
ghost use Rattle.result_rows.specs.Statement.{create_text, put_text, get_text, list_text, all_text};
ghost use Rattle.result_table.specs.Record.{put_record, find_record, first_above, says_good};
ghost use Rattle.result_table.specs.declared.record.Record.{Record};

use sqlite::{Alter, Connection, Error, Row, params};

const CREATE: &str =
    "CREATE TABLE IF NOT EXISTS result (id TEXT PRIMARY KEY NOT NULL, since INTEGER NOT NULL, latest INTEGER NOT NULL, good INTEGER NOT NULL, body TEXT NOT NULL) STRICT";

const PUT: &str =
    "INSERT INTO result (id, since, latest, good, body) VALUES (?1, ?2, ?2, ?3, ?4) ON CONFLICT(id) DO UPDATE SET latest = excluded.latest, good = excluded.good, body = excluded.body";

const GET: &str = "SELECT id, since, latest, good, body FROM result WHERE id = ?1";

const LIST: &str =
    "SELECT id, since, latest, good, body FROM result WHERE id > ?1 ORDER BY id LIMIT ?2";

const ALL: &str = "SELECT id, since, latest, good, body FROM result";

/// The select that shows each row of the table, in no order.
#[tactic(auto, unfolding(crate::specs::Statement::all_text))]
pub fn all_select() -> &'static str
    ensures { result.now ≡ all_text }
{
    ALL
}

/// A moment as the database takes it.
fn signed(moment: u64) -> i64
    requires { moment ≤ greatest_moment }
    ensures { result ≡ pos moment }
{
    moment as i64
}

/// A flag as the database takes it: 1 or 0.
fn flag_number(flag: bool) -> i64
    ensures { result ≡ pos (number_of flag) }
{
    if flag { 1 } else { 0 }
}

/// Runs the statement that makes the table.
#[tactic(auto, unfolding(crate::specs::Statement::create_text))]
fn run_create<S: Alter>(conn: &mut Connection<S>) -> Result<usize, Error>
    ensures clean { HasCleanDisk (state S.Store conn.new) → HasCleanDisk (state S.Store conn.old) }
    ensures runs { HasCleanDisk (state S.Store conn.new) → Executes create_text [] (state S.Store conn.old) (state S.Store conn.new) result }
{
    conn.execute(CREATE, &[])
}

/// Makes the table of results, where it isn't there.
pub fn create_table<S: Alter>(conn: &mut Connection<S>) -> Result<usize, Error>
    ensures clean { HasCleanDisk (state S.Store conn.new) → HasCleanDisk (state S.Store conn.old) }
    ensures runs { HasCleanDisk (state S.Store conn.new) → Executes create_text [] (state S.Store conn.old) (state S.Store conn.new) result }
    ensures made { IsEmpty (state S.Store conn.old) → HasCleanDisk (state S.Store conn.new)
        → OnOk result (IsSound (state S.Store conn.new) × Keeps (state S.Store conn.new) []) }
{
    run_create(conn)
}

/// Runs the upsert.
#[tactic(auto, unfolding(crate::specs::Statement::put_text))]
fn execute_put<S: Alter>(
    conn: &mut Connection<S>,
    id: &str,
    moment: i64,
    good: i64,
    body: &str,
) -> Result<usize, Error>
    ensures clean { HasCleanDisk (state S.Store conn.new) → HasCleanDisk (state S.Store conn.old) }
    ensures runs { HasCleanDisk (state S.Store conn.new)
        → Executes put_text (Text id.now ∷ Int moment ∷ Int good ∷ Text body.now ∷ []) (state S.Store conn.old) (state S.Store conn.new) result }
{
    conn.execute(PUT, params![id, moment, good, body])
}

/// Puts a result: a new id gets a row, and one that is there keeps its `since`.
pub fn put_row<S: Alter>(
    conn: &mut Connection<S>,
    id: &str,
    moment: u64,
    good: bool,
    body: &str,
) -> Result<usize, Error>
    requires { moment ≤ greatest_moment }
    ensures clean { HasCleanDisk (state S.Store conn.new) → HasCleanDisk (state S.Store conn.old) }
    ensures runs { HasCleanDisk (state S.Store conn.new)
        → Executes put_text (Text id.now ∷ Int (pos moment) ∷ Int (pos (number_of good)) ∷ Text body.now ∷ []) (state S.Store conn.old) (state S.Store conn.new) result }
    ensures sound { IsSound (state S.Store conn.new) → IsSound (state S.Store conn.old) }
    ensures ok { (table : List Record) (key : RunKey) → InRange (Run key) → id.now ≡ key_text key → good ≡ says_good body.now
        → Keeps (state S.Store conn.old) table → HasCleanDisk (state S.Store conn.new)
        → OnOk result (Keeps (state S.Store conn.new) (put_record table key moment body.now)) }
    ensures err { (table : List Record) → Keeps (state S.Store conn.old) table → IsSound (state S.Store conn.new)
        → OnErr result (Keeps (state S.Store conn.new) table) }
{
    execute_put(conn, id, signed(moment), flag_number(good), body)
}

/// Runs the select by an id.
#[tactic(auto, unfolding(crate::specs::Statement::get_text))]
fn run_get<S: Alter>(conn: &mut Connection<S>, id: &str) -> Result<Vec<Row>, Error>
    ensures clean { HasCleanDisk (state S.Store conn.new) → HasCleanDisk (state S.Store conn.old) }
    ensures ok { HasCleanDisk (state S.Store conn.new)
        → IfOk result (λ rows. Shown get_text (Text id.now ∷ []) (state S.Store conn.old) (state S.Store conn.new) rows.items) }
    ensures err { HasCleanDisk (state S.Store conn.new)
        → IfErr result (FailsToQuery get_text (Text id.now ∷ []) (state S.Store conn.old) (state S.Store conn.new)) }
{
    conn.query_all(GET, params![id])
}

/// The rows with this id, of which there is at most one.
pub fn get_rows<S: Alter>(conn: &mut Connection<S>, id: &str) -> Result<Vec<Row>, Error>
    ensures clean { HasCleanDisk (state S.Store conn.new) → HasCleanDisk (state S.Store conn.old) }
    ensures ok { HasCleanDisk (state S.Store conn.new)
        → IfOk result (λ rows. Shown get_text (Text id.now ∷ []) (state S.Store conn.old) (state S.Store conn.new) rows.items) }
    ensures err { HasCleanDisk (state S.Store conn.new)
        → IfErr result (FailsToQuery get_text (Text id.now ∷ []) (state S.Store conn.old) (state S.Store conn.new)) }
    ensures sound { IsSound (state S.Store conn.new) → IsSound (state S.Store conn.old) }
    ensures rows { (table : List Record) (key : RunKey) → InRange (Run key) → id.now ≡ key_text key
        → Keeps (state S.Store conn.old) table → HasCleanDisk (state S.Store conn.new)
        → IfOk result (λ rows. rows.items ≡ map columns_of (option_to_list (find_record table key))) }
    ensures stays { (table : List Record) → Keeps (state S.Store conn.old) table → IsSound (state S.Store conn.new)
        → Keeps (state S.Store conn.new) table }
{
    run_get(conn, id)
}

/// Runs the select above an id.
#[tactic(auto, unfolding(crate::specs::Statement::list_text))]
fn run_list<S: Alter>(conn: &mut Connection<S>, after: &str, count: i64) -> Result<Vec<Row>, Error>
    ensures clean { HasCleanDisk (state S.Store conn.new) → HasCleanDisk (state S.Store conn.old) }
    ensures ok { HasCleanDisk (state S.Store conn.new)
        → IfOk result (λ rows. Shown list_text (Text after.now ∷ Int count ∷ []) (state S.Store conn.old) (state S.Store conn.new) rows.items) }
    ensures err { HasCleanDisk (state S.Store conn.new)
        → IfErr result (FailsToQuery list_text (Text after.now ∷ Int count ∷ []) (state S.Store conn.old) (state S.Store conn.new)) }
{
    conn.query_all(LIST, params![after, count])
}

/// The first rows above this id, by their ids: at most `count`.
pub fn list_rows<S: Alter>(
    conn: &mut Connection<S>,
    after: &str,
    count: i64,
) -> Result<Vec<Row>, Error>
    ensures clean { HasCleanDisk (state S.Store conn.new) → HasCleanDisk (state S.Store conn.old) }
    ensures ok { HasCleanDisk (state S.Store conn.new)
        → IfOk result (λ rows. Shown list_text (Text after.now ∷ Int count ∷ []) (state S.Store conn.old) (state S.Store conn.new) rows.items) }
    ensures err { HasCleanDisk (state S.Store conn.new)
        → IfErr result (FailsToQuery list_text (Text after.now ∷ Int count ∷ []) (state S.Store conn.old) (state S.Store conn.new)) }
    ensures sound { IsSound (state S.Store conn.new) → IsSound (state S.Store conn.old) }
    ensures rows { (table : List Record) (key : Option RunKey) (n : ℕ) → HasAfter key → after.now ≡ text_above key → count ≡ pos n
        → Keeps (state S.Store conn.old) table → HasCleanDisk (state S.Store conn.new)
        → IfOk result (λ rows. rows.items ≡ map columns_of (first_above table key n)) }
    ensures stays { (table : List Record) → Keeps (state S.Store conn.old) table → IsSound (state S.Store conn.new)
        → Keeps (state S.Store conn.new) table }
{
    run_list(conn, after, count)
}
