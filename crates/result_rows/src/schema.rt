//! Whether a database has the table of results, and no other.
ghost use Rattle.std.specs.Prelude.{◌≡◌, [], ◌∷◌, false, None, IsTrue};
ghost use Rattle.result_rows.specs.Table.{field, results, results_index, no_schema, results_schema};

use sqlite_items::Items;
use sqlite_schema::schema::{Column, Index, Kind, Schema, Table};
use sqlite_value::keys::{Collation, Order};
use sqlite_value::value::Value;

/// Whether the column has this name, and takes values of this kind alone, and no NULL.
fn is_field(column: &Column, name: &str, kind: Kind) -> bool
    ensures { IsTrue result → column.now ≡ field name.now kind }
{
    column.name.as_slice() == name.as_bytes()
        && column.kind == kind
        && column.is_strict
        && column.not_null
        && matches!(column.default, Value::Null)
        && column.collation == Collation::Binary
}

/// Whether the columns are those of a result.
fn are_fields(columns: &[Column]) -> bool
    ensures { IsTrue result → columns.now ≡ results.columns }
{
    match columns {
        [id, since, latest, good, body] => {
            is_field(id, "id", Kind::Text)
                && is_field(since, "since", Kind::Integer)
                && is_field(latest, "latest", Kind::Integer)
                && is_field(good, "good", Kind::Integer)
                && is_field(body, "body", Kind::Text)
        }
        _ => false,
    }
}

/// Whether these are the places of one key, the first column.
fn is_first(keys: &[Items<usize>]) -> bool
    ensures { IsTrue result → keys.now ≡ results.uniques }
{
    match keys {
        [key] => key.as_slice() == [1].as_slice(),
        _ => false,
    }
}

/// Whether this is the order of one key, which ascends.
fn is_ascending(orders: &[Order]) -> bool
    ensures { IsTrue result → orders.now ≡ results.orders }
{
    match orders {
        [order] => order.digits == 0,
        _ => false,
    }
}

/// Whether the key is the first column, and nothing else is unique.
fn has_key(table: &Table) -> bool
    ensures primary { IsTrue result → table.now.primary ≡ results.primary }
    ensures uniques { IsTrue result → table.now.uniques ≡ results.uniques }
    ensures orders { IsTrue result → table.now.orders ≡ results.orders }
    ensures key { IsTrue result → table.now.key ≡ None }
{
    table.key.is_none()
        && table.primary.as_slice() == [1].as_slice()
        && is_first(table.uniques.as_slice())
        && is_ascending(table.orders.as_slice())
}

/// Whether no row is refused but for its columns and its key, and none gets a value that the statement doesn't give.
fn has_no_rule(table: &Table) -> bool
    ensures checks { IsTrue result → table.now.checks ≡ [] }
    ensures references { IsTrue result → table.now.references ≡ [] }
    ensures computed { IsTrue result → table.now.computed ≡ [] }
    ensures stamps { IsTrue result → table.now.stamps ≡ results.stamps }
    ensures count { IsTrue result → table.now.is_counted ≡ false }
{
    table.checks.roots.is_empty()
        && table.references.is_empty()
        && table.computed.is_empty()
        && table.stamps.places.is_empty()
        && table.stamps.terms.roots.is_empty()
        && table.stamps.formats.is_empty()
        && !table.is_counted
}

/// Whether the table is that of results.
fn is_results(table: &Table) -> bool
    ensures { IsTrue result → table.now ≡ results }
{
    table.name.as_slice() == "result".as_bytes()
        && table.tree == 0
        && are_fields(table.columns.as_slice())
        && has_key(table)
        && has_no_rule(table)
}

/// Whether the index is that of the key.
fn is_key_index(index: &Index) -> bool
    ensures { IsTrue result → index.now ≡ results_index }
{
    index.name.as_slice() == "sqlite_autoindex_result_1".as_bytes()
        && index.tree == 1
        && index.table == 0
        && index.columns.as_slice() == [1].as_slice()
        && index.order.digits == 0
        && index.is_unique
}

/// Whether the table of results is the only one.
fn are_results(tables: &[Table]) -> bool
    ensures { IsTrue result → tables.now ≡ results ∷ [] }
{
    match tables {
        [table] => is_results(table),
        _ => false,
    }
}

/// Whether the index of its key is the only one.
fn are_key_index(indexes: &[Index]) -> bool
    ensures { IsTrue result → indexes.now ≡ results_index ∷ [] }
{
    match indexes {
        [index] => is_key_index(index),
        _ => false,
    }
}

/// Whether the table of results is all that the database has, with the index of its key.
pub fn has_results(schema: &Schema) -> bool
    ensures { IsTrue result → schema.now ≡ results_schema }
{
    are_results(schema.tables.as_slice())
        && are_key_index(schema.indexes.as_slice())
        && schema.views.is_empty()
}

/// Whether the database has no table, no index and no view.
pub fn is_bare(schema: &Schema) -> bool
    ensures { IsTrue result → schema.now ≡ no_schema }
{
    schema.tables.is_empty() && schema.indexes.is_empty() && schema.views.is_empty()
}
