// Which tables a database has.
ghost use Rattle.std.specs.Prelude.{◌≡◌, [], ◌∷◌, codes, Some, IsTrue};
ghost use Rattle.durable_log.specs.Log.{seq_column, bytes_column, log_table, IsPlainTable, log_schema, no_schema};

use sqlite_schema::schema::{Column, Kind, Schema, Table};
use sqlite_value::keys::Collation;
use sqlite_value::value::Value;

fn is_seq(column: &Column) -> bool
    ensures { IsTrue result → column.now ≡ seq_column }
{
    column.name.as_slice() == b"seq".as_slice()
        && column.kind == Kind::Integer
        && column.is_strict
        && !column.not_null
        && matches!(column.default, Value::Null)
        && column.collation == Collation::Binary
}

fn is_bytes(column: &Column) -> bool
    ensures { IsTrue result → column.now ≡ bytes_column }
{
    column.name.as_slice() == b"bytes".as_slice()
        && column.kind == Kind::Blob
        && column.is_strict
        && column.not_null
        && matches!(column.default, Value::Null)
        && column.collation == Collation::Binary
}

fn has_columns(table: &Table) -> bool
    ensures { IsTrue result → table.now.columns ≡ seq_column ∷ bytes_column ∷ [] }
{
    match table.columns.as_slice() {
        [seq, bytes] => is_seq(seq) && is_bytes(bytes),
        _ => false,
    }
}

fn is_plain(table: &Table) -> bool
    ensures { IsTrue result → IsPlainTable table.now }
{
    table.uniques.is_empty()
        && table.orders.is_empty()
        && table.checks.roots.is_empty()
        && table.references.is_empty()
        && table.computed.is_empty()
        && table.stamps.places.is_empty()
        && table.stamps.terms.roots.is_empty()
        && table.stamps.formats.is_empty()
        && !table.is_counted
}

fn has_name(table: &Table) -> bool
    ensures { IsTrue result → (table.now.name ≡ codes "log") × (table.now.tree ≡ 0) }
{
    table.name.as_slice() == b"log".as_slice() && table.tree == 0
}

fn has_key(table: &Table) -> bool
    ensures { IsTrue result → (table.now.key ≡ Some 0) × (table.now.primary ≡ 0 ∷ []) }
{
    matches!(table.key, Some(0)) && matches!(table.primary.as_slice(), [0])
}

#[tactic(auto, using(crate::proofs::TableLemmas::is_log_by))]
fn is_log_table(table: &Table) -> bool
    ensures { IsTrue result → table.now ≡ log_table }
{
    if !has_name(table) {
        return false;
    }
    if !has_key(table) {
        return false;
    }
    if !has_columns(table) {
        return false;
    }
    is_plain(table)
}

/// Whether the database has the table of the log and nothing else.
pub fn is_log(schema: &Schema) -> bool
    ensures { IsTrue result → schema.now ≡ log_schema }
{
    match schema.tables.as_slice() {
        [table] => is_log_table(table) && schema.indexes.is_empty() && schema.views.is_empty(),
        _ => false,
    }
}

/// Whether the database has no table, index or view.
pub fn is_none(schema: &Schema) -> bool
    ensures { IsTrue result → schema.now ≡ no_schema }
{
    schema.tables.is_empty() && schema.indexes.is_empty() && schema.views.is_empty()
}
