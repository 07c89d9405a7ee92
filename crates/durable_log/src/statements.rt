// The statements of a log.
ghost use Rattle.std.specs.Prelude.{◌≡◌, ◌≢◌, ℤ, pos, false, [], ◌∷◌, map, take, IfOk, OnOk, IsPermutation};
ghost use Rattle.sqlite.specs.Order.{column, bytes};
ghost use Rattle.sqlite.specs.State.{HasCleanDisk, Opens, Survives, IsUnchanged};
ghost use Rattle.sqlite.specs.Held.{state};
ghost use Rattle.durable_log.specs.Log.{no_schema, strings, Gains, IsReady, IsKept, IsEmptyLog, IsBegun, IsAt, KeepsPlaces, LeavesOnly, IsBetween, IsReplaced};

use crate::log_error::LogError;
use crate::table::{is_log, is_none};
use sqlite::{Alter, Connection, Error, ErrorCode, Row, params};
use std::alloc::Global;

// Adds a string. At `Ok` a crash leaves a log that has it; at any moment, the log before it or the log with it.
fn add<S: Alter>(conn: &mut Connection<S>, string: &[u8]) -> Result<usize, Error>
    requires { HasCleanDisk (state S.Store conn.old) → IsReady (state S.Store conn.old) }
    ensures acknowledged { HasCleanDisk (state S.Store conn.new) → OnOk result (IsKept (state S.Store conn.old) (state S.Store conn.new) string.now) }
    ensures placed { HasCleanDisk (state S.Store conn.new) → OnOk result ((place : ℤ) → place ≢ pos 0 → place ≡ (state S.Store conn.new).last_rowid
        → IsAt (state S.Store conn.new).now.trees place string.now × KeepsPlaces (state S.Store conn.old).now.trees (state S.Store conn.new).now.trees) }
    ensures any_moment { Survives (state S.Store conn.old) (state S.Store conn.new) (λ db. Gains (state S.Store conn.old).now.trees db string.now) }
{
    conn.execute("INSERT INTO log (bytes) VALUES (?1)", params![string])
}

/// Adds a string, as `add` does, and gives the number of its row, which SQLite counts from 1 on.
pub fn insert<S: Alter>(conn: &mut Connection<S>, string: &[u8]) -> Result<i64, Error>
    requires { HasCleanDisk (state S.Store conn.old) → IsReady (state S.Store conn.old) }
    ensures acknowledged { HasCleanDisk (state S.Store conn.new) → OnOk result (IsKept (state S.Store conn.old) (state S.Store conn.new) string.now) }
    ensures placed { HasCleanDisk (state S.Store conn.new) → IfOk result (λ place. IsAt (state S.Store conn.new).now.trees place string.now × KeepsPlaces (state S.Store conn.old).now.trees (state S.Store conn.new).now.trees) }
    ensures any_moment { Survives (state S.Store conn.old) (state S.Store conn.new) (λ db. Gains (state S.Store conn.old).now.trees db string.now) }
{
    add(conn, string)?;
    let place = conn.last_insert_rowid();
    if place == 0 {
        return Err(Error::SqliteFailure(ErrorCode::NoRowid));
    }
    Ok(place)
}

// The rows of the strings, in some order.
fn select<S: Alter>(conn: &mut Connection<S>) -> Result<Vec<Row>, Error>
    requires { HasCleanDisk (state S.Store conn.old) → IsReady (state S.Store conn.old) }
    ensures strings { HasCleanDisk (state S.Store conn.new) → IfOk result (λ rows. IsPermutation (strings (state S.Store conn.old).now.trees) (map (λ r. bytes (column r 0)) rows.items)) }
    ensures same { HasCleanDisk (state S.Store conn.new) → OnOk result (IsUnchanged (state S.Store conn.old) (state S.Store conn.new)) }
    ensures any_moment { Survives (state S.Store conn.old) (state S.Store conn.new) (λ db. ⊥) }
{
    conn.query_all("SELECT bytes FROM log", &[])
}

fn string_in(row: &Row) -> Result<Vec<u8>, Error>
    ensures { IfOk result (λ string. string.items ≡ bytes (column row.now 0)) }
{
    row.get(0)
}

fn strings_in(alloc: Global, rows: &[Row]) -> Result<Vec<Vec<u8>>, Error>
    ensures { IfOk result (λ found. map (λ string. string.items) found.items ≡ map (λ r. bytes (column r 0)) rows.now) }
{
    let mut found = Vec::with_capacity(alloc, rows.len())?;
    for row in rows {
        found.push(string_in(row)?)?;
    }
    Ok(found)
}

/// All the strings, in some order.
pub fn select_strings<S: Alter>(
    alloc: Global,
    conn: &mut Connection<S>,
) -> Result<Vec<Vec<u8>>, Error>
    requires { HasCleanDisk (state S.Store conn.old) → IsReady (state S.Store conn.old) }
    ensures strings { HasCleanDisk (state S.Store conn.new) → IfOk result (λ found. IsPermutation (strings (state S.Store conn.old).now.trees) (map (λ string. string.items) found.items)) }
    ensures ready { HasCleanDisk (state S.Store conn.new) → OnOk result (IsReady (state S.Store conn.new)) }
    ensures same { HasCleanDisk (state S.Store conn.new) → OnOk result (IsUnchanged (state S.Store conn.old) (state S.Store conn.new)) }
    ensures any_moment { Survives (state S.Store conn.old) (state S.Store conn.new) (λ db. ⊥) }
{
    let rows = select(conn)?;
    strings_in(alloc, rows.as_slice())
}

// Makes the table of an empty database.
fn create<S: Alter>(conn: &mut Connection<S>) -> Result<usize, Error>
    requires schema { (state S.Store conn.old).now.schema ≡ no_schema }
    requires autocommit { conn.old.in_transaction ≡ false }
    ensures made { HasCleanDisk (state S.Store conn.new) → OnOk result (IsEmptyLog (state S.Store conn.new)) }
    ensures any_moment { Survives (state S.Store conn.old) (state S.Store conn.new) (λ db. strings db ≡ []) }
{
    conn.execute(
        "CREATE TABLE log (seq INTEGER PRIMARY KEY, bytes BLOB NOT NULL) STRICT",
        &[],
    )
}

/// Makes the table in a database that was just opened, where there is none. A database with other tables is refused.
pub fn begin<S: Alter>(conn: &mut Connection<S>) -> Result<(), LogError>
    requires opened { HasCleanDisk (state S.Store conn.old) → Opens (state S.Store conn.old) }
    requires fresh { conn.old.in_transaction ≡ false }
    ensures begun { HasCleanDisk (state S.Store conn.new) → OnOk result (HasCleanDisk (state S.Store conn.old) × IsBegun (state S.Store conn.old) (state S.Store conn.new)) }
{
    if is_log(conn.schema()) {
        return Ok(());
    }
    if !is_none(conn.schema()) {
        return Err(LogError::NotALog);
    }
    match create(conn) {
        Ok(_) => Ok(()),
        Err(error) => Err(failure(error)),
    }
}

/// The refusal that an error of the database is.
pub fn failure(error: Error) -> LogError {
    match error {
        Error::SqliteFailure(ErrorCode::OutOfMemory) => LogError::OutOfMemory,
        Error::SqliteFailure(ErrorCode::DatabaseBusy) => LogError::InUse,
        other => LogError::Database(other),
    }
}

// Deletes all rows but those of these numbers.
fn delete_others<S: Alter>(
    conn: &mut Connection<S>,
    first: i64,
    second: i64,
    third: i64,
) -> Result<usize, Error>
    requires { HasCleanDisk (state S.Store conn.old) → IsReady (state S.Store conn.old) }
    ensures left { HasCleanDisk (state S.Store conn.new) → OnOk result (IsReady (state S.Store conn.new) × LeavesOnly (state S.Store conn.old).now.trees (state S.Store conn.new).now.trees (first ∷ second ∷ third ∷ [])) }
    ensures any_moment { Survives (state S.Store conn.old) (state S.Store conn.new) (λ db. LeavesOnly (state S.Store conn.old).now.trees db (first ∷ second ∷ third ∷ [])) }
{
    conn.execute(
        "DELETE FROM log WHERE seq <> ?1 AND seq <> ?2 AND seq <> ?3",
        params![first, second, third],
    )
}

/// Adds three strings, and then deletes all other rows.
pub fn replace<S: Alter>(
    conn: &mut Connection<S>,
    first: &[u8],
    second: &[u8],
    third: &[u8],
) -> Result<usize, Error>
    requires { HasCleanDisk (state S.Store conn.old) → IsReady (state S.Store conn.old) }
    ensures replaced { HasCleanDisk (state S.Store conn.new) → OnOk result (IsReady (state S.Store conn.new) × IsReplaced (state S.Store conn.old).now.trees (state S.Store conn.new).now.trees (first.now ∷ second.now ∷ third.now ∷ [])) }
    ensures any_moment { Survives (state S.Store conn.old) (state S.Store conn.new) (λ db. IsBetween (state S.Store conn.old).now.trees db (first.now ∷ second.now ∷ third.now ∷ [])) }
{
    let a = insert(conn, first)?;
    let b = insert(conn, second)?;
    let c = insert(conn, third)?;
    delete_others(conn, a, b, c)
}
