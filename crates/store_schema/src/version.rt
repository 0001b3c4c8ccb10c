//! The number of the schema.
ghost use Rattle.std.specs.Prelude.{◌≡◌, ◌≢◌, Err};
ghost use Rattle.sqlite.specs.Held.{state};
ghost use Rattle.store_schema.specs.NewRoom.{number_shown, whole_in};
ghost use Rattle.store_schema.specs.Opening.{AsksVersion, Expects, FailsToRead, Says};
ghost use Rattle.store_schema.specs.Migrating.{Stamps};
ghost use Rattle.sqlite_value.specs.Value.{owned};
ghost use Rattle.sqlite_value.specs.Order.{column};

use crate::fault::{OpenFault, open_fault};
use sqlite::types::ValueRef;
use sqlite::{Alter, Error, Row, Transaction, params};

fn whole_of(value: ValueRef<'_>) -> Option<i64>
    ensures { result ≡ whole_in (owned value.entry) }
{
    match value {
        ValueRef::Int(number) => Some(number),
        _ => None,
    }
}

// The value in the first column, and NULL where there is none.
fn first_of(row: &Row) -> ValueRef<'_>
    ensures { owned result ≡ column row.now 0 }
{
    match row.get_ref(0) {
        Ok(value) => value,
        Err(_) => ValueRef::Null,
    }
}

// The number in the only row.
fn number_in(rows: &[Row]) -> Option<i64>
    ensures { result ≡ number_shown rows.now }
{
    match rows {
        [row] => whole_of(first_of(row)),
        _ => None,
    }
}

// The whole number that `meta` has under the key `rooms`.
fn ask_version<S: Alter>(tx: &mut Transaction<'_, S>) -> Result<Option<i64>, OpenFault>
    ensures same_reference { tx.new.conn.ghost_name ≡ tx.old.conn.ghost_name }
    ensures asks { AsksVersion (state S.Store tx.old.conn.now) (state S.Store tx.new.conn.now)
        result }
    ensures fails { FailsToRead (state S.Store tx.old.conn.now) (state S.Store tx.new.conn.now)
        result }
{
    match tx.query_all("SELECT value FROM meta WHERE key = 'rooms'", params![]) {
        Ok(rows) => Ok(number_in(rows.as_slice())),
        Err(error) => Err(open_fault(&error)),
    }
}

// The answer for this number of a schema, where another is expected.
fn judge(version: Option<i64>, wanted: i64) -> Result<(), OpenFault>
    ensures says { Says wanted version result }
    ensures reads { result ≢ Err OpenFault.Db }
{
    match version {
        None => Err(OpenFault::NotRooms),
        Some(number) if number < wanted => Err(OpenFault::OldVersion(number)),
        Some(number) if number > wanted => Err(OpenFault::NewVersion(number)),
        Some(_) => Ok(()),
    }
}

/// Whether the schema has this number.
pub(crate) fn expect_version<S: Alter>(
    tx: &mut Transaction<'_, S>,
    wanted: i64,
) -> Result<(), OpenFault>
    ensures same_reference { tx.new.conn.ghost_name ≡ tx.old.conn.ghost_name }
    ensures expects { Expects wanted (state S.Store tx.old.conn.now)
        (state S.Store tx.new.conn.now) result }
    ensures fails { FailsToRead (state S.Store tx.old.conn.now) (state S.Store tx.new.conn.now)
        result }
{
    let version = ask_version(tx)?;
    judge(version, wanted)
}

/// Writes the number 2 over that of an older schema.
pub(crate) fn update_version<S: Alter>(tx: &mut Transaction<'_, S>) -> Result<usize, Error>
    ensures same_reference { tx.new.conn.ghost_name ≡ tx.old.conn.ghost_name }
    ensures stamps { Stamps (state S.Store tx.old.conn.now) (state S.Store tx.new.conn.now)
        result }
{
    tx.execute("UPDATE meta SET value = 2 WHERE key = 'rooms'", params![])
}
