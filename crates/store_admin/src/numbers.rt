//! Whether numbers are left for the next record and the next object.
ghost use Rattle.std.specs.Prelude.{◌≡◌, ◌↔◌, ◌&&◌, [], IsTrue, OnOk};
ghost use Rattle.sqlite.specs.Held.{state};
ghost use Rattle.store_tables.specs.Carries.{CallsInside, NoTables, Reading};
ghost use Rattle.store_tables.specs.Statements.{QueriesSql};
ghost use Rattle.store_tables.specs.Trust.{IsTrusted};
ghost use Rattle.store_admin.specs.Numbers.{HasNumbers, HasObjectNumbers, HasRecordNumbers};
ghost use Rattle.store_admin.specs.Numbers.{ShowsLast, ShowsSpent};

use room_rows::KeepFault;
use sqlite::{Alter, Error, Row, Transaction, params};
use store_tables::fault_for;

// The counter of records, if it has come to the largest number.
fn select_spent<S: Alter>(tx: &mut Transaction<'_, S>) -> Result<Vec<Row>, Error>
    ensures same_reference { tx.new.conn.ghost_name ≡ tx.old.conn.ghost_name }
    ensures asks { QueriesSql ShowsSpent
        (state S.Store tx.old.conn.now) (state S.Store tx.new.conn.now) result }
{
    tx.query_all(
        "SELECT seq FROM sqlite_sequence WHERE name = 'audits' AND seq >= 9223372036854775807",
        params![],
    )
}

// The object of the largest number, if there is one.
fn select_last<S: Alter>(tx: &mut Transaction<'_, S>) -> Result<Vec<Row>, Error>
    ensures same_reference { tx.new.conn.ghost_name ≡ tx.old.conn.ghost_name }
    ensures asks { QueriesSql ShowsLast
        (state S.Store tx.old.conn.now) (state S.Store tx.new.conn.now) result }
{
    tx.query_all(
        "SELECT id FROM nodes WHERE id >= 9223372036854775807",
        params![],
    )
}

fn is_none(rows: &[Row]) -> bool
    ensures { IsTrue result ↔ (rows.now ≡ []) }
{
    rows.is_empty()
}

// Whether a record can get a number: the next one is above all that were given, and the largest
// may have been.
fn has_record_numbers<S: Alter>(tx: &mut Transaction<'_, S>) -> Result<bool, KeepFault>
    ensures same_reference { tx.new.conn.ghost_name ≡ tx.old.conn.ghost_name }
    ensures carries { CallsInside (state S.Store tx.old.conn.now) (state S.Store tx.new.conn.now)
        result NoTables (Reading (λ db left. IsTrue left ↔ HasRecordNumbers db)) }
    ensures same { IsTrusted (state S.Store tx.old.conn.now) (state S.Store tx.new.conn.now)
        → OnOk result
        ((state S.Store tx.new.conn.now).now ≡ (state S.Store tx.old.conn.now).now) }
{
    match select_spent(tx) {
        Ok(rows) => Ok(is_none(rows.as_slice())),
        Err(error) => Err(fault_for(error)),
    }
}

// Whether an object can get a number: the next one is above all others.
fn has_object_numbers<S: Alter>(tx: &mut Transaction<'_, S>) -> Result<bool, KeepFault>
    ensures same_reference { tx.new.conn.ghost_name ≡ tx.old.conn.ghost_name }
    ensures carries { CallsInside (state S.Store tx.old.conn.now) (state S.Store tx.new.conn.now)
        result NoTables (Reading (λ db left. IsTrue left ↔ HasObjectNumbers db)) }
    ensures same { IsTrusted (state S.Store tx.old.conn.now) (state S.Store tx.new.conn.now)
        → OnOk result
        ((state S.Store tx.new.conn.now).now ≡ (state S.Store tx.old.conn.now).now) }
{
    match select_last(tx) {
        Ok(rows) => Ok(is_none(rows.as_slice())),
        Err(error) => Err(fault_for(error)),
    }
}

fn both(records: bool, objects: bool) -> bool
    ensures { result ≡ (records && objects) }
{
    records && objects
}

/// Whether the next record and the next object can get a number.
pub fn has_numbers<S: Alter>(tx: &mut Transaction<'_, S>) -> Result<bool, KeepFault>
    ensures same_reference { tx.new.conn.ghost_name ≡ tx.old.conn.ghost_name }
    ensures carries { CallsInside (state S.Store tx.old.conn.now) (state S.Store tx.new.conn.now)
        result NoTables (Reading (λ db left. IsTrue left ↔ HasNumbers db)) }
    ensures same { IsTrusted (state S.Store tx.old.conn.now) (state S.Store tx.new.conn.now)
        → OnOk result
        ((state S.Store tx.new.conn.now).now ≡ (state S.Store tx.old.conn.now).now) }
{
    let records = match has_record_numbers(tx) {
        Ok(records) => records,
        Err(fault) => return Err(fault),
    };
    match has_object_numbers(tx) {
        Ok(objects) => Ok(both(records, objects)),
        Err(fault) => Err(fault),
    }
}
