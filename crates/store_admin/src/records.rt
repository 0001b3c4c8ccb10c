//! All records.
ghost use Rattle.std.specs.Prelude.{◌≡◌, IfOk, MatchOption, false, is_some, true};
ghost use Rattle.std.specs.List.{filter_map, list_all};
ghost use Rattle.sqlite.specs.Held.{state};
ghost use Rattle.sqlite.specs.declared.types.Value.TheVariants.{Int};
ghost use Rattle.sqlite_value.specs.Value.{owned};
ghost use Rattle.store_tables.specs.Meaning.{granted_in, mask_in, moment_in, path_in, place_in};
ghost use Rattle.store_tables.specs.Meaning.{user_in};
ghost use Rattle.store_tables.specs.Statements.{QueriesSql};
ghost use Rattle.store_tables.specs.Carries.{AnswersOpen, CallsInside, Reading};
ghost use Rattle.store_tables.specs.Failing.{FailsInside, FailsSql};
ghost use Rattle.store_admin.specs.Operating.{
  AreRecords,
  HasRecords,
  HasUnreadRecord,
  record_seen,
};

use room_ace::{Failure, Mask, Name};
use room_rows::{AuditRow, KeepFault, RecordKind, Text, read_path};
use sqlite::types::ValueRef;
use sqlite::{Alter, Error, Row, Transaction, params};
use std::alloc::{AllocError, Global};
use store_tables::{fault_for, name_of, text_at, value_at};

// All records, in the order in which they were added.
fn select_records<S: Alter>(tx: &mut Transaction<'_, S>) -> Result<Vec<Row>, Error>
    ensures same_reference { tx.new.conn.ghost_name ≡ tx.old.conn.ghost_name }
    ensures asks { QueriesSql HasRecords
        (state S.Store tx.old.conn.now) (state S.Store tx.new.conn.now) result }
    ensures opens { AnswersOpen (state S.Store tx.old.conn.now) (state S.Store tx.new.conn.now)
        result }
    ensures fails { FailsSql (state S.Store tx.old.conn.now) (state S.Store tx.new.conn.now)
        result }
{
    tx.query_all(
        "SELECT at, user, path, bits, granted, entry FROM audits ORDER BY seq",
        params![],
    )
}

fn moment_of(value: ValueRef<'_>) -> Option<i64>
    ensures { result ≡ moment_in (owned value.entry) }
{
    match value {
        ValueRef::Int(moment) => Some(moment),
        _ => None,
    }
}

// The mask of a number, if it has known bits alone.
fn mask_with(number: i64) -> Option<Mask>
    ensures { result ≡ mask_in (Int number) }
{
    match u32::try_from(number) {
        Ok(bits) => Mask::from_number(bits),
        Err(_) => None,
    }
}

fn mask_of(value: ValueRef<'_>) -> Option<Mask>
    ensures { result ≡ mask_in (owned value.entry) }
{
    match value {
        ValueRef::Int(number) => mask_with(number),
        _ => None,
    }
}

fn granted_of(value: ValueRef<'_>) -> Option<bool>
    ensures { result ≡ granted_in (owned value.entry) }
{
    match value {
        ValueRef::Int(0) => Some(false),
        ValueRef::Int(1) => Some(true),
        _ => None,
    }
}

// The place and the kind of an entry: the sign is the kind.
fn place_of(value: ValueRef<'_>) -> Option<(usize, RecordKind)>
    ensures { result ≡ place_in (owned value.entry) }
{
    let ValueRef::Int(entry) = value else {
        return None;
    };
    match usize::try_from(entry.unsigned_abs()) {
        Ok(place) if entry > 0 => Some((place, RecordKind::Audit)),
        Ok(place) if entry < 0 => Some((place, RecordKind::Alarm)),
        _ => None,
    }
}

// The caller's name, which an anonymous caller hasn't.
fn user_of(alloc: Global, value: ValueRef<'_>) -> Result<Option<Option<Name>>, AllocError>
    ensures { IfOk result (λ user. user ≡ user_in (owned value.entry)) }
{
    match value {
        ValueRef::Text(bytes) if bytes.is_empty() => Ok(Some(None)),
        other => match name_of(alloc, other)? {
            Some(name) => Ok(Some(Some(name))),
            None => Ok(None),
        },
    }
}

// The text of a path.
fn path_of(alloc: Global, value: ValueRef<'_>) -> Result<Option<Text>, AllocError>
    ensures { IfOk result (λ path. path ≡ path_in (owned value.entry)) }
{
    let ValueRef::Text(bytes) = value else {
        return Ok(None);
    };
    match read_path(alloc, bytes) {
        Ok(_) => text_at(alloc, ValueRef::Text(bytes)),
        Err(Failure::OutOfMemory) => Err(AllocError),
        Err(Failure::Fault(_)) => Ok(None),
    }
}

// The record in a row, if it can be read.
fn read_record(alloc: Global, row: &Row) -> Result<Option<AuditRow>, AllocError>
    ensures { IfOk result (λ seen. seen ≡ record_seen row.now) }
{
    let Some(moment) = moment_of(value_at(row, 0)) else {
        return Ok(None);
    };
    let Some(bits) = mask_of(value_at(row, 3)) else {
        return Ok(None);
    };
    let Some(granted) = granted_of(value_at(row, 4)) else {
        return Ok(None);
    };
    let Some((place, kind)) = place_of(value_at(row, 5)) else {
        return Ok(None);
    };
    let Some(user) = user_of(alloc, value_at(row, 1))? else {
        return Ok(None);
    };
    let Some(path) = path_of(alloc, value_at(row, 2))? else {
        return Ok(None);
    };
    Ok(Some(AuditRow {
        at: moment,
        user,
        path,
        bits,
        granted,
        place,
        kind,
    }))
}

// The records in the rows, if all of them can be read.
fn see_records(alloc: Global, rows: &[Row]) -> Result<Option<Vec<AuditRow>>, AllocError>
    ensures { IfOk result (λ records. MatchOption records
        (list_all (λ row. is_some (record_seen row)) rows.now ≡ false)
        (λ records. (list_all (λ row. is_some (record_seen row)) rows.now ≡ true)
        × (records.items ≡ filter_map record_seen rows.now))) }
{
    let mut records = Vec::new(alloc);
    for row in rows {
        match read_record(alloc, row)? {
            Some(seen) => records.push(seen)?,
            None => return Ok(None),
        }
    }
    Ok(Some(records))
}

/// The records, in the order in which they were added. The error is `Damaged` where one can't be
/// read, and `Store` only where the database failed.
pub fn all_records<S: Alter>(
    alloc: Global,
    tx: &mut Transaction<'_, S>,
) -> Result<Vec<AuditRow>, KeepFault>
    ensures same_reference { tx.new.conn.ghost_name ≡ tx.old.conn.ghost_name }
    ensures carries { CallsInside (state S.Store tx.old.conn.now) (state S.Store tx.new.conn.now)
        result HasUnreadRecord (Reading (λ db records. AreRecords db records.items)) }
    ensures opens { AnswersOpen (state S.Store tx.old.conn.now) (state S.Store tx.new.conn.now)
        result }
    ensures fails { FailsInside (state S.Store tx.old.conn.now) (state S.Store tx.new.conn.now)
        result }
{
    let rows = match select_records(tx) {
        Ok(rows) => rows,
        Err(error) => return Err(fault_for(error)),
    };
    match see_records(alloc, rows.as_slice())? {
        Some(records) => Ok(records),
        // It is a record's row, not that of an object.
        None => Err(KeepFault::Damaged { id: 0 }),
    }
}
