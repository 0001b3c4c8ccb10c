//! What rows are read as.
ghost use Rattle.std.specs.Prelude.{◌≡◌, ◌≤◌, IfOk, []};
ghost use Rattle.sqlite.specs.Order.{column};
ghost use Rattle.sqlite_value.specs.Value.{owned};
ghost use Rattle.room_rows.specs.Keep.{capped};
ghost use Rattle.store_tables.specs.Meaning.{named_in, node_in, number_in};
ghost use Rattle.store_tables.specs.Seeing.{result_of_seen, bytes_as, bytes_seen};
ghost use Rattle.store_tables.specs.Seeing.{counted_by, names_seen};
ghost use Rattle.store_tables.specs.Seeing.{numbers_seen, seen_behind, seen_in, seen_only};
ghost use Rattle.store_tables.specs.Seeing.{top_of, unread_as};

use crate::reading::{kind_of, name_of, number_of, read_node, text_at, value_at};
use crate::recent::RecentLists;
use room_ace::{Names, ObjKind};
use room_rows::{Bytes, KeepFault, Listing, Node, Nodes, Numbers, Text, failed};
use sqlite::Row;
use sqlite::types::ValueRef;
use std::alloc::{AllocError, Global};

/// What rows are read as, unless one has no number, or can't be read.
#[derive(Drop)]
pub(crate) enum Seen<T> {
    Foreign,
    Unread(u64),
    Found(T),
}

// A row that can't be read.
fn unread<T>(row: &Row) -> Seen<T>
    ensures { result ≡ unread_as (number_in (column row.now 0)) }
{
    match number_of(value_at(row, 0)) {
        Some(id) => Seen::Unread(id),
        None => Seen::Foreign,
    }
}

fn see(alloc: Global, lists: &mut RecentLists, row: &Row) -> Result<Seen<Node>, AllocError>
    ensures { IfOk result (λ seen. seen ≡ seen_in node_in row.now) }
{
    match read_node(alloc, lists, row)? {
        Some(node) => Ok(Seen::Found(node)),
        None => Ok(unread(row)),
    }
}

/// The object in the row that was found, if there is one. There are to be no two.
pub(crate) fn see_only(
    alloc: Global,
    lists: &mut RecentLists,
    rows: &[Row],
) -> Result<Seen<Option<Node>>, AllocError>
    ensures { IfOk result (λ seen. seen ≡ seen_only rows.now) }
{
    match rows {
        [] => Ok(Seen::Found(None)),
        [row] => match read_node(alloc, lists, row)? {
            Some(node) => Ok(Seen::Found(Some(node))),
            None => Ok(unread(row)),
        },
        _ => Ok(Seen::Foreign),
    }
}

/// The objects in all rows.
pub(crate) fn see_all(
    alloc: Global,
    lists: &mut RecentLists,
    rows: &[Row],
) -> Result<Seen<Nodes>, AllocError>
    ensures { IfOk result (λ seen. seen ≡ seen_behind node_in [] rows.now) }
{
    let mut nodes = Nodes::new(alloc);
    for row in rows {
        match see(alloc, lists, row)? {
            Seen::Found(node) => nodes.push(node)?,
            Seen::Unread(id) => return Ok(Seen::Unread(id)),
            Seen::Foreign => return Ok(Seen::Foreign),
        }
    }
    Ok(Seen::Found(nodes))
}

// A name and a kind.
fn see_named(alloc: Global, row: &Row) -> Result<Seen<(Text, ObjKind)>, AllocError>
    ensures { IfOk result (λ seen. seen ≡ seen_in named_in row.now) }
{
    let Some(kind) = kind_of(value_at(row, 2)) else {
        return Ok(unread(row));
    };
    match text_at(alloc, value_at(row, 1))? {
        Some(name) => Ok(Seen::Found((name, kind))),
        None => Ok(unread(row)),
    }
}

/// The names and kinds in all rows.
pub(crate) fn see_listing(alloc: Global, rows: &[Row]) -> Result<Seen<Listing>, AllocError>
    ensures { IfOk result (λ seen. seen ≡ seen_behind named_in [] rows.now) }
{
    let mut names = Vec::new(alloc);
    for row in rows {
        match see_named(alloc, row)? {
            Seen::Found(name) => names.push(name)?,
            Seen::Unread(id) => return Ok(Seen::Unread(id)),
            Seen::Foreign => return Ok(Seen::Foreign),
        }
    }
    Ok(Seen::Found(Listing::from_vec(names)))
}

fn bytes_of(alloc: Global, value: ValueRef<'_>) -> Result<Seen<Option<Bytes>>, AllocError>
    ensures { IfOk result (λ seen. seen ≡ bytes_as (owned value.entry)) }
{
    match value {
        ValueRef::Blob(bytes) => {
            let copy = Vec::from_slice(alloc, bytes)?;
            Ok(Seen::Found(Some(Bytes::from_vec(copy))))
        }
        _ => Ok(Seen::Foreign),
    }
}

/// The bytes in the row that was found, if there is one.
pub(crate) fn see_bytes(alloc: Global, rows: &[Row]) -> Result<Seen<Option<Bytes>>, AllocError>
    ensures { IfOk result (λ seen. seen ≡ bytes_seen rows.now) }
{
    match rows {
        [] => Ok(Seen::Found(None)),
        [row] => bytes_of(alloc, value_at(row, 0)),
        _ => Ok(Seen::Foreign),
    }
}

/// The names in the first column, but for what is none.
pub(crate) fn see_names(alloc: Global, rows: &[Row]) -> Result<Names, AllocError>
    ensures { IfOk result (λ names. names ≡ names_seen rows.now) }
{
    let mut names = Names::new(alloc);
    for row in rows {
        match name_of(alloc, value_at(row, 0))? {
            Some(name) => names.push(name)?,
            None => {}
        }
    }
    Ok(names)
}

/// The numbers in the first column.
pub(crate) fn see_numbers(alloc: Global, rows: &[Row]) -> Result<Numbers, AllocError>
    ensures { IfOk result (λ ids. ids ≡ numbers_seen rows.now) }
{
    let mut ids = Numbers::new(alloc);
    for row in rows {
        match number_of(value_at(row, 0)) {
            Some(id) => ids.push(id)?,
            None => {}
        }
    }
    Ok(ids)
}

/// The answer of a call by what is seen.
pub(crate) fn answer<T>(seen: Seen<T>, failures: &mut u64) -> Result<T, KeepFault>
    ensures answer { result ≡ result_of_seen seen }
    ensures counted { counted_by result (capped failures.old) (capped failures.new) }
    ensures no_less { failures.old ≤ failures.new }
{
    match seen {
        Seen::Foreign => Err(failed(failures)),
        Seen::Unread(id) => Err(KeepFault::Damaged { id }),
        Seen::Found(found) => Ok(found),
    }
}

/// The answer of a call for the root.
pub(crate) fn answer_top(seen: Seen<Option<Node>>, failures: &mut u64) -> Result<Node, KeepFault>
    ensures answer { result ≡ top_of seen }
    ensures counted { counted_by result (capped failures.old) (capped failures.new) }
    ensures no_less { failures.old ≤ failures.new }
{
    match answer(seen, failures)? {
        Some(node) => Ok(node),
        None => Err(KeepFault::NoRoot),
    }
}
