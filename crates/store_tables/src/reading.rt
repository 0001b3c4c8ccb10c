//! Rows of the tables as objects.
ghost use Rattle.std.specs.Prelude.{◌≡◌, IfOk, option_copied};
ghost use Rattle.sqlite.specs.Order.{column};
ghost use Rattle.sqlite_value.specs.Value.{owned};
ghost use Rattle.store_tables.specs.Meaning.{entries_in, flags_in, held_in, kind_in, name_in};
ghost use Rattle.store_tables.specs.Meaning.{node_in, number_in, owners_in, parent_in, text_in};

use crate::recent::RecentLists;
use room_ace::{Entries, Failure, ListFlags, Name, ObjKind, Owners, read_name, text_of};
use room_rows::{Held, Node, Text};
use sqlite::Row;
use sqlite::types::ValueRef;
use std::alloc::{AllocError, Global};

// The columns of `nodes`, as each statement over whole rows of it names them.
const ID: usize = 0;

const PARENT: usize = 1;

const NAME: usize = 2;

const KIND: usize = 3;

const OWNER: usize = 4;

const GROUP: usize = 5;

const DACL_FLAGS: usize = 6;

const SACL_FLAGS: usize = 7;

const DACL_OWN: usize = 8;

const DACL_INH: usize = 9;

const SACL_OWN: usize = 10;

const SACL_INH: usize = 11;

/// The value in a column, and NULL past the end.
pub fn value_at(row: &Row, index: usize) -> ValueRef<'_>
    ensures { owned result ≡ column row.now index }
{
    match row.get_ref(index) {
        Ok(value) => value,
        Err(_) => ValueRef::Null,
    }
}

// The number of an object.
pub(crate) fn number_of(value: ValueRef<'_>) -> Option<u64>
    ensures { result ≡ number_in (owned value.entry) }
{
    match value {
        ValueRef::Int(number) => match u64::try_from(number) {
            Ok(id) if id > 0 => Some(id),
            _ => None,
        },
        _ => None,
    }
}

fn parent_of(value: ValueRef<'_>) -> Option<Option<u64>>
    ensures { result ≡ parent_in (owned value.entry) }
{
    match value {
        ValueRef::Null => Some(None),
        other => match number_of(other) {
            Some(id) => Some(Some(id)),
            None => None,
        },
    }
}

pub(crate) fn kind_of(value: ValueRef<'_>) -> Option<ObjKind>
    ensures { result ≡ kind_in (owned value.entry) }
{
    match value {
        ValueRef::Int(0) => Some(ObjKind::Document),
        ValueRef::Int(1) => Some(ObjKind::Folder),
        _ => None,
    }
}

fn flags_of(value: ValueRef<'_>) -> Option<ListFlags>
    ensures { result ≡ flags_in (owned value.entry) }
{
    match value {
        ValueRef::Int(0) => Some(ListFlags {
            auto: false,
            protect: false,
        }),
        ValueRef::Int(1) => Some(ListFlags {
            auto: true,
            protect: false,
        }),
        ValueRef::Int(2) => Some(ListFlags {
            auto: false,
            protect: true,
        }),
        ValueRef::Int(3) => Some(ListFlags {
            auto: true,
            protect: true,
        }),
        _ => None,
    }
}

// A text, if it is UTF-8.
pub(crate) fn str_of(value: ValueRef<'_>) -> Option<&str>
    ensures { option_copied result ≡ text_in (owned value.entry) }
{
    match value {
        ValueRef::Text(bytes) => text_of(bytes),
        _ => None,
    }
}

/// A name, if the value is the text of one.
pub fn name_of(alloc: Global, value: ValueRef<'_>) -> Result<Option<Name>, AllocError>
    ensures { IfOk result (λ name. name ≡ name_in (owned value.entry)) }
{
    let Some(text) = str_of(value) else {
        return Ok(None);
    };
    match read_name(alloc, text) {
        Ok(name) => Ok(Some(name)),
        Err(Failure::OutOfMemory) => Err(AllocError),
        Err(Failure::Fault(_)) => Ok(None),
    }
}

/// A text that is kept, if it is UTF-8.
pub fn text_at(alloc: Global, value: ValueRef<'_>) -> Result<Option<Text>, AllocError>
    ensures { IfOk result (λ text. text ≡ text_in (owned value.entry)) }
{
    match str_of(value) {
        None => Ok(None),
        Some(text) => Ok(Some(Text::from_str(alloc, text)?)),
    }
}

// The entries in a column, if they can be read.
fn entries_at(
    alloc: Global,
    lists: &mut RecentLists,
    value: ValueRef<'_>,
) -> Result<Option<Entries>, AllocError>
    ensures { IfOk result (λ entries. entries ≡ entries_in (owned value.entry)) }
{
    match value {
        ValueRef::Text(bytes) => lists.read(alloc, bytes),
        _ => Ok(None),
    }
}

fn owners_of(
    alloc: Global,
    owner: ValueRef<'_>,
    group: ValueRef<'_>,
) -> Result<Option<Owners>, AllocError>
    ensures { IfOk result (λ owners. owners ≡ owners_in (owned owner.entry) (owned group.entry)) }
{
    let Some(owner) = name_of(alloc, owner)? else {
        return Ok(None);
    };
    let Some(group) = name_of(alloc, group)? else {
        return Ok(None);
    };
    Ok(Some(Owners { owner, group }))
}

fn held_of(
    alloc: Global,
    lists: &mut RecentLists,
    flags: ValueRef<'_>,
    own: ValueRef<'_>,
    inh: ValueRef<'_>,
) -> Result<Option<Held>, AllocError>
    ensures { IfOk result
        (λ held. held ≡ held_in (owned flags.entry) (owned own.entry) (owned inh.entry)) }
{
    let Some(flags) = flags_of(flags) else {
        return Ok(None);
    };
    let Some(own) = entries_at(alloc, lists, own)? else {
        return Ok(None);
    };
    let Some(inh) = entries_at(alloc, lists, inh)? else {
        return Ok(None);
    };
    Ok(Some(Held::new(flags, own, inh)?))
}

fn dacl_in(alloc: Global, lists: &mut RecentLists, row: &Row) -> Result<Option<Held>, AllocError>
    ensures { IfOk result
        (λ held. held ≡ held_in (column row.now 6) (column row.now 8) (column row.now 9)) }
{
    let flags = value_at(row, DACL_FLAGS);
    held_of(
        alloc,
        lists,
        flags,
        value_at(row, DACL_OWN),
        value_at(row, DACL_INH),
    )
}

fn sacl_in(alloc: Global, lists: &mut RecentLists, row: &Row) -> Result<Option<Held>, AllocError>
    ensures { IfOk result
        (λ held. held ≡ held_in (column row.now 7) (column row.now 10) (column row.now 11)) }
{
    let flags = value_at(row, SACL_FLAGS);
    held_of(
        alloc,
        lists,
        flags,
        value_at(row, SACL_OWN),
        value_at(row, SACL_INH),
    )
}

/// The object in a row of all columns of `nodes`, if it can be read.
pub(crate) fn read_node(
    alloc: Global,
    lists: &mut RecentLists,
    row: &Row,
) -> Result<Option<Node>, AllocError>
    ensures { IfOk result (λ node. node ≡ node_in row.now) }
{
    let Some(id) = number_of(value_at(row, ID)) else {
        return Ok(None);
    };
    let Some(parent) = parent_of(value_at(row, PARENT)) else {
        return Ok(None);
    };
    let Some(kind) = kind_of(value_at(row, KIND)) else {
        return Ok(None);
    };
    let Some(name) = text_at(alloc, value_at(row, NAME))? else {
        return Ok(None);
    };
    let Some(owners) = owners_of(alloc, value_at(row, OWNER), value_at(row, GROUP))? else {
        return Ok(None);
    };
    let Some(dacl) = dacl_in(alloc, lists, row)? else {
        return Ok(None);
    };
    let Some(sacl) = sacl_in(alloc, lists, row)? else {
        return Ok(None);
    };
    Ok(Some(Node {
        id,
        parent,
        name,
        kind,
        owners,
        dacl,
        sacl,
    }))
}
