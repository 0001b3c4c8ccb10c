//! The columns of an object.
ghost use Rattle.std.specs.Int.{w64};
ghost use Rattle.std.specs.Prelude.{◌≡◌, ◌<◌, FitsSigned, Some, IfOk, IfSome, pos, string_bytes};
ghost use Rattle.sqlite.specs.declared.types.Value.TheVariants.{Int, Text as SqlText};
ghost use Rattle.store_tables.specs.Columns.{IsParent, Recalls, ReadsAsHeld, ReadsAsNode};
ghost use Rattle.store_tables.specs.Meaning.{flags_in, kind_in, mask_in, name_in};
ghost use Rattle.store_tables.specs.Meaning.{parent_in, path_in, place_in, text_in, user_in};
ghost use Rattle.store_tables.specs.Printed.{IsPrinted};

use room_ace::{Failure, ListFlags, Mask, Name, ObjKind, Owners, names_are_text, print_entries};
use room_rows::{AuditRow, Held, Node, RecordKind, Text, read_path};
use sqlite::Error;
use sqlite::types::Value;
use std::alloc::{AllocError, Global};

/// What the columns of an object hold, but for its number.
#[derive(Drop)]
pub(crate) struct Columns {
    pub(crate) parent: Value,
    pub(crate) name: String,
    pub(crate) kind: i64,
    pub(crate) owner: String,
    pub(crate) group: String,
    pub(crate) dacl_flags: i64,
    pub(crate) sacl_flags: i64,
    pub(crate) dacl_own: String,
    pub(crate) dacl_inh: String,
    pub(crate) sacl_own: String,
    pub(crate) sacl_inh: String,
}

/// The rowid of an object's number, as a parameter of a statement. Some numbers have none.
pub(crate) fn rowid_of(id: u64) -> Result<i64, Error>
    ensures { IfOk result (λ row. FitsSigned w64 (pos id) × (row ≡ pos id) × (0 < id)) }
{
    match i64::try_from(id) {
        Ok(row) if id > 0 => Ok(row),
        _ => Err(Error::IntegralValueOutOfRange(0)),
    }
}

fn parent_column(parent: Option<u64>) -> Option<Value>
    ensures { IfSome result (λ v. IsParent v × (parent_in v ≡ Some parent)) }
{
    match parent {
        None => Some(Value::Null),
        Some(id) => match rowid_of(id) {
            Ok(row) => Some(Value::Int(row)),
            Err(_) => None,
        },
    }
}

fn kind_column(kind: ObjKind) -> i64
    ensures { kind_in (Int result) ≡ Some kind }
{
    match kind {
        ObjKind::Document => 0,
        ObjKind::Folder => 1,
    }
}

fn flags_column(flags: ListFlags) -> i64
    ensures { flags_in (Int result) ≡ Some flags }
{
    match (flags.auto, flags.protect) {
        (false, false) => 0,
        (true, false) => 1,
        (false, true) => 2,
        (true, true) => 3,
    }
}

fn text_column(alloc: Global, text: &Text) -> Result<String, AllocError>
    ensures { IfOk result (λ t. text_in (SqlText (string_bytes t)) ≡ Some text.now) }
{
    text.is_known();
    String::from_str(alloc, text.as_str())
}

/// Tells a proof that a text is read back as this text.
pub(crate) fn text_is_kept(text: &str)
    ensures { text_in (SqlText text.now) ≡ Some text.now }
{
    let _text = text;
}

/// Tells a proof that a name's text is read back as this name.
pub(crate) fn name_is_kept(name: &Name)
    ensures { name_in (SqlText name.now) ≡ Some name.now }
{
    names_are_text();
    name.is_known();
}

fn name_column(alloc: Global, name: &Name) -> Result<String, AllocError>
    ensures { IfOk result (λ t. name_in (SqlText (string_bytes t)) ≡ Some name.now) }
{
    names_are_text();
    name.is_known();
    String::from_str(alloc, name.as_str())
}

// The owner and the group.
fn owner_columns(alloc: Global, owners: &Owners) -> Result<(String, String), AllocError>
    ensures { IfOk result (λ t. (name_in (SqlText (string_bytes t.0)) ≡ Some owners.now.owner)
        × (name_in (SqlText (string_bytes t.1)) ≡ Some owners.now.group)) }
{
    let owner = name_column(alloc, &owners.owner)?;
    let group = name_column(alloc, &owners.group)?;
    Ok((owner, group))
}

// The own and the inherited entries.
fn list_columns(alloc: Global, held: &Held) -> Result<(String, String), AllocError>
    ensures { IfOk result (λ t. IsPrinted held.now.own (string_bytes t.0)
        × IsPrinted held.now.inh (string_bytes t.1)) }
{
    let own = print_entries(alloc, held.own())?;
    let inh = print_entries(alloc, held.inh())?;
    Ok((own, inh))
}

/// What the columns of a list hold.
#[derive(Drop)]
pub(crate) struct HeldColumns {
    pub(crate) flags: i64,
    pub(crate) own: String,
    pub(crate) inh: String,
}

/// The columns in which the list is stored.
pub(crate) fn held_columns(alloc: Global, held: &Held) -> Result<HeldColumns, AllocError>
    ensures { IfOk result (ReadsAsHeld held.now) }
{
    let (own, inh) = list_columns(alloc, held)?;
    Ok(HeldColumns {
        flags: flags_column(held.flags()),
        own,
        inh,
    })
}

/// The columns in which the object is stored, if it can be.
pub(crate) fn columns_of(alloc: Global, node: &Node) -> Result<Option<Columns>, AllocError>
    ensures { IfOk result (λ o. IfSome o (ReadsAsNode node.now)) }
{
    let Some(parent) = parent_column(node.parent) else {
        return Ok(None);
    };
    let name = text_column(alloc, &node.name)?;
    let (owner, group) = owner_columns(alloc, &node.owners)?;
    let (dacl_own, dacl_inh) = list_columns(alloc, &node.dacl)?;
    let (sacl_own, sacl_inh) = list_columns(alloc, &node.sacl)?;
    Ok(Some(Columns {
        parent,
        name,
        kind: kind_column(node.kind),
        owner,
        group,
        dacl_flags: flags_column(node.dacl.flags()),
        sacl_flags: flags_column(node.sacl.flags()),
        dacl_own,
        dacl_inh,
        sacl_own,
        sacl_inh,
    }))
}

/// What the columns of a record hold, but for its number.
#[derive(Drop)]
pub(crate) struct Record {
    pub(crate) at: i64,
    pub(crate) user: String,
    pub(crate) path: String,
    pub(crate) bits: u32,
    pub(crate) granted: bool,
    pub(crate) entry: i64,
}

fn bits_column(bits: Mask) -> u32
    ensures { mask_in (Int (pos result)) ≡ Some bits }
{
    bits.number()
}

fn user_column(alloc: Global, user: &Option<Name>) -> Result<String, AllocError>
    ensures { IfOk result (λ t. user_in (SqlText (string_bytes t)) ≡ Some user.now) }
{
    match user {
        None => Ok(String::new(alloc)),
        Some(name) => name_column(alloc, name),
    }
}

// The text of a path, and of nothing else.
fn path_column(alloc: Global, path: &Text) -> Result<Option<String>, AllocError>
    ensures { IfOk result
        (λ o. IfSome o (λ t. path_in (SqlText (string_bytes t)) ≡ Some path.now)) }
{
    match read_path(alloc, path.as_str().as_bytes()) {
        Ok(_) => Ok(Some(String::from_str(alloc, path.as_str())?)),
        Err(Failure::OutOfMemory) => Err(AllocError),
        Err(Failure::Fault(_)) => Ok(None),
    }
}

// The sign is the kind, so a place counts from 1.
fn entry_column(place: usize, kind: RecordKind) -> Option<i64>
    ensures { IfSome result (λ entry. place_in (Int entry) ≡ Some (place, kind)) }
{
    match i64::try_from(place) {
        Ok(number) if place > 0 => match kind {
            RecordKind::Audit => Some(number),
            RecordKind::Alarm => Some(-number),
        },
        _ => None,
    }
}

/// The columns in which the record is stored, if it can be.
pub(crate) fn record_of(alloc: Global, row: &AuditRow) -> Result<Option<Record>, AllocError>
    ensures { IfOk result (λ o. IfSome o (Recalls row.now)) }
{
    let Some(entry) = entry_column(row.place, row.kind) else {
        return Ok(None);
    };
    let Some(path) = path_column(alloc, &row.path)? else {
        return Ok(None);
    };
    let user = user_column(alloc, &row.user)?;
    Ok(Some(Record {
        at: row.at,
        user,
        path,
        bits: bits_column(row.bits),
        granted: row.granted,
        entry,
    }))
}
