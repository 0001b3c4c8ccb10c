//! Groups and records as text.
ghost use Rattle.std.specs.Prelude.{
  ◌≡◌,
  ◌++◌,
  [],
  IfOk,
  OnOk,
  codes,
  decimal,
  if◌then◌else◌,
  map,
  string_bytes,
  unwrap_or,
};
ghost use Rattle.std.specs.Fmt.{signed_decimal};
ghost use Rattle.room_entry.specs.Letters.{mask_text};
ghost use Rattle.room_import.specs.Exports.{
  groups_text,
  pair_row,
  record_header,
  record_kind_text,
  record_row,
  records_text,
};
ghost use Rattle.room_import.specs.Written.{HasRow, StandsAtRow, written};

use csv::{Writer, WriterBuilder};
use room_ace::Name;
use room_rows::{AuditRow, Bytes, RecordKind};
use std::alloc::{AllocError, Global};

/// The text of the pairs, in their order: the header `group,user`, then a row for each pair.
/// Lines end with LF, and a field has quotes only where it needs them.
pub fn write_groups(alloc: Global, pairs: &[(Name, Name)]) -> Result<Bytes, AllocError>
    ensures { IfOk result (λ bytes. bytes ≡ groups_text pairs.now) }
{
    let mut writer = rows_into(alloc);
    push_groups(&mut writer, pairs)?;
    text_of(writer)
}

/// The text of the records, in their order: the header `at,user,path,bits,granted,entry,kind`,
/// then a row for each record. The moment is a signed decimal, the user empty for a caller
/// without a name, the bits are mask letters, `granted` is `yes` or `no`, the entry is its place,
/// and the kind is `audit` or `alarm`. Lines end with LF, and a field has quotes only where it
/// needs them.
pub fn write_audits(alloc: Global, audits: &[AuditRow]) -> Result<Bytes, AllocError>
    ensures { IfOk result (λ bytes. bytes ≡ records_text audits.now) }
{
    let mut writer = rows_into(alloc);
    push_records(alloc, &mut writer, audits)?;
    text_of(writer)
}

/// A writer of rows that has written none.
pub fn rows_into(alloc: Global) -> Writer<Vec<u8>>
    ensures at_row { StandsAtRow result }
    ensures none { written result ≡ [] }
{
    WriterBuilder::new().from_writer(Vec::new(alloc))
}

/// Writes one more row.
pub fn push_row(writer: &mut Writer<Vec<u8>>, fields: &[&[u8]]) -> Result<(), AllocError>
    requires { StandsAtRow writer.old }
    ensures at_row { OnOk result (StandsAtRow writer.new) }
    ensures text { OnOk result
        (HasRow (map (λ field. field.now) fields.now) writer.old writer.new) }
{
    match writer.write_fields(fields) {
        Ok(()) => Ok(()),
        Err(_) => Err(AllocError),
    }
}

/// The text of all rows.
pub fn text_of(writer: Writer<Vec<u8>>) -> Result<Bytes, AllocError>
    ensures { IfOk result (λ bytes. bytes ≡ written writer) }
{
    match writer.into_inner() {
        Ok(text) => Ok(Bytes::from_vec(text)),
        Err(_) => Err(AllocError),
    }
}

// Writes the header of groups and the rows of the pairs.
fn push_groups(writer: &mut Writer<Vec<u8>>, pairs: &[(Name, Name)]) -> Result<(), AllocError>
    requires { StandsAtRow writer.old }
    ensures { OnOk result (written writer.new ≡ written writer.old ++ groups_text pairs.now) }
{
    push_row(writer, &["group".as_bytes(), "user".as_bytes()])?;
    for (group, user) in pairs {
        push_pair(writer, group, user)?;
    }
    Ok(())
}

// Writes the row of a pair.
fn push_pair(writer: &mut Writer<Vec<u8>>, group: &Name, user: &Name) -> Result<(), AllocError>
    requires { StandsAtRow writer.old }
    ensures at_row { OnOk result (StandsAtRow writer.new) }
    ensures text { OnOk result (HasRow (pair_row (group.now, user.now)) writer.old writer.new) }
{
    push_row(
        writer,
        &[group.as_str().as_bytes(), user.as_str().as_bytes()],
    )
}

// Writes the header of records and their rows.
fn push_records(
    alloc: Global,
    writer: &mut Writer<Vec<u8>>,
    audits: &[AuditRow],
) -> Result<(), AllocError>
    requires { StandsAtRow writer.old }
    ensures { OnOk result (written writer.new ≡ written writer.old ++ records_text audits.now) }
{
    push_header(writer)?;
    for audit in audits {
        push_record(alloc, writer, audit)?;
    }
    Ok(())
}

// Writes the header of records.
fn push_header(writer: &mut Writer<Vec<u8>>) -> Result<(), AllocError>
    requires { StandsAtRow writer.old }
    ensures at_row { OnOk result (StandsAtRow writer.new) }
    ensures text { OnOk result (HasRow record_header writer.old writer.new) }
{
    push_row(
        writer,
        &[
            "at".as_bytes(),
            "user".as_bytes(),
            "path".as_bytes(),
            "bits".as_bytes(),
            "granted".as_bytes(),
            "entry".as_bytes(),
            "kind".as_bytes(),
        ],
    )
}

// Writes the row of a record.
fn push_record(
    alloc: Global,
    writer: &mut Writer<Vec<u8>>,
    audit: &AuditRow,
) -> Result<(), AllocError>
    requires { StandsAtRow writer.old }
    ensures at_row { OnOk result (StandsAtRow writer.new) }
    ensures text { OnOk result (HasRow (record_row audit.now) writer.old writer.new) }
{
    let moment = audit.at.to_string(alloc)?;
    let bits = bits_text(alloc, audit)?;
    let place = audit.place.to_string(alloc)?;
    push_fields(
        writer,
        moment.as_str(),
        bits.as_str(),
        place.as_str(),
        audit,
    )
}

// Writes the row of a record with these fields.
fn push_fields<'a>(
    writer: &mut Writer<Vec<u8>>,
    moment: &'a str,
    bits: &'a str,
    place: &'a str,
    audit: &'a AuditRow,
) -> Result<(), AllocError>
    requires at_row { StandsAtRow writer.old }
    requires moment { moment.now ≡ signed_decimal audit.now.at }
    requires bits { bits.now ≡ mask_text audit.now.bits }
    requires place { place.now ≡ decimal audit.now.place }
    ensures at_row { OnOk result (StandsAtRow writer.new) }
    ensures text { OnOk result (HasRow (record_row audit.now) writer.old writer.new) }
{
    push_row(
        writer,
        &[
            moment.as_bytes(),
            user_str(audit).as_bytes(),
            audit.path.as_str().as_bytes(),
            bits.as_bytes(),
            granted_str(audit).as_bytes(),
            place.as_bytes(),
            kind_str(audit).as_bytes(),
        ],
    )
}

// The letters of the record's bits.
fn bits_text(alloc: Global, audit: &AuditRow) -> Result<String, AllocError>
    ensures { IfOk result (λ text. string_bytes text ≡ mask_text audit.now.bits) }
{
    let mut bits = String::new(alloc);
    audit.bits.push_letters(&mut bits)?;
    Ok(bits)
}

// The user's name, empty for a caller without a name.
fn user_str(audit: &AuditRow) -> &str
    ensures { result.now ≡ unwrap_or audit.now.user [] }
{
    match &audit.user {
        Some(name) => name.as_str(),
        None => "",
    }
}

fn granted_str(audit: &AuditRow) -> &str
    ensures { result.now ≡ (if audit.now.granted then codes "yes" else codes "no") }
{
    if audit.granted { "yes" } else { "no" }
}

fn kind_str(audit: &AuditRow) -> &str
    ensures { result.now ≡ record_kind_text audit.now.kind }
{
    match audit.kind {
        RecordKind::Audit => "audit",
        RecordKind::Alarm => "alarm",
    }
}
