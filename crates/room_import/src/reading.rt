//! Reading a group file.
ghost use Rattle.std.specs.Prelude.{◌≡◌, []};
ghost use Rattle.std.specs.Cmp.Lexicographic.{pointwise};
ghost use Rattle.csv.specs.Records.{fields_of};
ghost use Rattle.room_entry.specs.Gives.{Gives};
ghost use Rattle.room_entry.specs.Pieces.{same_text};
ghost use Rattle.room_import.specs.Groups.{group_header, groups_in, pair_of, pairs_after};
ghost use Rattle.room_import.specs.Rows.{ReadsNextRow, HeaderTaken, PairTaken, named, rows_left};

use crate::fault::{CsvFault, CsvWhy};
use crate::gathered::Gathered;
use crate::pairs::Pairs;
use crate::rows::{NextRow, next_row, rows_of, two_fields};
use csv::{Reader, StringRecord};
use room_ace::{Failure, Name, read_name};
use std::alloc::Global;

/// The number of the row with the header.
const HEADER_ROW: usize = 1;

/// The number of the last row that a group file may have: the header and 20,000 rows below it.
const LAST_ROW: usize = 20_001;

/// The pairs of group and user in the order in which each comes first. The error is the first row
/// that has a fault, or that memory ran out.
///
/// Rows are the records of the bytes after a byte order mark, by the rules of RFC 4180, with LF as
/// a line end too. Row 1 is the header `group,user`, and each further row has two fields, which are
/// names; nothing is trimmed. A repeated pair adds nothing. Of a row's faults the first is
/// reported, in the order `TooManyRows`, `NotUtf8`, `BadHeader` or `NotTwoFields`, `BadName`. Where
/// there is no row at all, row 1 is a `BadHeader`.
pub fn read_groups(alloc: Global, bytes: &[u8]) -> Result<Pairs, Failure<CsvFault>>
    ensures { Gives result (groups_in bytes.now) }
{
    let mut reader = rows_of(alloc, bytes);
    let mut row = StringRecord::new(alloc);
    read_header(&mut reader, &mut row)?;
    read_pairs(alloc, &mut reader, &mut row)
}

// The pairs of the rows below the header.
fn read_pairs(
    alloc: Global,
    reader: &mut Reader<&[u8]>,
    row: &mut StringRecord,
) -> Result<Pairs, Failure<CsvFault>>
    requires { ReadsNextRow reader.old }
    ensures { Gives result (pairs_after [] 2 (rows_left reader.old)) }
{
    let mut gathered = Gathered::new(alloc);
    let mut number = HEADER_ROW + 1;
    'rows: while let Some(pair) = read_pair(alloc, number, reader, row)? {
        gathered = gathered.with(alloc, pair.0, pair.1)?;
        number += 1;
    }
    Ok(gathered.into_pairs())
}

// Reads the first row, which has to be the header.
fn read_header(reader: &mut Reader<&[u8]>, row: &mut StringRecord) -> Result<(), Failure<CsvFault>>
    requires { ReadsNextRow reader.old }
    ensures { HeaderTaken reader.old reader.new result }
{
    match next_row(reader, row)? {
        NextRow::End => Err(refused(HEADER_ROW, CsvWhy::BadHeader)),
        NextRow::NotText => Err(refused(HEADER_ROW, CsvWhy::NotUtf8)),
        NextRow::Text => {
            if is_header(row) {
                Ok(())
            } else {
                Err(refused(HEADER_ROW, CsvWhy::BadHeader))
            }
        }
    }
}

// Whether the row is the header.
fn is_header(row: &StringRecord) -> bool
    ensures { result ≡ pointwise same_text (fields_of row.now) group_header }
{
    match two_fields(row) {
        Some((group, user)) => group == "group" && user == "user",
        None => false,
    }
}

// Reads the row of this number below the header, if there is one.
fn read_pair(
    alloc: Global,
    number: usize,
    reader: &mut Reader<&[u8]>,
    row: &mut StringRecord,
) -> Result<Option<(Name, Name)>, Failure<CsvFault>>
    requires { ReadsNextRow reader.old }
    ensures { PairTaken number reader.old reader.new result }
{
    let next = next_row(reader, row)?;
    if next == NextRow::End {
        return Ok(None);
    }
    if number > LAST_ROW {
        return Err(refused(number, CsvWhy::TooManyRows));
    }
    if next == NextRow::NotText {
        return Err(refused(number, CsvWhy::NotUtf8));
    }
    let pair = pair_of(alloc, number, row)?;
    Ok(Some(pair))
}

// The pair of a row's two fields.
fn pair_of(
    alloc: Global,
    number: usize,
    row: &StringRecord,
) -> Result<(Name, Name), Failure<CsvFault>>
    ensures { Gives result (pair_of number (fields_of row.now)) }
{
    match two_fields(row) {
        None => Err(refused(number, CsvWhy::NotTwoFields)),
        Some((group, user)) => {
            let group = name_in(alloc, number, group)?;
            let user = name_in(alloc, number, user)?;
            Ok((group, user))
        }
    }
}

// The name in a field of the row of this number.
fn name_in(alloc: Global, number: usize, field: &str) -> Result<Name, Failure<CsvFault>>
    ensures { Gives result (named number field.now) }
{
    match read_name(alloc, field) {
        Ok(name) => Ok(name),
        Err(failure) => Err(match failure {
            Failure::OutOfMemory => Failure::OutOfMemory,
            Failure::Fault(_) => refused(number, CsvWhy::BadName),
        }),
    }
}

fn refused(row: usize, why: CsvWhy) -> Failure<CsvFault>
    ensures { result ≡ Failure.Fault (record { row = row; why = why }) }
{
    Failure::Fault(CsvFault { row, why })
}
