//! The rows of a text, one after the other.
ghost use Rattle.std.specs.Prelude.{◌≡◌, IfOk, Some, None, option_map};
ghost use Rattle.csv.specs.Reading.{default_config, strip_bom, records};
ghost use Rattle.csv.specs.Records.{fields_of};
ghost use Rattle.room_import.specs.Rows.{ReadsNextRow, ReadsRow, rows_left, two_of};

use csv::{ErrorKind, Reader, ReaderBuilder, StringRecord};
use std::alloc::{AllocError, Global};

/// What reading the next row finds.
#[derive(Clone, Copy, Debug, PartialEq, Eq)]
pub(crate) enum NextRow {
    /// There are no more rows.
    End,
    /// A row with a field that isn't UTF-8.
    NotText,
    /// A row of texts.
    Text,
}

/// A reader of the rows of the bytes after a byte order mark.
pub(crate) fn rows_of(alloc: Global, bytes: &[u8]) -> Reader<&[u8]>
    ensures goes { ReadsNextRow result }
    ensures rows { rows_left result ≡ records default_config (strip_bom bytes.now) }
{
    ReaderBuilder::new()
        .has_headers(false)
        .flexible(true)
        .from_reader(alloc, bytes)
}

/// Reads the next row.
pub(crate) fn next_row(
    reader: &mut Reader<&[u8]>,
    row: &mut StringRecord,
) -> Result<NextRow, AllocError>
    requires { ReadsNextRow reader.old }
    ensures { IfOk result (ReadsRow reader.old reader.new (fields_of row.new)) }
{
    match reader.read_record(row) {
        Ok(true) => Ok(NextRow::Text),
        Ok(false) => Ok(NextRow::End),
        Err(error) => match error.kind() {
            ErrorKind::Utf8 { .. } => Ok(NextRow::NotText),
            ErrorKind::Io(_) | ErrorKind::OutOfMemory => Err(AllocError),
            ErrorKind::UnequalLengths { .. } => unreachable!(),
            ErrorKind::Serialize(_) => unreachable!(),
            ErrorKind::Deserialize { .. } => unreachable!(),
        },
    }
}

/// The two fields of a row that has two.
pub(crate) fn two_fields(row: &StringRecord) -> Option<(&str, &str)>
    ensures { option_map (λ pair. (pair.0.now, pair.1.now)) result ≡ two_of (fields_of row.now) }
{
    if row.len() != 2 {
        return None;
    }
    let group = row.get(0)?;
    let user = row.get(1)?;
    Some((group, user))
}
