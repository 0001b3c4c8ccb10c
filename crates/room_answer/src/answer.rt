//! The text of an answer, as far as it is written.
ghost use Rattle.std.specs.Prelude.{◌≡◌, ◌++◌, ◌∷◌, [], IfOk, OnOk, codes, map, string_bytes};
ghost use Rattle.room_entry.specs.Bytes.{line_feed};
ghost use Rattle.room_entry.specs.Letters.{mask_text};
ghost use Rattle.room_import.specs.Exports.{rows_text};
ghost use Rattle.room_import.specs.Written.{HasRow, StandsAtRow, written};
ghost use Rattle.room_answer.specs.Answer.{fields, header, kind_word, list_part, unknown};
ghost use Rattle.room_answer.specs.Answer.{yes_or_no};

use csv::Writer;
use room_ace::{Entry, ListFlags, Mask, ObjKind, print_list};
use room_import::{push_row, rows_into, text_of};
use room_rows::Bytes;
use std::alloc::{AllocError, Global};
use std::marker::Model;

/// What a caller may do at an object, before and after.
#[derive(Clone, Copy)]
pub struct Row<'a> {
    /// The text of the path where the object stands, or where it comes to.
    pub path: &'a str,
    /// Whether it is a folder or a document.
    pub kind: ObjKind,
    /// What the caller's rows are called.
    pub user: &'a str,
    /// The rights before.
    pub rights: Mask,
    /// Whether the caller could remove it before.
    pub remove: bool,
    /// The rights after.
    pub then: Mask,
    /// Whether the caller can remove it after.
    pub then_remove: bool,
}

/// The text of an answer as far as it is written. A contract sees the text.
#[derive(Drop)]
pub struct Answer {
    text: Vec<u8>,
}

impl Model for Answer {
    ghost use Rattle.std.specs.Prelude.{List, ℕ};

    ghost Value = { List ℕ };

    ghost view = { λ a. a.text.items };
}

impl Answer {
    /// The header alone.
    pub fn begun(alloc: Global) -> Result<Answer, AllocError>
        ensures { IfOk result (λ answer. answer ≡ rows_text (header ∷ [])) }
    {
        let mut writer = rows_into(alloc);
        push_header(&mut writer)?;
        let text = text_of(writer)?.into_vec();
        Ok(Answer { text })
    }

    /// The whole text.
    pub fn into_bytes(self) -> Bytes
        ensures { result ≡ self }
    {
        Bytes::from_vec(self.text)
    }

    /// Adds rows.
    pub fn push_rows(&mut self, alloc: Global, rows: &[Row<'_>]) -> Result<(), AllocError>
        ensures { OnOk result (self.new ≡ self.old ++ rows_text (map fields rows.now)) }
    {
        let text = rows_as_text(alloc, rows)?;
        self.text.extend_from_slice(text.as_slice())
    }

    /// Adds the row of an object of which nothing is known, which stands for all callers.
    pub fn push_unknown(
        &mut self,
        alloc: Global,
        path: &str,
        kind: ObjKind,
    ) -> Result<(), AllocError>
        ensures { OnOk result (self.new ≡ self.old ++ rows_text (unknown path.now kind ∷ [])) }
    {
        let text = unknown_as_text(alloc, path, kind)?;
        self.text.extend_from_slice(text.as_slice())
    }

    /// Adds the list of an object, below all rows.
    pub fn push_list(
        &mut self,
        alloc: Global,
        path: &str,
        flags: ListFlags,
        entries: &[Entry],
    ) -> Result<(), AllocError>
        ensures { OnOk result (self.new ≡ self.old ++ list_part path.now flags entries.now) }
    {
        let text = list_as_text(alloc, path, flags, entries)?;
        self.text.extend_from_slice(text.as_bytes())
    }
}

// The text of rows.
fn rows_as_text(alloc: Global, rows: &[Row<'_>]) -> Result<Bytes, AllocError>
    ensures { IfOk result (λ text. text ≡ rows_text (map fields rows.now)) }
{
    let mut writer = rows_into(alloc);
    push_all(alloc, &mut writer, rows)?;
    text_of(writer)
}

// Writes rows.
fn push_all(alloc: Global, writer: &mut Writer<Vec<u8>>, rows: &[Row<'_>]) -> Result<(), AllocError>
    requires { StandsAtRow writer.old }
    ensures { OnOk result
        (written writer.new ≡ written writer.old ++ rows_text (map fields rows.now)) }
{
    for row in rows {
        push_one(alloc, writer, row)?;
    }
    Ok(())
}

// Writes a row.
fn push_one(alloc: Global, writer: &mut Writer<Vec<u8>>, row: &Row<'_>) -> Result<(), AllocError>
    requires { StandsAtRow writer.old }
    ensures at_row { OnOk result (StandsAtRow writer.new) }
    ensures text { OnOk result (HasRow (fields row.now) writer.old writer.new) }
{
    let rights = letters_of(alloc, row.rights)?;
    let then = letters_of(alloc, row.then)?;
    push_fields(writer, row, rights.as_str(), then.as_str())
}

// Writes a row whose rights have these letters.
fn push_fields<'a>(
    writer: &mut Writer<Vec<u8>>,
    row: &'a Row<'a>,
    rights: &'a str,
    then: &'a str,
) -> Result<(), AllocError>
    requires at_row { StandsAtRow writer.old }
    requires rights { rights.now ≡ mask_text row.now.rights }
    requires then { then.now ≡ mask_text row.now.then }
    ensures at_row { OnOk result (StandsAtRow writer.new) }
    ensures text { OnOk result (HasRow (fields row.now) writer.old writer.new) }
{
    push_row(
        writer,
        &[
            row.path.as_bytes(),
            kind_str(&row.kind).as_bytes(),
            row.user.as_bytes(),
            rights.as_bytes(),
            yes_or_no(&row.remove).as_bytes(),
            then.as_bytes(),
            yes_or_no(&row.then_remove).as_bytes(),
        ],
    )
}

// Writes the header.
fn push_header(writer: &mut Writer<Vec<u8>>) -> Result<(), AllocError>
    requires { StandsAtRow writer.old }
    ensures at_row { OnOk result (StandsAtRow writer.new) }
    ensures text { OnOk result (HasRow header writer.old writer.new) }
{
    push_row(
        writer,
        &[
            "path".as_bytes(),
            "kind".as_bytes(),
            "user".as_bytes(),
            "rights".as_bytes(),
            "remove".as_bytes(),
            "then".as_bytes(),
            "then_remove".as_bytes(),
        ],
    )
}

// The row of an object of which nothing is known.
fn unknown_as_text(alloc: Global, path: &str, kind: ObjKind) -> Result<Bytes, AllocError>
    ensures { IfOk result (λ text. text ≡ rows_text (unknown path.now kind ∷ [])) }
{
    let mut writer = rows_into(alloc);
    push_unknown(&mut writer, path, &kind, "?", "")?;
    text_of(writer)
}

// Writes the row of an object of which nothing is known. All fields of a row are borrowed alike, so
// these two are passed.
fn push_unknown<'a>(
    writer: &mut Writer<Vec<u8>>,
    path: &'a str,
    kind: &'a ObjKind,
    all: &'a str,
    none: &'a str,
) -> Result<(), AllocError>
    requires at_row { StandsAtRow writer.old }
    requires all { all.now ≡ codes "?" }
    requires none { none.now ≡ [] }
    ensures at_row { OnOk result (StandsAtRow writer.new) }
    ensures text { OnOk result (HasRow (unknown path.now kind.now) writer.old writer.new) }
{
    push_row(
        writer,
        &[
            path.as_bytes(),
            kind_str(kind).as_bytes(),
            all.as_bytes(),
            none.as_bytes(),
            none.as_bytes(),
            none.as_bytes(),
            none.as_bytes(),
        ],
    )
}

// An empty line, the line that sets the list, and the list.
fn list_as_text(
    alloc: Global,
    path: &str,
    flags: ListFlags,
    entries: &[Entry],
) -> Result<String, AllocError>
    ensures { IfOk result (λ text. string_bytes text ≡ list_part path.now flags entries.now) }
{
    let list = print_list(alloc, flags, entries)?;
    let mut text = String::from_str(alloc, "\nset ")?;
    text.push_str(path)?;
    text.push('\n')?;
    text.push_str(list.as_str())?;
    Ok(text)
}

// The letters of rights.
fn letters_of(alloc: Global, rights: Mask) -> Result<String, AllocError>
    ensures { IfOk result (λ text. string_bytes text ≡ mask_text rights) }
{
    let mut letters = String::new(alloc);
    rights.push_letters(&mut letters)?;
    Ok(letters)
}

fn kind_str(kind: &ObjKind) -> &str
    ensures { result.now ≡ kind_word kind.now }
{
    match *kind {
        ObjKind::Folder => "folder",
        ObjKind::Document => "document",
    }
}

fn yes_or_no(is: &bool) -> &str
    ensures { result.now ≡ yes_or_no is.now }
{
    if *is { "yes" } else { "no" }
}
