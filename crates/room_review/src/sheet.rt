//! The text of a table.
ghost use Rattle.std.specs.Prelude.{◌≡◌, ◌∷◌, [], ◌++◌, IfOk, List, OnOk, ℕ};
ghost use Rattle.std.specs.List.{zip};
ghost use Rattle.room_entry.specs.Letters.{mask_text};
ghost use Rattle.room_machine.specs.Site.{Site};
ghost use Rattle.room_rows.specs.Paths.{path_text};
ghost use Rattle.room_import.specs.Exports.{rows_text};
ghost use Rattle.room_import.specs.Written.{HasRow, StandsAtRow, written};
ghost use Rattle.room_review.specs.Standing.{standings};
ghost use Rattle.room_review.specs.Lines.{line, lines};
ghost use Rattle.room_review.specs.Table.{header, kind_word, rows_at, yes_or_no};

use crate::parties::Party;
use crate::standing::{Standing, Standings};
use csv::Writer;
use room_ace::ObjKind;
use room_import::{push_row, rows_into, text_of};
use room_rows::Bytes;
use std::alloc::{AllocError, Global};
use std::marker::Model;

/// The text of a table as far as it is written. A contract sees the text.
#[derive(Drop)]
pub(crate) struct Sheet {
    text: Vec<u8>,
}

impl Model for Sheet {
    ghost use Rattle.std.specs.Prelude.{List, ℕ};

    ghost Value = { List ℕ };

    ghost view = { λ s. s.text.items };
}

/// What is told of an object.
#[derive(Drop)]
pub(crate) struct Described<'a> {
    /// The text of its path.
    pub(crate) path: &'a str,
    /// Whether it is a folder or a document.
    pub(crate) kind: ObjKind,
    /// All callers at it.
    pub(crate) here: &'a Standings,
    /// Whether rows stand that say the same as those of the folder above.
    pub(crate) all: bool,
}

impl Sheet {
    /// The header alone.
    pub(crate) fn begun(alloc: Global) -> Result<Sheet, AllocError>
        ensures { IfOk result (λ sheet. sheet ≡ rows_text (header ∷ [])) }
    {
        let mut writer = rows_into(alloc);
        push_header(&mut writer)?;
        let text = text_of(writer)?.into_vec();
        Ok(Sheet { text })
    }

    /// The whole text.
    pub(crate) fn into_bytes(self) -> Bytes
        ensures { result ≡ self }
    {
        Bytes::from_vec(self.text)
    }

    /// Adds the rows of an object: all of them, or those that don't repeat the folder's.
    pub(crate) fn push_rows(
        &mut self,
        alloc: Global,
        parties: &[Party],
        told: &Described<'_>,
    ) -> Result<(), AllocError>
        ensures { (above : List Site) (target : Site)
            → told.now.path.now ≡ path_text target.path → told.now.kind ≡ target.node.kind
            → told.now.here.now ≡ standings parties.now above target
            → OnOk result
            (self.new ≡ self.old ++ rows_text (rows_at told.now.all parties.now above target)) }
    {
        let mut writer = rows_into(alloc);
        push_lines(alloc, &mut writer, parties, told)?;
        let rows = text_of(writer)?;
        self.text.extend_from_slice(rows.as_slice())
    }
}

// Writes the header.
fn push_header(writer: &mut Writer<Vec<u8>>) -> Result<(), AllocError>
    requires { StandsAtRow writer.old }
    ensures at_row { OnOk result (StandsAtRow writer.new) }
    ensures text { OnOk result (HasRow header writer.old writer.new) }
{
    push_row(
        writer,
        &[
            "path".as_bytes(),
            "kind".as_bytes(),
            "user".as_bytes(),
            "rights".as_bytes(),
            "remove".as_bytes(),
        ],
    )
}

// Writes the rows of an object.
fn push_lines(
    alloc: Global,
    writer: &mut Writer<Vec<u8>>,
    parties: &[Party],
    told: &Described<'_>,
) -> Result<(), AllocError>
    requires { StandsAtRow writer.old }
    ensures { OnOk result (written writer.new ≡ written writer.old ++ rows_text
        (lines told.now.path.now told.now.kind told.now.all
        (zip parties.now told.now.here.now))) }
{
    for (party, standing) in parties.iter().zip(told.here.as_slice()) {
        if told.all || !standing.repeats {
            push_line(alloc, writer, told, (party, standing))?;
        }
    }
    Ok(())
}

// Writes the row of a caller at an object.
fn push_line(
    alloc: Global,
    writer: &mut Writer<Vec<u8>>,
    told: &Described<'_>,
    caller: (&Party, &Standing),
) -> Result<(), AllocError>
    requires { StandsAtRow writer.old }
    ensures at_row { OnOk result (StandsAtRow writer.new) }
    ensures text { OnOk result (HasRow
        (line told.now.path.now told.now.kind (caller.entry.0.now, caller.entry.1.now))
        writer.old writer.new) }
{
    let (party, standing) = caller;
    let mut rights = String::new(alloc);
    standing.rights.push_letters(&mut rights)?;
    push_fields(writer, rights.as_str(), told, (party, standing))
}

// Writes the row of a caller who has the rights of these letters.
fn push_fields<'a>(
    writer: &mut Writer<Vec<u8>>,
    rights: &'a str,
    told: &'a Described<'a>,
    caller: (&'a Party, &'a Standing),
) -> Result<(), AllocError>
    requires at_row { StandsAtRow writer.old }
    requires letters { rights.now ≡ mask_text caller.1.now.rights }
    ensures at_row { OnOk result (StandsAtRow writer.new) }
    ensures text { OnOk result (HasRow
        (line told.now.path.now told.now.kind (caller.entry.0.now, caller.entry.1.now))
        writer.old writer.new) }
{
    let (party, standing) = caller;
    push_row(
        writer,
        &[
            told.path.as_bytes(),
            kind_str(told).as_bytes(),
            party.label.as_str().as_bytes(),
            rights.as_bytes(),
            remove_str(standing).as_bytes(),
        ],
    )
}

fn kind_str<'a>(told: &'a Described<'_>) -> &'a str
    ensures { result.now ≡ kind_word told.now.kind }
{
    match told.kind {
        ObjKind::Folder => "folder",
        ObjKind::Document => "document",
    }
}

fn remove_str(standing: &Standing) -> &str
    ensures { result.now ≡ yes_or_no standing.now.remove }
{
    if standing.remove { "yes" } else { "no" }
}
