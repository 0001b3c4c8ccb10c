//! The text of entries with no list line: a line for each. There may be any number of them.
ghost use Rattle.std.specs.Prelude.{◌≡◌, ◌++◌, ◌∷◌, [], All, IfOk, OnOk, Some, string_bytes};
ghost use Rattle.room_ace.specs.Column.{entries_of, entry_in};
ghost use Rattle.room_entry.specs.Laws.{IsEntry};
ghost use Rattle.room_ace.specs.Lists.{entry_lines};

use crate::entry_text::{entry_from, write_line};
use crate::lines::split_line;
use crate::list_lines::{is_blank, is_comment};
use room_entry::{Entries, Entry, Failure};
use std::alloc::{AllocError, Global};

/// The printed form of the entries, each with LF after it. It reads back as these entries.
pub fn print_entries(alloc: Global, entries: &[Entry]) -> Result<String, AllocError>
    ensures text { IfOk result (λ text. string_bytes text ≡ entry_lines entries.now) }
    ensures back { IfOk result (λ text. entries_of (string_bytes text) ≡ Some entries.now) }
{
    are_known(entries);
    let mut text = String::new(alloc);
    for entry in entries {
        write_line(&mut text, entry)?;
    }
    Ok(text)
}

// States for a proof that the entries are entries.
fn are_known(entries: &[Entry])
    ensures { All IsEntry entries.now }
{
    for entry in entries {
        entry.is_known();
    }
}

/// The entries that the bytes spell, if each line but blanks and comments spells one.
pub fn read_entries(alloc: Global, bytes: &[u8]) -> Result<Option<Entries>, AllocError>
    ensures { IfOk result (λ entries. entries ≡ entries_of bytes.now) }
{
    let mut entries = Entries::new(alloc);
    let mut rest = bytes;
    while let Some((line, more)) = split_line(rest) {
        rest = more;
        if !is_blank(line) && !is_comment(line) {
            match entry_of(alloc, line)? {
                None => return Ok(None),
                Some(entry) => entries.push(entry)?,
            }
        }
    }
    Ok(Some(entries))
}

// What spells an entry is ASCII, so that nothing has to be tested for UTF-8.
fn entry_of(alloc: Global, line: &[u8]) -> Result<Option<Entry>, AllocError>
    ensures { IfOk result (λ entry. entry ≡ entry_in line.now) }
{
    match entry_from(alloc, line) {
        Ok(entry) => Ok(Some(entry)),
        Err(Failure::OutOfMemory) => Err(AllocError),
        Err(Failure::Fault(_)) => Ok(None),
    }
}
