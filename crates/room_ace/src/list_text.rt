//! The text of a list: a line `list:` with the list's flags, then a line for each entry.
ghost use Rattle.std.specs.Prelude.{◌≡◌, ◌++◌, ◌∷◌, ◌+◌, ◌<◌, ◌^◌, [], length, IfOk, OnOk};
ghost use Rattle.std.specs.Prelude.{string_bytes};
ghost use Rattle.room_ace.specs.Lists.{list_text, sent_of};
ghost use Rattle.room_entry.specs.Gives.{Gives};
ghost use Rattle.room_ace.specs.Reading.{lines_after, sent_after, with_line};
ghost use Rattle.room_entry.specs.declared.failure.Failure.TheVariants.{Fault};

use crate::entry_text::{push_if, read_entry, write_line};
use crate::fault::{LineFault, Why};
use crate::lines::text_of;
use crate::list_lines::{ListLines, flags_of_list};
use crate::sent::{EntriesWithin, SentList};
use room_entry::{Entry, Failure, ListFlags, map_fault};
use std::alloc::{AllocError, Global};

/// The list that the bytes spell, or the fault of the first line that has one.
pub fn read_list(alloc: Global, bytes: &[u8]) -> Result<SentList, Failure<LineFault>>
    ensures { Gives result (sent_of bytes.now) }
{
    let mut lines = ListLines {
        rest: bytes,
        passed: 0,
    };
    match lines.next_line() {
        None => Err(fault_at(lines.passed + 1, Why::NoListLine)),
        Some(line) => {
            if text_of(line).is_none() {
                return Err(fault_at(lines.passed, Why::NotUtf8));
            }
            match flags_of_list(line) {
                None => Err(fault_at(lines.passed, Why::NoListLine)),
                Some(flags) => read_entries(alloc, flags, lines),
            }
        }
    }
}

// The list of these flags and the entries of the lines.
fn read_entries(
    alloc: Global,
    flags: ListFlags,
    mut lines: ListLines,
) -> Result<SentList, Failure<LineFault>>
    requires { lines.passed + length lines.rest.now < 2 ^ 64 }
    ensures { Gives result
        (sent_after flags [] (lines_after lines.entry.passed lines.entry.rest.now)) }
{
    let mut entries = EntriesWithin::new(alloc);
    while let Some(line) = lines.next_line() {
        entries = with_line(alloc, lines.passed, line, entries)?;
    }
    Ok(SentList::of(flags, entries))
}

// The entries before, with the one of this line.
fn with_line(
    alloc: Global,
    number: usize,
    line: &[u8],
    before: EntriesWithin,
) -> Result<EntriesWithin, Failure<LineFault>>
    ensures { Gives result (with_line number before line.now) }
{
    let Some(text) = text_of(line) else {
        return Err(fault_at(number, Why::NotUtf8));
    };
    let entry = map_fault(
        read_entry(alloc, text),
        |fault| LineFault {
            line: number,
            why: Why::Entry(fault),
        },
    )?;
    map_fault(
        before.with(entry),
        |fault| LineFault {
            line: number,
            why: Why::List(fault),
        },
    )
}

fn fault_at(line: usize, why: Why) -> Failure<LineFault>
    ensures { result ≡ Fault (record { line = line; why = why }) }
{
    Failure::Fault(LineFault { line, why })
}

/// The printed form of a list.
pub fn print_list(alloc: Global, flags: ListFlags, entries: &[Entry]) -> Result<String, AllocError>
    ensures { IfOk result (λ text. string_bytes text ≡ list_text flags entries.now) }
{
    let mut text = String::from_str(alloc, "list:")?;
    push_if(&mut text, flags.auto, 'a')?;
    push_if(&mut text, flags.protect, 'p')?;
    text.push('\n')?;
    for entry in entries {
        write_line(&mut text, entry)?;
    }
    Ok(text)
}
