//! Replies as texts.

use crate::sending::ALL_LETTERS;
use crate::words::{push, push_all, push_number};
use room_ace::{Entry, ListFlags, Mask, Name, ObjKind, Owners, print_entry};
use room_eval::Ruling;
use room_machine::{Reason, Reply};
use room_rows::{KeepFault, Path, Text};
use std::alloc::Global;
use std::str;
use std::test::Fail;

/// Adds the text of a reply, as scripts have it.
pub fn push_reply(alloc: Global, told: &mut String, reply: &Reply) -> Result<(), Fail> {
    match reply {
        Reply::Bytes(bytes) => push_bytes(told, bytes.as_slice()),
        Reply::Names(listing) => push_listing(told, listing.as_slice()),
        Reply::Lists(flags, entries) => push_list(alloc, told, *flags, entries.as_slice()),
        Reply::Attr(kind, owners) => push_attr(told, *kind, owners),
        Reply::Rulings(rulings) => push_rulings(told, rulings.as_slice()),
        Reply::Made => push(told, "made"),
        Reply::Done => push(told, "done"),
        Reply::Denied {
            at,
            bits,
            place,
            entry,
        } => push_denied(alloc, told, at, *bits, *place, entry),
        Reply::Refused { at, why } => push_refused(told, at, *why),
    }
}

/// Adds the text of a keeper's fault.
pub(crate) fn push_fault(told: &mut String, fault: KeepFault) -> Result<(), Fail> {
    match fault {
        KeepFault::Memory => push(told, "fault Memory"),
        KeepFault::Store => push(told, "fault Store"),
        KeepFault::NoRoot => push(told, "fault NoRoot"),
        KeepFault::Damaged { id } => push_damaged(told, id),
    }
}

fn push_damaged(told: &mut String, id: u64) -> Result<(), Fail> {
    push(told, "fault Damaged ")?;
    push_number(told, id)
}

/// The word for the kind of an object.
pub(crate) fn kind_text(kind: ObjKind) -> &'static str {
    match kind {
        ObjKind::Document => "document",
        ObjKind::Folder => "folder",
    }
}

// The bytes themselves where they are a short text, and else their number.
fn push_bytes(told: &mut String, bytes: &[u8]) -> Result<(), Fail> {
    if bytes.len() > 100 {
        push_number(told, bytes.len() as u64)?;
        return push(told, " bytes");
    }
    push_all(told, &["bytes ", str::from_utf8(bytes)?])
}

/// Adds the text of a list, with ` / ` between its lines.
pub(crate) fn push_list(
    alloc: Global,
    told: &mut String,
    flags: ListFlags,
    entries: &[Entry],
) -> Result<(), Fail> {
    push_all(told, &["list:", flags_text(flags)])?;
    if entries.is_empty() {
        return Ok(());
    }
    push(told, " / ")?;
    push_entries(alloc, told, entries)
}

/// Adds the texts of entries, with ` / ` between them.
pub fn push_entries(alloc: Global, told: &mut String, entries: &[Entry]) -> Result<(), Fail> {
    'entries: for (place, entry) in entries.iter().enumerate() {
        if place > 0 {
            push(told, " / ")?;
        }
        push_entry(alloc, told, entry)?;
    }
    Ok(())
}

fn flags_text(flags: ListFlags) -> &'static str {
    match (flags.auto, flags.protect) {
        (false, false) => "",
        (false, true) => "p",
        (true, false) => "a",
        (true, true) => "ap",
    }
}

fn push_entry(alloc: Global, told: &mut String, entry: &Entry) -> Result<(), Fail> {
    let text = print_entry(alloc, entry)?;
    push_shortened(told, text.as_str())
}

// Adds the text of an entry, with `ALL` for all letters.
fn push_shortened(told: &mut String, text: &str) -> Result<(), Fail> {
    match text.strip_suffix(ALL_LETTERS) {
        None => push(told, text),
        Some(front) => push_all(told, &[front, "ALL"]),
    }
}

/// Adds what a folder's children are called.
pub(crate) fn push_listing(told: &mut String, items: &[(Text, ObjKind)]) -> Result<(), Fail> {
    push(told, "names")?;
    'items: for item in items {
        push(told, " ")?;
        push(told, kind_text(item.1))?;
        push_all(told, &[":", item.0.as_str()])?;
    }
    Ok(())
}

fn push_attr(told: &mut String, kind: ObjKind, owners: &Owners) -> Result<(), Fail> {
    push_all(told, &[kind_text(kind), " "])?;
    push_owners(told, owners)
}

/// Adds owners as `root:staff`.
pub(crate) fn push_owners(told: &mut String, owners: &Owners) -> Result<(), Fail> {
    push_all(told, &[owners.owner.as_str(), ":", owners.group.as_str()])
}

/// Adds a caller's name.
pub(crate) fn push_caller(told: &mut String, caller: &Option<Name>) -> Result<(), Fail> {
    match caller {
        None => push(told, "-"),
        Some(name) => push(told, name.as_str()),
    }
}

fn push_rulings(told: &mut String, items: &[(Mask, Ruling)]) -> Result<(), Fail> {
    push(told, "rulings")?;
    'items: for item in items {
        push(told, " ")?;
        push_letters(told, item.0)?;
        push_ruling(told, item.1)?;
    }
    Ok(())
}

fn push_ruling(told: &mut String, ruling: Ruling) -> Result<(), Fail> {
    match ruling {
        Ruling::Allowed(place) => push_place(told, ":allowed-", place),
        Ruling::Denied(place) => push_place(told, ":denied-", place),
        Ruling::Silent => push(told, ":silent"),
    }
}

fn push_place(told: &mut String, word: &str, place: usize) -> Result<(), Fail> {
    push(told, word)?;
    push_number(told, place as u64)
}

/// Adds the letters of a mask.
pub(crate) fn push_letters(told: &mut String, mask: Mask) -> Result<(), Fail> {
    Ok(mask.push_letters(told)?)
}

/// Adds the text of a path.
pub(crate) fn push_path(told: &mut String, path: &Path) -> Result<(), Fail> {
    if path.is_root() {
        push(told, "/")?;
    }
    'names: for name in path.names() {
        push_all(told, &["/", name.as_str()])?;
    }
    Ok(())
}

fn push_denied(
    alloc: Global,
    told: &mut String,
    path: &Path,
    bits: Mask,
    place: Option<usize>,
    entry: &Option<Entry>,
) -> Result<(), Fail> {
    push(told, "denied at ")?;
    push_path(told, path)?;
    push(told, " bits ")?;
    push_letters(told, bits)?;
    push_ruled(alloc, told, place, entry)
}

// Adds the place of the entry that denies, and the entry.
fn push_ruled(
    alloc: Global,
    told: &mut String,
    place: Option<usize>,
    entry: &Option<Entry>,
) -> Result<(), Fail> {
    match place {
        None => push(told, " no-place ")?,
        Some(place) => {
            push_place(told, " place ", place)?;
            push(told, " ")?;
        }
    }
    match entry {
        None => push(told, "no-entry"),
        Some(entry) => push_entry(alloc, told, entry),
    }
}

fn push_refused(told: &mut String, path: &Path, why: Reason) -> Result<(), Fail> {
    push(told, "refused at ")?;
    push_path(told, path)?;
    push(told, " ")?;
    push_reason(told, why)
}

fn push_reason(told: &mut String, why: Reason) -> Result<(), Fail> {
    match why {
        Reason::NoSuch => push(told, "N1"),
        Reason::NotFolder => push(told, "N2"),
        Reason::WrongKind => push(told, "N3"),
        Reason::Exists => push(told, "N4"),
        Reason::NotEmpty => push(told, "N5"),
        Reason::Root => push(told, "N6"),
        Reason::Loop => push(told, "N7"),
        Reason::BadList { place, fault } => {
            push_place(told, "N8 entry ", place)?;
            push_all(told, &[" ", fault.as_str()])
        }
        Reason::TooLarge => push(told, "N9"),
    }
}
