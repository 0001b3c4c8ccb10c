//! Each call of a keeper that writes, made through the trait, and its answer in words.

use crate::objects::{held_of, new_object};
use crate::replying::push_fault;
use crate::sending::{owners_of, sent_of, which_of};
use crate::words::{cut, push, push_number};
use room_ace::{Mask, ObjKind, read_name};
use room_rows::{AuditRow, Keep, KeepFault, RecordKind, Text};
use std::alloc::Global;
use std::test::Fail;

/// Makes the call of this word at the object of this number, and adds the answer.
pub(crate) fn write<K: Keep>(
    alloc: Global,
    keep: &mut K,
    verb: &str,
    id: u64,
    rest: &str,
    told: &mut String,
) -> Result<(), Fail> {
    match verb {
        "Add" => add(alloc, keep, id, rest, told),
        "SetHeld" => set_held(alloc, keep, id, rest, told),
        "SetInh" => set_inh(alloc, keep, id, rest, told),
        "SetOwners" => set_owners(alloc, keep, id, rest, told),
        "SetPlace" => set_place(keep, id, rest, told),
        "SetBody" => push_done(told, keep.set_body(id, rest.as_bytes())),
        "Remove" => push_done(told, keep.remove(id)),
        "Note" => note(alloc, keep, id, told),
        _ => Err(Fail::new("no such call")),
    }
}

fn push_done(told: &mut String, answer: Result<(), KeepFault>) -> Result<(), Fail> {
    match answer {
        Ok(()) => push(told, "done"),
        Err(fault) => push_fault(told, fault),
    }
}

fn kind_of(text: &str) -> ObjKind {
    if text == "folder" {
        ObjKind::Folder
    } else {
        ObjKind::Document
    }
}

// Adds an object of a name and a kind below this parent, with the bytes `hi`.
fn add<K: Keep>(
    alloc: Global,
    keep: &mut K,
    parent: u64,
    words: &str,
    told: &mut String,
) -> Result<(), Fail> {
    let (name, kind) = cut(words);
    let node = new_object(alloc, parent, name, kind_of(kind))?;
    push_added(told, keep.add(node, b"hi"))
}

fn push_added(told: &mut String, answer: Result<u64, KeepFault>) -> Result<(), Fail> {
    match answer {
        Ok(id) => push_number(told, id),
        Err(fault) => push_fault(told, fault),
    }
}

/// Gives the object the list of this text, by one call.
pub(crate) fn set_held<K: Keep>(
    alloc: Global,
    keep: &mut K,
    id: u64,
    words: &str,
    told: &mut String,
) -> Result<(), Fail> {
    let (which, text) = cut(words);
    let held = held_of(alloc, text)?;
    push_done(told, keep.set_held(id, which_of(which), &held))
}

/// Gives the object the inherited entries of this list.
pub(crate) fn set_inh<K: Keep>(
    alloc: Global,
    keep: &mut K,
    id: u64,
    words: &str,
    told: &mut String,
) -> Result<(), Fail> {
    let (which, text) = cut(words);
    let sent = sent_of(alloc, text)?;
    let entries = sent.entries().as_slice();
    push_done(told, keep.set_inh(id, which_of(which), entries))
}

fn set_owners<K: Keep>(
    alloc: Global,
    keep: &mut K,
    id: u64,
    text: &str,
    told: &mut String,
) -> Result<(), Fail> {
    let owners = owners_of(alloc, text)?;
    push_done(told, keep.set_owners(id, &owners))
}

fn set_place<K: Keep>(keep: &mut K, id: u64, words: &str, told: &mut String) -> Result<(), Fail> {
    let (parent, name) = cut(words);
    let parent = parent.parse::<u64>()?;
    push_done(told, keep.set_place(id, parent, name))
}

// Adds a record that alice has read `/a` at this moment.
fn note<K: Keep>(alloc: Global, keep: &mut K, moment: u64, told: &mut String) -> Result<(), Fail> {
    let row = record_at(alloc, moment)?;
    push_done(told, keep.note(row))
}

fn record_at(alloc: Global, moment: u64) -> Result<AuditRow, Fail> {
    let user = read_name(alloc, "alice")?;
    Ok(AuditRow {
        at: i64::try_from(moment)?,
        user: Some(user),
        path: Text::from_str(alloc, "/a")?,
        bits: Mask::read_data(),
        granted: true,
        place: 1,
        kind: RecordKind::Audit,
    })
}
