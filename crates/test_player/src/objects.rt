//! Objects and their lists, made from words and put into words.

use crate::replying::{kind_text, push_list, push_owners};
use crate::sending::{owners_of, sent_of};
use crate::words::{push, push_all, push_number};
use room_ace::{Entries, Entry, ObjKind, SentList};
use room_rows::{Held, NewNode, Node, Text};
use std::alloc::{AllocError, Global};
use std::test::Fail;

// Those of the entries that have the flag I, or those that haven't.
fn parted(alloc: Global, entries: &[Entry], inherited: bool) -> Result<Entries, AllocError> {
    let mut kept = Entries::new(alloc);
    'entries: for entry in entries {
        if entry.flags().inherited == inherited {
            kept.push(entry.clone()?)?;
        }
    }
    Ok(kept)
}

// The list as it is kept, with its inherited entries after the own ones.
fn held_from(alloc: Global, sent: &SentList) -> Result<Held, AllocError> {
    let inh = parted(alloc, sent.entries().as_slice(), true)?;
    let own = parted(alloc, sent.entries().as_slice(), false)?;
    Held::new(sent.flags(), own, inh)
}

/// The list of this text as it is kept: what has the flag I is inherited.
pub fn held_of(alloc: Global, text: &str) -> Result<Held, Fail> {
    let sent = sent_of(alloc, text)?;
    Ok(held_from(alloc, &sent)?)
}

/// An object with empty lists that are passed down, root's and of the group staff.
pub(crate) fn new_object(
    alloc: Global,
    parent: u64,
    name: &str,
    kind: ObjKind,
) -> Result<NewNode, Fail> {
    let owners = owners_of(alloc, "root:staff")?;
    let dacl = held_of(alloc, "list:a")?;
    Ok(NewNode {
        parent: Some(parent),
        name: Text::from_str(alloc, name)?,
        kind,
        owners,
        sacl: dacl.copy()?,
        dacl,
    })
}

// Adds number, parent, kind, name, owners, and the two lists.
pub(crate) fn push_node(alloc: Global, told: &mut String, node: &Node) -> Result<(), Fail> {
    push_number(told, node.id)?;
    push(told, " in ")?;
    push_number(told, node.parent.unwrap_or(0))?;
    push(told, " ")?;
    push(told, kind_text(node.kind))?;
    push_all(told, &[" '", node.name.as_str(), "' of "])?;
    push_owners(told, &node.owners)?;
    push_held(alloc, told, ", ", &node.dacl)?;
    push_held(alloc, told, ", ", &node.sacl)
}

/// Adds the flags and all entries of a list, after a word.
pub(crate) fn push_held(
    alloc: Global,
    told: &mut String,
    word: &str,
    held: &Held,
) -> Result<(), Fail> {
    push(told, word)?;
    push_list(alloc, told, held.flags(), held.full())
}
