//! What a list passes to a child, and the full lists along a chain.
use room_ace::{Entries, Entry, ObjKind, Which};
use room_inherit::pass;
use room_rows::{Node, Nodes, Text};
use room_verify::lists_from_root;
use std::alloc::{AllocError, Global};
use std::test::Fail;
use test_player::{agree, held_of, owners_of, push, push_entries, sent_of};

const LIST: &str = "list: / A:fd:OWNER@:rw / A:fg:sales:r / D:dn:bob:x / A:fni:EVERYONE@:t";

// What a child inherits, without what the contract says of it.
fn passed(alloc: Global, kind: ObjKind, list: &[Entry]) -> Result<Entries, AllocError> {
    pass(alloc, kind, list)
}

// What a child of this kind inherits from the list.
fn passed_to(alloc: Global, kind: ObjKind) -> Result<Entries, Fail> {
    let list = sent_of(alloc, LIST)?;
    Ok(passed(alloc, kind, list.entries().as_slice())?)
}

fn entries_text(alloc: Global, entries: &[Entry]) -> Result<String, Fail> {
    let mut text = String::new(alloc);
    push_entries(alloc, &mut text, entries)?;
    Ok(text)
}

fn expect_passed(alloc: Global, kind: ObjKind, wanted: &str) -> Result<(), Fail> {
    let given = passed_to(alloc, kind)?;
    let told = entries_text(alloc, given.as_slice())?;
    agree("passed", told.as_str(), wanted)
}

#[test]
fn pass_to_folder(rt: HostRuntime) -> Result<(), Fail> {
    let wanted = "A:fdI:OWNER@:rw / A:figI:sales:r / D:I:bob:x";
    expect_passed(rt.alloc(), ObjKind::Folder, wanted)
}

#[test]
fn pass_to_document(rt: HostRuntime) -> Result<(), Fail> {
    let wanted = "A:I:OWNER@:rw / A:gI:sales:r / A:I:EVERYONE@:t";
    expect_passed(rt.alloc(), ObjKind::Document, wanted)
}

// An object without a name, with this dacl.
fn object_of(alloc: Global, id: u64, kind: ObjKind, dacl: &str) -> Result<Node, Fail> {
    let owners = owners_of(alloc, "root:staff")?;
    let sacl = held_of(alloc, "list:a")?;
    Ok(Node {
        id,
        parent: id.checked_sub(1),
        name: Text::new(alloc),
        kind,
        owners,
        dacl: held_of(alloc, dacl)?,
        sacl,
    })
}

// A folder, a folder whose list has no flag, and a document with a stored inherited entry alone.
fn chain_of_three(alloc: Global) -> Result<Nodes, Fail> {
    let mut chain = Nodes::new(alloc);
    for (id, kind, dacl) in [
        (0, ObjKind::Folder, "list:a / A:fd:EVERYONE@:x"),
        (1, ObjKind::Folder, "list: / D::bob:r"),
        (2, ObjKind::Document, "list:a / A:I:carol:r"),
    ] {
        chain.push(object_of(alloc, id, kind, dacl)?)?;
    }
    Ok(chain)
}

// The full dacls along the chain, without what the contract says of them.
fn full_lists(alloc: Global, chain: &[Node]) -> Result<Vec<Entries>, AllocError> {
    lists_from_root(alloc, chain, Which::Dacl)
}

// The texts of lists, a line for each.
fn lists_text(alloc: Global, lists: &[Entries]) -> Result<String, Fail> {
    let mut text = String::new(alloc);
    for list in lists {
        push_entries(alloc, &mut text, list.as_slice())?;
        push(&mut text, "\n")?;
    }
    Ok(text)
}

fn expect_lists(alloc: Global, chain: &[Node], wanted: &str) -> Result<(), Fail> {
    let lists = full_lists(alloc, chain)?;
    let told = lists_text(alloc, lists.as_slice())?;
    agree("lists", told.as_str(), wanted)
}

#[test]
fn lists_along_chain(rt: HostRuntime) -> Result<(), Fail> {
    let chain = chain_of_three(rt.alloc())?;
    let wanted = "A:fd:EVERYONE@:x\nD::bob:r / A:fdI:EVERYONE@:x\nA:I:carol:r\n";
    expect_lists(rt.alloc(), chain.as_slice(), wanted)
}
