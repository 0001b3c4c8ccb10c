//! Requests that make an object, or replace a document's bytes.
ghost use Rattle.std.specs.Prelude.{◌≡◌, ◌≤◌, ◌+◌, false, [], ◌∷◌, IfOk, is_some, length};
ghost use Rattle.std.specs.Prelude.{unwrap_or};
ghost use Rattle.room_entry.specs.Rights.{append_data, write_data};
ghost use Rattle.room_rows.specs.Keep.{CanAdd, IsDamaged, IsUnreadable, SetsBody};
ghost use Rattle.room_judge.specs.Halted.{Serves, TriesUpTo, replied};
ghost use Rattle.room_desk.specs.Made.{IsNameOf, IsJudgedAndDone, IsMade, MakesChild};
ghost use Rattle.room_machine.specs.Changed.{child_node, new_child, owners_under, passed_held};
ghost use Rattle.room_machine.specs.Plan.{Check, Refusal, no_folder, not_over};
ghost use Rattle.room_judge.specs.Stored.{found_site};
ghost use Rattle.room_machine.specs.declared.reply.Reason.TheVariants.{Exists};
ghost use Rattle.room_machine.specs.declared.reply.Reply.TheVariants.{Done, Made};
ghost use Rattle.room_machine.specs.declared.request.Request.TheVariants.{MakeFolder, Put};
ghost use Rattle.room_desk.specs.Counted.{OneAndBoth, OneWrite, Provided};
ghost use Rattle.room_inherit.specs.Spread.{Holds};

use crate::writing::put_bytes;
use room_ace::{ListFlags, MOST_BYTES, Mask, Name, ObjKind, Owners};
use room_inherit::pass;
use room_judge::{Ask, Found, Halt, Under, check, check_kind, to_spot, walk_to};
use room_machine::{Reason, Reply};
use room_rows::{Bytes, Held, Keep, NewNode, Node, Text};
use std::alloc::{AllocError, Global};

// What a new object is to be.
#[derive(Drop)]
struct NewChild<'a> {
    name: &'a Text,
    kind: ObjKind,
    bytes: &'a Bytes,
}

/// Gives a document these bytes, or makes a new one.
pub(crate) fn put<K: Keep>(keep: &mut K, ask: &Ask<'_>, bytes: &Bytes) -> Result<Reply, Halt>
    ensures done { TriesUpTo K.Keep keep.old keep.new result OneAndBoth IsDamaged
        (Serves ask.now.asker.now (Put ask.now.path.now bytes.now)) }
    ensures counted { K.reads keep.new ≤ K.reads keep.old + (length ask.now.path.now + 1) }
{
    match ask.path.split_last() {
        None => put_root(keep, ask, bytes),
        Some((name, _)) => put_below(keep, ask, name, bytes),
    }
}

// Puts the root. A folder is refused, as anywhere.
fn put_root<K: Keep>(keep: &mut K, ask: &Ask<'_>, bytes: &Bytes) -> Result<Reply, Halt>
    requires { ask.now.path.now ≡ [] }
    ensures done { TriesUpTo K.Keep keep.old keep.new result OneAndBoth IsDamaged
        (Serves ask.now.asker.now (Put ask.now.path.now bytes.now)) }
    ensures counted { K.reads keep.new ≤ K.reads keep.old + (length ask.now.path.now + 1) }
{
    let node = walk_to(keep, ask)?;
    put_there(keep, ask, &Found { node, depth: 0 }, bytes)
}

// Puts the document at a path with a last name.
fn put_below<K: Keep>(
    keep: &mut K,
    ask: &Ask<'_>,
    name: &Text,
    bytes: &Bytes,
) -> Result<Reply, Halt>
    requires { IsNameOf ask.now.path.now name.now }
    ensures done { TriesUpTo K.Keep keep.old keep.new result OneAndBoth IsDamaged
        (Serves ask.now.asker.now (Put ask.now.path.now bytes.now)) }
    ensures counted { K.reads keep.new ≤ K.reads keep.old + (length ask.now.path.now + 1) }
{
    let spot = to_spot(keep, ask)?;
    let Under { folder, child } = spot;
    let depth = ask.path.names().len();
    match child {
        Some(node) => put_there(keep, ask, &Found { node, depth }, bytes),
        None => {
            let kind = ObjKind::Document;
            let document = NewChild { name, kind, bytes };
            put_new(keep, ask, &folder, &document)
        }
    }
}

// Replaces the bytes of what is there, if it is a document and there aren't too many.
fn put_there<K: Keep>(
    keep: &mut K,
    ask: &Ask<'_>,
    target: &Found,
    bytes: &Bytes,
) -> Result<Reply, Halt>
    ensures done { TriesUpTo K.Keep keep.old keep.new result
        (Provided (Holds target.now.node) OneWrite) IsUnreadable
        (λ old outcome new. IsJudgedAndDone ask.now.asker.now
        (no_folder (found_site ask.now.path.now target.now) ∷ Check
        (found_site ask.now.path.now target.now) (write_data ∷ []) ∷ not_over ask.now.path.now
        (length bytes.now) ∷ []) Done (SetsBody target.now.node.id bytes.now) old (replied outcome)
        new) }
    ensures counted { K.reads keep.new ≤ K.reads keep.old }
{
    let mask = Mask::write_data();
    check_kind(keep, ask, target, ObjKind::Document, mask)?;
    put_bytes(keep, ask, target.node.id, bytes.as_slice())
}

// Makes a document in the folder, if it hasn't too many bytes.
fn put_new<K: Keep>(
    keep: &mut K,
    ask: &Ask<'_>,
    folder: &Found,
    child: &NewChild<'_>,
) -> Result<Reply, Halt>
    ensures done { TriesUpTo K.Keep keep.old keep.new result
        (Provided (CanAdd (new_child ask.now.asker.now.caller child.now.kind folder.now.node
        child.now.name.now child.now.bytes.now)) OneWrite) IsUnreadable
        (λ old outcome new. IsJudgedAndDone ask.now.asker.now
        (Check (found_site ask.now.path.now folder.now) (write_data ∷ []) ∷ not_over
        ask.now.path.now (length child.now.bytes.now) ∷ []) Made (IsMade (new_child
        ask.now.asker.now.caller child.now.kind folder.now.node child.now.name.now
        child.now.bytes.now)) old (replied outcome) new) }
    ensures counted { K.reads keep.new ≤ K.reads keep.old }
{
    check(keep, ask, folder, Mask::write_data())?;
    let too_many = child.bytes.len() > MOST_BYTES;
    if too_many {
        return Err(ask.refusal(ask.path.names().len(), Reason::TooLarge));
    }
    add_child(keep, ask, &folder.node, child)
}

/// Makes a folder.
pub(crate) fn make_folder<K: Keep>(keep: &mut K, ask: &Ask<'_>) -> Result<Reply, Halt>
    ensures done { TriesUpTo K.Keep keep.old keep.new result OneAndBoth IsDamaged
        (Serves ask.now.asker.now (MakeFolder ask.now.path.now)) }
    ensures counted { K.reads keep.new ≤ K.reads keep.old + (length ask.now.path.now + 1) }
{
    match ask.path.split_last() {
        None => Err(ask.refusal(0, Reason::Exists)),
        Some((name, _)) => make_below(keep, ask, name),
    }
}

// Makes the folder at a path with a last name.
fn make_below<K: Keep>(keep: &mut K, ask: &Ask<'_>, name: &Text) -> Result<Reply, Halt>
    requires { IsNameOf ask.now.path.now name.now }
    ensures done { TriesUpTo K.Keep keep.old keep.new result OneAndBoth IsDamaged
        (Serves ask.now.asker.now (MakeFolder ask.now.path.now)) }
    ensures counted { K.reads keep.new ≤ K.reads keep.old + (length ask.now.path.now + 1) }
{
    let spot = to_spot(keep, ask)?;
    let bytes = Bytes::new(ask.alloc);
    let kind = ObjKind::Folder;
    let child = NewChild {
        name,
        kind,
        bytes: &bytes,
    };
    make_new(keep, ask, &spot, &child)
}

// Makes a folder in this one, if nothing is there.
fn make_new<K: Keep>(
    keep: &mut K,
    ask: &Ask<'_>,
    spot: &Under,
    child: &NewChild<'_>,
) -> Result<Reply, Halt>
    ensures done { TriesUpTo K.Keep keep.old keep.new result
        (Provided (λ rows. is_some spot.now.child ≡ false → CanAdd (new_child
        ask.now.asker.now.caller child.now.kind spot.now.folder.node child.now.name.now
        child.now.bytes.now) rows) OneWrite) IsUnreadable
        (λ old outcome new. IsJudgedAndDone ask.now.asker.now
        (Check (found_site ask.now.path.now spot.now.folder) (append_data ∷ []) ∷ Refusal
        ask.now.path.now Exists (is_some spot.now.child) ∷ []) Made (IsMade (new_child
        ask.now.asker.now.caller child.now.kind spot.now.folder.node child.now.name.now
        child.now.bytes.now)) old (replied outcome) new) }
    ensures counted { K.reads keep.new ≤ K.reads keep.old }
{
    check(keep, ask, &spot.folder, Mask::append_data())?;
    let is_there = spot.child.is_some();
    if is_there {
        return Err(ask.refusal(ask.path.names().len(), Reason::Exists));
    }
    add_child(keep, ask, &spot.folder.node, child)
}

// Adds the object under the parent.
fn add_child<K: Keep>(
    keep: &mut K,
    ask: &Ask<'_>,
    parent: &Node,
    child: &NewChild<'_>,
) -> Result<Reply, Halt>
    ensures done { TriesUpTo K.Keep keep.old keep.new result
        (Provided (CanAdd (new_child ask.now.asker.now.caller child.now.kind parent.now
        child.now.name.now child.now.bytes.now)) OneWrite) IsUnreadable
        (λ old outcome new. MakesChild ask.now.asker.now.caller child.now.kind parent.now
        child.now.name.now child.now.bytes.now old (replied outcome) new) }
    ensures counted { K.reads keep.new ≤ K.reads keep.old }
{
    let node = child_at(ask, parent, child)?;
    keep.add(node, child.bytes.as_slice())?;
    Ok(Reply::Made)
}

// The object under the parent, with what it is passed. Its bytes may be many, and aren't copied.
fn child_at(ask: &Ask<'_>, parent: &Node, child: &NewChild<'_>) -> Result<NewNode, AllocError>
    ensures { IfOk result (λ node. node ≡ child_node ask.now.asker.now.caller child.now.kind
        parent.now child.now.name.now) }
{
    let dacl = passed_list(ask.alloc, child.kind, &parent.dacl)?;
    let sacl = passed_list(ask.alloc, child.kind, &parent.sacl)?;
    let owners = owners_of(&ask.asker.caller.user, &parent.owners)?;
    let name = child.name.copy()?;
    Ok(NewNode {
        parent: Some(parent.id),
        name,
        kind: child.kind,
        owners,
        dacl,
        sacl,
    })
}

// The owners of what the caller makes under an object with these owners.
fn owners_of(user: &Option<Name>, parent: &Owners) -> Result<Owners, AllocError>
    ensures { IfOk result (λ owners. owners ≡ owners_under user.now parent.now) }
{
    let owner = owner_of(user, &parent.owner)?;
    Ok(Owners {
        owner,
        group: parent.group.copy()?,
    })
}

// The name of the caller, or this other one where the caller has none.
fn owner_of(user: &Option<Name>, other: &Name) -> Result<Name, AllocError>
    ensures { IfOk result (λ owner. owner ≡ unwrap_or user.now other.now) }
{
    match user {
        Some(name) => name.copy(),
        None => other.copy(),
    }
}

// The list of a new object of this kind whose parent has this one.
fn passed_list(alloc: Global, kind: ObjKind, parent: &Held) -> Result<Held, AllocError>
    ensures { IfOk result (λ held. held ≡ passed_held kind parent.now) }
{
    let passed = pass(alloc, kind, parent.full())?;
    let flags = ListFlags {
        auto: parent.flags().auto,
        protect: false,
    };
    Ok(Held::inherited(flags, passed))
}
