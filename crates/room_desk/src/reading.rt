//! Requests that change nothing but the records.
ghost use Rattle.std.specs.Prelude.{◌≡◌, ◌≤◌, ◌+◌, IfOk, length};
ghost use Rattle.room_rows.specs.Calls.{Reads};
ghost use Rattle.room_rows.specs.Held.{full_of};
ghost use Rattle.room_rows.specs.Keep.{IsDamaged, IsUnreadable};
ghost use Rattle.room_desk.specs.Answered.{AreNamesOf, IsBytesOf};
ghost use Rattle.room_desk.specs.Written.{HasNoBytes};
ghost use Rattle.room_judge.specs.Halted.{Serves, Tries};
ghost use Rattle.room_machine.specs.declared.reply.Reply.TheVariants.{Attr, Lists};
ghost use Rattle.room_machine.specs.declared.request.Request.TheVariants.{
  List,
  Read,
  ReadAttr,
  ReadList,
};

use room_ace::{Entries, Mask, ObjKind, Which};
use room_judge::{Ask, Halt, reach, reach_kind};
use room_machine::Reply;
use room_rows::{Held, Keep, KeepFault, Node};
use std::alloc::{AllocError, Global};

/// The bytes of a document.
pub(crate) fn read<K: Keep>(keep: &mut K, ask: &Ask<'_>) -> Result<Reply, Halt>
    ensures done { Tries K.Keep keep.old keep.new result IsDamaged
        (Serves ask.now.asker.now (Read ask.now.path.now)) }
    ensures counted { K.reads keep.new ≤ K.reads keep.old + (length ask.now.path.now + 2) }
{
    let mask = Mask::read_data();
    let node = reach_kind(keep, ask, ObjKind::Document, mask)?;
    let id = node.id;
    drop(node);
    Ok(read_at(keep, id)?)
}

// The bytes of the document of this number.
fn read_at<K: Keep>(keep: &mut K, id: u64) -> Result<Reply, KeepFault>
    ensures read { Reads K.Keep keep.old keep.new result (HasNoBytes id) (IsBytesOf id) }
    ensures counted { K.reads keep.new ≤ K.reads keep.old + 1 }
{
    let body = keep.body(id)?;
    match body {
        Some(bytes) => Ok(Reply::Bytes(bytes)),
        None => Err(KeepFault::Damaged { id }),
    }
}

/// The flags and the full list of an object.
pub(crate) fn read_full_list<K: Keep>(
    keep: &mut K,
    ask: &Ask<'_>,
    which: Which,
) -> Result<Reply, Halt>
    ensures done { Tries K.Keep keep.old keep.new result IsDamaged
        (Serves ask.now.asker.now (ReadList ask.now.path.now which)) }
    ensures counted { K.reads keep.new ≤ K.reads keep.old + (length ask.now.path.now + 1) }
{
    let node = reach(keep, ask, Mask::read_acl())?;
    Ok(list_reply(ask.alloc, node.held(which))?)
}

// The flags and a copy of the full list.
fn list_reply(alloc: Global, held: &Held) -> Result<Reply, AllocError>
    ensures { IfOk result (λ reply. reply ≡ Lists held.now.flags (full_of held.now)) }
{
    let mut entries = Entries::new(alloc);
    entries.extend(held.full())?;
    Ok(Reply::Lists(held.flags(), entries))
}

/// The kind and the owners of an object.
pub(crate) fn read_attr<K: Keep>(keep: &mut K, ask: &Ask<'_>) -> Result<Reply, Halt>
    ensures done { Tries K.Keep keep.old keep.new result IsDamaged
        (Serves ask.now.asker.now (ReadAttr ask.now.path.now)) }
    ensures counted { K.reads keep.new ≤ K.reads keep.old + (length ask.now.path.now + 1) }
{
    let node = reach(keep, ask, Mask::read_attributes())?;
    Ok(attr_reply(node))
}

// The kind and the owners of the object.
fn attr_reply(node: Node) -> Reply
    ensures { result ≡ Attr node.kind node.owners }
{
    Reply::Attr(node.kind, node.owners)
}

/// The names and kinds of the children of a folder, in order of name.
pub(crate) fn list<K: Keep>(keep: &mut K, ask: &Ask<'_>) -> Result<Reply, Halt>
    ensures done { Tries K.Keep keep.old keep.new result IsDamaged
        (Serves ask.now.asker.now (List ask.now.path.now)) }
    ensures counted { K.reads keep.new ≤ K.reads keep.old + (length ask.now.path.now + 2) }
{
    let node = reach_kind(keep, ask, ObjKind::Folder, Mask::read_data())?;
    let id = node.id;
    drop(node);
    Ok(list_at(keep, id)?)
}

// The names and kinds of the children of the folder of this number.
fn list_at<K: Keep>(keep: &mut K, id: u64) -> Result<Reply, KeepFault>
    ensures read { Reads K.Keep keep.old keep.new result IsUnreadable (AreNamesOf id) }
    ensures counted { K.reads keep.new ≤ K.reads keep.old + 1 }
{
    let listing = keep.listing(id)?;
    Ok(Reply::Names(listing))
}
