//! All objects of a room, one after the other.
ghost use Rattle.std.specs.Prelude.{string_bytes};
ghost use Rattle.room_rows.specs.Calls.{Reads};
ghost use Rattle.room_rows.specs.Keep.{IsDamaged};
ghost use Rattle.room_dump.specs.Dump.{IsDumpText};
ghost use Rattle.room_dump.specs.Telling.{
  AddsAll,
  AddsOne,
  IsHole,
  IsLength,
  IsSize,
  IsUntellable,
  LacksBytesAt,
};

use crate::lines::push_object;
use crate::visiting::{Below, Visit};
use room_ace::ObjKind;
use room_rows::{Keep, KeepFault, Node};
use std::alloc::Global;

/// The text of all objects: the root first, and after an object its children with all that is below
/// them, in order of name.
///
/// Nothing is changed. The error is the keeper's, or that memory ran out; `Damaged` names a row
/// that can't be read or a document without bytes, and `NoRoot` comes only where there is no root.
pub fn dump<K: Keep>(alloc: Global, keep: &mut K) -> Result<String, KeepFault>
    ensures read { Reads K.Keep keep.old keep.new result IsDamaged
        (λ rows text. IsDumpText rows (string_bytes text)) }
{
    let most = keep.ids()?.len();
    let root = keep.root()?;
    let mut walk = Below::at(alloc, most, Visit::first(alloc, root))?;
    let mut text = String::new(alloc);
    push_all(alloc, keep, &mut walk, &mut text)?;
    Ok(text)
}

// Adds the texts of all that is still to come.
fn push_all<K: Keep>(
    alloc: Global,
    keep: &mut K,
    walk: &mut Below,
    text: &mut String,
) -> Result<(), KeepFault>
    ensures read { Reads K.Keep keep.old keep.new result (IsHole walk.old)
        (AddsAll walk.old (string_bytes text.old) (string_bytes text.new)) }
{
    'objects: while let Some(visit) = walk.next(keep)? {
        let told = push_one(alloc, keep, &visit, text);
        // Dropped here, and not part by part on each way out.
        drop(visit);
        told?;
    }
    Ok(())
}

// Adds the text of an object.
fn push_one<K: Keep>(
    alloc: Global,
    keep: &mut K,
    visit: &Visit,
    text: &mut String,
) -> Result<(), KeepFault>
    ensures read { Reads K.Keep keep.old keep.new result (IsUntellable visit.now.node)
        (AddsOne visit.now (string_bytes text.old) (string_bytes text.new)) }
{
    let size = size_of(keep, &visit.node)?;
    Ok(push_object(alloc, text, visit.shown(), &visit.node, size)?)
}

// The number of a document's bytes.
fn size_of<K: Keep>(keep: &mut K, node: &Node) -> Result<usize, KeepFault>
    ensures read { Reads K.Keep keep.old keep.new result (IsUntellable node.now)
        (IsSize node.now) }
{
    match node.kind {
        ObjKind::Folder => Ok(0),
        ObjKind::Document => document_size(keep, node.id),
    }
}

fn document_size<K: Keep>(keep: &mut K, id: u64) -> Result<usize, KeepFault>
    ensures read { Reads K.Keep keep.old keep.new result (LacksBytesAt id) (IsLength id) }
{
    match keep.body(id)? {
        Some(bytes) => Ok(bytes.len()),
        None => Err(KeepFault::Damaged { id }),
    }
}
