//! What isn't known of a piece, and what each caller is to have made.
ghost use Rattle.std.specs.Prelude.{◌≡◌, ◌==◌, ◌++◌, IfErr, IfOk, OnOk, map, not};
ghost use Rattle.room_entry.specs.Pieces.{is_among};
ghost use Rattle.room_memory.specs.Memory.{rows_in};
ghost use Rattle.room_rows.specs.Rows.{AreRows};
ghost use Rattle.room_piece.specs.Marking.{
  IsMovedFrom,
  IsSetAt,
  has_unknown,
  is_unread,
  once_moved,
  stays,
  with_children,
  with_mark,
  without,
};
ghost use Rattle.room_piece.specs.Owning.{is_each};
ghost use Rattle.room_piece.specs.Refusing.{IsMemory};

use crate::owning::is_each;
use crate::piece::{Piece, copy_of};
use crate::refusal::Refusal;
use crate::walking::{Way, children_of, way_along};
use room_ace::{Failure, Items};
use room_memory::MemKeep;
use room_question::{Listed, Object};
use room_rows::{Node, Numbers, Path};
use std::alloc::{AllocError, Global};

// Whether nothing is known of the list.
fn is_unread(list: &Listed) -> bool
    ensures { result ≡ is_unread list.now }
{
    match list {
        Listed::Unread => true,
        Listed::Follows | Listed::Text(_) => false,
    }
}

// Adds the number, where it is one of these.
fn mark(numbers: &mut Numbers, is_one: bool, id: u64) -> Result<(), AllocError>
    ensures { OnOk result (numbers.new ≡ with_mark is_one id numbers.old) }
{
    if is_one {
        numbers.push(id)?;
    }
    Ok(())
}

/// Notes the number of an object that has come.
pub(crate) fn mark_new(piece: &mut Piece, object: &Object, id: u64) -> Result<(), AllocError>
    ensures keep { OnOk result (piece.new.keep ≡ piece.old.keep) }
    ensures each { OnOk result
        (piece.new.each ≡ with_mark (is_each object.now.owner) id piece.old.each) }
    ensures unknown { OnOk result
        (piece.new.unknown ≡ with_mark (is_unread object.now.list) id piece.old.unknown) }
{
    let each = is_each(&object.owner);
    mark(&mut piece.each, each, id)?;
    let unread = is_unread(&object.list);
    mark(&mut piece.unknown, unread, id)?;
    Ok(())
}

// Whether the number is among these.
fn is_among(numbers: &Numbers, id: u64) -> bool
    ensures { result ≡ is_among numbers.now id }
{
    numbers.as_slice().iter().any(|other| *other == id)
}

// Whether one of the objects isn't known.
fn has_unknown(unknown: &Numbers, nodes: &[Node]) -> bool
    ensures { result ≡ has_unknown unknown.now nodes.now }
{
    nodes.iter().any(|node| is_among(unknown, node.id))
}

// The numbers but for this one.
fn without(numbers: &Numbers, id: u64) -> Result<Numbers, AllocError>
    ensures { IfOk result (λ others. others ≡ without id numbers.now) }
{
    let mut others = copy_of(numbers)?.into_vec();
    others.retain(
        |other|
            ensures { result ≡ not (other.now == id) }
        { *other != id },
    );
    Ok(Items::from_vec(others))
}

// Adds the numbers of the objects.
fn push_numbers(numbers: &mut Numbers, nodes: &[Node]) -> Result<(), AllocError>
    ensures { OnOk result (numbers.new ≡ numbers.old ++ map (λ node. node.id) nodes.now) }
{
    'each: for node in nodes {
        numbers.push(node.id)?;
    }
    Ok(())
}

/// Notes that the dacl at a path was set.
pub(crate) fn mark_set(
    alloc: Global,
    keep: &mut MemKeep,
    unknown: &mut Numbers,
    path: &Path,
) -> Result<(), Failure<Refusal>>
    ensures marks { OnOk result (AreRows (rows_in keep.old) → (rows_in keep.new ≡ rows_in keep.old)
        × IsSetAt path.now (rows_in keep.old) unknown.old unknown.new) }
    ensures fault { IfErr result IsMemory }
{
    let way = way_along(alloc, keep, path)?;
    let is_as_before = stays(unknown, &way);
    if is_as_before {
        return Ok(());
    }
    mark_children(keep, unknown, way.last.id)
}

// Whether as much is known of the last object on the way as before its dacl was set.
fn stays(unknown: &Numbers, way: &Way) -> bool
    ensures { result ≡ stays unknown.now way.now }
{
    !is_among(unknown, way.last.id) || has_unknown(unknown, way.above.as_slice())
}

// Notes the children of the object instead of it.
fn mark_children(keep: &mut MemKeep, unknown: &mut Numbers, id: u64) -> Result<(), Failure<Refusal>>
    ensures marks { OnOk result (AreRows (rows_in keep.old) → (rows_in keep.new ≡ rows_in keep.old)
        × (unknown.new ≡ with_children (rows_in keep.old).read id unknown.old)) }
    ensures fault { IfErr result IsMemory }
{
    let children = children_of(keep, id)?;
    let mut others = without(unknown, id)?;
    push_numbers(&mut others, children.as_slice())?;
    *unknown = others;
    Ok(())
}

/// Notes that the object at a path is about to be moved.
pub(crate) fn mark_moving(
    alloc: Global,
    keep: &mut MemKeep,
    unknown: &mut Numbers,
    path: &Path,
) -> Result<(), Failure<Refusal>>
    ensures marks { OnOk result (AreRows (rows_in keep.old) → (rows_in keep.new ≡ rows_in keep.old)
        × IsMovedFrom path.now (rows_in keep.old) unknown.old unknown.new) }
    ensures fault { IfErr result IsMemory }
{
    let way = way_along(alloc, keep, path)?;
    mark_last(unknown, &way)?;
    Ok(())
}

// Notes the last object on the way, if one above it isn't known.
fn mark_last(unknown: &mut Numbers, way: &Way) -> Result<(), AllocError>
    ensures { OnOk result (unknown.new ≡ once_moved way.now unknown.old) }
{
    let is_below = has_unknown(unknown, way.above.as_slice());
    mark(unknown, is_below, way.last.id)
}
