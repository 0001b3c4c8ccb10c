//! An object that comes to a piece.
ghost use Rattle.std.specs.Prelude.{◌≡◌, ◌<◌, None, Some, IfErr, IfOk, MatchResult, OnOk, length};
ghost use Rattle.std.specs.Prelude.{true};
ghost use Rattle.room_memory.specs.Memory.{rows_in};
ghost use Rattle.room_rows.specs.Content.{is_folder};
ghost use Rattle.room_rows.specs.Rows.{AreRows};
ghost use Rattle.room_desk.specs.Made.{IsNameOf};
ghost use Rattle.room_piece.specs.Coming.{
  AddsTo,
  CannotCome,
  Comes,
  ComesInto,
  IsBarred,
  IsFolderFor,
  IsPlaceFor,
  way_fault,
  object_in,
};
ghost use Rattle.room_piece.specs.Holding.{IsWell};
ghost use Rattle.room_piece.specs.Refusing.{Blames, IsMemory};
ghost use Rattle.room_piece.specs.Storing.{IsWithin, misfit};
ghost use Rattle.room_piece.specs.Walking.{Finds};

use crate::marking::mark_new;
use crate::owning::owners_of;
use crate::piece::Piece;
use crate::refusal::{Refusal, refused, unheld};
use crate::storing::{list_below, passed_held};
use crate::walking::{Way, is_taken, way_along};
use room_ace::{Failure, Name};
use room_machine::Reason;
use room_memory::MemKeep;
use room_question::Object;
use room_rows::{Keep, NewNode, Node, Text};
use std::alloc::Global;

/// Adds an object where nothing stands, in a folder that is there.
pub(crate) fn come(
    alloc: Global,
    piece: &mut Piece,
    unread: &Name,
    object: &Object,
) -> Result<(), Failure<Refusal>>
    ensures done { OnOk result (Comes unread.now object.now piece.old piece.new) }
    ensures refused { IfErr result (Blames (CannotCome object.now piece.old)) }
{
    match object.path.split_last() {
        None => Err(refused(object.line, Reason::Exists)),
        Some((name, _)) => match place_for(alloc, &mut piece.keep, object, name) {
            Ok(folder) => come_into(alloc, piece, unread, object, name, &folder),
            Err(failure) => Err(failure),
        },
    }
}

// Adds an object in this folder, where nothing has its name.
fn come_into(
    alloc: Global,
    piece: &mut Piece,
    unread: &Name,
    object: &Object,
    name: &Text,
    folder: &Node,
) -> Result<(), Failure<Refusal>>
    ensures done { OnOk result (ComesInto unread.now object.now name.now folder.now
        piece.old piece.new) }
    ensures refused { IfErr result (Blames (λ refusal. (refusal.line ≡ object.now.line)
        × (misfit object.now folder.now.dacl ≡ Some refusal.why))) }
{
    let node = object_in(alloc, unread, object, name, folder)?;
    let id = add(&mut piece.keep, node)?;
    mark_new(piece, object, id)?;
    Ok(())
}

// The object as it is stored in this folder.
fn object_in(
    alloc: Global,
    unread: &Name,
    object: &Object,
    name: &Text,
    folder: &Node,
) -> Result<NewNode, Failure<Refusal>>
    ensures { MatchResult result
        (λ node. (node ≡ object_in unread.now object.now name.now folder.now)
        × IsWithin object.now.list × (misfit object.now folder.now.dacl ≡ None))
        (Blames (λ refusal. (refusal.line ≡ object.now.line)
        × (misfit object.now folder.now.dacl ≡ Some refusal.why))) }
{
    let dacl = list_below(alloc, object, &folder.dacl)?;
    let sacl = passed_held(alloc, object.kind, &folder.sacl)?;
    let owners = owners_of(unread, object)?;
    let name = name.copy()?;
    Ok(NewNode {
        parent: Some(folder.id),
        name,
        kind: object.kind,
        owners,
        dacl,
        sacl,
    })
}

// Adds the object, without bytes.
fn add(keep: &mut MemKeep, node: NewNode) -> Result<u64, Failure<Refusal>>
    ensures added { IfOk result (λ id. AddsTo node keep.old id keep.new) }
    ensures fault { IfErr result IsMemory }
{
    match keep.add(node, b"") {
        Ok(id) => Ok(id),
        Err(fault) => Err(unheld(fault)),
    }
}

// The folder that the object comes to, where nothing has its name.
fn place_for(
    alloc: Global,
    keep: &mut MemKeep,
    object: &Object,
    name: &Text,
) -> Result<Node, Failure<Refusal>>
    requires { IsNameOf object.now.path name.now }
    ensures found { IfOk result (λ folder. AreRows (rows_in keep.old)
        → Finds (IsPlaceFor object.now.path folder) (rows_in keep.old) (rows_in keep.new)) }
    ensures refused { IfErr result (Blames (λ refusal. (refusal.line ≡ object.now.line)
        × (IsWell keep.old → IsBarred object.now.path (rows_in keep.old) refusal.why))) }
{
    let folder = folder_for(alloc, keep, object)?;
    if is_taken(keep, &folder, name)? {
        return Err(refused(object.line, Reason::Exists));
    }
    Ok(folder)
}

// The folder that the object comes to.
fn folder_for(alloc: Global, keep: &mut MemKeep, object: &Object) -> Result<Node, Failure<Refusal>>
    requires { 0 < length object.now.path }
    ensures found { IfOk result (λ folder. AreRows (rows_in keep.old)
        → Finds (IsFolderFor object.now.path folder) (rows_in keep.old) (rows_in keep.new)) }
    ensures refused { IfErr result (Blames (λ refusal. (refusal.line ≡ object.now.line)
        × (IsWell keep.old → IsBarred object.now.path (rows_in keep.old) refusal.why))) }
{
    let depth = object.path.names().len();
    let above = object.path.front(alloc, depth - 1)?;
    let way = way_along(alloc, keep, &above)?;
    folder_at(object.line, way)
}

// The last object on the way, if it is a folder, and no name is left over.
fn folder_at(line: usize, way: Way) -> Result<Node, Failure<Refusal>>
    ensures found { IfOk result (λ folder. (folder ≡ way.last) × (way.rest ≡ 0)
        × (is_folder folder ≡ true)) }
    ensures refused { IfErr result (Blames (λ refusal. (refusal.line ≡ line)
        × (way_fault way ≡ Some refusal.why))) }
{
    let Way {
        above: _,
        last,
        rest,
    } = way;
    if last.is_document() {
        return Err(refused(line, Reason::NotFolder));
    }
    if rest > 0 {
        return Err(refused(line, Reason::NoSuch));
    }
    Ok(last)
}
