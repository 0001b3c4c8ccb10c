//! One document, by its path.
ghost use Rattle.std.specs.Prelude.{◌+◌, ◌<◌, ◌≤◌, IfOk, length};
ghost use Rattle.room_entry.specs.declared.object.ObjKind.TheVariants.{Document, Folder};
ghost use Rattle.room_rows.specs.Calls.{Reads};
ghost use Rattle.room_rows.specs.Keep.{IsDamaged};
ghost use Rattle.room_dump.specs.Fetching.{HoldsBytes, IsFetched, IsFetchedAt, IsRefusal};
ghost use Rattle.room_dump.specs.Fetching.{LacksItsBytes};
ghost use Rattle.room_dump.specs.Telling.{LacksBytesAt};

use room_ace::ObjKind;
use room_rows::{Bytes, Keep, KeepFault, Node, Path, walk};
use std::alloc::{AllocError, Global};

/// What a path leads to.
#[derive(Drop)]
pub enum Fetched {
    /// A document with these bytes.
    Bytes(Bytes),
    /// Nothing: there is no object at this path, which is the one asked for or its front.
    NoSuch(Path),
    /// Nothing: the object at this path, which is on the way, is a document.
    NotFolder(Path),
    /// A folder, at this path.
    WrongKind(Path),
}

/// The bytes of the document at a path, or why there are none.
///
/// Nothing is changed, and no right is asked. The error is the keeper's, or that memory ran out;
/// `Damaged` names a row that can't be read or a document without bytes, and `NoRoot` comes only
/// where there is no root.
pub fn fetch<K: Keep>(alloc: Global, keep: &mut K, path: &Path) -> Result<Fetched, KeepFault>
    ensures read { Reads K.Keep keep.old keep.new result IsDamaged (IsFetched path.now) }
    ensures counted { K.reads keep.new ≤ K.reads keep.old + (length path.now + 2) }
{
    let found = walk(alloc, keep, path)?;
    let rest = found.rest;
    let mut chain = found.chain.into_vec();
    match chain.pop() {
        None => unreachable!(),
        Some(last) => fetch_at(alloc, keep, path, &last, rest),
    }
}

// What a path leads to, where a walk along it ended at this object before so many names.
fn fetch_at<K: Keep>(
    alloc: Global,
    keep: &mut K,
    path: &Path,
    last: &Node,
    rest: usize,
) -> Result<Fetched, KeepFault>
    ensures read { Reads K.Keep keep.old keep.new result (LacksItsBytes last.now)
        (IsFetchedAt path.now last.now rest) }
    ensures counted { K.reads keep.new ≤ K.reads keep.old + 1 }
{
    match last.kind {
        ObjKind::Folder => Ok(at_folder(alloc, path, rest)?),
        ObjKind::Document if rest > 0 => Ok(below_document(alloc, path, rest)?),
        ObjKind::Document => body_of(keep, last.id),
    }
}

// Why a walk that ended at a folder found no document.
fn at_folder(alloc: Global, path: &Path, rest: usize) -> Result<Fetched, AllocError>
    ensures { IfOk result (IsRefusal path.now Folder rest) }
{
    if rest == 0 {
        return Ok(Fetched::WrongKind(path.copy()?));
    }
    let count = path.names().len().saturating_sub(rest - 1);
    Ok(Fetched::NoSuch(path.front(alloc, count)?))
}

// Why a walk that ended at a document before so many names found none.
fn below_document(alloc: Global, path: &Path, rest: usize) -> Result<Fetched, AllocError>
    requires { 0 < rest }
    ensures { IfOk result (IsRefusal path.now Document rest) }
{
    let count = path.names().len().saturating_sub(rest);
    Ok(Fetched::NotFolder(path.front(alloc, count)?))
}

fn body_of<K: Keep>(keep: &mut K, id: u64) -> Result<Fetched, KeepFault>
    ensures read { Reads K.Keep keep.old keep.new result (LacksBytesAt id) (HoldsBytes id) }
    ensures counted { K.reads keep.new ≤ K.reads keep.old + 1 }
{
    match keep.body(id)? {
        Some(bytes) => Ok(Fetched::Bytes(bytes)),
        None => Err(KeepFault::Damaged { id }),
    }
}
