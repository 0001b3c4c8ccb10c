//! The operator's move of an object.
ghost use Rattle.std.specs.Prelude.{◌≡◌, ◌<◌, IfOk, length, true};
ghost use Rattle.room_rows.specs.Keep.{IsDamaged};
ghost use Rattle.room_rows.specs.Content.{is_folder};
ghost use Rattle.room_judge.specs.Extent.{Unsaid};
ghost use Rattle.room_judge.specs.Judged.{DoesUpTo};
ghost use Rattle.room_machine.specs.Site.{front};
ghost use Rattle.room_machine.specs.declared.reply.Reply.TheVariants.{Refused};
ghost use Rattle.room_desk.specs.Relocating.{
  FailsFrom,
  FailsInto,
  Relocates,
  RelocatesFrom,
  RelocatesInto,
};

use crate::placing::{begins, is_taken, place_at};
use crate::resetting::ended;
use room_judge::refused;
use room_machine::{Reason, Reply};
use room_rows::{Keep, KeepFault, Node, Path, walk};
use std::alloc::{AllocError, Global};

/// An object that was found at its path, and where it is to stand.
#[derive(Drop)]
struct Moving<'p, 't, 'n> {
    path: &'p Path,
    to: &'t Path,
    target: &'n Node,
}

/// Moves an object, with all below it, as the request does, but checks no rights and leaves no
/// record. The reply is `Done`, or a refusal: no such object or folder, a document on the way, the
/// root, a name that is taken, or a folder that is the object or below it. Errors are those of
/// `perform`.
pub fn place<K: Keep>(
    alloc: Global,
    keep: &mut K,
    path: &Path,
    to: &Path,
) -> Result<Reply, KeepFault>
    ensures done { DoesUpTo K.Keep keep.old keep.new result Unsaid IsDamaged
        (Relocates path.now to.now) }
{
    let found = walk(alloc, keep, path)?;
    let rest = found.rest;
    let mut chain = found.chain.into_vec();
    match chain.pop() {
        None => unreachable!(),
        Some(target) => {
            let moving = Moving {
                path,
                to,
                target: &target,
            };
            place_from(alloc, keep, &moving, rest)
        }
    }
}

// Moves the last object that the walk found, where no names are left over.
fn place_from<K: Keep>(
    alloc: Global,
    keep: &mut K,
    moving: &Moving<'_, '_, '_>,
    rest: usize,
) -> Result<Reply, KeepFault>
    ensures done { DoesUpTo K.Keep keep.old keep.new result Unsaid
        (FailsFrom moving.now.path.now moving.now.target.now rest)
        (RelocatesFrom moving.now.path.now moving.now.to.now moving.now.target.now rest) }
{
    let is_ended = rest > 0;
    if is_ended {
        let gone = ended(alloc, moving.path, moving.target, rest)?;
        return Ok(gone);
    }
    let is_top = moving.path.is_root();
    if is_top {
        let root = refused(alloc, moving.path, 0, Reason::Root)?;
        return Ok(root);
    }
    let is_over = moving.to.is_root();
    if is_over {
        let exists = refused(alloc, moving.to, 0, Reason::Exists)?;
        return Ok(exists);
    }
    place_found(alloc, keep, moving)
}

// The refusal of a path for this reason.
fn refused_at(alloc: Global, path: &Path, why: Reason) -> Result<Reply, AllocError>
    ensures { IfOk result (λ reply. reply ≡ Refused path.now why) }
{
    refused(alloc, path, path.names().len(), why)
}

// Moves an object that isn't the root to a place that isn't the root's.
fn place_found<K: Keep>(
    alloc: Global,
    keep: &mut K,
    moving: &Moving<'_, '_, '_>,
) -> Result<Reply, KeepFault>
    requires some { 0 < length moving.now.path.now }
    requires there { 0 < length moving.now.to.now }
    ensures done { DoesUpTo K.Keep keep.old keep.new result Unsaid
        (FailsFrom moving.now.path.now moving.now.target.now 0)
        (RelocatesFrom moving.now.path.now moving.now.to.now moving.now.target.now 0) }
{
    let above = moving.to.front(alloc, moving.to.names().len() - 1)?;
    let found = walk(alloc, keep, &above)?;
    let rest = found.rest;
    let mut chain = found.chain.into_vec();
    match chain.pop() {
        None => unreachable!(),
        Some(folder) => place_into(alloc, keep, moving, &above, &folder, rest),
    }
}

// Moves the object into the last object that the walk to the new folder found, where no names are
// left over.
fn place_into<K: Keep>(
    alloc: Global,
    keep: &mut K,
    moving: &Moving<'_, '_, '_>,
    above: &Path,
    folder: &Node,
    rest: usize,
) -> Result<Reply, KeepFault>
    requires some { 0 < length moving.now.path.now }
    requires there { 0 < length moving.now.to.now }
    requires above { above.now ≡ front moving.now.to.now }
    ensures done { DoesUpTo K.Keep keep.old keep.new result Unsaid
        (FailsInto moving.now.path.now moving.now.to.now moving.now.target.now folder.now rest)
        (RelocatesInto moving.now.path.now moving.now.to.now moving.now.target.now folder.now
        rest) }
{
    let is_ended = rest > 0;
    if is_ended {
        let gone = ended(alloc, above, folder, rest)?;
        return Ok(gone);
    }
    let is_document = folder.is_document();
    if is_document {
        let wrong = refused_at(alloc, above, Reason::NotFolder)?;
        return Ok(wrong);
    }
    place_in(alloc, keep, moving, above, folder)
}

// Moves the object into the folder, where its name is free there, and the folder isn't below it.
fn place_in<K: Keep>(
    alloc: Global,
    keep: &mut K,
    moving: &Moving<'_, '_, '_>,
    above: &Path,
    folder: &Node,
) -> Result<Reply, KeepFault>
    requires some { 0 < length moving.now.path.now }
    requires there { 0 < length moving.now.to.now }
    requires above { above.now ≡ front moving.now.to.now }
    requires folder { is_folder folder.now ≡ true }
    ensures done { DoesUpTo K.Keep keep.old keep.new result Unsaid
        (FailsInto moving.now.path.now moving.now.to.now moving.now.target.now folder.now 0)
        (RelocatesInto moving.now.path.now moving.now.to.now moving.now.target.now folder.now 0) }
{
    let to = moving.to;
    match to.split_last() {
        None => unreachable!(),
        Some((name, _)) => {
            let is_taken = is_taken(keep, folder.id, name.as_str())?;
            if is_taken {
                let exists = refused_at(alloc, to, Reason::Exists)?;
                return Ok(exists);
            }
            let is_below = begins(moving.path.names(), above.names());
            if is_below {
                let looped = refused_at(alloc, to, Reason::Loop)?;
                return Ok(looped);
            }
            place_at(alloc, keep, moving.target, folder, name.as_str())
        }
    }
}
