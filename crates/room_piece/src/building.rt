//! A piece that is built of a question.
ghost use Rattle.std.specs.Prelude.{◌≡◌, ◌∷◌, None, Some, IfErr, IfOk, OnOk};
ghost use Rattle.room_memory.specs.Memory.{HasMembers, root_alone, rows_in};
ghost use Rattle.room_rows.specs.Content.{with_members};
ghost use Rattle.room_rows.specs.Keep.{with_content};
ghost use Rattle.room_rows.specs.Rows.{AreRows};
ghost use Rattle.room_piece.specs.Building.{
  CannotBuild,
  CannotGoOn,
  IsPiece,
  IsRooted,
  IsStarted,
  JoinsAll,
  is_top,
};
ghost use Rattle.room_piece.specs.Coming.{CannotCome, HasCome};
ghost use Rattle.room_piece.specs.Holding.{IsWell};
ghost use Rattle.room_piece.specs.InTurn.{InTurn, StopsInTurn};
ghost use Rattle.room_piece.specs.Owning.{owners_of};
ghost use Rattle.room_piece.specs.Refusing.{Blames, IsMemory};
ghost use Rattle.room_piece.specs.Storing.{IsWithin, root_list, root_misfit, silent};

use crate::coming::come;
use crate::marking::mark_new;
use crate::owning::owners_of;
use crate::piece::Piece;
use crate::refusal::{Refusal, refused};
use crate::storing::{list_of_root, silent};
use room_ace::{Failure, Items, Name, ObjKind};
use room_machine::Reason;
use room_memory::MemKeep;
use room_question::{Object, Question};
use std::alloc::{AllocError, Global};

/// The piece of a room that a question has, with this name for an owner or a group that isn't
/// known. Its objects have the numbers from 1 on, in the order of their lines. In a question that
/// was read each object's folder comes before it, so what is refused is a list: an entry that may
/// not stand there, or inherited entries that its folder doesn't pass down.
pub fn build(alloc: Global, question: &Question, unread: &Name) -> Result<Piece, Failure<Refusal>>
    ensures built { IfOk result (IsPiece unread.now question.now) }
    ensures refused { IfErr result (Blames (CannotBuild unread.now question.now)) }
{
    match question.objects.as_slice().split_first() {
        None => Err(refused(1, Reason::NoSuch)),
        Some((root, objects)) => {
            let begins = is_top(root);
            if !begins {
                return Err(refused(root.line, Reason::NoSuch));
            }
            build_on(alloc, unread, root, question.members.as_slice(), objects)
        }
    }
}

// Whether the object is the root, a folder.
fn is_top(object: &Object) -> bool
    ensures { result ≡ is_top object.now }
{
    object.path.is_root() && object.kind == ObjKind::Folder
}

// The piece of the root, the pairs and the other objects.
fn build_on(
    alloc: Global,
    unread: &Name,
    root: &Object,
    pairs: &[(Name, Name)],
    objects: &[Object],
) -> Result<Piece, Failure<Refusal>>
    ensures built { IfOk result (λ piece. (start : Piece)
        × IsStarted unread.now root.now pairs.now start
        × InTurn (HasCome unread.now) objects.now start piece) }
    ensures refused { IfErr result (Blames (CannotGoOn unread.now root.now pairs.now objects.now)) }
{
    match started(alloc, unread, root, pairs) {
        Err(failure) => Err(failure),
        Ok(start) => come_on(alloc, start, unread, objects),
    }
}

// The piece with the objects.
fn come_on(
    alloc: Global,
    start: Piece,
    unread: &Name,
    objects: &[Object],
) -> Result<Piece, Failure<Refusal>>
    ensures done { IfOk result (λ piece. IsWell start.keep
        → InTurn (HasCome unread.now) objects.now start piece) }
    ensures refused { IfErr result (Blames (λ refusal. IsWell start.keep
        → StopsInTurn (HasCome unread.now) CannotCome objects.now start refusal)) }
{
    let mut piece = start;
    match come_all(alloc, &mut piece, unread, objects) {
        Ok(()) => Ok(piece),
        Err(failure) => Err(failure),
    }
}

// A piece of the root alone, and of who is in which group.
fn started(
    alloc: Global,
    unread: &Name,
    root: &Object,
    pairs: &[(Name, Name)],
) -> Result<Piece, Failure<Refusal>>
    ensures started { IfOk result (IsStarted unread.now root.now pairs.now) }
    ensures refused { IfErr result (Blames (λ refusal. (refusal.line ≡ root.now.line)
        × (root_misfit root.now ≡ Some refusal.why))) }
{
    let mut keep = root_keep(alloc, unread, root)?;
    join_all(&mut keep, pairs)?;
    Ok(piece_of(alloc, root, keep)?)
}

// The piece of this keeper, in which the root stands alone.
fn piece_of(alloc: Global, root: &Object, keep: MemKeep) -> Result<Piece, AllocError>
    ensures { IfOk result (λ piece. IsRooted root.now keep piece) }
{
    let mut piece = Piece {
        keep,
        each: Items::new(alloc),
        unknown: Items::new(alloc),
    };
    mark_new(&mut piece, root, 1)?;
    Ok(piece)
}

// A keeper of the root alone.
fn root_keep(alloc: Global, unread: &Name, root: &Object) -> Result<MemKeep, Failure<Refusal>>
    ensures rows { IfOk result (λ keep. rows_in keep
        ≡ root_alone (owners_of unread.now root.now) (root_list root.now.list) silent) }
    ensures are { IfOk result (λ keep. AreRows (rows_in keep)) }
    ensures within { IfOk result (λ keep. IsWithin root.now.list) }
    ensures fits { IfOk result (λ keep. root_misfit root.now ≡ None) }
    ensures refused { IfErr result (Blames (λ refusal. (refusal.line ≡ root.now.line)
        × (root_misfit root.now ≡ Some refusal.why))) }
{
    let dacl = list_of_root(alloc, root)?;
    let owners = owners_of(unread, root)?;
    Ok(MemKeep::new(alloc, &owners, &dacl, &silent(alloc))?)
}

// Adds the pairs to a keeper that has none, from the last one on.
fn join_all(keep: &mut MemKeep, pairs: &[(Name, Name)]) -> Result<(), AllocError>
    ensures { OnOk result (JoinsAll pairs.now keep.old keep.new) }
{
    let count = pairs.len();
    'pairs: for index in 0..count {
        join_one(keep, &pairs[count - 1 - index])?;
    }
    Ok(())
}

// Adds a pair.
fn join_one(keep: &mut MemKeep, pair: &(Name, Name)) -> Result<(), AllocError>
    ensures { OnOk result (HasMembers (pair.now ∷ (rows_in keep.old).read.members)
        keep.old keep.new) }
{
    let (group, user) = pair;
    keep.join(group, user)
}

// Adds the objects, one after the other.
fn come_all(
    alloc: Global,
    piece: &mut Piece,
    unread: &Name,
    objects: &[Object],
) -> Result<(), Failure<Refusal>>
    ensures done { OnOk result (IsWell piece.old.keep
        → InTurn (HasCome unread.now) objects.now piece.old piece.new) }
    ensures refused { IfErr result (Blames (λ refusal. IsWell piece.old.keep
        → StopsInTurn (HasCome unread.now) CannotCome objects.now piece.old refusal)) }
{
    'objects: for object in objects {
        match come(alloc, piece, unread, object) {
            Ok(()) => {}
            Err(failure) => return Err(failure),
        }
    }
    Ok(())
}
