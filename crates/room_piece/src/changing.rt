//! A piece that is changed.
ghost use Rattle.std.specs.Prelude.{◌≡◌, None, Some, IfErr, OnOk};
ghost use Rattle.room_change.specs.Changes.{changed};
ghost use Rattle.room_change.specs.Changes.{Sets as IsSetTo, Moves as IsMovedTo};
ghost use Rattle.room_memory.specs.Memory.{rows_in};
ghost use Rattle.room_rows.specs.Meaning.{meaning};
ghost use Rattle.room_piece.specs.Changing.{
  CanMove,
  CanSet,
  CannotDo,
  CannotMove,
  CannotSet,
  IsDone,
  IsMoved,
  IsSet,
};
ghost use Rattle.room_piece.specs.Holding.{IsWell};
ghost use Rattle.room_piece.specs.InTurn.{InTurn, StopsInTurn};
ghost use Rattle.room_piece.specs.Refusing.{Blames, why_of};

use crate::coming::come;
use crate::marking::{mark_moving, mark_set};
use crate::piece::Piece;
use crate::refusal::{Refusal, refused_for, unheld, why_of};
use room_ace::{Failure, Name, Which};
use room_desk::{Reply, place, reset};
use room_memory::MemKeep;
use room_question::{Change, Moving, Setting};
use std::alloc::Global;

/// Changes the piece in this order, as the room would be changed, rights apart. The refusal is of
/// the first change that the room would refuse; what the piece is then, isn't said.
pub fn change(
    alloc: Global,
    piece: &mut Piece,
    unread: &Name,
    changes: &[Change],
) -> Result<(), Failure<Refusal>>
    ensures done { OnOk result (IsWell piece.old.keep
        → InTurn (IsDone unread.now) changes.now piece.old piece.new) }
    ensures refused { IfErr result (Blames (λ refusal. IsWell piece.old.keep
        → StopsInTurn (IsDone unread.now) CannotDo changes.now piece.old refusal)) }
{
    'changes: for one in changes {
        match change_by(alloc, piece, unread, one) {
            Ok(()) => {}
            Err(failure) => return Err(failure),
        }
    }
    Ok(())
}

fn change_by(
    alloc: Global,
    piece: &mut Piece,
    unread: &Name,
    change: &Change,
) -> Result<(), Failure<Refusal>>
    ensures done { OnOk result (IsWell piece.old.keep
        → IsDone unread.now change.now piece.old piece.new) }
    ensures refused { IfErr result (Blames (λ refusal. IsWell piece.old.keep
        → CannotDo change.now piece.old refusal)) }
{
    match change {
        Change::Sets(setting) => set(alloc, piece, setting),
        Change::Moves(moving) => relocate(alloc, piece, moving),
        Change::Comes(object) => come(alloc, piece, unread, object),
    }
}

// Sets a dacl.
fn set(alloc: Global, piece: &mut Piece, setting: &Setting) -> Result<(), Failure<Refusal>>
    ensures done { OnOk result (IsWell piece.old.keep
        → IsSet setting.now piece.old piece.new) }
    ensures refused { IfErr result (Blames (λ refusal. (refusal.line ≡ setting.now.line)
        × (IsWell piece.old.keep → CannotSet setting.now piece.old.keep refusal.why))) }
{
    set_in(alloc, &mut piece.keep, setting)?;
    mark_set(alloc, &mut piece.keep, &mut piece.unknown, &setting.path)
}

// Sets a dacl in a keeper.
fn set_in(alloc: Global, keep: &mut MemKeep, setting: &Setting) -> Result<(), Failure<Refusal>>
    ensures can { OnOk result (IsWell keep.old → CanSet setting.now keep.old) }
    ensures means { OnOk result (IsWell keep.old → meaning (rows_in keep.new).read
        ≡ changed (meaning (rows_in keep.old).read)
        (IsSetTo setting.now.path setting.now.list)) }
    ensures well { OnOk result (IsWell keep.old → IsWell keep.new) }
    ensures refused { IfErr result (Blames (λ refusal. (refusal.line ≡ setting.now.line)
        × (IsWell keep.old → CannotSet setting.now keep.old refusal.why))) }
{
    let path = &setting.path;
    match reset(alloc, keep, path, Which::Dacl, &setting.list) {
        Ok(reply) => judged(setting.line, &reply),
        Err(fault) => Err(unheld(fault)),
    }
}

// Moves an object, with all below it.
fn relocate(alloc: Global, piece: &mut Piece, moving: &Moving) -> Result<(), Failure<Refusal>>
    ensures done { OnOk result (IsWell piece.old.keep
        → IsMoved moving.now piece.old piece.new) }
    ensures refused { IfErr result (Blames (λ refusal. (refusal.line ≡ moving.now.line)
        × (IsWell piece.old.keep → CannotMove moving.now piece.old.keep refusal.why))) }
{
    mark_moving(alloc, &mut piece.keep, &mut piece.unknown, &moving.path)?;
    move_in(alloc, &mut piece.keep, moving)
}

// Moves an object in a keeper.
fn move_in(alloc: Global, keep: &mut MemKeep, moving: &Moving) -> Result<(), Failure<Refusal>>
    ensures can { OnOk result (IsWell keep.old → CanMove moving.now keep.old) }
    ensures means { OnOk result (IsWell keep.old → meaning (rows_in keep.new).read
        ≡ changed (meaning (rows_in keep.old).read)
        (IsMovedTo moving.now.path moving.now.to)) }
    ensures well { OnOk result (IsWell keep.old → IsWell keep.new) }
    ensures refused { IfErr result (Blames (λ refusal. (refusal.line ≡ moving.now.line)
        × (IsWell keep.old → CannotMove moving.now keep.old refusal.why))) }
{
    match place(alloc, keep, &moving.path, &moving.to) {
        Ok(reply) => judged(moving.line, &reply),
        Err(fault) => Err(unheld(fault)),
    }
}

// The refusal that a reply tells.
fn judged(line: usize, reply: &Reply) -> Result<(), Failure<Refusal>>
    ensures done { OnOk result (why_of reply.now ≡ None) }
    ensures refused { IfErr result (Blames (λ refusal. (refusal.line ≡ line)
        × (why_of reply.now ≡ Some refusal.why))) }
{
    match why_of(reply) {
        None => Ok(()),
        Some(why) => Err(refused_for(line, why)),
    }
}
