//! The review of a part of a room.
ghost use Rattle.std.specs.Prelude.{◌≡◌, IfOk, None};
ghost use Rattle.room_rows.specs.Calls.{Reads};
ghost use Rattle.room_rows.specs.Keep.{HasNoRoot};
ghost use Rattle.room_review.specs.Table.{IsReview};
ghost use Rattle.room_review.specs.Telling.{
  GathersUsers,
  GivesAnswer,
  GivesParties,
  GivesReview,
  IsAstray,
  IsLostAt,
  IsStranded,
  ended_at,
};

use crate::gathering::{gather_above, gather_below};
use crate::parties::{Party, alone, everybody};
use crate::question::{Reviewed, Scope, Start};
use crate::telling::{Audience, table_from};
use crate::users::{Users, stranger_to};
use room_ace::{Name, ObjKind};
use room_machine::Reason;
use room_rows::{Bytes, Keep, KeepFault, Nodes, Path, walk};
use std::alloc::{AllocError, Global};

/// What each caller may do with the object at a path and with all below it, or why the path leads
/// nowhere. The pairs are those of the room.
///
/// Nothing is changed. The error is the keeper's, or that memory ran out; `Damaged` names a row
/// that can't be read, and `NoRoot` comes only where there is no root.
pub fn review<K: Keep>(
    alloc: Global,
    keep: &mut K,
    pairs: &[(Name, Name)],
    question: &Scope,
) -> Result<Reviewed, KeepFault>
    ensures read { Reads K.Keep keep.old keep.new result HasNoRoot
        (IsReview pairs.now question.now) }
{
    let found = walk(alloc, keep, &question.path)?;
    let rest = found.rest;
    let mut above = found.chain.into_vec();
    match above.pop() {
        None => Err(KeepFault::NoRoot),
        Some(node) => {
            let start = Start {
                path: question.path.copy()?,
                above: Nodes::from_vec(above),
                node,
            };
            review_from(alloc, keep, pairs, question, &start, rest)
        }
    }
}

// The review from where a walk ended, with this many names left over.
fn review_from<K: Keep>(
    alloc: Global,
    keep: &mut K,
    pairs: &[(Name, Name)],
    question: &Scope,
    start: &Start,
    rest: usize,
) -> Result<Reviewed, KeepFault>
    ensures read { Reads K.Keep keep.old keep.new result (IsStranded question.now start.now rest)
        (GivesAnswer pairs.now question.now start.now rest) }
{
    if rest > 0 {
        let refused = ended_at(alloc, &question.path, start.node.kind, rest)?;
        return Ok(refused);
    }
    let table = table_at(alloc, keep, pairs, question, start)?;
    Ok(Reviewed::Table(table))
}

// Why a path leads nowhere, where a walk ends at an object of this kind before this many names.
fn ended_at(alloc: Global, path: &Path, kind: ObjKind, rest: usize) -> Result<Reviewed, AllocError>
    ensures { IfOk result (λ reviewed. reviewed ≡ ended_at path.now kind rest) }
{
    let count = path.names().len();
    match kind {
        ObjKind::Document => Ok(Reviewed::Refused {
            path: path.front(alloc, count.saturating_sub(rest))?,
            why: Reason::NotFolder,
        }),
        ObjKind::Folder => Ok(Reviewed::Refused {
            path: path.front(alloc, count.saturating_sub(rest.saturating_sub(1)))?,
            why: Reason::NoSuch,
        }),
    }
}

// The table of the object that a review starts at.
fn table_at<K: Keep>(
    alloc: Global,
    keep: &mut K,
    pairs: &[(Name, Name)],
    question: &Scope,
    start: &Start,
) -> Result<Bytes, KeepFault>
    ensures read { Reads K.Keep keep.old keep.new result (IsLostAt start.now)
        (GivesReview pairs.now question.now start.now) }
{
    let most = keep.ids()?.len();
    let parties = parties_at(alloc, keep, most, pairs, question, start)?;
    let asked = Audience {
        alloc,
        parties,
        all: question.all,
    };
    table_from(keep, most, start, &asked)
}

// The callers whose rows are asked for.
fn parties_at<K: Keep>(
    alloc: Global,
    keep: &mut K,
    most: usize,
    pairs: &[(Name, Name)],
    question: &Scope,
    start: &Start,
) -> Result<Vec<Party>, KeepFault>
    ensures read { Reads K.Keep keep.old keep.new result (IsAstray most start.now)
        (λ rows parties.
        GivesParties most start.now pairs.now question.now.user rows parties.items) }
{
    match &question.user {
        Some(name) => alone(alloc, keep, name),
        None => everybody_at(alloc, keep, most, pairs, start),
    }
}

// All callers.
fn everybody_at<K: Keep>(
    alloc: Global,
    keep: &mut K,
    most: usize,
    pairs: &[(Name, Name)],
    start: &Start,
) -> Result<Vec<Party>, KeepFault>
    ensures read { Reads K.Keep keep.old keep.new result (IsAstray most start.now)
        (λ rows parties. GivesParties most start.now pairs.now None rows parties.items) }
{
    let users = users_at(alloc, keep, most, pairs, start)?;
    users.is_known();
    let stranger = stranger_to(alloc, &users)?;
    everybody(alloc, keep, users.as_slice(), &stranger)
}

// The users of the pairs, of the objects on the way, and of the object and all below it.
fn users_at<K: Keep>(
    alloc: Global,
    keep: &mut K,
    most: usize,
    pairs: &[(Name, Name)],
    start: &Start,
) -> Result<Users, KeepFault>
    ensures read { Reads K.Keep keep.old keep.new result (IsAstray most start.now)
        (GathersUsers most start.now pairs.now) }
{
    let mut users = Users::new(alloc);
    users.add_paired(pairs)?;
    gather_above(&mut users, start.above.as_slice())?;
    gather_below(alloc, keep, most, &start.node, &mut users)?;
    Ok(users)
}
