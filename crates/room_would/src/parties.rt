//! The callers of an answer.
ghost use Rattle.std.specs.Prelude.{◌≡◌, ◌∷◌, ◌++◌, [], IfOk, OnOk, map, unwrap_or};
ghost use Rattle.room_memory.specs.Memory.{rows_in};
ghost use Rattle.room_rows.specs.Rows.{AreRows};
ghost use Rattle.room_piece.specs.Walking.{Finds};
ghost use Rattle.room_review.specs.Table.{everybody};
ghost use Rattle.room_would.specs.Parties.{AreParties, supposed_party};

use crate::looking::unheld;
use crate::names::users_named;
use room_ace::{Caller, Name, Names};
use room_memory::MemKeep;
use room_question::{Question, Supposed};
use room_review::{Party, everybody};
use room_rows::Text;
use std::alloc::{AllocError, Global};

/// Whom the question names as users, `*` for the stranger, a caller without a name, and those who
/// may be. The groups of users are those that the piece has.
pub(crate) fn parties_of(
    alloc: Global,
    keep: &mut MemKeep,
    question: &Question,
    stranger: &Name,
) -> Result<Vec<Party>, AllocError>
    ensures { IfOk result (λ parties. AreRows (rows_in keep.old)
        → Finds (λ rows. AreParties question.now stranger.now rows parties.items)
        (rows_in keep.old) (rows_in keep.new)) }
{
    let users = users_named(alloc, question)?;
    users.is_known();
    let mut parties = everyone(alloc, keep, users.as_slice(), stranger)?;
    push_supposed(alloc, &mut parties, question.supposed.as_slice(), stranger)?;
    Ok(parties)
}

// The users, the stranger, and a caller without a name.
fn everyone(
    alloc: Global,
    keep: &mut MemKeep,
    users: &[Name],
    stranger: &Name,
) -> Result<Vec<Party>, AllocError>
    ensures { IfOk result (λ parties. AreRows (rows_in keep.old)
        → Finds (λ rows. parties.items ≡ everybody rows.read users.now stranger.now)
        (rows_in keep.old) (rows_in keep.new)) }
{
    match everybody(alloc, keep, users, stranger) {
        Ok(parties) => Ok(parties),
        Err(fault) => Err(unheld(fault)),
    }
}

// Adds the callers who may be.
fn push_supposed(
    alloc: Global,
    parties: &mut Vec<Party>,
    supposed: &[Supposed],
    stranger: &Name,
) -> Result<(), AllocError>
    ensures { OnOk result (parties.new.items
        ≡ parties.old.items ++ map (supposed_party stranger.now) supposed.now) }
{
    'supposed: for one in supposed {
        let party = party_of(alloc, one, stranger)?;
        parties.push(party)?;
    }
    Ok(())
}

// A caller who may be. Without a name it has the stranger's.
fn party_of(alloc: Global, supposed: &Supposed, stranger: &Name) -> Result<Party, AllocError>
    ensures { IfOk result (λ party. party ≡ supposed_party stranger.now supposed.now) }
{
    let label = Text::from_str(alloc, supposed.label.as_str())?;
    let caller = caller_of(alloc, supposed, stranger)?;
    Ok(Party { label, caller })
}

fn caller_of(alloc: Global, supposed: &Supposed, stranger: &Name) -> Result<Caller, AllocError>
    ensures { IfOk result (λ caller. caller ≡ (supposed_party stranger.now supposed.now).caller) }
{
    let groups = copy_of(alloc, &supposed.groups)?;
    let user = Some(name_of(&supposed.user, stranger)?);
    Ok(Caller { user, groups })
}

fn name_of(user: &Option<Name>, stranger: &Name) -> Result<Name, AllocError>
    ensures { IfOk result (λ name. name ≡ unwrap_or user.now stranger.now) }
{
    match user {
        None => stranger.copy(),
        Some(name) => name.copy(),
    }
}

fn copy_of(alloc: Global, names: &Names) -> Result<Names, AllocError>
    ensures { IfOk result (λ copy. copy ≡ names.now) }
{
    let mut copy = Names::new(alloc);
    'names: for name in names.as_slice() {
        copy.push(name.copy()?)?;
    }
    Ok(copy)
}
