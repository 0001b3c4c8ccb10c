//! What is asked of the two states of a piece.
ghost use Rattle.std.specs.Prelude.{◌≡◌, ◌*◌, IfOk, length, nat_lt};
ghost use Rattle.room_memory.specs.Memory.{rows_in};
ghost use Rattle.room_rows.specs.Rows.{AreRows, numbers_of};
ghost use Rattle.room_piece.specs.Walking.{Finds};
ghost use Rattle.room_would.specs.Asking.{IsAsked, State, state_of};
ghost use Rattle.room_would.specs.declared.limits.TheConstants.{MOST_TURNS};

use crate::limits::MOST_TURNS;
use crate::looking::unheld;
use crate::parties::parties_of;
use crate::paths::first_path;
use room_ace::Name;
use room_memory::MemKeep;
use room_piece::Piece;
use room_question::Question;
use room_rows::{Keep, Numbers};
use room_turns::Asked;
use std::alloc::{AllocError, Global};

/// What the question asks of the piece as it is and as it is then.
pub(crate) fn asked_of(
    alloc: Global,
    question: &Question,
    stranger: &Name,
    before: &mut Piece,
    after: &Piece,
) -> Result<Asked, AllocError>
    ensures same { IfOk result (λ asked. AreRows (rows_in before.old.keep)
        → state_of before.new ≡ state_of before.old) }
    ensures asked { IfOk result (λ asked. AreRows (rows_in before.old.keep)
        → IsAsked question.now stranger.now (state_of before.old) (state_of after.now) asked) }
{
    let parties = parties_of(alloc, &mut before.keep, question, stranger)?;
    let path = first_path(alloc, question)?;
    let hidden_before = copy_of(&before.unknown)?;
    let hidden_after = copy_of(&after.unknown)?;
    let own = copy_of(&after.each)?;
    Ok(Asked {
        parties,
        path,
        hidden_before,
        hidden_after,
        own,
        looks: question.changes.is_empty(),
    })
}

fn copy_of(numbers: &Numbers) -> Result<Numbers, AllocError>
    ensures { IfOk result (λ copy. copy ≡ numbers.now) }
{
    numbers.clone()
}

/// How many objects there are.
pub(crate) fn count_objects(keep: &mut MemKeep) -> Result<usize, AllocError>
    ensures { IfOk result (λ count. AreRows (rows_in keep.old)
        → Finds (λ rows. count ≡ length (numbers_of rows))
        (rows_in keep.old) (rows_in keep.new)) }
{
    match keep.ids() {
        Ok(ids) => Ok(ids.len()),
        Err(fault) => Err(unheld(fault)),
    }
}

/// Whether these are more callers times objects than an answer is worked out of.
pub(crate) fn is_too_much(callers: usize, objects: usize) -> bool
    ensures { result ≡ nat_lt MOST_TURNS (callers * objects) }
{
    callers.saturating_mul(objects) > MOST_TURNS
}
