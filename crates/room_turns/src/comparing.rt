//! The rows of two states of a room.
ghost use Rattle.std.specs.Prelude.{◌≡◌, ◌∷◌, nat_eq};
ghost use Rattle.std.specs.HashMap.{get};
ghost use Rattle.room_import.specs.Exports.{rows_text};
ghost use Rattle.room_rows.specs.Calls.{Reads};
ghost use Rattle.room_rows.specs.Keep.{HasNoRoot};
ghost use Rattle.room_answer.specs.Answer.{header};
ghost use Rattle.room_turns.specs.Comparing.{ReadsBoth};
ghost use Rattle.room_turns.specs.Stands.{GivesText, IsTable};
ghost use Rattle.room_turns.specs.Turns.{IsCompared};

use crate::asked::Asked;
use crate::earlier::{Scene, by_number, scene_of};
use crate::spot::Spot;
use crate::telling::push_rows;
use crate::walking::spots_from;
use room_answer::Answer;
use room_rows::{Keep, KeepFault, Path};
use std::alloc::Global;
use std::collections::HashMap;

/// The rows of the first object and of all below it in the state after: what each caller could do
/// there before and can do after.
///
/// Nothing is changed. The error is that of one of the keepers, or that memory ran out; `NoRoot`
/// comes only where there is no root.
pub fn compare<K: Keep>(
    alloc: Global,
    before: &mut K,
    after: &mut K,
    asked: &Asked,
) -> Result<Answer, KeepFault>
    ensures read { ReadsBoth K.Keep before.old before.new after.old after.new result
        (IsCompared asked.now) }
{
    let table = earlier(alloc, before, asked)?;
    let scene = scene_of(alloc, &asked.hidden_after, &asked.own, table)?;
    answer_of(after, asked, &scene)
}

// The objects of the state before by their numbers.
fn earlier<K: Keep>(
    alloc: Global,
    keep: &mut K,
    asked: &Asked,
) -> Result<HashMap<u64, Spot>, KeepFault>
    ensures read { Reads K.Keep keep.old keep.new result HasNoRoot
        (λ rows table. IsTable asked.now rows (get nat_eq table)) }
{
    let scene = scene_of(alloc, &asked.hidden_before, &asked.own, HashMap::new(alloc))?;
    let objects = spots_from(keep, &Path::root(alloc), asked, &scene)?;
    Ok(by_number(alloc, objects)?)
}

// The rows of the state after.
fn answer_of<K: Keep>(keep: &mut K, asked: &Asked, scene: &Scene) -> Result<Answer, KeepFault>
    ensures read { Reads K.Keep keep.old keep.new result HasNoRoot
        (GivesText asked.now scene.now) }
{
    let objects = spots_from(keep, &asked.path, asked, scene)?;
    let mut answer = Answer::begun(scene.alloc)?;
    push_rows(scene.alloc, &mut answer, &asked.parties, objects.as_slice())?;
    Ok(answer)
}
