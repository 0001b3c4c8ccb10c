//! The lists of an answer.
ghost use Rattle.std.specs.Prelude.{◌≡◌, ◌++◌, OnOk};
ghost use Rattle.room_entry.specs.Pieces.{is_among};
ghost use Rattle.room_memory.specs.Memory.{rows_in};
ghost use Rattle.room_rows.specs.Rows.{AreRows};
ghost use Rattle.room_piece.specs.Marking.{has_unknown};
ghost use Rattle.room_would.specs.Lists.{is_told, list_at, list_by, lists_at};

use crate::looking::walked;
use crate::paths::target;
use room_answer::Answer;
use room_memory::MemKeep;
use room_question::Change;
use room_rows::{Node, Numbers, Path, Walk};
use std::alloc::{AllocError, Global};

/// Adds the lists of the objects that stand where something was set, moved or brought, as far as
/// they are known.
pub(crate) fn push_lists(
    alloc: Global,
    answer: &mut Answer,
    keep: &mut MemKeep,
    unknown: &Numbers,
    changes: &[Change],
) -> Result<(), AllocError>
    ensures { OnOk result (AreRows (rows_in keep.old) → (rows_in keep.new ≡ rows_in keep.old)
        × (answer.new ≡ answer.old ++ lists_at (rows_in keep.old) unknown.now changes.now)) }
{
    'changes: for change in changes {
        push_list_at(alloc, answer, keep, unknown, target(change))?;
    }
    Ok(())
}

// Adds the list of the object at a path.
fn push_list_at(
    alloc: Global,
    answer: &mut Answer,
    keep: &mut MemKeep,
    unknown: &Numbers,
    path: &Path,
) -> Result<(), AllocError>
    ensures { OnOk result (AreRows (rows_in keep.old) → (rows_in keep.new ≡ rows_in keep.old)
        × (answer.new ≡ answer.old ++ list_at (rows_in keep.old) unknown.now path.now)) }
{
    let found = walked(alloc, keep, path)?;
    push_list_by(alloc, answer, unknown, path, &found)
}

// Adds the list of the object that a walk along the path found.
fn push_list_by(
    alloc: Global,
    answer: &mut Answer,
    unknown: &Numbers,
    path: &Path,
    found: &Walk,
) -> Result<(), AllocError>
    ensures { OnOk result (answer.new ≡ answer.old ++ list_by unknown.now path.now found.now) }
{
    if !is_told(unknown, found) {
        return Ok(());
    }
    match found.chain.as_slice().last() {
        None => Ok(()),
        Some(node) => {
            let text = path.to_text(alloc)?;
            answer.push_list(alloc, text.as_str(), node.dacl.flags(), node.dacl.full())
        }
    }
}

// Whether the walk found the object, and all of its way is known.
fn is_told(unknown: &Numbers, found: &Walk) -> bool
    ensures { result ≡ is_told unknown.now found.now }
{
    found.rest == 0 && !has_unknown(unknown, found.chain.as_slice())
}

// Whether one of the objects isn't known.
fn has_unknown(unknown: &Numbers, nodes: &[Node]) -> bool
    ensures { result ≡ has_unknown unknown.now nodes.now }
{
    nodes.iter().any(|node| is_among(unknown, node.id))
}

// Whether the number is among these.
fn is_among(numbers: &Numbers, id: u64) -> bool
    ensures { result ≡ is_among numbers.now id }
{
    numbers.as_slice().iter().any(|other| *other == id)
}
