//! Where a path leads in a piece.
ghost use Rattle.std.specs.Prelude.{◌≡◌, ◌<◌, ◌∷◌, ◌++◌, IfErr, IfOk, is_some, length, []};
ghost use Rattle.room_memory.specs.Memory.{rows_in};
ghost use Rattle.room_rows.specs.Content.{child_of, children_of};
ghost use Rattle.room_rows.specs.Rows.{AreRows};
ghost use Rattle.room_piece.specs.Refusing.{IsMemory};
ghost use Rattle.room_piece.specs.Walking.{Finds, IsWay};

use crate::refusal::{Refusal, unheld};
use room_ace::Failure;
use room_memory::MemKeep;
use room_rows::{Keep, Node, Nodes, Path, Text, Walk, walk};
use std::alloc::Global;

/// The objects on the way along a path, the last one that it leads to, and how many of its names
/// are left over.
#[derive(Drop)]
pub(crate) struct Way {
    pub(crate) above: Vec<Node>,
    pub(crate) last: Node,
    pub(crate) rest: usize,
}

/// The way along the path.
pub(crate) fn way_along(
    alloc: Global,
    keep: &mut MemKeep,
    path: &Path,
) -> Result<Way, Failure<Refusal>>
    ensures found { IfOk result (λ way. AreRows (rows_in keep.old)
        → Finds (IsWay path.now way) (rows_in keep.old) (rows_in keep.new)) }
    ensures fault { IfErr result IsMemory }
{
    match walk(alloc, keep, path) {
        Ok(found) => Ok(way_of(found)),
        Err(fault) => Err(unheld(fault)),
    }
}

// The way that a walk has gone.
fn way_of(found: Walk) -> Way
    requires { 0 < length found.chain }
    ensures chain { found.chain ≡ result.above.items ++ result.last ∷ [] }
    ensures rest { result.rest ≡ found.rest }
{
    let rest = found.rest;
    let mut above = found.chain.into_vec();
    match above.pop() {
        None => unreachable!(),
        Some(last) => Way { above, last, rest },
    }
}

/// Whether the folder has a child of this name.
pub(crate) fn is_taken(
    keep: &mut MemKeep,
    folder: &Node,
    name: &Text,
) -> Result<bool, Failure<Refusal>>
    ensures found { IfOk result (λ taken. AreRows (rows_in keep.old)
        → Finds (λ rows. taken ≡ is_some (child_of rows.read folder.now.id name.now))
        (rows_in keep.old) (rows_in keep.new)) }
    ensures fault { IfErr result IsMemory }
{
    match keep.child(folder.id, name.as_str()) {
        Ok(child) => Ok(child.is_some()),
        Err(fault) => Err(unheld(fault)),
    }
}

/// The children of the object of this number.
pub(crate) fn children_of(keep: &mut MemKeep, id: u64) -> Result<Nodes, Failure<Refusal>>
    ensures found { IfOk result (λ children. AreRows (rows_in keep.old)
        → Finds (λ rows. children ≡ children_of rows.read id)
        (rows_in keep.old) (rows_in keep.new)) }
    ensures fault { IfErr result IsMemory }
{
    match keep.children(id) {
        Ok(children) => Ok(children),
        Err(fault) => Err(unheld(fault)),
    }
}
