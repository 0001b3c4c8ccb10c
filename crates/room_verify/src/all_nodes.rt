//! All objects of a keeper.
ghost use Rattle.room_rows.specs.Calls.{Reads};
ghost use Rattle.room_verify.specs.Reading.{AreAll, IsBadAt, IsFirstBad, IsSoundAt};

use crate::sound_lists::has_sound_lists;
use room_rows::{Keep, KeepFault, Node, Nodes};
use std::alloc::Global;

/// Reads all objects. The error is `Damaged` for the first number whose row can't be read or whose
/// lists aren't sound.
pub(crate) fn read_all<K: Keep>(alloc: Global, keep: &mut K) -> Result<Nodes, KeepFault>
    ensures read { Reads K.Keep keep.old keep.new result IsFirstBad AreAll }
{
    let ids = keep.ids()?;
    let mut nodes = Nodes::new(alloc);
    'ids: for id in ids.as_slice() {
        nodes.push(read_sound(keep, *id)?)?;
    }
    Ok(nodes)
}

// The object of a number in use. The error is `Damaged` where its row can't be read or its lists
// aren't sound.
fn read_sound<K: Keep>(keep: &mut K, id: u64) -> Result<Node, KeepFault>
    ensures read { Reads K.Keep keep.old keep.new result (IsBadAt id) (IsSoundAt id) }
{
    match keep.node(id)? {
        Some(node) if has_sound_lists(&node) => Ok(node),
        Some(_) | None => Err(KeepFault::Damaged { id }),
    }
}
