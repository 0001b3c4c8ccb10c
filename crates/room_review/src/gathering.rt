//! The users that a part of a room names.
ghost use Rattle.std.specs.Prelude.{◌∷◌, [], OnOk};
ghost use Rattle.std.specs.List.{flat_map};
ghost use Rattle.room_rows.specs.Calls.{Reads};
ghost use Rattle.room_dump.specs.Visits.{IsBlocked};
ghost use Rattle.room_review.specs.Telling.{GathersAll, GathersComing, IsLost};
ghost use Rattle.room_review.specs.Users.{Gathers, users_at};

use crate::users::Users;
use room_dump::{Below, Visit};
use room_rows::{Keep, KeepFault, Node};
use std::alloc::{AllocError, Global};

/// Adds the users at the objects on a way.
pub(crate) fn gather_above(users: &mut Users, above: &[Node]) -> Result<(), AllocError>
    ensures { OnOk result (Gathers users.old (flat_map users_at above.now) users.new) }
{
    'nodes: for node in above {
        users.add_users_at(node)?;
    }
    Ok(())
}

/// Adds the users at an object and at all below it. There are at most `most` objects.
pub fn gather_below<K: Keep>(
    alloc: Global,
    keep: &mut K,
    most: usize,
    node: &Node,
    users: &mut Users,
) -> Result<(), KeepFault>
    ensures read { Reads K.Keep keep.old keep.new result (IsLost most (node.now ∷ []))
        (GathersAll most (node.now ∷ []) users.old users.new) }
{
    let mut walk = Below::at(alloc, most, Visit::first(alloc, node.copy()?))?;
    gather_all(keep, &mut walk, users)
}

// Adds the users at all that is still to come.
fn gather_all<K: Keep>(keep: &mut K, walk: &mut Below, users: &mut Users) -> Result<(), KeepFault>
    ensures read { Reads K.Keep keep.old keep.new result (IsBlocked walk.old)
        (GathersComing walk.old users.old users.new) }
{
    'objects: while let Some(visit) = walk.next(keep)? {
        let gathered = users.add_users_at(&visit.node);
        // Dropped here, and not part by part on each way out.
        drop(visit);
        gathered?;
    }
    Ok(())
}
