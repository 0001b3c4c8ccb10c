//! The request that sets owners.
ghost use Rattle.std.specs.Prelude.{◌≡◌, ◌≤◌, ◌+◌, ◌&&◌, IfOk, length};
ghost use Rattle.room_entry.specs.Pieces.{same_text};
ghost use Rattle.room_rows.specs.Keep.{IsDamaged, IsUnreadable};
ghost use Rattle.room_judge.specs.Halted.{RepliesUpTo, Serves, TriesUpTo};
ghost use Rattle.room_desk.specs.Answered.{SetsOwners};
ghost use Rattle.room_machine.specs.declared.request.Request.TheVariants.{SetOwners};
ghost use Rattle.room_desk.specs.Counted.{OneAndBoth, OneWrite, Provided};
ghost use Rattle.room_inherit.specs.Spread.{Holds};

use room_ace::{Mask, Owners};
use room_judge::{Ask, Halt, reach};
use room_machine::Reply;
use room_rows::{Keep, KeepFault, Node};

/// Gives an object another owner and group.
pub(crate) fn set_owners<K: Keep>(
    keep: &mut K,
    ask: &Ask<'_>,
    owners: &Owners,
) -> Result<Reply, Halt>
    ensures done { TriesUpTo K.Keep keep.old keep.new result OneAndBoth IsDamaged
        (Serves ask.now.asker.now (SetOwners ask.now.path.now owners.now)) }
    ensures counted { K.reads keep.new ≤ K.reads keep.old + (length ask.now.path.now + 1) }
{
    let node = reach(keep, ask, Mask::write_owner())?;
    Ok(set_at(keep, &node, owners)?)
}

// Gives the object these owners. Where they are what it has, nothing is written.
fn set_at<K: Keep>(keep: &mut K, node: &Node, owners: &Owners) -> Result<Reply, KeepFault>
    ensures done { RepliesUpTo K.Keep keep.old keep.new result
        (Provided (Holds node.now) OneWrite) IsUnreadable
        (SetsOwners node.now owners.now) }
    ensures quiet { owners.now ≡ node.now.owners → IfOk result
        (λ _. K.writes keep.new ≡ K.writes keep.old) }
    ensures counted { K.reads keep.new ≤ K.reads keep.old }
{
    if are_same(owners, &node.owners) {
        return Ok(Reply::Done);
    }
    keep.set_owners(node.id, owners)?;
    Ok(Reply::Done)
}

// Whether they are the same two names.
fn are_same(owners: &Owners, others: &Owners) -> bool
    ensures { result ≡ (same_text owners.now.owner others.now.owner
        && same_text owners.now.group others.now.group) }
{
    owners.owner.as_str() == others.owner.as_str() && owners.group.as_str() == others.group.as_str()
}
