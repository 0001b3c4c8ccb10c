//! The request that removes an object.
ghost use Rattle.std.specs.Prelude.{◌≤◌, ◌+◌, length};
ghost use Rattle.room_rows.specs.Keep.{IsDamaged, IsUnreadable};
ghost use Rattle.room_judge.specs.Halted.{Serves, TriesUpTo, replied};
ghost use Rattle.room_judge.specs.Stored.{found_site};
ghost use Rattle.room_machine.specs.declared.request.Request.TheVariants.{Remove};
ghost use Rattle.room_desk.specs.Removed.{RemovableIfEmpty, RemovesChildless, RemovesFrom};
ghost use Rattle.room_desk.specs.Counted.{OneAndBoth, OneWrite, Provided};

use room_judge::{Ask, Found, Halt, check_deletion, to_pair};
use room_machine::{Reason, Reply};
use room_rows::Keep;

/// Removes an object, a folder only without children.
pub(crate) fn remove<K: Keep>(keep: &mut K, ask: &Ask<'_>) -> Result<Reply, Halt>
    ensures done { TriesUpTo K.Keep keep.old keep.new result OneAndBoth IsDamaged
        (Serves ask.now.asker.now (Remove ask.now.path.now)) }
    ensures counted { K.reads keep.new ≤ K.reads keep.old + (length ask.now.path.now + 2) }
{
    if ask.path.is_root() {
        // It has to be there.
        keep.root()?;
        return Err(ask.refusal(0, Reason::Root));
    }
    let pair = to_pair(keep, ask)?;
    remove_from(keep, ask, &pair.target, &pair.folder)
}

// Removes an object from its folder, where the caller may delete it and it has no children.
fn remove_from<K: Keep>(
    keep: &mut K,
    ask: &Ask<'_>,
    target: &Found,
    folder: &Found,
) -> Result<Reply, Halt>
    ensures done { TriesUpTo K.Keep keep.old keep.new result
        (Provided (RemovableIfEmpty target.now.node.id) OneWrite) IsUnreadable
        (λ old outcome new. RemovesFrom ask.now.asker.now ask.now.path.now
        (found_site ask.now.path.now target.now) (found_site ask.now.path.now folder.now) old
        (replied outcome) new) }
    ensures counted { K.reads keep.new ≤ K.reads keep.old + 1 }
{
    check_deletion(keep, ask, target, folder)?;
    remove_childless(keep, ask, target.node.id)
}

// Removes the object of this number, where it has no children.
fn remove_childless<K: Keep>(keep: &mut K, ask: &Ask<'_>, id: u64) -> Result<Reply, Halt>
    ensures done { TriesUpTo K.Keep keep.old keep.new result
        (Provided (RemovableIfEmpty id) OneWrite) IsUnreadable
        (λ old outcome new. RemovesChildless ask.now.path.now id old (replied outcome) new) }
    ensures counted { K.reads keep.new ≤ K.reads keep.old + 1 }
{
    let has_some = keep.has_children(id)?;
    if has_some {
        return Err(ask.refusal(ask.path.names().len(), Reason::NotEmpty));
    }
    keep.remove(id)?;
    Ok(Reply::Done)
}
