//! The request that moves an object.
ghost use Rattle.std.specs.Prelude.{◌≡◌, ◌+◌, ◌<◌, ◌≤◌, true, [], ◌∷◌, Some, IfOk, length};
ghost use Rattle.room_rows.specs.Keep.{IsDamaged, IsNever, IsUnreadable};
ghost use Rattle.room_judge.specs.Halted.{Serves, Tries, TriesUpTo, replied, settled};
ghost use Rattle.room_judge.specs.Judged.{FromRoot, IsJudged, IsReached, IsUnreadableFrom};
ghost use Rattle.room_judge.specs.Judged.{refusal_of};
ghost use Rattle.room_judge.specs.Stored.{found_site};
ghost use Rattle.room_desk.specs.Moving.{FailsToMove, MovesOn, StandsAlong, at_place, begins};
ghost use Rattle.room_machine.specs.Plan.{Deletion, Refusal, right_to_add};
ghost use Rattle.room_machine.specs.Site.{front};
ghost use Rattle.room_machine.specs.declared.reply.Reason.TheVariants.{Exists};
ghost use Rattle.room_machine.specs.declared.request.Request.TheVariants.{Move};
ghost use Rattle.room_desk.specs.Called.{ReadsBeside};
ghost use Rattle.room_desk.specs.Counted.{OneAndBoth, Provided};

use crate::placing::{check_free, place_at};
use room_ace::Mask;
use room_judge::{Ask, Found, Halt, check, check_deletion, pass_through, to_pair_from, walk_from};
use room_machine::{Reason, Reply};
use room_rows::{Keep, Node, Path};

// An object that is to be moved, and the folder that it leaves.
#[derive(Drop)]
struct Moving<'a> {
    ask: &'a Ask<'a>,
    target: &'a Found,
    from: &'a Found,
}

/// Moves an object, with all below it, to another folder or name.
pub(crate) fn move_object<K: Keep>(keep: &mut K, ask: &Ask<'_>, to: &Path) -> Result<Reply, Halt>
    ensures done { TriesUpTo K.Keep keep.old keep.new result OneAndBoth IsDamaged
        (Serves ask.now.asker.now (Move ask.now.path.now to.now)) }
    ensures counted { IfOk (settled result)
        (λ _. ReadsBeside K.Keep (length ask.now.path.now + length to.now + 7) keep.old keep.new) }
{
    let root = keep.root()?;
    if ask.path.is_root() {
        return Err(ask.refusal(0, Reason::Root));
    }
    let pair = to_pair_from(keep, ask, &root)?;
    let moving = Moving {
        ask,
        target: &pair.target,
        from: &pair.folder,
    };
    move_found(keep, &moving, to, &root)
}

// Moves the object that was found in its folder. Both walks begin at the root that was read once.
fn move_found<K: Keep>(
    keep: &mut K,
    moving: &Moving<'_>,
    to: &Path,
    root: &Node,
) -> Result<Reply, Halt>
    ensures done { TriesUpTo K.Keep keep.old keep.new result
        (Provided (StandsAlong moving.now.ask.now.path.now root.now moving.now.target.now.node)
        OneAndBoth)
        (FailsToMove moving.now.ask.now.asker.now moving.now.ask.now.path.now root.now
        moving.now.from.now moving.now.target.now)
        (λ old outcome new. MovesOn moving.now.ask.now.asker.now moving.now.ask.now.path.now to.now
        root.now moving.now.from.now moving.now.target.now old (replied outcome) new) }
    ensures counted { IfOk (settled result)
        (λ _. ReadsBeside K.Keep (length to.now + 6) keep.old keep.new) }
{
    match to.split_last() {
        None => refuse_root(keep, moving),
        Some((name, _)) => {
            let folder = reach_place(keep, moving, to, root)?;
            let alloc = moving.ask.alloc;
            Ok(place_at(alloc, keep, &moving.target.node, &folder, name.as_str())?)
        }
    }
}

// Refuses a move to the root's place, which is never free.
fn refuse_root<K: Keep>(keep: &mut K, moving: &Moving<'_>) -> Result<Reply, Halt>
    ensures done { Tries K.Keep keep.old keep.new result IsNever
        (λ old outcome new. IsJudged moving.now.ask.now.asker.now (Deletion
        (found_site moving.now.ask.now.path.now moving.now.target.now)
        (found_site moving.now.ask.now.path.now moving.now.from.now)
        ∷ Refusal [] Exists true ∷ []) old (Some (replied outcome)) new) }
    ensures counted { K.reads keep.new ≤ K.reads keep.old }
{
    check_deletion(keep, moving.ask, moving.target, moving.from)?;
    Err(moving.ask.refusal(0, Reason::Exists))
}

// The walk to the new folder, and what is judged there.
fn reach_place<K: Keep>(
    keep: &mut K,
    moving: &Moving<'_>,
    to: &Path,
    root: &Node,
) -> Result<Node, Halt>
    requires { 0 < length to.now }
    ensures done { Tries K.Keep keep.old keep.new result (IsUnreadableFrom root.now)
        (FromRoot root.now (λ old outcome new. IsReached moving.now.ask.now.asker.now (front to.now)
        (at_place old.read to.now (begins moving.now.ask.now.path.now (front to.now))
        (found_site moving.now.ask.now.path.now moving.now.target.now)
        (found_site moving.now.ask.now.path.now moving.now.from.now)) old outcome new)) }
    ensures counted { K.reads keep.new ≤ K.reads keep.old + length to.now }
{
    let depth = to.names().len() - 1;
    let there = Ask {
        alloc: moving.ask.alloc,
        asker: moving.ask.asker,
        path: to,
    };
    let node = walk_from(keep, &there, depth, root)?;
    let folder = Found { node, depth };
    check_place(keep, moving, to, &folder)?;
    Ok(folder.node)
}

// The new folder grants EXECUTE, the object may leave its own and come into the new one, and its
// place there is free.
fn check_place<K: Keep>(
    keep: &mut K,
    moving: &Moving<'_>,
    to: &Path,
    folder: &Found,
) -> Result<(), Halt>
    requires { length to.now ≡ folder.now.depth + 1 }
    ensures done { Tries K.Keep keep.old keep.new result IsUnreadable
        (λ old outcome new. IsJudged moving.now.ask.now.asker.now (at_place old.read to.now
        (begins moving.now.ask.now.path.now (front to.now))
        (found_site moving.now.ask.now.path.now moving.now.target.now)
        (found_site moving.now.ask.now.path.now moving.now.from.now)
        (found_site to.now folder.now)) old (refusal_of outcome) new) }
    ensures counted { K.reads keep.new ≤ K.reads keep.old + 1 }
{
    let there = Ask {
        alloc: moving.ask.alloc,
        asker: moving.ask.asker,
        path: to,
    };
    pass_through(keep, &there, folder)?;
    check_deletion(keep, moving.ask, moving.target, moving.from)?;
    let right = right_to_add(&moving.target.node);
    check(keep, &there, folder, right)?;
    check_free(keep, &there, moving.ask.path, folder)
}

// What a folder has to grant for the object to come into it.
fn right_to_add(node: &Node) -> Mask
    ensures { result ≡ right_to_add node.now ∷ [] }
{
    if node.is_document() {
        Mask::write_data()
    } else {
        Mask::append_data()
    }
}
