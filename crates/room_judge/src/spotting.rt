//! The way to the folder of a path's last name, and to what has that name.
ghost use Rattle.std.specs.Prelude.{◌≡◌, ◌<◌, ◌≤◌, ◌+◌, length};
ghost use Rattle.room_rows.specs.Keep.{HasNoRoot, IsUnreadable};
ghost use Rattle.room_judge.specs.Halted.{Comes, Tries, both_with};
ghost use Rattle.room_judge.specs.Judged.{FromRoot, IsUnreadableFrom};
ghost use Rattle.room_judge.specs.Spot.{IsPaired, IsSpotted, SpotsUnder};

use crate::arrival::{Both, Found, Under};
use crate::asker::Ask;
use crate::halt::Halt;
use crate::walking::{pass_through, walk_along, walk_from};
use room_machine::Reason;
use room_rows::{Keep, Node};

/// The walk to the folder of the path's last name, and what has that name in it. The folder has to
/// grant EXECUTE. The path isn't the root's. Faults are those of `walk_along`.
pub fn to_spot<K: Keep>(keep: &mut K, ask: &Ask<'_>) -> Result<Under, Halt>
    requires { 0 < length ask.now.path.now }
    ensures done { Tries K.Keep keep.old keep.new result HasNoRoot
        (IsSpotted ask.now.asker.now ask.now.path.now) }
    ensures counted { K.reads keep.new ≤ K.reads keep.old + (length ask.now.path.now + 1) }
{
    let depth = ask.path.names().len() - 1;
    let node = walk_along(keep, ask, depth)?;
    spot_in(keep, ask, Found { node, depth })
}

/// The walk to an object that has to be there, and to its folder. The path isn't the root's. Faults
/// are those of `walk_along`.
pub fn to_pair<K: Keep>(keep: &mut K, ask: &Ask<'_>) -> Result<Both, Halt>
    requires { 0 < length ask.now.path.now }
    ensures done { Tries K.Keep keep.old keep.new result HasNoRoot
        (IsPaired ask.now.asker.now ask.now.path.now) }
    ensures counted { K.reads keep.new ≤ K.reads keep.old + (length ask.now.path.now + 1) }
{
    let spot = to_spot(keep, ask)?;
    both_at(ask, spot)
}

/// As `to_pair`, from a root that was read already.
pub fn to_pair_from<K: Keep>(keep: &mut K, ask: &Ask<'_>, root: &Node) -> Result<Both, Halt>
    requires { 0 < length ask.now.path.now }
    ensures done { Tries K.Keep keep.old keep.new result (IsUnreadableFrom root.now)
        (FromRoot root.now (IsPaired ask.now.asker.now ask.now.path.now)) }
    ensures counted { K.reads keep.new ≤ K.reads keep.old + length ask.now.path.now }
{
    let spot = to_spot_from(keep, ask, root)?;
    both_at(ask, spot)
}

// As `to_spot`, from a root that was read already.
fn to_spot_from<K: Keep>(keep: &mut K, ask: &Ask<'_>, root: &Node) -> Result<Under, Halt>
    requires { 0 < length ask.now.path.now }
    ensures done { Tries K.Keep keep.old keep.new result (IsUnreadableFrom root.now)
        (FromRoot root.now (IsSpotted ask.now.asker.now ask.now.path.now)) }
    ensures counted { K.reads keep.new ≤ K.reads keep.old + length ask.now.path.now }
{
    let depth = ask.path.names().len() - 1;
    let node = walk_from(keep, ask, depth, root)?;
    spot_in(keep, ask, Found { node, depth })
}

// What has the last name of the path in this folder, which has to grant EXECUTE.
fn spot_in<K: Keep>(keep: &mut K, ask: &Ask<'_>, folder: Found) -> Result<Under, Halt>
    requires { length ask.now.path.now ≡ folder.depth + 1 }
    ensures done { Tries K.Keep keep.old keep.new result IsUnreadable
        (SpotsUnder ask.now.asker.now ask.now.path.now folder) }
    ensures counted { K.reads keep.new ≤ K.reads keep.old + 1 }
{
    pass_through(keep, ask, &folder)?;
    let name = &ask.path.names()[folder.depth];
    let child = keep.child(folder.node.id, name.as_str())?;
    Ok(Under { folder, child })
}

// What is at the spot has to be there.
fn both_at(ask: &Ask<'_>, spot: Under) -> Result<Both, Halt>
    ensures { Comes result (both_with ask.now.path.now spot.folder spot.child) }
{
    let depth = ask.path.names().len();
    let Under { folder, child } = spot;
    match child {
        Some(node) => Ok(Both {
            folder,
            target: Found { node, depth },
        }),
        None => Err(ask.refusal(depth, Reason::NoSuch)),
    }
}
