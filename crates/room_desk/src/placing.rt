//! The new place of an object.
ghost use Rattle.std.specs.Prelude.{◌≡◌, ◌≤◌, ◌+◌, IfOk, length};
ghost use Rattle.room_entry.specs.Pieces.{same_text};
ghost use Rattle.room_rows.specs.Calls.{Reads};
ghost use Rattle.room_rows.specs.Keep.{IsUnreadable};
ghost use Rattle.room_judge.specs.Halted.{RepliesUpTo, Tries};
ghost use Rattle.room_judge.specs.Judged.{DoesUpTo, refusal_of};
ghost use Rattle.room_desk.specs.Moving.{
  CanGo,
  FailsToPlace,
  FailsToRenew,
  IsTaken,
  JudgesAll,
  PlacesAt,
  Renews,
  StandsListed,
  TakesPassed,
  begins,
  free_place,
};
ghost use Rattle.room_machine.specs.Site.{front};
ghost use Rattle.room_desk.specs.Called.{ReadsBeside};
ghost use Rattle.room_desk.specs.Counted.{EachList, OneAndBoth, Provided};

use crate::carrying::carry_below;
use room_ace::{Entries, Which};
use room_inherit::{pass, takes_from};
use room_judge::{Ask, Found, Halt};
use room_machine::{Reason, Reply};
use room_rows::{Keep, KeepFault, Node, Path, Text};
use std::alloc::Global;

/// Nothing has the new name, and the object's path doesn't begin that of the folder.
pub(crate) fn check_free<K: Keep>(
    keep: &mut K,
    there: &Ask<'_>,
    path: &Path,
    folder: &Found,
) -> Result<(), Halt>
    requires { length there.now.path.now ≡ folder.now.depth + 1 }
    ensures done { Tries K.Keep keep.old keep.new result IsUnreadable
        (λ old outcome new. JudgesAll
        (λ rows. free_place rows.read there.now.path.now
        (begins path.now (front there.now.path.now)) folder.now.node) old
        (refusal_of outcome) new) }
    ensures counted { K.reads keep.new ≤ K.reads keep.old + 1 }
{
    let to = there.path;
    let name = &to.names()[folder.depth];
    let is_taken = is_taken(keep, folder.node.id, name.as_str())?;
    if is_taken {
        return Err(there.refusal(to.names().len(), Reason::Exists));
    }
    let is_below = begins(path.names(), &to.names()[..folder.depth]);
    if is_below {
        return Err(there.refusal(to.names().len(), Reason::Loop));
    }
    Ok(())
}

/// Whether the folder of this number has a child of this name.
pub(crate) fn is_taken<K: Keep>(keep: &mut K, folder: u64, name: &str) -> Result<bool, KeepFault>
    ensures read { Reads K.Keep keep.old keep.new result IsUnreadable (IsTaken folder name.now) }
    ensures counted { K.reads keep.new ≤ K.reads keep.old + 1 }
{
    let child = keep.child(folder, name)?;
    Ok(child.is_some())
}

/// Whether the names are a prefix of the others.
pub(crate) fn begins(names: &[Text], others: &[Text]) -> bool
    ensures { result ≡ begins names.now others.now }
{
    let are_more = names.len() > others.len();
    if are_more {
        return false;
    }
    'each: for (index, name) in names.iter().enumerate() {
        let is_same = is_same_name(name, &others[index]);
        if !is_same {
            return false;
        }
    }
    true
}

fn is_same_name(name: &Text, other: &Text) -> bool
    ensures { result ≡ same_text name.now other.now }
{
    name.as_str() == other.as_str()
}

/// Gives the object another parent and another name. What is linked there takes the entries that
/// the new parent passes, and hands them down.
pub(crate) fn place_at<K: Keep>(
    alloc: Global,
    keep: &mut K,
    target: &Node,
    folder: &Node,
    name: &str,
) -> Result<Reply, KeepFault>
    ensures done { RepliesUpTo K.Keep keep.old keep.new result
        (Provided (CanGo target.now folder.now name.now) OneAndBoth)
        (FailsToPlace target.now folder.now name.now) (PlacesAt target.now folder.now name.now) }
    ensures counted { IfOk result (λ _. ReadsBeside K.Keep 6 keep.old keep.new) }
{
    keep.set_place(target.id, folder.id, name)?;
    renew_list(alloc, keep, target, folder, Which::Dacl)?;
    renew_list(alloc, keep, target, folder, Which::Sacl)?;
    Ok(Reply::Done)
}

// Where the list is linked to the folder's, it takes what that passes.
fn renew_list<K: Keep>(
    alloc: Global,
    keep: &mut K,
    target: &Node,
    folder: &Node,
    which: Which,
) -> Result<(), KeepFault>
    ensures done { DoesUpTo K.Keep keep.old keep.new result
        (Provided (StandsListed which target.now) (EachList which)) (FailsToRenew target.now)
        (Renews which target.now folder.now) }
    ensures counted { IfOk result (λ _. ReadsBeside K.Keep 3 keep.old keep.new) }
{
    if !takes_from(target, folder, which) {
        return Ok(());
    }
    let passed = pass(alloc, target.kind, folder.held(which).full())?;
    take_passed(alloc, keep, target, which, &passed)
}

// Stores these inherited entries, and carries them down, unless they are stored already: then
// nothing below has changed.
fn take_passed<K: Keep>(
    alloc: Global,
    keep: &mut K,
    target: &Node,
    which: Which,
    passed: &Entries,
) -> Result<(), KeepFault>
    ensures done { DoesUpTo K.Keep keep.old keep.new result
        (Provided (StandsListed which target.now) (EachList which)) (FailsToRenew target.now)
        (TakesPassed which target.now passed.now) }
    ensures counted { IfOk result (λ _. ReadsBeside K.Keep 3 keep.old keep.new) }
{
    let is_stored = passed.is_same(target.held(which).inh());
    if is_stored {
        return Ok(());
    }
    keep.set_inh(target.id, which, passed.as_slice())?;
    carry_below(alloc, keep, target.id, which)
}
