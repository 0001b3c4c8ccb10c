//! One turn of carrying lists down: an object's children.
ghost use Rattle.std.specs.Prelude.{◌≡◌, ◌<◌, ◌≤◌, ◌^◌, ◌+◌, ◌*◌, ◌++◌, ◌∷◌, false, []};
ghost use Rattle.std.specs.Prelude.{length, IfOk, OnOk, if◌then◌else◌};
ghost use Rattle.room_rows.specs.Calls.{Reads, WritesOf};
ghost use Rattle.room_rows.specs.Held.{held_of};
ghost use Rattle.room_rows.specs.Keep.{ChangesAll, IsUnreadable, Leaves, with_inh};
ghost use Rattle.room_inherit.specs.Turn.{Gathers, IsChildless, IsPassed, RenewsAll};
ghost use Rattle.room_inherit.specs.Turn.{TellsWaiting, Visits, WritesAll, brought_up, count_of};
ghost use Rattle.room_inherit.specs.Turn.{is_outdated, meets_again, of_kind, outdated_of};
ghost use Rattle.room_inherit.specs.Turn.{waits_next};
ghost use Rattle.room_inherit.specs.declared.descent.Reach.TheVariants.{Renewed};

use crate::by_kind::ByKind;
use crate::descent::{Descent, Reach};
use crate::inheriting::{stores, takes_from};
use crate::outcome::SpreadFault;
use crate::passed::Passed;
use room_ace::{Entry, ObjKind, Which};
use room_rows::{Keep, KeepFault, Node};
use std::alloc::{AllocError, Global};

/// Renews the outdated children of an object, answers how many they are, and adds those that it
/// goes on to after the ones that wait. The error is `Loop` where the object at which it began
/// is among the linked children, before anything is written.
pub(crate) fn visit<K: Keep>(
    alloc: Global,
    keep: &mut K,
    descent: &Descent,
    above: &Node,
    waiting: &mut Vec<Node>,
) -> Result<u64, SpreadFault>
    ensures visit { Visits K.Keep keep.old keep.new descent.now above.now waiting.old.items
        waiting.new.items result }
    ensures few { IfOk result (λ written. written < 2 ^ 63) }
    ensures counted { descent.now.reach ≡ Renewed
        → IfOk result (λ written. K.reads keep.new + length waiting.new.items
        ≤ K.reads keep.old + length waiting.old.items + (2 * written + 1)) }
{
    let children = keep.children(above.id)?;
    if meets_again(children.as_slice(), descent, above) {
        return Err(SpreadFault::Loop);
    }
    let passed = Passed::new(alloc, above.held(descent.which))?;
    renew_all(alloc, keep, descent, &passed, children.into_vec(), waiting)
}

// Whether the object at which it began is a linked child.
fn meets_again(children: &[Node], descent: &Descent, above: &Node) -> bool
    ensures { result
        ≡ meets_again descent.now.which descent.now.start above.now children.now }
{
    children.iter().any(|child| child.id == descent.start
        && takes_from(child, above, descent.which))
}

// Renews those that are outdated, answers how many they are, and adds those that it goes on to
// after the ones that wait. What is passed is that of the object above, whose children these are.
fn renew_all<K: Keep>(
    alloc: Global,
    keep: &mut K,
    descent: &Descent,
    passed: &Passed,
    children: Vec<Node>,
    waiting: &mut Vec<Node>,
) -> Result<u64, SpreadFault>
    ensures renewed { (above : Node) → IsPassed (held_of descent.now.which above) passed.now
        → RenewsAll K.Keep keep.old keep.new descent.now above children.items waiting.old.items
        waiting.new.items result }
    ensures few { IfOk result (λ written. written < 2 ^ 63) }
    ensures counted { descent.now.reach ≡ Renewed
        → IfOk result (λ written. K.reads keep.new + length waiting.new.items
        ≤ K.reads keep.old + length waiting.old.items + 2 * written) }
{
    let mut outdated = ByKind::new(alloc);
    gather(
        alloc,
        keep,
        descent,
        passed,
        children,
        &mut outdated,
        waiting,
    )?;
    write_all(keep, descent.which, passed, &outdated)?;
    Ok(outdated.count())
}

// Gathers the numbers of those that are outdated, and adds those that it goes on to after the ones
// that wait.
fn gather<K: Keep>(
    alloc: Global,
    keep: &mut K,
    descent: &Descent,
    passed: &Passed,
    children: Vec<Node>,
    outdated: &mut ByKind,
    waiting: &mut Vec<Node>,
) -> Result<(), KeepFault>
    ensures gathered { (above : Node) → IsPassed (held_of descent.now.which above) passed.now
        → Gathers K.Keep keep.old keep.new descent.now above children.items waiting.old.items
        waiting.new.items outdated.old outdated.new result }
    ensures few { OnOk result
        (count_of outdated.new ≤ count_of outdated.old + length children.items) }
    ensures counted { descent.now.reach ≡ Renewed
        → OnOk result (K.reads keep.new + length waiting.new.items + 2 * count_of outdated.old
        ≤ K.reads keep.old + length waiting.old.items + 2 * count_of outdated.new) }
{
    'children: for child in children {
        gather_next(alloc, keep, descent, passed, child, outdated, waiting)?;
    }
    Ok(())
}

// Adds the number of one child, if it is outdated, and adds the child if it waits next. Where only
// those that are renewed wait, two calls that read are enough for each of them: one here, and one
// in its own turn.
fn gather_next<K: Keep>(
    alloc: Global,
    keep: &mut K,
    descent: &Descent,
    passed: &Passed,
    child: Node,
    outdated: &mut ByKind,
    waiting: &mut Vec<Node>,
) -> Result<(), KeepFault>
    ensures gathered { (above : Node) → IsPassed (held_of descent.now.which above) passed.now
        → Gathers K.Keep keep.old keep.new descent.now above (child ∷ []) waiting.old.items
        waiting.new.items outdated.old outdated.new result }
    ensures one { OnOk result (count_of outdated.new ≤ count_of outdated.old + 1) }
    ensures counted { descent.now.reach ≡ Renewed
        → OnOk result (K.reads keep.new + length waiting.new.items + 2 * count_of outdated.old
        ≤ K.reads keep.old + length waiting.old.items + 2 * count_of outdated.new) }
{
    let renews = is_outdated(passed, &child, descent.which);
    let waits = look_at(keep, &descent.reach, &child, renews, outdated)?;
    if waits {
        wait_next(alloc, descent.which, passed, child, renews, waiting)?;
    }
    Ok(())
}

// Adds the number of a child that is outdated, and answers whether the child waits next.
fn look_at<K: Keep>(
    keep: &mut K,
    reach: &Reach,
    child: &Node,
    renews: bool,
    outdated: &mut ByKind,
) -> Result<bool, KeepFault>
    ensures asked { (which : Which) (above : Node) → renews ≡ is_outdated which above child.now
        → Reads K.Keep keep.old keep.new result IsUnreadable
        (λ rows waits. TellsWaiting rows.read reach.now which above child.now waits) }
    ensures added { (which : Which) (above : Node) → renews ≡ is_outdated which above child.now
        → OnOk result ((kind : ObjKind) → of_kind outdated.new kind
        ≡ of_kind outdated.old kind ++ outdated_of which above kind (child.now ∷ [])) }
    ensures one { OnOk result (count_of outdated.new ≤ count_of outdated.old + 1) }
    ensures counted { reach.now ≡ Renewed
        → IfOk result (λ waits. K.reads keep.new + (if waits then 1 else 0)
        + 2 * count_of outdated.old ≤ K.reads keep.old + 2 * count_of outdated.new) }
{
    let waits = waits_next(keep, reach, child, renews)?;
    add_outdated(child, renews, outdated)?;
    Ok(waits)
}

// Adds the number of a child that is outdated.
fn add_outdated(child: &Node, renews: bool, outdated: &mut ByKind) -> Result<(), AllocError>
    ensures added { (which : Which) (above : Node) → renews ≡ is_outdated which above child.now
        → OnOk result ((kind : ObjKind) → of_kind outdated.new kind
        ≡ of_kind outdated.old kind ++ outdated_of which above kind (child.now ∷ [])) }
    ensures one { OnOk result (count_of outdated.new ≤ count_of outdated.old + 1) }
    ensures grown { OnOk result (count_of outdated.old + (if renews then 1 else 0)
        ≤ count_of outdated.new) }
{
    if renews {
        outdated.add(child.kind, child.id)?;
    }
    Ok(())
}

// Writes what is passed to each kind into the outdated ones of that kind.
fn write_all<K: Keep>(
    keep: &mut K,
    which: Which,
    passed: &Passed,
    outdated: &ByKind,
) -> Result<(), SpreadFault>
    ensures written { WritesAll K.Keep keep.old keep.new which passed.now outdated.now result }
    ensures counted { K.reads keep.new ≤ K.reads keep.old }
{
    let to_documents = passed.to(ObjKind::Document).as_slice();
    write(keep, outdated.documents.as_slice(), which, to_documents)?;
    let to_folders = passed.to(ObjKind::Folder).as_slice();
    write(keep, outdated.folders.as_slice(), which, to_folders)?;
    Ok(())
}

// Writes the entries into these objects, in one call if there are any.
fn write<K: Keep>(
    keep: &mut K,
    ids: &[u64],
    which: Which,
    entries: &[Entry],
) -> Result<(), KeepFault>
    ensures written { WritesOf K.Keep keep.old keep.new result (length ids.now) IsUnreadable
        (Leaves (ChangesAll ids.now (with_inh which entries.now))) }
    ensures counted { K.reads keep.new ≤ K.reads keep.old }
{
    match ids {
        [] => Ok(()),
        [id] => keep.set_inh(*id, which, entries),
        _ => keep.set_inh_all(ids, which, entries),
    }
}

// Whether the child is linked, and stores something else than it is to store.
fn is_outdated(passed: &Passed, child: &Node, which: Which) -> bool
    ensures { (above : Node) → IsPassed (held_of which above) passed.now
        → result ≡ is_outdated which above child.now }
{
    let held = child.held(which);
    let is_linked = !held.flags().protect && passed.auto;
    is_linked && !stores(held, passed.to(child.kind))
}

// Whether the child waits next. A document does only where something stands below it, which damaged
// rows may have.
fn waits_next<K: Keep>(
    keep: &mut K,
    reach: &Reach,
    child: &Node,
    renews: bool,
) -> Result<bool, KeepFault>
    ensures asked { (which : Which) (above : Node) → renews ≡ is_outdated which above child.now
        → Reads K.Keep keep.old keep.new result IsUnreadable
        (λ rows waits. TellsWaiting rows.read reach.now which above child.now waits) }
    ensures counted { reach.now ≡ Renewed
        → IfOk result (λ waits. K.reads keep.new + (if waits then 1 else 0)
        ≤ K.reads keep.old + 2 * (if renews then 1 else 0)) }
{
    let waits = may_wait(reach, child, renews);
    if waits {
        return may_have_below(keep, child);
    }
    Ok(false)
}

// Whether the child is one of those to which it goes on.
fn may_wait(reach: &Reach, child: &Node, renews: bool) -> bool
    ensures told { (which : Which) (above : Node) → renews ≡ is_outdated which above child.now
        → result ≡ waits_next reach.now which above child.now }
    ensures counted { reach.now ≡ Renewed → result ≡ renews }
{
    match reach {
        Reach::Renewed => renews,
        Reach::All => !child.is_document(),
    }
}

// Whether something may stand below the object. Of a document it is asked.
fn may_have_below<K: Keep>(keep: &mut K, object: &Node) -> Result<bool, KeepFault>
    ensures asked { Reads K.Keep keep.old keep.new result IsUnreadable
        (λ rows may. may ≡ false → IsChildless rows.read object.now) }
    ensures counted { K.reads keep.new ≤ K.reads keep.old + 1 }
{
    if object.is_document() {
        return keep.has_children(object.id);
    }
    Ok(true)
}

// Adds the child after the others, as it is to be.
fn wait_next(
    alloc: Global,
    which: Which,
    passed: &Passed,
    child: Node,
    renews: bool,
    waiting: &mut Vec<Node>,
) -> Result<(), AllocError>
    ensures waits { (above : Node) → IsPassed (held_of which above) passed.now
        → renews ≡ is_outdated which above child
        → OnOk result (waiting.new.items
        ≡ waiting.old.items ++ brought_up which above child ∷ []) }
    ensures one { OnOk result (length waiting.new.items ≡ length waiting.old.items + 1) }
{
    let next = brought_up(alloc, passed, child, which, renews)?;
    waiting.push(next)?;
    Ok(())
}

// The child, with what it is to inherit where it was renewed.
fn brought_up(
    alloc: Global,
    passed: &Passed,
    child: Node,
    which: Which,
    renews: bool,
) -> Result<Node, AllocError>
    ensures { (above : Node) → IsPassed (held_of which above) passed.now
        → renews ≡ is_outdated which above child
        → IfOk result (λ next. next ≡ brought_up which above child) }
{
    let mut next = child;
    if renews {
        let held = next
            .held(which)
            .with_inh(alloc, passed.to(next.kind).as_slice())?;
        next.set_held(which, held);
    }
    Ok(next)
}
