//! The way to an object, judged as it goes.
ghost use Rattle.std.specs.Prelude.{◌≡◌, ◌<◌, ◌≤◌, ◌+◌, [], ◌∷◌, length, take};
ghost use Rattle.room_rows.specs.Keep.{HasNoRoot, IsNever, IsUnreadable};
ghost use Rattle.room_machine.specs.Plan.{Check};
ghost use Rattle.room_judge.specs.Halted.{Judges, Tries};
ghost use Rattle.room_judge.specs.Judged.{FindsNext, FromRoot, IsReached, IsStepDown};
ghost use Rattle.room_judge.specs.Judged.{IsUnreadableFrom, is_other, of_kind, through};
ghost use Rattle.room_judge.specs.Stored.{found_site};

use crate::arrival::Found;
use crate::asker::Ask;
use crate::checking::check;
use crate::halt::Halt;
use room_ace::{Mask, ObjKind};
use room_machine::Reason;
use room_rows::{Keep, Node};

/// Passes through an object on the way, which has to be a folder that grants EXECUTE.
pub fn pass_through<K: Keep>(keep: &mut K, ask: &Ask<'_>, found: &Found) -> Result<(), Halt>
    ensures done { Tries K.Keep keep.old keep.new result IsNever
        (Judges ask.now.asker.now (through (found_site ask.now.path.now found.now))) }
    ensures counted { K.reads keep.new ≤ K.reads keep.old }
{
    match found.node.kind {
        ObjKind::Document => Err(ask.refusal(found.depth, Reason::NotFolder)),
        ObjKind::Folder => check(keep, ask, found, Mask::execute()),
    }
}

// The child of the next name.
fn find_next<K: Keep>(keep: &mut K, ask: &Ask<'_>, found: &Found) -> Result<Node, Halt>
    requires { found.now.depth < length ask.now.path.now }
    ensures done { Tries K.Keep keep.old keep.new result IsUnreadable
        (FindsNext ask.now.path.now found.now) }
    ensures counted { K.reads keep.new ≤ K.reads keep.old + 1 }
{
    let name = &ask.path.names()[found.depth];
    let child = keep.child(found.node.id, name.as_str())?;
    match child {
        Some(next) => Ok(next),
        None => Err(ask.refusal(found.depth + 1, Reason::NoSuch)),
    }
}

// One step down the way: the child of the next name, where the object is a folder that grants
// EXECUTE.
fn step_down<K: Keep>(keep: &mut K, ask: &Ask<'_>, found: &Found) -> Result<Node, Halt>
    requires { found.now.depth < length ask.now.path.now }
    ensures done { Tries K.Keep keep.old keep.new result IsUnreadable
        (IsStepDown ask.now.asker.now ask.now.path.now found.now) }
    ensures counted { K.reads keep.new ≤ K.reads keep.old + 1 }
{
    pass_through(keep, ask, found)?;
    find_next(keep, ask, found)
}

// The walk from the root to the object after this many names.
fn walk_down<K: Keep>(keep: &mut K, ask: &Ask<'_>, depth: usize, root: Node) -> Result<Node, Halt>
    requires { depth ≤ length ask.now.path.now }
    ensures done { Tries K.Keep keep.old keep.new result (IsUnreadableFrom root)
        (FromRoot root (IsReached ask.now.asker.now (take depth ask.now.path.now) (λ _. []))) }
    ensures counted { K.reads keep.new ≤ K.reads keep.old + depth }
{
    let mut node = root;
    'names: for index in 0..depth {
        node = step_down(keep, ask, &Found { node, depth: index })?;
    }
    Ok(node)
}

/// The walk to the object after this many names of the path, as far as the caller may pass. The
/// path has as many names. The fault is `NoRoot` only where there is no root.
pub fn walk_along<K: Keep>(keep: &mut K, ask: &Ask<'_>, depth: usize) -> Result<Node, Halt>
    requires { depth ≤ length ask.now.path.now }
    ensures done { Tries K.Keep keep.old keep.new result HasNoRoot
        (IsReached ask.now.asker.now (take depth ask.now.path.now) (λ _. [])) }
    ensures counted { K.reads keep.new ≤ K.reads keep.old + (depth + 1) }
{
    let root = keep.root()?;
    walk_down(keep, ask, depth, root)
}

/// As `walk_along`, from a root that was read already.
pub fn walk_from<K: Keep>(
    keep: &mut K,
    ask: &Ask<'_>,
    depth: usize,
    root: &Node,
) -> Result<Node, Halt>
    requires { depth ≤ length ask.now.path.now }
    ensures done { Tries K.Keep keep.old keep.new result (IsUnreadableFrom root.now)
        (FromRoot root.now (IsReached ask.now.asker.now (take depth ask.now.path.now) (λ _. []))) }
    ensures counted { K.reads keep.new ≤ K.reads keep.old + depth }
{
    let root = root.copy()?;
    walk_down(keep, ask, depth, root)
}

/// The walk to the object at the path, as far as the caller may pass. Faults are those of
/// `walk_along`.
pub fn walk_to<K: Keep>(keep: &mut K, ask: &Ask<'_>) -> Result<Node, Halt>
    ensures done { Tries K.Keep keep.old keep.new result HasNoRoot
        (IsReached ask.now.asker.now ask.now.path.now (λ _. [])) }
    ensures counted { K.reads keep.new ≤ K.reads keep.old + (length ask.now.path.now + 1) }
{
    walk_along(keep, ask, ask.path.names().len())
}

/// The walk to the object at the path, and a check of these bits on it. Faults are those of
/// `walk_along`.
pub fn reach<K: Keep>(keep: &mut K, ask: &Ask<'_>, mask: Mask) -> Result<Node, Halt>
    ensures done { Tries K.Keep keep.old keep.new result HasNoRoot
        (IsReached ask.now.asker.now ask.now.path.now (λ target. Check target mask ∷ [])) }
    ensures counted { K.reads keep.new ≤ K.reads keep.old + (length ask.now.path.now + 1) }
{
    let node = walk_to(keep, ask)?;
    let found = Found {
        node,
        depth: ask.path.names().len(),
    };
    check(keep, ask, &found, mask)?;
    Ok(found.node)
}

/// The object has to be of this kind and to grant these bits.
pub fn check_kind<K: Keep>(
    keep: &mut K,
    ask: &Ask<'_>,
    found: &Found,
    kind: ObjKind,
    mask: Mask,
) -> Result<(), Halt>
    ensures done { Tries K.Keep keep.old keep.new result IsNever
        (Judges ask.now.asker.now (of_kind kind (found_site ask.now.path.now found.now) ∷ Check
        (found_site ask.now.path.now found.now) mask ∷ [])) }
    ensures counted { K.reads keep.new ≤ K.reads keep.old }
{
    let is_other = is_other_kind(found.node.kind, kind);
    if is_other {
        return Err(ask.refusal(found.depth, Reason::WrongKind));
    }
    check(keep, ask, found, mask)
}

/// The walk to the object at the path, which has to be of this kind, and a check of these bits on
/// it. Faults are those of `walk_along`.
pub fn reach_kind<K: Keep>(
    keep: &mut K,
    ask: &Ask<'_>,
    kind: ObjKind,
    mask: Mask,
) -> Result<Node, Halt>
    ensures done { Tries K.Keep keep.old keep.new result HasNoRoot
        (IsReached ask.now.asker.now ask.now.path.now
        (λ target. of_kind kind target ∷ Check target mask ∷ [])) }
    ensures counted { K.reads keep.new ≤ K.reads keep.old + (length ask.now.path.now + 1) }
{
    let node = walk_to(keep, ask)?;
    let found = Found {
        node,
        depth: ask.path.names().len(),
    };
    check_kind(keep, ask, &found, kind, mask)?;
    Ok(found.node)
}

// Whether the kinds differ.
fn is_other_kind(kind: ObjKind, wanted: ObjKind) -> bool
    ensures { result ≡ is_other kind wanted }
{
    match wanted {
        ObjKind::Document => match kind {
            ObjKind::Document => false,
            ObjKind::Folder => true,
        },
        ObjKind::Folder => match kind {
            ObjKind::Document => true,
            ObjKind::Folder => false,
        },
    }
}
