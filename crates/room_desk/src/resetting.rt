//! The operator's reset of a list.
ghost use Rattle.std.specs.Prelude.{◌≡◌, ◌+◌, ◌<◌, IfOk, length};
ghost use Rattle.std.specs.Option.{option_copied};
ghost use Rattle.room_rows.specs.Keep.{IsDamaged};
ghost use Rattle.room_judge.specs.Halted.{RepliesUpTo};
ghost use Rattle.room_judge.specs.Judged.{Resets, ended_at};
ghost use Rattle.room_desk.specs.Carrying.{IsUnreadableIfHeld, StandsRooted};
ghost use Rattle.room_desk.specs.Setting.{Beneath, IsResetAtEnd};
ghost use Rattle.room_desk.specs.Called.{ReadsBeside};
ghost use Rattle.room_desk.specs.Counted.{OneAndEach, Provided};

use crate::setting::{Setting, set_found};
use room_ace::{ObjKind, SentList, Which};
use room_judge::{Found, refused};
use room_machine::{Reason, Reply};
use room_rows::{Keep, KeepFault, Node, Path, walk};
use std::alloc::{AllocError, Global};

/// Sets one of an object's lists as the request does, but checks no rights and leaves no record.
/// The reply is `Done`, or a refusal: no such object, a document on the way, or an entry that isn't
/// valid. Errors are those of `perform`. With an answer, no more is written than one object, and
/// each list whose inherited entries change, and no more calls read than where a request sets it.
pub fn reset<K: Keep>(
    alloc: Global,
    keep: &mut K,
    path: &Path,
    which: Which,
    sent: &SentList,
) -> Result<Reply, KeepFault>
    ensures done { RepliesUpTo K.Keep keep.old keep.new result (OneAndEach which) IsDamaged
        (Resets path.now which sent.now) }
    ensures counted { IfOk result
        (λ _. ReadsBeside K.Keep (length path.now + 3) keep.old keep.new) }
{
    let found = walk(alloc, keep, path)?;
    let rest = found.rest;
    let mut chain = found.chain.into_vec();
    match chain.pop() {
        None => unreachable!(),
        Some(node) => {
            let depth = path.names().len().saturating_sub(rest);
            let last = Found { node, depth };
            let above = chain.last();
            let setting = Setting {
                path,
                target: &last,
                above,
                which,
                sent,
            };
            reset_at_end(alloc, keep, &setting, rest)
        }
    }
}

// Sets the list of the last object that the walk found, below the one before it, where no names are
// left over.
fn reset_at_end<K: Keep>(
    alloc: Global,
    keep: &mut K,
    setting: &Setting<'_, '_, '_, '_>,
    rest: usize,
) -> Result<Reply, KeepFault>
    ensures done { RepliesUpTo K.Keep keep.old keep.new result
        (Provided (StandsRooted setting.now.target.now.node) (OneAndEach setting.now.which))
        (IsUnreadableIfHeld setting.now.target.now.node)
        (Beneath (option_copied setting.now.above) setting.now.target.now.node (IsResetAtEnd
        setting.now.path.now setting.now.which setting.now.sent.now setting.now.target.now.node
        rest)) }
    ensures counted { IfOk result (λ _. ReadsBeside K.Keep 2 keep.old keep.new) }
{
    if rest == 0 {
        return set_found(alloc, keep, setting);
    }
    Ok(ended(alloc, setting.path, &setting.target.node, rest)?)
}

/// The refusal of a walk along the path that ended at this object, with names left over.
pub(crate) fn ended(
    alloc: Global,
    path: &Path,
    last: &Node,
    rest: usize,
) -> Result<Reply, AllocError>
    requires { 0 < rest }
    ensures { IfOk result (λ reply. reply ≡ ended_at path.now last.now.kind rest) }
{
    let count = path.names().len();
    match last.kind {
        ObjKind::Document => refused(alloc, path, count.saturating_sub(rest), Reason::NotFolder),
        ObjKind::Folder => refused(alloc, path, count.saturating_sub(rest - 1), Reason::NoSuch),
    }
}
