//! The object that an answer begins at.
ghost use Rattle.std.specs.Prelude.{◌≡◌, ◌≤◌, IfOk, length, unwrap_or, []};
ghost use Rattle.std.specs.List.{fold};
ghost use Rattle.room_would.specs.Paths.{first_path, met, shared_count, target};

use room_question::{Change, Question};
use room_rows::{Path, Text};
use std::alloc::{AllocError, Global};

/// The path of the deepest object that has in it whatever is set, moved, brought or looked at.
pub(crate) fn first_path(alloc: Global, question: &Question) -> Result<Path, AllocError>
    ensures { IfOk result (λ path. path ≡ first_path question.now) }
{
    let mut front = None;
    'changes: for change in question.changes.as_slice() {
        front = met(alloc, front, target(change))?;
    }
    'looks: for look in question.looks.as_slice() {
        front = met(alloc, front, &look.path)?;
    }
    match front {
        None => Ok(Path::root(alloc)),
        Some(path) => Ok(path),
    }
}

/// Where the object of a change stands right after it.
pub(crate) fn target(change: &Change) -> &Path
    ensures { result.now ≡ target change.now }
{
    match change {
        Change::Sets(setting) => &setting.path,
        Change::Moves(moving) => &moving.to,
        Change::Comes(object) => &object.path,
    }
}

// What the path has in common with the front of those before it.
fn met(alloc: Global, front: Option<Path>, path: &Path) -> Result<Option<Path>, AllocError>
    ensures { IfOk result (λ more. more ≡ met front path.now) }
{
    match front {
        None => Ok(Some(path.copy()?)),
        Some(front) => {
            let count = shared_count(front.names(), path.names());
            Ok(Some(front.front(alloc, count)?))
        }
    }
}

// How many names the paths have in common.
fn shared_count(one: &[Text], other: &[Text]) -> usize
    ensures { result ≡ shared_count one.now other.now }
{
    let mut count = 0;
    'names: while count < one.len() && count < other.len() {
        if one[count].as_str() != other[count].as_str() {
            return count;
        }
        count += 1;
    }
    count
}
