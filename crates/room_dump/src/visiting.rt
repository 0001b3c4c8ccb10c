//! A walk below an object.
ghost use Rattle.std.specs.Prelude.{◌≡◌, ◌++◌, ◌∷◌, IfOk, OnOk};
ghost use Rattle.room_entry.specs.Bytes.{slash};
ghost use Rattle.room_rows.specs.Calls.{Reads};
ghost use Rattle.room_rows.specs.Keep.{IsUnreadable};
ghost use Rattle.room_dump.specs.Dump.{shown};
ghost use Rattle.room_dump.specs.Visits.{
  EndsSooner,
  Enters,
  IsBlocked,
  IsFrom,
  IsNext,
  first_visit,
  visit_below,
  waiting_below,
};

use room_rows::{Keep, KeepFault, Node, Nodes, Text};
use std::alloc::{AllocError, Global};

/// An object that a walk comes to.
#[derive(Drop)]
pub struct Visit {
    /// The text of its path, which is empty for the root.
    pub path: Text,
    /// How many objects are on the way to it.
    pub depth: usize,
    /// The object.
    pub node: Node,
}

/// A walk that comes to an object, and after it to its children with all that is below them, in
/// order of name.
#[derive(Drop)]
pub struct Below {
    alloc: Global,
    // How many objects may still come.
    left: usize,
    // Those that wait, the next one last.
    waiting: Vec<Visit>,
}

impl Visit {
    /// An object without a path, at which a walk starts.
    pub fn first(alloc: Global, node: Node) -> Visit
        ensures { result ≡ first_visit node }
    {
        Visit {
            path: Text::new(alloc),
            depth: 0,
            node,
        }
    }

    /// Its path as it is printed: the root's is a slash.
    pub fn shown(&self) -> &str
        ensures { result.now ≡ shown self.now.path }
    {
        if self.path.as_str().is_empty() {
            "/"
        } else {
            self.path.as_str()
        }
    }
}

impl Below {
    /// A walk from an object on. There are at most `most` objects.
    pub fn at(alloc: Global, most: usize, first: Visit) -> Result<Below, AllocError>
        ensures { IfOk result (IsFrom most first) }
    {
        let mut waiting = Vec::new(alloc);
        waiting.push(first)?;
        Ok(Below {
            alloc,
            left: most,
            waiting,
        })
    }

    /// The next object, or none at the end.
    ///
    /// Nothing is changed. The error is the keeper's, or that memory ran out; `Damaged` names a row
    /// that can't be read, or the object that is one more than was said.
    pub fn next<K: Keep>(&mut self, keep: &mut K) -> Result<Option<Visit>, KeepFault>
        ensures read { Reads K.Keep keep.old keep.new result (IsBlocked self.old)
            (IsNext self.old self.new) }
        ensures ends { IfOk result (EndsSooner self.old self.new) }
    {
        let Some(visit) = self.waiting.pop() else {
            return Ok(None);
        };
        if self.left == 0 {
            return Err(KeepFault::Damaged { id: visit.node.id });
        }
        self.left -= 1;
        enter(self.alloc, keep, &visit, &mut self.waiting)?;
        Ok(Some(visit))
    }
}

// Has the children of an object wait.
fn enter<K: Keep>(
    alloc: Global,
    keep: &mut K,
    over: &Visit,
    waiting: &mut Vec<Visit>,
) -> Result<(), KeepFault>
    ensures read { Reads K.Keep keep.old keep.new result IsUnreadable
        (Enters over.now waiting.old.items waiting.new.items) }
{
    let children = keep.children(over.node.id)?;
    Ok(push_children(alloc, over, children, waiting)?)
}

// Has these children wait, of which the first in order of name is taken next.
fn push_children(
    alloc: Global,
    over: &Visit,
    children: Nodes,
    waiting: &mut Vec<Visit>,
) -> Result<(), AllocError>
    ensures { OnOk result
        (waiting.new.items ≡ waiting.old.items ++ waiting_below over.now children) }
{
    let mut nodes = children.into_vec();
    'children: while let Some(node) = nodes.pop() {
        waiting.push(visit_below(alloc, over, node)?)?;
    }
    Ok(())
}

// A child of an object.
fn visit_below(alloc: Global, over: &Visit, node: Node) -> Result<Visit, AllocError>
    ensures { IfOk result (λ visit. visit ≡ visit_below over.now node) }
{
    let path = path_below(alloc, over.path.as_str(), node.name.as_str())?;
    // So many names have no room in memory.
    let depth = over.depth.checked_add(1).ok_or(AllocError)?;
    Ok(Visit { path, depth, node })
}

fn path_below(alloc: Global, above: &str, name: &str) -> Result<Text, AllocError>
    ensures { IfOk result (λ path. path ≡ above.now ++ slash ∷ name.now) }
{
    Ok(Text::from_string(format!(in alloc; "{above}/{name}")?))
}
