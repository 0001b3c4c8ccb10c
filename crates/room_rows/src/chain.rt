//! The objects along a path.
ghost use Rattle.std.specs.Prelude.{◌≡◌, ◌+◌, ◌-◌, ◌<◌, ◌≤◌, IfOk, length};
ghost use Rattle.room_rows.specs.Calls.{Reads};
ghost use Rattle.room_rows.specs.Keep.{HasNoRoot};
ghost use Rattle.room_rows.specs.Rooted.{IsWalkFromRoot};

use crate::keep::{Keep, KeepFault};
use crate::node::{Nodes, Walk};
use crate::path::Path;
use crate::text::Text;
use std::alloc::Global;

/// The objects that the path leads to, from the root on, and how many of its names are left over.
///
/// It goes from child to child by the names, as long as there are names and the child is there, and
/// asks neither for kinds nor for rights. The error is the keeper's, or that memory ran out;
/// `NoRoot` comes only where there is no root. There is an object in each answer.
pub fn walk<K: Keep>(alloc: Global, keep: &mut K, path: &Path) -> Result<Walk, KeepFault>
    ensures read { Reads K.Keep keep.old keep.new result HasNoRoot (IsWalkFromRoot path.now) }
    ensures some { IfOk result (λ walk. 0 < length walk.chain) }
    ensures counted { K.reads keep.new ≤ K.reads keep.old + (length path.now + 1) }
{
    let names = path.names();
    let mut chain = Nodes::new(alloc);
    let mut node = keep.root()?;
    'names: for (index, name) in names.iter().enumerate() {
        let child = keep.child(node.id, name.as_str())?;
        chain.push(node)?;
        match child {
            None => return Ok(walked(chain, names, index)),
            Some(next) => node = next,
        }
    }
    chain.push(node)?;
    Ok(walked(chain, names, names.len()))
}

// The walk to these objects, which used this many of the names.
fn walked(chain: Nodes, names: &[Text], used: usize) -> Walk
    requires { used ≤ length names.now }
    ensures { result ≡ record { chain = chain; rest = length names.now - used } }
{
    Walk {
        chain,
        rest: names.len() - used,
    }
}
