//! The full lists along a chain, computed from its root.
ghost use Rattle.std.specs.Prelude.{◌≡◌, ◌++◌, IfOk};
ghost use Rattle.room_rows.specs.Full.{fulls, full_under};

use room_ace::{Entries, Entry, ListFlags, Which};
use room_inherit::pass;
use room_rows::Node;
use std::alloc::{AllocError, Global};

/// The full lists along a chain of objects, of which the first is a root.
pub fn lists_from_root(
    alloc: Global,
    chain: &[Node],
    which: Which,
) -> Result<Vec<Entries>, AllocError>
    ensures { IfOk result (λ lists. lists.items ≡ fulls which chain.now) }
{
    let mut lists: Vec<Entries> = Vec::new(alloc);
    let mut above = ListFlags {
        auto: false,
        protect: false,
    };
    let mut inherited = Entries::new(alloc);
    for node in chain {
        let full = list_under(alloc, node, which, above.auto, inherited.as_slice())?;
        inherited = full.copy()?;
        above = node.held(which).flags();
        lists.push(full)?;
    }
    Ok(lists)
}

// The full list of an object below a list with this flag.
fn list_under(
    alloc: Global,
    node: &Node,
    which: Which,
    auto: bool,
    above: &[Entry],
) -> Result<Entries, AllocError>
    ensures { IfOk result (λ full. full ≡ full_under which auto above.now node.now) }
{
    let held = node.held(which);
    if !held.flags().protect && auto {
        let passed = pass(alloc, node.kind, above)?;
        joined(alloc, held.own(), passed.as_slice())
    } else {
        joined(alloc, held.own(), held.inh())
    }
}

// Copies of the own entries, and then of the inherited ones.
fn joined(alloc: Global, own: &[Entry], inh: &[Entry]) -> Result<Entries, AllocError>
    ensures { IfOk result (λ full. full ≡ own.now ++ inh.now) }
{
    let mut full = Entries::new(alloc);
    full.extend(own)?;
    full.extend(inh)?;
    Ok(full)
}
