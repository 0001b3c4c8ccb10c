//! A change of a list carried down to what is stored below, and all lists from the root.
ghost use Rattle.room_inherit.specs.Spread.{Holds, ReadsForLists, Spreads, SpreadsIf};
ghost use Rattle.room_inherit.specs.SpreadAll.{SpreadsAll, Sweeps};

use crate::descent::{Reach, carry_down};
use crate::outcome::{Spread, SpreadFault};
use room_ace::Which;
use room_rows::{Keep, Node};
use std::alloc::Global;

/// Brings the stored inherited entries below the object up to date, for one of the lists: each
/// object that is linked there, through linked ones, stores what its parent's list passes to it. An
/// object that stores it already isn't written, and nothing below it is read. The rows may be any:
/// what damaged rows have below a document follows too. The error is `Loop` where the object is its
/// own ancestor, and else the keeper's.
pub fn spread<K: Keep>(
    alloc: Global,
    keep: &mut K,
    id: u64,
    which: Which,
) -> Result<Spread, SpreadFault>
    ensures spread { Spreads K.Keep keep.old keep.new which id result }
    ensures counted { ReadsForLists K.Keep keep.old keep.new 3 result }
{
    match keep.node(id)? {
        None => Ok(Spread { changed: 0 }),
        Some(start) => spread_from(alloc, keep, &start, which),
    }
}

/// The same from an object that was read, which has to stand so in the rows. It isn't read again.
pub fn spread_from<K: Keep>(
    alloc: Global,
    keep: &mut K,
    start: &Node,
    which: Which,
) -> Result<Spread, SpreadFault>
    ensures spread { SpreadsIf K.Keep keep.old keep.new (Holds start.now) which start.now.id
        result }
    ensures counted { ReadsForLists K.Keep keep.old keep.new 2 result }
{
    carry_down(alloc, keep, start, which, Reach::Renewed)
}

/// Brings the stored inherited entries of every linked object up to date, for both lists, from the
/// root down. Before, the first six tests of `verify` have to find no fault; it is enough that the
/// rows are a tree: one object has no parent, each other one stands in a folder, and the parents of
/// each lead to it. `changed` counts the lists that changed. The error is never `Loop`.
pub fn spread_all<K: Keep>(alloc: Global, keep: &mut K) -> Result<Spread, SpreadFault>
    ensures spread { SpreadsAll K.Keep keep.old keep.new result }
{
    let dacls = sweep(alloc, keep, Which::Dacl)?;
    let sacls = sweep(alloc, keep, Which::Sacl)?;
    Ok(Spread {
        changed: dacls.changed.saturating_add(sacls.changed),
    })
}

// Goes through the tree from the root down, and stores in each linked object what its parent's list
// passes to it, for one of the lists.
fn sweep<K: Keep>(alloc: Global, keep: &mut K, which: Which) -> Result<Spread, SpreadFault>
    ensures swept { Sweeps K.Keep keep.old keep.new which result }
{
    let root = keep.root()?;
    carry_down(alloc, keep, &root, which, Reach::All)
}
