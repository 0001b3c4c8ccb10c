//! A change of a list carried down.
ghost use Rattle.std.specs.Prelude.{◌≡◌, IfOk};
ghost use Rattle.room_judge.specs.Judged.{DoesUpTo};
ghost use Rattle.room_desk.specs.Carrying.{HasLoop, HasLoopFrom, IsCarriedDown, IsCarriedFrom};
ghost use Rattle.room_desk.specs.Carrying.{keeper_fault};
ghost use Rattle.room_desk.specs.Called.{ReadsBeside};
ghost use Rattle.room_desk.specs.Counted.{EachList, Provided};
ghost use Rattle.room_inherit.specs.Spread.{Holds};

use room_ace::Which;
use room_inherit::{SpreadFault, spread, spread_from};
use room_rows::{Keep, KeepFault, Node};
use std::alloc::Global;

/// Carries a change of a list down from the object. Where that is its own ancestor, the error is
/// `Damaged`.
pub(crate) fn carry_below<K: Keep>(
    alloc: Global,
    keep: &mut K,
    id: u64,
    which: Which,
) -> Result<(), KeepFault>
    ensures done { DoesUpTo K.Keep keep.old keep.new result (EachList which) (HasLoop id)
        (IsCarriedDown which id) }
    ensures counted { IfOk result (λ _. ReadsBeside K.Keep 3 keep.old keep.new) }
{
    let outcome = spread(alloc, keep, id, which);
    match outcome {
        Ok(_) => Ok(()),
        Err(fault) => Err(keeper_fault(id, fault)),
    }
}

/// The same from an object that was read, and hasn't changed in the rows.
pub(crate) fn carry_from<K: Keep>(
    alloc: Global,
    keep: &mut K,
    start: &Node,
    which: Which,
) -> Result<(), KeepFault>
    ensures done { DoesUpTo K.Keep keep.old keep.new result
        (Provided (Holds start.now) (EachList which)) (HasLoopFrom start.now)
        (IsCarriedFrom which start.now) }
    ensures counted { IfOk result (λ _. ReadsBeside K.Keep 2 keep.old keep.new) }
{
    let outcome = spread_from(alloc, keep, start, which);
    match outcome {
        Ok(_) => Ok(()),
        Err(fault) => Err(keeper_fault(start.id, fault)),
    }
}

// The keeper's fault, or that the object is damaged.
fn keeper_fault(id: u64, fault: SpreadFault) -> KeepFault
    ensures { result ≡ keeper_fault id fault }
{
    match fault {
        SpreadFault::Keeper(fault) => fault,
        SpreadFault::Loop => KeepFault::Damaged { id },
    }
}
