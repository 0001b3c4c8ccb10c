//! Lists carried down from an object, turn after turn.
ghost use Rattle.std.specs.Prelude.{◌≡◌, ◌<◌, ◌≤◌, ◌^◌, ◌+◌, ◌-◌, ◌*◌, [], length, IfOk};
ghost use Rattle.room_inherit.specs.Spread.{ReadsForLists};
ghost use Rattle.room_inherit.specs.Turns.{Descends, TakesTurns};
ghost use Rattle.room_inherit.specs.declared.descent.Reach.TheVariants.{Renewed};

use crate::outcome::{Spread, SpreadFault};
use crate::turn::visit;
use room_ace::Which;
use room_rows::{Keep, KeepFault, Node};
use std::alloc::Global;

// Turns that are taken before it is asked how many objects there are. A keeper may go through the
// whole room for that, which costs little beside as many turns.
const FIRST_TURNS: usize = 65_536;

// From this count of written lists on it is asked too, since a count that has no bound might not be
// exact.
const MANY: u64 = 1 << 63;

/// Which children of an object it goes on to.
#[derive(Drop)]
pub(crate) enum Reach {
    /// To those that were renewed.
    Renewed,
    /// To all folders.
    All,
}

/// The start, which of the lists is carried down, and which children it goes on to.
#[derive(Drop)]
pub(crate) struct Descent {
    pub(crate) start: u64,
    pub(crate) which: Which,
    pub(crate) reach: Reach,
}

/// Brings the stored inherited entries below an object of the rows up to date, for one of the
/// lists. It goes on to the objects that were renewed, or from the root to all folders.
pub(crate) fn carry_down<K: Keep>(
    alloc: Global,
    keep: &mut K,
    start: &Node,
    which: Which,
    reach: Reach,
) -> Result<Spread, SpreadFault>
    ensures descends { Descends K.Keep keep.old keep.new reach start.now which result }
    ensures counted { reach ≡ Renewed → ReadsForLists K.Keep keep.old keep.new 2 result }
{
    let descent = Descent {
        start: start.id,
        which,
        reach,
    };
    let mut waiting = Vec::new(alloc);
    go_down(alloc, keep, start, &descent, &mut waiting)
}

// The turns, of which the first is that of the start. How many objects there are is asked only
// where some still wait after the first turns, or very many lists were written, since a keeper may
// have to go through all for that.
fn go_down<K: Keep>(
    alloc: Global,
    keep: &mut K,
    start: &Node,
    descent: &Descent,
    waiting: &mut Vec<Node>,
) -> Result<Spread, SpreadFault>
    ensures descends { waiting.old.items ≡ [] → start.now.id ≡ descent.now.start
        → Descends K.Keep keep.old keep.new descent.now.reach start.now descent.now.which result }
    ensures counted { waiting.old.items ≡ [] → descent.now.reach ≡ Renewed
        → ReadsForLists K.Keep keep.old keep.new 2 result }
{
    let begun = visit(alloc, keep, descent, start, waiting)?;
    let soon = take_turns(alloc, keep, descent, waiting, FIRST_TURNS)?;
    let mut changed = begun.saturating_add(soon);
    let is_done = waiting.is_empty() && changed < MANY;
    if is_done {
        return Ok(Spread { changed });
    }
    let most = keep.ids()?.as_slice().len();
    let later = take_turns(alloc, keep, descent, waiting, most)?;
    changed = changed.saturating_add(later);
    if waiting.is_empty() {
        Ok(Spread { changed })
    } else {
        Err(SpreadFault::Keeper(KeepFault::Damaged { id: descent.start }))
    }
}

// Takes the last of the objects that wait for its turn, until none waits or the most turns were
// taken, and answers how many lists were written.
fn take_turns<K: Keep>(
    alloc: Global,
    keep: &mut K,
    descent: &Descent,
    waiting: &mut Vec<Node>,
    most: usize,
) -> Result<u64, SpreadFault>
    ensures turns { TakesTurns K.Keep descent.now most waiting.old.items waiting.new.items
        keep.old keep.new result }
    ensures counted { descent.now.reach ≡ Renewed
        → IfOk result (λ written. written < 2 ^ 64 - 1
        → K.reads keep.new + length waiting.new.items
        ≤ K.reads keep.old + length waiting.old.items + 2 * written) }
{
    let mut written: u64 = 0;
    'turns: for _turn in 0..most {
        let Some(above) = waiting.pop() else {
            return Ok(written);
        };
        let visited = visit(alloc, keep, descent, &above, waiting);
        // Dropped here, and not part by part on each way out.
        drop(above);
        written = written.saturating_add(visited?);
    }
    Ok(written)
}
