//! A state of a room, and what was looked at in the earlier one.
ghost use Rattle.std.specs.Prelude.{◌≡◌, IfOk, nat_eq, ℕ};
ghost use Rattle.std.specs.HashMap.{get};
ghost use Rattle.std.specs.HashSet.{contains};
ghost use Rattle.room_entry.specs.Pieces.{is_among};
ghost use Rattle.room_turns.specs.Stands.{spot_in};

use crate::spot::{Spot, Told};
use room_rows::Numbers;
use std::alloc::{AllocError, Global};
use std::collections::{HashMap, HashSet};

/// What is known of a state of a room before callers are looked at.
#[derive(Drop)]
pub(crate) struct Scene {
    /// Where memory is taken.
    pub(crate) alloc: Global,
    /// The numbers of the objects whose lists aren't known.
    pub(crate) hidden: HashSet<u64>,
    /// Those of the objects that each caller would have made itself.
    pub(crate) own: HashSet<u64>,
    /// The objects of the earlier state, by their numbers.
    pub(crate) earlier: HashMap<u64, Spot>,
}

/// A state in which these objects aren't known, beside an earlier one.
pub(crate) fn scene_of(
    alloc: Global,
    hidden: &Numbers,
    own: &Numbers,
    earlier: HashMap<u64, Spot>,
) -> Result<Scene, AllocError>
    ensures hidden { IfOk result (λ scene. (number : ℕ)
        → contains nat_eq scene.hidden number ≡ is_among hidden.now number) }
    ensures own { IfOk result (λ scene. (number : ℕ)
        → contains nat_eq scene.own number ≡ is_among own.now number) }
    ensures earlier { IfOk result (λ scene. scene.earlier ≡ earlier) }
{
    let hidden = set_of(alloc, hidden.as_slice())?;
    let own = set_of(alloc, own.as_slice())?;
    Ok(Scene {
        alloc,
        hidden,
        own,
        earlier,
    })
}

// The numbers as a set.
fn set_of(alloc: Global, numbers: &[u64]) -> Result<HashSet<u64>, AllocError>
    ensures { IfOk result (λ set. (number : ℕ)
        → contains nat_eq set number ≡ is_among numbers.now number) }
{
    let mut set = HashSet::new(alloc);
    for number in numbers {
        set.insert(*number)?;
    }
    Ok(set)
}

/// The objects by their numbers.
pub(crate) fn by_number(alloc: Global, objects: Vec<Told>) -> Result<HashMap<u64, Spot>, AllocError>
    ensures { IfOk result (λ table. (number : ℕ)
        → get nat_eq table number ≡ spot_in objects.items number) }
{
    let mut table = HashMap::new(alloc);
    let mut rest = objects;
    'objects: while let Some(told) = rest.pop() {
        table.insert(told.id, told.spot)?;
    }
    Ok(table)
}
