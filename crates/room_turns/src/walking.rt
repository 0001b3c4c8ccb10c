//! All callers at an object and at all below it.
ghost use Rattle.std.specs.Prelude.{◌≡◌, ◌&&◌, ◌++◌, ◌∷◌, [], IfOk, List, OnOk, not};
ghost use Rattle.std.specs.Prelude.{string_bytes, true, ℕ};
ghost use Rattle.std.specs.Option.{option_copied, option_map, option_map_or};
ghost use Rattle.room_rows.specs.Calls.{Reads};
ghost use Rattle.room_rows.specs.Keep.{HasNoRoot};
ghost use Rattle.room_rows.specs.declared.node.Node.{Node};
ghost use Rattle.room_dump.specs.Visits.{IsBlocked, IsFrom};
ghost use Rattle.room_machine.specs.Rights.{last_of};
ghost use Rattle.room_machine.specs.Site.{Site};
ghost use Rattle.room_machine.specs.Stored.{stored_site};
ghost use Rattle.room_review.specs.Standing.{before_last};
ghost use Rattle.room_review.specs.Telling.{AreOn, parent_path};
ghost use Rattle.room_turns.specs.Stands.{
  AreBeside,
  GivesAll,
  GivesFrom,
  HasHere,
  IsAstray,
  IsStranded,
  Shows,
  TellsAll,
  TellsComing,
  TellsOne,
  along,
  entry_at,
  first_visit,
  spot_of,
  stands_of,
};
ghost use Rattle.room_turns.specs.Turns.{View};

use crate::asked::Asked;
use crate::earlier::Scene;
use crate::spot::{Spot, Stand, Stands, Told};
use crate::standing::{Here, stand_at};
use room_dump::{Below, Visit};
use room_rows::{Keep, KeepFault, Node, Nodes, Path, Text, walk};
use std::alloc::{AllocError, Global};

// Where a walk starts: an object, the path to it, and the objects on the way.
#[derive(Drop)]
struct Start {
    path: Path,
    above: Nodes,
    node: Node,
}

/// All callers at the object of a path, and at all below it; none where the path leads nowhere.
pub(crate) fn spots_from<K: Keep>(
    keep: &mut K,
    path: &Path,
    asked: &Asked,
    scene: &Scene,
) -> Result<Vec<Told>, KeepFault>
    ensures read { Reads K.Keep keep.old keep.new result HasNoRoot
        (λ rows all. GivesFrom path.now asked.now scene.now rows all.items) }
{
    let found = walk(scene.alloc, keep, path)?;
    let rest = found.rest;
    let mut above = found.chain.into_vec();
    match above.pop() {
        None => Err(KeepFault::NoRoot),
        Some(node) => {
            let start = Start {
                path: path.copy()?,
                above: Nodes::from_vec(above),
                node,
            };
            spots_behind(keep, &start, rest, asked, scene)
        }
    }
}

// The same from where a walk ended, with this many names left over.
fn spots_behind<K: Keep>(
    keep: &mut K,
    start: &Start,
    rest: usize,
    asked: &Asked,
    scene: &Scene,
) -> Result<Vec<Told>, KeepFault>
    ensures read { Reads K.Keep keep.old keep.new result (IsStranded start.now rest)
        (λ rows all. GivesAll start.now rest asked.now scene.now rows all.items) }
{
    if rest > 0 {
        return Ok(Vec::new(scene.alloc));
    }
    let most = keep.ids()?.len();
    spots_at(keep, most, start, asked, scene)
}

// All callers at the object of the start, and at all below it. There are at most `most` objects.
fn spots_at<K: Keep>(
    keep: &mut K,
    most: usize,
    start: &Start,
    asked: &Asked,
    scene: &Scene,
) -> Result<Vec<Told>, KeepFault>
    ensures read { Reads K.Keep keep.old keep.new result (IsAstray most start.now)
        (λ rows all. TellsAll most start.now asked.now scene.now rows all.items) }
{
    let mut stood = Stood {
        way: spots_along(asked, scene, start.above.as_slice())?,
        all: Vec::new(scene.alloc),
    };
    let mut walk = walk_from(scene.alloc, most, start)?;
    stand_all(keep, asked, scene, &mut walk, &mut stood)?;
    Ok(stood.all)
}

// All callers at each of the objects on a way.
fn spots_along(asked: &Asked, scene: &Scene, above: &[Node]) -> Result<Vec<Spot>, AllocError>
    ensures { (view : View) (sites : List Site) → Shows asked.now scene.now view
        → AreOn above.now sites
        → IfOk result (λ way. way.items ≡ along view asked.now.parties.items [] sites) }
{
    let mut way = Vec::new(scene.alloc);
    'nodes: for node in above {
        let spot = spot_at(asked, scene, way.last(), node)?;
        way.push(spot)?;
    }
    Ok(way)
}

// A walk from the object of the start.
fn walk_from(alloc: Global, most: usize, start: &Start) -> Result<Below, AllocError>
    ensures { IfOk result (IsFrom most (first_visit start.now)) }
{
    let path = parent_text(alloc, &start.path)?;
    let first = Visit {
        path: Text::from_string(path),
        depth: start.above.len(),
        node: start.node.copy()?,
    };
    Below::at(alloc, most, first)
}

// The text of a path, but nothing for the root: what stands before a child's `/`.
fn parent_text(alloc: Global, path: &Path) -> Result<String, AllocError>
    ensures { IfOk result (λ text. string_bytes text ≡ parent_path path.now) }
{
    if path.is_root() {
        Ok(String::new(alloc))
    } else {
        path.to_text(alloc)
    }
}

/// The objects that a walk came to, and those on the way to the next one, with all callers.
#[derive(Drop)]
pub(crate) struct Stood {
    way: Vec<Spot>,
    all: Vec<Told>,
}

// Adds all callers at all that is still to come.
fn stand_all<K: Keep>(
    keep: &mut K,
    asked: &Asked,
    scene: &Scene,
    walk: &mut Below,
    stood: &mut Stood,
) -> Result<(), KeepFault>
    ensures read { Reads K.Keep keep.old keep.new result
        (IsBlocked walk.old)
        (TellsComing asked.now scene.now walk.old stood.old stood.new) }
{
    'objects: while let Some(visit) = walk.next(keep)? {
        let told = stand_next(asked, scene, &visit, stood);
        // Dropped here, and not part by part on each way out.
        drop(visit);
        told?;
    }
    Ok(())
}

// Adds all callers at an object, and puts them behind those on the way to it.
fn stand_next(
    asked: &Asked,
    scene: &Scene,
    visit: &Visit,
    stood: &mut Stood,
) -> Result<(), AllocError>
    ensures { OnOk result (TellsOne asked.now scene.now visit.now stood.old stood.new) }
{
    stood.way.truncate(visit.depth);
    let spot = spot_at(asked, scene, stood.way.last(), &visit.node)?;
    push_told(scene.alloc, visit, &spot, &mut stood.all)?;
    stood.way.push(spot)?;
    Ok(())
}

// Adds an object with all callers at it.
fn push_told(
    alloc: Global,
    visit: &Visit,
    spot: &Spot,
    all: &mut Vec<Told>,
) -> Result<(), AllocError>
    ensures { OnOk result (all.new.items ≡ all.old.items ++ entry_at visit.now spot.now ∷ []) }
{
    let told = Told {
        id: visit.node.id,
        path: visit.path.copy()?,
        kind: visit.node.kind,
        spot: spot.copy(alloc)?,
    };
    all.push(told)?;
    Ok(())
}

// All callers at an object, by those at the folder that it stands in. The root stands in none.
fn spot_at(
    asked: &Asked,
    scene: &Scene,
    folder: Option<&Spot>,
    node: &Node,
) -> Result<Spot, AllocError>
    ensures { (view : View) (above : List Site) (path : List (List ℕ))
        → Shows asked.now scene.now view
        → option_copied folder.entry
        ≡ option_map (spot_of view asked.now.parties.items (before_last above)) (last_of above)
        → IfOk result (λ spot.
        spot ≡ spot_of view asked.now.parties.items above (stored_site path node.now)) }
{
    let earlier = scene.earlier.get(&node.id);
    let hidden = scene.hidden.contains(&node.id);
    let known = is_seen(folder, hidden);
    let own = scene.own.contains(&node.id);
    let here = Here {
        node,
        own,
        follows: is_clear(folder),
        looks: asked.looks,
    };
    Ok(Spot {
        known,
        clear: stays_known(known, earlier),
        follows: here.follows,
        stands: stands_at(
            scene.alloc,
            asked,
            &here,
            stands_of(folder),
            stands_of(earlier),
        )?,
    })
}

// Whether an object of the folder is known, whose own list may be hidden.
fn is_seen(folder: Option<&Spot>, hidden: bool) -> bool
    ensures { result ≡ (option_map_or (λ (s : Spot). s.known) (option_copied folder.entry) true
        && not hidden) }
{
    is_known(folder) && !hidden
}

// Whether an object that is known or not was known in the earlier state too, if it was there.
fn stays_known(known: bool, earlier: Option<&Spot>) -> bool
    ensures { result
        ≡ (known && option_map_or (λ (s : Spot). s.known) (option_copied earlier.entry) true) }
{
    known && is_known(earlier)
}

// Whether an object is known in its state, or isn't there.
fn is_known(spot: Option<&Spot>) -> bool
    ensures { result ≡ option_map_or (λ (s : Spot). s.known) (option_copied spot.entry) true }
{
    match spot {
        None => true,
        Some(spot) => spot.known,
    }
}

// Whether an object is known in both states, or isn't there.
fn is_clear(spot: Option<&Spot>) -> bool
    ensures { result ≡ option_map_or (λ (s : Spot). s.clear) (option_copied spot.entry) true }
{
    match spot {
        None => true,
        Some(spot) => spot.clear,
    }
}

// All callers at an object, or none where it isn't there.
fn stands_of<'a>(spot: Option<&'a Spot>) -> &'a [Stand]
    ensures { result.now ≡ option_map_or (λ (s : Spot). s.stands) (option_copied spot.entry) [] }
{
    match spot {
        None => &[],
        Some(spot) => spot.stands.as_slice(),
    }
}

// All callers at an object, by those at the folder and at the object in the earlier state.
fn stands_at(
    alloc: Global,
    asked: &Asked,
    here: &Here<'_>,
    folder: &[Stand],
    earlier: &[Stand],
) -> Result<Stands, AllocError>
    ensures { (view : View) (above : List Site) (path : List (List ℕ))
        → HasHere view above here.now.node.now here.now
        → AreBeside view asked.now.parties.items above here.now.node.now.id folder.now earlier.now
        → IfOk result (λ stands. stands
        ≡ stands_of view asked.now.parties.items above (stored_site path here.now.node.now)) }
{
    let mut stands = Vec::with_capacity(alloc, asked.parties.len())?;
    for (index, party) in asked.parties.iter().enumerate() {
        let stand = stand_at(here, folder.get(index), earlier.get(index), &party.caller)?;
        stands.push(stand)?;
    }
    Ok(Stands::from_vec(stands))
}
