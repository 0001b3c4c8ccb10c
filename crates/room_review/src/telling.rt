//! The rows of a part of a room.
ghost use Rattle.std.specs.Prelude.{◌≡◌, ◌++◌, [], IfOk, List, OnOk, string_bytes, ℕ};
ghost use Rattle.room_import.specs.Exports.{rows_text};
ghost use Rattle.room_rows.specs.declared.node.Node.{Node};
ghost use Rattle.room_rows.specs.Calls.{Reads};
ghost use Rattle.room_machine.specs.Site.{Site};
ghost use Rattle.room_machine.specs.Stored.{stored_site};
ghost use Rattle.room_dump.specs.Visits.{IsFrom};
ghost use Rattle.room_review.specs.Standing.{standings};
ghost use Rattle.room_review.specs.Table.{Place, object_rows, site_of};
ghost use Rattle.room_review.specs.Telling.{
  AreOn,
  GivesTable,
  IsAstray,
  IsStray,
  TellsComing,
  TellsOne,
  TellsTable,
  along,
  parent_path,
  start_visit,
  visit_at,
};

use crate::parties::Party;
use crate::question::Start;
use crate::sheet::{Described, Sheet};
use crate::standing::{Standings, standings_at};
use room_dump::{Below, Visit};
use room_rows::{Bytes, Keep, KeepFault, Node, Path, Text};
use std::alloc::{AllocError, Global};

/// Whose rows are told, and which.
#[derive(Drop)]
pub(crate) struct Audience {
    /// Where memory is taken.
    pub(crate) alloc: Global,
    /// The callers, in their order.
    pub(crate) parties: Vec<Party>,
    /// Whether rows stand that say the same as those of the folder above.
    pub(crate) all: bool,
}

/// The table of an object and of all below it. There are at most `most` objects.
pub(crate) fn table_from<K: Keep>(
    keep: &mut K,
    most: usize,
    start: &Start,
    asked: &Audience,
) -> Result<Bytes, KeepFault>
    ensures read { Reads K.Keep keep.old keep.new result (IsAstray most start.now)
        (GivesTable most start.now asked.now) }
{
    let mut sheet = Sheet::begun(asked.alloc)?;
    push_table(keep, most, start, asked, &mut sheet)?;
    Ok(sheet.into_bytes())
}

// Adds the rows of an object and of all below it.
fn push_table<K: Keep>(
    keep: &mut K,
    most: usize,
    start: &Start,
    asked: &Audience,
    sheet: &mut Sheet,
) -> Result<(), KeepFault>
    ensures read { Reads K.Keep keep.old keep.new result (IsAstray most start.now)
        (TellsTable most start.now asked.now sheet.old sheet.new) }
{
    let mut way = standings_along(asked, start.above.as_slice())?;
    let mut walk = walk_from(asked.alloc, most, start)?;
    push_all(keep, asked, &mut walk, &mut way, sheet)
}

// All callers at each of the objects on a way.
fn standings_along(asked: &Audience, above: &[Node]) -> Result<Vec<Standings>, AllocError>
    ensures { (sites : List Site) → AreOn above.now sites
        → IfOk result (λ way. way.items ≡ along asked.now.parties.items [] sites) }
{
    let mut way = Vec::new(asked.alloc);
    'nodes: for node in above {
        let here = standings_behind(asked, way.as_slice(), node)?;
        way.push(here)?;
    }
    Ok(way)
}

// All callers at an object behind these.
#[tactic(auto, using(crate::proofs::Above::last_along))]
fn standings_behind(
    asked: &Audience,
    way: &[Standings],
    node: &Node,
) -> Result<Standings, AllocError>
    ensures { (sites : List Site) (path : List (List ℕ))
        → way.now ≡ along asked.now.parties.items [] sites
        → IfOk result (λ here. here ≡ standings asked.now.parties.items sites
        (stored_site path node.now)) }
{
    standings_at(asked.alloc, &asked.parties, way.last(), node)
}

// A walk from the object that a review starts at.
fn walk_from(alloc: Global, most: usize, start: &Start) -> Result<Below, AllocError>
    ensures { IfOk result (IsFrom most (start_visit start.now)) }
{
    let path = parent_text(alloc, &start.path)?;
    let first = Visit {
        path: Text::from_string(path),
        depth: start.above.len(),
        node: start.node.copy()?,
    };
    Below::at(alloc, most, first)
}

// The text of a path, but nothing for the root: what stands before a child's `/`.
fn parent_text(alloc: Global, path: &Path) -> Result<String, AllocError>
    ensures { IfOk result (λ text. string_bytes text ≡ parent_path path.now) }
{
    if path.is_root() {
        Ok(String::new(alloc))
    } else {
        path.to_text(alloc)
    }
}

// Adds the rows of all that is still to come, and of the first object all rows.
fn push_all<K: Keep>(
    keep: &mut K,
    asked: &Audience,
    walk: &mut Below,
    way: &mut Vec<Standings>,
    sheet: &mut Sheet,
) -> Result<(), KeepFault>
    ensures read { Reads K.Keep keep.old keep.new result
        (IsStray asked.now walk.old way.old.items)
        (TellsComing asked.now walk.old way.old.items sheet.old sheet.new) }
{
    let mut all = true;
    'objects: while let Some(visit) = walk.next(keep)? {
        let told = push_rows(asked, all, &visit, way, sheet);
        // Dropped here, and not part by part on each way out.
        drop(visit);
        told?;
        all = asked.all;
    }
    Ok(())
}

// Adds the rows of an object, and puts all callers at it behind those on the way to it.
fn push_rows(
    asked: &Audience,
    all: bool,
    visit: &Visit,
    way: &mut Vec<Standings>,
    sheet: &mut Sheet,
) -> Result<(), AllocError>
    ensures { OnOk result (TellsOne asked.now.parties.items all visit.now way.old.items
        way.new.items sheet.old sheet.new) }
{
    way.truncate(visit.depth);
    let here = standings_behind(asked, way.as_slice(), &visit.node)?;
    push_told(asked, all, visit, &here, sheet)?;
    way.push(here)?;
    Ok(())
}

// Adds the rows of an object at which the callers stand so.
#[tactic(auto, using(crate::proofs::Told::shown_path))]
fn push_told(
    asked: &Audience,
    all: bool,
    visit: &Visit,
    here: &Standings,
    sheet: &mut Sheet,
) -> Result<(), AllocError>
    ensures { (place : Place) (node : Node) → visit.now ≡ visit_at place node
        → here.now ≡ standings asked.now.parties.items place.above (site_of place node)
        → OnOk result (sheet.new ≡ sheet.old
        ++ rows_text (object_rows all asked.now.parties.items place node)) }
{
    let told = Described {
        path: visit.shown(),
        kind: visit.node.kind,
        here,
        all,
    };
    sheet.push_rows(asked.alloc, &asked.parties, &told)
}
