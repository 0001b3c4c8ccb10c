//! One caller at an object, beside the earlier state.
ghost use Rattle.std.specs.Prelude.{◌≡◌, ◌&&◌, false, IfOk, List, [], Option, ℕ};
ghost use Rattle.std.specs.Option.{option_copied, option_map, option_map_or};
ghost use Rattle.room_entry.specs.Pieces.{is_among};
ghost use Rattle.room_rows.specs.declared.node.Node.{Node};
ghost use Rattle.room_machine.specs.Rights.{last_of};
ghost use Rattle.room_machine.specs.Site.{Site};
ghost use Rattle.room_machine.specs.Stored.{stored_site};
ghost use Rattle.room_change.specs.Changes.{differs, says_same};
ghost use Rattle.room_review.specs.Standing.{before_last, standing};
ghost use Rattle.room_review.specs.Table.{Place};
ghost use Rattle.room_turns.specs.Stands.{HasHere, granted_by, grant_of, stand_of, standing_to};
ghost use Rattle.room_turns.specs.Stands.{turn_of};
ghost use Rattle.room_turns.specs.Turns.{View, claimed, says_alike};

use crate::spot::Stand;
use room_ace::{Caller, Mask};
use room_review::standing::{Standing, at_root, below};
use room_rows::Node;
use std::alloc::AllocError;

/// An object that callers are looked at.
#[derive(Drop)]
pub(crate) struct Here<'a> {
    /// The object.
    pub(crate) node: &'a Node,
    /// Whether each caller would have made it itself.
    pub(crate) own: bool,
    /// Whether the folder that it stands in, if there is one, is known in both states.
    pub(crate) follows: bool,
    /// Whether nothing is changed.
    pub(crate) looks: bool,
}

/// A caller at an object, by the same caller at the folder that it stands in, and at the object in
/// the earlier state.
pub(crate) fn stand_at(
    here: &Here<'_>,
    folder: Option<&Stand>,
    earlier: Option<&Stand>,
    caller: &Caller,
) -> Result<Stand, AllocError>
    ensures { (view : View) (above : List Site) (path : List (List ℕ))
        → HasHere view above here.now.node.now here.now
        → option_copied folder.entry
        ≡ option_map (stand_of view caller.now (before_last above)) (last_of above)
        → option_map grant_of (option_copied earlier.entry)
        ≡ option_map (granted_by view.own caller.now) (view.earlier here.now.node.now.id)
        → IfOk result (λ stand.
        stand ≡ stand_of view caller.now above (stored_site path here.now.node.now)) }
{
    let standing = standing_to(here, folder, caller)?;
    let mut stand = Stand {
        standing,
        had_rights: rights_of(earlier),
        had_remove: removes(earlier),
        repeats: false,
    };
    stand.repeats = here.follows && repeats(here.looks, folder, &stand);
    Ok(stand)
}

// The caller at the object, which it owns if it would have made it itself.
fn standing_to(
    here: &Here<'_>,
    folder: Option<&Stand>,
    caller: &Caller,
) -> Result<Standing, AllocError>
    ensures { (own : List ℕ) (above : List Site) (path : List (List ℕ))
        → here.now.own ≡ is_among own here.now.node.now.id
        → option_map (λ (stand : Stand). stand.standing) (option_copied folder.entry)
        ≡ option_map (standing_to own caller.now (before_last above)) (last_of above)
        → IfOk result (λ standing.
        standing ≡ standing_to own caller.now above (stored_site path here.now.node.now)) }
{
    if here.own {
        let mine = claimed(here.node, caller)?;
        Ok(standing_in(folder, caller, &mine))
    } else {
        Ok(standing_in(folder, caller, here.node))
    }
}

// The caller at an object of the folder, or at the root.
fn standing_in(folder: Option<&Stand>, caller: &Caller, node: &Node) -> Standing
    ensures { (above : List Site) (path : List (List ℕ))
        → option_map (λ (stand : Stand). stand.standing) (option_copied folder.entry)
        ≡ option_map (standing caller.now (before_last above)) (last_of above)
        → result ≡ standing caller.now above (stored_site path node.now) }
{
    match folder {
        None => at_root(caller, node),
        Some(stand) => below(&stand.standing, caller, node),
    }
}

// The object with the caller for its owner, if the caller has a name.
fn claimed(node: &Node, caller: &Caller) -> Result<Node, AllocError>
    ensures { IfOk result (λ mine. mine ≡ claimed caller.now node.now) }
{
    let mut mine = node.copy()?;
    match &caller.user {
        None => {}
        Some(name) => mine.owners.owner = name.copy()?,
    }
    Ok(mine)
}

// The rights of a caller at an object, or none where it isn't there.
fn rights_of(stand: Option<&Stand>) -> Mask
    ensures { result
        ≡ option_map_or (λ (s : Stand). s.standing.rights) (option_copied stand.entry) [] }
{
    match stand {
        None => Mask::empty(),
        Some(stand) => stand.standing.rights,
    }
}

// Whether a caller may remove an object, if it is there.
fn removes(stand: Option<&Stand>) -> bool
    ensures { result
        ≡ option_map_or (λ (s : Stand). s.standing.remove) (option_copied stand.entry) false }
{
    match stand {
        None => false,
        Some(stand) => stand.standing.remove,
    }
}

// Whether the row of the caller at the folder says it already.
fn repeats(looks: bool, folder: Option<&Stand>, stand: &Stand) -> bool
    ensures { result ≡ option_map_or (λ (f : Stand).
        says_alike looks (turn_of stand.now) (turn_of f)) (option_copied folder.entry) false }
{
    match folder {
        None => false,
        Some(folder) => says_alike(looks, stand, folder),
    }
}

// Whether the rows say the same, or both that nothing changes.
fn says_alike(looks: bool, stand: &Stand, other: &Stand) -> bool
    ensures { result ≡ says_alike looks (turn_of stand.now) (turn_of other.now) }
{
    if looks {
        return has_same(stand, other);
    }
    if differs(stand) || differs(other) {
        had_same(stand, other) && has_same(stand, other)
    } else {
        true
    }
}

fn differs(stand: &Stand) -> bool
    ensures { result ≡ differs (turn_of stand.now) }
{
    let same = says_same(
        (stand.had_rights, stand.had_remove),
        (stand.standing.rights, stand.standing.remove),
    );
    !same
}

fn had_same(stand: &Stand, other: &Stand) -> bool
    ensures { result ≡ says_same (turn_of stand.now).had (turn_of other.now).had }
{
    says_same(
        (stand.had_rights, stand.had_remove),
        (other.had_rights, other.had_remove),
    )
}

fn has_same(stand: &Stand, other: &Stand) -> bool
    ensures { result ≡ says_same (turn_of stand.now).has (turn_of other.now).has }
{
    says_same(
        (stand.standing.rights, stand.standing.remove),
        (other.standing.rights, other.standing.remove),
    )
}

// Whether two grants of rights and removal are the same.
fn says_same(grant: (Mask, bool), other: (Mask, bool)) -> bool
    ensures { result ≡ says_same grant other }
{
    grant.0.is_same(other.0) && (if grant.1 { other.1 } else { !other.1 })
}
