//! What each caller may do with one object.
ghost use Rattle.std.specs.Prelude.{◌≡◌, ◌&&◌, ◌||◌, IfOk, List, [], Some, false, not, true, ℕ};
ghost use Rattle.std.specs.Option.{option_copied};
ghost use Rattle.room_entry.specs.Bits.{has};
ghost use Rattle.room_entry.specs.Rights.{delete, delete_child, execute, write_data};
ghost use Rattle.room_machine.specs.Site.{Site};
ghost use Rattle.room_machine.specs.Stored.{stored_site};
ghost use Rattle.room_rows.specs.Content.{is_folder};
ghost use Rattle.room_machine.specs.Rights.{last_of};
ghost use Rattle.room_review.specs.Standing.{before_last, folder_standings, same_answer};
ghost use Rattle.room_review.specs.Standing.{same_grant, standing, standings};

use crate::granting::{Ruled, rule_all};
use crate::parties::Party;
use room_ace::{Caller, Mask};
use room_rows::Node;
use std::alloc::{AllocError, Global};
use std::marker::Model;

/// What one caller may do with an object, and what the object says for what stands below it.
#[derive(Drop)]
pub struct Standing {
    /// The rights: none where the caller doesn't come to the object.
    pub rights: Mask,
    /// Whether the caller may remove it.
    pub remove: bool,
    /// Whether the caller comes to what stands below it.
    pub opens: bool,
    /// Whether the caller comes to it, and its list denies DELETE_CHILD.
    pub keeps: bool,
    /// Whether rights and removal are those at the folder that it stands in.
    pub repeats: bool,
}

/// All callers at one object, in their order. A contract sees the list of them.
#[derive(Drop)]
pub(crate) struct Standings {
    items: Vec<Standing>,
}

impl Model for Standings {
    ghost use Rattle.std.specs.Prelude.{List};
    ghost use Rattle.room_review.specs.declared.standing.Standing.{Standing};

    ghost Value = { List Standing };

    ghost view = { λ s. s.items.items };
}

impl Standings {
    /// The standings as a slice.
    pub(crate) fn as_slice(&self) -> &[Standing]
        ensures { result.now ≡ self.now }
    {
        self.items.as_slice()
    }
}

impl Standing {
    // Whether these are the rights and the removal.
    fn grants(&self, rights: Mask, remove: bool) -> bool
        ensures { result ≡ same_grant (rights, remove) (self.now.rights, self.now.remove) }
    {
        rights.is_same(self.rights) && same_answer(remove, self.remove)
    }

    // The deletion rule on an object whose list says this, in the folder that this is about.
    fn gives_up(&self, ruled: &Ruled) -> bool
        ensures { result ≡ ((has ruled.now.allowed delete || has self.now.rights delete_child)
            || ((not (has ruled.now.denied delete) && not self.now.keeps)
            && has self.now.rights write_data)) }
    {
        if Mask::delete().shares(ruled.allowed) || Mask::delete_child().shares(self.rights) {
            return true;
        }
        !Mask::delete().shares(ruled.denied)
            && !self.keeps
            && Mask::write_data().shares(self.rights)
    }
}

fn same_answer(answer: bool, other: bool) -> bool
    ensures { result ≡ same_answer answer other }
{
    answer == other
}

/// All callers at an object, by those at the folder that it stands in. The root stands in none.
pub(crate) fn standings_at(
    alloc: Global,
    parties: &[Party],
    folder: Option<&Standings>,
    node: &Node,
) -> Result<Standings, AllocError>
    ensures { (above : List Site) (path : List (List ℕ))
        → option_copied folder.entry ≡ folder_standings parties.now above
        → IfOk result (λ here. here ≡ standings parties.now above (stored_site path node.now)) }
{
    match folder {
        None => standings_at_root(alloc, parties, node),
        Some(folder) => standings_below(alloc, parties, folder.as_slice(), node),
    }
}

// All callers at the root.
fn standings_at_root(alloc: Global, parties: &[Party], root: &Node) -> Result<Standings, AllocError>
    ensures { (path : List (List ℕ))
        → IfOk result (λ here. here ≡ standings parties.now [] (stored_site path root.now)) }
{
    let mut items = Vec::with_capacity(alloc, parties.len())?;
    for party in parties {
        items.push(at_root(&party.caller, root))?;
    }
    Ok(Standings { items })
}

// All callers at an object in a folder.
fn standings_below(
    alloc: Global,
    parties: &[Party],
    folder: &[Standing],
    node: &Node,
) -> Result<Standings, AllocError>
    ensures { (above : List Site) (site : Site) (path : List (List ℕ))
        → last_of above ≡ Some site
        → folder.now ≡ standings parties.now (before_last above) site
        → IfOk result (λ here. here ≡ standings parties.now above (stored_site path node.now)) }
{
    let mut items = Vec::with_capacity(alloc, parties.len())?;
    for (party, above) in parties.iter().zip(folder) {
        items.push(below(above, &party.caller, node))?;
    }
    Ok(Standings { items })
}

/// A caller at the root, to which each comes, and which none may remove.
pub fn at_root(caller: &Caller, root: &Node) -> Standing
    ensures { (path : List (List ℕ))
        → result ≡ standing caller.now [] (stored_site path root.now) }
{
    let ruled = rule_all(root.dacl.full(), caller, &root.owners);
    Standing {
        rights: ruled.allowed,
        remove: false,
        opens: opens(root, ruled.allowed),
        keeps: Mask::delete_child().shares(ruled.denied),
        repeats: false,
    }
}

/// A caller at an object, by the same caller at the folder that it stands in.
pub fn below(folder: &Standing, caller: &Caller, node: &Node) -> Standing
    ensures { (above : List Site) (site : Site) (path : List (List ℕ))
        → last_of above ≡ Some site
        → folder.now ≡ standing caller.now (before_last above) site
        → result ≡ standing caller.now above (stored_site path node.now) }
{
    if folder.opens {
        reached(folder, caller, node)
    } else {
        unreached(folder)
    }
}

// A caller at an object that the caller doesn't come to.
fn unreached(folder: &Standing) -> Standing
    ensures { result ≡ record {
      rights = [];
      remove = false;
      opens = false;
      keeps = false;
      repeats = same_grant ([], false) (folder.now.rights, folder.now.remove);
    } }
{
    Standing {
        rights: Mask::empty(),
        remove: false,
        opens: false,
        keeps: false,
        repeats: folder.grants(Mask::empty(), false),
    }
}

// A caller at an object that the caller comes to.
fn reached(folder: &Standing, caller: &Caller, node: &Node) -> Standing
    ensures { (above : List Site) (site : Site) (path : List (List ℕ))
        → last_of above ≡ Some site
        → folder.now ≡ standing caller.now (before_last above) site
        → folder.now.opens ≡ true
        → result ≡ standing caller.now above (stored_site path node.now) }
{
    let ruled = rule_all(node.dacl.full(), caller, &node.owners);
    let remove = folder.gives_up(&ruled);
    Standing {
        rights: ruled.allowed,
        remove,
        opens: opens(node, ruled.allowed),
        keeps: Mask::delete_child().shares(ruled.denied),
        repeats: folder.grants(ruled.allowed, remove),
    }
}

// Whether a caller who has these rights at an object comes to what stands below it.
fn opens(node: &Node, rights: Mask) -> bool
    ensures { result ≡ (is_folder node.now && has rights execute) }
{
    !node.is_document() && Mask::execute().shares(rights)
}
