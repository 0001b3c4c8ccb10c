//! One answer that was read, with its question.
ghost use Rattle.std.specs.Prelude.{◌≡◌, ◌||◌, IfOk, IfSome, length, nat_lt};
ghost use Rattle.room_rows.specs.Held.{full_of};

use room_entry::{Name, Names, ObjKind};
use room_rows::{Held, Listing, Node, Text};
use std::alloc::{AllocError, Global};

// How many entries a list of an object has at most, and how many groups a user, and how many
// children a folder, if they are remembered.
const MOST_ENTRIES: usize = 128;

const MOST_GROUPS: usize = 128;

const MOST_NAMES: usize = 1024;

/// An answer, with its question.
#[derive(Drop)]
pub(crate) enum Known {
    /// The root.
    Root(Node),
    /// The child of a name.
    Child {
        /// The number of the folder.
        parent: u64,
        /// The name.
        name: Text,
        /// The child.
        node: Node,
    },
    /// What the children of a folder are called.
    Listed {
        /// The number of the folder.
        parent: u64,
        /// The names and kinds.
        names: Listing,
    },
    /// The groups of a user.
    Grouped {
        /// The user.
        user: Name,
        /// The groups.
        groups: Names,
    },
}

impl Known {
    // The root, to be remembered.
    pub(crate) fn of_root(alloc: Global, node: &Node) -> Result<Box<Known>, AllocError>
        ensures { IfOk result (λ known. known.value ≡ Known.Root node.now) }
    {
        let known = Known::Root(node.copy()?);
        Ok(Box::new(alloc, known)?)
    }

    // A child, to be remembered.
    pub(crate) fn of_child(
        alloc: Global,
        parent: u64,
        name: &str,
        node: &Node,
    ) -> Result<Box<Known>, AllocError>
        ensures { IfOk result (λ known. known.value ≡ Known.Child parent name.now node.now) }
    {
        let known = Known::Child {
            parent,
            name: Text::from_str(alloc, name)?,
            node: node.copy()?,
        };
        Ok(Box::new(alloc, known)?)
    }

    // What children are called, to be remembered.
    pub(crate) fn of_listing(
        alloc: Global,
        parent: u64,
        names: &Listing,
    ) -> Result<Box<Known>, AllocError>
        ensures { IfOk result (λ known. known.value ≡ Known.Listed parent names.now) }
    {
        let known = Known::Listed {
            parent,
            names: listing_copied(alloc, names)?,
        };
        Ok(Box::new(alloc, known)?)
    }

    // The groups of a user, to be remembered.
    pub(crate) fn of_groups(
        alloc: Global,
        user: &Name,
        groups: &Names,
    ) -> Result<Box<Known>, AllocError>
        ensures { IfOk result (λ known. known.value ≡ Known.Grouped user.now groups.now) }
    {
        let known = Known::Grouped {
            user: user.copy()?,
            groups: names_copied(alloc, groups)?,
        };
        Ok(Box::new(alloc, known)?)
    }

    // A copy of the root, if it is that.
    pub(crate) fn root(&self) -> Result<Option<Node>, AllocError>
        ensures { IfOk result (λ found. IfSome found (λ node. self.now ≡ Known.Root node)) }
    {
        match self {
            Known::Root(node) => Ok(Some(node.copy()?)),
            _ => Ok(None),
        }
    }

    // A copy of the child, if it is the one of this name.
    pub(crate) fn child(&self, parent: u64, name: &str) -> Result<Option<Node>, AllocError>
        ensures { IfOk result (λ found. IfSome found (λ node.
            self.now ≡ Known.Child parent name.now node)) }
    {
        match self {
            Known::Child {
                parent: above,
                name: called,
                node,
            } => {
                if *above == parent && called.as_str() == name {
                    return Ok(Some(node.copy()?));
                }
                Ok(None)
            }
            _ => Ok(None),
        }
    }

    // A copy of what the children are called, if it is this folder's.
    pub(crate) fn listing(&self, alloc: Global, parent: u64) -> Result<Option<Listing>, AllocError>
        ensures { IfOk result (λ found. IfSome found (λ names.
            self.now ≡ Known.Listed parent names)) }
    {
        match self {
            Known::Listed {
                parent: above,
                names,
            } => {
                if *above == parent {
                    return Ok(Some(listing_copied(alloc, names)?));
                }
                Ok(None)
            }
            _ => Ok(None),
        }
    }

    // A copy of the groups, if they are this user's.
    pub(crate) fn groups_of(&self, alloc: Global, user: &Name) -> Result<Option<Names>, AllocError>
        ensures { IfOk result (λ found. IfSome found (λ groups.
            self.now ≡ Known.Grouped user.now groups)) }
    {
        match self {
            Known::Grouped {
                user: member,
                groups,
            } => {
                if member.as_str() == user.as_str() {
                    return Ok(Some(names_copied(alloc, groups)?));
                }
                Ok(None)
            }
            _ => Ok(None),
        }
    }
}

/// Whether an object takes so much memory that it isn't remembered.
pub(crate) fn is_large(node: &Node) -> bool
    ensures { result ≡ (nat_lt MOST_ENTRIES (length (full_of node.now.dacl))
        || nat_lt MOST_ENTRIES (length (full_of node.now.sacl))) }
{
    has_many(&node.dacl) || has_many(&node.sacl)
}

fn has_many(list: &Held) -> bool
    ensures { result ≡ nat_lt MOST_ENTRIES (length (full_of list.now)) }
{
    list.full().len() > MOST_ENTRIES
}

/// Whether a listing takes so much memory that it isn't remembered.
pub(crate) fn is_long(names: &Listing) -> bool
    ensures { result ≡ nat_lt MOST_NAMES (length names.now) }
{
    names.as_slice().len() > MOST_NAMES
}

/// Whether the groups take so much memory that they aren't remembered.
pub(crate) fn are_many(groups: &Names) -> bool
    ensures { result ≡ nat_lt MOST_GROUPS (length groups.now) }
{
    groups.as_slice().len() > MOST_GROUPS
}

fn names_copied(alloc: Global, names: &Names) -> Result<Names, AllocError>
    ensures { IfOk result (λ copy. copy ≡ names.now) }
{
    let mut copy = Names::new(alloc);
    'names: for name in names.as_slice() {
        copy.push(name.copy()?)?;
    }
    Ok(copy)
}

fn listing_copied(alloc: Global, names: &Listing) -> Result<Listing, AllocError>
    ensures { IfOk result (λ copy. copy ≡ names.now) }
{
    let pairs = names.as_slice();
    let mut copy = Vec::with_capacity(alloc, pairs.len())?;
    'pairs: for pair in pairs {
        copy.push((pair.0.copy()?, pair.1))?;
    }
    Ok(Listing::from_vec(copy))
}
