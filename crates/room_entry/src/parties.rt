//! Who asks, and who owns.
ghost use Rattle.std.specs.Prelude.{◌≡◌, [], ◌∷◌, ◌++◌, IfOk, IsTrue, OnOk, OnErr};
ghost use Rattle.std.specs.List.{list_any};
ghost use Rattle.std.specs.List.Sorted.{IsPermutation};
ghost use Rattle.room_entry.specs.Rising.{AreRising};
ghost use Rattle.room_entry.specs.Matching.{is_member, is_user};
ghost use Rattle.room_entry.specs.Pieces.{same_text};

use crate::name::Name;
use std::alloc::{AllocError, Global};
use std::marker::Model;

/// Names in the order in which they were added. A contract sees the list of them.
#[derive(Drop)]
pub struct Names {
    items: Vec<Name>,
    // Whether the items are known to rise, so that one is found by a binary search.
    rising: bool,
}

impl Model for Names {
    ghost use Rattle.std.specs.Prelude.{List, ℕ, IsTrue};
    ghost use Rattle.room_entry.specs.Rising.{AreRising};

    ghost Value = { List (List ℕ) };

    ghost view = { λ n. n.items.items };

    ghost invariant = { λ n. IsTrue n.rising → AreRising n.items.items };
}

impl Names {
    /// No names.
    pub fn new(alloc: Global) -> Names
        ensures { result ≡ [] }
    {
        Names {
            items: Vec::new(alloc),
            rising: true,
        }
    }

    /// The names of a vector.
    pub fn from_vec(items: Vec<Name>) -> Names
        ensures { result ≡ items.items }
    {
        Names {
            items,
            rising: false,
        }
    }

    /// The names as a vector.
    pub fn into_vec(self) -> Vec<Name>
        ensures { result.items ≡ self }
    {
        let Names { items, rising: _ } = self;
        items
    }

    /// Adds a name at the end.
    pub fn push(&mut self, name: Name) -> Result<(), AllocError>
        ensures ok { OnOk result (self.new ≡ self.old ++ name ∷ []) }
        ensures err { OnErr result (self.new ≡ self.old) }
    {
        let rising = self.rising && goes_on(&self.items, &name);
        self.items.push(name)?;
        self.rising = rising;
        Ok(())
    }

    /// Puts the names in order of their bytes, so that `contains` is a binary search. Names that
    /// were added in this order are in it already.
    pub fn sort(&mut self)
        ensures same { IsPermutation self.old self.new }
        ensures sorted { AreRising self.new }
    {
        if !self.rising {
            sort_names(&mut self.items);
            self.rising = true;
        }
    }

    /// The names as a slice.
    pub fn as_slice(&self) -> &[Name]
        ensures { result.now ≡ self.now }
    {
        self.items.as_slice()
    }

    /// Whether the name is among them.
    pub fn contains(&self, name: &Name) -> bool
        ensures { result ≡ list_any (λ other. same_text other name.now) self.now }
    {
        if self.rising {
            search(&self.items, name)
        } else {
            scan(&self.items, name)
        }
    }
}

// Whether the names stay in order with this one added at the end, if they are without it.
fn goes_on(names: &[Name], name: &Name) -> bool
    ensures { IsTrue result → AreRising names.now → AreRising (names.now ++ name.now ∷ []) }
{
    match names.last() {
        None => true,
        Some(last) => last.as_str() <= name.as_str(),
    }
}

fn sort_names(names: &mut [Name])
    ensures same { IsPermutation names.old names.new }
    ensures sorted { AreRising names.new }
{
    names.sort_unstable_by(|a, b| a.as_str().cmp(b.as_str()));
}

// Whether the name is among those that rise.
fn search(names: &[Name], name: &Name) -> bool
    requires { AreRising names.now }
    ensures { result ≡ list_any (λ other. same_text other name.now) names.now }
{
    names
        .binary_search_by(|other| other.as_str().cmp(name.as_str()))
        .is_ok()
}

fn scan(names: &[Name], name: &Name) -> bool
    ensures { result ≡ list_any (λ other. same_text other name.now) names.now }
{
    names.iter().any(|other| other.as_str() == name.as_str())
}

/// Who asks: a user and the groups that the user is in, or a caller without a name, who is
/// anonymous.
#[derive(Drop)]
pub struct Caller {
    /// The user's name, or none where the caller is anonymous.
    pub user: Option<Name>,
    /// The groups that the user is in. They count only where there is a user.
    pub groups: Names,
}

/// The owner and the owning group of an object.
#[derive(Clone, Drop)]
pub struct Owners {
    /// The user who owns the object.
    pub owner: Name,
    /// The group that owns the object.
    pub group: Name,
}

impl Caller {
    /// Whether the caller has this name.
    pub fn is_user(&self, name: &Name) -> bool
        ensures { result ≡ is_user self.now name.now }
    {
        match &self.user {
            None => false,
            Some(user) => user.as_str() == name.as_str(),
        }
    }

    /// Whether the caller has a name and is in the group.
    pub fn is_in(&self, group: &Name) -> bool
        ensures { result ≡ is_member self.now group.now }
    {
        self.user.is_some() && self.groups.contains(group)
    }
}

impl Owners {
    /// A copy.
    pub fn copy(&self) -> Result<Owners, AllocError>
        ensures { IfOk result (λ copy. copy ≡ self.now) }
    {
        Ok(Owners {
            owner: self.owner.copy()?,
            group: self.group.copy()?,
        })
    }
}
