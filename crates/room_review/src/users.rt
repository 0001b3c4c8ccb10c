//! The names that a review has rows of.
ghost use Rattle.std.specs.Prelude.{◌≡◌, ◌≤◌, [], ◌∷◌, IfOk, IsTrue, MatchOption, OnOk, decimal};
ghost use Rattle.std.specs.Prelude.{false, length, map, true};
ghost use Rattle.std.specs.List.{flat_map, insert, list_all};
ghost use Rattle.room_entry.specs.Names.{is_name};
ghost use Rattle.room_review.specs.Users.{Gathers, are_apart, is_listed, user_in, users_at};

use room_ace::{Entry, Failure, Name, Who, read_name};
use room_rows::Node;
use std::alloc::{AllocError, Global};
use std::cmp::Ordering;
use std::marker::Model;

/// Names in order of their bytes, each once. A contract sees the list of them.
#[derive(Drop)]
pub struct Users {
    items: Vec<Name>,
}

impl Model for Users {
    ghost use Rattle.std.specs.Prelude.{List, ℕ, IsTrue};
    ghost use Rattle.std.specs.List.{list_all};
    ghost use Rattle.room_entry.specs.Names.{is_name};
    ghost use Rattle.room_review.specs.Users.{are_apart};

    ghost Value = { List (List ℕ) };

    ghost view = { λ u. u.items.items };

    ghost invariant = { λ u.
        IsTrue (are_apart u.items.items) × IsTrue (list_all is_name u.items.items) };
}

impl Users {
    /// No names.
    pub fn new(alloc: Global) -> Users
        ensures { result ≡ [] }
    {
        Users {
            items: Vec::new(alloc),
        }
    }

    /// Tells a proof that the names rise, and that each is one.
    pub fn is_known(&self)
        ensures apart { IsTrue (are_apart self.now) }
        ensures valid { IsTrue (list_all is_name self.now) }
    {
        let _items = &self.items;
    }

    /// The names as a slice.
    pub fn as_slice(&self) -> &[Name]
        ensures { result.now ≡ self.now }
    {
        self.items.as_slice()
    }

    /// Adds the users of pairs of group and user.
    pub fn add_paired(&mut self, pairs: &[(Name, Name)]) -> Result<(), AllocError>
        ensures { OnOk result (Gathers self.old (map (λ pair. pair.1) pairs.now) self.new) }
    {
        for pair in pairs {
            self.add(&pair.1)?;
        }
        Ok(())
    }

    /// Adds the owner of an object, and the users whom its dacl names.
    pub fn add_users_at(&mut self, node: &Node) -> Result<(), AllocError>
        ensures { OnOk result (Gathers self.old (users_at node.now) self.new) }
    {
        self.add(&node.owners.owner)?;
        self.add_listed(node.dacl.full())
    }

    /// Adds the users whom the entries name.
    pub fn add_listed(&mut self, entries: &[Entry]) -> Result<(), AllocError>
        ensures { OnOk result (Gathers self.old
            (flat_map (λ entry. user_in entry.who) entries.now) self.new) }
    {
        for entry in entries {
            self.add_named(entry.who())?;
        }
        Ok(())
    }

    // Adds the user who is named, if one is.
    fn add_named(&mut self, who: &Who) -> Result<(), AllocError>
        ensures { OnOk result (Gathers self.old (user_in who.now) self.new) }
    {
        match who {
            Who::User(name) => self.add(name),
            Who::Owner | Who::Group | Who::Everyone => Ok(()),
            Who::Anonymous | Who::Authenticated | Who::Members(_) => Ok(()),
        }
    }

    /// Adds a name.
    pub fn add(&mut self, name: &Name) -> Result<(), AllocError>
        ensures { OnOk result (Gathers self.old (name.now ∷ []) self.new) }
    {
        match place_for(&self.items, name) {
            None => Ok(()),
            Some(place) => Ok(self.items.insert(place, name.copy()?)?),
        }
    }
}

// The place of a name that is to be added, or none where it is there.
//
// Names are compared one by one: each of them costs a table far more than a step to its place.
fn place_for(names: &[Name], name: &Name) -> Option<usize>
    requires apart { IsTrue (are_apart names.now) }
    requires valid { IsTrue (list_all is_name names.now) }
    ensures { MatchOption result (is_listed name.now names.now ≡ true) (λ place.
        (place ≤ length names.now) × IsTrue (are_apart (insert names.now place name.now))
        × IsTrue (list_all is_name (insert names.now place name.now))) }
{
    name.is_known();
    for (place, other) in names.iter().enumerate() {
        match other.as_str().cmp(name.as_str()) {
            Ordering::Less => {}
            Ordering::Equal => return None,
            Ordering::Greater => return Some(place),
        }
    }
    Some(names.len())
}

/// A name that isn't among the users: the first number that isn't. There are more numbers than
/// users, so one is found.
pub fn stranger_to(alloc: Global, users: &Users) -> Result<Name, AllocError>
    ensures { IfOk result (λ name. is_listed name users.now ≡ false) }
{
    let names = users.as_slice();
    for number in 0..names.len() {
        let name = numbered(alloc, number)?;
        if !is_listed(names, &name) {
            return Ok(name);
        }
    }
    numbered(alloc, names.len())
}

// The number as a name.
fn numbered(alloc: Global, number: usize) -> Result<Name, AllocError>
    ensures { IfOk result (λ name. name ≡ decimal number) }
{
    let text = number.to_string(alloc)?;
    match read_name(alloc, text.as_str()) {
        Ok(name) => Ok(name),
        Err(Failure::OutOfMemory) => Err(AllocError),
        Err(Failure::Fault(_)) => unreachable!(),
    }
}

// Whether the name is among these.
fn is_listed(names: &[Name], name: &Name) -> bool
    ensures { result ≡ is_listed name.now names.now }
{
    names.iter().any(|other| other.as_str() == name.as_str())
}
