//! Objects by their numbers, and an index of their places.
ghost use Rattle.std.specs.Prelude.{
  ◌≡◌,
  ◌<◌,
  ◌≤◌,
  ◌+◌,
  ◌-◌,
  ◌^◌,
  ◌&&◌,
  [],
  ◌∷◌,
  ◌++◌,
  IsTrue,
  Some,
  None,
  IfOk,
  OnOk,
  OnErr,
  MatchOption,
  IfSome,
  IfNone,
  false,
  map,
  filter,
  not,
  ◌==◌,
  is_some,
  string_bytes,
  option_and_then,
  true,
};
ghost use Rattle.std.specs.BTreeMap.{IsOrdered, insert_entry};
ghost use Rattle.std.specs.Ordering.{nat_cmp};
ghost use Rattle.std.specs.Option.{option_copied, option_map, option_map_or, option_to_list};
ghost use Rattle.room_entry.specs.Valid.{is_document};
ghost use Rattle.room_entry.specs.Pieces.{same_text};
ghost use Rattle.room_rows.specs.Content.{has_parent, is_empty, put_node, sorted_by_name};
ghost use Rattle.room_rows.specs.Finding.{find_id, find_named, first_root};
ghost use Rattle.room_memory.specs.Objects.{
  StandsAsBefore,
  greatest,
  has_object,
  named_kind,
  place_of,
};
ghost use Rattle.room_memory.specs.Places.{standing, text_place};

use crate::places::{Place, Places, place_at};
use room_entry::ObjKind;
use room_rows::{Listing, Node, Nodes, Numbers, Text};
use std::alloc::{AllocError, Global};
use std::collections::BTreeMap;
use std::marker::Model;

/// Objects by their numbers. A contract sees the list of them, in rising order of their numbers.
#[derive(Drop)]
pub(crate) struct ObjectMap {
    by_number: BTreeMap<u64, Node>,
    places: Places,
}

impl Model for ObjectMap {
    ghost use Rattle.std.specs.Prelude.{List};
    ghost use Rattle.std.specs.BTreeMap.{values};
    ghost use Rattle.room_rows.specs.declared.node.Node.{Node};
    ghost use Rattle.room_memory.specs.Objects.{AreTied};

    ghost Value = { List Node };

    ghost view = { λ o. values o.by_number };

    ghost invariant = { λ o. AreTied o.by_number.entries o.places.ids.entries };
}

// Whether the object has this parent and this name.
fn stands_at(node: &Node, parent: u64, name: &str) -> bool
    ensures { result ≡ (has_parent parent node.now && same_text node.now.name name.now) }
{
    node.parent == Some(parent) && node.name.as_str() == name
}

// A copy of the object, if there is one.
fn copy_of(node: Option<&Node>) -> Result<Option<Node>, AllocError>
    ensures { IfOk result (λ copy. copy ≡ option_copied node.entry) }
{
    match node {
        Some(node) => Ok(Some(node.copy()?)),
        None => Ok(None),
    }
}

// Adds a copy of the object, if there is one.
fn push_copy(found: &mut Nodes, node: Option<&Node>) -> Result<(), AllocError>
    ensures { OnOk result (found.new ≡ found.old ++ option_to_list (option_copied node.entry)) }
{
    match node {
        Some(node) => found.push(node.copy()?),
        None => Ok(()),
    }
}

// Adds the name and the kind of the object, if there is one.
fn push_named(found: &mut Vec<(Text, ObjKind)>, node: Option<&Node>) -> Result<(), AllocError>
    ensures { OnOk result (found.new.items ≡
        found.old.items ++ map named_kind (option_to_list (option_copied node.entry))) }
{
    match node {
        Some(node) => found.push((node.name.copy()?, node.kind))?,
        None => {}
    }
    Ok(())
}

// Puts the object in the place of the one of its number, which takes no memory.
fn put_in(by_number: &mut BTreeMap<u64, Node>, node: Node)
    requires { IsTrue (has_object node.id by_number.old.entries) }
    ensures entries { by_number.new.entries ≡
        insert_entry nat_cmp by_number.old.entries node.id node }
    ensures ordered { IsOrdered nat_cmp by_number.new }
{
    let _ = by_number.insert(node.id, node);
}

impl ObjectMap {
    /// The objects of which this one, without a parent, is the only one.
    pub(crate) fn new(alloc: Global, root: Node) -> Result<ObjectMap, AllocError>
        requires number { 0 < root.id }
        requires parent { root.parent ≡ None }
        ensures { IfOk result (λ objects. objects ≡ root ∷ []) }
    {
        let mut by_number = BTreeMap::new(alloc);
        by_number.insert(root.id, root)?;
        Ok(ObjectMap {
            by_number,
            places: Places::new(alloc),
        })
    }

    /// A copy.
    pub(crate) fn copy(&self) -> Result<ObjectMap, AllocError>
        ensures { IfOk result (λ copy. copy ≡ self.now) }
    {
        Ok(ObjectMap {
            by_number: self.by_number.clone()?,
            places: self.places.copy()?,
        })
    }

    /// A copy of the object of this number.
    pub(crate) fn at(&self, id: u64) -> Result<Option<Node>, AllocError>
        ensures { IfOk result (λ found. found ≡ find_id id self.now) }
    {
        copy_of(self.by_number.get(&id))
    }

    // The object of this number, if it stands there.
    fn standing(&self, id: u64, parent: u64, name: &str) -> Option<&Node>
        ensures { option_copied result ≡ standing id parent name.now self.now }
    {
        match self.by_number.get(&id) {
            Some(node) => {
                if stands_at(node, parent, name) {
                    Some(node)
                } else {
                    None
                }
            }
            None => None,
        }
    }

    // The object at this place.
    fn found(&self, place: &Place) -> Option<&Node>
        ensures { option_copied result ≡
            find_named place.now.0 (string_bytes place.now.1) self.now }
    {
        let _ = &self.by_number;
        match self.places.at(place) {
            Some(id) => self.standing(id, place.0, place.1.as_str()),
            None => None,
        }
    }

    /// A copy of the object of this parent and name.
    pub(crate) fn named(
        &self,
        alloc: Global,
        parent: u64,
        name: &str,
    ) -> Result<Option<Node>, AllocError>
        ensures { IfOk result (λ found. found ≡ find_named parent name.now self.now) }
    {
        let place = place_at(alloc, parent, name)?;
        copy_of(self.found(&place))
    }

    /// The place of this name under this parent, if there is a parent and no object stands there.
    pub(crate) fn free(
        &self,
        alloc: Global,
        parent: Option<u64>,
        name: &str,
    ) -> Result<Option<Place>, AllocError>
        ensures free { IfOk result (λ found.
            IfSome found (λ place. find_named place.0 name.now self.now ≡ None)) }
        ensures place { IfOk result (λ found. IfSome found
            (λ place. (Some place.0 ≡ parent) × (string_bytes place.1 ≡ name.now))) }
        ensures taken { IfOk result (λ found. IfNone found
            (IfSome parent (λ p. is_some (find_named p name.now self.now) ≡ true))) }
    {
        let Some(parent) = parent else {
            return Ok(None);
        };
        let place = place_at(alloc, parent, name)?;
        if self.found(&place).is_some() {
            return Ok(None);
        }
        Ok(Some(place))
    }

    /// Whether the object of this number is a document.
    pub(crate) fn has_document(&self, id: u64) -> bool
        ensures { result ≡
            option_map_or (λ node. is_document node.kind) (find_id id self.now) false }
    {
        match self.by_number.get(&id) {
            Some(node) => node.is_document(),
            None => false,
        }
    }

    /// Copies of the objects under the parent, in order of name.
    pub(crate) fn children(&self, alloc: Global, parent: u64) -> Result<Nodes, AllocError>
        ensures { IfOk result (λ found. found ≡
            sorted_by_name (filter (has_parent parent) self.now)) }
    {
        let mut found = Nodes::new(alloc);
        for (place, id) in self.places.under(alloc, parent)? {
            if place.0 != parent {
                continue;
            }
            push_copy(&mut found, self.standing(*id, parent, place.1.as_str()))?;
        }
        Ok(found)
    }

    /// The names and kinds of the objects under the parent, in order of name.
    pub(crate) fn listing(&self, alloc: Global, parent: u64) -> Result<Listing, AllocError>
        ensures { IfOk result (λ found. found ≡
            map named_kind (sorted_by_name (filter (has_parent parent) self.now))) }
    {
        let mut found = Vec::new(alloc);
        for (place, id) in self.places.under(alloc, parent)? {
            if place.0 != parent {
                continue;
            }
            push_named(&mut found, self.standing(*id, parent, place.1.as_str()))?;
        }
        Ok(Listing::from_vec(found))
    }

    /// Whether there are objects under the parent.
    pub(crate) fn has_children(&self, alloc: Global, parent: u64) -> Result<bool, AllocError>
        ensures { IfOk result (λ has. has ≡
            not (is_empty (sorted_by_name (filter (has_parent parent) self.now)))) }
    {
        for (place, id) in self.places.under(alloc, parent)? {
            if place.0 == parent && self.standing(*id, parent, place.1.as_str()).is_some() {
                return Ok(true);
            }
        }
        Ok(false)
    }

    /// All numbers, rising.
    pub(crate) fn numbers(&self, alloc: Global) -> Result<Numbers, AllocError>
        ensures { IfOk result (λ ids. ids ≡ map (λ node. node.id) self.now) }
    {
        let mut ids = Numbers::new(alloc);
        for node in self.by_number.values() {
            ids.push(node.id)?;
        }
        Ok(ids)
    }

    /// A copy of the object without a parent that has the least number.
    pub(crate) fn first_root(&self) -> Result<Option<Node>, AllocError>
        ensures { IfOk result (λ found. found ≡ first_root self.now) }
    {
        for node in self.by_number.values() {
            if node.parent.is_none() {
                return Ok(Some(node.copy()?));
            }
        }
        Ok(None)
    }

    /// One more than the greatest number, if it fits a u64.
    pub(crate) fn next_number(&self) -> Option<u64>
        ensures { MatchOption result (2 ^ 64 ≤ greatest self.now + 1)
            (λ next. next ≡ greatest self.now + 1) }
    {
        match self.by_number.last_key_value() {
            Some((last, _)) => last.checked_add(1),
            None => Some(1),
        }
    }

    // The place of the object of this number, if it has a parent.
    fn place_of(&self, alloc: Global, id: u64) -> Result<Option<Place>, AllocError>
        ensures { IfOk result (λ place.
            option_map text_place place ≡ option_and_then place_of (find_id id self.now)) }
    {
        match self.by_number.get(&id) {
            Some(node) => match node.parent {
                Some(parent) => Ok(Some(place_at(alloc, parent, node.name.as_str())?)),
                None => Ok(None),
            },
            None => Ok(None),
        }
    }

    /// Adds the object at this place, where none stands.
    pub(crate) fn add(&mut self, place: Place, node: Node) -> Result<(), AllocError>
        requires number { 0 < node.id }
        requires new { find_id node.id self.old ≡ None }
        requires parent { node.parent ≡ Some place.0 }
        requires name { string_bytes place.1 ≡ node.name }
        requires free { find_named place.0 node.name self.old ≡ None }
        ensures ok { OnOk result (self.new ≡ put_node node self.old) }
        ensures err { OnErr result (self.new ≡ self.old) }
    {
        self.places.put(place, node.id)?;
        self.by_number.insert(node.id, node)?;
        Ok(())
    }

    /// Puts the object in the place of the one of its number, which has the same parent and name.
    pub(crate) fn replace(&mut self, node: Node)
        requires { StandsAsBefore node self.old }
        ensures { self.new ≡ put_node node self.old }
    {
        put_in(&mut self.by_number, node);
    }

    /// Puts the object in the place of the one of its number, and at another place, where none
    /// stands.
    pub(crate) fn place(
        &mut self,
        alloc: Global,
        place: Place,
        node: Node,
    ) -> Result<(), AllocError>
        requires there { is_some (find_id node.id self.old) ≡ true }
        requires parent { node.parent ≡ Some place.0 }
        requires name { string_bytes place.1 ≡ node.name }
        requires free { find_named place.0 node.name self.old ≡ None }
        ensures ok { OnOk result (self.new ≡ put_node node self.old) }
        ensures err { OnErr result (self.new ≡ self.old) }
    {
        let before = self.place_of(alloc, node.id)?;
        self.places.move_to(before, place, node.id)?;
        put_in(&mut self.by_number, node);
        Ok(())
    }

    /// Removes the object of this number, and answers whether there was one.
    pub(crate) fn take(&mut self, alloc: Global, id: u64) -> Result<bool, AllocError>
        ensures found { IfOk result (λ was. was ≡ is_some (find_id id self.old)) }
        ensures ok { OnOk result (self.new ≡ filter (λ node. not (node.id == id)) self.old) }
        ensures err { OnErr result (self.new ≡ self.old) }
    {
        let place = self.place_of(alloc, id)?;
        self.places.take(&place);
        Ok(self.by_number.remove(&id).is_some())
    }
}
