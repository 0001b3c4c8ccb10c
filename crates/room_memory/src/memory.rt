//! A keeper in memory.
ghost use Rattle.std.specs.Prelude.{
  ◌≡◌,
  ◌≤◌,
  ◌+◌,
  [],
  ◌∷◌,
  None,
  false,
  length,
  IfErr,
  IfOk,
  OnOk,
  OnErr,
};
ghost use Rattle.std.proofs.Common.{arith};
ghost use Rattle.room_rows.specs.Calls.{Reads, Writes, WritesOf};
ghost use Rattle.room_rows.specs.Counts.{capped_ends, capped_rises};
ghost use Rattle.room_rows.specs.Finding.{find_id};
ghost use Rattle.room_rows.specs.Held.{with_held};
ghost use Rattle.room_rows.specs.Keep.{
  Adds,
  AreChildrenOf,
  AreGroupsOf,
  AreNamedUnder,
  AreNumbers,
  Changes,
  ChangesAll,
  HasChildren,
  HasNoRoot,
  IsBodyOf,
  IsChildOf,
  IsNever,
  IsNodeAt,
  IsRootOf,
  IsUnreadable,
  IsUnreadableAt,
  Leaves,
  Notes,
  Places,
  Removes,
  SetsBody,
  capped,
  with_bytes,
  with_inh,
  with_owners,
  with_place,
};
ghost use Rattle.room_rows.specs.Rows.{AreRows};
ghost use Rattle.room_rows.specs.declared.keep.KeepFault.TheVariants.{Memory};
ghost use Rattle.room_memory.specs.Memory.{
  CannotAdd,
  CannotPlace,
  FailsBy,
  HasMembers,
  Inherits,
  ReadsAlone,
  ReadsRoot,
  StoreWhereFull,
  are_found,
  memory_rows,
  root_alone,
  root_node,
  rows_in,
  without_pair,
};
ghost use Rattle.room_memory.specs.Objects.{greatest, has_document};

use crate::bodies::Bodies;
use crate::lists::{PairSet, Records};
use crate::objects::ObjectMap;
use room_entry::{Entry, Name, Names, ObjKind, Owners, Which};
use room_rows::{
    AuditRow, Bytes, Held, Keep, KeepFault, Listing, NewNode, Node, Nodes, Numbers, Text,
    count_all, count_one, failed,
};
use std::alloc::{AllocError, Global};

/// A keeper of ordered maps: the objects by number, their numbers by parent and name, and the bytes
/// of documents by number. A call that can't be done, as adding a name that is taken, answers
/// `Store`.
#[derive(Drop)]
pub struct MemKeep {
    alloc: Global,
    nodes: ObjectMap,
    bodies: Bodies,
    members: PairSet,
    notes: Records,
    failures: u64,
    writes: u64,
}

// The root, a folder of number 1.
fn root_node(alloc: Global, owners: &Owners, dacl: &Held, sacl: &Held) -> Result<Node, AllocError>
    ensures { IfOk result (λ root. root ≡ root_node owners.now dacl.now sacl.now) }
{
    Ok(Node {
        id: 1,
        parent: None,
        name: Text::new(alloc),
        kind: ObjKind::Folder,
        owners: owners.copy()?,
        dacl: dacl.copy()?,
        sacl: sacl.copy()?,
    })
}

// Objects of which the root is the only one.
fn root_objects(
    alloc: Global,
    owners: &Owners,
    dacl: &Held,
    sacl: &Held,
) -> Result<ObjectMap, AllocError>
    ensures { IfOk result (λ objects. objects ≡ root_node owners.now dacl.now sacl.now ∷ []) }
{
    ObjectMap::new(alloc, root_node(alloc, owners, dacl, sacl)?)
}

// The object with another list of this kind.
fn held_changed(node: Node, which: Which, held: &Held) -> Result<Node, AllocError>
    ensures { IfOk result (λ new. new ≡ with_held which held.now node) }
{
    let mut node = node;
    node.set_held(which, held.copy()?);
    Ok(node)
}

// The object with other inherited entries in the list of this kind.
fn inh_changed(
    alloc: Global,
    node: Node,
    which: Which,
    entries: &[Entry],
) -> Result<Node, AllocError>
    ensures { IfOk result (λ new. new ≡ with_inh which entries.now node) }
{
    let mut node = node;
    let held = node.held(which).with_inh(alloc, entries)?;
    node.set_held(which, held);
    Ok(node)
}

// The object with other owners.
fn owners_changed(node: Node, owners: &Owners) -> Result<Node, AllocError>
    ensures { IfOk result (λ new. new ≡ with_owners owners.now node) }
{
    let mut node = node;
    node.owners = owners.copy()?;
    Ok(node)
}

// The object with another parent and another name.
fn place_changed(alloc: Global, node: Node, parent: u64, name: &str) -> Result<Node, AllocError>
    ensures { IfOk result (λ new. new ≡ with_place parent name.now node) }
{
    let mut node = node;
    node.parent = Some(parent);
    node.name = Text::from_str(alloc, name)?;
    Ok(node)
}

// Writes the inherited entries of this object, and answers whether it is there.
fn inherit(
    alloc: Global,
    nodes: &mut ObjectMap,
    id: u64,
    which: Which,
    entries: &[Entry],
) -> Result<bool, AllocError>
    ensures { Inherits (id ∷ []) which entries.now nodes.old nodes.new result }
{
    let Some(node) = nodes.at(id)? else {
        return Ok(false);
    };
    nodes.replace(inh_changed(alloc, node, which, entries)?);
    Ok(true)
}

// The same of each of these objects, up to one that isn't there.
fn inherit_all(
    alloc: Global,
    nodes: &mut ObjectMap,
    ids: &[u64],
    which: Which,
    entries: &[Entry],
) -> Result<bool, AllocError>
    ensures { Inherits ids.now which entries.now nodes.old nodes.new result }
{
    'ids: for id in ids {
        if !inherit(alloc, nodes, *id, which, entries)? {
            return Ok(false);
        }
    }
    Ok(true)
}

impl MemKeep {
    /// A keeper whose only object is the root, a folder of number 1 with these owners and lists.
    pub fn new(
        alloc: Global,
        owners: &Owners,
        dacl: &Held,
        sacl: &Held,
    ) -> Result<MemKeep, AllocError>
        ensures rows { IfOk result (λ keep. rows_in keep ≡
            root_alone owners.now dacl.now sacl.now) }
        ensures failures { IfOk result (λ keep. keep.failures ≡ 0) }
        ensures writes { IfOk result (λ keep. keep.writes ≡ 0) }
        ensures trusted { IfOk result (λ keep. AreRows (rows_in keep)) }
    {
        Ok(MemKeep {
            alloc,
            nodes: root_objects(alloc, owners, dacl, sacl)?,
            bodies: Bodies::new(alloc),
            members: PairSet::new(alloc),
            notes: Records::new(alloc),
            failures: 0,
            writes: 0,
        })
    }

    /// A copy, also of the counts of failures and writes.
    pub fn copy(&self) -> Result<MemKeep, AllocError>
        ensures { IfOk result (λ copy. copy ≡ self.now) }
    {
        Ok(MemKeep {
            alloc: self.alloc,
            nodes: self.nodes.copy()?,
            bodies: self.bodies.copy()?,
            members: self.members.copy()?,
            notes: self.notes.copy()?,
            failures: self.failures,
            writes: self.writes,
        })
    }

    /// Adds a pair of group and user, if it isn't there.
    pub fn join(&mut self, group: &Name, user: &Name) -> Result<(), AllocError>
        ensures ok { OnOk result
            (HasMembers ((group.now, user.now) ∷ (rows_in self.old).read.members)
            self.old self.new) }
        ensures err { OnErr result (self.new ≡ self.old) }
    {
        self.members.join(group, user)
    }

    /// Removes the pair of group and user, if it is there.
    pub fn leave(&mut self, group: &Name, user: &Name)
        ensures { HasMembers (without_pair (group.now, user.now) (rows_in self.old).read.members)
            self.old self.new }
    {
        self.members.leave(group, user);
    }

    /// The records, oldest first.
    pub fn notes(&self) -> &[AuditRow]
        ensures { result.now ≡ (rows_in self.now).read.audits }
    {
        self.notes.as_slice()
    }
}

impl Keep for MemKeep {
    ghost rows = { λ k. memory_rows k.nodes k.bodies k.members k.notes };

    ghost failures = { λ k. capped k.failures };

    ghost writes = { λ k. capped k.writes };

    // It doesn't count the calls that read.
    ghost reads = { λ k. 0 };

    ghost Follows = { λ a b. (a.failures ≤ b.failures) × (a.writes ≤ b.writes) ×
        (AreRows (memory_rows a.nodes a.bodies a.members a.notes) →
        AreRows (memory_rows b.nodes b.bodies b.members b.notes)) };

    ghost IsTrusted = { λ a b. AreRows (memory_rows a.nodes a.bodies a.members a.notes) };

    ghost laws = { record {
      itself = λ a. (Prim.omega arith, Prim.omega arith, λ h. h);
      on = λ a b c p q.
          (Prim.omega (arith, p.0, q.0), Prim.omega (arith, p.1, q.1), λ h. q.2 (p.2 h));
      rise = λ a b p. capped_rises _ _ p.0;
      grow = λ a b p. capped_rises _ _ p.1;
      ends = λ a. (capped_ends _, capped_ends _);
      first = λ a b c p q t. t;
      last = λ a b c p q t. p.2 t;
      are = λ a b t. t;
    } };

    fn root(&mut self) -> Result<Node, KeepFault>
        ensures read { Reads ⟦<MemKeep as Keep>⟧ self.old self.new result
            HasNoRoot IsRootOf }
        ensures alone { ReadsRoot self.old self.new result }
    {
        match self.nodes.first_root()? {
            Some(node) => Ok(node),
            None => Err(KeepFault::NoRoot),
        }
    }

    fn ids(&mut self) -> Result<Numbers, KeepFault>
        ensures read { Reads ⟦<MemKeep as Keep>⟧ self.old self.new result
            IsNever AreNumbers }
        ensures alone { ReadsAlone self.old self.new result }
    {
        Ok(self.nodes.numbers(self.alloc)?)
    }

    fn node(&mut self, id: u64) -> Result<Option<Node>, KeepFault>
        ensures read { Reads ⟦<MemKeep as Keep>⟧ self.old self.new result
            (IsUnreadableAt id) (IsNodeAt id) }
        ensures alone { ReadsAlone self.old self.new result }
    {
        Ok(self.nodes.at(id)?)
    }

    fn child(&mut self, parent: u64, name: &str) -> Result<Option<Node>, KeepFault>
        ensures read { Reads ⟦<MemKeep as Keep>⟧ self.old self.new result
            IsUnreadable (IsChildOf parent name.now) }
        ensures alone { ReadsAlone self.old self.new result }
    {
        Ok(self.nodes.named(self.alloc, parent, name)?)
    }

    fn children(&mut self, parent: u64) -> Result<Nodes, KeepFault>
        ensures read { Reads ⟦<MemKeep as Keep>⟧ self.old self.new result
            IsUnreadable (AreChildrenOf parent) }
        ensures alone { ReadsAlone self.old self.new result }
    {
        Ok(self.nodes.children(self.alloc, parent)?)
    }

    fn listing(&mut self, parent: u64) -> Result<Listing, KeepFault>
        ensures read { Reads ⟦<MemKeep as Keep>⟧ self.old self.new result
            IsUnreadable (AreNamedUnder parent) }
        ensures alone { ReadsAlone self.old self.new result }
    {
        Ok(self.nodes.listing(self.alloc, parent)?)
    }

    fn has_children(&mut self, parent: u64) -> Result<bool, KeepFault>
        ensures read { Reads ⟦<MemKeep as Keep>⟧ self.old self.new result
            IsUnreadable (HasChildren parent) }
        ensures alone { ReadsAlone self.old self.new result }
    {
        Ok(self.nodes.has_children(self.alloc, parent)?)
    }

    fn body(&mut self, id: u64) -> Result<Option<Bytes>, KeepFault>
        ensures read { Reads ⟦<MemKeep as Keep>⟧ self.old self.new result
            IsNever (IsBodyOf id) }
        ensures alone { ReadsAlone self.old self.new result }
    {
        Ok(self.bodies.at(id)?)
    }

    fn groups_of(&mut self, user: &Name) -> Result<Names, KeepFault>
        ensures read { Reads ⟦<MemKeep as Keep>⟧ self.old self.new result
            IsNever (AreGroupsOf user.now) }
        ensures alone { ReadsAlone self.old self.new result }
    {
        Ok(self.members.groups_of(self.alloc, user)?)
    }

    fn add(&mut self, node: NewNode, bytes: &[u8]) -> Result<u64, KeepFault>
        ensures written { Writes ⟦<MemKeep as Keep>⟧ self.old self.new result
            IsUnreadable (Adds (with_bytes node bytes.now)) }
        ensures number { IfOk result (λ id. id ≡ greatest self.old.nodes + 1) }
        ensures fails { IfErr result (FailsBy (CannotAdd node self.old.nodes)) }
        ensures full { IfErr result (StoreWhereFull self.old.nodes) }
    {
        let Some(id) = self.nodes.next_number() else {
            return Err(failed(&mut self.failures));
        };
        let Some(place) = self
            .nodes
            .free(self.alloc, node.parent, node.name.as_str())?
        else {
            return Err(failed(&mut self.failures));
        };
        let kind = node.kind;
        let object = node.at_number(id);
        self.nodes.add(place, object)?;
        self.bodies.put_new(self.alloc, id, kind, bytes)?;
        count_one(&mut self.writes);
        Ok(id)
    }

    fn set_held(&mut self, id: u64, which: Which, held: &Held) -> Result<(), KeepFault>
        ensures written { Writes ⟦<MemKeep as Keep>⟧ self.old self.new result
            IsUnreadable (Leaves (Changes id (with_held which held.now))) }
        ensures fails { IfErr result (FailsBy (find_id id self.old.nodes ≡ None)) }
    {
        let Some(node) = self.nodes.at(id)? else {
            return Err(failed(&mut self.failures));
        };
        self.nodes.replace(held_changed(node, which, held)?);
        count_one(&mut self.writes);
        Ok(())
    }

    fn set_inh(&mut self, id: u64, which: Which, entries: &[Entry]) -> Result<(), KeepFault>
        ensures written { Writes ⟦<MemKeep as Keep>⟧ self.old self.new result
            IsUnreadable (Leaves (Changes id (with_inh which entries.now))) }
        ensures fails { IfErr result (FailsBy (find_id id self.old.nodes ≡ None)) }
    {
        let Some(node) = self.nodes.at(id)? else {
            return Err(failed(&mut self.failures));
        };
        self.nodes
            .replace(inh_changed(self.alloc, node, which, entries)?);
        count_one(&mut self.writes);
        Ok(())
    }

    fn set_inh_all(&mut self, ids: &[u64], which: Which, entries: &[Entry]) -> Result<(), KeepFault>
        ensures written { WritesOf ⟦<MemKeep as Keep>⟧ self.old self.new result (length ids.now)
            IsUnreadable (Leaves (ChangesAll ids.now (with_inh which entries.now))) }
        ensures fails { IfErr result (FailsBy (are_found ids.now self.old.nodes ≡ false)) }
    {
        if !inherit_all(self.alloc, &mut self.nodes, ids, which, entries)? {
            return Err(failed(&mut self.failures));
        }
        count_all(&mut self.writes, ids.len() as u64);
        Ok(())
    }

    fn set_owners(&mut self, id: u64, owners: &Owners) -> Result<(), KeepFault>
        ensures written { Writes ⟦<MemKeep as Keep>⟧ self.old self.new result
            IsUnreadable (Leaves (Changes id (with_owners owners.now))) }
        ensures fails { IfErr result (FailsBy (find_id id self.old.nodes ≡ None)) }
    {
        let Some(node) = self.nodes.at(id)? else {
            return Err(failed(&mut self.failures));
        };
        self.nodes.replace(owners_changed(node, owners)?);
        count_one(&mut self.writes);
        Ok(())
    }

    fn set_place(&mut self, id: u64, parent: u64, name: &str) -> Result<(), KeepFault>
        ensures written { Writes ⟦<MemKeep as Keep>⟧ self.old self.new result
            IsUnreadable (Leaves (Places id parent name.now)) }
        ensures fails { IfErr result (FailsBy (CannotPlace id parent name.now self.old.nodes)) }
    {
        let Some(place) = self.nodes.free(self.alloc, Some(parent), name)? else {
            return Err(failed(&mut self.failures));
        };
        let Some(node) = self.nodes.at(id)? else {
            return Err(failed(&mut self.failures));
        };
        let node = place_changed(self.alloc, node, parent, name)?;
        self.nodes.place(self.alloc, place, node)?;
        count_one(&mut self.writes);
        Ok(())
    }

    fn remove(&mut self, id: u64) -> Result<(), KeepFault>
        ensures written { Writes ⟦<MemKeep as Keep>⟧ self.old self.new result
            IsUnreadable (Leaves (Removes id)) }
        ensures fails { IfErr result (FailsBy (find_id id self.old.nodes ≡ None)) }
    {
        let was_there = self.nodes.take(self.alloc, id)?;
        self.bodies.take(id);
        if !was_there {
            return Err(failed(&mut self.failures));
        }
        count_one(&mut self.writes);
        Ok(())
    }

    fn set_body(&mut self, id: u64, bytes: &[u8]) -> Result<(), KeepFault>
        ensures written { Writes ⟦<MemKeep as Keep>⟧ self.old self.new result
            IsUnreadable (Leaves (SetsBody id bytes.now)) }
        ensures fails { IfErr result (FailsBy (has_document id self.old.nodes ≡ false)) }
    {
        if !self.nodes.has_document(id) {
            return Err(failed(&mut self.failures));
        }
        let bytes = Bytes::from_vec(Vec::from_slice(self.alloc, bytes)?);
        self.bodies.put(id, bytes)?;
        count_one(&mut self.writes);
        Ok(())
    }

    fn note(&mut self, row: AuditRow) -> Result<(), KeepFault>
        ensures written { Writes ⟦<MemKeep as Keep>⟧ self.old self.new result
            IsNever (Leaves (Notes row)) }
        ensures fails { IfErr result (λ fault. fault ≡ Memory) }
    {
        self.notes.push(row)?;
        count_one(&mut self.writes);
        Ok(())
    }
}
