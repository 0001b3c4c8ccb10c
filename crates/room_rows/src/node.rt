//! Objects as they are kept.
ghost use Rattle.std.specs.Prelude.{◌≡◌, IfOk};
ghost use Rattle.room_entry.specs.Valid.{is_document};
ghost use Rattle.room_rows.specs.Held.{held_of, with_held};
ghost use Rattle.room_rows.specs.Keep.{node_of};

use crate::held::Held;
use crate::text::Text;
use room_entry::{Items, Mask, Name, ObjKind, Owners, Which};
use std::alloc::AllocError;

/// An object as it is kept. The root has no parent.
#[derive(Clone, Drop)]
pub struct Node {
    /// Its number, from 1 on.
    pub id: u64,
    /// The number of the folder that it stands in.
    pub parent: Option<u64>,
    /// Its name in that folder, empty for the root.
    pub name: Text,
    /// Whether it is a folder or a document.
    pub kind: ObjKind,
    /// Its owner and its owning group.
    pub owners: Owners,
    /// The list that access is judged by.
    pub dacl: Held,
    /// The list that records are kept by.
    pub sacl: Held,
}

/// An object that has no number yet.
#[derive(Drop)]
pub struct NewNode {
    /// The number of the folder that it is to stand in.
    pub parent: Option<u64>,
    /// Its name in that folder.
    pub name: Text,
    /// Whether it is a folder or a document.
    pub kind: ObjKind,
    /// Its owner and its owning group.
    pub owners: Owners,
    /// The list that access is judged by.
    pub dacl: Held,
    /// The list that records are kept by.
    pub sacl: Held,
}

/// Numbers of objects.
pub type Numbers = Items<u64>;

/// Objects in order.
pub type Nodes = Items<Node>;

/// The objects that a walk along a path found, from the root on, and how many names are left over.
#[derive(Drop)]
pub struct Walk {
    /// The objects, from the root on.
    pub chain: Nodes,
    /// How many names are left over.
    pub rest: usize,
}

/// One record: a check of these bits on the object at the path of this text had this outcome, and
/// the entry at this place of the object's sacl called for it.
#[derive(Clone, Drop)]
pub struct AuditRow {
    /// The moment, in seconds from 1970-01-01 00:00 UTC.
    pub at: i64,
    /// The caller's name, which an anonymous caller hasn't.
    pub user: Option<Name>,
    /// The text of the object's path.
    pub path: Text,
    /// The bits that were checked.
    pub bits: Mask,
    /// Whether they were granted.
    pub granted: bool,
    /// The place of the entry in the object's sacl, counted from 1.
    pub place: usize,
    /// The kind of the entry.
    pub kind: RecordKind,
}

/// The kind of the entry that called for a record.
#[derive(Clone, Copy, Debug, PartialEq, Eq)]
pub enum RecordKind {
    /// An audit entry.
    Audit,
    /// An alarm entry.
    Alarm,
}

impl Node {
    /// A copy.
    pub fn copy(&self) -> Result<Node, AllocError>
        ensures { IfOk result (λ copy. copy ≡ self.now) }
    {
        Ok(Node {
            id: self.id,
            parent: self.parent,
            name: self.name.copy()?,
            kind: self.kind,
            owners: self.owners.copy()?,
            dacl: self.dacl.copy()?,
            sacl: self.sacl.copy()?,
        })
    }

    /// Replaces the list of this kind.
    pub fn set_held(&mut self, which: Which, held: Held)
        ensures { self.new ≡ with_held which held self.old }
    {
        match which {
            Which::Dacl => self.dacl = held,
            Which::Sacl => self.sacl = held,
        }
    }

    /// Whether it is a document.
    pub fn is_document(&self) -> bool
        ensures { result ≡ is_document self.now.kind }
    {
        self.kind == ObjKind::Document
    }

    /// The list of this kind.
    pub fn held(&self, which: Which) -> &Held
        ensures { result.now ≡ held_of which self.now }
    {
        match which {
            Which::Dacl => &self.dacl,
            Which::Sacl => &self.sacl,
        }
    }
}

impl NewNode {
    /// The object with this number.
    pub fn at_number(self, id: u64) -> Node
        ensures { result ≡ node_of id self }
    {
        let NewNode {
            parent,
            name,
            kind,
            owners,
            dacl,
            sacl,
        } = self;
        Node {
            id,
            parent,
            name,
            kind,
            owners,
            dacl,
            sacl,
        }
    }
}
