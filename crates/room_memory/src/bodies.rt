//! The bytes of documents.
ghost use Rattle.std.specs.Prelude.{◌≡◌, [], IfOk, OnOk, OnErr, filter, not, ◌==◌, if◌then◌else◌};
ghost use Rattle.room_entry.specs.Valid.{is_document};
ghost use Rattle.room_rows.specs.Content.{body_at, put_body};

use room_entry::ObjKind;
use room_rows::Bytes;
use std::alloc::{AllocError, Global};
use std::collections::BTreeMap;
use std::marker::Model;

/// The bytes of documents by their numbers. A contract sees the pairs, in rising order of the
/// numbers.
#[derive(Drop)]
pub(crate) struct Bodies {
    items: BTreeMap<u64, Bytes>,
}

impl Model for Bodies {
    ghost use Rattle.std.specs.Prelude.{List, ℕ};
    ghost use Rattle.std.specs.BTreeMap.{IsOrdered};
    ghost use Rattle.std.specs.Ordering.{nat_cmp};

    ghost Value = { List (ℕ × List ℕ) };

    ghost view = { λ b. b.items.entries };

    ghost invariant = { λ b. IsOrdered nat_cmp b.items };
}

impl Bodies {
    pub(crate) fn new(alloc: Global) -> Bodies
        ensures { result ≡ [] }
    {
        Bodies {
            items: BTreeMap::new(alloc),
        }
    }

    /// A copy.
    pub(crate) fn copy(&self) -> Result<Bodies, AllocError>
        ensures { IfOk result (λ copy. copy ≡ self.now) }
    {
        Ok(Bodies {
            items: self.items.clone()?,
        })
    }

    /// A copy of the bytes of this number.
    pub(crate) fn at(&self, id: u64) -> Result<Option<Bytes>, AllocError>
        ensures { IfOk result (λ found. found ≡ body_at self.now id) }
    {
        match self.items.get(&id) {
            Some(bytes) => Ok(Some(bytes.copy()?)),
            None => Ok(None),
        }
    }

    /// Stores the bytes under this number.
    pub(crate) fn put(&mut self, id: u64, bytes: Bytes) -> Result<(), AllocError>
        ensures ok { OnOk result (self.new ≡ put_body id bytes self.old) }
        ensures err { OnErr result (self.new ≡ self.old) }
    {
        self.items.insert(id, bytes)?;
        Ok(())
    }

    /// Stores a copy of the bytes under this number if the kind is that of a document.
    pub(crate) fn put_new(
        &mut self,
        alloc: Global,
        id: u64,
        kind: ObjKind,
        bytes: &[u8],
    ) -> Result<(), AllocError>
        ensures ok { OnOk result
            (self.new ≡ (if is_document kind then put_body id bytes.now self.old else self.old)) }
        ensures err { OnErr result (self.new ≡ self.old) }
    {
        match kind {
            ObjKind::Document => self.put(id, Bytes::from_slice(alloc, bytes)?),
            ObjKind::Folder => Ok(()),
        }
    }

    /// Removes the bytes of this number, if there are any.
    pub(crate) fn take(&mut self, id: u64)
        ensures { self.new ≡ filter (λ row. not (row.0 == id)) self.old }
    {
        self.items.remove(&id);
    }
}
