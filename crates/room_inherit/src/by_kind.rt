//! Numbers of objects by their kinds.
ghost use Rattle.std.specs.Prelude.{◌≡◌, ◌+◌, ◌++◌, ◌∷◌, [], OnOk, if◌then◌else◌};
ghost use Rattle.room_inherit.specs.Turn.{count_of, is_kind, of_kind};

use room_ace::ObjKind;
use std::alloc::{AllocError, Global};

/// The numbers of documents, and those of folders.
#[derive(Drop)]
pub(crate) struct ByKind {
    pub(crate) documents: Vec<u64>,
    pub(crate) folders: Vec<u64>,
}

impl ByKind {
    /// No numbers.
    pub(crate) fn new(alloc: Global) -> ByKind
        ensures { (kind : ObjKind) → of_kind result kind ≡ [] }
    {
        ByKind {
            documents: Vec::new(alloc),
            folders: Vec::new(alloc),
        }
    }

    /// Adds the number of an object of this kind after the others.
    pub(crate) fn add(&mut self, kind: ObjKind, id: u64) -> Result<(), AllocError>
        ensures added { OnOk result ((each : ObjKind) → of_kind self.new each
            ≡ of_kind self.old each ++ (if is_kind each kind then id ∷ [] else [])) }
        ensures one { OnOk result (count_of self.new ≡ count_of self.old + 1) }
    {
        match kind {
            ObjKind::Document => self.documents.push(id)?,
            ObjKind::Folder => self.folders.push(id)?,
        }
        Ok(())
    }

    /// How many there are.
    pub(crate) fn count(&self) -> u64
        ensures { result ≡ count_of self.now }
    {
        self.documents.len() as u64 + self.folders.len() as u64
    }
}
