//! What an object passes to children of each kind.
ghost use Rattle.std.specs.Prelude.{◌≡◌, IfOk};
ghost use Rattle.room_inherit.specs.Turn.{IsPassed, to_kind};

use crate::passing::pass;
use room_ace::{Entries, ObjKind};
use room_rows::Held;
use std::alloc::{AllocError, Global};

/// Whether the children of an object inherit at all, and which entries, by their kinds.
#[derive(Drop)]
pub(crate) struct Passed {
    pub(crate) auto: bool,
    to_documents: Entries,
    to_folders: Entries,
}

impl Passed {
    /// What a list passes.
    pub(crate) fn new(alloc: Global, held: &Held) -> Result<Passed, AllocError>
        ensures { IfOk result (IsPassed held.now) }
    {
        let to_documents = pass(alloc, ObjKind::Document, held.full())?;
        let to_folders = pass(alloc, ObjKind::Folder, held.full())?;
        Ok(Passed {
            auto: held.flags().auto,
            to_documents,
            to_folders,
        })
    }

    /// What it passes to a child of this kind.
    pub(crate) fn to(&self, kind: ObjKind) -> &Entries
        ensures { result.now ≡ to_kind self.now kind }
    {
        match kind {
            ObjKind::Document => &self.to_documents,
            ObjKind::Folder => &self.to_folders,
        }
    }
}
