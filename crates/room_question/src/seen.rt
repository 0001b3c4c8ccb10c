//! Which paths the objects of a question stand at.
ghost use Rattle.std.specs.Prelude.{◌≡◌, ◌∷◌, ◌++◌, [], IfOk, List, OnOk, ℕ, string_bytes};
ghost use Rattle.std.specs.List.{list_any};
ghost use Rattle.std.specs.Str.{bytes_eq};
ghost use Rattle.room_rows.specs.Paths.{path_text};
ghost use Rattle.room_question.specs.Reading.{folder_texts, has_folder, path_texts, place_fault};
ghost use Rattle.room_question.specs.Seen.{HasSeen, HasTexts};
ghost use Rattle.room_question.specs.declared.question.Object.{Object};

use crate::fault::QuestionWhy;
use crate::question::Object;
use room_ace::ObjKind;
use std::alloc::{AllocError, Global};
use std::collections::BTreeSet;

/// The texts of the paths of objects, and of those of folders, so that one is found fast.
#[derive(Drop)]
pub(crate) struct Seen {
    pub(crate) paths: BTreeSet<String>,
    pub(crate) folders: BTreeSet<String>,
}

impl Seen {
    /// Of no objects.
    pub(crate) fn new(alloc: Global) -> Seen
        ensures { HasSeen result [] }
    {
        Seen {
            paths: BTreeSet::new(alloc),
            folders: BTreeSet::new(alloc),
        }
    }

    /// Why an object can't stand where it is said to, if it can't.
    pub(crate) fn place_fault(
        &self,
        alloc: Global,
        object: &Object,
    ) -> Result<Option<QuestionWhy>, AllocError>
        ensures { (objects : List Object) → HasSeen self.now objects
            → IfOk result (λ why. why ≡ place_fault objects object.now) }
    {
        let text = object.path.to_text(alloc)?;
        if self.paths.contains(text.as_str()) {
            return Ok(Some(QuestionWhy::Exists));
        }
        if self.may_stand_below(alloc, object)? {
            Ok(None)
        } else {
            Ok(Some(QuestionWhy::NoFolder))
        }
    }

    // Whether the object is the root, or stands below a folder that was seen.
    fn may_stand_below(&self, alloc: Global, object: &Object) -> Result<bool, AllocError>
        ensures { (objects : List Object) → HasSeen self.now objects
            → IfOk result (λ may. may ≡ has_folder objects object.now) }
    {
        let names = object.path.names().len();
        if names == 0 {
            return Ok(object.kind == ObjKind::Folder);
        }
        let text = object.path.front_text(alloc, names - 1)?;
        Ok(self.folders.contains(text.as_str()))
    }

    /// Of one object more.
    pub(crate) fn with(self, alloc: Global, object: &Object) -> Result<Seen, AllocError>
        ensures { (objects : List Object) → HasSeen self objects
            → IfOk result (λ seen. HasSeen seen (objects ++ object.now ∷ [])) }
    {
        let Seen { paths, folders } = self;
        let text = object.path.to_text(alloc)?;
        let paths = with_text(paths, text)?;
        if object.kind == ObjKind::Document {
            return Ok(Seen { paths, folders });
        }
        let text = object.path.to_text(alloc)?;
        let folders = with_text(folders, text)?;
        Ok(Seen { paths, folders })
    }
}

// The set with a text more.
fn with_text(set: BTreeSet<String>, text: String) -> Result<BTreeSet<String>, AllocError>
    ensures { (texts : List (List ℕ)) → HasTexts set texts
        → IfOk result (λ more. HasTexts more (texts ++ string_bytes text ∷ [])) }
{
    let mut more = set;
    let _added = more.insert(text)?;
    Ok(more)
}
