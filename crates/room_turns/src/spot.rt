//! An object with all callers at it.
ghost use Rattle.std.specs.Prelude.{◌≡◌, IfOk};

use room_ace::{Items, Mask, ObjKind};
use room_review::standing::Standing;
use room_rows::Text;
use std::alloc::{AllocError, Global};

/// A caller at an object, and what the caller could do with it in the earlier state.
#[derive(Drop)]
pub(crate) struct Stand {
    /// The caller at the object in this state.
    pub(crate) standing: Standing,
    /// The rights in the earlier state.
    pub(crate) had_rights: Mask,
    /// Whether the caller could remove it in the earlier state.
    pub(crate) had_remove: bool,
    /// Whether the folder's row says it already.
    pub(crate) repeats: bool,
}

/// All callers at an object, in their order.
pub(crate) type Stands = Items<Stand>;

/// An object with all callers at it.
#[derive(Drop)]
pub(crate) struct Spot {
    /// Whether it is known in this state.
    pub(crate) known: bool,
    /// Whether it is known in both states.
    pub(crate) clear: bool,
    /// Whether the folder that it stands in, if there is one, is known in both states.
    pub(crate) follows: bool,
    /// All callers at it.
    pub(crate) stands: Stands,
}

/// An object that a walk came to, and all callers at it.
#[derive(Drop)]
pub(crate) struct Told {
    /// Its number.
    pub(crate) id: u64,
    /// The text of its path, which is empty for the root.
    pub(crate) path: Text,
    /// Whether it is a folder or a document.
    pub(crate) kind: ObjKind,
    /// All callers at it.
    pub(crate) spot: Spot,
}

impl Stand {
    // A copy.
    fn copy(&self) -> Stand
        ensures { result ≡ self.now }
    {
        Stand {
            standing: Standing {
                rights: self.standing.rights,
                remove: self.standing.remove,
                opens: self.standing.opens,
                keeps: self.standing.keeps,
                repeats: self.standing.repeats,
            },
            had_rights: self.had_rights,
            had_remove: self.had_remove,
            repeats: self.repeats,
        }
    }
}

impl Spot {
    /// A copy.
    pub(crate) fn copy(&self, alloc: Global) -> Result<Spot, AllocError>
        ensures { IfOk result (λ copy. copy ≡ self.now) }
    {
        Ok(Spot {
            known: self.known,
            clear: self.clear,
            follows: self.follows,
            stands: copy_stands(alloc, self.stands.as_slice())?,
        })
    }
}

// A copy of all callers at an object.
fn copy_stands(alloc: Global, stands: &[Stand]) -> Result<Stands, AllocError>
    ensures { IfOk result (λ copy. copy ≡ stands.now) }
{
    let mut copies = Vec::with_capacity(alloc, stands.len())?;
    for stand in stands {
        copies.push(stand.copy())?;
    }
    Ok(Stands::from_vec(copies))
}
