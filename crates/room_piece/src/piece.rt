//! A piece of a room.
ghost use Rattle.std.specs.Prelude.{◌≡◌, IfOk};

use room_ace::Items;
use room_memory::MemKeep;
use room_rows::Numbers;
use std::alloc::AllocError;

/// A piece of a room, as far as it is known.
#[derive(Drop)]
pub struct Piece {
    /// Its objects, and who is in which group.
    pub keep: MemKeep,
    /// The numbers of the objects that each caller is to have made themselves.
    pub each: Numbers,
    /// The numbers of objects whose lists aren't known. Of these objects, and of all below them,
    /// nothing can be said.
    pub unknown: Numbers,
}

/// A copy.
pub(crate) fn copy_of(numbers: &Numbers) -> Result<Numbers, AllocError>
    ensures { IfOk result (λ copy. copy ≡ numbers.now) }
{
    numbers.clone()
}

impl Piece {
    /// A copy, in which each object has the number that it has here.
    pub fn copy(&self) -> Result<Piece, AllocError>
        ensures { IfOk result (λ copy. copy ≡ self.now) }
    {
        Ok(Piece {
            keep: self.keep.copy()?,
            each: copy_of(&self.each)?,
            unknown: copy_of(&self.unknown)?,
        })
    }
}
