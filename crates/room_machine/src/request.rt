//! What can be asked of the rooms.

use room_ace::{Mask, Owners, SentList, Which};
use room_rows::{Bytes, Path};

/// What a caller asks.
#[derive(Drop)]
pub enum Request {
    /// The bytes of a document.
    Read(Path),
    /// The names and kinds of a folder's children.
    List(Path),
    /// A document gets these bytes in place of those it has, or is made with them.
    Put(Path, Bytes),
    /// A document gets these bytes after those it has.
    Append(Path, Bytes),
    /// A folder is made.
    MakeFolder(Path),
    /// An object is removed. A folder has to be empty.
    Remove(Path),
    /// An object gets the place and the name that the second path says.
    Move(Path, Path),
    /// One list of an object, with its inherited entries.
    ReadList(Path, Which),
    /// One list of an object is replaced.
    SetList(Path, Which, SentList),
    /// The kind and the owners of an object.
    ReadAttr(Path),
    /// The owner and the owning group of an object are replaced.
    SetOwners(Path, Owners),
    /// The ruling of an object's dacl on each of these bits for the caller.
    Can(Path, Mask),
}
