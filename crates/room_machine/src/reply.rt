//! What the rooms answer.

use room_ace::{Entries, Entry, Items, ListFault, ListFlags, Mask, ObjKind, Owners};
use room_eval::Ruling;
use room_rows::{Bytes, Listing, Path};

/// Why a request is refused.
#[derive(Clone, Copy, Debug, PartialEq, Eq)]
pub enum Reason {
    /// There is no object at the path.
    NoSuch,
    /// An object on the way is no folder.
    NotFolder,
    /// The object is a folder where a document is asked for, or the other way round.
    WrongKind,
    /// There is an object at the path already.
    Exists,
    /// The folder has children.
    NotEmpty,
    /// The root is neither removed nor moved.
    Root,
    /// A folder would come to stand below itself.
    Loop,
    /// The entry at the place, counted from 1, may not stand in the list.
    BadList { place: usize, fault: ListFault },
    /// A document would have more than 1,048,576 bytes.
    TooLarge,
}

/// The ruling of each bit that was asked.
pub type Rulings = Items<(Mask, Ruling)>;

/// The reply to a caller.
#[derive(Drop)]
pub enum Reply {
    /// The bytes of a document.
    Bytes(Bytes),
    /// The names and kinds of a folder's children, in order of name.
    Names(Listing),
    /// The flags of a list, and its entries as they count: the own ones, then the inherited ones.
    Lists(ListFlags, Entries),
    /// The kind of an object, and its owners.
    Attr(ObjKind, Owners),
    /// What the dacl says of each bit that was asked.
    Rulings(Rulings),
    /// A new object was made.
    Made,
    /// The change was made.
    Done,
    /// The object at this path doesn't grant these bits, because of the entry at the place, counted
    /// from 1, or because no entry grants them.
    Denied {
        at: Path,
        bits: Mask,
        place: Option<usize>,
        entry: Option<Entry>,
    },
    /// The request can't be carried out, because of what was found at this path.
    Refused {
        at: Path,
        why: Reason,
    },
}
