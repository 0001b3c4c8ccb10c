//! What a question says.

use room_ace::{Items, Name, Names, ObjKind, SentList};
use room_rows::Path;

/// What is asked: a piece of a room, who may be asking, and what is to change.
#[derive(Drop)]
pub struct Question {
    /// Who is in which group: pairs of a group and a user.
    pub members: Items<(Name, Name)>,
    /// Callers beside those whom the pairs, the owners and the lists name.
    pub supposed: Items<Supposed>,
    /// The objects as they stand, in the order of their lines. The first is the root, a folder; each
    /// other stands below a folder that comes before it, and no path comes twice.
    pub objects: Items<Object>,
    /// What is changed, in this order.
    pub changes: Items<Change>,
    /// The objects whose rows are asked for as they are. Where there are any, nothing is changed.
    pub looks: Items<Look>,
    /// Whether the list of each object that was set, moved or has come is asked for too.
    pub lists: bool,
}

/// A caller who may be.
#[derive(Drop)]
pub struct Supposed {
    /// What its rows are called.
    pub label: Name,
    /// Its name, or none for a name that nothing names.
    pub user: Option<Name>,
    /// The groups that it is in.
    pub groups: Names,
}

/// An object that is there, or that comes.
#[derive(Drop)]
pub struct Object {
    /// Its line of the question, counted from 1.
    pub line: usize,
    /// Whether it is a folder or a document.
    pub kind: ObjKind,
    /// Who owns it.
    pub owner: Owner,
    /// The owning group, or none where it isn't known.
    pub group: Option<Name>,
    /// Where it stands.
    pub path: Path,
    /// Its dacl.
    pub list: Listed,
}

/// Who owns an object.
#[derive(Drop)]
pub enum Owner {
    /// This user.
    User(Name),
    /// It isn't known.
    Unread,
    /// Each caller alike, as if they had made it themselves.
    Each,
}

/// What is known of an object's dacl.
#[derive(Drop)]
pub enum Listed {
    /// It has no entry of its own, isn't protected, and that of a folder is passed on.
    Follows,
    /// Nothing.
    Unread,
    /// All of it, as the room answers it.
    Text(SentList),
}

/// A change.
#[derive(Drop)]
pub enum Change {
    /// A dacl is set.
    Sets(Setting),
    /// An object is moved, with all in it.
    Moves(Moving),
    /// An object comes, put back or as a copy.
    Comes(Object),
}

/// A dacl that is set.
#[derive(Drop)]
pub struct Setting {
    /// Its line of the question, counted from 1.
    pub line: usize,
    /// The object whose dacl it is.
    pub path: Path,
    /// The list that is sent.
    pub list: SentList,
}

/// An object that is moved.
#[derive(Drop)]
pub struct Moving {
    /// Its line of the question, counted from 1.
    pub line: usize,
    /// Where it stands.
    pub path: Path,
    /// Where it comes to.
    pub to: Path,
}

/// An object whose rows are asked for.
#[derive(Drop)]
pub struct Look {
    /// Its line of the question, counted from 1.
    pub line: usize,
    /// Where it stands.
    pub path: Path,
}
