//! What is asked of two states of a room.

use room_review::Party;
use room_rows::{Numbers, Path};

/// What is asked of two states of a room, in which the same object has the same number.
#[derive(Drop)]
pub struct Asked {
    /// The callers, in the order of their rows.
    pub parties: Vec<Party>,
    /// The path of the first object, in the state after. All below it follow.
    pub path: Path,
    /// The objects whose lists aren't known before. Nothing is known of what is below them.
    pub hidden_before: Numbers,
    /// The objects whose lists aren't known after.
    pub hidden_after: Numbers,
    /// The objects that each caller would have made itself, and then owns.
    pub own: Numbers,
    /// Whether nothing is changed: a row then repeats the folder's where the caller may do the same
    /// there, and not only where both say that nothing changes.
    pub looks: bool,
}
