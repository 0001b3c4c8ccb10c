//! What a review is asked, and what it answers.

use room_ace::Name;
use room_machine::Reason;
use room_rows::{Bytes, Node, Nodes, Path};

/// What a review is asked.
#[derive(Drop)]
pub struct Scope {
    /// The object whose rows stand first. Those of all below it follow.
    pub path: Path,
    /// The user whose rows are asked for, or none for those of all callers.
    pub user: Option<Name>,
    /// Whether rows stand that say the same as those of the folder above.
    pub all: bool,
}

/// What a review answers.
#[derive(Drop)]
pub enum Reviewed {
    /// The table, as comma-separated text.
    Table(Bytes),
    /// The path leads nowhere, because of what was found at this path.
    Refused { path: Path, why: Reason },
}

// Where a review starts: an object, the path to it, and the objects on the way.
#[derive(Drop)]
pub(crate) struct Start {
    pub(crate) path: Path,
    pub(crate) above: Nodes,
    pub(crate) node: Node,
}
