//! What walks find.

use room_rows::Node;

/// An object on the way along a path.
#[derive(Drop)]
pub struct Found {
    /// The object as it is kept.
    pub node: Node,
    /// After how many names of the path it was found, 0 for the root.
    pub depth: usize,
}

/// The folder of a path's last name, which grants EXECUTE, and what has that name in it, if
/// anything has.
#[derive(Drop)]
pub struct Under {
    /// The folder.
    pub folder: Found,
    /// What has the last name.
    pub child: Option<Node>,
}

/// The folder of a path's last name, which grants EXECUTE, and the object at the path.
#[derive(Drop)]
pub struct Both {
    /// The folder.
    pub folder: Found,
    /// The object.
    pub target: Found,
}
