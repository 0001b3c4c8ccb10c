//! How much a question may hold.

/// The most bytes that a question has.
pub const MOST_QUESTION: usize = 4_194_304;

/// The most pairs of a group and a user.
pub const MOST_MEMBERS: usize = 20_000;

/// The most callers who may be.
pub const MOST_SUPPOSED: usize = 1_000;

/// The most objects, changes and looks together.
pub const MOST_PARTS: usize = 80_000;
