//! How much a name, a list and a document may hold.

/// The most bytes that a name has on either side of its `@`.
pub const LONGEST_PART: usize = 64;

/// The most entries that a list may be sent with.
pub const MOST_ENTRIES: usize = 4096;

/// The most entries without INHERITED that a list may be sent with.
pub const MOST_OWN: usize = 64;

/// The most bytes that a document has, and that the input of `check` has.
pub const MOST_BYTES: usize = 1_048_576;
