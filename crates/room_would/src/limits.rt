//! How much may be worked out for an answer.

/// The most callers times objects.
pub const MOST_TURNS: usize = 4_000_000;
