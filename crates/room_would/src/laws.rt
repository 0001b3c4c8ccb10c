//! Laws of answers.
ghost use Rattle.room_would.specs.Laws.{NobodyIsMissed, WouldIsTheReview};

/// What the rows of an answer say of a caller is what a review of the room says before the changes
/// that the question asks for, where each object came from, and what one says of the room after
/// them.
pub fn would_is_the_review()
    ensures { WouldIsTheReview }
{}

/// Whoever has no rows of their own in an answer is known nowhere in the room, before the changes
/// and after them.
pub fn nobody_is_missed()
    ensures { NobodyIsMissed }
{}
