//! Laws of answers: what their rows say is what reviews say of both rooms.
ghost use Rattle.room_turns.specs.Laws.{LookIsTheReview, RowsAreTheChange, RowsAreTheReview};
ghost use Rattle.room_turns.specs.Laws.{OwnRowsAreTheReview, RowsRepeat};

/// In sound rooms, the rows of each object say of each caller what a review says of the room before
/// and of the room after, each at the path where the object stands there.
pub fn rows_are_the_review()
    ensures { RowsAreTheReview }
{}

/// Where some objects are each caller's own, the rows say it of the rooms in which the caller owns
/// them.
pub fn own_rows_are_the_review()
    ensures { OwnRowsAreTheReview }
{}

/// Where the state after is that of changes, the rows say what the changes make of each caller's
/// rights.
pub fn rows_are_the_change()
    ensures { RowsAreTheChange }
{}

/// Below the first object, the rows that are left out are those that say what the row above says,
/// or both that nothing changes.
pub fn rows_repeat()
    ensures { RowsRepeat }
{}

/// Where nothing is changed, the rows that stand are those of a review, and say the same.
pub fn look_is_the_review()
    ensures { LookIsTheReview }
{}
