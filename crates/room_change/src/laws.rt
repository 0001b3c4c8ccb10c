//! Laws of changes: what is worked out of a piece of a room, before a request, is what holds in the
//! room after it.
ghost use Rattle.room_change.specs.Laws.{AfterTheMaking, AfterTheRequest, APieceSaysAsMuch};
ghost use Rattle.room_change.specs.Laws.{LikeOnesAreAlike, NearestRowSays};

/// After a request that sets a dacl or moves, each caller may do what it may do after the change
/// that was asked for.
pub fn after_the_request()
    ensures { AfterTheRequest }
{}

/// After a request that made an object, each caller may do what it may do after that object came.
pub fn after_the_making()
    ensures { AfterTheMaking }
{}

/// A piece of a room that has the objects on the way to a path says of each caller there what the
/// room says.
pub fn a_piece_says_as_much()
    ensures { APieceSaysAsMuch }
{}

/// Of objects of one folder that follow it, with the same kind and owners, each grants the same.
pub fn like_ones_are_alike()
    ensures { LikeOnesAreAlike }
{}

/// Where a row is left out that says what the one above says, the nearest row says it.
pub fn nearest_row_says()
    ensures { NearestRowSays }
{}
