//! Laws of a review: what a row says is what the room would answer.
ghost use Rattle.room_review.specs.Laws.{OthersAreStrangers, SaysCan, SaysRemove};
ghost use Rattle.room_review.specs.Laws.{StarSpeaksForOthers, StrangersAlike};
ghost use Rattle.room_review.specs.Laws.{StrangersGetTheSame, TableSaysRights};
ghost use Rattle.room_review.specs.LookedUp.{TableIsTheRoom};

/// The rights of a row are exactly those that `Can` answers as allowed.
pub fn says_can()
    ensures { SaysCan }
{}

/// An object may be removed exactly where `Remove` passes its rights.
pub fn says_remove()
    ensures { SaysRemove }
{}

/// All names that a room doesn't know have the same rights.
pub fn strangers_are_alike()
    ensures { StrangersAlike }
{}

/// All names that a room doesn't know get the same replies.
pub fn strangers_get_the_same()
    ensures { StrangersGetTheSame }
{}

/// In sound rows a table says of each object what the room would answer at its path.
pub fn table_says_rights()
    ensures { TableSaysRights }
{}

/// A name without rows in a table is a stranger to each of its objects.
pub fn others_are_strangers()
    ensures { OthersAreStrangers }
{}

/// A table says of `*` at each object what it would say of every name without rows.
pub fn star_speaks_for_others()
    ensures { StarSpeaksForOthers }
{}

/// What is looked up in a table is what the room allows: no object is missing, no caller, and no
/// row that says something else than the one above.
pub fn table_is_the_room()
    ensures { TableIsTheRoom }
{}
