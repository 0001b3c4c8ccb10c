//! What a piece says of the room after its changes.
ghost use Rattle.room_piece.specs.Laws.{ChangedAsAsked, StoodAsAsked};

/// A piece whose changes were done means the room that they make of it.
pub fn changed_as_asked()
    ensures { ChangedAsAsked }
{}

/// Each object of a piece whose changes were done stood, by its number, where they say that it came
/// from.
pub fn stood_as_asked()
    ensures { StoodAsAsked }
{}
