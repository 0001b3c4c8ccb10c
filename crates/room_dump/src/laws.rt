//! Laws of the text of a room.
ghost use Rattle.room_dump.specs.Laws.{TextIsWhole};

/// The text of all objects is no deeper than there are rows, and leaves nothing out.
pub fn text_is_whole()
    ensures { TextIsWhole }
{}
