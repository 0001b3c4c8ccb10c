//! Laws of the text of questions.
ghost use Rattle.room_question.specs.Laws.{ObjectsStand};

/// The first object of a question that is read is the root, a folder; each other stands in a folder
/// that comes before it; and no path comes twice.
pub fn objects_stand()
    ensures { ObjectsStand }
{}
