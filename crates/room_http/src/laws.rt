//! Laws of the stream.
ghost use Rattle.room_http.specs.Laws.{MessageUnique};

/// Bytes begin with one message at most, and with one rest after it.
pub fn message_unique()
    ensures { MessageUnique }
{}
