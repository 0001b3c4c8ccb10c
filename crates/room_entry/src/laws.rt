//! A law of names.
ghost use Rattle.room_entry.specs.Laws.{NamesAreText};

/// The bytes of a name are UTF-8.
pub fn names_are_text()
    ensures { NamesAreText }
{}
