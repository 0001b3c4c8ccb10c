//! Laws of paths, and of sets of pairs.
ghost use Rattle.room_rows.specs.Laws.{PathReadsBack, SetOfPairs};

/// The text of a path is read as that path.
pub fn path_reads_back()
    ensures { PathReadsBack }
{}

/// A set of pairs is in order, each pair once, and has the pairs that it was made of and no others.
pub fn set_of_pairs()
    ensures { SetOfPairs }
{}
