//! A law of what is counted.
ghost use Rattle.cli_answer.specs.Counting.{GroupsOfPairs};

/// The groups that are counted are those of the pairs, each once, in the order in which each comes
/// first.
pub fn groups_of_pairs()
    ensures { GroupsOfPairs }
{}
