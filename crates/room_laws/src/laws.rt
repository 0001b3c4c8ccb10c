//! Laws over runs of the room machine: what happens behind a folder and who can't tell, and what
//! changes who may do what.
ghost use Rattle.room_laws.specs.WhoChanged.{ChangedBy, ChangedInRun, NothingGained};
ghost use Rattle.room_laws.specs.WhoChanged.{RightsChangedBy, RightsChangedInRun, RightsFollow};
ghost use Rattle.room_laws.specs.WhoChanged.{RightsStay};
ghost use Rattle.room_laws.specs.Laws.{NothingElseTells, SameFullLists, SameReplies};
ghost use Rattle.room_laws.specs.Laws.{StaysAlike, StaysBehind, UnseenBehind};
ghost use Rattle.room_laws.specs.Tidy.{ContentIsTidy, StaysTidy};
ghost use Rattle.room_laws.specs.Twins.{Unseen};

/// Over two runs, each as it happened: two rooms that differ behind a folder alone answered the
/// same to who was barred from it, and to whoever asked for nothing behind it.
pub fn unseen()
    ensures { Unseen }
{}

/// What is behind a folder doesn't show in the replies to who is barred from it.
pub fn same_replies()
    ensures { SameReplies }
{}

/// Of what is behind a folder nothing else shows than its names, to who may list it, and whether
/// there are any, to who may remove it.
pub fn nothing_else_tells()
    ensures { NothingElseTells }
{}

/// What happens behind a folder, or changes nothing, changes nothing outside.
pub fn stays_behind()
    ensures { StaysBehind }
{}

/// Whatever happened behind a folder doesn't show in later replies.
pub fn unseen_behind()
    ensures { UnseenBehind }
{}

/// What two rooms have in common outside a folder stays so by the same request.
pub fn stays_alike()
    ensures { StaysAlike }
{}

/// What is the same outside has the same full lists, computed from the root.
pub fn same_full_lists()
    ensures { SameFullLists }
{}

/// A content is tidy.
pub fn content_is_tidy()
    ensures { ContentIsTidy }
{}

/// Whatever happens, a tidy content stays so.
pub fn stays_tidy()
    ensures { StaysTidy }
{}

/// Over runs: callers who may change nothing at a path or above it change nobody's rights there, by
/// whatever requests.
pub fn nothing_gained()
    ensures { NothingGained }
{}

/// Over runs: everybody may do at a path what they might, or some event changed it, with the right
/// that was granted for it.
pub fn rights_changed_in_run()
    ensures { RightsChangedInRun }
{}

/// Only these events change what anybody may do at a path, each with the right that was granted for
/// it.
pub fn rights_changed_by()
    ensures { RightsChangedBy }
{}

/// Who reads, appends, or sets a list of audits changes nobody's rights.
pub fn rights_stay()
    ensures { RightsStay }
{}

/// Over runs: what rights at a path depend on is as it was, or some event changed it, with the
/// right that was granted for it.
pub fn changed_in_run()
    ensures { ChangedInRun }
{}

/// Where something is, only these events change what rights depend on, each with the right that was
/// granted for it.
pub fn changed_by()
    ensures { ChangedBy }
{}

/// What everybody may do at a path follows from the pairs and the objects down to it.
pub fn rights_follow()
    ensures { RightsFollow }
{}
