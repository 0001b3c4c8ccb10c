//! Laws of the room machine.
ghost use Rattle.room_machine.specs.Run.{ClosedRunsMeet, RunsMeet};
ghost use Rattle.room_machine.specs.Laws.{AnswersNeedRoot, Hides, HidesStored, ReadsOnly};
ghost use Rattle.room_machine.specs.Laws.{SomeFree};

/// Two runs that meet are one run.
pub fn two_runs_meet()
    ensures { RunsMeet }
{}

/// On rows that needn't be sound too.
pub fn closed_runs_meet()
    ensures { ClosedRunsMeet }
{}

/// The reply to a request that only reads depends on what is along its path, on the caller's groups
/// and on the bytes and children of its target.
pub fn reads_only()
    ensures { ReadsOnly }
{}

/// Where the way to a request's path is denied, what lies below doesn't show.
pub fn hides()
    ensures { Hides }
{}

/// The same on damaged rows, by the lists as they are stored.
pub fn hides_stored()
    ensures { HidesStored }
{}

/// Where no object is without a parent, no request gets a reply but `MakeFolder /`, which is
/// refused.
pub fn answers_need_a_root()
    ensures { AnswersNeedRoot }
{}

/// Some number is free, so the machine can always step.
pub fn some_free()
    ensures { SomeFree }
{}
