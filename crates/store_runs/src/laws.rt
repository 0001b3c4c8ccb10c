//! Laws of lists of calls.
//!
//! Here too, 'at any moment' of a call stands on the argument about power cuts that
//! `docs/statement.md` has among its premises.
ghost use Rattle.std.specs.Prelude.{List, ℕ};
ghost use Rattle.sqlite.specs.Held.{Held, state};
ghost use Rattle.sqlite.specs.State.{HasCleanDisk};
ghost use Rattle.sqlite.specs.Tree.{Trees};
ghost use Rattle.room_store.specs.Crash.{OutlastsOn, Try, all_asked, all_happened, left_by};
ghost use Rattle.room_store.specs.Leads.{Call, FollowsOn, all_events, last_of};
ghost use Rattle.store_runs.specs.Alike.{
  AnswerAlike,
  Beside,
  LiveAlike,
  first_at_end,
  second_at_end,
  turns_of,
};
ghost use Rattle.store_runs.specs.Rules.{TablesKeepRules};
ghost use Rattle.store_runs.specs.Rights.{CrashGainsNothing, GainsNothing, GrantsChanges};

use room_inherit::laws::sound_is_content;
use room_laws::laws::{content_is_tidy, nothing_gained, rights_changed_in_run, unseen};
use room_machine::laws::two_runs_meet;
use room_store::laws::{a_crash_leaves_whole_requests, calls_are_a_run};
use sqlite::Alter;

/// Two stores whose rooms differ behind a folder alone answer the same over any lists of calls, to
/// who is barred from it, and to whoever asks for nothing behind it.
pub fn unseen_in_stores<S: Alter, T: Alter>()
    ensures { (front : List (List ℕ)) (first : Held S) (second : Held T)
        (turns : List (Beside S T))
        → LiveAlike (state S.Store) (state T.Store) front first second turns
        → AnswerAlike front (turns_of turns) (state S.Store first) (state T.Store second)
        (state S.Store (first_at_end first turns)) (state T.Store (second_at_end second turns)) }
{
    unseen();
    content_is_tidy();
    sound_is_content();
}

/// Over any list of calls: callers who may change nothing at a path or above it change nobody's
/// rights there.
pub fn nothing_gained_in_a_store<S: Alter>()
    ensures { (path : List (List ℕ)) (first : Held S) (calls : List (Call S))
        → FollowsOn (state S.Store) first calls
        → GainsNothing path (state S.Store first) (all_events calls)
        (state S.Store (last_of first calls)) }
{
    calls_are_a_run::<S>();
    nothing_gained();
    content_is_tidy();
    sound_is_content();
}

/// Over any list of calls, at any moment, during the last call too: nor does a crash change
/// anybody's rights there.
pub fn nothing_gained_by_a_crash<S: Alter>()
    ensures { (path : List (List ℕ)) (first : Held S) (calls : List (Try S))
        → OutlastsOn (state S.Store) first calls
        → CrashGainsNothing path (state S.Store first) (all_asked calls) (all_happened calls)
        (state S.Store (left_by first calls)) }
{
    a_crash_leaves_whole_requests::<S>();
    two_runs_meet();
    nothing_gained();
    content_is_tidy();
    sound_is_content();
}

/// Over any list of calls: everybody may do at a path what they might, or some call changed it,
/// with the right that was granted for it.
pub fn rights_changed_in_a_store<S: Alter>()
    ensures { (path : List (List ℕ)) (first : Held S) (calls : List (Call S))
        → FollowsOn (state S.Store) first calls
        → GrantsChanges path (state S.Store first) (all_events calls)
        (state S.Store (last_of first calls)) }
{
    calls_are_a_run::<S>();
    rights_changed_in_run();
    content_is_tidy();
    sound_is_content();
}

/// Where the disk has returned what was written, a crash may leave something, whether a fault has
/// shut the connection or not. So what is said of all that it may leave isn't said of nothing.
pub fn a_crash_leaves_something<S: Alter>()
    ensures { (held : Held S) → HasCleanDisk (state S.Store held)
        → ∥ ((db : Trees) × (state S.Store held).may_leave db) ∥₁ }
{}

/// What a database that obeys its schema is, for the tables of a room: cells of the kinds of their
/// columns, references to what is there, and no key twice.
pub fn tables_keep_rules()
    ensures { TablesKeepRules }
{}
