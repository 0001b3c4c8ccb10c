//! Laws of a room that is served.
ghost use Rattle.std.specs.Prelude.{List, ℕ};
ghost use Rattle.sqlite.specs.Held.{Held, state};
ghost use Rattle.cli_act.specs.Acting.{Acts, CommitsTask};
ghost use Rattle.cli_outcome.specs.declared.listen.ListenAddress.{ListenAddress};
ghost use Rattle.cli_serve.specs.Hosts.{IsHosted, IsTurnedDown};
ghost use Rattle.cli_words.specs.declared.judging.Task.{Task};
ghost use Rattle.room_store.specs.Crash.{Lasts};
ghost use Rattle.store_tables.specs.Within.{LeavesOrCommits};
ghost use Rattle.cli_runs.specs.Alike.{ServersAnswerAlike, ServersAnswerTheSame};
ghost use Rattle.cli_runs.specs.Gains.{ServingChangesByRight};
ghost use Rattle.cli_runs.specs.Sent.{ExchangesAreBytes};
ghost use Rattle.cli_runs.specs.Uses.{
  AnswerAlikeOver,
  ChangeByRight,
  Did,
  Follow,
  IsDone,
  LeaveWholeRequests,
  Served,
  StayClosed,
  TurnedDown,
  Use,
};

use cli_listen::{Moments, Ports};
use room_inherit::laws::{sound_is_content, sound_is_no_fault};
use room_laws::laws::{
    changed_by, content_is_tidy, nothing_gained, rights_changed_by, stays_behind, stays_tidy,
    unseen,
};
use room_machine::laws::two_runs_meet;
use sqlite::Alter;
use std::io::Write;

/// While a server runs, whoever asks for whatever: each message that is answered leaves everybody's
/// rights as they were, at every path, or its caller had the right to alter them when it came. In
/// what a power cut leaves, so it is of a message that got no answer.
pub fn each_change_by_serving<S: Alter, P: Ports, M: Moments, O: Write, E: Write>()
    ensures { (address : ListenAddress) (count : ℕ) (clock after : M) (ports closed : P)
        (old new : Held S) (out printed : O) (err told : E) (status : ℕ)
        (hosted : IsHosted (state S.Store) address count (M.told clock) (M.told after) (P.did ports)
        (P.did closed) old new (O.contents out) (O.contents printed) (E.contents err)
        (E.contents told) status)
        → ServingChangesByRight (state S.Store old) hosted.served.visits (state S.Store new) }
{
    rights_changed_by();
    changed_by();
    nothing_gained();
    stays_tidy();
    content_is_tidy();
    sound_is_content();
}

/// Two servers whose rooms differ behind a folder alone answer the same to whoever is barred from
/// it or asks for nothing behind it, but for the names in the folder to who lists it: whatever comes
/// to one of them alone that is behind the folder, or changes nothing, and however connections bring
/// it. It is so up to any message, whatever comes later.
pub fn unseen_by_serving<S: Alter, T: Alter, P: Ports, M: Moments, O: Write, E: Write>()
    ensures { (front : List (List ℕ)) (address : ListenAddress) (count : ℕ)
        (clock after : M) (ports closed : P)
        (old new : Held S) (out printed : O) (err told : E) (status : ℕ)
        (hosted : IsHosted (state S.Store) address count (M.told clock) (M.told after) (P.did ports)
        (P.did closed) old new (O.contents out) (O.contents printed) (E.contents err)
        (E.contents told) status)
        (address' : ListenAddress) (count' : ℕ) (clock' after' : M) (ports' closed' : P)
        (other later : Held T)
        (out' printed' : O) (err' told' : E) (status' : ℕ)
        (beside : IsHosted (state T.Store) address' count' (M.told clock') (M.told after')
        (P.did ports') (P.did closed') other later (O.contents out') (O.contents printed')
        (E.contents err') (E.contents told') status')
        → ServersAnswerAlike front (state S.Store old) hosted.served.visits (state S.Store new)
        (state T.Store other) beside.served.visits (state T.Store later) }
{
    unseen();
    stays_behind();
    stays_tidy();
    content_is_tidy();
    sound_is_content();
}

/// Two servers on the same room that answered the same messages first gave the same replies to
/// these, and had the same room then, whatever each answered later. So a server that a fault of its
/// listener ends has answered what another one has up to there that goes on, and keeps the room that
/// this one has there.
pub fn same_messages_get_the_same<S: Alter, T: Alter, P: Ports, M: Moments, O: Write, E: Write>()
    ensures { (address : ListenAddress) (count : ℕ) (clock after : M) (ports closed : P)
        (old new : Held S) (out printed : O) (err told : E) (status : ℕ)
        (hosted : IsHosted (state S.Store) address count (M.told clock) (M.told after) (P.did ports)
        (P.did closed) old new (O.contents out) (O.contents printed) (E.contents err)
        (E.contents told) status)
        (address' : ListenAddress) (count' : ℕ) (clock' after' : M) (ports' closed' : P)
        (other later : Held T)
        (out' printed' : O) (err' told' : E) (status' : ℕ)
        (beside : IsHosted (state T.Store) address' count' (M.told clock') (M.told after')
        (P.did ports') (P.did closed') other later (O.contents out') (O.contents printed')
        (E.contents err') (E.contents told') status')
        → ServersAnswerTheSame (state S.Store old) hosted.served.visits (state S.Store new)
        (state T.Store other) beside.served.visits (state T.Store later) }
{
    unseen();
    stays_behind();
    stays_tidy();
    content_is_tidy();
    sound_is_content();
}

/// The same messages with the same replies are the same bytes, unless a fault, a message that is
/// refused or a failure of the desk ends one of the two connections.
pub fn replies_are_bytes()
    ensures { ExchangesAreBytes }
{}

/// What `host` does with a file is a use of it: of a room that it served, or of one that it turned
/// down. So is what `act` does, which leaves no transaction open, so that a power cut leaves what is
/// seen.
pub fn programs_are_uses<S: Alter, P: Ports, M: Moments, O: Write, E: Write>()
    ensures served { (address : ListenAddress) (count : ℕ) (clock after : M) (ports closed : P)
        (old new : Held S) (out printed : O) (err told : E) (status : ℕ)
        (hosted : IsHosted (state S.Store) address count (M.told clock) (M.told after) (P.did ports)
        (P.did closed) old new (O.contents out) (O.contents printed) (E.contents err)
        (E.contents told) status)
        → IsDone (state S.Store) (Served hosted.served.visits) old new }
    ensures turned_down { (ports closed : P) (old new : Held S) (out printed : O) (err told : E)
        (status : ℕ)
        → IsTurnedDown (P.did ports) (P.did closed) (state S.Store old) (state S.Store new)
        (O.contents out) (O.contents printed) (E.contents err) (E.contents told) status
        → IsDone (state S.Store) TurnedDown old new }
    ensures acted { (work : Task) (old new : Held S) (out printed : O) (err told : E) (status : ℕ)
        (acts : Acts (state S.Store) work old new (O.contents out) (O.contents printed)
        (E.contents err) (E.contents told) status)
        → LeavesOrCommits (state S.Store old) (state S.Store new)
        (CommitsTask work (state S.Store old)) → Lasts (state S.Store new)
        → IsDone (state S.Store) (Did work acts.outcome) old new }
{}

/// Over a list of servers and tasks of one file, stopped in whatever way: whatever is left is a
/// sound room, the one after all that was answered and what the operator did between them, and of
/// each server that a fault or a power cut ended at most one request more, as a whole.
pub fn whole_requests_over_uses<S: Alter>()
    ensures { (first : Use S) (uses : List (Use S)) → Follow (state S.Store) first uses
        → LeaveWholeRequests (state S.Store) first uses }
{
    two_runs_meet();
    sound_is_no_fault();
}

/// Over a list of servers and tasks of one file, whoever asks for whatever: each request that was
/// carried out left everybody's rights as they were, at every path, or its caller had the right to
/// alter them; or the operator changed members, or set a list, between them.
pub fn each_change_over_uses<S: Alter>()
    ensures { (first : Use S) (uses : List (Use S)) → Follow (state S.Store) first uses
        → ChangeByRight (state S.Store) first uses }
{
    rights_changed_by();
    changed_by();
    nothing_gained();
    stays_tidy();
    content_is_tidy();
    sound_is_content();
    two_runs_meet();
    sound_is_no_fault();
}

/// Over two lists of servers and tasks, each of one file, whose rooms differ behind a folder alone:
/// what is asked in both gets the same replies, but for the names in the folder, whatever happens
/// in one of them alone that is behind the folder or changes nothing. The operator's steps outside
/// are the same in both. It is so up to any turn, whatever comes later.
pub fn unseen_over_uses<S: Alter, T: Alter>()
    ensures { (front : List (List ℕ)) (first : Use S) (uses : List (Use S)) (other : Use T)
        (others : List (Use T)) → Follow (state S.Store) first uses
        → Follow (state T.Store) other others
        → AnswerAlikeOver (state S.Store) (state T.Store) front first uses other others }
{
    unseen();
    content_is_tidy();
    sound_is_content();
    two_runs_meet();
    sound_is_no_fault();
}

/// Over a list of servers and tasks of one file, however damaged its room is: each request was
/// judged by the lists that were stored then, and nothing else changed what could be read but the
/// operator's steps; up to where a fault or a power cut ended a server, after which the room can be
/// opened again, with all its records.
pub fn damage_over_uses<S: Alter>()
    ensures { (first : Use S) (uses : List (Use S)) → Follow (state S.Store) first uses
        → StayClosed (state S.Store) first uses }
{
    two_runs_meet();
    sound_is_no_fault();
}
