//! A task on a room that is open, each by one call of the store.
ghost use Rattle.std.specs.Prelude.{◌≡◌, IfOk};
ghost use Rattle.sqlite.specs.Held.{state};
ghost use Rattle.cli_act.specs.Doing.{
  ChangesPairs,
  GivesDocument,
  GivesDump,
  GivesMembers,
  GivesRecords,
  GivesReview,
  PutsMembers,
  SetsList,
  TestsRows,
  Works,
  after_test,
  fault_of,
  or_failed,
  question_of,
};

use cli_answer::{Outcome, TaskAnswer, after_fetch, after_reply, after_review, count_groups};
use cli_outcome::Fault;
use cli_words::RoomTask;
use room_ace::{Name, SentList, Which};
use room_import::{write_audits, write_groups};
use room_review::Scope;
use room_rows::{Bytes, Path, Report};
use room_store::{Store, StoreFault, Tested};
use sqlite::Alter;
use std::alloc::{AllocError, Global};

// The fault where a store gave no answer.
fn fault_of(fault: StoreFault) -> Fault
    ensures { result ≡ fault_of fault }
{
    match fault {
        StoreFault::Memory => Fault::Memory,
        StoreFault::Db => Fault::Database,
        StoreFault::Damaged => Fault::Database,
    }
}

// The fault where memory ran out.
fn no_memory(_: AllocError) -> Fault
    ensures { result ≡ Fault.Memory }
{
    Fault::Memory
}

// The members are replaced by these pairs. Their groups are counted before, so that nothing is
// changed where memory for that runs out.
fn replace<S: Alter>(
    alloc: Global,
    store: &mut Store<S>,
    pairs: &[(Name, Name)],
) -> Result<Outcome, Fault>
    ensures { PutsMembers pairs.now (state S.Store store.old.conn) (or_failed result)
        (state S.Store store.new.conn) }
{
    let groups = count_groups(alloc, pairs).map_err(no_memory)?;
    store.replace_members(alloc, pairs).map_err(fault_of)?;
    Ok(Outcome::Answer(TaskAnswer::Replaced {
        groups,
        members: pairs.len(),
    }))
}

// Some pairs leave, and others join.
fn change<S: Alter>(
    alloc: Global,
    store: &mut Store<S>,
    joins: &[(Name, Name)],
    leaves: &[(Name, Name)],
) -> Result<Outcome, Fault>
    ensures { ChangesPairs joins.now leaves.now (state S.Store store.old.conn) (or_failed result)
        (state S.Store store.new.conn) }
{
    let changed = store
        .change_members(alloc, joins, leaves)
        .map_err(fault_of)?;
    Ok(Outcome::Answer(TaskAnswer::Changed {
        joined: changed.joined,
        left: changed.left,
        members: changed.pairs.len(),
    }))
}

fn tell_members<S: Alter>(alloc: Global, store: &mut Store<S>) -> Result<Outcome, Fault>
    ensures { GivesMembers (state S.Store store.old.conn) (or_failed result)
        (state S.Store store.new.conn) }
{
    let pairs = store.members(alloc).map_err(fault_of)?;
    let text = write_groups(alloc, pairs.as_slice()).map_err(no_memory)?;
    Ok(Outcome::Bytes(text))
}

fn tell_records<S: Alter>(alloc: Global, store: &mut Store<S>) -> Result<Outcome, Fault>
    ensures { GivesRecords (state S.Store store.old.conn) (or_failed result)
        (state S.Store store.new.conn) }
{
    let records = store.audits(alloc).map_err(fault_of)?;
    let text = write_audits(alloc, records.as_slice()).map_err(no_memory)?;
    Ok(Outcome::Bytes(text))
}

fn tell_all<S: Alter>(alloc: Global, store: &mut Store<S>) -> Result<Outcome, Fault>
    ensures { GivesDump (state S.Store store.old.conn) (or_failed result)
        (state S.Store store.new.conn) }
{
    let text = store.dump(alloc).map_err(fault_of)?;
    Ok(Outcome::Bytes(Bytes::from_vec(text.into_bytes())))
}

fn tell_document<S: Alter>(
    alloc: Global,
    store: &mut Store<S>,
    path: &Path,
) -> Result<Outcome, Fault>
    ensures { GivesDocument path.now (state S.Store store.old.conn) (or_failed result)
        (state S.Store store.new.conn) }
{
    let fetched = store.document(alloc, path).map_err(fault_of)?;
    Ok(after_fetch(fetched))
}

// What a store is asked for a review.
fn question_of(path: &Path, user: &Option<Name>, all: bool) -> Result<Scope, AllocError>
    ensures { IfOk result (λ question. question ≡ question_of path.now user.now all) }
{
    let user = match user {
        None => None,
        Some(name) => Some(name.copy()?),
    };
    let path = path.copy()?;
    Ok(Scope { path, user, all })
}

fn review<S: Alter>(
    alloc: Global,
    store: &mut Store<S>,
    path: &Path,
    user: &Option<Name>,
    all: bool,
) -> Result<Outcome, Fault>
    ensures { GivesReview (question_of path.now user.now all) (state S.Store store.old.conn)
        (or_failed result) (state S.Store store.new.conn) }
{
    let question = question_of(path, user, all).map_err(no_memory)?;
    let reviewed = store.review(alloc, &question).map_err(fault_of)?;
    Ok(after_review(reviewed))
}

fn set_list<S: Alter>(
    alloc: Global,
    store: &mut Store<S>,
    path: &Path,
    which: Which,
    sent: &SentList,
) -> Result<Outcome, Fault>
    ensures { SetsList path.now which sent.now (state S.Store store.old.conn) (or_failed result)
        (state S.Store store.new.conn) }
{
    let reply = store.reset(alloc, path, which, sent).map_err(fault_of)?;
    Ok(after_reply(reply))
}

// The outcome of the test of a room: the first fault of its rows, or what is wrong with their
// numbers.
fn after_test(tested: Tested) -> Outcome
    ensures { result ≡ after_test tested }
{
    match tested.report {
        Report::Fault { path, why } => Outcome::Answer(TaskAnswer::Unsound { path, why }),
        Report::Sound if tested.has_numbers => Outcome::Answer(TaskAnswer::Sound),
        Report::Sound => Outcome::Answer(TaskAnswer::NoNumbers),
    }
}

fn test<S: Alter>(alloc: Global, store: &mut Store<S>) -> Result<Outcome, Fault>
    ensures { TestsRows (state S.Store store.old.conn) (or_failed result)
        (state S.Store store.new.conn) }
{
    let tested = store.verify(alloc).map_err(fault_of)?;
    Ok(after_test(tested))
}

// The outcome of a task on the room of a store, or the fault for which there is none.
fn attempt<S: Alter>(alloc: Global, store: &mut Store<S>, task: &RoomTask) -> Result<Outcome, Fault>
    ensures { Works task.now (state S.Store store.old.conn) (or_failed result)
        (state S.Store store.new.conn) }
{
    match task {
        RoomTask::Groups(pairs) => replace(alloc, store, pairs.as_slice()),
        RoomTask::Change { joins, leaves } => {
            change(alloc, store, joins.as_slice(), leaves.as_slice())
        }
        RoomTask::GroupsOut => tell_members(alloc, store),
        RoomTask::Audit => tell_records(alloc, store),
        RoomTask::Dump => tell_all(alloc, store),
        RoomTask::Get(path) => tell_document(alloc, store, path),
        RoomTask::Review { path, user, all } => review(alloc, store, path, user, *all),
        RoomTask::Reset(path, which, sent) => set_list(alloc, store, path, *which, sent),
        RoomTask::Verify => test(alloc, store),
    }
}

/// Does a task on the room of a store.
pub(crate) fn work<S: Alter>(alloc: Global, store: &mut Store<S>, task: &RoomTask) -> Outcome
    ensures { Works task.now (state S.Store store.old.conn) result (state S.Store store.new.conn) }
{
    attempt(alloc, store, task).unwrap_or_else(Outcome::Failed)
}
