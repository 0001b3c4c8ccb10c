//! Validates a subcommand's words and input.
ghost use Rattle.std.specs.Prelude.{option_map};
ghost use Rattle.room_entry.specs.Gives.{Gives};
ghost use Rattle.cli_words.specs.Tasks.{change_of, get_of, groups_of, init_task, pair_name};
ghost use Rattle.cli_words.specs.Tasks.{pair_named, pairs_in, pairs_named, reset_of, review_at};
ghost use Rattle.cli_words.specs.Tasks.{review_of, sent_in, task_name, task_of, task_path, texts};

use crate::command::Job;
use crate::refusal::TaskRefusal;
use room_ace::{
    Failure, MOST_BYTES, Name, Owners, SentList, Which, map_fault, read_list, read_name,
};
use room_import::{CsvWhy, Pairs, read_groups};
use room_rows::{Path, read_path};
use std::alloc::Global;

/// The most bytes of a group file. One byte more is enough to see that it is too long.
pub const MOST_GROUP_BYTES: usize = 8_388_608;

/// A job on a database, with its arguments and input.
#[derive(Drop)]
pub enum Task {
    /// Make a room whose root has these owners.
    Init(Owners),
    /// Upgrade the older schema.
    Migrate,
    /// Do this with the room that the database holds.
    OnRoom(RoomTask),
}

/// What is done with a room that is there.
#[derive(Drop)]
pub enum RoomTask {
    /// Replace the members by these pairs of group and user.
    Groups(Pairs),
    /// Take out the pairs that leave, and put in those that join.
    Change {
        joins: Pairs,
        leaves: Pairs,
    },
    /// Print the members.
    GroupsOut,
    /// Print the records.
    Audit,
    /// Print all objects and members.
    Dump,
    /// Print the bytes of the document at this path.
    Get(Path),
    /// Print who may do what at this path and below it: the rows of one user or of all callers,
    /// and whether also those that repeat what the folder above says.
    Review {
        path: Path,
        user: Option<Name>,
        all: bool,
    },
    /// Set the list at this path.
    Reset(Path, Which, SentList),
    /// Find the first fault of the rows.
    Verify,
}

/// The task of a job and its input, which is the bytes of its list or of its CSV file. The error is
/// the first reason to refuse it, or that memory ran out: names are validated first, next the path,
/// then the input.
pub fn judge(alloc: Global, job: &Job<'_>, input: &[u8]) -> Result<Task, Failure<TaskRefusal>>
    ensures { Gives result (task_of job.now input.now) }
{
    match job {
        Job::Init { owner, group } => init_task(alloc, owner, group),
        Job::Migrate => Ok(Task::Migrate),
        Job::Groups { csv, joins, leaves } => groups_of(
            alloc,
            csv.is_some(),
            joins.as_slice(),
            leaves.as_slice(),
            input,
        ),
        Job::GroupsOut => Ok(Task::OnRoom(RoomTask::GroupsOut)),
        Job::Audit => Ok(Task::OnRoom(RoomTask::Audit)),
        Job::Dump => Ok(Task::OnRoom(RoomTask::Dump)),
        Job::Get { path } => get_of(alloc, path),
        Job::Review { path, user, all } => review_of(alloc, path, *user, *all),
        Job::Reset { path, which } => reset_of(alloc, path, *which, input),
        Job::Verify => Ok(Task::OnRoom(RoomTask::Verify)),
    }
}

fn init_task(alloc: Global, owner: &str, group: &str) -> Result<Task, Failure<TaskRefusal>>
    ensures { Gives result (init_task owner.now group.now) }
{
    let owner = task_name(alloc, owner)?;
    let group = task_name(alloc, group)?;
    Ok(Task::Init(Owners { owner, group }))
}

fn task_name(alloc: Global, text: &str) -> Result<Name, Failure<TaskRefusal>>
    ensures { Gives result (task_name text.now) }
{
    map_fault(read_name(alloc, text), TaskRefusal::Name)
}

fn pairs_in(alloc: Global, input: &[u8]) -> Result<Pairs, Failure<TaskRefusal>>
    ensures { Gives result (pairs_in input.now) }
{
    if input.len() > MOST_GROUP_BYTES {
        return Err(Failure::Fault(TaskRefusal::TooLong));
    }
    map_fault(read_groups(alloc, input), TaskRefusal::Row)
}

// A name of a pair that joins or leaves.
fn pair_name(alloc: Global, text: &str) -> Result<Name, Failure<TaskRefusal>>
    ensures { Gives result (pair_name text.now) }
{
    match read_name(alloc, text) {
        Ok(name) => Ok(name),
        Err(Failure::OutOfMemory) => Err(Failure::OutOfMemory),
        Err(Failure::Fault(_)) => Err(Failure::Fault(TaskRefusal::Pair(CsvWhy::BadName))),
    }
}

fn pair_named(alloc: Global, group: &str, user: &str) -> Result<(Name, Name), Failure<TaskRefusal>>
    ensures { Gives result (pair_named group.now user.now) }
{
    let group = pair_name(alloc, group)?;
    let user = pair_name(alloc, user)?;
    Ok((group, user))
}

// The pairs of words that stand for a group and a user in turn.
fn pairs_named(alloc: Global, words: &[&str]) -> Result<Pairs, Failure<TaskRefusal>>
    ensures { Gives result (pairs_named (texts words.now)) }
{
    let mut pairs = Pairs::new(alloc);
    let mut rest = words;
    'words: while let [group, user, more @ ..] = rest {
        let pair = pair_named(alloc, group, user)?;
        pairs.push(pair)?;
        rest = more;
    }
    if rest.is_empty() {
        Ok(pairs)
    } else {
        Err(Failure::Fault(TaskRefusal::Pair(CsvWhy::NotTwoFields)))
    }
}

fn change_of(alloc: Global, joins: &[&str], leaves: &[&str]) -> Result<Task, Failure<TaskRefusal>>
    ensures { Gives result (change_of (texts joins.now) (texts leaves.now)) }
{
    let joins = pairs_named(alloc, joins)?;
    let leaves = pairs_named(alloc, leaves)?;
    Ok(Task::OnRoom(RoomTask::Change { joins, leaves }))
}

// The pairs of a group file, or some that join and leave: one of the two.
fn groups_of(
    alloc: Global,
    has_csv: bool,
    joins: &[&str],
    leaves: &[&str],
    input: &[u8],
) -> Result<Task, Failure<TaskRefusal>>
    ensures { Gives result
        (groups_of has_csv (texts joins.now) (texts leaves.now) input.now) }
{
    let changes_none = joins.is_empty() && leaves.is_empty();
    if has_csv != changes_none {
        return Err(Failure::Fault(TaskRefusal::Source));
    }
    if changes_none {
        return Ok(Task::OnRoom(RoomTask::Groups(pairs_in(alloc, input)?)));
    }
    change_of(alloc, joins, leaves)
}

fn get_of(alloc: Global, path: &str) -> Result<Task, Failure<TaskRefusal>>
    ensures { Gives result (get_of path.now) }
{
    Ok(Task::OnRoom(RoomTask::Get(task_path(alloc, path)?)))
}

// A review of one user, or of all callers.
fn review_of(
    alloc: Global,
    path: &str,
    user: Option<&str>,
    all: bool,
) -> Result<Task, Failure<TaskRefusal>>
    ensures { Gives result (review_of path.now (option_map (λ name. name.now) user.entry) all) }
{
    match user {
        None => review_at(alloc, path, None, all),
        Some(name) => review_at(alloc, path, Some(task_name(alloc, name)?), all),
    }
}

fn review_at(
    alloc: Global,
    path: &str,
    user: Option<Name>,
    all: bool,
) -> Result<Task, Failure<TaskRefusal>>
    ensures { Gives result (review_at path.now user all) }
{
    let path = task_path(alloc, path)?;
    Ok(Task::OnRoom(RoomTask::Review { path, user, all }))
}

fn reset_of(
    alloc: Global,
    path: &str,
    which: Which,
    input: &[u8],
) -> Result<Task, Failure<TaskRefusal>>
    ensures { Gives result (reset_of path.now which input.now) }
{
    let path = task_path(alloc, path)?;
    let list = sent_in(alloc, input)?;
    Ok(Task::OnRoom(RoomTask::Reset(path, which, list)))
}

fn task_path(alloc: Global, text: &str) -> Result<Path, Failure<TaskRefusal>>
    ensures { Gives result (task_path text.now) }
{
    map_fault(read_path(alloc, text.as_bytes()), TaskRefusal::Path)
}

fn sent_in(alloc: Global, input: &[u8]) -> Result<SentList, Failure<TaskRefusal>>
    ensures { Gives result (sent_in input.now) }
{
    if input.len() > MOST_BYTES {
        return Err(Failure::Fault(TaskRefusal::TooLong));
    }
    map_fault(read_list(alloc, input), TaskRefusal::Line)
}
