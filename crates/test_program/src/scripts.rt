//! Subcommands one after another on a database in memory.
use cli_act::act;
use cli_words::{Job, Task, TaskRefusal, judge};
use room_ace::{Failure, Which};
use sqlite::{Connection, MemStore};
use std::alloc::{AllocError, Global};
use std::test::Fail;

/// A subcommand and its input.
#[derive(Clone, Copy)]
pub enum Ask {
    Init,
    Groups(&'static [u8]),
    Change(&'static [&'static str], &'static [&'static str]),
    GroupsOut,
    Audit,
    Dump,
    Get(&'static str),
    Review(&'static str, Option<&'static str>),
    Reset(&'static str, Which, &'static [u8]),
    Verify,
    Migrate,
}

/// What is done to the database before, what is asked then, and what has to be printed on standard
/// output and on standard error, with which status.
#[derive(Clone, Copy)]
pub struct Step {
    pub before: &'static str,
    pub ask: Ask,
    pub out: &'static str,
    pub err: &'static str,
    pub status: u8,
}

/// Nothing is done before, and nothing is printed on standard error.
pub fn tells(ask: Ask, out: &'static str, status: u8) -> Step {
    after("", ask, out, status)
}

/// These statements are run before.
pub fn after(before: &'static str, ask: Ask, out: &'static str, status: u8) -> Step {
    Step {
        before,
        ask,
        out,
        err: "",
        status,
    }
}

/// It fails with this line.
pub fn fails(before: &'static str, ask: Ask, err: &'static str) -> Step {
    Step {
        before,
        ask,
        out: "",
        err,
        status: 3,
    }
}

fn groups<'a>(
    alloc: Global,
    csv: Option<&'a str>,
    joins: &[&'a str],
    leaves: &[&'a str],
) -> Result<Job<'a>, AllocError> {
    let joins = Vec::from_slice(alloc, joins)?;
    let leaves = Vec::from_slice(alloc, leaves)?;
    Ok(Job::Groups { csv, joins, leaves })
}

pub fn task_of(alloc: Global, ask: Ask) -> Result<Task, Failure<TaskRefusal>> {
    match ask {
        Ask::Init => {
            let owner = "root";
            let group = "staff";
            judge(alloc, &Job::Init { owner, group }, &[])
        }
        Ask::Groups(csv) => judge(alloc, &groups(alloc, Some(""), &[], &[])?, csv),
        Ask::Change(joins, leaves) => judge(alloc, &groups(alloc, None, joins, leaves)?, &[]),
        Ask::GroupsOut => judge(alloc, &Job::GroupsOut, &[]),
        Ask::Audit => judge(alloc, &Job::Audit, &[]),
        Ask::Dump => judge(alloc, &Job::Dump, &[]),
        Ask::Get(path) => judge(alloc, &Job::Get { path }, &[]),
        Ask::Review(path, user) => {
            let all = false;
            judge(alloc, &Job::Review { path, user, all }, &[])
        }
        Ask::Reset(path, which, list) => judge(alloc, &Job::Reset { path, which }, list),
        Ask::Verify => judge(alloc, &Job::Verify, &[]),
        Ask::Migrate => judge(alloc, &Job::Migrate, &[]),
    }
}

fn is_refused(alloc: Global, refusal: &TaskRefusal, step: &Step) -> Result<(), Fail> {
    let line = format!(in alloc; "{refusal}\n")?;
    if line.as_str() == step.out && step.status == 2 {
        Ok(())
    } else {
        Err(Fail::from(line.as_str()))
    }
}

fn is_told(out: &[u8], err: &[u8], status: u8, step: &Step) -> Result<(), Fail> {
    if out == step.out.as_bytes() && err == step.err.as_bytes() && status == step.status {
        Ok(())
    } else {
        Err(Fail::from(str::from_utf8(out).unwrap_or("no text")))
    }
}

fn acts(
    alloc: Global,
    conn: Connection<MemStore>,
    task: &Task,
    step: &Step,
) -> Result<Connection<MemStore>, Fail> {
    if !conn.is_autocommit() {
        return Err(Fail::from("a transaction is open"));
    }
    let mut out = Vec::new(alloc);
    let mut err = Vec::new(alloc);
    let (conn, status) = act(alloc, conn, task, &mut out, &mut err);
    is_told(&out, &err, status, step)?;
    Ok(conn)
}

fn plays_step(
    alloc: Global,
    mut conn: Connection<MemStore>,
    step: &Step,
) -> Result<Connection<MemStore>, Fail> {
    conn.execute_batch(step.before)?;
    match task_of(alloc, step.ask) {
        Ok(task) => acts(alloc, conn, &task, step),
        Err(Failure::Fault(refusal)) => {
            is_refused(alloc, &refusal, step)?;
            Ok(conn)
        }
        Err(Failure::OutOfMemory) => Err(Fail::from("out of memory")),
    }
}

/// Plays the steps, from an empty database on.
pub fn plays(alloc: Global, steps: &[Step]) -> Result<(), Fail> {
    let mut conn = Connection::open_in_memory(alloc)?;
    for step in steps {
        conn = plays_step(alloc, conn, step)?;
    }
    Ok(())
}
