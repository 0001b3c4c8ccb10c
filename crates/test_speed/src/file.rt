//! Work of a store over a file.

use crate::job::Job;
use crate::memory::report_word;
use crate::requests::{Answers, ask_all, word_for};
use crate::script::{import_script, room_script};
use crate::timing::Times;
use room_store::{Store, StoreFault};
use sqlite::{Alter, Connection};
use sqlite_std_file::{FileFrom, Unknown};
use sqlite_store::FileStore;
use std::alloc::Global;
use std::fs;
use std::test::Fail;
use std::time::Instant;
use store_file::{open_with, pages_of};
use test_calls::{OPEN, Scene};
use test_player::Spoken;

// The file, and the log beside it.
const FILE: &str = "test_speed.db";

const LOG: &str = "test_speed.db-wal";

type Disk = FileStore<FileFrom<Unknown>>;

impl<S: Alter> Answers for Store<S> {
    fn answer(&mut self, alloc: Global, spoken: &Spoken) -> Result<&'static str, Fail> {
        Ok(ran(alloc, self, spoken)?)
    }
}

fn ran<S: Alter>(
    alloc: Global,
    store: &mut Store<S>,
    spoken: &Spoken,
) -> Result<&'static str, StoreFault> {
    let caller = spoken.caller.as_ref();
    Ok(word_for(&store.run(alloc, caller, 1000, &spoken.request)?))
}

/// Makes the file of a room in this folder, does the workloads, and removes the file.
pub fn run(rt: &HostRuntime, job: &Job<'_>) -> Result<(), Fail> {
    remove(rt);
    let done = over_file(rt, job);
    remove(rt);
    done
}

// Removes the files that are there.
fn remove(rt: &HostRuntime) {
    let _ = fs::remove_file(rt, FILE);
    let _ = fs::remove_file(rt, LOG);
}

fn over_file(rt: &HostRuntime, job: &Job<'_>) -> Result<(), Fail> {
    make(rt, job)?;
    let start = Instant::now(rt)?;
    let mut store = adopted(open(rt)?)?;
    work(rt, &mut store, start, job)
}

fn make(rt: &HostRuntime, job: &Job<'_>) -> Result<(), Fail> {
    let mut scene = Scene::over(open(rt)?);
    play(rt.alloc(), &mut scene, job)?;
    Ok(scene.into_conn()?.close()?)
}

fn play(alloc: Global, scene: &mut Scene<Disk>, job: &Job<'_>) -> Result<(), Fail> {
    scene.play_all(alloc, &["store Create => done", OPEN])?;
    let pairs = job.objects.saturating_mul(20).min(20_000);
    let import = import_script(alloc, pairs)?;
    scene.play(alloc, import.as_str())?;
    drop(import);
    let script = room_script(alloc, job)?;
    scene.play(alloc, script.as_str())
}

// Opens the file as `serve` does.
fn open(rt: &HostRuntime) -> Result<Connection<Disk>, Fail> {
    match open_with(rt, FILE, Unknown, pages_of(rt, FILE)) {
        Ok(conn) => Ok(conn),
        Err((error, _)) => Err(Fail::from(error)),
    }
}

// The store over the room that the tables hold.
fn adopted(conn: Connection<Disk>) -> Result<Store<Disk>, Fail> {
    if !conn.is_autocommit() {
        return Err(Fail::new("within a transaction"));
    }
    match Store::adopt(conn) {
        Ok(store) => Ok(store),
        Err((_, fault)) => Err(Fail::from(fault)),
    }
}

// Does the workloads over a store that was opened at this instant.
fn work(
    rt: &HostRuntime,
    store: &mut Store<Disk>,
    start: Instant,
    job: &Job<'_>,
) -> Result<(), Fail> {
    let mut times = Times::none();
    times.add(rt, start, 1)?;
    times.tell(rt, "open")?;
    ask_all(rt, store, job)?;
    if job.wants("verify") {
        test_rows(rt, store)?;
    }
    Ok(())
}

fn test_rows(rt: &HostRuntime, store: &mut Store<Disk>) -> Result<(), Fail> {
    let mut times = Times::none();
    let start = Instant::now(rt)?;
    let report = tested(rt.alloc(), store)?;
    times.add(rt, start, 1)?;
    times.tell(rt, "verify")?;
    Ok(println!(rt; "verify: {report}")?)
}

fn tested(alloc: Global, store: &mut Store<Disk>) -> Result<&'static str, StoreFault> {
    let tested = store.verify(alloc)?;
    Ok(report_word(&tested.report))
}
