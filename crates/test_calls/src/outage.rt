//! A database whose power is cut at each moment of each call.

use crate::drive::{Clock, Drive};
use crate::kept::{Contents, EACH, Kept, PowerCut, copied, left_by};
use crate::scene::{Scene, told_by};
use sqlite::{Alter, Connection, Options};
use sqlite_disk::Files;
use sqlite_store::FileStore;
use std::alloc::{AllocError, Global};
use std::cell::Cell;
use std::rc::Rc;
use std::test::Fail;

// Closes the database, which copies its log into its file.
const CLOSE: &str = "store Close => done";

/// A database on two files in memory. Each line is played once, and then once more in what each
/// power cut would have left: a power cut after each of the line's writes and syncs, with each
/// choice of the writes that weren't synced.
#[derive(Drop)]
pub struct Outage {
    contents: Contents,
}

// The files after a line, and how often they were written and synced.
#[derive(Drop)]
struct Played {
    files: Files<Drive>,
    moments: u64,
}

// What a database tells before a line and after it.
#[derive(Drop)]
struct Ends {
    before: String,
    after: String,
}

impl Outage {
    /// Two files that are empty.
    pub fn new(alloc: Global) -> Outage {
        Outage {
            contents: Contents::none(alloc),
        }
    }

    /// Plays the lines of a script, with no power cut.
    pub fn prepare(&mut self, alloc: Global, script: &str) -> Result<(), Fail> {
        'lines: for line in script.lines() {
            let played = play_line(alloc, &self.contents, line)?;
            self.contents = Contents::of(played.files);
        }
        Ok(())
    }

    /// Plays a line, and tests what is found after each power cut: all that was there before the
    /// line, or all that is there after it; and only the latter once it is answered. Statements on
    /// the tables are carried out with no power cut, since each one commits for itself.
    pub fn play(&mut self, alloc: Global, line: &str) -> Result<(), Fail> {
        let played = play_line(alloc, &self.contents, line)?;
        if !line.starts_with("sql ") {
            test_line(alloc, &self.contents, &played)?;
        }
        self.contents = Contents::of(played.files);
        Ok(())
    }
}

fn play_line(alloc: Global, contents: &Contents, line: &str) -> Result<Played, Fail> {
    let clock = new_clock(alloc)?;
    let files = files_after(alloc, contents, &clock, line)?;
    Ok(Played {
        files,
        moments: clock.get(),
    })
}

fn new_clock(alloc: Global) -> Result<Clock, AllocError> {
    Ok(Rc::new(alloc, Cell::new(0u64))?)
}

fn files_after(
    alloc: Global,
    contents: &Contents,
    clock: &Clock,
    line: &str,
) -> Result<Files<Drive>, Fail> {
    let conn = connect(alloc, contents, clock)?;
    if line == CLOSE {
        return closed(conn);
    }
    Ok(after_line(alloc, conn, line)?.into_store().close())
}

// Opens the database that these files hold.
fn connect(
    alloc: Global,
    contents: &Contents,
    clock: &Clock,
) -> Result<Connection<FileStore<Drive>>, Fail> {
    let files = mounted(alloc, contents, clock)?;
    match Connection::open_files(alloc, files, Options::new(1)) {
        Ok(conn) => Ok(conn),
        Err((error, _)) => Err(Fail::from(error)),
    }
}

fn mounted(alloc: Global, contents: &Contents, clock: &Clock) -> Result<Files<Drive>, AllocError> {
    let log = drive_of(alloc, contents.log.as_slice(), clock)?;
    let db = drive_of(alloc, contents.db.as_slice(), clock)?;
    Ok(Files { log, db })
}

fn drive_of(alloc: Global, bytes: &[u8], clock: &Clock) -> Result<Drive, AllocError> {
    let clock = clock.clone()?;
    let bytes = copied(alloc, bytes)?;
    Ok(Drive::new(alloc, bytes, clock))
}

fn closed(conn: Connection<FileStore<Drive>>) -> Result<Files<Drive>, Fail> {
    match conn.close_files() {
        Ok(files) => Ok(files),
        Err((error, _)) => Err(Fail::from(error)),
    }
}

fn after_line<S: Alter + Drop>(
    alloc: Global,
    conn: Connection<S>,
    line: &str,
) -> Result<Connection<S>, Fail> {
    let mut scene = Scene::over(conn);
    scene.play(alloc, line)?;
    scene.into_conn()
}

// Tests each power cut of a line that was played over these files.
fn test_line(alloc: Global, first: &Contents, played: &Played) -> Result<(), Fail> {
    let ends = ends_of(alloc, first, played)?;
    'moments: for moment in 0..played.moments.saturating_add(1) {
        test_moment(alloc, first, played, &ends, moment)?;
    }
    Ok(())
}

fn ends_of(alloc: Global, first: &Contents, played: &Played) -> Result<Ends, Fail> {
    let before = told_of(alloc, first)?;
    let after = told_after(alloc, first, played)?;
    Ok(Ends { before, after })
}

// What is told after the line, with nothing lost.
fn told_after(alloc: Global, first: &Contents, played: &Played) -> Result<String, Fail> {
    let cut = PowerCut::at(played.moments, &played.files);
    told_after_cut(alloc, first, &played.files, &cut, Kept::All)
}

fn test_moment(
    alloc: Global,
    first: &Contents,
    played: &Played,
    ends: &Ends,
    moment: u64,
) -> Result<(), Fail> {
    let cut = PowerCut::at(moment, &played.files);
    'kept: for kept in EACH.iter().take(cut.ways()) {
        let told = told_after_cut(alloc, first, &played.files, &cut, *kept)?;
        if !ends.allow(told.as_str(), moment == played.moments) {
            return Err(lost(moment, *kept, told.as_str()));
        }
    }
    Ok(())
}

impl Ends {
    // Whether this may be told after a power cut. What was answered has to be there.
    fn allow(&self, told: &str, is_answered: bool) -> bool {
        told == self.after.as_str() || (!is_answered && told == self.before.as_str())
    }
}

fn lost(moment: u64, kept: Kept, told: &str) -> Fail {
    let kept = kept.as_str();
    Fail::new(format_args!("power cut after {moment} writes and syncs, left is {kept}: {told}"))
}

// What the database tells that a power cut leaves.
fn told_after_cut(
    alloc: Global,
    first: &Contents,
    files: &Files<Drive>,
    cut: &PowerCut,
    kept: Kept,
) -> Result<String, Fail> {
    let left = left_by(alloc, cut, kept, first, files)?;
    told_of(alloc, &left)
}

// What a database tells that is opened over these files.
fn told_of(alloc: Global, contents: &Contents) -> Result<String, Fail> {
    let clock = new_clock(alloc)?;
    let conn = connect(alloc, contents, &clock)?;
    told_by(alloc, conn)
}
