//! The file of a room: made, found, opened, removed.
ghost use Rattle.std.specs.Prelude.{◌≡◌, IfOk, false, if◌then◌else◌};
ghost use Rattle.cli_outcome.specs.declared.fault.Fault.TheVariants.{Database, Memory};
ghost use Rattle.cli_words.specs.declared.stop.Stop.TheVariants.{Failed};
ghost use Rattle.store_tables.specs.Seeing.{wants_memory};

use crate::unopened::test_unopened;
use cli_outcome::Fault;
use cli_words::Stop;
use sqlite::Error;
use sqlite_std_file::Start;
use std::fs::{self, OpenOptions};
use std::io::{self, ErrorKind};
use std::os::unix::fs::OpenOptionsExt;
use store_file::{FileConnection, open_with, pages_of};
use store_tables::wants_memory;

// Only the owner may read the file. Whoever can read it isn't bound by any list.
const OWNER_ALONE: u32 = 0o600;

/// Makes an empty file where there is none, and answers the path of the log that it will have. The
/// error is `Exists` where there is a file of this name, or the log of an earlier one.
pub fn make_file(rt: &HostRuntime, file: &str) -> Result<String, Stop> {
    let log = log_of(rt, file)?;
    if is_there(rt, log.as_str())? {
        return Err(Stop::Exists);
    }
    make_empty(rt, file)?;
    Ok(log)
}

fn make_empty(rt: &HostRuntime, file: &str) -> Result<(), Stop> {
    let mut options = OpenOptions::new();
    options.write(true).create_new(true).mode(OWNER_ALONE);
    match options.open(rt, file) {
        Ok(_file) => Ok(()),
        Err(error) if error.kind() == ErrorKind::AlreadyExists => Err(Stop::Exists),
        Err(error) => Err(Stop::from(error)),
    }
}

/// Removes the file that `make_file` made, and the log that came with it.
pub fn take_away(rt: &HostRuntime, file: &str, log: &str) {
    // A file that can't be removed stays: the fault that came before is printed.
    let _ = fs::remove_file(rt, file);
    let _ = fs::remove_file(rt, log);
}

/// Tests the file of a room before it is opened, which makes a log. The error is `NotRooms` where
/// the file is empty, and else that of the file or of the database. What isn't a room is left as it
/// was, without a log beside it.
pub fn test_room(rt: &HostRuntime, file: &str) -> Result<(), Stop> {
    test_file(rt, fs::canonicalize(rt, file)?.as_str())
}

fn test_file(rt: &HostRuntime, path: &str) -> Result<(), Stop> {
    if is_blank(rt, path)? {
        return Err(Stop::NotRooms);
    }
    if !fs::metadata(rt, path)?.is_file() || is_there(rt, log_of(rt, path)?.as_str())? {
        return Ok(());
    }
    test_unopened(rt, path)
}

/// Opens a file that is there as a database, with as many pages in memory as its size is worth. The
/// error is that of the file or of the database, or that memory ran out.
pub fn connect<S: Start>(rt: &HostRuntime, file: &str, start: S) -> Result<FileConnection<S>, Stop>
    ensures { IfOk result (λ conn. conn.in_transaction ≡ false) }
{
    // A file that isn't there has no canonical path, and is not made.
    let path = fs::canonicalize(rt, file)?;
    let pages = pages_of(rt, path.as_str());
    match open_with(rt, path.as_str(), start, pages) {
        Ok(conn) => Ok(conn),
        Err((error, _left)) => Err(stop_of(error)),
    }
}

/// What ends the program where a database can't be opened.
pub(crate) fn stop_of(error: Error) -> Stop
    ensures { result ≡ Failed (if wants_memory error then Memory else Database) }
{
    if wants_memory(error) {
        Stop::Failed(Fault::Memory)
    } else {
        Stop::Failed(Fault::Database)
    }
}

/// Copies the log into the file, so that the file alone has the whole room. Where that fails
/// nothing is lost: the log has what isn't copied, and whoever opens both next finds it.
pub fn close<S: Start>(conn: FileConnection<S>) {
    let _ = conn.close();
}

// Whether the file is empty, and no log beside it holds its content. A file of one byte is empty
// for SQLite, too.
fn is_blank(rt: &HostRuntime, path: &str) -> Result<bool, Stop> {
    let found = fs::metadata(rt, path)?;
    if !found.is_file() || found.len() > 1 {
        return Ok(false);
    }
    is_empty(rt, log_of(rt, path)?.as_str())
}

fn is_empty(rt: &HostRuntime, path: &str) -> Result<bool, Stop> {
    match fs::symlink_metadata(rt, path) {
        Ok(found) => Ok(found.len() == 0),
        Err(error) if error.kind() == ErrorKind::NotFound => Ok(true),
        Err(error) => Err(Stop::from(error)),
    }
}

fn is_there(rt: &HostRuntime, path: &str) -> Result<bool, Stop> {
    match fs::symlink_metadata(rt, path) {
        Ok(_) => Ok(true),
        Err(error) if error.kind() == ErrorKind::NotFound => Ok(false),
        Err(error) => Err(Stop::from(error)),
    }
}

// The path of the log beside a file.
fn log_of(rt: &HostRuntime, path: &str) -> io::Result<String> {
    Ok(format!(in rt.alloc(); "{path}-wal")?)
}
