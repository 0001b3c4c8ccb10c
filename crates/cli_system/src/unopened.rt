//! A look at a file that has no log beside it, before it is opened: opening makes a log, and what
//! isn't a room is left as it was.
ghost use Rattle.std.specs.Prelude.{◌≡◌, false};

use crate::files::stop_of;
use cli_outcome::Fault;
use cli_words::Stop;
use sqlite::{Alter, Connection};
use std::fs;
use std::io::{self, Read};
use store_file::{FIRST_PAGE, is_database, may_be_room, open_copy};
use store_schema::{OpenFault, adopt};

/// Tests that the file, which has no log, may be opened. The error is `NotRooms` for a database
/// that isn't a room, and a fault of the database for what is none. A file that can't be read
/// passes: to open it has its own answer.
pub(crate) fn test_unopened(rt: &HostRuntime, path: &str) -> Result<(), Stop> {
    let Ok(page) = first_page(rt, path) else {
        return Ok(());
    };
    if !is_database(page.as_slice()) {
        return Err(Stop::Failed(Fault::Database));
    }
    if may_be_room(page.as_slice()) {
        return Ok(());
    }
    drop(page);
    judge(rt, path)
}

fn first_page(rt: &HostRuntime, path: &str) -> io::Result<Vec<u8>> {
    let mut page = Vec::new(rt.alloc());
    fs::open(rt, path)?.take(FIRST_PAGE).read_to_end(&mut page)?;
    Ok(page)
}

// What opening a copy of the file in memory tells of it.
fn judge(rt: &HostRuntime, path: &str) -> Result<(), Stop> {
    let Ok(bytes) = fs::read(rt, path) else {
        return Ok(());
    };
    match open_copy(rt.alloc(), bytes.as_slice()) {
        Ok(conn) => judge_database(conn),
        Err(error) => Err(stop_of(error)),
    }
}

// Whether any database is a room. Nothing else of what `adopt` promises is asked for.
fn judge_database<D: Alter + Drop>(mut conn: Connection<D>) -> Result<(), Stop>
    requires { conn.in_transaction ≡ false }
{
    match adopt(&mut conn) {
        Err(OpenFault::NotRooms) => Err(Stop::NotRooms),
        _ => Ok(()),
    }
}
