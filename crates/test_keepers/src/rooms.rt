//! Rooms in memory, and what is played on their tables.
use sqlite::{Connection, MemStore, Transaction};
use std::alloc::Global;
use std::test::Fail;
use store_tables::{Keeper, RecentLists};
use test_player::{agree, play};

// The tables of a room.
const TABLES: &str = "\
CREATE TABLE nodes (id INTEGER PRIMARY KEY NOT NULL, parent INTEGER REFERENCES nodes \
ON DELETE RESTRICT ON UPDATE RESTRICT, name TEXT NOT NULL, kind INTEGER NOT NULL, \
owner TEXT NOT NULL, grp TEXT NOT NULL, dacl_flags INTEGER NOT NULL, sacl_flags INTEGER NOT NULL, \
dacl_own TEXT NOT NULL, dacl_inh TEXT NOT NULL, sacl_own TEXT NOT NULL, sacl_inh TEXT NOT NULL, \
UNIQUE (parent, name)) STRICT;
CREATE TABLE bodies (node INTEGER PRIMARY KEY NOT NULL REFERENCES nodes ON DELETE CASCADE, \
bytes BLOB NOT NULL) STRICT;
CREATE TABLE members (grp TEXT NOT NULL, user TEXT NOT NULL, PRIMARY KEY (user, grp)) STRICT;
CREATE TABLE meta (key TEXT PRIMARY KEY NOT NULL, value INTEGER NOT NULL) STRICT;
CREATE TABLE audits (seq INTEGER PRIMARY KEY AUTOINCREMENT NOT NULL, at INTEGER NOT NULL, \
user TEXT NOT NULL, path TEXT NOT NULL, bits INTEGER NOT NULL, granted INTEGER NOT NULL, \
entry INTEGER NOT NULL) STRICT;
";

/// The root of a room, in which all may pass and root may read.
pub(crate) const ROOT: &str = "\
INSERT INTO nodes VALUES (1, NULL, '', 1, 'root', 'staff', 1, 1, 'A::EVERYONE@:x
A:fd:root:r
', '', '', '');
";

/// A connection to the tables of a room, with what these texts write.
pub(crate) fn tables_with(alloc: Global, texts: &[&str]) -> Result<Connection<MemStore>, Fail> {
    let mut conn = Connection::open_in_memory(alloc)?;
    run(&mut conn, TABLES)?;
    'texts: for text in texts {
        run(&mut conn, *text)?;
    }
    Ok(conn)
}

// Runs the statements of a text.
fn run(conn: &mut Connection<MemStore>, text: &str) -> Result<(), Fail> {
    Ok(conn.execute_batch(text)?)
}

fn play_inside(
    alloc: Global,
    tx: &mut Transaction<'_, MemStore>,
    script: &str,
) -> Result<(), Fail> {
    let mut lists = RecentLists::new();
    let mut keeper = Keeper {
        alloc,
        tx,
        lists: &mut lists,
        failures: 0,
        writes: 0,
    };
    play(alloc, &mut keeper, 1000, script)
}

// Plays a script in a transaction, which is then committed.
fn play_on(alloc: Global, conn: &mut Connection<MemStore>, script: &str) -> Result<(), Fail> {
    if !conn.is_autocommit() {
        return Err(Fail::new("a transaction is open"));
    }
    let mut tx = conn.transaction();
    play_inside(alloc, &mut tx, script)?;
    Ok(tx.commit()?)
}

/// Plays scripts, each in a transaction of its own, over what the texts write.
pub(crate) fn plays(alloc: Global, texts: &[&str], scripts: &[&str]) -> Result<(), Fail> {
    let mut conn = tables_with(alloc, texts)?;
    'scripts: for script in scripts {
        play_on(alloc, &mut conn, *script)?;
    }
    Ok(())
}

/// Sees that the statements of a text are refused.
pub(crate) fn refuses(conn: &mut Connection<MemStore>, text: &str) -> Result<(), Fail> {
    match conn.execute_batch(text) {
        Ok(()) => Err(Fail::new(text)),
        Err(_) => Ok(()),
    }
}

/// The text in the only column of the only row that a query shows.
pub(crate) fn shows(
    conn: &mut Connection<MemStore>,
    query: &str,
    wanted: &str,
) -> Result<(), Fail> {
    let row = conn.query_row(query, &[])?;
    let text = row.get::<String>(0)?;
    agree(query, text.as_str(), wanted)
}
