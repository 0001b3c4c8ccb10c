//! Rooms of a store in memory.
use room_ace::{Owners, SentList, Which};
use room_machine::Reply;
use room_rows::Path;
use room_store::{Store, StoreFault};
use sqlite::{Connection, MemStore};
use std::alloc::Global;
use std::test::Fail;
use test_player::{owners_of, path_of, sent_of};

// The lists of an open room's root: all may pass, and root may do anything.
const OPEN: &str = "list:a / A::EVERYONE@:x / A:fd:root:ALL";

// A new room in an empty database.
fn created(conn: Connection<MemStore>, owners: &Owners) -> Result<Store<MemStore>, Fail> {
    if !conn.is_autocommit() {
        return Err(Fail::new("a transaction is open"));
    }
    match Store::create(conn, owners) {
        Ok(store) => Ok(store),
        Err((_, fault)) => Err(Fail::from(fault)),
    }
}

fn new_store(alloc: Global) -> Result<Store<MemStore>, Fail> {
    let owners = owners_of(alloc, "root:staff")?;
    let conn = Connection::open_in_memory(alloc)?;
    created(conn, &owners)
}

/// An open room, in the tables of a database in memory.
pub(crate) fn open_store(alloc: Global) -> Result<Store<MemStore>, Fail> {
    let mut store = new_store(alloc)?;
    reset_root(alloc, &mut store, OPEN)?;
    Ok(store)
}

// Gives the root's dacl these lines, as the operator.
fn reset_root(alloc: Global, store: &mut Store<MemStore>, lines: &str) -> Result<(), Fail> {
    let root = path_of(alloc, "/")?;
    let sent = sent_of(alloc, lines)?;
    match reset_to(alloc, store, &root, &sent) {
        Ok(Reply::Done) => Ok(()),
        Ok(_) => Err(Fail::new("not reset")),
        Err(fault) => Err(Fail::from(fault)),
    }
}

// The reset, without what the contract says of it.
fn reset_to(
    alloc: Global,
    store: &mut Store<MemStore>,
    path: &Path,
    sent: &SentList,
) -> Result<Reply, StoreFault> {
    store.reset(alloc, path, Which::Dacl, sent)
}

/// Whether a line of the room's text says this.
pub(crate) fn has_line(
    alloc: Global,
    store: &mut Store<MemStore>,
    wanted: &str,
) -> Result<bool, Fail> {
    let text = store.dump(alloc)?;
    Ok(text.as_str().lines().any(|line| line == wanted))
}
