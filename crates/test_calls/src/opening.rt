//! How a store comes to its tables, each with its answer in words.

use crate::words::{push_migrate_fault, push_open_fault};
use room_store::Store;
use sqlite::{Alter, Connection};
use std::alloc::Global;
use std::test::Fail;
use store_schema::{CreateFault, MigrateFault, OpenFault};
use test_player::{owners_of, push};

// A store where there is one, and else the connection.
pub(crate) struct Opened<S: Alter> {
    pub store: Option<Store<S>>,
    pub conn: Option<Connection<S>>,
}

impl<S: Alter + Drop> Drop for Opened<S> {
    fn drop(self) {
        let Opened { store: _, conn: _ } = self;
    }
}

impl<S: Alter + Drop> Opened<S> {
    /// This store.
    fn by(store: Store<S>) -> Opened<S> {
        Opened {
            store: Some(store),
            conn: None,
        }
    }

    /// No store, but this connection.
    pub(crate) fn over(conn: Connection<S>) -> Opened<S> {
        Opened {
            store: None,
            conn: Some(conn),
        }
    }
}

/// Makes a room of root and the group staff, and adds what is answered.
pub(crate) fn create<S: Alter + Drop>(
    alloc: Global,
    conn: Connection<S>,
    told: &mut String,
) -> Result<Opened<S>, Fail> {
    let owners = owners_of(alloc, "root:staff")?;
    if !conn.is_autocommit() {
        return Err(Fail::new("a transaction is open"));
    }
    match Store::create(conn, &owners) {
        Ok(store) => done(store, told),
        Err((conn, fault)) => unmade(conn, fault, told),
    }
}

fn done<S: Alter + Drop>(store: Store<S>, told: &mut String) -> Result<Opened<S>, Fail> {
    push(told, "done")?;
    Ok(Opened::by(store))
}

fn unmade<S: Alter + Drop>(
    conn: Connection<S>,
    fault: CreateFault,
    told: &mut String,
) -> Result<Opened<S>, Fail> {
    match fault {
        CreateFault::Memory => push(told, "fault Memory")?,
        CreateFault::Db => push(told, "fault Db")?,
    }
    Ok(Opened::over(conn))
}

/// Opens the room, and adds what is answered.
pub(crate) fn adopt<S: Alter + Drop>(
    conn: Connection<S>,
    told: &mut String,
) -> Result<Opened<S>, Fail> {
    if !conn.is_autocommit() {
        return Err(Fail::new("a transaction is open"));
    }
    match Store::adopt(conn) {
        Ok(store) => done(store, told),
        Err((conn, fault)) => unopened(conn, fault, told),
    }
}

fn unopened<S: Alter + Drop>(
    conn: Connection<S>,
    fault: OpenFault,
    told: &mut String,
) -> Result<Opened<S>, Fail> {
    push_open_fault(told, fault)?;
    Ok(Opened::over(conn))
}

/// Upgrades the room to schema 2, and adds what is answered.
pub(crate) fn migrate<S: Alter + Drop>(
    alloc: Global,
    conn: Connection<S>,
    told: &mut String,
) -> Result<Opened<S>, Fail> {
    if !conn.is_autocommit() {
        return Err(Fail::new("a transaction is open"));
    }
    match Store::migrate(alloc, conn) {
        Ok(store) => done(store, told),
        Err((conn, fault)) => not_migrated(conn, fault, told),
    }
}

fn not_migrated<S: Alter + Drop>(
    conn: Connection<S>,
    fault: MigrateFault,
    told: &mut String,
) -> Result<Opened<S>, Fail> {
    push_migrate_fault(told, fault)?;
    Ok(Opened::over(conn))
}
