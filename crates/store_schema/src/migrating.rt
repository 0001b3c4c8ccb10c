//! A room of schema 1 that is upgraded to schema 2.
ghost use Rattle.std.specs.Prelude.{◌≡◌, OnOk, false, IsTrue};
ghost use Rattle.store_tables.specs.Tables.{room_schema};
ghost use Rattle.sqlite.specs.Held.{state};
ghost use Rattle.store_schema.specs.Migrating.{IsInside, Migrates};

use crate::adopting::read_version;
use crate::fault::{MigrateFault, OpenFault, failure_of, keeper_failure};
use crate::laws::spread_is_migrated;
use crate::migrating_rows::migrate_rows_inside;
use crate::recognizing::is_room;
use crate::version::{expect_version, update_version};
use room_rows::Report;
use sqlite::{Alter, Connection, Transaction};
use std::alloc::Global;

const OLD_SCHEMA: i64 = 1;

const SCHEMA: i64 = 2;

fn migrate_inside<S: Alter>(alloc: Global, tx: &mut Transaction<'_, S>) -> Result<(), MigrateFault>
    ensures same_reference { tx.new.conn.ghost_name ≡ tx.old.conn.ghost_name }
    ensures inside { IsTrue (state S.Store tx.old.conn.now).in_transaction
        → IsInside (state S.Store tx.old.conn.now) (state S.Store tx.new.conn.now) result }
{
    spread_is_migrated();
    match expect_version(tx, OLD_SCHEMA) {
        Ok(()) => {}
        Err(fault) => return Err(MigrateFault::Opening(fault)),
    }
    match migrate_rows_inside(alloc, tx) {
        Ok(Report::Sound) => {}
        Ok(Report::Fault { path, why }) => return Err(MigrateFault::Unsound { path, why }),
        Err(fault) => return Err(MigrateFault::Opening(keeper_failure(fault))),
    }
    match update_version(tx) {
        Ok(_) => {}
        Err(error) => return Err(MigrateFault::Opening(failure_of(&error))),
    }
    match expect_version(tx, SCHEMA) {
        Ok(()) => Ok(()),
        Err(_) => Err(MigrateFault::Opening(OpenFault::Db)),
    }
}

/// Upgrades a room of schema 1, which stores the inherited entries of objects that aren't linked
/// and no others, to schema 2, which stores those of all objects. The tables and the rows are tested
/// before. After that they are sound and mean what they meant. After an error the tables are as they
/// were.
pub fn migrate<S: Alter>(alloc: Global, conn: &mut Connection<S>) -> Result<(), MigrateFault>
    requires { conn.old.in_transaction ≡ false }
    ensures migrates { Migrates (state S.Store conn.old) (state S.Store conn.new) result }
    ensures tables { OnOk result ((state S.Store conn.old).now.schema ≡ room_schema) }
{
    if !is_room(conn.schema()) {
        return match read_version(conn, OLD_SCHEMA) {
            Ok(()) => Err(MigrateFault::Opening(OpenFault::Db)),
            Err(fault) => Err(MigrateFault::Opening(fault)),
        };
    }
    let _schema = conn.schema();
    let _settled = conn.is_autocommit();
    let mut tx = conn.transaction();
    match migrate_inside(alloc, &mut tx) {
        Ok(()) => match tx.commit() {
            Ok(()) => Ok(()),
            Err(error) => Err(MigrateFault::Opening(failure_of(&error))),
        },
        Err(fault) => {
            tx.rollback();
            Err(fault)
        }
    }
}
