//! A new room.
ghost use Rattle.std.specs.Prelude.{◌≡◌, [], ◌↔◌, false, IsTrue};
ghost use Rattle.sqlite.specs.Held.{state};
ghost use Rattle.store_tables.specs.Tables.{no_schema};
ghost use Rattle.store_schema.specs.Making.{Founds, HasEmpty, Makes};
ghost use Rattle.store_schema.specs.NewRoom.{IsNewRoom};

use crate::fault::{CreateFault, create_fault};
use crate::first_rows::{insert_folder, insert_version};
use crate::tables::make_tables;
use room_ace::Owners;
use sqlite::{Alter, Connection, Error, Transaction};
use sqlite_schema::schema::Schema;

// No table, no index and no view.
fn is_blank(schema: &Schema) -> bool
    ensures { IsTrue result ↔ (schema.now ≡ no_schema) }
{
    schema.tables.is_empty() && schema.indexes.is_empty() && schema.views.is_empty()
}

fn make_room<S: Alter>(tx: &mut Transaction<'_, S>, owners: &Owners) -> Result<(), Error>
    ensures same_reference { tx.new.conn.ghost_name ≡ tx.old.conn.ghost_name }
    ensures makes { Makes (HasEmpty no_schema []) (IsNewRoom owners.now)
        (state S.Store tx.old.conn.now) (state S.Store tx.new.conn.now) result }
{
    make_tables(tx)?;
    insert_version(tx)?;
    insert_folder(tx, owners)?;
    Ok(())
}

/// Makes an empty database a room: its tables, the number of their schema, and the root folder,
/// with the dacl `list:a` and the entry `A:fd:OWNER@:rwanNxDtThHdcCoy`, and the sacl `list:a`
/// without entries. The error is `Db` where the database has a table, an index or a view.
pub fn create<S: Alter>(conn: &mut Connection<S>, owners: &Owners) -> Result<(), CreateFault>
    requires { conn.old.in_transaction ≡ false }
    ensures { Founds owners.now (state S.Store conn.old) (state S.Store conn.new) result }
{
    if !is_blank(conn.schema()) {
        return Err(CreateFault::Db);
    }
    let _settled = conn.is_autocommit();
    let mut tx = conn.transaction();
    match make_room(&mut tx, owners) {
        Ok(()) => match tx.commit() {
            Ok(()) => Ok(()),
            Err(error) => Err(create_fault(&error)),
        },
        Err(error) => {
            tx.rollback();
            Err(create_fault(&error))
        }
    }
}
