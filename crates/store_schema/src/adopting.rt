//! A room that is there.
ghost use Rattle.std.specs.Prelude.{◌≡◌, OnOk, false};
ghost use Rattle.sqlite.specs.Held.{state};
ghost use Rattle.store_schema.specs.Opening.{Adopts, FailsByDisk, Recognizes};
ghost use Rattle.store_schema.specs.Opening.{when_known};
ghost use Rattle.store_tables.specs.Tables.{room_schema};

use crate::fault::OpenFault;
use crate::recognizing::is_room;
use crate::version::expect_version;
use sqlite::{Alter, Connection};

// The schema of this version.
const SCHEMA: i64 = 2;

/// Tests that the database holds a room of schema 2, by the row `rooms` of `meta`, and by its
/// tables: exactly those that a room is made with, and no other index, view or trigger. Nothing is
/// changed. The error says why it doesn't, or that reading failed.
pub fn adopt<S: Alter>(conn: &mut Connection<S>) -> Result<(), OpenFault>
    requires { conn.old.in_transaction ≡ false }
    ensures adopts { Adopts (state S.Store conn.old) (state S.Store conn.new) result }
    ensures fails { FailsByDisk (state S.Store conn.old) (state S.Store conn.new) result }
    ensures tables { OnOk result ((state S.Store conn.old).now.schema ≡ room_schema) }
{
    let known = is_room(conn.schema());
    let answer = read_version(conn, SCHEMA);
    if_known(answer, known)
}

// A database of this version whose tables aren't known is damaged.
fn if_known(answer: Result<(), OpenFault>, known: bool) -> Result<(), OpenFault>
    ensures { result ≡ when_known answer known }
{
    match answer {
        Ok(()) if !known => Err(OpenFault::Db),
        other => other,
    }
}

/// Whether the row of `meta` has this number. The query may take as many steps as it needs, whoever
/// limited those of the connection before.
pub(crate) fn read_version<S: Alter>(conn: &mut Connection<S>, wanted: i64) -> Result<(), OpenFault>
    requires { conn.old.in_transaction ≡ false }
    ensures reads { Recognizes wanted (state S.Store conn.old) (state S.Store conn.new) result }
    ensures fails { FailsByDisk (state S.Store conn.old) (state S.Store conn.new) result }
{
    let _settled = conn.is_autocommit();
    conn.set_step_limit(None);
    let mut tx = conn.transaction();
    let answer = expect_version(&mut tx, wanted);
    tx.rollback();
    answer
}
