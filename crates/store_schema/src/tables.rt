//! The statements that make the tables, each a fixed text.
ghost use Rattle.std.specs.Prelude.{◌≡◌, [], ◌∷◌};
ghost use Rattle.sqlite.specs.Held.{state};
ghost use Rattle.store_tables.specs.Tables.{
  after_bodies,
  after_members,
  after_meta,
  after_nodes,
  no_schema,
  room_schema,
};
ghost use Rattle.store_schema.specs.Making.{HasEmpty, Makes};

use sqlite::{Alter, Error, Transaction, params};

/// Makes the table of objects.
fn create_nodes<S: Alter>(tx: &mut Transaction<'_, S>) -> Result<usize, Error>
    ensures same_reference { tx.new.conn.ghost_name ≡ tx.old.conn.ghost_name }
    ensures makes { Makes (HasEmpty no_schema []) (HasEmpty after_nodes (0 ∷ []))
        (state S.Store tx.old.conn.now) (state S.Store tx.new.conn.now) result }
{
    tx.execute(
        "CREATE TABLE nodes (id INTEGER PRIMARY KEY NOT NULL, parent INTEGER REFERENCES nodes \
         ON DELETE RESTRICT ON UPDATE RESTRICT, name TEXT NOT NULL, kind INTEGER NOT NULL, \
         owner TEXT NOT NULL, grp TEXT NOT NULL, dacl_flags INTEGER NOT NULL, sacl_flags INTEGER \
         NOT NULL, dacl_own TEXT NOT NULL, dacl_inh TEXT NOT NULL, sacl_own TEXT NOT NULL, \
         sacl_inh TEXT NOT NULL, UNIQUE (parent, name)) STRICT",
        params![],
    )
}

/// Makes the table of bytes.
fn create_bodies<S: Alter>(tx: &mut Transaction<'_, S>) -> Result<usize, Error>
    ensures same_reference { tx.new.conn.ghost_name ≡ tx.old.conn.ghost_name }
    ensures makes { Makes (HasEmpty after_nodes (0 ∷ [])) (HasEmpty after_bodies (0 ∷ 2 ∷ []))
        (state S.Store tx.old.conn.now) (state S.Store tx.new.conn.now) result }
{
    tx.execute(
        "CREATE TABLE bodies (node INTEGER PRIMARY KEY NOT NULL REFERENCES nodes ON DELETE \
         CASCADE, bytes BLOB NOT NULL) STRICT",
        params![],
    )
}

/// Makes the table of pairs of group and user.
fn create_members<S: Alter>(tx: &mut Transaction<'_, S>) -> Result<usize, Error>
    ensures same_reference { tx.new.conn.ghost_name ≡ tx.old.conn.ghost_name }
    ensures makes { Makes (HasEmpty after_bodies (0 ∷ 2 ∷ []))
        (HasEmpty after_members (0 ∷ 2 ∷ 3 ∷ []))
        (state S.Store tx.old.conn.now) (state S.Store tx.new.conn.now) result }
{
    tx.execute(
        "CREATE TABLE members (grp TEXT NOT NULL, user TEXT NOT NULL, PRIMARY KEY (user, grp)) \
         STRICT",
        params![],
    )
}

/// Makes the table of the schema's number.
fn create_meta<S: Alter>(tx: &mut Transaction<'_, S>) -> Result<usize, Error>
    ensures same_reference { tx.new.conn.ghost_name ≡ tx.old.conn.ghost_name }
    ensures makes { Makes (HasEmpty after_members (0 ∷ 2 ∷ 3 ∷ []))
        (HasEmpty after_meta (0 ∷ 2 ∷ 3 ∷ 5 ∷ []))
        (state S.Store tx.old.conn.now) (state S.Store tx.new.conn.now) result }
{
    tx.execute(
        "CREATE TABLE meta (key TEXT PRIMARY KEY NOT NULL, value INTEGER NOT NULL) STRICT",
        params![],
    )
}

/// Makes the table of records.
fn create_audits<S: Alter>(tx: &mut Transaction<'_, S>) -> Result<usize, Error>
    ensures same_reference { tx.new.conn.ghost_name ≡ tx.old.conn.ghost_name }
    ensures makes { Makes (HasEmpty after_meta (0 ∷ 2 ∷ 3 ∷ 5 ∷ []))
        (HasEmpty room_schema (0 ∷ 2 ∷ 3 ∷ 5 ∷ 7 ∷ 8 ∷ []))
        (state S.Store tx.old.conn.now) (state S.Store tx.new.conn.now) result }
{
    tx.execute(
        "CREATE TABLE audits (seq INTEGER PRIMARY KEY AUTOINCREMENT NOT NULL, at INTEGER NOT \
         NULL, user TEXT NOT NULL, path TEXT NOT NULL, bits INTEGER NOT NULL, granted INTEGER NOT \
         NULL, entry INTEGER NOT NULL) STRICT",
        params![],
    )
}

/// Makes all tables, in the order that gives them their places in the file.
pub(crate) fn make_tables<S: Alter>(tx: &mut Transaction<'_, S>) -> Result<(), Error>
    ensures same_reference { tx.new.conn.ghost_name ≡ tx.old.conn.ghost_name }
    ensures makes { Makes (HasEmpty no_schema [])
        (HasEmpty room_schema (0 ∷ 2 ∷ 3 ∷ 5 ∷ 7 ∷ 8 ∷ []))
        (state S.Store tx.old.conn.now) (state S.Store tx.new.conn.now) result }
{
    create_nodes(tx)?;
    create_bodies(tx)?;
    create_members(tx)?;
    create_meta(tx)?;
    create_audits(tx)?;
    Ok(())
}
