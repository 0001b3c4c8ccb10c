//! The statements, each a fixed text.
ghost use Rattle.std.specs.Prelude.{◌≡◌, ◌<◌, OnOk, pos, string_bytes};
ghost use Rattle.sqlite.specs.Held.{state};
ghost use Rattle.store_tables.specs.Columns.{StoresHeld, StoresNode, StoresRecord, record_values};
ghost use Rattle.store_tables.specs.Columns.{values_of};
ghost use Rattle.store_tables.specs.Printed.{IsCanonical};
ghost use Rattle.store_tables.specs.Shown.{Bodies, Fills, AddsRecordRow};
ghost use Rattle.store_tables.specs.Shown.{Recasts, RecastsAll, RemovesBytes, RemovesRow};
ghost use Rattle.store_tables.specs.Shown.{sets_held, sets_inh, sets_place, sets_owners};
ghost use Rattle.store_tables.specs.Statements.{QueriesSql, HasBytes, HasChild};
ghost use Rattle.store_tables.specs.Statements.{HasGroups, HasNames};
ghost use Rattle.store_tables.specs.Statements.{HasNode, HasNumbers, HasSome, HasTop, HasUnder};
ghost use Rattle.store_tables.specs.Statements.{ExecutesSql, OfAny, OfNode, OfRow, OfRows};

use crate::columns::{Columns, HeldColumns, Record, rowid_of};
use room_ace::Which;
use sqlite::{Alter, Error, Row, Transaction, params};

/// The row of this number.
pub(crate) fn select_node<S: Alter>(tx: &mut Transaction<'_, S>, id: u64) -> Result<Vec<Row>, Error>
    ensures same_reference { tx.new.conn.ghost_name ≡ tx.old.conn.ghost_name }
    ensures from_one { OnOk result (0 < id) }
    ensures asks { QueriesSql (HasNode (pos id))
        (state S.Store tx.old.conn.now) (state S.Store tx.new.conn.now) result }
{
    let row = rowid_of(id)?;
    tx.query_all(
        "SELECT id, parent, name, kind, owner, grp, dacl_flags, sacl_flags, dacl_own, \
         dacl_inh, sacl_own, sacl_inh FROM nodes WHERE id = ?1",
        params![row],
    )
}

/// The rows of the objects with this parent and this name.
pub(crate) fn select_child<S: Alter>(
    tx: &mut Transaction<'_, S>,
    parent: u64,
    name: &str,
) -> Result<Vec<Row>, Error>
    ensures same_reference { tx.new.conn.ghost_name ≡ tx.old.conn.ghost_name }
    ensures asks { QueriesSql (HasChild (pos parent) name.now)
        (state S.Store tx.old.conn.now) (state S.Store tx.new.conn.now) result }
{
    let row = rowid_of(parent)?;
    tx.query_all(
        "SELECT id, parent, name, kind, owner, grp, dacl_flags, sacl_flags, dacl_own, \
         dacl_inh, sacl_own, sacl_inh FROM nodes WHERE parent = ?1 AND name = ?2 AND id >= 1",
        params![row, name],
    )
}

/// The rows with this parent, in order of name.
pub(crate) fn select_under<S: Alter>(
    tx: &mut Transaction<'_, S>,
    parent: u64,
) -> Result<Vec<Row>, Error>
    ensures same_reference { tx.new.conn.ghost_name ≡ tx.old.conn.ghost_name }
    ensures asks { QueriesSql (HasUnder (pos parent))
        (state S.Store tx.old.conn.now) (state S.Store tx.new.conn.now) result }
{
    let row = rowid_of(parent)?;
    tx.query_all(
        "SELECT id, parent, name, kind, owner, grp, dacl_flags, sacl_flags, dacl_own, \
         dacl_inh, sacl_own, sacl_inh FROM nodes WHERE parent = ?1 AND id >= 1 ORDER BY name",
        params![row],
    )
}

/// The numbers, names and kinds of the rows with this parent, in order of name.
pub(crate) fn select_names<S: Alter>(
    tx: &mut Transaction<'_, S>,
    parent: u64,
) -> Result<Vec<Row>, Error>
    ensures same_reference { tx.new.conn.ghost_name ≡ tx.old.conn.ghost_name }
    ensures asks { QueriesSql (HasNames (pos parent))
        (state S.Store tx.old.conn.now) (state S.Store tx.new.conn.now) result }
{
    let row = rowid_of(parent)?;
    tx.query_all(
        "SELECT id, name, kind FROM nodes WHERE parent = ?1 AND id >= 1 ORDER BY name",
        params![row],
    )
}

/// The number of one of the rows with this parent.
pub(crate) fn select_some<S: Alter>(
    tx: &mut Transaction<'_, S>,
    parent: u64,
) -> Result<Vec<Row>, Error>
    ensures same_reference { tx.new.conn.ghost_name ≡ tx.old.conn.ghost_name }
    ensures asks { QueriesSql (HasSome (pos parent))
        (state S.Store tx.old.conn.now) (state S.Store tx.new.conn.now) result }
{
    let row = rowid_of(parent)?;
    tx.query_all(
        "SELECT id FROM nodes WHERE parent = ?1 AND id >= 1 LIMIT 1",
        params![row],
    )
}

/// The row without a parent of the least number.
pub(crate) fn select_top<S: Alter>(tx: &mut Transaction<'_, S>) -> Result<Vec<Row>, Error>
    ensures same_reference { tx.new.conn.ghost_name ≡ tx.old.conn.ghost_name }
    ensures asks { QueriesSql HasTop
        (state S.Store tx.old.conn.now) (state S.Store tx.new.conn.now) result }
{
    tx.query_all(
        "SELECT id, parent, name, kind, owner, grp, dacl_flags, sacl_flags, dacl_own, \
         dacl_inh, sacl_own, sacl_inh FROM nodes WHERE parent IS NULL AND id >= 1 ORDER BY id \
         LIMIT 1",
        params![],
    )
}

/// The groups of this user, in order.
pub(crate) fn select_groups<S: Alter>(
    tx: &mut Transaction<'_, S>,
    user: &str,
) -> Result<Vec<Row>, Error>
    ensures same_reference { tx.new.conn.ghost_name ≡ tx.old.conn.ghost_name }
    ensures asks { QueriesSql (HasGroups user.now)
        (state S.Store tx.old.conn.now) (state S.Store tx.new.conn.now) result }
{
    tx.query_all(
        "SELECT grp FROM members WHERE user = ?1 ORDER BY grp",
        params![user],
    )
}

/// All numbers, rising.
pub(crate) fn select_numbers<S: Alter>(tx: &mut Transaction<'_, S>) -> Result<Vec<Row>, Error>
    ensures same_reference { tx.new.conn.ghost_name ≡ tx.old.conn.ghost_name }
    ensures asks { QueriesSql HasNumbers
        (state S.Store tx.old.conn.now) (state S.Store tx.new.conn.now) result }
{
    tx.query_all("SELECT id FROM nodes WHERE id >= 1 ORDER BY id", params![])
}

/// The bytes of this number.
pub(crate) fn select_bytes<S: Alter>(
    tx: &mut Transaction<'_, S>,
    id: u64,
) -> Result<Vec<Row>, Error>
    ensures same_reference { tx.new.conn.ghost_name ≡ tx.old.conn.ghost_name }
    ensures from_one { OnOk result (0 < id) }
    ensures asks { QueriesSql (HasBytes (pos id))
        (state S.Store tx.old.conn.now) (state S.Store tx.new.conn.now) result }
{
    let row = rowid_of(id)?;
    tx.query_all("SELECT bytes FROM bodies WHERE node = ?1", params![row])
}

/// Takes the row of this number out, with its bytes.
pub(crate) fn delete_node<S: Alter>(tx: &mut Transaction<'_, S>, id: u64) -> Result<usize, Error>
    ensures same_reference { tx.new.conn.ghost_name ≡ tx.old.conn.ghost_name }
    ensures writes { ExecutesSql (OfRow id RemovesRow)
        (state S.Store tx.old.conn.now) (state S.Store tx.new.conn.now) result }
{
    let row = rowid_of(id)?;
    tx.execute("DELETE FROM nodes WHERE id = ?1", params![row])
}

/// Takes the bytes of this number out, and leaves its object.
pub(crate) fn delete_bytes<S: Alter>(tx: &mut Transaction<'_, S>, id: u64) -> Result<usize, Error>
    ensures same_reference { tx.new.conn.ghost_name ≡ tx.old.conn.ghost_name }
    ensures writes { ExecutesSql (OfRow id RemovesBytes)
        (state S.Store tx.old.conn.now) (state S.Store tx.new.conn.now) result }
{
    let row = rowid_of(id)?;
    tx.execute("DELETE FROM bodies WHERE node = ?1", params![row])
}

/// Writes a list in the row of this number, and none of its other columns.
pub(crate) fn update_held<S: Alter>(
    tx: &mut Transaction<'_, S>,
    id: u64,
    which: Which,
    list: &HeldColumns,
) -> Result<usize, Error>
    requires { StoresHeld list.now }
    ensures same_reference { tx.new.conn.ghost_name ≡ tx.old.conn.ghost_name }
    ensures writes { ExecutesSql (OfRow id (Recasts (sets_held which list.now.flags
        (string_bytes list.now.own) (string_bytes list.now.inh))))
        (state S.Store tx.old.conn.now) (state S.Store tx.new.conn.now) result }
{
    let row = rowid_of(id)?;
    match which {
        Which::Dacl => tx.execute(
            "UPDATE nodes SET dacl_flags = ?2, dacl_own = ?3, dacl_inh = ?4 WHERE id = ?1",
            params![row, &list.flags, &list.own, &list.inh],
        ),
        Which::Sacl => tx.execute(
            "UPDATE nodes SET sacl_flags = ?2, sacl_own = ?3, sacl_inh = ?4 WHERE id = ?1",
            params![row, &list.flags, &list.own, &list.inh],
        ),
    }
}

/// Writes the owners in the row of this number, and none of its other columns.
pub(crate) fn update_owners<S: Alter>(
    tx: &mut Transaction<'_, S>,
    id: u64,
    owner: &str,
    group: &str,
) -> Result<usize, Error>
    ensures same_reference { tx.new.conn.ghost_name ≡ tx.old.conn.ghost_name }
    ensures writes { ExecutesSql (OfRow id (Recasts (sets_owners owner.now group.now)))
        (state S.Store tx.old.conn.now) (state S.Store tx.new.conn.now) result }
{
    let row = rowid_of(id)?;
    tx.execute(
        "UPDATE nodes SET owner = ?2, grp = ?3 WHERE id = ?1",
        params![row, owner, group],
    )
}

/// Writes the parent and the name in the row of this number, and none of its other columns.
pub(crate) fn update_place<S: Alter>(
    tx: &mut Transaction<'_, S>,
    id: u64,
    parent: u64,
    name: &str,
) -> Result<usize, Error>
    ensures same_reference { tx.new.conn.ghost_name ≡ tx.old.conn.ghost_name }
    ensures from_one { OnOk result (0 < parent) }
    ensures writes { ExecutesSql (OfRow id (Recasts (sets_place (pos parent) name.now)))
        (state S.Store tx.old.conn.now) (state S.Store tx.new.conn.now) result }
{
    let row = rowid_of(id)?;
    let under = rowid_of(parent)?;
    tx.execute(
        "UPDATE nodes SET parent = ?2, name = ?3 WHERE id = ?1",
        params![row, under, name],
    )
}

/// Writes what a list inherits in the row of this number, and none of its other columns.
pub(crate) fn update_inh<S: Alter>(
    tx: &mut Transaction<'_, S>,
    id: u64,
    which: Which,
    text: &str,
) -> Result<usize, Error>
    requires { IsCanonical text.now }
    ensures same_reference { tx.new.conn.ghost_name ≡ tx.old.conn.ghost_name }
    ensures writes { ExecutesSql (OfRow id (Recasts (sets_inh which text.now)))
        (state S.Store tx.old.conn.now) (state S.Store tx.new.conn.now) result }
{
    let row = rowid_of(id)?;
    match which {
        Which::Dacl => tx.execute(
            "UPDATE nodes SET dacl_inh = ?2 WHERE id = ?1",
            params![row, text],
        ),
        Which::Sacl => tx.execute(
            "UPDATE nodes SET sacl_inh = ?2 WHERE id = ?1",
            params![row, text],
        ),
    }
}

/// Writes what a list inherits in the rows of these numbers, from the first to the last, and none
/// of their other columns.
pub(crate) fn update_range<S: Alter>(
    tx: &mut Transaction<'_, S>,
    first: u64,
    last: u64,
    which: Which,
    text: &str,
) -> Result<usize, Error>
    requires { IsCanonical text.now }
    ensures same_reference { tx.new.conn.ghost_name ≡ tx.old.conn.ghost_name }
    ensures writes { ExecutesSql (OfRows first last (RecastsAll (sets_inh which text.now)))
        (state S.Store tx.old.conn.now) (state S.Store tx.new.conn.now) result }
{
    let from = rowid_of(first)?;
    let to = rowid_of(last)?;
    match which {
        Which::Dacl => tx.execute(
            "UPDATE nodes SET dacl_inh = ?3 WHERE id >= ?1 AND id <= ?2",
            params![from, to, text],
        ),
        Which::Sacl => tx.execute(
            "UPDATE nodes SET sacl_inh = ?3 WHERE id >= ?1 AND id <= ?2",
            params![from, to, text],
        ),
    }
}

/// Writes the bytes of this number, which has some.
pub(crate) fn update_bytes<S: Alter>(
    tx: &mut Transaction<'_, S>,
    id: u64,
    bytes: &[u8],
) -> Result<usize, Error>
    ensures same_reference { tx.new.conn.ghost_name ≡ tx.old.conn.ghost_name }
    ensures writes { ExecutesSql (OfRow id (λ row. Fills row bytes.now))
        (state S.Store tx.old.conn.now) (state S.Store tx.new.conn.now) result }
{
    let row = rowid_of(id)?;
    tx.execute(
        "UPDATE bodies SET bytes = ?2 WHERE node = ?1",
        params![row, bytes],
    )
}

/// Puts in a row with these columns. The connection then answers its number.
pub(crate) fn insert_node<S: Alter>(
    tx: &mut Transaction<'_, S>,
    columns: &Columns,
) -> Result<usize, Error>
    requires { StoresNode columns.now }
    ensures same_reference { tx.new.conn.ghost_name ≡ tx.old.conn.ghost_name }
    ensures writes { ExecutesSql (OfNode (values_of columns.now))
        (state S.Store tx.old.conn.now) (state S.Store tx.new.conn.now) result }
{
    tx.execute(
        "INSERT INTO nodes (parent, name, kind, owner, grp, dacl_flags, sacl_flags, dacl_own, \
         dacl_inh, sacl_own, sacl_inh) VALUES (?1, ?2, ?3, ?4, ?5, ?6, ?7, ?8, ?9, ?10, ?11)",
        params![
            &columns.parent,
            &columns.name,
            &columns.kind,
            &columns.owner,
            &columns.group,
            &columns.dacl_flags,
            &columns.sacl_flags,
            &columns.dacl_own,
            &columns.dacl_inh,
            &columns.sacl_own,
            &columns.sacl_inh,
        ],
    )
}

/// Puts in the bytes of this number, which has none.
pub(crate) fn insert_bytes<S: Alter>(
    tx: &mut Transaction<'_, S>,
    id: u64,
    bytes: &[u8],
) -> Result<usize, Error>
    ensures same_reference { tx.new.conn.ghost_name ≡ tx.old.conn.ghost_name }
    ensures writes { ExecutesSql (OfAny (Bodies (pos id) bytes.now))
        (state S.Store tx.old.conn.now) (state S.Store tx.new.conn.now) result }
{
    let row = rowid_of(id)?;
    tx.execute(
        "INSERT INTO bodies (node, bytes) VALUES (?1, ?2)",
        params![row, bytes],
    )
}

/// Puts in a record after the others.
pub(crate) fn insert_record<S: Alter>(
    tx: &mut Transaction<'_, S>,
    noted: &Record,
) -> Result<usize, Error>
    requires { StoresRecord noted.now }
    ensures same_reference { tx.new.conn.ghost_name ≡ tx.old.conn.ghost_name }
    ensures writes { ExecutesSql (OfAny (AddsRecordRow (record_values noted.now)))
        (state S.Store tx.old.conn.now) (state S.Store tx.new.conn.now) result }
{
    tx.execute(
        "INSERT INTO audits (at, user, path, bits, granted, entry) VALUES (?1, ?2, ?3, ?4, ?5, ?6)",
        params![
            &noted.at,
            &noted.user,
            &noted.path,
            noted.bits,
            noted.granted,
            &noted.entry,
        ],
    )
}
