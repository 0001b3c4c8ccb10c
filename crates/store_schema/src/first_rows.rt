//! The statements that write the first rows of a room, each a fixed text.
ghost use Rattle.std.specs.Prelude.{◌≡◌, [], ◌∷◌};
ghost use Rattle.sqlite.specs.Held.{state};
ghost use Rattle.store_tables.specs.Tables.{room_schema};
ghost use Rattle.store_schema.specs.Making.{HasEmpty, IsBare, Makes};
ghost use Rattle.store_schema.specs.NewRoom.{IsNewRoom};

use room_ace::{Owners, names_are_text};
use sqlite::{Alter, Error, Transaction, params};

// The root's own entries: its owner may do everything, in the root and below it.
const OWNER_ENTRY: &str = "A:fd:OWNER@:rwanNxDtThHdcCoy\n";

/// Writes the number of the schema.
pub(crate) fn insert_version<S: Alter>(tx: &mut Transaction<'_, S>) -> Result<usize, Error>
    ensures same_reference { tx.new.conn.ghost_name ≡ tx.old.conn.ghost_name }
    ensures makes { Makes (HasEmpty room_schema (0 ∷ 2 ∷ 3 ∷ 5 ∷ 7 ∷ 8 ∷ [])) IsBare
        (state S.Store tx.old.conn.now) (state S.Store tx.new.conn.now) result }
{
    tx.execute(
        "INSERT INTO meta (key, value) VALUES ('rooms', 2)",
        params![],
    )
}

/// Writes the root folder.
pub(crate) fn insert_folder<S: Alter>(
    tx: &mut Transaction<'_, S>,
    owners: &Owners,
) -> Result<usize, Error>
    ensures same_reference { tx.new.conn.ghost_name ≡ tx.old.conn.ghost_name }
    ensures makes { Makes IsBare (IsNewRoom owners.now)
        (state S.Store tx.old.conn.now) (state S.Store tx.new.conn.now) result }
{
    names_are_text();
    owners.owner.is_known();
    owners.group.is_known();
    tx.execute(
        "INSERT INTO nodes (id, parent, name, kind, owner, grp, dacl_flags, sacl_flags, dacl_own, \
         dacl_inh, sacl_own, sacl_inh) VALUES (1, NULL, '', 1, ?1, ?2, 1, 1, ?3, '', '', '')",
        params![owners.owner.as_str(), owners.group.as_str(), OWNER_ENTRY],
    )
}
