//! The text of a room.
ghost use Rattle.std.specs.Prelude.{◌≡◌, string_bytes};
ghost use Rattle.sqlite.specs.Held.{state};
ghost use Rattle.store_admin.specs.Dump.{AddsMembers, IsDump, TellsObjects};
ghost use Rattle.store_tables.specs.Carries.{AnswersOpen, CallsInside, HasDamagedRow, NoTables};
ghost use Rattle.store_tables.specs.Carries.{Reading};

use crate::operating::all_members;
use room_dump::{dump, push_members};
use room_rows::KeepFault;
use sqlite::{Alter, Transaction};
use std::alloc::Global;
use store_tables::{Keeper, RecentLists};

// The text of all objects, by the keeper.
fn objects_by<S: Alter>(alloc: Global, keeper: &mut Keeper<'_, '_, S>) -> Result<String, KeepFault>
    ensures same_reference { keeper.new.tx.ghost_name ≡ keeper.old.tx.ghost_name }
    ensures same_lender { keeper.new.tx.now.conn.ghost_name ≡ keeper.old.tx.now.conn.ghost_name }
    ensures carries { CallsInside (state S.Store keeper.old.tx.now.conn.now)
        (state S.Store keeper.new.tx.now.conn.now) result HasDamagedRow TellsObjects }
{
    dump(alloc, keeper)
}

// The text of all objects, by a keeper inside the transaction.
fn objects_inside<S: Alter>(alloc: Global, tx: &mut Transaction<'_, S>) -> Result<String, KeepFault>
    ensures same_reference { tx.new.conn.ghost_name ≡ tx.old.conn.ghost_name }
    ensures carries { CallsInside (state S.Store tx.old.conn.now) (state S.Store tx.new.conn.now)
        result HasDamagedRow TellsObjects }
{
    let mut lists = RecentLists::new();
    let mut keeper = Keeper {
        alloc,
        tx,
        lists: &mut lists,
        failures: 0,
        writes: 0,
    };
    objects_by(alloc, &mut keeper)
}

// Adds the lines of all pairs.
fn add_members<S: Alter>(
    alloc: Global,
    tx: &mut Transaction<'_, S>,
    text: &mut String,
) -> Result<(), KeepFault>
    ensures same_reference { tx.new.conn.ghost_name ≡ tx.old.conn.ghost_name }
    ensures carries { CallsInside (state S.Store tx.old.conn.now) (state S.Store tx.new.conn.now)
        result NoTables
        (Reading (AddsMembers (string_bytes text.old) (string_bytes text.new))) }
    ensures opens { AnswersOpen (state S.Store tx.old.conn.now) (state S.Store tx.new.conn.now)
        result }
{
    let pairs = all_members(alloc, tx)?;
    Ok(push_members(text, pairs.as_slice())?)
}

/// The text of the room: the lines of all objects, followed by those of all pairs. The error is
/// `Damaged` only for a damaged row.
pub fn dump_all<S: Alter>(alloc: Global, tx: &mut Transaction<'_, S>) -> Result<String, KeepFault>
    ensures same_reference { tx.new.conn.ghost_name ≡ tx.old.conn.ghost_name }
    ensures carries { CallsInside (state S.Store tx.old.conn.now) (state S.Store tx.new.conn.now)
        result HasDamagedRow (Reading IsDump) }
    ensures opens { AnswersOpen (state S.Store tx.old.conn.now) (state S.Store tx.new.conn.now)
        result }
{
    let mut text = objects_inside(alloc, tx)?;
    add_members(alloc, tx, &mut text)?;
    Ok(text)
}
