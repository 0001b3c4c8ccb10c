//! One document, inside a transaction.
ghost use Rattle.std.specs.Prelude.{◌≡◌};
ghost use Rattle.sqlite.specs.Held.{state};
ghost use Rattle.room_dump.specs.Fetching.{IsFetched};
ghost use Rattle.store_tables.specs.Carries.{CallsInside, HasDamagedRow, Reading};
ghost use Rattle.store_tables.specs.Meaning.{rows_of};

use room_dump::{Fetched, fetch};
use room_rows::{KeepFault, Path};
use sqlite::{Alter, Transaction};
use std::alloc::Global;
use store_tables::{Keeper, RecentLists};

// The document, by the keeper.
fn fetch_by<S: Alter>(
    alloc: Global,
    keeper: &mut Keeper<'_, '_, S>,
    path: &Path,
) -> Result<Fetched, KeepFault>
    ensures same_reference { keeper.new.tx.ghost_name ≡ keeper.old.tx.ghost_name }
    ensures same_lender { keeper.new.tx.now.conn.ghost_name ≡ keeper.old.tx.now.conn.ghost_name }
    ensures carries { CallsInside (state S.Store keeper.old.tx.now.conn.now)
        (state S.Store keeper.new.tx.now.conn.now) result HasDamagedRow
        (Reading (λ db fetched. IsFetched path.now (rows_of db) fetched)) }
{
    fetch(alloc, keeper, path)
}

/// The document, inside the transaction.
pub fn fetch_inside<S: Alter>(
    alloc: Global,
    tx: &mut Transaction<'_, S>,
    path: &Path,
) -> Result<Fetched, KeepFault>
    ensures same_reference { tx.new.conn.ghost_name ≡ tx.old.conn.ghost_name }
    ensures carries { CallsInside (state S.Store tx.old.conn.now) (state S.Store tx.new.conn.now)
        result HasDamagedRow (Reading (λ db fetched. IsFetched path.now (rows_of db) fetched)) }
{
    let mut lists = RecentLists::new();
    let mut keeper = Keeper {
        alloc,
        tx,
        lists: &mut lists,
        failures: 0,
        writes: 0,
    };
    fetch_by(alloc, &mut keeper, path)
}
