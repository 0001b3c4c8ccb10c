//! The test whether the rows are sound, inside a transaction.
ghost use Rattle.std.specs.Prelude.{◌≡◌};
ghost use Rattle.sqlite.specs.Held.{state};
ghost use Rattle.room_verify.specs.Reading.{IsReport};
ghost use Rattle.store_tables.specs.Carries.{CallsInside, NoTables, Reading};
ghost use Rattle.store_tables.specs.Meaning.{rows_of};

use room_rows::{KeepFault, Report};
use room_verify::verify;
use sqlite::{Alter, Transaction};
use std::alloc::Global;
use store_tables::{Keeper, RecentLists};

// The report, by the keeper.
fn verify_by<S: Alter>(alloc: Global, keeper: &mut Keeper<'_, '_, S>) -> Result<Report, KeepFault>
    ensures same_reference { keeper.new.tx.ghost_name ≡ keeper.old.tx.ghost_name }
    ensures same_lender { keeper.new.tx.now.conn.ghost_name ≡ keeper.old.tx.now.conn.ghost_name }
    ensures carries { CallsInside (state S.Store keeper.old.tx.now.conn.now)
        (state S.Store keeper.new.tx.now.conn.now) result NoTables
        (Reading (λ db report. IsReport (rows_of db) report)) }
{
    verify(alloc, keeper)
}

/// The first fault of the rows, if there is one, inside the transaction.
pub fn verify_rows<S: Alter>(
    alloc: Global,
    tx: &mut Transaction<'_, S>,
) -> Result<Report, KeepFault>
    ensures same_reference { tx.new.conn.ghost_name ≡ tx.old.conn.ghost_name }
    ensures carries { CallsInside (state S.Store tx.old.conn.now) (state S.Store tx.new.conn.now)
        result NoTables (Reading (λ db report. IsReport (rows_of db) report)) }
{
    let mut lists = RecentLists::new();
    let mut keeper = Keeper {
        alloc,
        tx,
        lists: &mut lists,
        failures: 0,
        writes: 0,
    };
    verify_by(alloc, &mut keeper)
}
