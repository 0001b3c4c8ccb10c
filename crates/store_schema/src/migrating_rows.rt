//! Rows of schema 1, which hold the kept entries alone, become rows of schema 2.
ghost use Rattle.std.specs.Prelude.{◌≡◌, IfOk};
ghost use Rattle.sqlite.specs.Held.{state};
ghost use Rattle.store_tables.specs.Meaning.{rows_of};
ghost use Rattle.store_tables.specs.Shown.{Stays};
ghost use Rattle.store_tables.specs.Trust.{IsTrusted};
ghost use Rattle.store_schema.specs.Migrating.{CarriesAll, IsMigrated, MigratesRows};
ghost use Rattle.store_schema.specs.Migrating.{spread_fault_as};

use room_inherit::{SpreadFault, spread_all};
use room_rows::{Keep, KeepFault, Report};
use room_verify::verify_kept;
use sqlite::{Alter, Transaction};
use std::alloc::Global;
use store_tables::{Keeper, RecentLists};

// The keeper's fault for lists that weren't all carried down. They are from the root on, and no
// object that is its own ancestor is a root.
fn spread_fault(fault: SpreadFault) -> KeepFault
    ensures { result ≡ spread_fault_as fault }
{
    match fault {
        SpreadFault::Keeper(fault) => fault,
        SpreadFault::Loop => KeepFault::NoRoot,
    }
}

// Carries all lists down.
fn carry_all<K: Keep>(alloc: Global, keep: &mut K) -> Result<(), KeepFault>
    ensures carries { CarriesAll K.Keep keep.old keep.new result }
{
    spread_all(alloc, keep).map_err(spread_fault)?;
    Ok(())
}

// Tests all rows, and where no fault is found, carries all lists down.
fn migrate_rows<K: Keep>(alloc: Global, keep: &mut K) -> Result<Report, KeepFault>
    ensures migrates { MigratesRows K.Keep keep.old keep.new result }
{
    match verify_kept(alloc, keep) {
        Ok(Report::Sound) => {
            carry_all(alloc, keep)?;
            Ok(Report::Sound)
        }
        other => other,
    }
}

fn migrate_rows_by<S: Alter>(
    alloc: Global,
    keeper: &mut Keeper<'_, '_, S>,
) -> Result<Report, KeepFault>
    ensures same_reference { keeper.new.tx.ghost_name ≡ keeper.old.tx.ghost_name }
    ensures same_lender { keeper.new.tx.now.conn.ghost_name ≡ keeper.old.tx.now.conn.ghost_name }
    ensures stays { Stays (state S.Store keeper.old.tx.now.conn.now)
        (state S.Store keeper.new.tx.now.conn.now) }
    ensures becomes { IsTrusted (state S.Store keeper.old.tx.now.conn.now)
        (state S.Store keeper.new.tx.now.conn.now)
        → IfOk result (λ report. IsMigrated (rows_of (state S.Store keeper.old.tx.now.conn.now).now)
        report (rows_of (state S.Store keeper.new.tx.now.conn.now).now)) }
{
    migrate_rows(alloc, keeper)
}

/// Upgrades the rows inside a transaction, or reports the first fault in them.
pub(crate) fn migrate_rows_inside<S: Alter>(
    alloc: Global,
    tx: &mut Transaction<'_, S>,
) -> Result<Report, KeepFault>
    ensures same_reference { tx.new.conn.ghost_name ≡ tx.old.conn.ghost_name }
    ensures stays { Stays (state S.Store tx.old.conn.now) (state S.Store tx.new.conn.now) }
    ensures becomes { IsTrusted (state S.Store tx.old.conn.now) (state S.Store tx.new.conn.now)
        → IfOk result (λ report. IsMigrated (rows_of (state S.Store tx.old.conn.now).now)
        report (rows_of (state S.Store tx.new.conn.now).now)) }
{
    let mut lists = RecentLists::new();
    let mut keeper = Keeper {
        alloc,
        tx,
        lists: &mut lists,
        failures: 0,
        writes: 0,
    };
    migrate_rows_by(alloc, &mut keeper)
}
