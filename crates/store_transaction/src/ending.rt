//! The end of a transaction that only reads, and whether a connection is open.
ghost use Rattle.std.specs.Prelude.{◌≡◌, ◌≤◌, IfErr, IsTrue, Ok, OnOk, false, ⊤};
ghost use Rattle.sqlite.specs.Held.{state};
ghost use Rattle.sqlite.specs.State.{HasCleanDisk};
ghost use Rattle.sqlite_trees.specs.View.{doubt};
ghost use Rattle.store_tables.specs.Carries.{AnswersOpen, CallsInside, NoTables};
ghost use Rattle.store_tables.specs.Shown.{Stays};
ghost use Rattle.store_tables.specs.Within.{LeavesAsBefore};
ghost use Rattle.store_transaction.specs.Ending.{EndsLook};
ghost use Rattle.store_transaction.specs.Transaction.{BlamesNoRow, GivesUp, StandsIfOpen};

use crate::fault::{StoreFault, commit_fault, fault_of};
use room_rows::KeepFault;
use sqlite::{Alter, Connection, Transaction};
use store_tables::fault_for;

/// Rolls the transaction back, whatever is answered.
pub fn give_up<X: Drop, S: Alter>(
    tx: Transaction<'_, S>,
    done: Result<X, KeepFault>,
) -> Result<X, StoreFault>
    ensures ended { tx.exit.0.now.in_transaction ≡ false }
    ensures clean { doubt (state S.Store tx.entry.conn.now).is_clean
        ≤ doubt (state S.Store tx.exit.0.now).is_clean }
    ensures faults { (state S.Store tx.entry.conn.now).faults
        ≤ (state S.Store tx.exit.0.now).faults }
    ensures gives_up { HasCleanDisk (state S.Store tx.exit.0.now)
        → GivesUp (state S.Store tx.entry.conn.now) (state S.Store tx.exit.0.now) done result }
    ensures crash { LeavesAsBefore (state S.Store tx.entry.conn.now)
        (state S.Store tx.exit.0.now) }
{
    tx.rollback();
    done.map_err(fault_of)
}

// Whether the connection is open. A statement is prepared, and not run: a connection that a fault
// of the disk has closed refuses it.
fn test_open<S: Alter>(tx: &mut Transaction<'_, S>) -> Result<(), KeepFault>
    ensures same_reference { tx.new.conn.ghost_name ≡ tx.old.conn.ghost_name }
    ensures carries { CallsInside (state S.Store tx.old.conn.now) (state S.Store tx.new.conn.now)
        result NoTables (λ _ _ _. ⊤) }
    ensures opens { AnswersOpen (state S.Store tx.old.conn.now) (state S.Store tx.new.conn.now)
        result }
    ensures same { HasCleanDisk (state S.Store tx.new.conn.now)
        → OnOk result ((state S.Store tx.new.conn.now).now
        ≡ (state S.Store tx.old.conn.now).now) }
    ensures unblamed { IfErr result BlamesNoRow }
{
    match tx.prepare("SELECT 1") {
        Ok(statement) => {
            drop(statement);
            Ok(())
        }
        Err(error) => Err(fault_for(error)),
    }
}

/// The answer, if the connection is open. Nothing says what a commit over one that is shut leaves
/// to a crash, so none is made.
pub fn if_open<X: Drop, S: Alter>(
    tx: &mut Transaction<'_, S>,
    done: Result<X, KeepFault>,
) -> Result<X, KeepFault>
    ensures same_reference { tx.new.conn.ghost_name ≡ tx.old.conn.ghost_name }
    ensures stays { Stays (state S.Store tx.old.conn.now) (state S.Store tx.new.conn.now) }
    ensures opens { HasCleanDisk (state S.Store tx.new.conn.now)
        → OnOk result (IsTrue (state S.Store tx.new.conn.now).is_open) }
    ensures stands { HasCleanDisk (state S.Store tx.new.conn.now)
        → StandsIfOpen (state S.Store tx.old.conn.now) (state S.Store tx.new.conn.now) done
        result }
{
    let answer = done?;
    test_open(tx)?;
    Ok(answer)
}

/// Between transactions, whether the connection is open. A statement is prepared, and not run.
pub fn still_open<S: Alter>(conn: &mut Connection<S>) -> Result<(), StoreFault>
    requires { conn.old.in_transaction ≡ false }
    ensures ended { conn.new.in_transaction ≡ false }
    ensures clean { doubt (state S.Store conn.old).is_clean
        ≤ doubt (state S.Store conn.new).is_clean }
    ensures ends { HasCleanDisk (state S.Store conn.new)
        → EndsLook (state S.Store conn.old) (state S.Store conn.new) (Ok tt) result }
    ensures crash { LeavesAsBefore (state S.Store conn.old) (state S.Store conn.new) }
{
    // Gives a proof that nothing waits to be committed.
    let _settled = conn.is_autocommit();
    match conn.prepare("SELECT 1") {
        Ok(statement) => {
            drop(statement);
            Ok(())
        }
        Err(error) => Err(commit_fault(error)),
    }
}
