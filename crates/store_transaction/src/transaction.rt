//! How a transaction begins and ends.
ghost use Rattle.std.specs.Prelude.{◌≡◌, ◌≤◌, None, false};
ghost use Rattle.sqlite.specs.Held.{state};
ghost use Rattle.sqlite.specs.State.{HasCleanDisk};
ghost use Rattle.sqlite_trees.specs.View.{doubt};
ghost use Rattle.store_tables.specs.Within.{LeavesOrCommits};
ghost use Rattle.store_transaction.specs.Transaction.{Begins, CommitsSeen, Finishes};

use crate::fault::{StoreFault, commit_fault, fault_of};
use room_rows::KeepFault;
use sqlite::{Alter, Connection, Transaction};

/// Begins a transaction, where none is open. Its queries may take as many steps as they need,
/// whoever limited those of the connection before.
pub fn begin<S: Alter>(conn: &mut Connection<S>) -> Transaction<'_, S>
    requires { conn.old.in_transaction ≡ false }
    ensures same_reference { result.conn.ghost_name ≡ conn.entry.ghost_name }
    ensures begun { Begins (state S.Store conn.old) (state S.Store result.conn.now) }
    ensures faults { (state S.Store result.conn.now).faults ≡ (state S.Store conn.old).faults }
    ensures limit { (state S.Store result.conn.now).step_limit ≡ None }
{
    // Gives a proof that the tables obey their schema, and that nothing waits to be committed.
    let _schema = conn.schema();
    let _settled = conn.is_autocommit();
    conn.set_step_limit(None);
    conn.transaction()
}

/// Commits after an answer, and rolls the transaction back after a fault.
pub fn finish<X: Drop, S: Alter>(
    tx: Transaction<'_, S>,
    done: Result<X, KeepFault>,
) -> Result<X, StoreFault>
    ensures ended { tx.exit.0.now.in_transaction ≡ false }
    ensures clean { doubt (state S.Store tx.entry.conn.now).is_clean
        ≤ doubt (state S.Store tx.exit.0.now).is_clean }
    ensures finishes { HasCleanDisk (state S.Store tx.exit.0.now)
        → Finishes (state S.Store tx.entry.conn.now) (state S.Store tx.exit.0.now) done result }
    ensures crash { LeavesOrCommits (state S.Store tx.entry.conn.now)
        (state S.Store tx.exit.0.now) (CommitsSeen (state S.Store tx.entry.conn.now) done) }
{
    match done {
        Ok(answer) => {
            tx.commit().map_err(commit_fault)?;
            Ok(answer)
        }
        Err(fault) => {
            tx.rollback();
            Err(fault_of(fault))
        }
    }
}
