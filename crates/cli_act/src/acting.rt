//! Does a task, and prints its outcome.
ghost use Rattle.std.specs.Prelude.{◌≡◌, false};
ghost use Rattle.sqlite.specs.Held.{state};
ghost use Rattle.cli_act.specs.Acting.{Acts, CommitsTask};
ghost use Rattle.store_tables.specs.Within.{LeavesOrCommits};

use crate::doing::do_task;
use cli_answer::tell;
use cli_words::Task;
use sqlite::{Alter, Connection};
use std::alloc::Global;
use std::io::Write;

/// Does a task on a database, and prints its outcome on standard output and standard error.
///
/// It returns the connection, outside of any transaction, and the exit status: 0 done, 1 a fault of
/// the rows was found, 2 refused, 3 failed. A power cut leaves what it could leave before, or all
/// that the task does: at any moment, by the argument that `docs/statement.md` has among its
/// premises.
pub fn act<S: Alter + Drop, O: Write, E: Write>(
    alloc: Global,
    conn: Connection<S>,
    task: &Task,
    out: &mut O,
    err: &mut E,
) -> (Connection<S>, u8)
    requires { conn.in_transaction ≡ false }
    ensures acts { Acts (state S.Store) task.now conn result.0
        (O.contents out.old) (O.contents out.new) (E.contents err.old) (E.contents err.new)
        result.1 }
    ensures outlasts { LeavesOrCommits (state S.Store conn) (state S.Store result.0)
        (CommitsTask task.now (state S.Store conn)) }
    ensures ended { result.0.in_transaction ≡ false }
{
    let (conn, outcome) = do_task(alloc, conn, task);
    let status = tell(alloc, &outcome, out, err);
    (conn, status)
}

/// The same with the allocator and the two streams of the system. What `act` promises is proved for
/// any database and any streams; nothing of it but its end is asked for here, so that none of it is
/// proved once more.
pub fn act_on<S: Alter + Drop>(
    rt: &HostRuntime,
    conn: Connection<S>,
    task: &Task,
) -> (Connection<S>, u8)
    requires { conn.in_transaction ≡ false }
    ensures { result.0.in_transaction ≡ false }
{
    let mut out = rt.stdout();
    let mut err = rt.stderr();
    act(rt.alloc(), conn, task, &mut out, &mut err)
}
