//! A task done on a database.
ghost use Rattle.std.specs.Prelude.{◌≡◌, false};
ghost use Rattle.sqlite.specs.Held.{state};
ghost use Rattle.cli_act.specs.Doing.{DoesTask, MakesRoom, MigratesRoom, WorksOnRoom};

use crate::opened::work;
use cli_answer::{Outcome, TaskAnswer, not_made, not_migrated};
use cli_words::{RoomTask, Task};
use room_ace::Owners;
use room_store::Store;
use sqlite::{Alter, Connection};
use std::alloc::Global;

fn make_room<S: Alter>(conn: Connection<S>, owners: &Owners) -> (Connection<S>, Outcome)
    requires { conn.in_transaction ≡ false }
    ensures { MakesRoom owners.now (state S.Store conn) result.1 (state S.Store result.0) }
{
    match Store::create(conn, owners) {
        Ok(store) => (store.into_conn(), Outcome::Answer(TaskAnswer::Made)),
        Err((conn, fault)) => (conn, not_made(fault)),
    }
}

fn migrate<S: Alter>(alloc: Global, conn: Connection<S>) -> (Connection<S>, Outcome)
    requires { conn.in_transaction ≡ false }
    ensures { MigratesRoom (state S.Store conn) result.1 (state S.Store result.0) }
{
    match Store::migrate(alloc, conn) {
        Ok(store) => (store.into_conn(), Outcome::Answer(TaskAnswer::Migrated)),
        Err((conn, fault)) => (conn, not_migrated(fault)),
    }
}

// A task on the room that the database holds.
fn open_and_work<S: Alter>(
    alloc: Global,
    conn: Connection<S>,
    task: &RoomTask,
) -> (Connection<S>, Outcome)
    requires { conn.in_transaction ≡ false }
    ensures { WorksOnRoom (state S.Store) task.now conn result.1 result.0 }
{
    match Store::adopt(conn) {
        Ok(store) => {
            let mut store = store;
            let outcome = work(alloc, &mut store, task);
            (store.into_conn(), outcome)
        }
        Err((conn, fault)) => (conn, Outcome::not_opened(fault)),
    }
}

/// Does a task on a database, and answers its outcome. The connection is returned, outside of any
/// transaction.
pub(crate) fn do_task<S: Alter>(
    alloc: Global,
    conn: Connection<S>,
    task: &Task,
) -> (Connection<S>, Outcome)
    requires { conn.in_transaction ≡ false }
    ensures { DoesTask (state S.Store) task.now conn result.1 result.0 }
{
    match task {
        Task::Init(owners) => make_room(conn, owners),
        Task::Migrate => migrate(alloc, conn),
        Task::OnRoom(task) => open_and_work(alloc, conn, task),
    }
}
