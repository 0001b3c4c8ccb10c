//! One request inside a transaction, and the end of one that only read.
ghost use Rattle.std.specs.Prelude.{◌≡◌, ◌≤◌, IfSome, IsOk, false, true};
ghost use Rattle.std.specs.Option.{option_copied};
ghost use Rattle.sqlite.specs.Held.{state};
ghost use Rattle.sqlite.specs.State.{HasCleanDisk};
ghost use Rattle.sqlite_trees.specs.View.{doubt};
ghost use Rattle.room_judge.specs.Closed.{Performs};
ghost use Rattle.room_remember.specs.Agrees.{AgreesWithRows};
ghost use Rattle.store_request.specs.Inside.{HasDamage, IsKept};
ghost use Rattle.store_tables.specs.Carries.{ByRows, CallsInside, OnRows};
ghost use Rattle.store_tables.specs.Meaning.{rows_of};
ghost use Rattle.store_tables.specs.Shown.{Stays};
ghost use Rattle.store_tables.specs.Within.{LeavesAsBefore};
ghost use Rattle.store_tables.specs.Trust.{IsTrusted};
ghost use Rattle.store_transaction.specs.Ending.{EndsLook};

use room_ace::Name;
use room_desk::perform;
use room_machine::{Reply, Request};
use room_remember::{Memory, Remembering};
use room_rows::KeepFault;
use sqlite::{Alter, Connection, Transaction};
use std::alloc::Global;
use store_tables::{Keeper, RecentLists};
use store_transaction::{StoreFault, still_open};

/// What is asked, and by whom. Without a name that is an anonymous caller.
#[derive(Drop)]
pub struct RequestBy<'a, 'b> {
    /// Who asks.
    pub caller: Option<&'a Name>,
    /// What is asked.
    pub request: &'b Request,
}

// The request, by a keeper that remembers.
fn perform_by<S: Alter>(
    alloc: Global,
    keep: &mut Remembering<'_, Keeper<'_, '_, S>>,
    asked: &RequestBy<'_, '_>,
    moment: i64,
) -> Result<Reply, KeepFault>
    ensures same_keeper { keep.new.keeper.ghost_name ≡ keep.old.keeper.ghost_name }
    ensures same_memory { keep.new.memory.ghost_name ≡ keep.old.memory.ghost_name }
    ensures same_reference { keep.new.keeper.now.tx.ghost_name
        ≡ keep.old.keeper.now.tx.ghost_name }
    ensures same_lender { keep.new.keeper.now.tx.now.conn.ghost_name
        ≡ keep.old.keeper.now.tx.now.conn.ghost_name }
    ensures stays { Stays (state S.Store keep.old.keeper.now.tx.now.conn.now)
        (state S.Store keep.new.keeper.now.tx.now.conn.now) }
    ensures carries { (IsTrusted (state S.Store keep.old.keeper.now.tx.now.conn.now)
        (state S.Store keep.new.keeper.now.tx.now.conn.now) → AgreesWithRows keep.old.memory.now
        (rows_of (state S.Store keep.old.keeper.now.tx.now.conn.now).now))
        → CallsInside (state S.Store keep.old.keeper.now.tx.now.conn.now)
        (state S.Store keep.new.keeper.now.tx.now.conn.now) result (OnRows HasDamage)
        (ByRows (Performs (option_copied asked.now.caller) moment asked.now.request.now)) }
    ensures kept { keep.new.touched ≡ false
        → IsKept (state S.Store keep.old.keeper.now.tx.now.conn.now)
        (state S.Store keep.new.keeper.now.tx.now.conn.now) keep.old.memory.now
        keep.new.memory.now }
{
    perform(alloc, keep, asked.caller, moment, asked.request)
}

// Whether nothing was written and nothing failed.
fn has_read(touched: bool, done: &Result<Reply, KeepFault>) -> bool
    ensures read { result ≡ true → (touched ≡ false) × IsOk done.now }
    ensures rest { touched ≡ false → IsOk done.now → result ≡ true }
{
    !touched && done.is_ok()
}

// The request, by the keeper and what is remembered of its rows, and whether it only read.
fn perform_with<S: Alter>(
    alloc: Global,
    keeper: &mut Keeper<'_, '_, S>,
    known: &mut Memory,
    asked: &RequestBy<'_, '_>,
    moment: i64,
) -> (Result<Reply, KeepFault>, bool)
    ensures same_reference { keeper.new.tx.ghost_name ≡ keeper.old.tx.ghost_name }
    ensures same_lender { keeper.new.tx.now.conn.ghost_name ≡ keeper.old.tx.now.conn.ghost_name }
    ensures stays { Stays (state S.Store keeper.old.tx.now.conn.now)
        (state S.Store keeper.new.tx.now.conn.now) }
    ensures carries { (IsTrusted (state S.Store keeper.old.tx.now.conn.now)
        (state S.Store keeper.new.tx.now.conn.now)
        → AgreesWithRows known.old (rows_of (state S.Store keeper.old.tx.now.conn.now).now))
        → CallsInside (state S.Store keeper.old.tx.now.conn.now)
        (state S.Store keeper.new.tx.now.conn.now) result.0 (OnRows HasDamage)
        (ByRows (Performs (option_copied asked.now.caller) moment asked.now.request.now)) }
    ensures kept { result.1 ≡ true → IsOk result.0
        × IsKept (state S.Store keeper.old.tx.now.conn.now)
        (state S.Store keeper.new.tx.now.conn.now) known.old known.new }
{
    let mut keep = Remembering {
        alloc,
        keeper,
        memory: known,
        touched: false,
    };
    let done = perform_by(alloc, &mut keep, asked, moment);
    let only_read = has_read(keep.touched, &done);
    (done, only_read)
}

/// The request, by a keeper inside the transaction, and whether it only read.
pub fn perform_inside<S: Alter>(
    alloc: Global,
    tx: &mut Transaction<'_, S>,
    lists: &mut RecentLists,
    known: &mut Memory,
    asked: &RequestBy<'_, '_>,
    moment: i64,
) -> (Result<Reply, KeepFault>, bool)
    ensures same_reference { tx.new.conn.ghost_name ≡ tx.old.conn.ghost_name }
    ensures stays { Stays (state S.Store tx.old.conn.now) (state S.Store tx.new.conn.now) }
    ensures carries { (IsTrusted (state S.Store tx.old.conn.now) (state S.Store tx.new.conn.now)
        → AgreesWithRows known.old (rows_of (state S.Store tx.old.conn.now).now))
        → CallsInside (state S.Store tx.old.conn.now) (state S.Store tx.new.conn.now)
        result.0 (OnRows HasDamage)
        (ByRows (Performs (option_copied asked.now.caller) moment asked.now.request.now)) }
    ensures kept { result.1 ≡ true → IsOk result.0
        × IsKept (state S.Store tx.old.conn.now) (state S.Store tx.new.conn.now)
        known.old known.new }
{
    let mut keeper = Keeper {
        alloc,
        tx,
        lists,
        failures: 0,
        writes: 0,
    };
    perform_with(alloc, &mut keeper, known, asked, moment)
}

/// After calls that only read, and were rolled back: the answer, if the connection is open.
pub fn end_look<S: Alter>(
    conn: &mut Connection<S>,
    looked: Result<Reply, StoreFault>,
    kept: Memory,
) -> (Result<Reply, StoreFault>, Option<Memory>)
    requires { conn.old.in_transaction ≡ false }
    ensures ended { conn.new.in_transaction ≡ false }
    ensures clean { doubt (state S.Store conn.old).is_clean
        ≤ doubt (state S.Store conn.new).is_clean }
    ensures ends { HasCleanDisk (state S.Store conn.new)
        → EndsLook (state S.Store conn.old) (state S.Store conn.new) looked result.0 }
    ensures kept { IfSome result.1 (λ m. (m ≡ kept) × IsOk looked × IsOk result.0) }
    ensures crash { LeavesAsBefore (state S.Store conn.old) (state S.Store conn.new) }
{
    match looked {
        Err(fault) => (Err(fault), None),
        Ok(reply) => match still_open(conn) {
            Err(fault) => (Err(fault), None),
            Ok(()) => (Ok(reply), Some(kept)),
        },
    }
}
