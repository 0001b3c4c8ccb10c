//! All pairs, and how their rows are written.
ghost use Rattle.std.specs.Prelude.{◌≡◌, [], IfOk, OnOk};
ghost use Rattle.sqlite.specs.Held.{state};
ghost use Rattle.store_tables.specs.Paired.{pair_cmp};
ghost use Rattle.store_tables.specs.Statements.{QueriesSql, OfAny, ExecutesSql};
ghost use Rattle.store_tables.specs.Trust.{IsTrusted};
ghost use Rattle.store_tables.specs.Carries.{AnswersOpen, CallsInside, NoTables, Reading};
ghost use Rattle.store_tables.specs.Failing.{FailsInside, FailsSql};
ghost use Rattle.store_admin.specs.Operating.{
  AreMembers,
  Exchanges,
  ShowsMembers,
  Joins,
  pair_seen,
  pairs_seen,
};

use room_ace::Name;
use room_rows::KeepFault;
use sqlite::{Alter, Error, Row, Transaction, params};
use std::alloc::{AllocError, Global};
use std::cmp::Ordering;
use store_tables::{fault_for, name_of, value_at};

// All pairs, in order.
fn select_members<S: Alter>(tx: &mut Transaction<'_, S>) -> Result<Vec<Row>, Error>
    ensures same_reference { tx.new.conn.ghost_name ≡ tx.old.conn.ghost_name }
    ensures asks { QueriesSql ShowsMembers
        (state S.Store tx.old.conn.now) (state S.Store tx.new.conn.now) result }
    ensures opens { AnswersOpen (state S.Store tx.old.conn.now) (state S.Store tx.new.conn.now)
        result }
    ensures fails { FailsSql (state S.Store tx.old.conn.now) (state S.Store tx.new.conn.now)
        result }
{
    tx.query_all(
        "SELECT grp, user FROM members ORDER BY grp, user",
        params![],
    )
}

/// Takes all rows of members out.
pub(crate) fn delete_members<S: Alter>(tx: &mut Transaction<'_, S>) -> Result<usize, Error>
    ensures same_reference { tx.new.conn.ghost_name ≡ tx.old.conn.ghost_name }
    ensures writes { ExecutesSql (OfAny (Exchanges []))
        (state S.Store tx.old.conn.now) (state S.Store tx.new.conn.now) result }
{
    tx.execute("DELETE FROM members", params![])
}

/// Puts in a row with the pair.
pub(crate) fn insert_member<S: Alter>(
    tx: &mut Transaction<'_, S>,
    group: &str,
    user: &str,
) -> Result<usize, Error>
    ensures same_reference { tx.new.conn.ghost_name ≡ tx.old.conn.ghost_name }
    ensures writes { ExecutesSql (OfAny (Joins group.now user.now))
        (state S.Store tx.old.conn.now) (state S.Store tx.new.conn.now) result }
{
    tx.execute(
        "INSERT INTO members (grp, user) VALUES (?1, ?2)",
        params![group, user],
    )
}

// The pair in a row, if both of its names are names.
fn pair_of(alloc: Global, row: &Row) -> Result<Option<(Name, Name)>, AllocError>
    ensures { IfOk result (λ pair. pair ≡ pair_seen row.now) }
{
    let Some(group) = name_of(alloc, value_at(row, 0))? else {
        return Ok(None);
    };
    match name_of(alloc, value_at(row, 1))? {
        Some(user) => Ok(Some((group, user))),
        None => Ok(None),
    }
}

// The pairs in the rows, without rows that aren't pairs.
fn see_pairs(alloc: Global, rows: &[Row]) -> Result<Vec<(Name, Name)>, AllocError>
    ensures { IfOk result (λ pairs. pairs.items ≡ pairs_seen rows.now) }
{
    let mut pairs = Vec::new(alloc);
    for row in rows {
        match pair_of(alloc, row)? {
            Some(pair) => pairs.push(pair)?,
            None => {}
        }
    }
    Ok(pairs)
}

/// Pairs by group, then by user.
pub(crate) fn compare(pair: &(Name, Name), other: &(Name, Name)) -> Ordering
    ensures { result ≡ pair_cmp pair.now other.now }
{
    match pair.0.as_str().cmp(other.0.as_str()) {
        Ordering::Less => Ordering::Less,
        Ordering::Equal => pair.1.as_str().cmp(other.1.as_str()),
        Ordering::Greater => Ordering::Greater,
    }
}

/// The pairs of group and user, in order of group and then of user, each once. A row whose group or
/// user is no name is left out. The error is `Store` only where the database failed.
pub fn all_members<S: Alter>(
    alloc: Global,
    tx: &mut Transaction<'_, S>,
) -> Result<Vec<(Name, Name)>, KeepFault>
    ensures same_reference { tx.new.conn.ghost_name ≡ tx.old.conn.ghost_name }
    ensures carries { CallsInside (state S.Store tx.old.conn.now) (state S.Store tx.new.conn.now)
        result NoTables (Reading (λ db pairs. AreMembers db pairs.items)) }
    ensures same { IsTrusted (state S.Store tx.old.conn.now) (state S.Store tx.new.conn.now)
        → OnOk result
        ((state S.Store tx.new.conn.now).now ≡ (state S.Store tx.old.conn.now).now) }
    ensures opens { AnswersOpen (state S.Store tx.old.conn.now) (state S.Store tx.new.conn.now)
        result }
    ensures fails { FailsInside (state S.Store tx.old.conn.now) (state S.Store tx.new.conn.now)
        result }
{
    let rows = match select_members(tx) {
        Ok(rows) => rows,
        Err(error) => return Err(fault_for(error)),
    };
    Ok(see_pairs(alloc, rows.as_slice())?)
}
