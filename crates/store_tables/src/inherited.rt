//! What lists inherit, written into one object or into many.
ghost use Rattle.sqlite.specs.Held.{state};
ghost use Rattle.std.specs.List.{range_with_len};
ghost use Rattle.std.specs.List.Sorted.{IsPermutation};
ghost use Rattle.std.specs.Prelude.{
  ◌≡◌,
  ◌<◌,
  ◌+◌,
  ◌-◌,
  ◌^◌,
  ◌++◌,
  ◌∷◌,
  [],
  IfOk,
  List,
  length,
  true,
  ℕ,
};
ghost use Rattle.room_entry.specs.Ace.{Ace};
ghost use Rattle.room_rows.specs.Keep.{capped, with_inh, writes_after};
ghost use Rattle.store_tables.specs.Printed.{IsCanonical, IsPrinted};
ghost use Rattle.store_tables.specs.Trust.{Alters, AltersAll, Puts};

use crate::fault::{wrote_all, wrote_one};
use crate::keeper::Keeper;
use crate::statements::{update_inh, update_range};
use room_ace::{Entry, Which};
use room_rows::{KeepFault, count_all, count_one, failed};
use sqlite::Alter;
use std::alloc::{AllocError, Global};

// Writes the text of what a list of an object that is there inherits, and doesn't count it.
fn put_text<S: Alter>(
    keeper: &mut Keeper<'_, '_, S>,
    id: u64,
    which: Which,
    text: &str,
) -> Result<(), KeepFault>
    requires { IsCanonical text.now }
    ensures same_reference { keeper.new.tx.ghost_name ≡ keeper.old.tx.ghost_name }
    ensures same_lender { keeper.new.tx.now.conn.ghost_name ≡ keeper.old.tx.now.conn.ghost_name }
    ensures unwritten { keeper.new.writes ≡ keeper.old.writes }
    ensures puts { (entries : List Ace) → IsPrinted entries text.now
        → Puts (state S.Store keeper.old.tx.now.conn.now)
        (state S.Store keeper.new.tx.now.conn.now) keeper.old.failures keeper.new.failures
        result (λ _. Alters id (with_inh which entries)) }
{
    let done = update_inh(keeper.tx, id, which, text);
    wrote_one(done, &mut keeper.failures)
}

/// Writes what a list of an object that is there inherits.
pub(crate) fn put_inh<S: Alter>(
    keeper: &mut Keeper<'_, '_, S>,
    id: u64,
    which: Which,
    entries: &[Entry],
) -> Result<(), KeepFault>
    ensures same_reference { keeper.new.tx.ghost_name ≡ keeper.old.tx.ghost_name }
    ensures same_lender { keeper.new.tx.now.conn.ghost_name ≡ keeper.old.tx.now.conn.ghost_name }
    ensures written { capped keeper.new.writes ≡ writes_after 1 result (capped keeper.old.writes) }
    ensures puts { Puts (state S.Store keeper.old.tx.now.conn.now)
        (state S.Store keeper.new.tx.now.conn.now) keeper.old.failures keeper.new.failures
        result (λ _. Alters id (with_inh which entries.now)) }
{
    let text = keeper.lists.print(keeper.alloc, entries)?;
    let done = put_text(keeper, id, which, text.as_str());
    drop(text);
    done?;
    count_one(&mut keeper.writes);
    Ok(())
}

// The same of so many objects whose numbers follow one another, by one statement.
fn put_range<S: Alter>(
    keeper: &mut Keeper<'_, '_, S>,
    first: u64,
    count: u64,
    which: Which,
    text: &str,
) -> Result<(), KeepFault>
    requires printed { IsCanonical text.now }
    requires some { 0 < count }
    ensures same_reference { keeper.new.tx.ghost_name ≡ keeper.old.tx.ghost_name }
    ensures same_lender { keeper.new.tx.now.conn.ghost_name ≡ keeper.old.tx.now.conn.ghost_name }
    ensures unwritten { keeper.new.writes ≡ keeper.old.writes }
    ensures puts { (entries : List Ace) → IsPrinted entries text.now
        → Puts (state S.Store keeper.old.tx.now.conn.now)
        (state S.Store keeper.new.tx.now.conn.now) keeper.old.failures keeper.new.failures
        result (λ _. AltersAll (range_with_len first count) (with_inh which entries)) }
{
    let Some(last) = first.checked_add(count - 1) else {
        return Err(failed(&mut keeper.failures));
    };
    let done = update_range(keeper.tx, first, last, which, text);
    wrote_all(done, count, &mut keeper.failures)
}

// The same, where there may be none, or one, which takes longer by a range.
fn put_run<S: Alter>(
    keeper: &mut Keeper<'_, '_, S>,
    first: u64,
    count: u64,
    which: Which,
    text: &str,
) -> Result<(), KeepFault>
    requires { IsCanonical text.now }
    ensures same_reference { keeper.new.tx.ghost_name ≡ keeper.old.tx.ghost_name }
    ensures same_lender { keeper.new.tx.now.conn.ghost_name ≡ keeper.old.tx.now.conn.ghost_name }
    ensures unwritten { keeper.new.writes ≡ keeper.old.writes }
    ensures puts { (entries : List Ace) → IsPrinted entries text.now
        → Puts (state S.Store keeper.old.tx.now.conn.now)
        (state S.Store keeper.new.tx.now.conn.now) keeper.old.failures keeper.new.failures
        result (λ _. AltersAll (range_with_len first count) (with_inh which entries)) }
{
    if count == 0 {
        return Ok(());
    }
    if count == 1 {
        return put_text(keeper, first, which, text);
    }
    put_range(keeper, first, count, which, text)
}

// Whether the number comes right after so many that follow one another.
fn is_next(first: u64, count: u64, id: u64) -> bool
    ensures { result ≡ true → (id ≡ first + count) × (count < 2 ^ 64 - 1) }
{
    count < u64::MAX && id >= first && id - first == count
}

// Goes on to this object. Either it comes right after those that wait, and waits with them, or they
// are written, and it waits alone.
fn put_next<S: Alter>(
    keeper: &mut Keeper<'_, '_, S>,
    first: &mut u64,
    count: &mut u64,
    id: u64,
    which: Which,
    text: &str,
) -> Result<(), KeepFault>
    requires { IsCanonical text.now }
    ensures same_reference { keeper.new.tx.ghost_name ≡ keeper.old.tx.ghost_name }
    ensures same_lender { keeper.new.tx.now.conn.ghost_name ≡ keeper.old.tx.now.conn.ghost_name }
    ensures unwritten { keeper.new.writes ≡ keeper.old.writes }
    ensures puts { (written : List ℕ)
        × (written ++ range_with_len first.new count.new
        ≡ range_with_len first.old count.old ++ id ∷ [])
        × ((entries : List Ace) → IsPrinted entries text.now
        → Puts (state S.Store keeper.old.tx.now.conn.now)
        (state S.Store keeper.new.tx.now.conn.now) keeper.old.failures keeper.new.failures
        result (λ _. AltersAll written (with_inh which entries))) }
{
    if is_next(*first, *count, id) {
        *count += 1;
        return Ok(());
    }
    let done = put_run(keeper, *first, *count, which, text);
    *first = id;
    *count = 1;
    done
}

// The same of each of these objects. Those whose numbers follow one another go together.
fn put_runs<S: Alter>(
    keeper: &mut Keeper<'_, '_, S>,
    ids: &[u64],
    which: Which,
    text: &str,
) -> Result<(), KeepFault>
    requires { IsCanonical text.now }
    ensures same_reference { keeper.new.tx.ghost_name ≡ keeper.old.tx.ghost_name }
    ensures same_lender { keeper.new.tx.now.conn.ghost_name ≡ keeper.old.tx.now.conn.ghost_name }
    ensures unwritten { keeper.new.writes ≡ keeper.old.writes }
    ensures puts { (entries : List Ace) → IsPrinted entries text.now
        → Puts (state S.Store keeper.old.tx.now.conn.now)
        (state S.Store keeper.new.tx.now.conn.now) keeper.old.failures keeper.new.failures
        result (λ _. AltersAll ids.now (with_inh which entries)) }
{
    let mut first: u64 = 0;
    let mut count: u64 = 0;
    'ids: for id in ids {
        put_next(keeper, &mut first, &mut count, *id, which, text)?;
    }
    put_run(keeper, first, count, which, text)
}

// The numbers in order.
fn in_order(alloc: Global, ids: &[u64]) -> Result<Vec<u64>, AllocError>
    ensures { IfOk result (λ order. IsPermutation ids.now order.items) }
{
    let mut order = Vec::from_slice(alloc, ids)?;
    order.sort_unstable();
    Ok(order)
}

/// Writes what a list of each of these objects inherits, if all are there.
pub(crate) fn put_inh_all<S: Alter>(
    keeper: &mut Keeper<'_, '_, S>,
    ids: &[u64],
    which: Which,
    entries: &[Entry],
) -> Result<(), KeepFault>
    ensures same_reference { keeper.new.tx.ghost_name ≡ keeper.old.tx.ghost_name }
    ensures same_lender { keeper.new.tx.now.conn.ghost_name ≡ keeper.old.tx.now.conn.ghost_name }
    ensures written { capped keeper.new.writes
        ≡ writes_after (length ids.now) result (capped keeper.old.writes) }
    ensures puts { Puts (state S.Store keeper.old.tx.now.conn.now)
        (state S.Store keeper.new.tx.now.conn.now) keeper.old.failures keeper.new.failures
        result (λ _. AltersAll ids.now (with_inh which entries.now)) }
{
    let order = in_order(keeper.alloc, ids)?;
    let text = keeper.lists.print(keeper.alloc, entries)?;
    let done = put_runs(keeper, order.as_slice(), which, text.as_str());
    drop(text);
    drop(order);
    done?;
    count_all(&mut keeper.writes, ids.len() as u64);
    Ok(())
}
