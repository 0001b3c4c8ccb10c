//! How the pairs are exchanged.
ghost use Rattle.std.specs.Prelude.{◌≡◌, ◌+◌, ◌<◌, ◌↔◌, [], Ok, Some, IfOk, IsTrue, length, map};
ghost use Rattle.std.specs.Prelude.{take};
ghost use Rattle.std.specs.List.Sorted.{IsPermutation, IsSorted};
ghost use Rattle.std.specs.Ordering.{is_eq};
ghost use Rattle.sqlite.specs.Held.{state};
ghost use Rattle.sqlite.specs.declared.types.Value.TheVariants.{Text as SqlText};
ghost use Rattle.store_tables.specs.Meaning.{name_in};
ghost use Rattle.store_tables.specs.Paired.{pair_cmp};
ghost use Rattle.store_tables.specs.Statements.{OfAny, ExecutesSql};
ghost use Rattle.store_tables.specs.Carries.{CallsInside, NoTables};
ghost use Rattle.store_admin.specs.Operating.{ExchangesMembers, Gathers, IsAgain, Joins};

use crate::operating::{compare, delete_members, insert_member};
use room_ace::{Name, names_are_text};
use room_rows::KeepFault;
use sqlite::{Alter, Error, Transaction};
use std::alloc::{AllocError, Global};
use store_tables::fault_for;

// The pairs in order, so that those which are the same stand side by side.
fn in_order<'a>(
    alloc: Global,
    pairs: &'a [(Name, Name)],
) -> Result<Vec<&'a (Name, Name)>, AllocError>
    ensures same { IfOk result
        (λ order. IsPermutation pairs.now (map (λ pair. pair.now) order.items)) }
    ensures sorted { IfOk result
        (λ order. IsSorted pair_cmp (map (λ pair. pair.now) order.items)) }
{
    let mut order = Vec::new(alloc);
    for pair in pairs {
        order.push(pair)?;
    }
    order.sort_unstable_by(|a, b| compare(a, b));
    Ok(order)
}

// Tells a proof that the names of a pair are read back.
fn is_read_back(pair: &(Name, Name))
    ensures group { name_in (SqlText pair.now.0) ≡ Some pair.now.0 }
    ensures user { name_in (SqlText pair.now.1) ≡ Some pair.now.1 }
{
    names_are_text();
    pair.0.is_known();
    pair.1.is_known();
}

// Puts in a row with the pair.
fn insert_pair<S: Alter>(tx: &mut Transaction<'_, S>, pair: &(Name, Name)) -> Result<usize, Error>
    ensures same_reference { tx.new.conn.ghost_name ≡ tx.old.conn.ghost_name }
    ensures writes { ExecutesSql (OfAny (Joins pair.now.0 pair.now.1))
        (state S.Store tx.old.conn.now) (state S.Store tx.new.conn.now) result }
{
    insert_member(tx, pair.0.as_str(), pair.1.as_str())
}

/// Whether the pairs are the same.
pub(crate) fn is_same(pair: &(Name, Name), other: &(Name, Name)) -> bool
    ensures { result ≡ is_eq (pair_cmp pair.now other.now) }
{
    compare(pair, other).is_eq()
}

// Whether the pair at this place stands right before it too.
fn is_again(order: &[&(Name, Name)], index: usize) -> bool
    requires { index < length order.now }
    ensures { IsTrue result ↔ IsAgain (map (λ pair. pair.now) order.now) index }
{
    if index == 0 {
        return false;
    }
    is_same(order[index - 1], order[index])
}

// Puts in the pair at this place, unless it is the one before.
fn insert_at<S: Alter>(
    tx: &mut Transaction<'_, S>,
    order: &[&(Name, Name)],
    index: usize,
) -> Result<(), KeepFault>
    requires { index < length order.now }
    ensures same_reference { tx.new.conn.ghost_name ≡ tx.old.conn.ghost_name }
    ensures carries { CallsInside (state S.Store tx.old.conn.now) (state S.Store tx.new.conn.now)
        result NoTables (Gathers (take index (map (λ pair. pair.now) order.now))
        (take (index + 1) (map (λ pair. pair.now) order.now))) }
    ensures again { IsAgain (map (λ pair. pair.now) order.now) index
        → (result ≡ Ok tt) × (tx.new.conn.now ≡ tx.old.conn.now) }
{
    if is_again(order, index) {
        return Ok(());
    }
    let pair = order[index];
    is_read_back(pair);
    match insert_pair(tx, pair) {
        Ok(_) => Ok(()),
        Err(error) => Err(fault_for(error)),
    }
}

// Puts in each pair once.
fn insert_each<S: Alter>(
    tx: &mut Transaction<'_, S>,
    order: &[&(Name, Name)],
) -> Result<(), KeepFault>
    ensures same_reference { tx.new.conn.ghost_name ≡ tx.old.conn.ghost_name }
    ensures carries { CallsInside (state S.Store tx.old.conn.now) (state S.Store tx.new.conn.now)
        result NoTables (Gathers [] (map (λ pair. pair.now) order.now)) }
{
    for index in 0..order.len() {
        insert_at(tx, order, index)?;
    }
    Ok(())
}

/// Replaces the pairs of group and user by these, each once. Rows that were no pairs are removed.
/// No other table is changed.
pub fn put_members<S: Alter>(
    alloc: Global,
    tx: &mut Transaction<'_, S>,
    pairs: &[(Name, Name)],
) -> Result<(), KeepFault>
    ensures same_reference { tx.new.conn.ghost_name ≡ tx.old.conn.ghost_name }
    ensures carries { CallsInside (state S.Store tx.old.conn.now) (state S.Store tx.new.conn.now)
        result NoTables (ExchangesMembers pairs.now) }
{
    let order = in_order(alloc, pairs)?;
    match delete_members(tx) {
        Ok(_) => {}
        Err(error) => return Err(fault_for(error)),
    }
    insert_each(tx, order.as_slice())
}
