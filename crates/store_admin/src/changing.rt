//! How some pairs leave and others join.
ghost use Rattle.std.specs.Prelude.{◌≡◌, ◌++◌, IfOk, OnOk, length};
ghost use Rattle.sqlite.specs.Held.{state};
ghost use Rattle.store_tables.specs.Carries.{CallsInside, NoTables};
ghost use Rattle.store_admin.specs.Changing.{ChangesTables, ChangesThese, PutsAndReads, changed};
ghost use Rattle.store_admin.specs.Changing.{is_among, staying};

use crate::operating::all_members;
use crate::putting::{is_same, put_members};
use room_ace::Name;
use room_rows::KeepFault;
use sqlite::{Alter, Transaction};
use std::alloc::{AllocError, Global};

/// What a change of some pairs did.
#[derive(Drop)]
pub struct Changed {
    /// How many pairs were there and left.
    pub left: usize,
    /// How many weren't there and joined. One that leaves and joins is counted in both.
    pub joined: usize,
    /// All pairs that are there now, in order of group and then of user, each once.
    pub pairs: Vec<(Name, Name)>,
}

// Whether the pair is one of these.
fn is_among(pair: &(Name, Name), others: &[(Name, Name)]) -> bool
    ensures { result ≡ is_among pair.now others.now }
{
    for other in others {
        if is_same(pair, other) {
            return true;
        }
    }
    false
}

fn copy_of(pair: &(Name, Name)) -> Result<(Name, Name), AllocError>
    ensures { IfOk result (λ copy. copy ≡ pair.now) }
{
    let group = pair.0.copy()?;
    let user = pair.1.copy()?;
    Ok((group, user))
}

// The pairs without those that leave.
fn staying(
    alloc: Global,
    pairs: &[(Name, Name)],
    leaves: &[(Name, Name)],
) -> Result<Vec<(Name, Name)>, AllocError>
    ensures { IfOk result (λ kept. kept.items ≡ staying leaves.now pairs.now) }
{
    let mut kept = Vec::new(alloc);
    for pair in pairs {
        if !is_among(pair, leaves) {
            kept.push(copy_of(pair)?)?;
        }
    }
    Ok(kept)
}

// Adds those that join.
fn add(pairs: &mut Vec<(Name, Name)>, joins: &[(Name, Name)]) -> Result<(), AllocError>
    ensures { OnOk result (pairs.new.items ≡ pairs.old.items ++ joins.now) }
{
    for pair in joins {
        pairs.push(copy_of(pair)?)?;
    }
    Ok(())
}

// The pairs once some have left and others have joined, and how many of them were there and stay.
fn change(
    alloc: Global,
    pairs: &[(Name, Name)],
    joins: &[(Name, Name)],
    leaves: &[(Name, Name)],
) -> Result<(Vec<(Name, Name)>, usize), AllocError>
    ensures { IfOk result (λ made. (made.0.items ≡ changed joins.now leaves.now pairs.now)
        × (made.1 ≡ length (staying leaves.now pairs.now))) }
{
    let mut made = staying(alloc, pairs, leaves)?;
    let kept = made.len();
    add(&mut made, joins)?;
    Ok((made, kept))
}

// Replaces the pairs by these, and reads what is there then.
fn put_and_read<S: Alter>(
    alloc: Global,
    tx: &mut Transaction<'_, S>,
    pairs: &[(Name, Name)],
) -> Result<Vec<(Name, Name)>, KeepFault>
    ensures same_reference { tx.new.conn.ghost_name ≡ tx.old.conn.ghost_name }
    ensures carries { CallsInside (state S.Store tx.old.conn.now) (state S.Store tx.new.conn.now)
        result NoTables (PutsAndReads pairs.now) }
{
    match put_members(alloc, tx, pairs) {
        Ok(()) => all_members(alloc, tx),
        Err(fault) => Err(fault),
    }
}

// Replaces the pairs, which are these, once some have left and others have joined.
fn change_these<S: Alter>(
    alloc: Global,
    tx: &mut Transaction<'_, S>,
    pairs: &[(Name, Name)],
    joins: &[(Name, Name)],
    leaves: &[(Name, Name)],
) -> Result<Changed, KeepFault>
    ensures same_reference { tx.new.conn.ghost_name ≡ tx.old.conn.ghost_name }
    ensures carries { CallsInside (state S.Store tx.old.conn.now) (state S.Store tx.new.conn.now)
        result NoTables (ChangesThese joins.now leaves.now pairs.now) }
{
    let (made, kept) = match change(alloc, pairs, joins, leaves) {
        Ok(made) => made,
        Err(AllocError) => return Err(KeepFault::Memory),
    };
    match put_and_read(alloc, tx, made.as_slice()) {
        Ok(after) => Ok(Changed {
            left: pairs.len().saturating_sub(kept),
            joined: after.len().saturating_sub(kept),
            pairs: after,
        }),
        Err(fault) => Err(fault),
    }
}

/// Takes out the pairs that leave, and puts in those that join, each once. A pair that does both is
/// there afterwards. One that leaves and isn't there, or joins and is there, changes nothing. Rows
/// that were no pairs are removed. No other table is changed.
pub fn change_members<S: Alter>(
    alloc: Global,
    tx: &mut Transaction<'_, S>,
    joins: &[(Name, Name)],
    leaves: &[(Name, Name)],
) -> Result<Changed, KeepFault>
    ensures same_reference { tx.new.conn.ghost_name ≡ tx.old.conn.ghost_name }
    ensures carries { CallsInside (state S.Store tx.old.conn.now) (state S.Store tx.new.conn.now)
        result NoTables (ChangesTables joins.now leaves.now) }
{
    match all_members(alloc, tx) {
        Ok(pairs) => change_these(alloc, tx, pairs.as_slice(), joins, leaves),
        Err(fault) => Err(fault),
    }
}
