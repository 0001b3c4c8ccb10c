//! The keeper of the rows of a room's tables.
ghost use Rattle.std.proofs.Common.{arith, refl, ◌∙◌};
ghost use Rattle.sqlite.specs.Held.{state};
ghost use Rattle.room_rows.specs.Counts.{capped_ends, capped_rises};
ghost use Rattle.std.specs.Prelude.{◌≡◌, ◌≤◌, ◌+◌, pos};
ghost use Rattle.room_rows.specs.Held.{with_held};
ghost use Rattle.room_rows.specs.Calls.{Reads};
ghost use Rattle.room_rows.specs.Keep.{AreChildrenOf, AreNamedUnder, HasChildren, HasNoRoot};
ghost use Rattle.room_rows.specs.Keep.{IsChildOf, IsRootOf, IsUnreadable};
ghost use Rattle.room_rows.specs.Keep.{capped, with_owners, with_place, writes_after};
ghost use Rattle.store_tables.specs.Meaning.{rows_of};
ghost use Rattle.store_tables.specs.Columns.{IsInserted};
ghost use Rattle.room_entry.specs.Valid.{is_document};
ghost use Rattle.store_tables.specs.Shown.{GetsBytes, Stays};
ghost use Rattle.store_tables.specs.Trust.{Alters, HasNoted, IsTrusted, Puts};
ghost use Rattle.store_tables.specs.Trust.{stays_itself};
ghost use Rattle.store_tables.specs.Trust.{stays_on, trusted_first, trusted_last};
ghost use Rattle.store_tables.specs.RoomRows.{room_rows};
ghost use Rattle.store_tables.specs.Whole.{Sees, SeesEach, SeesNamed, SeesSome, SeesTop};

use crate::bodies::fill_bytes;
use crate::columns::{columns_of, held_columns, name_is_kept, record_of, text_is_kept};
use crate::fault::{or_blamed, wrote_one};
use crate::inherited::{put_inh, put_inh_all};
use crate::reading::number_of;
use crate::recent::RecentLists;
use crate::seen::{
    answer, answer_top, see_all, see_bytes, see_listing, see_names, see_numbers, see_only,
};
use crate::statements::{
    delete_node, insert_bytes, insert_node, insert_record, select_bytes, select_child,
    select_groups, select_names, select_node, select_numbers, select_some, select_top,
    select_under, update_held, update_owners, update_place,
};
use room_ace::{Entry, Name, Names, Owners, Which, names_are_text};
use room_rows::{
    AuditRow, Bytes, Held, Keep, KeepFault, Listing, NewNode, Node, Nodes, Numbers, count_one,
    failed,
};
use sqlite::types::ValueRef;
use sqlite::{Alter, Transaction};
use std::alloc::Global;

/// The rows of a room's tables, inside one transaction. Whoever begins that writes the keeper out,
/// with both counts at 0: a call would hide from its proof which transaction the keeper holds.
#[derive(Drop)]
pub struct Keeper<'a, 'conn, S: Alter> {
    /// Where memory is taken.
    pub alloc: Global,
    /// The transaction.
    pub tx: &'a mut Transaction<'conn, S>,
    /// The lists that were read lately.
    pub lists: &'a mut RecentLists,
    /// How often the keeper itself failed.
    pub failures: u64,
    /// How much it wrote.
    pub writes: u64,
}

// Writes a list of an object that is there, and none of the row's other columns, which would cost
// more than twice as much.
fn put_held<S: Alter>(
    keeper: &mut Keeper<'_, '_, S>,
    id: u64,
    which: Which,
    held: &Held,
) -> Result<(), KeepFault>
    ensures same_reference { keeper.new.tx.ghost_name ≡ keeper.old.tx.ghost_name }
    ensures same_lender { keeper.new.tx.now.conn.ghost_name ≡ keeper.old.tx.now.conn.ghost_name }
    ensures written { capped keeper.new.writes ≡ writes_after 1 result (capped keeper.old.writes) }
    ensures puts { Puts (state S.Store keeper.old.tx.now.conn.now)
        (state S.Store keeper.new.tx.now.conn.now) keeper.old.failures keeper.new.failures
        result (λ _. Alters id (with_held which held.now)) }
{
    let list = held_columns(keeper.alloc, held)?;
    let done = update_held(keeper.tx, id, which, &list);
    drop(list);
    wrote_one(done, &mut keeper.failures)?;
    count_one(&mut keeper.writes);
    Ok(())
}

// Writes the owners of an object that is there.
fn put_owners<S: Alter>(
    keeper: &mut Keeper<'_, '_, S>,
    id: u64,
    owners: &Owners,
) -> Result<(), KeepFault>
    ensures same_reference { keeper.new.tx.ghost_name ≡ keeper.old.tx.ghost_name }
    ensures same_lender { keeper.new.tx.now.conn.ghost_name ≡ keeper.old.tx.now.conn.ghost_name }
    ensures written { capped keeper.new.writes ≡ writes_after 1 result (capped keeper.old.writes) }
    ensures puts { Puts (state S.Store keeper.old.tx.now.conn.now)
        (state S.Store keeper.new.tx.now.conn.now) keeper.old.failures keeper.new.failures
        result (λ _. Alters id (with_owners owners.now)) }
{
    name_is_kept(&owners.owner);
    name_is_kept(&owners.group);
    let done = update_owners(keeper.tx, id, owners.owner.as_str(), owners.group.as_str());
    wrote_one(done, &mut keeper.failures)?;
    count_one(&mut keeper.writes);
    Ok(())
}

// Writes where an object that is there lies.
fn put_place<S: Alter>(
    keeper: &mut Keeper<'_, '_, S>,
    id: u64,
    parent: u64,
    name: &str,
) -> Result<(), KeepFault>
    ensures same_reference { keeper.new.tx.ghost_name ≡ keeper.old.tx.ghost_name }
    ensures same_lender { keeper.new.tx.now.conn.ghost_name ≡ keeper.old.tx.now.conn.ghost_name }
    ensures written { capped keeper.new.writes ≡ writes_after 1 result (capped keeper.old.writes) }
    ensures puts { Puts (state S.Store keeper.old.tx.now.conn.now)
        (state S.Store keeper.new.tx.now.conn.now) keeper.old.failures keeper.new.failures
        result (λ _. Alters id (with_place parent name.now)) }
{
    text_is_kept(name);
    let done = update_place(keeper.tx, id, parent, name);
    wrote_one(done, &mut keeper.failures)?;
    count_one(&mut keeper.writes);
    Ok(())
}

// Puts in the row of a new object, and answers its number.
fn put_new<S: Alter>(keeper: &mut Keeper<'_, '_, S>, node: &Node) -> Result<u64, KeepFault>
    ensures same_reference { keeper.new.tx.ghost_name ≡ keeper.old.tx.ghost_name }
    ensures same_lender { keeper.new.tx.now.conn.ghost_name ≡ keeper.old.tx.now.conn.ghost_name }
    ensures unwritten { keeper.new.writes ≡ keeper.old.writes }
    ensures puts { Puts (state S.Store keeper.old.tx.now.conn.now)
        (state S.Store keeper.new.tx.now.conn.now) keeper.old.failures keeper.new.failures
        result (IsInserted node.now) }
{
    let Some(columns) = columns_of(keeper.alloc, node)? else {
        return Err(failed(&mut keeper.failures));
    };
    let done = insert_node(keeper.tx, &columns);
    drop(columns);
    or_blamed(done, &mut keeper.failures)?;
    match number_of(ValueRef::Int(keeper.tx.last_insert_rowid())) {
        Some(id) => Ok(id),
        None => Err(failed(&mut keeper.failures)),
    }
}

// Puts in the bytes of a new object, where it is a document.
fn put_bytes<S: Alter>(
    keeper: &mut Keeper<'_, '_, S>,
    id: u64,
    node: &Node,
    bytes: &[u8],
) -> Result<(), KeepFault>
    ensures same_reference { keeper.new.tx.ghost_name ≡ keeper.old.tx.ghost_name }
    ensures same_lender { keeper.new.tx.now.conn.ghost_name ≡ keeper.old.tx.now.conn.ghost_name }
    ensures unwritten { keeper.new.writes ≡ keeper.old.writes }
    ensures puts { Puts (state S.Store keeper.old.tx.now.conn.now)
        (state S.Store keeper.new.tx.now.conn.now) keeper.old.failures keeper.new.failures
        result (λ _. GetsBytes (is_document node.now.kind) (pos id) bytes.now) }
{
    if !node.is_document() {
        return Ok(());
    }
    or_blamed(insert_bytes(keeper.tx, id, bytes), &mut keeper.failures)?;
    Ok(())
}

// Puts in a record.
fn put_record<S: Alter>(keeper: &mut Keeper<'_, '_, S>, row: &AuditRow) -> Result<(), KeepFault>
    ensures same_reference { keeper.new.tx.ghost_name ≡ keeper.old.tx.ghost_name }
    ensures same_lender { keeper.new.tx.now.conn.ghost_name ≡ keeper.old.tx.now.conn.ghost_name }
    ensures written { capped keeper.new.writes ≡ writes_after 1 result (capped keeper.old.writes) }
    ensures puts { Puts (state S.Store keeper.old.tx.now.conn.now)
        (state S.Store keeper.new.tx.now.conn.now) keeper.old.failures keeper.new.failures
        result (λ _. HasNoted row.now) }
{
    let Some(record) = record_of(keeper.alloc, row)? else {
        return Err(failed(&mut keeper.failures));
    };
    let done = insert_record(keeper.tx, &record);
    drop(record);
    or_blamed(done, &mut keeper.failures)?;
    count_one(&mut keeper.writes);
    Ok(())
}

impl<'a, 'conn, S: Alter> Keep for Keeper<'a, 'conn, S> {
    ghost rows = { λ k. rows_of (state S.Store k.tx.now.conn.now).now };

    ghost failures = { λ k. capped k.failures };

    ghost writes = { λ k. capped k.writes };

    // It doesn't count the calls that read.
    ghost reads = { λ k. 0 };

    ghost Follows = { λ a b.
        (b.tx.ghost_name ≡ a.tx.ghost_name)
        × (b.tx.now.conn.ghost_name ≡ a.tx.now.conn.ghost_name)
        × Stays (state S.Store a.tx.now.conn.now) (state S.Store b.tx.now.conn.now)
        × (a.failures ≤ b.failures)
        × (capped a.writes ≤ capped b.writes) };

    ghost IsTrusted = { λ a b.
        IsTrusted (state S.Store a.tx.now.conn.now) (state S.Store b.tx.now.conn.now) };

    ghost laws = { record {
      itself = λ a. (refl, refl, stays_itself _, Prim.omega arith, Prim.omega arith);
      on = λ a b c p q. (
        q.0 ∙ p.0,
        q.1 ∙ p.1,
        stays_on _ _ _ p.2 q.2,
        Prim.omega (arith, p.3, q.3),
        Prim.omega (arith, p.4, q.4),
      );
      rise = λ a b p. capped_rises _ _ p.3;
      grow = λ a b p. p.4;
      ends = λ a. (capped_ends _, capped_ends _);
      first = λ a b c p q t. trusted_first _ _ _ p.2 q.2 t;
      last = λ a b c p q t. trusted_last _ _ _ p.2 q.2 t;
      are = λ a b t. room_rows _ t.now;
    } };

    fn root(&mut self) -> Result<Node, KeepFault>
        ensures read { Reads ⟦<Keeper<'a, 'conn, S> as Keep>⟧ self.old self.new result
            HasNoRoot IsRootOf }
        ensures counted { ⟦<Keeper<'a, 'conn, S> as Keep>⟧.reads self.new
            ≤ ⟦<Keeper<'a, 'conn, S> as Keep>⟧.reads self.old + 1 }
        ensures whole { Sees (state S.Store self.old.tx.now.conn.now)
            (state S.Store self.new.tx.now.conn.now) result SeesTop }
    {
        let rows = or_blamed(select_top(self.tx), &mut self.failures)?;
        let seen = see_only(self.alloc, self.lists, rows.as_slice())?;
        answer_top(seen, &mut self.failures)
    }

    fn ids(&mut self) -> Result<Numbers, KeepFault> {
        let rows = or_blamed(select_numbers(self.tx), &mut self.failures)?;
        let ids = see_numbers(self.alloc, rows.as_slice())?;
        Ok(ids)
    }

    fn node(&mut self, id: u64) -> Result<Option<Node>, KeepFault> {
        let rows = or_blamed(select_node(self.tx, id), &mut self.failures)?;
        let seen = see_only(self.alloc, self.lists, rows.as_slice())?;
        answer(seen, &mut self.failures)
    }

    fn child(&mut self, parent: u64, name: &str) -> Result<Option<Node>, KeepFault>
        ensures read { Reads ⟦<Keeper<'a, 'conn, S> as Keep>⟧ self.old self.new result
            IsUnreadable (IsChildOf parent name.now) }
        ensures counted { ⟦<Keeper<'a, 'conn, S> as Keep>⟧.reads self.new
            ≤ ⟦<Keeper<'a, 'conn, S> as Keep>⟧.reads self.old + 1 }
        ensures whole { Sees (state S.Store self.old.tx.now.conn.now)
            (state S.Store self.new.tx.now.conn.now) result (SeesNamed parent name.now) }
    {
        let rows = or_blamed(select_child(self.tx, parent, name), &mut self.failures)?;
        let seen = see_only(self.alloc, self.lists, rows.as_slice())?;
        answer(seen, &mut self.failures)
    }

    fn children(&mut self, parent: u64) -> Result<Nodes, KeepFault>
        ensures read { Reads ⟦<Keeper<'a, 'conn, S> as Keep>⟧ self.old self.new result
            IsUnreadable (AreChildrenOf parent) }
        ensures counted { ⟦<Keeper<'a, 'conn, S> as Keep>⟧.reads self.new
            ≤ ⟦<Keeper<'a, 'conn, S> as Keep>⟧.reads self.old + 1 }
        ensures whole { Sees (state S.Store self.old.tx.now.conn.now)
            (state S.Store self.new.tx.now.conn.now) result (SeesEach parent) }
    {
        let rows = or_blamed(select_under(self.tx, parent), &mut self.failures)?;
        let seen = see_all(self.alloc, self.lists, rows.as_slice())?;
        answer(seen, &mut self.failures)
    }

    fn listing(&mut self, parent: u64) -> Result<Listing, KeepFault>
        ensures read { Reads ⟦<Keeper<'a, 'conn, S> as Keep>⟧ self.old self.new result
            IsUnreadable (AreNamedUnder parent) }
        ensures counted { ⟦<Keeper<'a, 'conn, S> as Keep>⟧.reads self.new
            ≤ ⟦<Keeper<'a, 'conn, S> as Keep>⟧.reads self.old + 1 }
        ensures whole { Sees (state S.Store self.old.tx.now.conn.now)
            (state S.Store self.new.tx.now.conn.now) result (SeesEach parent) }
    {
        let rows = or_blamed(select_names(self.tx, parent), &mut self.failures)?;
        let seen = see_listing(self.alloc, rows.as_slice())?;
        answer(seen, &mut self.failures)
    }

    fn has_children(&mut self, parent: u64) -> Result<bool, KeepFault>
        ensures read { Reads ⟦<Keeper<'a, 'conn, S> as Keep>⟧ self.old self.new result
            IsUnreadable (HasChildren parent) }
        ensures counted { ⟦<Keeper<'a, 'conn, S> as Keep>⟧.reads self.new
            ≤ ⟦<Keeper<'a, 'conn, S> as Keep>⟧.reads self.old + 1 }
        ensures whole { Sees (state S.Store self.old.tx.now.conn.now)
            (state S.Store self.new.tx.now.conn.now) result (SeesSome parent) }
    {
        let rows = or_blamed(select_some(self.tx, parent), &mut self.failures)?;
        Ok(!rows.as_slice().is_empty())
    }

    fn body(&mut self, id: u64) -> Result<Option<Bytes>, KeepFault> {
        let rows = or_blamed(select_bytes(self.tx, id), &mut self.failures)?;
        let seen = see_bytes(self.alloc, rows.as_slice())?;
        answer(seen, &mut self.failures)
    }

    fn groups_of(&mut self, user: &Name) -> Result<Names, KeepFault> {
        names_are_text();
        user.is_known();
        let rows = or_blamed(select_groups(self.tx, user.as_str()), &mut self.failures)?;
        let names = see_names(self.alloc, rows.as_slice())?;
        Ok(names)
    }

    fn add(&mut self, node: NewNode, bytes: &[u8]) -> Result<u64, KeepFault> {
        let node = node.at_number(0);
        let id = put_new(self, &node)?;
        let done = put_bytes(self, id, &node, bytes);
        drop(node);
        done?;
        count_one(&mut self.writes);
        Ok(id)
    }

    // Whoever sets a part of an object has just read its row, so it isn't read again.
    fn set_held(&mut self, id: u64, which: Which, held: &Held) -> Result<(), KeepFault> {
        put_held(self, id, which, held)
    }

    fn set_inh(&mut self, id: u64, which: Which, entries: &[Entry]) -> Result<(), KeepFault> {
        put_inh(self, id, which, entries)
    }

    fn set_inh_all(
        &mut self,
        ids: &[u64],
        which: Which,
        entries: &[Entry],
    ) -> Result<(), KeepFault> {
        put_inh_all(self, ids, which, entries)
    }

    fn set_owners(&mut self, id: u64, owners: &Owners) -> Result<(), KeepFault> {
        put_owners(self, id, owners)
    }

    fn set_place(&mut self, id: u64, parent: u64, name: &str) -> Result<(), KeepFault> {
        put_place(self, id, parent, name)
    }

    fn remove(&mut self, id: u64) -> Result<(), KeepFault> {
        wrote_one(delete_node(self.tx, id), &mut self.failures)?;
        count_one(&mut self.writes);
        Ok(())
    }

    fn set_body(&mut self, id: u64, bytes: &[u8]) -> Result<(), KeepFault> {
        fill_bytes(self, id, bytes)?;
        count_one(&mut self.writes);
        Ok(())
    }

    fn note(&mut self, row: AuditRow) -> Result<(), KeepFault> {
        put_record(self, &row)
    }
}
