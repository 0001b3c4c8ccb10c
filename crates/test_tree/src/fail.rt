//! A keeper that fails by a count of calls.
ghost use Rattle.std.specs.Prelude.{◌≡◌, ◌≤◌, ◌+◌, ◌-◌, length};
ghost use Rattle.std.proofs.Common.{arith};
ghost use Rattle.test_tree.specs.Failing.{Advances, HandsOn, fails_at};
ghost use Rattle.room_rows.specs.Held.{with_held};
ghost use Rattle.room_rows.specs.Keep.{
  Adds,
  AreChildrenOf,
  AreGroupsOf,
  AreNamedUnder,
  AreNumbers,
  Changes,
  ChangesAll,
  HasChildren,
  HasNoRoot,
  IsBodyOf,
  IsChildOf,
  IsNever,
  IsNodeAt,
  IsRootOf,
  IsUnreadable,
  IsUnreadableAt,
  Leaves,
  Notes,
  Places,
  Removes,
  SetsBody,
  capped,
  with_bytes,
  with_inh,
  with_owners,
};
ghost use Rattle.room_rows.specs.Calls.{Reads, Writes, WritesOf};
ghost use Rattle.room_rows.specs.Counts.{capped_ends, capped_rises};

use room_entry::{Entry, Name, Names, Owners, Which};
use room_rows::{
    AuditRow, Bytes, Held, Keep, KeepFault, Listing, NewNode, Node, Nodes, Numbers, failed,
};

/// Which of the next calls fail.
#[derive(Clone, Copy)]
enum Plan {
    /// The first n calls pass, and every later one fails.
    After(u64),
    /// The first n calls pass, the next one fails, and all others pass.
    Once(u64),
    /// None fails.
    Never,
}

/// Hands calls on to a keeper, and fails by a count of them: it then answers `Store`, and doesn't
/// call the keeper.
#[derive(Drop)]
pub struct FailKeep<K> {
    keeper: K,
    plan: Plan,
    failed: u64,
}

impl<K> FailKeep<K> {
    /// Hands the first `calls` calls on, those that read among them, and fails every later one.
    pub fn new(keeper: K, calls: u64) -> FailKeep<K>
        ensures { result ≡ record { keeper = keeper; plan = Plan.After calls; failed = 0 } }
    {
        FailKeep {
            keeper,
            plan: Plan::After(calls),
            failed: 0,
        }
    }

    /// Hands the first `calls` calls on, fails the next one, and hands on all others.
    pub fn once(keeper: K, calls: u64) -> FailKeep<K>
        ensures { result ≡ record { keeper = keeper; plan = Plan.Once calls; failed = 0 } }
    {
        FailKeep {
            keeper,
            plan: Plan::Once(calls),
            failed: 0,
        }
    }

    /// The keeper below.
    pub fn keeper(&self) -> &K
        ensures { result.now ≡ self.now.keeper }
    {
        &self.keeper
    }

    /// The keeper below, without this one around it.
    pub fn into_keeper(self) -> K
        ensures { result ≡ self.keeper }
    {
        self.keeper
    }

    // Whether the next call fails. It is counted.
    fn fails(&mut self) -> bool
        ensures now { result ≡ fails_at self.old.plan 0 }
        ensures later { Advances self.old.plan self.new.plan }
        ensures keeper { self.new.keeper ≡ self.old.keeper }
        ensures failed { self.new.failed ≡ self.old.failed }
    {
        match self.plan {
            Plan::After(0) => true,
            Plan::After(left) => {
                self.plan = Plan::After(left - 1);
                false
            }
            Plan::Once(0) => {
                self.plan = Plan::Never;
                true
            }
            Plan::Once(left) => {
                self.plan = Plan::Once(left - 1);
                false
            }
            Plan::Never => false,
        }
    }
}

impl<K: Keep> Keep for FailKeep<K> {
    ghost rows = { λ k. K.rows k.keeper };

    ghost failures = { λ k. capped (K.failures k.keeper + k.failed) };

    ghost writes = { λ k. K.writes k.keeper };

    ghost reads = { λ k. K.reads k.keeper };

    ghost Follows = { λ a b. K.Follows a.keeper b.keeper × (a.failed ≤ b.failed) };

    ghost IsTrusted = { λ a b. K.IsTrusted a.keeper b.keeper };

    ghost laws = { record {
      itself = λ a. (K.laws.itself a.keeper, Prim.omega arith);
      on = λ a b c p q. (K.laws.on _ _ _ p.0 q.0, Prim.omega (arith, p.1, q.1));
      rise = λ a b p. capped_rises _ _ (Prim.omega (arith, K.laws.rise _ _ p.0, p.1));
      grow = λ a b p. K.laws.grow _ _ p.0;
      ends = λ a. (capped_ends _, (K.laws.ends a.keeper).1);
      first = λ a b c p q t. K.laws.first _ _ _ p.0 q.0 t;
      last = λ a b c p q t. K.laws.last _ _ _ p.0 q.0 t;
      are = λ a b t. K.laws.are _ _ t;
    } };

    fn root(&mut self) -> Result<Node, KeepFault>
        ensures read { Reads ⟦<FailKeep<K> as Keep>⟧ self.old self.new result HasNoRoot IsRootOf }
        ensures counted { K.reads self.new.keeper ≤ K.reads self.old.keeper + 1 }
        ensures handed { HandsOn self.old self.new result
            (Reads K.Keep self.old.keeper self.new.keeper result HasNoRoot IsRootOf) }
    {
        if self.fails() {
            return Err(failed(&mut self.failed));
        }
        self.keeper.root()
    }

    fn ids(&mut self) -> Result<Numbers, KeepFault>
        ensures read { Reads ⟦<FailKeep<K> as Keep>⟧ self.old self.new result IsNever AreNumbers }
        ensures counted { K.reads self.new.keeper ≤ K.reads self.old.keeper + 1 }
        ensures handed { HandsOn self.old self.new result
            (Reads K.Keep self.old.keeper self.new.keeper result IsNever AreNumbers) }
    {
        if self.fails() {
            return Err(failed(&mut self.failed));
        }
        self.keeper.ids()
    }

    fn node(&mut self, id: u64) -> Result<Option<Node>, KeepFault>
        ensures read { Reads ⟦<FailKeep<K> as Keep>⟧ self.old self.new result
            (IsUnreadableAt id) (IsNodeAt id) }
        ensures counted { K.reads self.new.keeper ≤ K.reads self.old.keeper + 1 }
        ensures handed { HandsOn self.old self.new result
            (Reads K.Keep self.old.keeper self.new.keeper result
            (IsUnreadableAt id) (IsNodeAt id)) }
    {
        if self.fails() {
            return Err(failed(&mut self.failed));
        }
        self.keeper.node(id)
    }

    fn child(&mut self, parent: u64, name: &str) -> Result<Option<Node>, KeepFault>
        ensures read { Reads ⟦<FailKeep<K> as Keep>⟧ self.old self.new result
            IsUnreadable (IsChildOf parent name.now) }
        ensures counted { K.reads self.new.keeper ≤ K.reads self.old.keeper + 1 }
        ensures handed { HandsOn self.old self.new result
            (Reads K.Keep self.old.keeper self.new.keeper result
            IsUnreadable (IsChildOf parent name.now)) }
    {
        if self.fails() {
            return Err(failed(&mut self.failed));
        }
        self.keeper.child(parent, name)
    }

    fn children(&mut self, parent: u64) -> Result<Nodes, KeepFault>
        ensures read { Reads ⟦<FailKeep<K> as Keep>⟧ self.old self.new result
            IsUnreadable (AreChildrenOf parent) }
        ensures counted { K.reads self.new.keeper ≤ K.reads self.old.keeper + 1 }
        ensures handed { HandsOn self.old self.new result
            (Reads K.Keep self.old.keeper self.new.keeper result
            IsUnreadable (AreChildrenOf parent)) }
    {
        if self.fails() {
            return Err(failed(&mut self.failed));
        }
        self.keeper.children(parent)
    }

    fn listing(&mut self, parent: u64) -> Result<Listing, KeepFault>
        ensures read { Reads ⟦<FailKeep<K> as Keep>⟧ self.old self.new result
            IsUnreadable (AreNamedUnder parent) }
        ensures counted { K.reads self.new.keeper ≤ K.reads self.old.keeper + 1 }
        ensures handed { HandsOn self.old self.new result
            (Reads K.Keep self.old.keeper self.new.keeper result
            IsUnreadable (AreNamedUnder parent)) }
    {
        if self.fails() {
            return Err(failed(&mut self.failed));
        }
        self.keeper.listing(parent)
    }

    fn has_children(&mut self, parent: u64) -> Result<bool, KeepFault>
        ensures read { Reads ⟦<FailKeep<K> as Keep>⟧ self.old self.new result
            IsUnreadable (HasChildren parent) }
        ensures counted { K.reads self.new.keeper ≤ K.reads self.old.keeper + 1 }
        ensures handed { HandsOn self.old self.new result
            (Reads K.Keep self.old.keeper self.new.keeper result
            IsUnreadable (HasChildren parent)) }
    {
        if self.fails() {
            return Err(failed(&mut self.failed));
        }
        self.keeper.has_children(parent)
    }

    fn body(&mut self, id: u64) -> Result<Option<Bytes>, KeepFault>
        ensures read { Reads ⟦<FailKeep<K> as Keep>⟧ self.old self.new result
            IsNever (IsBodyOf id) }
        ensures counted { K.reads self.new.keeper ≤ K.reads self.old.keeper + 1 }
        ensures handed { HandsOn self.old self.new result
            (Reads K.Keep self.old.keeper self.new.keeper result IsNever (IsBodyOf id)) }
    {
        if self.fails() {
            return Err(failed(&mut self.failed));
        }
        self.keeper.body(id)
    }

    fn groups_of(&mut self, user: &Name) -> Result<Names, KeepFault>
        ensures read { Reads ⟦<FailKeep<K> as Keep>⟧ self.old self.new result
            IsNever (AreGroupsOf user.now) }
        ensures counted { K.reads self.new.keeper ≤ K.reads self.old.keeper + 1 }
        ensures handed { HandsOn self.old self.new result
            (Reads K.Keep self.old.keeper self.new.keeper result IsNever (AreGroupsOf user.now)) }
    {
        if self.fails() {
            return Err(failed(&mut self.failed));
        }
        self.keeper.groups_of(user)
    }

    fn add(&mut self, node: NewNode, bytes: &[u8]) -> Result<u64, KeepFault>
        ensures written { Writes ⟦<FailKeep<K> as Keep>⟧ self.old self.new result
            IsUnreadable (Adds (with_bytes node bytes.now)) }
        ensures unread { K.reads self.new.keeper ≤ K.reads self.old.keeper }
        ensures handed { HandsOn self.old self.new result
            (Writes K.Keep self.old.keeper self.new.keeper result
            IsUnreadable (Adds (with_bytes node bytes.now))) }
    {
        if self.fails() {
            return Err(failed(&mut self.failed));
        }
        self.keeper.add(node, bytes)
    }

    fn set_held(&mut self, id: u64, which: Which, held: &Held) -> Result<(), KeepFault>
        ensures written { Writes ⟦<FailKeep<K> as Keep>⟧ self.old self.new result
            IsUnreadable (Leaves (Changes id (with_held which held.now))) }
        ensures unread { K.reads self.new.keeper ≤ K.reads self.old.keeper }
        ensures handed { HandsOn self.old self.new result
            (Writes K.Keep self.old.keeper self.new.keeper result
            IsUnreadable (Leaves (Changes id (with_held which held.now)))) }
    {
        if self.fails() {
            return Err(failed(&mut self.failed));
        }
        self.keeper.set_held(id, which, held)
    }

    fn set_inh(&mut self, id: u64, which: Which, entries: &[Entry]) -> Result<(), KeepFault>
        ensures written { Writes ⟦<FailKeep<K> as Keep>⟧ self.old self.new result
            IsUnreadable (Leaves (Changes id (with_inh which entries.now))) }
        ensures unread { K.reads self.new.keeper ≤ K.reads self.old.keeper }
        ensures handed { HandsOn self.old self.new result
            (Writes K.Keep self.old.keeper self.new.keeper result
            IsUnreadable (Leaves (Changes id (with_inh which entries.now)))) }
    {
        if self.fails() {
            return Err(failed(&mut self.failed));
        }
        self.keeper.set_inh(id, which, entries)
    }

    fn set_inh_all(&mut self, ids: &[u64], which: Which, entries: &[Entry]) -> Result<(), KeepFault>
        ensures written { WritesOf ⟦<FailKeep<K> as Keep>⟧ self.old self.new result (length ids.now)
            IsUnreadable (Leaves (ChangesAll ids.now (with_inh which entries.now))) }
        ensures unread { K.reads self.new.keeper ≤
            K.reads self.old.keeper + (1 - length ids.now) }
        ensures handed { HandsOn self.old self.new result
            (WritesOf K.Keep self.old.keeper self.new.keeper result (length ids.now)
            IsUnreadable (Leaves (ChangesAll ids.now (with_inh which entries.now)))) }
    {
        if self.fails() {
            return Err(failed(&mut self.failed));
        }
        self.keeper.set_inh_all(ids, which, entries)
    }

    fn set_owners(&mut self, id: u64, owners: &Owners) -> Result<(), KeepFault>
        ensures written { Writes ⟦<FailKeep<K> as Keep>⟧ self.old self.new result
            IsUnreadable (Leaves (Changes id (with_owners owners.now))) }
        ensures unread { K.reads self.new.keeper ≤ K.reads self.old.keeper }
        ensures handed { HandsOn self.old self.new result
            (Writes K.Keep self.old.keeper self.new.keeper result
            IsUnreadable (Leaves (Changes id (with_owners owners.now)))) }
    {
        if self.fails() {
            return Err(failed(&mut self.failed));
        }
        self.keeper.set_owners(id, owners)
    }

    fn set_place(&mut self, id: u64, parent: u64, name: &str) -> Result<(), KeepFault>
        ensures written { Writes ⟦<FailKeep<K> as Keep>⟧ self.old self.new result
            IsUnreadable (Leaves (Places id parent name.now)) }
        ensures unread { K.reads self.new.keeper ≤ K.reads self.old.keeper }
        ensures handed { HandsOn self.old self.new result
            (Writes K.Keep self.old.keeper self.new.keeper result
            IsUnreadable (Leaves (Places id parent name.now))) }
    {
        if self.fails() {
            return Err(failed(&mut self.failed));
        }
        self.keeper.set_place(id, parent, name)
    }

    fn remove(&mut self, id: u64) -> Result<(), KeepFault>
        ensures written { Writes ⟦<FailKeep<K> as Keep>⟧ self.old self.new result
            IsUnreadable (Leaves (Removes id)) }
        ensures unread { K.reads self.new.keeper ≤ K.reads self.old.keeper }
        ensures handed { HandsOn self.old self.new result
            (Writes K.Keep self.old.keeper self.new.keeper result
            IsUnreadable (Leaves (Removes id))) }
    {
        if self.fails() {
            return Err(failed(&mut self.failed));
        }
        self.keeper.remove(id)
    }

    fn set_body(&mut self, id: u64, bytes: &[u8]) -> Result<(), KeepFault>
        ensures written { Writes ⟦<FailKeep<K> as Keep>⟧ self.old self.new result
            IsUnreadable (Leaves (SetsBody id bytes.now)) }
        ensures unread { K.reads self.new.keeper ≤ K.reads self.old.keeper }
        ensures handed { HandsOn self.old self.new result
            (Writes K.Keep self.old.keeper self.new.keeper result
            IsUnreadable (Leaves (SetsBody id bytes.now))) }
    {
        if self.fails() {
            return Err(failed(&mut self.failed));
        }
        self.keeper.set_body(id, bytes)
    }

    fn note(&mut self, row: AuditRow) -> Result<(), KeepFault>
        ensures written { Writes ⟦<FailKeep<K> as Keep>⟧ self.old self.new result
            IsNever (Leaves (Notes row)) }
        ensures unread { K.reads self.new.keeper ≤ K.reads self.old.keeper }
        ensures handed { HandsOn self.old self.new result
            (Writes K.Keep self.old.keeper self.new.keeper result IsNever (Leaves (Notes row))) }
    {
        if self.fails() {
            return Err(failed(&mut self.failed));
        }
        self.keeper.note(row)
    }
}
