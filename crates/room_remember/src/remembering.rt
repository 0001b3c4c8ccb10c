//! The keeper that remembers.
ghost use Rattle.std.specs.Prelude.{◌≡◌};
ghost use Rattle.room_rows.specs.Calls.{Reads};
ghost use Rattle.room_rows.specs.Held.{with_held};
ghost use Rattle.room_rows.specs.Keep.{
  AreGroupsOf,
  AreNamedUnder,
  HasNoRoot,
  IsChildOf,
  IsNever,
  IsRootOf,
  IsUnreadable,
  with_inh,
  with_owners,
};
ghost use Rattle.room_remember.specs.Follows.{
  FollowsOn,
  Forgets,
  IsTrustedWith,
  Learns,
  Settles,
  follows_itself,
  follows_on,
  trusted_first,
  trusted_last,
};

use crate::memory::Memory;
use room_entry::{Entry, Name, Names, Owners, Which};
use room_rows::{AuditRow, Bytes, Held, Keep, KeepFault, Listing, NewNode, Node, Nodes, Numbers};
use std::alloc::Global;

/// A keeper, and what is remembered of its rows. From the first call on that writes or fails,
/// nothing is remembered.
#[derive(Drop)]
pub struct Remembering<'a, K> {
    /// Where memory is taken.
    pub alloc: Global,
    /// The keeper.
    pub keeper: &'a mut K,
    /// What is remembered.
    pub memory: &'a mut Memory,
    /// Whether a call wrote or failed.
    pub touched: bool,
}

impl<'a, K> Remembering<'a, K> {
    // Forgets everything, since the rows may change.
    fn forget(&mut self)
        ensures { Forgets self.old self.new }
    {
        self.memory.forget();
        self.touched = true;
    }

    // Forgets everything after a fault.
    fn settle<X>(&mut self, done: &Result<X, KeepFault>)
        ensures { Settles self.old self.new done.now }
    {
        if done.is_err() {
            self.forget();
        }
    }

    // Remembers a root that was read.
    fn learn_root(&mut self, done: &Result<Node, KeepFault>)
        ensures { Learns IsRootOf self.old self.new done.now }
    {
        match done {
            Ok(node) => self.memory.learn_root(self.alloc, node),
            Err(_) => self.forget(),
        }
    }

    // Remembers a child that was read.
    fn learn_child(&mut self, parent: u64, name: &str, done: &Result<Option<Node>, KeepFault>)
        ensures { Learns (IsChildOf parent name.now) self.old self.new done.now }
    {
        match done {
            Ok(None) => {}
            Ok(Some(node)) => self.memory.learn_child(self.alloc, parent, name, node),
            Err(_) => self.forget(),
        }
    }

    // Remembers a listing that was read.
    fn learn_listing(&mut self, parent: u64, done: &Result<Listing, KeepFault>)
        ensures { Learns (AreNamedUnder parent) self.old self.new done.now }
    {
        match done {
            Ok(names) => self.memory.learn_listing(self.alloc, parent, names),
            Err(_) => self.forget(),
        }
    }

    // Remembers groups that were read.
    fn learn_groups(&mut self, user: &Name, done: &Result<Names, KeepFault>)
        ensures { Learns (AreGroupsOf user.now) self.old self.new done.now }
    {
        match done {
            Ok(groups) => self.memory.learn_groups(self.alloc, user, groups),
            Err(_) => self.forget(),
        }
    }
}

impl<'a, K: Keep> Keep for Remembering<'a, K> {
    ghost rows = { λ k. K.rows k.keeper.now };

    ghost failures = { λ k. K.failures k.keeper.now };

    ghost writes = { λ k. K.writes k.keeper.now };

    ghost reads = { λ k. K.reads k.keeper.now };

    ghost Follows = { FollowsOn K.rows K.Follows K.IsTrusted };

    ghost IsTrusted = { IsTrustedWith K.rows K.IsTrusted };

    ghost laws = { record {
      itself = follows_itself K.laws;
      on = follows_on K.laws;
      rise = λ a b p. K.laws.rise _ _ p.below;
      grow = λ a b p. K.laws.grow _ _ p.below;
      ends = λ a. K.laws.ends a.keeper.now;
      first = trusted_first K.laws;
      last = trusted_last K.laws;
      are = λ a b t. K.laws.are _ _ t.below;
    } };

    fn root(&mut self) -> Result<Node, KeepFault> {
        match self.memory.root()? {
            Some(node) => Ok(node),
            None => {
                let done = self.keeper.root();
                self.learn_root(&done);
                done
            }
        }
    }

    fn ids(&mut self) -> Result<Numbers, KeepFault> {
        let done = self.keeper.ids();
        self.settle(&done);
        done
    }

    fn node(&mut self, id: u64) -> Result<Option<Node>, KeepFault> {
        let done = self.keeper.node(id);
        self.settle(&done);
        done
    }

    fn child(&mut self, parent: u64, name: &str) -> Result<Option<Node>, KeepFault> {
        match self.memory.child(parent, name)? {
            Some(node) => Ok(Some(node)),
            None => {
                let done = self.keeper.child(parent, name);
                self.learn_child(parent, name, &done);
                done
            }
        }
    }

    fn children(&mut self, parent: u64) -> Result<Nodes, KeepFault> {
        let done = self.keeper.children(parent);
        self.settle(&done);
        done
    }

    fn listing(&mut self, parent: u64) -> Result<Listing, KeepFault> {
        match self.memory.listing(self.alloc, parent)? {
            Some(names) => Ok(names),
            None => {
                let done = self.keeper.listing(parent);
                self.learn_listing(parent, &done);
                done
            }
        }
    }

    fn has_children(&mut self, parent: u64) -> Result<bool, KeepFault> {
        let done = self.keeper.has_children(parent);
        self.settle(&done);
        done
    }

    fn body(&mut self, id: u64) -> Result<Option<Bytes>, KeepFault> {
        let done = self.keeper.body(id);
        self.settle(&done);
        done
    }

    fn groups_of(&mut self, user: &Name) -> Result<Names, KeepFault> {
        match self.memory.groups_of(self.alloc, user)? {
            Some(groups) => Ok(groups),
            None => {
                let done = self.keeper.groups_of(user);
                self.learn_groups(user, &done);
                done
            }
        }
    }

    fn add(&mut self, node: NewNode, bytes: &[u8]) -> Result<u64, KeepFault> {
        self.forget();
        self.keeper.add(node, bytes)
    }

    fn set_held(&mut self, id: u64, which: Which, held: &Held) -> Result<(), KeepFault> {
        self.forget();
        self.keeper.set_held(id, which, held)
    }

    fn set_inh(&mut self, id: u64, which: Which, entries: &[Entry]) -> Result<(), KeepFault> {
        self.forget();
        self.keeper.set_inh(id, which, entries)
    }

    fn set_inh_all(
        &mut self,
        ids: &[u64],
        which: Which,
        entries: &[Entry],
    ) -> Result<(), KeepFault> {
        self.forget();
        self.keeper.set_inh_all(ids, which, entries)
    }

    fn set_owners(&mut self, id: u64, owners: &Owners) -> Result<(), KeepFault> {
        self.forget();
        self.keeper.set_owners(id, owners)
    }

    fn set_place(&mut self, id: u64, parent: u64, name: &str) -> Result<(), KeepFault> {
        self.forget();
        self.keeper.set_place(id, parent, name)
    }

    fn remove(&mut self, id: u64) -> Result<(), KeepFault> {
        self.forget();
        self.keeper.remove(id)
    }

    fn set_body(&mut self, id: u64, bytes: &[u8]) -> Result<(), KeepFault> {
        self.forget();
        self.keeper.set_body(id, bytes)
    }

    fn note(&mut self, row: AuditRow) -> Result<(), KeepFault> {
        self.forget();
        self.keeper.note(row)
    }
}
