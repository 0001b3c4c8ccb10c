//! A keeper that counts calls.
ghost use Rattle.std.specs.Prelude.{◌+◌};

use room_ace::{Entry, Name, Names, Owners, Which};
use room_rows::{AuditRow, Bytes, Held, Keep, KeepFault, Listing, NewNode, Node, Nodes, Numbers};
use std::test::Fail;

/// How often each kind of call was made. Calls of `set_inh` are counted apart from the other calls
/// that write rows, so that a spread is seen apart from the change that starts it. A call of
/// `set_inh_all` counts as one of `set_inh` for each of its objects.
#[derive(Clone, Copy)]
pub struct Calls {
    root: u64,
    ids: u64,
    node: u64,
    child: u64,
    children: u64,
    listing: u64,
    has_children: u64,
    body: u64,
    groups: u64,
    changes: u64,
    inherited: u64,
    records: u64,
}

impl Calls {
    /// No calls.
    pub fn none() -> Calls {
        Calls {
            root: 0,
            ids: 0,
            node: 0,
            child: 0,
            children: 0,
            listing: 0,
            has_children: 0,
            body: 0,
            groups: 0,
            changes: 0,
            inherited: 0,
            records: 0,
        }
    }

    /// All calls together.
    pub fn all(&self) -> u64 {
        self.reads()
            .saturating_add(self.writes())
            .saturating_add(self.records)
    }

    // The calls that read.
    fn reads(&self) -> u64 {
        self.root
            .saturating_add(self.ids)
            .saturating_add(self.node)
            .saturating_add(self.child)
            .saturating_add(self.children)
            .saturating_add(self.listing)
            .saturating_add(self.has_children)
            .saturating_add(self.body)
            .saturating_add(self.groups)
    }

    // The calls that write rows.
    fn writes(&self) -> u64 {
        self.changes.saturating_add(self.inherited)
    }

    // How many calls of this kind were counted.
    fn count_of(&self, word: &str) -> Option<u64> {
        match word {
            "all" => Some(self.all()),
            "writes" => Some(self.writes()),
            "inherited" => Some(self.inherited),
            "records" => Some(self.records),
            _ => self.reads_of(word),
        }
    }

    fn reads_of(&self, word: &str) -> Option<u64> {
        match word {
            "root" => Some(self.root),
            "ids" => Some(self.ids),
            "node" => Some(self.node),
            "child" => Some(self.child),
            "children" => Some(self.children),
            "listing" => Some(self.listing),
            "has_children" => Some(self.has_children),
            "body" => Some(self.body),
            "groups" => Some(self.groups),
            _ => None,
        }
    }
}

/// Tests that the calls of a line are those that a text expects, as `writes 2, records 1`.
pub(crate) fn expect_calls(calls: &Calls, line: &str, wanted: &str) -> Result<(), Fail> {
    'parts: for part in wanted.split(", ") {
        expect_count(calls, line, part)?;
    }
    Ok(())
}

fn expect_count(calls: &Calls, line: &str, part: &str) -> Result<(), Fail> {
    let (word, number) = part.split_once(" ").ok_or("no number of calls")?;
    let wanted = number.parse::<u64>()?;
    let count = calls.count_of(word).ok_or("no such call")?;
    if count == wanted {
        return Ok(());
    }
    Err(Fail::new(format_args!("{line} makes {word} {count} times, where wanted is {wanted}")))
}

/// Hands all calls on to a keeper, and counts them.
#[derive(Drop)]
pub struct Tally<K> {
    pub keeper: K,
    pub calls: Calls,
}

impl<K> Tally<K> {
    /// A keeper that counts the calls of this one from now on.
    pub fn of(keeper: K) -> Tally<K> {
        Tally {
            keeper,
            calls: Calls::none(),
        }
    }
}

impl<K: Keep> Keep for Tally<K> {
    ghost rows = { λ k. K.rows k.keeper };

    ghost failures = { λ k. K.failures k.keeper };

    ghost writes = { λ k. K.writes k.keeper };

    // The calls that read, without those of `set_inh_all` that write to no object.
    ghost reads = { λ k. k.calls.root + k.calls.ids + k.calls.node + k.calls.child
        + k.calls.children + k.calls.listing + k.calls.has_children + k.calls.body
        + k.calls.groups };

    ghost Follows = { λ a b. K.Follows a.keeper b.keeper };

    ghost IsTrusted = { λ a b. K.IsTrusted a.keeper b.keeper };

    fn root(&mut self) -> Result<Node, KeepFault> {
        self.calls.root = self.calls.root.saturating_add(1);
        self.keeper.root()
    }

    fn ids(&mut self) -> Result<Numbers, KeepFault> {
        self.calls.ids = self.calls.ids.saturating_add(1);
        self.keeper.ids()
    }

    fn node(&mut self, id: u64) -> Result<Option<Node>, KeepFault> {
        self.calls.node = self.calls.node.saturating_add(1);
        self.keeper.node(id)
    }

    fn child(&mut self, parent: u64, name: &str) -> Result<Option<Node>, KeepFault> {
        self.calls.child = self.calls.child.saturating_add(1);
        self.keeper.child(parent, name)
    }

    fn children(&mut self, parent: u64) -> Result<Nodes, KeepFault> {
        self.calls.children = self.calls.children.saturating_add(1);
        self.keeper.children(parent)
    }

    fn listing(&mut self, parent: u64) -> Result<Listing, KeepFault> {
        self.calls.listing = self.calls.listing.saturating_add(1);
        self.keeper.listing(parent)
    }

    fn has_children(&mut self, parent: u64) -> Result<bool, KeepFault> {
        self.calls.has_children = self.calls.has_children.saturating_add(1);
        self.keeper.has_children(parent)
    }

    fn body(&mut self, id: u64) -> Result<Option<Bytes>, KeepFault> {
        self.calls.body = self.calls.body.saturating_add(1);
        self.keeper.body(id)
    }

    fn groups_of(&mut self, user: &Name) -> Result<Names, KeepFault> {
        self.calls.groups = self.calls.groups.saturating_add(1);
        self.keeper.groups_of(user)
    }

    fn add(&mut self, node: NewNode, bytes: &[u8]) -> Result<u64, KeepFault> {
        self.calls.changes = self.calls.changes.saturating_add(1);
        self.keeper.add(node, bytes)
    }

    fn set_held(&mut self, id: u64, which: Which, held: &Held) -> Result<(), KeepFault> {
        self.calls.changes = self.calls.changes.saturating_add(1);
        self.keeper.set_held(id, which, held)
    }

    fn set_inh(&mut self, id: u64, which: Which, entries: &[Entry]) -> Result<(), KeepFault> {
        self.calls.inherited = self.calls.inherited.saturating_add(1);
        self.keeper.set_inh(id, which, entries)
    }

    fn set_inh_all(
        &mut self,
        ids: &[u64],
        which: Which,
        entries: &[Entry],
    ) -> Result<(), KeepFault> {
        self.calls.inherited = self.calls.inherited.saturating_add(ids.len() as u64);
        self.keeper.set_inh_all(ids, which, entries)
    }

    fn set_owners(&mut self, id: u64, owners: &Owners) -> Result<(), KeepFault> {
        self.calls.changes = self.calls.changes.saturating_add(1);
        self.keeper.set_owners(id, owners)
    }

    fn set_place(&mut self, id: u64, parent: u64, name: &str) -> Result<(), KeepFault> {
        self.calls.changes = self.calls.changes.saturating_add(1);
        self.keeper.set_place(id, parent, name)
    }

    fn remove(&mut self, id: u64) -> Result<(), KeepFault> {
        self.calls.changes = self.calls.changes.saturating_add(1);
        self.keeper.remove(id)
    }

    fn set_body(&mut self, id: u64, bytes: &[u8]) -> Result<(), KeepFault> {
        self.calls.changes = self.calls.changes.saturating_add(1);
        self.keeper.set_body(id, bytes)
    }

    fn note(&mut self, row: AuditRow) -> Result<(), KeepFault> {
        self.calls.records = self.calls.records.saturating_add(1);
        self.keeper.note(row)
    }

    ghost laws = { record {
      itself = λ a. K.laws.itself a.keeper;
      on = λ a b c p q. K.laws.on _ _ _ p q;
      rise = λ a b p. K.laws.rise _ _ p;
      grow = λ a b p. K.laws.grow _ _ p;
      ends = λ a. K.laws.ends a.keeper;
      first = λ a b c p q t. K.laws.first _ _ _ p q t;
      last = λ a b c p q t. K.laws.last _ _ _ p q t;
      are = λ a b t. K.laws.are _ _ t;
    } };
}
